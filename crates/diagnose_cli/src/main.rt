//! A diagnoser for networks of component automata: the program.
//!
//! `run` does all that the program does, over a shelf of files and a sink for the output; its contract is the main
//! theorem. `main` takes the words of the command line, the real files and the real output, calls `run`, and exits with
//! the status that it answers.
#![tactic(auto)]

ghost use Rattle.std.specs.Prelude.{◌≡◌, IfOk, drop, map, string_bytes};
ghost use Rattle.std.specs.Vec.Iter.{into_iter_items};

mod answering;
mod asking;
mod bench_command;
mod cheapest_command;
mod check_command;
mod cnf_command;
mod command;
mod diagnose_command;
mod generate_command;
mod proof_command;
mod reading;
mod replay_command;
mod run;
mod session_command;
mod session_rows;
mod show_command;
mod speaking;
mod trace_command;
mod twin_command;
mod verdicts_command;

use des_base::{Memory, WordList};
use devices::{DiskShelf, OutSink};
use proof_ledger::Ledger;
use std::alloc::Global;
use std::io::ErrorKind;
use std::process::ExitCode;
use std::{env, io};

// The words of the command line in order, without the program's name, which comes first.
fn words_of(alloc: Global, mut args: env::Args) -> Result<WordList, Memory>
    ensures { IfOk result (λ words. words ≡ map string_bytes (drop 1 (into_iter_items args))) }
{
    let mut words = WordList::new(alloc);
    args.next();
    for arg in args {
        words.push(arg.as_str())?;
    }
    Ok(words)
}

fn main(rt: HostRuntime) -> ExitCode {
    let args = match env::args(&rt) {
        Ok(args) => args,
        Err(error) if error.kind() == ErrorKind::OutOfMemory => return ExitCode::from(9),
        Err(_) => return ExitCode::from(1),
    };
    let words = match words_of(rt.alloc(), args) {
        Ok(words) => words,
        Err(Memory) => return ExitCode::from(9),
    };
    let mut shelf = DiskShelf::new(&rt);
    let mut out = OutSink::new(io::writer(&rt));
    let mut book = Ledger::new(rt.alloc());
    ExitCode::from(run::run(rt.alloc(), &words, &mut shelf, &mut out, &mut book))
}
