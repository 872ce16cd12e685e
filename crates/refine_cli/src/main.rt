//! A model, written with more components: the program.
//!
//! `run` does all that the program does, over a shelf of files and a sink for the output; its contract is the main
//! theorem. `main` takes the words of the command line, the real files and the real output, calls `run`, and exits with
//! the status that it answers.
#![tactic(auto)]

ghost use Rattle.std.specs.Prelude.{◌≡◌, IfOk, map, string_bytes};
ghost use Rattle.std.specs.Vec.Iter.{into_iter_items};

mod run;

use des_base::{Memory, WordList};
use devices::{DiskShelf, OutSink};
use std::alloc::Global;
use std::io::ErrorKind;
use std::process::ExitCode;
use std::{env, io};

// The words of the command line in order, the program's name first.
fn words_of(alloc: Global, args: env::Args) -> Result<WordList, Memory>
    ensures { IfOk result (λ words. words ≡ map string_bytes (into_iter_items args)) }
{
    let mut words = WordList::new(alloc);
    for arg in args {
        words.push(arg.as_str())?;
    }
    Ok(words)
}

fn main(rt: HostRuntime) -> ExitCode {
    let args = match env::args(&rt) {
        Ok(args) => args,
        Err(error) if error.kind() == ErrorKind::OutOfMemory => return ExitCode::from(9),
        Err(_) => return ExitCode::from(1),
    };
    let words = match words_of(rt.alloc(), args) {
        Ok(words) => words,
        Err(Memory) => return ExitCode::from(9),
    };
    let mut shelf = DiskShelf::new(&rt);
    let mut out = OutSink::new(io::writer(&rt));
    ExitCode::from(run::run(rt.alloc(), &words, &mut shelf, &mut out))
}
