// Runs that were read and are printed again, which no command does.
ghost use Rattle.std.specs.Prelude.{◌<◌, All, IfSome, length};
ghost use Rattle.replay.specs.Traced.{word_of};

use crate::models::{ModelCase, passes_on};
use des_net::Network;
use replay::{Run, read_run};
use report::print_run;
use std::alloc::Global;

// One component, and the events jam and trip, which are not seen.
const PUMP: &str =
    "des 1\ncomponent pump\nstate on init\ntrans on turn on\nevent jam fault : pump.turn\nevent trip : pump.turn\n";

// Begins a text to append to.
fn begins(out: &mut Vec<u8>) -> bool {
    out.extend_from_slice(b"> ").is_ok()
}

// The run of a text, whose events are the network's.
fn run_of(alloc: Global, net: &Network, text: &str) -> Option<Run>
    ensures { IfSome result (λ run. All (λ e. e < length net.now.events) (word_of run)) }
{
    if text.len() > 100 {
        return None;
    }
    read_run(alloc, text.as_bytes(), net).ok()
}

// A text of a run, and how the run is printed behind the sign `> `.
static RUNS: [(&str, &str); 5] = [
    ("run 0", "> run 0\n"),
    ("run 1\njam\n", "> run 1\njam\n"),
    ("run 2\n! a1\njam\n", "> run 2\n! a1\njam\n"),
    (
        "EXPLAINED 2\n# by hand\nrun 3\r\n\njam\n trip\ta1\njam",
        "> run 3\njam\ntrip a1\njam\n",
    ),
    (
        "run 10\ntrip a1\njam\njam\njam\njam\njam\njam\njam\njam\ntrip b-2\n",
        "> run 10\ntrip a1\njam\njam\njam\njam\njam\njam\njam\njam\ntrip b-2\n",
    ),
];

fn prints(alloc: Global, net: &Network, text: &str, out: &mut Vec<u8>) -> bool {
    match run_of(alloc, net, text) {
        Some(run) => print_run(&run, net, out).is_ok(),
        None => false,
    }
}

fn prints_row(alloc: Global, net: &Network, row: &(&str, &str), out: &mut Vec<u8>) -> bool {
    out.clear();
    begins(out) && prints(alloc, net, row.0, out) && out.as_slice() == row.1.as_bytes()
}

fn prints_all(alloc: Global, net: &Network, out: &mut Vec<u8>) -> bool {
    for row in &RUNS {
        if !prints_row(alloc, net, row, out) {
            return false;
        }
    }
    true
}

pub fn prints_new(alloc: Global, net: &Network) -> bool {
    prints_all(alloc, net, &mut Vec::new(alloc))
}

#[test]
fn appends_runs(rt: HostRuntime) {
    assert!(rt; passes_on(&rt, rt.alloc(), PUMP, &ModelCase::Prints));
}
