// Sizes of questions that were worked by hand. Sizes of generated plants, and others above the limit, are cases of files.
use crate::models::{ModelCase, VALVE, alarm_log, passes_on};
use des_net::Network;
use sizing::question_size;
use std::alloc::Global;

// A log, the steps, and the size.
pub type Size = (&'static str, u32, u64);

const EMPTY: &str = "des 1\n";

// An alarm that no event can be, in each of the steps.
const SIZES_OF_NOTHING: [Size; 2] = [("", 3, 0), ("alarm,x0,T\n", 3, 3)];

// One component, of 3 states, which 4 events touch; one of these is a fault.
const SIZES_OF_VALVE: [Size; 5] = [
    ("", 2, 610),
    ("alarm,x0,T\n", 2, 614),
    ("maybe,x0,T\n", 2, 870),
    ("alarm,x0,T\n", 0, 0),
    ("alarm,x0,T|F|B\nalarm,x1,X\nbefore,x0,x1\n", 1, 317),
];

// The valve and a bell, which rings by itself, by a fault, and as the valve trips.
const VALVE_AND_BELL: &str =
    "des 1\ncomponent valve\nstate ok init\nstate bad\nstate off\ntrans ok jam bad\ntrans bad trip off\ntrans off fix ok\ntrans ok beat ok\nevent jam fault : valve.jam\ncomponent bell\nstate idle init\ntrans idle ring idle\nevent R alarm R : bell.ring\nevent crack fault : bell.ring\nevent trip alarm R : valve.trip bell.ring\n";

// Two components, of 3 states and 2 events and of 1 state and 3 events; two events are faults.
const SIZES_OF_VALVE_AND_BELL: [Size; 4] = [
    ("alarm,x0,R\nalarm,x1,B\nbefore,x0,x1\n", 1, 560),
    ("alarm,x0,R\nalarm,x1,B\n", 1, 559),
    (
        "alarm,x0,B|R\nalarm,x1,R\nalarm,x2,R|R\nalarm,x3,B\nbefore,x0,x1\nbefore,x1,x2\nbefore,x2,x3\n",
        7,
        4_004,
    ),
    ("alarm,x0,R\n", 1000, 558_000),
];

// Whether these are the sizes of questions about a network.
pub fn are_sizes(alloc: Global, net: &Network, rows: &[Size]) -> bool {
    for row in rows {
        if !is_size(alloc, net, row) {
            return false;
        }
    }
    true
}

fn is_size(alloc: Global, net: &Network, row: &Size) -> bool {
    match alarm_log(alloc, row.0) {
        Some(log) => {
            let right = row.1 <= 1000 && question_size(net, &log, row.1) == row.2;
            drop(log);
            right
        }
        None => false,
    }
}

#[test]
fn tells_sizes(rt: HostRuntime) {
    assert!(rt; passes_on(&rt, rt.alloc(), EMPTY, &ModelCase::Sizes(&SIZES_OF_NOTHING)));
    assert!(rt; passes_on(&rt, rt.alloc(), VALVE, &ModelCase::Sizes(&SIZES_OF_VALVE)));
    assert!(rt;
        passes_on(
            &rt,
            rt.alloc(),
            VALVE_AND_BELL,
            &ModelCase::Sizes(&SIZES_OF_VALVE_AND_BELL)
        )
    );
}
