// Where the variables and clauses of a small network stand behind what was there.
ghost use Rattle.std.specs.Prelude.{◌≡◌, ◌≤◌};

use crate::models::{ModelCase, passes_on};
use crate::steps::plainly_coded;
use des_base::{CompId, StateId};
use des_net::Network;
use prop_core::{Clauses, Lit, Vars};
use std::alloc::Global;
use std::process::Abort;
use step_encode::StepCode;

// One component hands over to the other, and each goes back by itself; two events are faults.
const HANDOVER: &str = "des 1
component p
state s0 init
state s1
trans s0 over s1
trans s1 back s0
component q
state s0
state s1 init
trans s1 over s0
trans s0 back s1
event over fault : p.over q.over
event ep : p.back
event eq fault : q.back
";

// The first was there before.
static INPUTS: [(u32, bool); 5] = [(0, false), (17, true), (18, true), (21, true), (22, true)];

fn are_lits(lits: &[Lit], rows: &[(u32, bool)]) -> bool {
    if lits.len() != rows.len() {
        return false;
    }
    for place in 0..rows.len() {
        if lits[place].var() != rows[place].0 || lits[place].is_positive() != rows[place].1 {
            return false;
        }
    }
    true
}

fn lists_inputs(net: &Network, code: &StepCode, inputs: &mut Vec<Lit>) -> bool
    requires { net.now ≡ code.now.net }
{
    inputs.push(Lit::new(0, false)).is_ok()
        && code.fault_inputs(net, inputs).is_ok()
        && are_lits(inputs.as_slice(), &INPUTS)
}

fn has_grid(code: &StepCode) -> bool {
    let grid = code.grid();
    grid.first == 17 && grid.events == 3 && grid.steps == 2
}

fn has_states(net: &Network, code: &StepCode) -> bool
    requires net { code.now.net ≡ net.now }
    requires steps { code.now.steps ≡ 2 }
{
    net.components() == 2
        && net.states(CompId(1)) == 2
        && code.state_var(CompId(1), StateId(1), 2) == 16
}

fn has_places(alloc: Global, net: &Network, code: &StepCode) -> bool
    requires net { code.now.net ≡ net.now }
    requires steps { code.now.steps ≡ 2 }
{
    has_grid(code) && has_states(net, code) && lists_inputs(net, code, &mut Vec::new(alloc))
}

// Of two components of two states each, and three events, the first and the last of which are faults; within two steps. There are
// 12 variables of states and 6 of events, and 42 clauses, behind five variables and a clause that were there before.
fn stands_behind(
    rt: &impl Abort,
    alloc: Global,
    net: &Network,
    vars: &mut Vars,
    out: &mut Clauses,
) -> bool
    requires { vars.old ≤ 1000 }
{
    let code = plainly_coded(rt, alloc, net, 2, vars, out);
    vars.count() == 23 && out.len() == 43 && has_places(alloc, net, &code)
}

pub fn stands_behind_five(
    rt: &impl Abort,
    alloc: Global,
    net: &Network,
    out: &mut Clauses,
) -> bool {
    let mut vars = Vars::new();
    vars.fresh(5);
    out.push(&[]).is_ok() && stands_behind(rt, alloc, net, &mut vars, out)
}

#[test]
fn stands_behind_what_was_there(rt: HostRuntime) {
    assert!(rt; passes_on(&rt, rt.alloc(), HANDOVER, &ModelCase::Behind));
}
