// The log of two alarms on two components that don't meet, by a truth of its variables that was found by hand.
ghost use Rattle.std.specs.Prelude.{◌≡◌, ◌+◌, ◌≤◌, []};
ghost use Rattle.calls_question.specs.Grown.{IsGrown};
ghost use Rattle.question_clauses.specs.Additions.{alarm_added};
ghost use Rattle.log_encode.specs.CodedLog.{code_after};
ghost use Rattle.log_encode.specs.Drafted.{IsDraftOf};
ghost use Rattle.log_order.specs.Log.{an_alarm};

use crate::models::{ModelCase, passes_on};
use crate::truths::{all_true, clauses_true};
use des_base::{Name, VAR_LIMIT};
use des_net::Network;
use log_encode::{Draft, LogCode};
use prop_core::{Clauses, Grid, Vars};
use std::alloc::Global;
use std::process::Abort;

// Each has one state, and one event that leads back to it.
const A_AND_B: &str = "des 1
component p
state s init
trans s a s
component q
state s init
trans s a s
event ep alarm A : p.a
event eq alarm B : q.a
";

// A log's code that grows by drafts, with all clauses that were written for it. The variables of the events are the first ones.
#[derive(Drop)]
struct Grown {
    steps: u32,
    code: LogCode,
    vars: Vars,
    clauses: Clauses,
    alarms: u32,
}

// The code of the empty log within one step.
#[tactic(auto, using(crate::proofs::Widths::first_names_fit))]
fn begun(rt: &impl Abort, alloc: Global, net: &Network) -> Grown
    ensures { IsGrown net.now result.steps result.vars result.alarms result.code.coded }
{
    let events = net.events();
    assert!(rt; events <= 8);
    let mut vars = Vars::new();
    vars.fresh(events);
    let mut clauses = Clauses::new(alloc);
    let grid = Grid {
        first: 0,
        events,
        steps: 1,
    };
    match LogCode::new(alloc, net, grid, &mut vars, &mut clauses) {
        Ok(code) => Grown {
            steps: 1,
            code,
            vars,
            clauses,
            alarms: 0,
        },
        Err(_) => panic!(rt; "memory should be left"),
    }
}

// Makes the addition of a draft.
fn add(rt: &impl Abort, grown: &mut Grown, draft: Draft)
    requires made_by { draft.code ≡ grown.old.code.coded }
    requires next { draft.first ≡ grown.old.vars }
    requires few { draft.first + draft.vars ≤ VAR_LIMIT }
    ensures code { grown.new.code.coded ≡ code_after grown.old.code.coded draft.addition draft.first }
    ensures vars { grown.new.vars ≡ draft.first + draft.vars }
    ensures alarms { grown.new.alarms ≡ grown.old.alarms }
    ensures steps { grown.new.steps ≡ grown.old.steps }
{
    let Ok(()) = grown.code.reserve(&draft) else {
        panic!(rt; "memory should be left");
    };
    let Ok(()) = grown.clauses.append(draft.clauses()) else {
        panic!(rt; "memory should be left");
    };
    grown.vars.fresh(draft.vars());
    grown.code.commit(draft);
}

// Drafts an alarm with these labels, certain or doubtful, for at most eight events and steps, and on the next variables.
#[tactic(auto, using(crate::proofs::Widths::alarm_fits))]
fn alarm_draft(rt: &impl Abort, net: &Network, grown: &Grown, labels: &[Name], maybe: bool) -> Draft
    requires { IsGrown net.now grown.now.steps grown.now.vars grown.now.alarms grown.now.code.coded }
    ensures drafted { IsDraftOf grown.now.code.coded (alarm_added (an_alarm [] labels.now maybe)) grown.now.vars result }
    ensures few { grown.now.vars + result.vars ≤ VAR_LIMIT }
{
    let first = grown.vars.count();
    assert!(rt; net.events() <= 8);
    assert!(rt; grown.steps <= 8);
    assert!(rt; first <= 1000);
    match grown.code.draft_alarm(net, labels, maybe, first) {
        Ok(draft) => draft,
        Err(_) => panic!(rt; "memory should be left"),
    }
}

// Adds an alarm with this label.
fn add_alarm(rt: &impl Abort, net: &Network, grown: &mut Grown, label: Name)
    requires { IsGrown net.now grown.old.steps grown.old.vars grown.old.alarms grown.old.code.coded }
    ensures { IsGrown net.now grown.new.steps grown.new.vars grown.new.alarms grown.new.code.coded }
{
    assert!(rt; grown.alarms < 8);
    let draft = alarm_draft(rt, net, grown, &[label], false);
    add(rt, grown, draft);
    grown.alarms += 1;
}

// Adds a pair.
fn add_pair(rt: &impl Abort, net: &Network, grown: &mut Grown, first: u32, second: u32)
    requires { IsGrown net.now grown.old.steps grown.old.vars grown.old.alarms grown.old.code.coded }
    ensures { IsGrown net.now grown.new.steps grown.new.vars grown.new.alarms grown.new.code.coded }
{
    let _ = net;
    assert!(rt; first < grown.alarms && second < grown.alarms);
    match grown.code.draft_before(first, second, grown.vars.count()) {
        Ok(draft) => add(rt, grown, draft),
        Err(_) => panic!(rt; "memory should be left"),
    }
}

// The bits of two events in one step, on 0 and 1; of what asks for the log, on 2, and of the ends of two chains; then of five
// variables of each alarm: the end of the longer chain, the match, what is passed on, and whether the alarm is matched before
// the step and after.
const MATCHED: u32 = 0b100_1110_0110_0111;

// Whether 15 variables and 26 clauses were taken, which all are true.
fn holds(grown: &Grown) -> bool {
    grown.code.vars() == 15
        && grown.clauses.len() == 26
        && clauses_true(MATCHED, &grown.clauses)
        && all_true(MATCHED, grown.code.guards())
}

fn name(rt: &impl Abort, alloc: Global, text: &[u8]) -> Name {
    Name::new(alloc, text).ok().expect(rt, "a name")
}

// Two alarms and a pair.
fn add_both(rt: &impl Abort, alloc: Global, net: &Network, grown: &mut Grown)
    requires { IsGrown net.now grown.old.steps grown.old.vars grown.old.alarms grown.old.code.coded }
    ensures { IsGrown net.now grown.new.steps grown.new.vars grown.new.alarms grown.new.code.coded }
{
    add_alarm(rt, net, grown, name(rt, alloc, b"A"));
    add_alarm(rt, net, grown, name(rt, alloc, b"B"));
    add_pair(rt, net, grown, 1, 0);
}

pub fn tells_both(rt: &impl Abort, alloc: Global, net: &Network) -> bool {
    let mut grown = begun(rt, alloc, net);
    add_both(rt, alloc, net, &mut grown);
    holds(&grown)
}

#[test]
fn two_alarms_of_one_step(rt: HostRuntime) {
    assert!(rt; passes_on(&rt, rt.alloc(), A_AND_B, &ModelCase::Told));
}
