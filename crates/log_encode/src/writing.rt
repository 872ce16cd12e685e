// The clauses of an alarm and of a pair.
ghost use Rattle.std.specs.Prelude.{◌≡◌, ◌<◌, ◌≤◌, ◌+◌, ◌*◌, ◌++◌, ◌∷◌, [], true, false, length, All, IfOk, OnOk};
ghost use Rattle.des_base.specs.ChainCount.{chain_count};
ghost use Rattle.des_base.specs.declared.TheConstants.{VAR_LIMIT};
ghost use Rattle.card_counter.specs.AtMostOne.{exclusion_clauses};
ghost use Rattle.card_counter.specs.CounterState.{positive, negative};
ghost use Rattle.log_encode.specs.AlarmVariables.{AreWithinLimit, done_variable};
ghost use Rattle.log_encode.specs.Written.{alarm_written, all_closed_written, closed_written, done_written, dropped_written, link_variables, link_written, links_written, matches_at, pair_written, real_of_link, real_written, reals_written, step_written, steps_of_link, AreLinkVariables, HasRest};

use crate::alarm_vars::AlarmVars;
use crate::taken::{ChainEnd, Taken};
use card_counter::at_most_one;
use des_base::Memory;
use prop_core::{Clauses, Grid, Lit, Vars};
use std::alloc::Global;

// The variables of a link in one step: the chain ends after it, the event comes to it, it takes the event, it passes it on, and
// its alarm is matched before the step and after.
#[derive(Clone, Copy)]
pub struct LinkVars {
    pub closed: u32,
    pub rest: u32,
    pub matched: u32,
    pub passed: u32,
    pub before: u32,
    pub after: u32,
}

fn holds(var: u32) -> Lit
    requires { var < VAR_LIMIT }
    ensures { result ≡ positive var }
{
    Lit::new(var, true)
}

fn fails(var: u32) -> Lit
    requires { var < VAR_LIMIT }
    ensures { result ≡ negative var }
{
    Lit::new(var, false)
}

// A link in one step.
fn write_link(link: LinkVars, out: &mut Clauses) -> Result<(), Memory>
    requires { AreLinkVariables link }
    ensures { OnOk result (out.new.clauses ≡ out.old.clauses ++ link_written link) }
{
    out.push(&[fails(link.closed), fails(link.passed)])?;
    out.push(&[fails(link.matched), holds(link.rest)])?;
    out.push(&[fails(link.matched), fails(link.passed)])?;
    out.push(&[fails(link.passed), holds(link.rest)])?;
    out.push(&[fails(link.rest), holds(link.matched), holds(link.passed)])?;
    out.push(&[fails(link.matched), holds(link.after)])?;
    out.push(&[fails(link.matched), fails(link.before)])?;
    Ok(())
}

fn link_vars(grid: Grid, vars: AlarmVars, link: u32, taken: &Taken, step: u32) -> LinkVars
    requires within { AreWithinLimit vars }
    requires steps { vars.steps ≡ grid.steps }
    requires link { link < vars.links }
    requires step { step < vars.steps }
    requires few { grid.first + grid.events * grid.steps ≤ VAR_LIMIT }
    requires rest { HasRest grid taken.now }
    ensures variables { result ≡ link_variables grid vars link taken.now step }
    ensures small { AreLinkVariables result }
{
    LinkVars {
        closed: vars.closed(link),
        rest: taken.rest(grid, step),
        matched: vars.matched(link, step),
        passed: vars.passed(link, step),
        before: vars.done(step),
        after: vars.done(step + 1),
    }
}

// A link in all steps.
fn write_steps(
    grid: Grid,
    vars: AlarmVars,
    link: u32,
    taken: &Taken,
    out: &mut Clauses,
) -> Result<(), Memory>
    requires within { AreWithinLimit vars }
    requires steps { vars.steps ≡ grid.steps }
    requires link { link < vars.links }
    requires few { grid.first + grid.events * grid.steps ≤ VAR_LIMIT }
    requires rest { HasRest grid taken.now }
    ensures { OnOk result (out.new.clauses ≡ out.old.clauses ++ steps_of_link grid vars link taken.now vars.steps) }
{
    for step in 0..vars.steps {
        write_link(link_vars(grid, vars, link, taken, step), out)?;
    }
    Ok(())
}

// All links.
fn write_links(
    grid: Grid,
    vars: AlarmVars,
    takes: &[Taken],
    out: &mut Clauses,
) -> Result<(), Memory>
    requires within { AreWithinLimit vars }
    requires steps { vars.steps ≡ grid.steps }
    requires links { vars.links ≡ length takes.now }
    requires few { grid.first + grid.events * grid.steps ≤ VAR_LIMIT }
    requires rest { All (HasRest grid) takes.now }
    ensures { OnOk result (out.new.clauses ≡ out.old.clauses ++ links_written grid vars 0 takes.now) }
{
    for (link, taken) in takes.iter().enumerate() {
        write_steps(grid, vars, link as u32, taken, out)?;
    }
    Ok(())
}

// That the alarm is matched to the events of its links in a step, one literal each.
fn matches_at(alloc: Global, vars: AlarmVars, step: u32) -> Result<Vec<Lit>, Memory>
    requires within { AreWithinLimit vars }
    requires step { step < vars.steps }
    ensures { IfOk result (λ lits. lits.items ≡ matches_at vars step) }
{
    let mut lits = Vec::new(alloc);
    for link in 0..vars.links {
        lits.push(holds(vars.matched(link, step)))?;
    }
    Ok(lits)
}

// That the alarm is false, if it is doubtful.
fn push_dropped(vars: AlarmVars, lits: &mut Vec<Lit>) -> Result<(), Memory>
    requires { AreWithinLimit vars }
    ensures { OnOk result (lits.new.items ≡ lits.old.items ++ dropped_written vars) }
{
    if vars.doubtful {
        lits.push(holds(vars.dropped()))?;
    }
    Ok(())
}

// That the alarm is matched to at most one event in a step. Where there is a chain, its variables stand from this one on.
fn exclude(matches: &[Lit], first: u32, out: &mut Clauses) -> Result<(), Memory>
    requires { first + chain_count (length matches.now) ≤ VAR_LIMIT }
    ensures { OnOk result (out.new.clauses ≡ out.old.clauses ++ exclusion_clauses matches.now first) }
{
    let mut vars = Vars::new();
    vars.fresh(first);
    at_most_one(matches, &mut vars, out)
}

// Whether the alarm is done after a step: where it was before, or one of its events is its match there, and one at most. A
// doubtful one is also done if it is false.
fn write_step(alloc: Global, vars: AlarmVars, step: u32, out: &mut Clauses) -> Result<(), Memory>
    requires within { AreWithinLimit vars }
    requires step { step < vars.steps }
    ensures { OnOk result (out.new.clauses ≡ out.old.clauses ++ step_written vars step) }
{
    let matches = matches_at(alloc, vars, step)?;
    let before = vars.done(step);
    let after = vars.done(step + 1);
    out.push(&[fails(before), holds(after)])?;
    let mut by_match = Vec::new(alloc);
    by_match.push(fails(after))?;
    by_match.push(holds(before))?;
    push_dropped(vars, &mut by_match)?;
    by_match.extend_from_slice(matches.as_slice())?;
    out.push(by_match.as_slice())?;
    exclude(matches.as_slice(), vars.chain(step), out)
}

// At first the alarm isn't done, unless it is false.
fn write_first(alloc: Global, vars: AlarmVars, out: &mut Clauses) -> Result<(), Memory>
    requires { AreWithinLimit vars }
    ensures { OnOk result (out.new.clauses ≡ out.old.clauses ++ (negative (done_variable vars 0) ∷ dropped_written vars) ∷ []) }
{
    let mut first = Vec::new(alloc);
    first.push(fails(vars.done(0)))?;
    push_dropped(vars, &mut first)?;
    out.push(first.as_slice())?;
    Ok(())
}

// Whether the alarm is done, within all numbers of steps: at first it isn't, unless it is false, and at last it is if the log is
// asked for.
fn write_done(alloc: Global, asked: u32, vars: AlarmVars, out: &mut Clauses) -> Result<(), Memory>
    requires within { AreWithinLimit vars }
    requires asked { asked < VAR_LIMIT }
    ensures { OnOk result (out.new.clauses ≡ out.old.clauses ++ done_written asked vars) }
{
    write_first(alloc, vars, out)?;
    out.push(&[fails(asked), holds(vars.done(vars.steps))])?;
    for step in 0..vars.steps {
        write_step(alloc, vars, step, out)?;
    }
    Ok(())
}

// That a false alarm isn't matched to the event of a link.
#[tactic(auto, using(crate::proofs::LoopLemmas::map_more_on))]
fn write_real_link(vars: AlarmVars, link: u32, out: &mut Clauses) -> Result<(), Memory>
    requires within { AreWithinLimit vars }
    requires doubtful { vars.doubtful ≡ true }
    requires link { link < vars.links }
    ensures { OnOk result (out.new.clauses ≡ out.old.clauses ++ real_of_link vars link vars.steps) }
{
    for step in 0..vars.steps {
        out.push(&[fails(vars.matched(link, step)), fails(vars.dropped())])?;
    }
    Ok(())
}

// The same for all links.
#[tactic(auto, using(crate::proofs::LoopLemmas::flat_more_on))]
fn write_reals(vars: AlarmVars, out: &mut Clauses) -> Result<(), Memory>
    requires within { AreWithinLimit vars }
    requires doubtful { vars.doubtful ≡ true }
    ensures { OnOk result (out.new.clauses ≡ out.old.clauses ++ reals_written vars vars.links) }
{
    for link in 0..vars.links {
        write_real_link(vars, link, out)?;
    }
    Ok(())
}

// The same if the alarm is doubtful.
fn write_real(vars: AlarmVars, out: &mut Clauses) -> Result<(), Memory>
    requires { AreWithinLimit vars }
    ensures { OnOk result (out.new.clauses ≡ out.old.clauses ++ real_written vars) }
{
    if vars.doubtful {
        write_reals(vars, out)?;
    }
    Ok(())
}

// All that is written of an alarm.
pub fn write_alarm(
    alloc: Global,
    grid: Grid,
    asked: u32,
    vars: AlarmVars,
    takes: &[Taken],
    out: &mut Clauses,
) -> Result<(), Memory>
    requires within { AreWithinLimit vars }
    requires steps { vars.steps ≡ grid.steps }
    requires links { vars.links ≡ length takes.now }
    requires few { grid.first + grid.events * grid.steps ≤ VAR_LIMIT }
    requires rest { All (HasRest grid) takes.now }
    requires asked { asked < VAR_LIMIT }
    ensures { OnOk result (out.new.clauses ≡ out.old.clauses ++ alarm_written grid asked vars takes.now) }
{
    write_links(grid, vars, takes, out)?;
    write_done(alloc, asked, vars, out)?;
    write_real(vars, out)
}

// That alarms are false, with the new one.
pub fn dropped_after(alloc: Global, dropped: &[Lit], vars: AlarmVars) -> Result<Vec<Lit>, Memory>
    requires { AreWithinLimit vars }
    ensures { IfOk result (λ after. after.items ≡ dropped.now ++ dropped_written vars) }
{
    let mut after = Vec::new(alloc);
    after.extend_from_slice(dropped)?;
    push_dropped(vars, &mut after)?;
    Ok(after)
}

// That the first alarm is done no later than the second if the log is asked for. Each begins with its own variable for 0
// steps.
#[tactic(auto, using(crate::proofs::LoopLemmas::map_more_on))]
pub fn write_pair(
    asked: u32,
    first: u32,
    second: u32,
    steps: u32,
    out: &mut Clauses,
) -> Result<(), Memory>
    requires first { first + steps < VAR_LIMIT }
    requires second { second + steps < VAR_LIMIT }
    requires asked { asked < VAR_LIMIT }
    ensures { OnOk result (out.new.clauses ≡ out.old.clauses ++ pair_written asked first second steps) }
{
    for step in 0..steps + 1 {
        out.push(&[fails(asked), fails(second + step), holds(first + step)])?;
    }
    Ok(())
}

// That an event whose chain ends doesn't happen, for a chain without alarms.
#[tactic(auto, using(crate::proofs::LoopLemmas::map_more_on))]
fn write_closed(grid: Grid, end: &ChainEnd, out: &mut Clauses) -> Result<(), Memory>
    requires event { end.now.event < grid.events }
    requires closed { end.now.closed < VAR_LIMIT }
    requires few { grid.first + grid.events * grid.steps ≤ VAR_LIMIT }
    ensures { OnOk result (out.new.clauses ≡ out.old.clauses ++ closed_written grid end.now) }
{
    for step in 0..grid.steps {
        out.push(&[fails(end.closed), fails(grid.var(end.event.0, step + 1))])?;
    }
    Ok(())
}

// The same for all chains.
pub fn write_all_closed(grid: Grid, ends: &[ChainEnd], out: &mut Clauses) -> Result<(), Memory>
    requires known { All (λ end. end.event < grid.events) ends.now }
    requires closed { All (λ end. end.closed < VAR_LIMIT) ends.now }
    requires few { grid.first + grid.events * grid.steps ≤ VAR_LIMIT }
    ensures { OnOk result (out.new.clauses ≡ out.old.clauses ++ all_closed_written grid ends.now) }
{
    for end in ends {
        write_closed(grid, end, out)?;
    }
    Ok(())
}
