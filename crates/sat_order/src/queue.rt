// Variables in runs of equal rank, each with a place before which none waits.
ghost use Rattle.std.specs.Prelude.{◌≡◌, ◌<◌, ◌≤◌, ◌+◌, ◌++◌, ◌∷◌, ℕ, Bool, List, [], true, false, length, max, slice_set, vec_len, vec_capacity, OnOk, OnErr, IfSome, IfNone};
ghost use Rattle.std.specs.List.{AllByRecursion, AllZip};
ghost use Rattle.des_base.specs.declared.TheConstants.{VAR_LIMIT};
ghost use Rattle.sat_order.specs.Waiting.{IsNext, NoneWaits, waits};
ghost use Rattle.sat_order.specs.Queue.{AreRuns, EndsBehind, GivesNext, IsFirstToWait, IsMovedOn, IsPlaceOf, IsRankRun, Lengthens, LetsWait, WaitsNext};

use des_base::{Memory, VAR_LIMIT};
use std::alloc::Global;
use std::marker::Model;

// Variables of equal rank that were added one after another, from the end of the run before it up to its own. None of them waits
// before `next`.
#[derive(Clone, Copy)]
pub struct RankRun {
    pub rank: u64,
    pub next: u32,
    pub end: u32,
}

// Variables with their ranks, some of which wait.
#[derive(Drop)]
pub struct Queue {
    ranks: Vec<u64>,
    waiting: Vec<bool>,
    runs: Vec<RankRun>,
    spare: usize,
}

impl Model for Queue {
    ghost use Rattle.std.specs.Prelude.{◌+◌, ◌≤◌, length, vec_len, vec_capacity};
    ghost use Rattle.sat_order.specs.Queue.{QueueState, IsQueue};

    ghost Value = { QueueState };

    ghost view = { λ a. record { ranks = a.ranks.items; waiting = a.waiting.items; spare = a.spare } };

    ghost invariant = { λ a. record {
      queue : IsQueue a.ranks.items a.waiting.items a.runs.items;
      ranks : vec_len a.ranks + a.spare ≤ vec_capacity a.ranks;
      waiting : vec_len a.waiting + a.spare ≤ vec_capacity a.waiting;
      runs : vec_len a.runs + a.spare ≤ vec_capacity a.runs;
    } };
}

impl Queue {
    pub fn new(alloc: Global) -> Queue
        ensures { result ≡ record { ranks = []; waiting = []; spare = 0 } }
    {
        Queue {
            ranks: Vec::new(alloc),
            waiting: Vec::new(alloc),
            runs: Vec::new(alloc),
            spare: 0,
        }
    }

    // How many variables there are.
    pub fn len(&self) -> usize
        ensures { result ≡ length self.now.ranks }
    {
        self.ranks.len()
    }

    // The rank of each variable.
    pub fn ranks(&self) -> &[u64]
        ensures { result.now ≡ self.now.ranks }
    {
        &self.ranks
    }

    // Makes sure that there is room for this many more variables.
    pub fn reserve(&mut self, vars: usize) -> Result<(), Memory>
        ensures ok { OnOk result (self.new ≡ record self.old { spare = max self.old.spare vars }) }
        ensures err { OnErr result (self.new ≡ self.old) }
    {
        let room = self.spare.max(vars);
        self.ranks.reserve(room)?;
        self.waiting.reserve(room)?;
        self.runs.reserve(room)?;
        self.spare = room;
        Ok(())
    }

    // Adds the next variable, which waits.
    pub fn add(&mut self, rank: u64)
        requires room { 1 ≤ self.old.spare }
        requires limit { length self.old.ranks < VAR_LIMIT }
        ensures ranks { self.new.ranks ≡ self.old.ranks ++ rank ∷ [] }
        ensures waiting { self.new.waiting ≡ self.old.waiting ++ true ∷ [] }
        ensures spare { self.new.spare + 1 ≡ self.old.spare }
    {
        let var = self.ranks.len() as u32;
        self.ranks.push(rank).unwrap();
        self.waiting.push(true).unwrap();
        lengthen(&mut self.runs, rank, var);
        self.spare -= 1;
    }

    // Lets a variable wait.
    pub fn put_back(&mut self, var: u32)
        requires { var < length self.old.waiting }
        ensures { self.new ≡ record self.old { waiting = slice_set self.old.waiting var true } }
    {
        if self.waiting[var as usize] {
            return;
        }
        self.waiting[var as usize] = true;
        lower(&mut self.runs, var);
    }

    // Takes the variable that comes first of those that wait.
    pub fn take(&mut self) -> Option<u32>
        ensures next { IfSome result (λ var. IsNext self.old.ranks self.old.waiting var) }
        ensures taken { IfSome result (λ var. self.new ≡ record self.old { waiting = slice_set self.old.waiting var false }) }
        ensures none { IfNone result (NoneWaits self.old.waiting) }
        ensures same { IfNone result (self.new ≡ self.old) }
    {
        move_on(&mut self.runs, &self.waiting);
        let run = best(&self.runs)?;
        self.waiting[run.next as usize] = false;
        Some(run.next)
    }
}

// Adds a variable to the last run if that has its rank, and otherwise to a new one.
fn lengthen(runs: &mut Vec<RankRun>, rank: u64, var: u32)
    requires room { vec_len runs.old + 1 ≤ vec_capacity runs.old }
    requires limit { var < VAR_LIMIT }
    ensures runs { Lengthens rank var runs.old.items runs.new.items }
    ensures count { vec_len runs.new ≤ vec_len runs.old + 1 }
    ensures capacity { vec_capacity runs.old ≤ vec_capacity runs.new }
{
    let count = runs.len();
    if count > 0 && runs[count - 1].rank == rank {
        runs[count - 1].end = var + 1;
    } else {
        runs.push(RankRun {
            rank,
            next: var,
            end: var + 1,
        })
        .unwrap();
    }
}

// Lets the run of a variable go on from there at the latest.
fn lower(runs: &mut [RankRun], var: u32)
    requires { EndsBehind var runs.old }
    ensures { LetsWait var runs.old runs.new }
{
    let place = place_of(runs, var);
    let next = runs[place].next.min(var);
    runs[place].next = next;
}

// The place of the run that has a variable.
fn place_of(runs: &[RankRun], var: u32) -> usize
    requires { EndsBehind var runs.now }
    ensures inside { result < length runs.now }
    ensures place { IsPlaceOf var runs.now result }
{
    let mut place = 0_usize;
    'on: while runs[place].end <= var {
        place += 1;
    }
    place
}

// Moves each run on to the first of its variables that waits.
fn move_on(runs: &mut [RankRun], waiting: &[bool])
    ensures { AllZip (IsMovedOn waiting.now) runs.old runs.new }
{
    for run in runs.iter_mut() {
        *run = moved_on(*run, waiting);
    }
}

// A run at the first of its variables that waits.
fn moved_on(run: RankRun, waiting: &[bool]) -> RankRun
    ensures { IsMovedOn waiting.now run result }
{
    RankRun {
        rank: run.rank,
        next: first_waiting(waiting, run.next, run.end),
        end: run.end,
    }
}

// The first variable that waits, from `next` on and before the end, or the end.
fn first_waiting(waiting: &[bool], next: u32, end: u32) -> u32
    ensures { IsFirstToWait waiting.now next end result }
{
    let mut var = next;
    'on: while var < end && !waits(waiting, var) {
        var += 1;
    }
    var
}

// Whether a variable waits.
fn waits(waiting: &[bool], var: u32) -> bool
    ensures { result ≡ waits waiting.now var }
{
    match waiting.get(var as usize) {
        Some(waits) => *waits,
        None => false,
    }
}

// Of the runs in which a variable waits, the first with the greatest rank.
fn best(runs: &[RankRun]) -> Option<RankRun>
    ensures { (ranks : List ℕ) (waiting : List Bool) (last : ℕ) → AreRuns ranks waiting 0 last runs.now → AllByRecursion (WaitsNext waiting) runs.now → GivesNext ranks waiting last result }
{
    let mut best: Option<RankRun> = None;
    for run in runs {
        best = better(best, *run);
    }
    best
}

// A run if a variable waits in it, and it has a greater rank than the best of those before it, which is kept otherwise.
fn better(best: Option<RankRun>, run: RankRun) -> Option<RankRun>
    ensures { (ranks : List ℕ) (waiting : List Bool) (first : ℕ) → IsRankRun ranks waiting first run → WaitsNext waiting run → GivesNext ranks waiting first best → GivesNext ranks waiting run.end result }
{
    if run.next >= run.end {
        return best;
    }
    match best {
        Some(kept) if run.rank <= kept.rank => best,
        _ => Some(run),
    }
}
