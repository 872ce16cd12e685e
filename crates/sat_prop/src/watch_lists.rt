// The watches of each literal, in lists that are linked by numbers.
ghost use Rattle.std.specs.Prelude.{◌≡◌, ◌≢◌, ◌↔◌, ℕ, ◌+◌, ◌-◌, ◌<◌, ◌≤◌, ◌++◌, ◌∷◌, [], length, max, slice_set, vec_len, vec_capacity, OnOk, OnErr, IfSome, IfNone, IsTrue};
ghost use Rattle.prop_core.specs.LiteralNumbers.{literal_number};
ghost use Rattle.sat_prop.specs.declared.watch_lists.TheConstants.{NO_CLAUSE};
ghost use Rattle.sat_prop.specs.Watches.{IsFirstDropped, IsFirstWaiting, IsLive, IsOpened, MovesWatch, PassesWatch, alone, appended, ends_of, no_lists, twin_number, with_ends, with_next_watch, node_at, other_literal, unlinked, watch_at, cleared, with_watched_clause, without_clause};

use des_base::{Memory, VAR_LIMIT};
use prop_core::Lit;
use std::alloc::Global;
use std::marker::Model;

/// The number of a clause that is watched at a literal, and that of its other watch.
#[derive(Clone, Copy)]
pub struct Watch {
    pub clause: u32,
    pub lit: Lit,
    pub twin: u32,
}

/// The number of no watch, where a list ends.
pub const NO_WATCH: u32 = 4_294_967_295;

/// The number of no clause, which a watch has that was dropped. Clauses are numbered from 1.
pub const NO_CLAUSE: u32 = 0;

/// A watch as it is kept, and the number of the one that comes next in its list. Watches come in pairs, so the number of the other one is
/// known from its own. Its literal is kept as a number.
#[derive(Clone, Copy)]
pub struct Node {
    pub clause: u32,
    pub code: u32,
    pub next: u32,
}

/// The first and the last watch of a list, or none if it is empty.
#[derive(Clone, Copy)]
pub struct Ends {
    pub first: u32,
    pub last: u32,
}

/// The ends of the lists of a variable's two literals.
#[derive(Clone, Copy)]
pub struct Lists {
    pub positive: Ends,
    pub negative: Ends,
}

/// How far the list of a literal has been looked at: the watch that comes before the next one, and the next one, or none if all have been.
#[derive(Clone, Copy)]
pub struct Walk {
    pub lit: Lit,
    pub before: u32,
    pub next: u32,
}

/// Watches, numbered from 0, each in the list of the literal that it watches, where those that came first are looked at first.
/// Those of a clause may be dropped: they keep their numbers and places until they are looked at, and then leave their lists.
///
/// Room for lists is taken by `grow` and room for watches by `reserve`; no other call takes memory.
#[derive(Drop)]
pub struct WatchLists {
    nodes: Vec<Node>,
    lists: Vec<Lists>,
    walk: Walk,
    spare: usize,
}

impl Model for WatchLists {
    ghost use Rattle.sat_prop.specs.Watches.{WatchState};

    ghost Value = { WatchState };

    ghost use Rattle.sat_prop.specs.View.{lists_view, AreKeptLists};

    ghost view = { lists_view };

    ghost invariant = { AreKeptLists };
}

impl WatchLists {
    /// No watches, and no literals.
    pub fn new(alloc: Global) -> WatchLists
        ensures { result ≡ record { watches = []; waiting = []; vars = 0; spare = 0 } }
    {
        WatchLists {
            nodes: Vec::new(alloc),
            lists: Vec::new(alloc),
            walk: no_walk(),
            spare: 0,
        }
    }

    /// Adds empty lists until there are those of this many variables.
    pub fn grow(&mut self, vars: u32) -> Result<(), Memory>
        requires { vars ≤ VAR_LIMIT }
        ensures ok { OnOk result (self.new ≡ record self.old { vars = max self.old.vars vars }) }
        ensures err { OnErr result (self.new ≡ self.old) }
    {
        let count = self.lists.len().max(vars as usize);
        self.lists.reserve(count - self.lists.len())?;
        fill(&mut self.lists, count);
        Ok(())
    }

    /// Makes sure that there is room for the watches of this many more clauses.
    pub fn reserve(&mut self, clauses: usize) -> Result<(), Memory>
        ensures ok { OnOk result (self.new ≡ record self.old { spare = max self.old.spare clauses }) }
        ensures err { OnErr result (self.new ≡ self.old) }
    {
        let spare = self.spare.max(clauses);
        if spare > (WATCH_LIMIT - self.nodes.len()) / 2 {
            return Err(Memory);
        }
        self.nodes.reserve(spare * 2)?;
        self.spare = spare;
        Ok(())
    }

    /// Adds a clause that is watched at two literals. None waits after this.
    pub fn add(&mut self, clause: u32, first: Lit, second: Lit)
        requires room { 1 ≤ self.old.spare }
        requires first { first.var < self.old.vars }
        requires second { second.var < self.old.vars }
        ensures { self.new ≡ with_watched_clause self.old clause first second }
    {
        self.spare -= 1;
        self.walk.next = NO_WATCH;
        push_node(&mut self.nodes, &mut self.lists, clause, first);
        push_node(&mut self.nodes, &mut self.lists, clause, second);
    }

    /// How many watches there are, which is the number of the next one.
    pub fn len(&self) -> u32
        ensures { result ≡ length self.now.watches }
    {
        self.nodes.len() as u32
    }

    /// The watch of this number.
    pub fn watch(&self, number: u32) -> Watch
        requires { number < length self.now.watches }
        ensures { result ≡ watch_at self.now.watches number }
    {
        let node = self.nodes[number as usize];
        Watch {
            clause: node.clause,
            lit: Lit::numbered(node.code),
            twin: twin(number),
        }
    }

    /// The literal that the other watch of the same clause watches.
    pub fn other_literal(&self, number: u32) -> Lit
        requires number { number < length self.now.watches }
        requires twin { (watch_at self.now.watches number).twin < length self.now.watches }
        ensures { result ≡ other_literal self.now.watches number }
    {
        self.watch(self.watch(number).twin).lit
    }

    /// Whether the watch of this number was dropped.
    pub fn is_dropped(&self, number: u32) -> bool
        requires { number < length self.now.watches }
        ensures { IsTrue result ↔ (watch_at self.now.watches number).clause ≡ NO_CLAUSE }
    {
        self.watch(number).clause == NO_CLAUSE
    }

    /// The clause of the watch of this number, where there is such a watch that wasn't dropped.
    pub fn clause(&self, number: u32) -> Option<u32>
        ensures within { IfSome result (λ clause. number < length self.now.watches) }
        ensures live { IfSome result (λ clause. IsLive self.now.watches number) }
        ensures clause { IfSome result (λ clause. (watch_at self.now.watches number).clause ≡ clause) }
        ensures none { IfNone result (number < length self.now.watches → (watch_at self.now.watches number).clause ≡ NO_CLAUSE) }
    {
        if number >= self.len() || self.is_dropped(number) {
            return None;
        }
        Some(self.watch(number).clause)
    }

    /// Drops both watches of the clause that the one of this number watches.
    pub fn drop_clause(&mut self, number: u32)
        requires number { number < length self.old.watches }
        requires twin { (watch_at self.old.watches number).twin < length self.old.watches }
        ensures { self.new ≡ record self.old { watches = without_clause self.old.watches number } }
    {
        clear_pair(&mut self.nodes, number);
    }

    /// Lets those wait that stand in the list of the literal, in their order. These are all that watch it and weren't dropped, and some that were.
    pub fn open(&mut self, lit: Lit)
        requires { lit.var < self.old.vars }
        ensures { IsOpened self.old self.new lit }
    {
        self.walk = Walk {
            lit,
            before: NO_WATCH,
            next: ends_at(self.lists.as_slice(), lit).first,
        };
    }

    /// The next that waits, if one does.
    pub fn next(&self) -> Option<u32>
        ensures some { IfSome result (IsFirstWaiting self.now) }
        ensures none { IfNone result (self.now.waiting ≡ []) }
    {
        if self.walk.next == NO_WATCH {
            return None;
        }
        Some(self.walk.next)
    }

    /// The next that waits watches the same literal as before, and waits no more.
    pub fn stay(&mut self)
        requires { 0 < length self.old.waiting }
        ensures { PassesWatch self.old self.new }
    {
        let number = self.walk.next;
        self.walk.before = number;
        self.walk.next = self.nodes[number as usize].next;
    }

    /// The next that waits watches another literal from now on, and waits no more.
    pub fn put(&mut self, lit: Lit)
        requires waits { 0 < length self.old.waiting }
        requires known { lit.var < self.old.vars }
        requires other { (number : ℕ) → IsFirstWaiting self.old number → (watch_at self.old.watches number).lit ≢ lit }
        ensures { MovesWatch self.old self.new lit }
    {
        let number = self.walk.next;
        self.walk.next = unlink(&mut self.nodes, &mut self.lists, self.walk);
        turn(&mut self.nodes, number, lit);
        append(&mut self.nodes, &mut self.lists, number, lit);
    }

    /// The next that waits was dropped, leaves its list, and waits no more.
    pub fn forget(&mut self)
        requires waits { 0 < length self.old.waiting }
        requires dropped { IsFirstDropped self.old }
        ensures { PassesWatch self.old self.new }
    {
        self.walk.next = unlink(&mut self.nodes, &mut self.lists, self.walk);
    }
}

// How many watches there may be.
const WATCH_LIMIT: usize = NO_WATCH as usize;

// The number of a literal, as a node keeps it.
fn code_of(lit: Lit) -> u32
    requires { lit.var < VAR_LIMIT }
    ensures { result ≡ literal_number lit }
{
    lit.number() as u32
}

// The number of the other watch of a pair.
fn twin(number: u32) -> u32
    requires { number < NO_WATCH }
    ensures { result ≡ twin_number number }
{
    if number % 2 == 0 {
        number + 1
    } else {
        number - 1
    }
}

// No list is looked at.
fn no_walk() -> Walk
    ensures { result.next ≡ NO_WATCH }
{
    Walk {
        lit: Lit::numbered(0),
        before: NO_WATCH,
        next: NO_WATCH,
    }
}

// Adds empty lists until there are those of `count` variables, in room that is there.
fn fill(lists: &mut Vec<Lists>, count: usize)
    requires more { vec_len lists.old ≤ count }
    requires room { count ≤ vec_capacity lists.old }
    ensures { lists.new.items ≡ lists.old.items ++ no_lists (count - length lists.old.items) }
{
    let empty = Ends {
        first: NO_WATCH,
        last: NO_WATCH,
    };
    'more: while lists.len() < count {
        lists
            .push(Lists {
                positive: empty,
                negative: empty,
            })
            .unwrap();
    }
}

// The ends of the list of a literal.
fn ends_at(lists: &[Lists], lit: Lit) -> Ends
    requires { lit.var < length lists.now }
    ensures { result ≡ ends_of lists.now lit }
{
    let lists = lists[lit.var() as usize];
    if lit.is_positive() {
        lists.positive
    } else {
        lists.negative
    }
}

// Lets the list of a literal have other ends.
fn set_ends(lists: &mut Vec<Lists>, lit: Lit, ends: Ends)
    requires { lit.var < length lists.old.items }
    ensures { lists.new.items ≡ with_ends lists.old.items lit ends }
{
    if lit.is_positive() {
        lists[lit.var() as usize].positive = ends;
    } else {
        lists[lit.var() as usize].negative = ends;
    }
}

// The ends of a list to which a watch is appended.
fn longer(ends: Ends, number: u32) -> Ends
    ensures { result ≡ appended ends number }
{
    let first = if ends.last == NO_WATCH {
        number
    } else {
        ends.first
    };
    Ends {
        first,
        last: number,
    }
}

// The ends of a list that a watch leaves, where those before and after it are known.
fn shorter(ends: Ends, before: u32, after: u32) -> Ends
    ensures { result ≡ unlinked ends before after }
{
    let first = if before == NO_WATCH {
        after
    } else {
        ends.first
    };
    let last = if after == NO_WATCH { before } else { ends.last };
    Ends { first, last }
}

// Lets one watch come after another one, if there is that one.
fn link(nodes: &mut Vec<Node>, before: u32, after: u32)
    requires { before ≢ NO_WATCH → before < length nodes.old.items }
    ensures nodes { nodes.new.items ≡ with_next_watch nodes.old.items before after }
    ensures room { vec_capacity nodes.new ≡ vec_capacity nodes.old }
{
    if before != NO_WATCH {
        nodes[before as usize].next = after;
    }
}

// Takes the watch that is next in a walk out of its list. Returns the one that comes after it.
fn unlink(nodes: &mut Vec<Node>, lists: &mut Vec<Lists>, walk: Walk) -> u32
    requires known { walk.lit.var < length lists.old.items }
    requires next { walk.next < length nodes.old.items }
    requires before { walk.before ≢ NO_WATCH → walk.before < length nodes.old.items }
    ensures after { result ≡ (node_at nodes.old.items walk.next).next }
    ensures nodes { nodes.new.items ≡ with_next_watch nodes.old.items walk.before result }
    ensures lists { lists.new.items ≡ with_ends lists.old.items walk.lit (unlinked (ends_of lists.old.items walk.lit) walk.before result) }
    ensures room { vec_capacity nodes.new ≡ vec_capacity nodes.old }
{
    let after = nodes[walk.next as usize].next;
    let ends = ends_at(lists.as_slice(), walk.lit);
    link(nodes, walk.before, after);
    set_ends(lists, walk.lit, shorter(ends, walk.before, after));
    after
}

// Appends a watch to the list of a literal.
fn append(nodes: &mut Vec<Node>, lists: &mut Vec<Lists>, number: u32, lit: Lit)
    requires known { lit.var < length lists.old.items }
    requires last { (ends_of lists.old.items lit).last ≢ NO_WATCH → (ends_of lists.old.items lit).last < length nodes.old.items }
    ensures nodes { nodes.new.items ≡ with_next_watch nodes.old.items (ends_of lists.old.items lit).last number }
    ensures lists { lists.new.items ≡ with_ends lists.old.items lit (appended (ends_of lists.old.items lit) number) }
    ensures room { vec_capacity nodes.new ≡ vec_capacity nodes.old }
{
    let ends = ends_at(lists.as_slice(), lit);
    link(nodes, ends.last, number);
    set_ends(lists, lit, longer(ends, number));
}

// Lets a watch that is in no list watch a literal.
fn turn(nodes: &mut Vec<Node>, number: u32, lit: Lit)
    requires known { lit.var < VAR_LIMIT }
    requires number { number < length nodes.old.items }
    ensures nodes { nodes.new.items ≡ slice_set nodes.old.items number (alone (node_at nodes.old.items number).clause lit) }
    ensures room { vec_capacity nodes.new ≡ vec_capacity nodes.old }
{
    let clause = nodes[number as usize].clause;
    nodes[number as usize] = Node {
        clause,
        code: code_of(lit),
        next: NO_WATCH,
    };
}

// Adds a watch, at the end of the list of its literal.
fn push_node(nodes: &mut Vec<Node>, lists: &mut Vec<Lists>, clause: u32, lit: Lit)
    requires known { lit.var < length lists.old.items }
    requires limit { length lists.old.items ≤ VAR_LIMIT }
    requires last { (ends_of lists.old.items lit).last ≢ NO_WATCH → (ends_of lists.old.items lit).last < length nodes.old.items }
    requires few { vec_len nodes.old < NO_WATCH }
    requires room { vec_len nodes.old < vec_capacity nodes.old }
    ensures nodes { nodes.new.items ≡ with_next_watch (nodes.old.items ++ alone clause lit ∷ []) (ends_of lists.old.items lit).last (length nodes.old.items) }
    ensures lists { lists.new.items ≡ with_ends lists.old.items lit (appended (ends_of lists.old.items lit) (length nodes.old.items)) }
    ensures room { vec_capacity nodes.old ≤ vec_capacity nodes.new }
{
    let number = nodes.len() as u32;
    nodes
        .push(Node {
            clause,
            code: code_of(lit),
            next: NO_WATCH,
        })
        .unwrap();
    append(nodes, lists, number, lit);
}

// Drops a watch and the other one of its pair.
fn clear_pair(nodes: &mut Vec<Node>, number: u32)
    requires few { number < NO_WATCH }
    requires number { number < length nodes.old.items }
    requires twin { twin_number number < length nodes.old.items }
    ensures nodes { nodes.new.items ≡ cleared (cleared nodes.old.items number) (twin_number number) }
    ensures room { vec_capacity nodes.new ≡ vec_capacity nodes.old }
{
    clear(nodes, number);
    clear(nodes, twin(number));
}

// Drops a watch, which stays where it is.
fn clear(nodes: &mut Vec<Node>, number: u32)
    requires { number < length nodes.old.items }
    ensures nodes { nodes.new.items ≡ cleared nodes.old.items number }
    ensures room { vec_capacity nodes.new ≡ vec_capacity nodes.old }
{
    nodes[number as usize].clause = NO_CLAUSE;
}
