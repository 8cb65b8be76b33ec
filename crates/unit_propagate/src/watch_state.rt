//! The propagator's arrays, and propagation over them.

ghost use Rattle.std.specs.Prelude.{◌≡◌, ◌≢◌, ℕ, ◌+◌, ◌-◌, ◌*◌, ◌<◌, ◌≤◌, ◌^◌, [], ◌∷◌, ◌++◌, length, take, Contains};
ghost use Rattle.std.specs.Bool.{OnTrue, OnFalse};
ghost use Rattle.std.specs.Prelude.{IfOk, IfSome, MatchOption, ◌↔◌, None, slice_index, slice_index_or, slice_set};
ghost use Rattle.plain_lits.specs.declared.lit.Lit.{Lit};
ghost use Rattle.plain_lits.specs.HintCheck.{clause_at, IsNamed};
ghost use Rattle.plain_lits.specs.Literals.{negation};
ghost use Rattle.plain_lits.specs.Packed.{packed};
ghost use Rattle.plain_lits.specs.Values.{IsValueIn};
ghost use Rattle.unit_propagate.specs.Search.{IsConflict, IsSearch, IsWatchedBy, Decides, GoesBack};
ghost use Rattle.unit_propagate.specs.States.{state_of, search_of, IsKept, IsShort, HasTrue, progress_at};
ghost use Rattle.unit_propagate.specs.Steps.{with_literal, with_pair, with_mark, begun, IsWatcher, AreDone};
ghost use Rattle.unit_propagate.specs.Steps.{Grows, IsVisit, HasVisited, IsFound, IsOpened};
ghost use Rattle.clause_watches.specs.WatchLists.{list_at, ids_at, with_id, without};

use clause_watches::{Arena, NewWatch, Pair, WatchList, code_of, ids_in, push_id, remove_id};
use lists::Memory;
use plain_lits::{Lit, PackedLit, Trail, Value};
use std::alloc::Global;

/// How far propagation had come: how many true literals, and how many clauses that watch nothing, were looked at.
#[derive(Clone, Copy)]
pub(crate) struct Progress {
    pub(crate) head: usize,
    pub(crate) done: usize,
}

/// What a visit of one clause gave: its id stays in the list, or another list has it now, or the clause is false.
#[derive(Clone, Copy)]
pub(crate) enum Visit {
    Kept,
    Moved,
    Failed(u32),
}

/// A clause in a list, and the watched literal that isn't the list's.
#[derive(Clone, Copy)]
pub(crate) struct Watcher {
    pub(crate) id: u32,
    pub(crate) other: PackedLit,
}

/// The arrays. `lists` has a list for the code of each literal, `short` the clauses that watch nothing, `reasons` the
/// clause that made the true literal of an index true, or 0. When a level begins at so many true literals, the mark of
/// that index keeps `head` and `done`, so that a return to the level before it needs no search.
#[derive(Drop)]
pub(crate) struct WatchState {
    pub(crate) alloc: Global,
    pub(crate) arena: Arena,
    pub(crate) lists: Vec<WatchList>,
    pub(crate) short: Vec<u32>,
    pub(crate) trail: Trail,
    pub(crate) reasons: Vec<u32>,
    pub(crate) progress: Vec<Progress>,
    pub(crate) head: usize,
    pub(crate) done: usize,
}

/// A clause's first literal.
fn first_of(clause: &[PackedLit]) -> Option<Lit>
    ensures { MatchOption result (clause.now ≡ []) (Contains clause.now) }
{
    match clause {
        [] => None,
        [packed, ..] => Some(packed.lit()),
    }
}

/// The mark of an index.
pub(crate) fn progress_in(progress: &[Progress], index: usize) -> Progress
    requires { index < length progress.now }
    ensures { result ≡ progress_at progress.now index }
{
    progress[index]
}

impl WatchState {
    /// No clause, and no true literal; there is a mark for that.
    pub(crate) fn open(alloc: Global) -> Result<WatchState, Memory>
        ensures kept { IfOk result (λ e. IsKept (state_of e)) }
        ensures is { IfOk result (λ e. IsOpened (state_of e)) }
    {
        let mut progress = Vec::new(alloc);
        progress.push(Progress { head: 0, done: 0 })?;
        Ok(WatchState {
            alloc,
            arena: Arena::new(alloc),
            lists: Vec::new(alloc),
            short: Vec::new(alloc),
            trail: Trail::new(alloc),
            reasons: Vec::new(alloc),
            progress,
            head: 0,
            done: 0,
        })
    }

    /// Does nothing: its contract gives callers that the search is well-formed (levels in order, each literal once).
    pub(crate) fn form(&self)
        requires { IsKept (state_of self.now) }
        ensures { IsSearch (search_of (state_of self.now)) }
    {
        let _count = self.trail.len();
    }

    /// The id of the clause that made the true literal of an index true, or 0.
    pub(crate) fn reason(&self, index: usize) -> u32
        requires kept { IsKept (state_of self.now) }
        requires within { index < length self.now.trail.lits }
        ensures { result ≡ slice_index self.now.reasons.items index }
    {
        let _form = self.trail.len();
        let reasons = self.reasons.as_slice();
        reasons[index]
    }

    /// The ids of the clauses that watch a literal.
    pub(crate) fn watchers(&self, lit: Lit) -> &[u32]
        requires { IsKept (state_of self.now) }
        ensures { (id : ℕ) → Contains result.now id ↔ IsWatchedBy (search_of (state_of self.now)) id lit }
    {
        let _lists = self.lists.len();
        if lit.var >= self.trail.vars() {
            return &[];
        }
        ids_in(self.lists.as_slice(), code_of(lit))
    }

    /// Makes a literal true, with its reason.
    pub(crate) fn imply(&mut self, lit: Lit, id: u32)
        requires within { lit.var < self.old.trail.vars }
        requires unset { IsValueIn self.old.trail.lits lit Value.Unset }
        requires long { self.old.trail.vars ≤ length self.old.reasons.items }
        ensures state { state_of self.new ≡ with_literal (state_of self.old) lit id }
        ensures before { length self.old.trail.lits < self.old.trail.vars }
    {
        self.trail.push(lit);
        let index = self.trail.len() - 1;
        self.reasons[index] = id;
    }

    /// The clause at an index of the list of a false literal.
    fn watcher(&self, falsified: Lit, code: usize, at: usize) -> Watcher
        requires kept { IsKept (state_of self.now) }
        requires code_is { code ≡ packed falsified }
        requires inside { code < length self.now.lists.items }
        requires at { at < length (ids_at self.now.lists.items code) }
        ensures { IsWatcher (state_of self.now) at result.id falsified result.other }
    {
        let id = ids_in(self.lists.as_slice(), code)[at];
        let pair = self.arena.pair(id);
        if pair.first.code() == code {
            return Watcher {
                id,
                other: pair.second,
            };
        }
        Watcher {
            id,
            other: pair.first,
        }
    }

    /// Has a clause watch the literal that was found in the place of a false one.
    fn move_watch(&mut self, watcher: Watcher, found: NewWatch, from: usize, at: usize)
        requires named { IsNamed self.old.arena.clauses watcher.id }
        requires from { from < length self.old.lists.items }
        requires at { at < length (ids_at self.old.lists.items from) }
        requires to { packed found.lit < length self.old.lists.items }
        requires apart { from ≢ packed found.lit }
        requires room { length (ids_at self.old.lists.items (packed found.lit))
            < (list_at self.old.lists.items (packed found.lit)).uses }
        ensures { state_of self.new ≡ with_pair (state_of self.old) watcher.id
            (record { first = watcher.other; second = found.lit }) from at (packed found.lit) }
    {
        let pair = Pair {
            first: watcher.other,
            second: found.lit,
        };
        self.arena.set_pair(watcher.id, pair, found.at);
        remove_id(&mut self.lists, from, at);
        push_id(&mut self.lists, found.lit.code(), watcher.id);
    }

    /// Visits a clause whose other watched literal isn't true: it watches another literal that isn't false, or its
    /// other literal becomes true, or it is false.
    fn visit_unsatisfied(
        &mut self,
        falsified: Lit,
        code: usize,
        at: usize,
        watcher: Watcher,
        other: Value,
    ) -> Visit
        requires kept { IsKept (state_of self.old) }
        requires code_is { code ≡ packed falsified }
        requires inside { code < length self.old.lists.items }
        requires falsified_now { Contains self.old.trail.lits (negation falsified) }
        requires here_is { IsWatcher (state_of self.old) at watcher.id falsified watcher.other }
        requires value { IsValueIn self.old.trail.lits watcher.other other }
        requires open { Contains self.old.trail.lits watcher.other → ⊥ }
        requires done { AreDone (state_of self.old) falsified at }
        ensures kept { IsKept (state_of self.new) }
        ensures grown { Grows (state_of self.old) (state_of self.new) }
        ensures visit { IsVisit (state_of self.old) (state_of self.new) falsified at result }
        ensures head { self.new.head ≡ self.old.head }
        ensures done_same { self.new.done ≡ self.old.done }
    {
        let _form = self.trail.len();
        match self
            .arena
            .find_watch(&self.trail, watcher.id, watcher.other.code())
        {
            Some(found) => {
                self.move_watch(watcher, found, code, at);
                Visit::Moved
            }
            None => match other {
                Value::Unset => {
                    self.imply(watcher.other.lit(), watcher.id);
                    Visit::Kept
                }
                _ => Visit::Failed(watcher.id),
            },
        }
    }

    /// Visits a clause of the list of a false literal.
    fn visit_one(&mut self, falsified: Lit, code: usize, at: usize) -> Visit
        requires kept { IsKept (state_of self.old) }
        requires code_is { code ≡ packed falsified }
        requires inside { code < length self.old.lists.items }
        requires falsified_now { Contains self.old.trail.lits (negation falsified) }
        requires at { at < length (ids_at self.old.lists.items code) }
        requires done { AreDone (state_of self.old) falsified at }
        ensures kept { IsKept (state_of self.new) }
        ensures grown { Grows (state_of self.old) (state_of self.new) }
        ensures visit { IsVisit (state_of self.old) (state_of self.new) falsified at result }
        ensures head { self.new.head ≡ self.old.head }
        ensures done_same { self.new.done ≡ self.old.done }
    {
        let watcher = self.watcher(falsified, code, at);
        let value = self.trail.value(watcher.other.lit());
        match value {
            Value::True => Visit::Kept,
            _ => self.visit_unsatisfied(falsified, code, at, watcher, value),
        }
    }

    /// Visits the clauses of the list of a false literal: the id of one that is false, or none.
    fn visit(&mut self, falsified: Lit, code: usize) -> Option<u32>
        requires kept { IsKept (state_of self.old) }
        requires code_is { code ≡ packed falsified }
        requires inside { code < length self.old.lists.items }
        requires falsified_now { Contains self.old.trail.lits (negation falsified) }
        ensures kept { IsKept (state_of self.new) }
        ensures grown { Grows (state_of self.old) (state_of self.new) }
        ensures all { HasVisited (state_of self.new) falsified result }
        ensures head { self.new.head ≡ self.old.head }
        ensures done_same { self.new.done ≡ self.old.done }
    {
        let mut at = 0;
        'ids: while at < ids_in(self.lists.as_slice(), code).len() {
            match self.visit_one(falsified, code, at) {
                Visit::Kept => at += 1,
                Visit::Moved => {}
                Visit::Failed(id) => return Some(id),
            }
        }
        None
    }

    /// Looks at the next true literal: the id of a clause that is false, or none.
    fn propagate_next(&mut self) -> Option<u32>
        requires kept { IsKept (state_of self.old) }
        requires more { self.old.head < length self.old.trail.lits }
        ensures kept { IsKept (state_of self.new) }
        ensures grown { Grows (state_of self.old) (state_of self.new) }
        ensures conflict { IfSome result (IsConflict self.new.arena.clauses self.new.trail.lits) }
        ensures next { result ≡ None → self.new.head ≡ self.old.head + 1 }
        ensures done_same { self.new.done ≡ self.old.done }
    {
        let _lists = self.lists.len();
        let lit = self.trail.lits()[self.head];
        let falsified = !lit;
        match self.visit(falsified, code_of(falsified)) {
            Some(id) => Some(id),
            None => {
                self.head += 1;
                None
            }
        }
    }

    /// Looks at the true literals that weren't looked at yet.
    fn propagate_trail(&mut self) -> Option<u32>
        requires kept { IsKept (state_of self.old) }
        ensures kept { IsKept (state_of self.new) }
        ensures grown { Grows (state_of self.old) (state_of self.new) }
        ensures conflict { IfSome result (IsConflict self.new.arena.clauses self.new.trail.lits) }
        ensures all { result ≡ None → self.new.head ≡ length self.new.trail.lits }
        ensures done_same { self.new.done ≡ self.old.done }
    {
        'lits: while self.head < self.trail.len() {
            match self.propagate_next() {
                Some(id) => return Some(id),
                None => {}
            }
        }
        None
    }

    /// Looks at a clause of one literal: it becomes true, or it is false.
    fn visit_unit(&mut self, id: u32, lit: Lit) -> bool
        requires kept { IsKept (state_of self.old) }
        requires short { IsShort self.old.arena.clauses self.old.arena.pairs id }
        requires there { Contains (clause_at self.old.arena.clauses id) lit }
        ensures kept { IsKept (state_of self.new) }
        ensures grown { Grows (state_of self.old) (state_of self.new) }
        ensures conflict { OnFalse result (IsConflict self.new.arena.clauses self.new.trail.lits id) }
        ensures holds { OnTrue result (HasTrue (clause_at self.new.arena.clauses id) self.new.trail.lits) }
        ensures head { self.new.head ≡ self.old.head }
        ensures done_same { self.new.done ≡ self.old.done }
    {
        let _form = self.trail.len();
        match self.trail.value(lit) {
            Value::True => true,
            Value::False => false,
            Value::Unset => {
                self.imply(lit, id);
                true
            }
        }
    }

    /// Looks at a clause that watches nothing, which has one literal or none: false where it is false.
    fn visit_unwatched(&mut self, id: u32) -> bool
        requires kept { IsKept (state_of self.old) }
        requires short { IsShort self.old.arena.clauses self.old.arena.pairs id }
        ensures kept { IsKept (state_of self.new) }
        ensures grown { Grows (state_of self.old) (state_of self.new) }
        ensures conflict { OnFalse result (IsConflict self.new.arena.clauses self.new.trail.lits id) }
        ensures holds { OnTrue result (HasTrue (clause_at self.new.arena.clauses id) self.new.trail.lits) }
        ensures head { self.new.head ≡ self.old.head }
        ensures done_same { self.new.done ≡ self.old.done }
    {
        match first_of(self.arena.clause(id)) {
            None => false,
            Some(lit) => self.visit_unit(id, lit),
        }
    }

    /// Looks at the clauses that watch nothing and weren't looked at yet.
    fn propagate_unwatched(&mut self) -> Option<u32>
        requires kept { IsKept (state_of self.old) }
        ensures kept { IsKept (state_of self.new) }
        ensures grown { Grows (state_of self.old) (state_of self.new) }
        ensures conflict { IfSome result (IsConflict self.new.arena.clauses self.new.trail.lits) }
        ensures all { result ≡ None → self.new.done ≡ length self.new.short.items }
    {
        'shorts: while self.done < self.short.len() {
            let id = self.short[self.done];
            if !self.visit_unwatched(id) {
                return Some(id);
            }
            self.done += 1;
        }
        None
    }

    /// Makes all literals true that follow by unit clauses, until a clause is false: the id of such a clause, or none.
    pub(crate) fn propagate(&mut self) -> Option<u32>
        requires kept { IsKept (state_of self.old) }
        ensures kept { IsKept (state_of self.new) }
        ensures grown { Grows (state_of self.old) (state_of self.new) }
        ensures answer { IsFound (state_of self.new) result }
    {
        match self.propagate_unwatched() {
            Some(id) => Some(id),
            None => {
                let conflict = self.propagate_trail();
                let _form = self.trail.len();
                conflict
            }
        }
    }

    /// Begins a level with a literal.
    pub(crate) fn decide(&mut self, lit: Lit)
        requires kept { IsKept (state_of self.old) }
        requires within { lit.var < self.old.trail.vars }
        requires unset { IsValueIn self.old.trail.lits lit Value.Unset }
        ensures kept { IsKept (state_of self.new) }
        ensures decided { Decides (search_of (state_of self.old)) (search_of (state_of self.new)) lit }
    {
        let _form = self.trail.len();
        self.mark();
        self.begin_with(lit);
    }

    /// Begins a level with a literal, which has no reason.
    fn begin_with(&mut self, lit: Lit)
        requires within { lit.var < self.old.trail.vars }
        requires unset { IsValueIn self.old.trail.lits lit Value.Unset }
        requires long { self.old.trail.vars ≤ length self.old.reasons.items }
        ensures state { state_of self.new ≡ with_literal (begun (state_of self.old)) lit 0 }
        ensures before { length self.old.trail.lits < self.old.trail.vars }
    {
        self.trail.decide(lit);
        let index = self.trail.len() - 1;
        self.reasons[index] = 0;
    }

    /// Marks how far propagation has come, before a level begins.
    pub(crate) fn mark(&mut self)
        requires kept { IsKept (state_of self.old) }
        ensures { state_of self.new ≡ with_mark (state_of self.old) }
    {
        let index = self.trail.len();
        self.progress[index] = Progress {
            head: self.head,
            done: self.done,
        };
    }

    /// Takes back each level above `level`.
    pub(crate) fn back_to(&mut self, level: usize)
        requires kept { IsKept (state_of self.old) }
        ensures kept { IsKept (state_of self.new) }
        ensures back { GoesBack (search_of (state_of self.old)) (search_of (state_of self.new)) level }
    {
        let starts = self.trail.starts();
        if level >= starts.len() {
            return;
        }
        let start = starts[level];
        let mark = progress_in(self.progress.as_slice(), start);
        self.head = mark.head;
        self.done = mark.done;
        self.trail.back_to(level);
    }
}
