//! The propagator, as callers see it.

ghost use Rattle.std.specs.Prelude.{◌≡◌, ◌≢◌, ◌↔◌, ℕ, ◌<◌, ◌≤◌, [], length, Contains, IfOk, OnOk, OnErr, slice_index};
ghost use Rattle.std.specs.Prelude.{slice_get, Some};
ghost use Rattle.plain_lits.specs.declared.lit.Lit.{Lit};
ghost use Rattle.plain_lits.specs.HintCheck.{clause_at, IsNamed, IsUnit};
ghost use Rattle.plain_lits.specs.Literals.{negation};
ghost use Rattle.plain_lits.specs.Values.{IsValueIn};
ghost use Rattle.unit_propagate.specs.Search.{IsSearch, IsAnswer, IsGuarded, HasGrown, Decides, GoesBack, IsWatchedBy};
ghost use Rattle.unit_propagate.specs.Search.{GainsClause, GainsBlock, Learns, StaysSearch};

use crate::watch_state::WatchState;
use lists::Memory;
use plain_lits::{Lit, PackedLit, Value};
use std::alloc::Global;
use std::marker::Model;

/// What propagation tells: the id of a clause that is false, or that nothing is left to do.
#[derive(Clone, Copy, PartialEq, Eq)]
pub enum Propagated {
    Conflict(u32),
    Quiet,
}

/// Clauses, each with an id from 1 on, and an assignment by levels, to which unit clauses add literals. A clause may
/// come while its literals are false, may be empty, and may repeat a literal or hold it beside its negation. `decide`,
/// `propagate` and `back_to` take no memory: `add` and `assume_block` make the room.

pub struct Propagator {
    watch_state: WatchState,
}

// By hand, so that a drop is one call (docs/PROVING.md).
impl Drop for Propagator {
    fn drop(self) {
        let Propagator { watch_state: _ } = self;
    }
}

impl Model for Propagator {
    ghost use Rattle.unit_propagate.specs.Search.{Search};
    ghost use Rattle.unit_propagate.specs.States.{state_of, search_of, IsKept};

    ghost Value = { Search };

    ghost view = { λ p. search_of (state_of p.watch_state) };

    ghost invariant = { λ p. IsKept (state_of p.watch_state) };
}

impl Propagator {
    /// No clause, and no true literal.
    pub fn open(alloc: Global) -> Result<Propagator, Memory>
        ensures clauses { IfOk result (λ p. p.clauses ≡ []) }
        ensures lits { IfOk result (λ p. p.lits ≡ []) }
        ensures starts { IfOk result (λ p. p.starts ≡ []) }
    {
        let watch_state = WatchState::open(alloc)?;
        Ok(Propagator { watch_state })
    }

    /// Adds a clause, and gives its id. Its literals may have any values: it watches two that aren't false, or became
    /// false last. After `Memory` no clause has come.
    pub fn add(&mut self, clause: &[Lit]) -> Result<u32, Memory>
        ensures ok { IfOk result (GainsClause self.old self.new clause.now) }
        ensures err { OnErr result (StaysSearch self.old self.new) }
    {
        self.watch_state.add(clause)
    }

    /// Adds a clause that is unit, and makes its one literal without value true at the present level, with the clause
    /// as its reason. Propagation goes on from where it was: after `Quiet` it has just this literal to look at. After
    /// `Memory` no clause has come.
    pub fn add_learned(&mut self, clause: &[Lit], lit: Lit) -> Result<u32, Memory>
        requires { IsUnit negation self.old.lits clause.now lit }
        ensures ok { IfOk result (Learns self.old self.new clause.now lit) }
        ensures err { OnErr result (StaysSearch self.old self.new) }
    {
        self.watch_state.add_learned(clause, lit)
    }

    /// Begins a level with the literals of a block, of which none is false. After `Memory` no level has begun.
    pub fn assume_block(&mut self, lits: &[Lit]) -> Result<(), Memory>
        requires not_false { (l : Lit) → Contains lits.now l → Contains self.old.lits (negation l) → ⊥ }
        requires plain { (l : Lit) → Contains lits.now l → Contains lits.now (negation l) → ⊥ }
        ensures ok { OnOk result (GainsBlock self.old self.new lits.now) }
        ensures err { OnErr result (StaysSearch self.old self.new) }
    {
        self.watch_state.assume_block(lits)
    }

    /// Begins a level with a literal, whose variable is known and has no value.
    pub fn decide(&mut self, lit: Lit)
        requires known { lit.var < self.old.vars }
        requires unset { IsValueIn self.old.lits lit Value.Unset }
        ensures { Decides self.old self.new lit }
    {
        self.watch_state.decide(lit);
    }

    /// Makes all literals true that follow by unit clauses, each with its reason, until a clause is false or nothing is
    /// left to do.
    pub fn propagate(&mut self) -> Propagated
        ensures answer { IsAnswer self.new result }
        ensures guarded { IsGuarded self.new result }
        ensures grown { HasGrown self.old self.new }
    {
        match self.watch_state.propagate() {
            Some(id) => Propagated::Conflict(id),
            None => Propagated::Quiet,
        }
    }

    /// Takes back each level above `level`, so that the true literals are those that there were at that level.
    pub fn back_to(&mut self, level: usize)
        requires { level ≤ length self.old.starts }
        ensures { GoesBack self.old self.new level }
    {
        self.watch_state.back_to(level);
    }

    /// The ids of the clauses that watch a literal.
    pub fn watchers(&self, lit: Lit) -> &[u32]
        ensures { (id : ℕ) → Contains result.now id ↔ IsWatchedBy self.now id lit }
    {
        self.watch_state.watchers(lit)
    }

    /// The value of a literal.
    pub fn value(&self, lit: Lit) -> Value
        ensures value { IsValueIn self.now.lits lit result }
        ensures form { IsSearch self.now }
    {
        self.watch_state.form();
        self.watch_state.trail.value(lit)
    }

    /// The number below which each variable is known.
    pub fn vars(&self) -> usize
        ensures vars { result ≡ self.now.vars }
        ensures form { IsSearch self.now }
    {
        self.watch_state.form();
        self.watch_state.trail.vars()
    }

    /// The true literals, in the order in which they came.
    pub fn lits(&self) -> &[Lit]
        ensures lits { result.now ≡ self.now.lits }
        ensures form { IsSearch self.now }
    {
        self.watch_state.form();
        self.watch_state.trail.lits()
    }

    /// How many true literals there were before each level from 1 on.
    pub fn starts(&self) -> &[usize]
        ensures starts { result.now ≡ self.now.starts }
        ensures form { IsSearch self.now }
    {
        self.watch_state.form();
        self.watch_state.trail.starts()
    }

    /// The index of a true literal among them.
    pub fn position(&self, lit: Lit) -> usize
        requires { Contains self.now.lits lit }
        ensures position { slice_get self.now.lits result ≡ Some lit }
        ensures form { IsSearch self.now }
    {
        self.watch_state.form();
        self.watch_state.trail.position(lit)
    }

    /// The id of the clause that made the true literal of an index true, or 0 where none did.
    pub fn reason(&self, index: usize) -> u32
        requires { index < length self.now.lits }
        ensures reason { result ≡ slice_index self.now.reasons index }
        ensures form { IsSearch self.now }
    {
        self.watch_state.form();
        self.watch_state.reason(index)
    }

    /// The literals of a clause.
    pub fn clause(&self, id: u32) -> &[PackedLit]
        requires { IsNamed self.now.clauses id }
        ensures { result.now ≡ clause_at self.now.clauses id }
    {
        self.watch_state.arena.clause(id)
    }
}
