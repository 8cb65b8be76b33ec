//! The true literals of a search: what is decided next, and what follows.

ghost use Rattle.std.specs.Prelude.{◌≡◌, ℕ, List, ◌<◌, ◌≤◌, length, Contains, IfSome, MatchOption};
ghost use Rattle.plain_lits.specs.declared.lit.Lit.{Lit};
ghost use Rattle.plain_lits.specs.HintCheck.{IsNamed};
ghost use Rattle.unit_propagate.specs.Search.{GoesBack};
ghost use Rattle.sat_core.specs.Runs.{GoesOn, HasPropagated, HasDecided, HaveValues, HaveValuesFrom, IsUnsetIn};
ghost use Rattle.sat_core.specs.Runs.{IsUnsetVar, IsFronted, IsResting};

use decision_order::DecisionOrder;
use lists::Memory;
use plain_lits::{Lit, PackedLit, Value};
use sleeping_clauses::Pace;
use std::alloc::Global;
use unit_propagate::{Propagated, Propagator};

/// How many conflicts lie between two restarts, at least.
const CONFLICTS_A_RUN: u64 = 20;

/// How many conflicts come before the first restart.
const YOUNG: u64 = 200;

/// A propagator, the order of decisions, and when it begins anew: by its `pace`, after so many `conflicts`. No variable
/// below `next` has lost its value since all below it had one; `released` counts the literals that have lost theirs.

pub(crate) struct DecisionLoop {
    pub(crate) search: Propagator,
    pub(crate) order: DecisionOrder,
    pub(crate) next: usize,
    pub(crate) pace: Pace,
    pub(crate) learned: u64,
    pub(crate) conflicts: u64,
    pub(crate) released: u64,
}

// By hand, so that a drop is one call (docs/PROVING.md).
impl Drop for DecisionLoop {
    fn drop(self) {
        let DecisionLoop {
            search: _,
            order: _,
            next: _,
            pace: _,
            learned: _,
            conflicts: _,
            released: _,
        } = self;
    }
}

/// The first variable from one on that has no value.
fn first_unset(search: &Propagator, from: usize) -> Option<usize>
    ensures { MatchOption result (HaveValuesFrom from search.now) (IsUnsetVar search.now) }
{
    for var in from..search.vars() {
        let lit = Lit {
            var,
            positive: false,
        };
        match search.value(lit) {
            Value::Unset => return Some(var),
            _ => {}
        }
    }
    None
}

/// The most active variable of the order that has no value, with its phase. The order gives up what comes before it.
fn first_active(search: &Propagator, order: &mut DecisionOrder) -> Option<Lit>
    ensures { IfSome result (IsUnsetIn search.now) }
{
    let vars = search.vars();
    for _ in 0..order.vars() {
        let lit = order.pop()?;
        if lit.var < vars {
            match search.value(lit) {
                Value::Unset => return Some(lit),
                _ => {}
            }
        }
    }
    None
}

/// The literals from an index on are about to lose their values. It tells how many they are.
fn release_all(order: &mut DecisionOrder, next: &mut usize, lits: &[Lit], from: usize) -> u64 {
    for lit in lits.iter().skip(from) {
        order.release(*lit);
        if lit.var < *next {
            *next = lit.var;
        }
    }
    lits.len().saturating_sub(from) as u64
}

/// The variables of a clause become more active.
fn bump_clause(order: &mut DecisionOrder, clause: &[PackedLit]) {
    for packed in clause {
        order.bump(packed.lit().var);
    }
}

/// The variables of the clauses that showed a conflict become more active.
pub(crate) fn bump_all(search: &Propagator, order: &mut DecisionOrder, ids: &[u32])
    requires { (id : ℕ) → Contains ids.now id → IsNamed search.now.clauses id }
{
    for id in ids {
        bump_clause(order, search.clause(*id));
    }
    order.decay();
}

impl DecisionLoop {
    /// Nothing is true yet.
    pub(crate) fn new(alloc: Global, search: Propagator) -> DecisionLoop
        ensures { result.search ≡ search }
    {
        DecisionLoop {
            search,
            order: DecisionOrder::new(alloc),
            next: 0,
            pace: Pace::new(),
            learned: 0,
            conflicts: 0,
            released: 0,
        }
    }

    /// Says that a variable is worth deciding, and what its first phase is.
    pub(crate) fn declare(&mut self, lit: Lit) -> Result<(), Memory>
        ensures { self.new.search ≡ self.old.search }
    {
        if lit.var >= PackedLit::VARS {
            return Err(Memory);
        }
        self.order.make_room(lit.var + 1)?;
        self.order.declare(lit);
        Ok(())
    }

    /// Says that a variable is worth deciding before all that wait, and what its first phase is.
    pub(crate) fn prioritize(&mut self, lit: Lit) -> Result<(), Memory>
        ensures { self.new.search ≡ self.old.search }
    {
        self.declare(lit)?;
        self.order.raise_to_top(lit.var);
        Ok(())
    }

    /// Propagates: a clause that is false, or none.
    pub(crate) fn propagate(&mut self) -> Option<u32>
        ensures on { GoesOn self.old.search self.new.search }
        ensures starts { self.new.search.starts ≡ self.old.search.starts }
        ensures found { HasPropagated self.new.search result }
        ensures more { length self.old.search.lits ≤ length self.new.search.lits }
        ensures fronted { (front : List Lit) → 0 < length self.old.search.starts → IsFronted front self.old.search
            → IsFronted front self.new.search }
    {
        let _form = self.search.vars();
        match self.search.propagate() {
            Propagated::Conflict(id) => Some(id),
            Propagated::Quiet => None,
        }
    }

    /// The variable to decide next, with its phase: the most active one, or the first of all.
    fn next_lit(&mut self) -> Option<Lit>
        ensures search { self.new.search ≡ self.old.search }
        ensures found { MatchOption result (HaveValues self.new.search) (IsUnsetIn self.new.search) }
    {
        match first_active(&self.search, &mut self.order) {
            Some(lit) => Some(lit),
            None => self.scan(),
        }
    }

    /// The first variable without a value, with its phase.
    fn scan(&mut self) -> Option<Lit>
        ensures search { self.new.search ≡ self.old.search }
        ensures found { MatchOption result (HaveValues self.new.search) (IsUnsetIn self.new.search) }
    {
        if let Some(var) = first_unset(&self.search, self.next) {
            self.next = var;
            let positive = self.order.phase(var);
            return Some(Lit { var, positive });
        }
        match first_unset(&self.search, 0) {
            Some(var) => Some(Lit {
                var,
                positive: self.order.phase(var),
            }),
            None => None,
        }
    }

    /// Decides and propagates until a clause is false, whose id it gives, or until all variables have values.
    pub(crate) fn decide_until_conflict(&mut self) -> Option<u32>
        ensures on { GoesOn self.old.search self.new.search }
        ensures found { HasDecided self.new.search result }
    {
        'levels: loop {
            match self.propagate() {
                Some(id) => return Some(id),
                None => {}
            }
            let _form = self.search.vars();
            match self.next_lit() {
                Some(lit) => {
                    self.search.decide(lit);
                    let _short = self.search.vars();
                }
                None => return None,
            }
        }
    }

    /// Takes back the levels above one. Their variables may be decided again, with the values that they had.
    pub(crate) fn back_to(&mut self, level: usize)
        requires { level ≤ length self.old.search.starts }
        ensures { GoesBack self.old.search self.new.search level }
    {
        let starts = self.search.starts();
        if level < starts.len() {
            let from = starts[level];
            let released = release_all(&mut self.order, &mut self.next, self.search.lits(), from);
            self.released = self.released.saturating_add(released);
        }
        self.search.back_to(level);
    }

    /// Takes back all levels but the first.
    pub(crate) fn back_to_front(&mut self)
        ensures clauses { self.new.search.clauses ≡ self.old.search.clauses }
        ensures vars { self.new.search.vars ≡ self.old.search.vars }
        ensures resting { (front : List Lit) → IsFronted front self.old.search → IsResting front self.new.search }
    {
        let _form = self.search.vars();
        if self.search.starts().len() <= 1 {
            return;
        }
        self.back_to(1);
    }

    /// A conflict is over, of which a clause with so many levels was learned. Where the last ones had many, all
    /// decisions are taken back.
    pub(crate) fn count_conflict(&mut self, levels: u32)
        ensures { GoesOn self.old.search self.new.search }
    {
        self.pace.note(levels);
        self.learned = self.learned.saturating_add(1);
        self.conflicts = self.conflicts.saturating_add(1);
        if self.learned < YOUNG
            || self.conflicts < CONFLICTS_A_RUN
            || !self.pace.is_slow()
            || self.search.starts().len() <= 2
        {
            return;
        }
        self.conflicts = 0;
        self.back_to(2);
    }
}
