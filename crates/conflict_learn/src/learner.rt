//! What is learned from a conflict, as callers see it.

ghost use Rattle.std.specs.Prelude.{◌≡◌, ◌<◌, length, Contains, IfOk};
ghost use Rattle.plain_lits.specs.declared.lit.Lit.{Lit};
ghost use Rattle.unit_propagate.specs.Search.{IsConflict};
ghost use Rattle.conflict_learn.specs.Learning.{IsDecided, IsSettled, IsLearned, IsNew, IsUnitFrom};
ghost use Rattle.conflict_learn.specs.Learning.{IsOpenBelow, IsAssumed};

use crate::workspace::Workspace;
use lists::{Items, Memory};
use plain_lits::{Clause, Lit};
use std::alloc::Global;
use std::marker::Model;
use unit_propagate::Propagator;

/// A clause that is learned from a conflict, and the ids of the clauses that show it, in the order in which they
/// become unit once its literals are false; the last is the conflict's. `level` is the least one from which on the
/// clause is unit, and `asserting` is the literal that it then makes true.
#[derive(Drop)]
pub struct Learned {
    pub clause: Clause,
    pub hints: Items<u32>,
    pub level: usize,
    pub asserting: Lit,
}

/// A clause of negated assumptions that a conflict shows, with its hints in the same order.
#[derive(Drop)]
pub struct Core {
    pub clause: Clause,
    pub hints: Items<u32>,
}

/// Room to analyze conflicts in, which is kept from one to the next, so that an analysis costs no more than what it
/// walks over. Contracts see for how many true literals there is room.

pub struct Learner {
    workspace: Workspace,
}

// By hand, so that a drop is one call (docs/PROVING.md).
impl Drop for Learner {
    fn drop(self) {
        let Learner { workspace: _ } = self;
    }
}

impl Model for Learner {
    ghost use Rattle.std.specs.Prelude.{ℕ, length};
    ghost use Rattle.conflict_learn.specs.Analyses.{AreClear};

    ghost Value = { ℕ };

    ghost view = { λ l. length l.workspace.marks.items };

    ghost invariant = { λ l. AreClear l.workspace.marks.items };
}

impl Learner {
    /// A learner, which has room for no literal, and takes no memory yet.
    pub fn new(alloc: Global) -> Learner
        ensures { result ≡ 0 }
    {
        Learner {
            workspace: Workspace::new(alloc),
        }
    }

    /// Learns from a false clause the clause up to the first unique implication point: of the last level it has one
    /// literal. Where the last level wasn't settled, the false clause itself may come back.
    pub fn learn(&mut self, search: &Propagator, conflict: u32) -> Result<Learned, Memory>
        requires conflict { IsConflict search.now.clauses search.now.lits conflict }
        requires decided { IsDecided search.now }
        ensures learned { IfOk result (λ l. IsLearned search.now.clauses search.now.lits l.clause l.hints) }
        ensures level { IfOk result (λ l. l.level < length search.now.starts) }
        ensures new { IsSettled search.now → IfOk result (λ l. IsNew search.now.clauses l.clause) }
        ensures unit { IsSettled search.now → IfOk result (λ l. IsUnitFrom search.now l.level l.clause l.asserting) }
        ensures least { IsSettled search.now → IfOk result (λ l. IsOpenBelow search.now l.level l.clause) }
    {
        let result = self.workspace.learn(search, conflict);
        if result.is_err() {
            self.workspace.drop_marks();
        }
        result
    }

    /// Learns from a false clause the clause of those assumptions that it rests on: literals that no clause made true.
    pub fn final_core(&mut self, search: &Propagator, conflict: u32) -> Result<Core, Memory>
        requires { IsConflict search.now.clauses search.now.lits conflict }
        ensures learned { IfOk result (λ c. IsLearned search.now.clauses search.now.lits c.clause c.hints) }
        ensures assumed { IfOk result (λ c. (x : Lit) → Contains c.clause x → IsAssumed search.now x) }
    {
        let result = self.workspace.final_core(search, conflict);
        if result.is_err() {
            self.workspace.drop_marks();
        }
        result
    }
}
