//! Whole analyses of a conflict.

ghost use Rattle.std.specs.Prelude.{◌≡◌, ◌≢◌, ℕ, ◌-◌, ◌<◌, ◌≤◌, length, reverse, Contains, OnOk, IfOk, slice_index};
ghost use Rattle.plain_lits.specs.declared.lit.Lit.{Lit};
ghost use Rattle.plain_lits.specs.HintCheck.{clause_at};
ghost use Rattle.plain_lits.specs.Literals.{negation, IsClauseOf};
ghost use Rattle.unit_propagate.specs.Search.{IsConflict, IsSearch};
ghost use Rattle.conflict_learn.specs.declared.workspace.Border.TheVariants.{Below, Assumed};
ghost use Rattle.conflict_learn.specs.Analyses.{analysis_of, AreClear, AreLeft, IsAt, HasMetAll, IsFirstUip};
ghost use Rattle.conflict_learn.specs.Analyses.{IsLevelOf};
ghost use Rattle.conflict_learn.specs.Learning.{IsDecided, IsSettled, IsLearned, IsNew, IsUnitFrom};
ghost use Rattle.conflict_learn.specs.Learning.{IsOpenBelow, IsAssumed};
ghost use Rattle.conflict_learn.specs.Learning.{last_start};

use crate::learner::{Core, Learned};
use crate::walk::unmark;
use crate::workspace::{Border, Workspace};
use lists::{Items, Memory};
use plain_lits::{Clause, Lit};
use unit_propagate::Propagator;

/// The least level at which so many literals are true.
fn level_of(starts: &[usize], reach: usize) -> usize
    requires { (i j : ℕ) → i ≤ j → j < length starts.now → slice_index starts.now i ≤ slice_index starts.now j }
    ensures { IsLevelOf starts.now reach result }
{
    let mut level = starts.len();
    while level > 0 {
        if starts[level - 1] < reach {
            return level;
        }
        level -= 1;
    }
    0
}

impl Workspace {
    /// The clause, and the hints in their order. Nothing is marked any more.
    fn close(&mut self, search: &Propagator) -> Result<Core, Memory>
        requires left { AreLeft search.now.lits self.old.clause.items self.old.marks.items 0 }
        requires falsified { (l : Lit) → Contains self.old.clause.items l → Contains search.now.lits (negation l) }
        ensures clear { AreClear self.new.marks.items }
        ensures clause { IfOk result (λ c. IsClauseOf self.old.clause.items c.clause) }
        ensures hints { IfOk result (λ c. c.hints ≡ reverse self.old.hints.items) }
    {
        unmark(&mut self.marks, self.clause.as_slice(), search);
        let clause = Clause::from_slice(self.alloc, self.clause.as_slice())?;
        let hints = self.hints.iter().rev().copied().collect(self.alloc)?;
        Ok(Core {
            clause,
            hints: Items::from_vec(hints),
        })
    }

    /// Finds the first unique implication point, by its index.
    fn find_uip(&mut self, search: &Propagator, start: usize) -> Result<usize, Memory>
        requires at { IsAt search.now (Below start) (analysis_of self.old) (length search.now.lits) }
        requires some { 0 < self.old.open_count }
        requires decided { IsDecided search.now }
        requires start { start ≡ last_start search.now }
        ensures { IfOk result (IsFirstUip search.now start (analysis_of self.new)) }
    {
        let before = self.walk_level(search, start)?;
        let mut index = before - 1;
        while !self.marks[index] {
            index -= 1;
        }
        Ok(index)
    }

    /// Learns from the first unique implication point.
    fn conclude(
        &mut self,
        search: &Propagator,
        start: usize,
        index: usize,
    ) -> Result<Learned, Memory>
        requires uip { IsFirstUip search.now start (analysis_of self.old) index }
        requires decided { IsDecided search.now }
        requires start { start ≡ last_start search.now }
        ensures clear { OnOk result (AreClear self.new.marks.items) }
        ensures learned { IfOk result (λ l. IsLearned search.now.clauses search.now.lits l.clause l.hints) }
        ensures level { IfOk result (λ l. l.level < length search.now.starts) }
        ensures new { IsSettled search.now → IfOk result (λ l. IsNew search.now.clauses l.clause) }
        ensures unit { IsSettled search.now → IfOk result (λ l. IsUnitFrom search.now l.level l.clause l.asserting) }
        ensures least { IsSettled search.now → IfOk result (λ l. IsOpenBelow search.now l.level l.clause) }
    {
        let reach = self.reach(search);
        let asserting = !search.lits()[index];
        let level = level_of(search.starts(), reach);
        self.clause.push(asserting)?;
        let core = self.close(search)?;
        Ok(Learned {
            clause: core.clause,
            hints: core.hints,
            level,
            asserting,
        })
    }

    /// Gives the false clause back, where no literal of it is of the last level, which then isn't settled.
    fn give_back(&mut self, search: &Propagator) -> Result<Learned, Memory>
        requires at { IsAt search.now (Below (last_start search.now)) (analysis_of self.old) (length search.now.lits) }
        requires none { self.old.open_count ≡ 0 }
        requires form { IsSearch search.now }
        ensures clear { OnOk result (AreClear self.new.marks.items) }
        ensures learned { IfOk result (λ l. IsLearned search.now.clauses search.now.lits l.clause l.hints) }
        ensures level { IfOk result (λ l. l.level ≡ 0) }
    {
        let core = self.close(search)?;
        Ok(Learned {
            clause: core.clause,
            hints: core.hints,
            level: 0,
            asserting: Lit::default(),
        })
    }

    /// Learns from a false clause.
    pub(crate) fn learn(&mut self, search: &Propagator, conflict: u32) -> Result<Learned, Memory>
        requires clear { AreClear self.old.marks.items }
        requires conflict { IsConflict search.now.clauses search.now.lits conflict }
        requires decided { IsDecided search.now }
        ensures clear { OnOk result (AreClear self.new.marks.items) }
        ensures learned { IfOk result (λ l. IsLearned search.now.clauses search.now.lits l.clause l.hints) }
        ensures level { IfOk result (λ l. l.level < length search.now.starts) }
        ensures new { IsSettled search.now → IfOk result (λ l. IsNew search.now.clauses l.clause) }
        ensures unit { IsSettled search.now → IfOk result (λ l. IsUnitFrom search.now l.level l.clause l.asserting) }
        ensures least { IsSettled search.now → IfOk result (λ l. IsOpenBelow search.now l.level l.clause) }
    {
        let starts = search.starts();
        let start = starts[starts.len() - 1];
        self.start(search, Border::Below(start), conflict)?;
        if self.open_count == 0 {
            return self.give_back(search);
        }
        let index = self.find_uip(search, start)?;
        self.conclude(search, start, index)
    }

    /// Learns from a false clause the clause of the assumptions that it rests on.
    pub(crate) fn final_core(&mut self, search: &Propagator, conflict: u32) -> Result<Core, Memory>
        requires clear { AreClear self.old.marks.items }
        requires conflict { IsConflict search.now.clauses search.now.lits conflict }
        ensures clear { OnOk result (AreClear self.new.marks.items) }
        ensures learned { IfOk result (λ c. IsLearned search.now.clauses search.now.lits c.clause c.hints) }
        ensures assumed { IfOk result (λ c. (x : Lit) → Contains c.clause x → IsAssumed search.now x) }
    {
        self.start(search, Border::Assumed, conflict)?;
        let _bottom = self.walk_all(search)?;
        self.close(search)
    }
}
