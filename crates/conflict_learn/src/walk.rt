//! The walk down the true literals, which replaces open literals by their reasons.

ghost use Rattle.std.specs.Prelude.{◌≡◌, ◌≢◌, ℕ, ◌+◌, ◌-◌, ◌<◌, ◌≤◌, ◌++◌, ◌∷◌, [], true, length, reverse, Contains};
ghost use Rattle.std.specs.Prelude.{OnOk, IfOk, slice_index, ◌⊎◌};
ghost use Rattle.plain_lits.specs.declared.lit.Lit.{Lit};
ghost use Rattle.plain_lits.specs.HintCheck.{clause_at};
ghost use Rattle.plain_lits.specs.Literals.{negation};
ghost use Rattle.unit_propagate.specs.Search.{IsConflict, IsSearch};
ghost use Rattle.conflict_learn.specs.declared.workspace.Border.TheVariants.{Below, Assumed};
ghost use Rattle.conflict_learn.specs.Analyses.{analysis_of, is_open, AreClear, IsAt, HasMetAll};
ghost use Rattle.conflict_learn.specs.Analyses.{IsReach, AreLeft};
ghost use Rattle.conflict_learn.specs.Learning.{IsDecided, last_start};

use crate::workspace::{Border, Workspace, keeps};
use lists::Memory;
use plain_lits::Lit;
use unit_propagate::Propagator;

/// The higher of a reach and that of one index more.
fn higher(reach: usize, index: usize, count: usize) -> usize
    requires { index < count }
    ensures first { reach ≤ result }
    ensures second { index < result }
    ensures one_of { (result ≡ reach) ⊎ (result ≡ index + 1) }
{
    if index < reach {
        return reach;
    }
    index + 1
}

/// Takes the marks of a clause's literals away, which are all that there are.
pub(crate) fn unmark(marks: &mut Vec<bool>, clause: &[Lit], search: &Propagator)
    requires left { AreLeft search.now.lits clause.now marks.old.items 0 }
    requires falsified { (l : Lit) → Contains clause.now l → Contains search.now.lits (negation l) }
    ensures { AreClear marks.new.items }
{
    for lit in clause {
        let at = search.position(!*lit);
        marks[at] = false;
    }
}

impl Workspace {
    /// Begins with a false clause.
    pub(crate) fn start(
        &mut self,
        search: &Propagator,
        border: Border,
        conflict: u32,
    ) -> Result<(), Memory>
        requires clear { AreClear self.old.marks.items }
        requires conflict { IsConflict search.now.clauses search.now.lits conflict }
        ensures at { OnOk result (IsAt search.now border (analysis_of self.new) (length search.now.lits)) }
        ensures met { OnOk result (HasMetAll search.now border (analysis_of self.new)
            (clause_at search.now.clauses conflict)) }
        ensures hints { OnOk result (self.new.hints.items ≡ conflict ∷ []) }
    {
        let unknown = Lit {
            var: search.vars(),
            positive: true,
        };
        self.begin(search, border)?;
        self.hints.push(conflict)?;
        self.meet_clause(search, border, conflict, unknown)
    }

    /// Replaces the open literal of an index, from which on nothing else is open, by its reason.
    fn expand(&mut self, search: &Propagator, border: Border, index: usize) -> Result<(), Memory>
        requires at { IsAt search.now border (analysis_of self.old) (index + 1) }
        requires is_open { is_open border search.now.reasons self.old.marks.items index ≡ true }
        requires reason { slice_index search.now.reasons index ≢ 0 }
        ensures at { OnOk result (IsAt search.now border (analysis_of self.new) index) }
        ensures count { OnOk result (self.old.open_count ≤ self.new.open_count + 1) }
    {
        let implied = search.lits()[index];
        let id = search.reason(index);
        self.hints.push(id)?;
        self.marks[index] = false;
        self.open_count -= 1;
        self.meet_clause(search, border, id, implied)
    }

    /// Goes down one literal.
    fn step(&mut self, search: &Propagator, border: Border, index: usize) -> Result<(), Memory>
        requires at { IsAt search.now border (analysis_of self.old) (index + 1) }
        requires reason { is_open border search.now.reasons self.old.marks.items index ≡ true
            → slice_index search.now.reasons index ≢ 0 }
        ensures at { OnOk result (IsAt search.now border (analysis_of self.new) index) }
        ensures count { OnOk result (self.old.open_count ≤ self.new.open_count + 1) }
    {
        if !self.marks[index] {
            return Ok(());
        }
        if keeps(search, border, index) {
            return Ok(());
        }
        self.expand(search, border, index)
    }

    /// Goes down the last level until one literal is open, and tells how far.
    pub(crate) fn walk_level(&mut self, search: &Propagator, start: usize) -> Result<usize, Memory>
        requires at { IsAt search.now (Below start) (analysis_of self.old) (length search.now.lits) }
        requires some { 0 < self.old.open_count }
        requires decided { IsDecided search.now }
        requires start { start ≡ last_start search.now }
        ensures at { IfOk result (IsAt search.now (Below start) (analysis_of self.new)) }
        ensures one { OnOk result (self.new.open_count ≡ 1) }
    {
        let mut index = search.lits().len();
        while self.open_count > 1 {
            index -= 1;
            self.step(search, Border::Below(start), index)?;
        }
        Ok(index)
    }

    /// Goes down all literals until none is open.
    pub(crate) fn walk_all(&mut self, search: &Propagator) -> Result<usize, Memory>
        requires { IsAt search.now Assumed (analysis_of self.old) (length search.now.lits) }
        ensures at { IfOk result (IsAt search.now Assumed (analysis_of self.new)) }
        ensures none { OnOk result (self.new.open_count ≡ 0) }
        ensures form { IsSearch search.now }
    {
        let mut index = search.lits().len();
        while self.open_count > 0 {
            index -= 1;
            self.step(search, Border::Assumed, index)?;
        }
        Ok(index)
    }

    /// One more than the highest index of the negations of the clause's literals, or 0.
    pub(crate) fn reach(&self, search: &Propagator) -> usize
        requires { (l : Lit) → Contains self.now.clause.items l → Contains search.now.lits (negation l) }
        ensures { IsReach search.now.lits self.now.clause.items result }
    {
        let count = search.lits().len();
        let mut reach = 0;
        for lit in self.clause.as_slice() {
            reach = higher(reach, search.position(!*lit), count);
        }
        reach
    }
}
