//! The arrays of an analysis, and how the literals of a clause come into them.

ghost use Rattle.std.specs.Prelude.{◌≡◌, ◌≢◌, ℕ, ◌<◌, ◌≤◌, [], false, length, Contains, OnOk};
ghost use Rattle.plain_lits.specs.declared.lit.Lit.{Lit};
ghost use Rattle.plain_lits.specs.HintCheck.{clause_at, IsNamed};
ghost use Rattle.plain_lits.specs.Literals.{negation};
ghost use Rattle.conflict_learn.specs.Analyses.{analysis_of, is_kept, is_marked, AreClear, IsCounted, Meets};
ghost use Rattle.conflict_learn.specs.Analyses.{OthersOf};
ghost use Rattle.conflict_learn.specs.Learning.{StandsAt};

use lists::Memory;
use plain_lits::Lit;
use std::alloc::Global;
use unit_propagate::Propagator;

/// Which true literals have their negations in the clause: those before an index, or those that no clause made true.
#[derive(Clone, Copy)]
pub(crate) enum Border {
    Below(usize),
    Assumed,
}

/// The arrays. `marks` says of a true literal, by its index, whether it was met. The negation of one that was met goes
/// into the clause, or it is open: the walk will replace it by its reason. `open_count` counts the open ones. The
/// conflict is the first of `hints`. Between analyses nothing is marked.

#[derive(Drop)]
pub(crate) struct Workspace {
    pub(crate) alloc: Global,
    pub(crate) marks: Vec<bool>,
    pub(crate) open_count: usize,
    pub(crate) clause: Vec<Lit>,
    pub(crate) hints: Vec<u32>,
}

/// Whether the negation of the true literal of an index goes into the clause.
pub(crate) fn keeps(search: &Propagator, border: Border, index: usize) -> bool
    requires { index < length search.now.lits }
    ensures { result ≡ is_kept border search.now.reasons index }
{
    match border {
        Border::Below(start) => index < start,
        Border::Assumed => search.reason(index) == 0,
    }
}

impl Workspace {
    /// Nothing is marked, and no memory is taken.
    pub(crate) fn new(alloc: Global) -> Workspace
        ensures clear { AreClear result.marks.items }
        ensures none { result.marks.items ≡ [] }
    {
        Workspace {
            alloc,
            marks: Vec::new(alloc),
            open_count: 0,
            clause: Vec::new(alloc),
            hints: Vec::new(alloc),
        }
    }

    /// Lets go of all marks, where an analysis was broken off.
    pub(crate) fn drop_marks(&mut self)
        ensures { AreClear self.new.marks.items }
    {
        self.marks.truncate(0);
    }

    /// Makes room for the marks of so many literals.
    fn make_room(&mut self, count: usize) -> Result<(), Memory>
        requires { AreClear self.old.marks.items }
        ensures clear { OnOk result (AreClear self.new.marks.items) }
        ensures long { OnOk result (count ≤ length self.new.marks.items) }
    {
        if count <= self.marks.len() {
            return Ok(());
        }
        self.marks.resize(count, false)?;
        Ok(())
    }

    /// Begins an analysis, in which nothing was met.
    pub(crate) fn begin(&mut self, search: &Propagator, border: Border) -> Result<(), Memory>
        requires { AreClear self.old.marks.items }
        ensures counted { OnOk result (IsCounted search.now border (analysis_of self.new)) }
        ensures clause { OnOk result (self.new.clause.items ≡ []) }
        ensures hints { OnOk result (self.new.hints.items ≡ []) }
        ensures clear { OnOk result (AreClear self.new.marks.items) }
    {
        self.make_room(search.vars())?;
        self.open_count = 0;
        self.clause.truncate(0);
        self.hints.truncate(0);
        Ok(())
    }

    /// Meets a false literal whose negation has an index and isn't marked.
    fn mark(
        &mut self,
        search: &Propagator,
        border: Border,
        lit: Lit,
        index: usize,
    ) -> Result<(), Memory>
        requires counted { IsCounted search.now border (analysis_of self.old) }
        requires stands { StandsAt search.now.lits index (negation lit) }
        requires fresh { is_marked self.old.marks.items index ≡ false }
        ensures counted { OnOk result (IsCounted search.now border (analysis_of self.new)) }
        ensures met { OnOk result (Meets search.now border (analysis_of self.old) (analysis_of self.new)
            (λ l. l ≡ lit)) }
    {
        let _count = self.marks.len();
        let kept = keeps(search, border, index);
        self.marks[index] = true;
        if kept {
            self.clause.push(lit)?;
            return Ok(());
        }
        self.open_count += 1;
        Ok(())
    }

    /// Meets a false literal: its negation is marked.
    fn meet(&mut self, search: &Propagator, border: Border, lit: Lit) -> Result<(), Memory>
        requires counted { IsCounted search.now border (analysis_of self.old) }
        requires falsified { Contains search.now.lits (negation lit) }
        ensures counted { OnOk result (IsCounted search.now border (analysis_of self.new)) }
        ensures met { OnOk result (Meets search.now border (analysis_of self.old) (analysis_of self.new)
            (λ l. l ≡ lit)) }
    {
        let index = search.position(!lit);
        if self.marks[index] {
            return Ok(());
        }
        self.mark(search, border, lit, index)
    }

    /// Meets the literals of a clause but one; the others are false.
    pub(crate) fn meet_clause(
        &mut self,
        search: &Propagator,
        border: Border,
        id: u32,
        but: Lit,
    ) -> Result<(), Memory>
        requires counted { IsCounted search.now border (analysis_of self.old) }
        requires named { IsNamed search.now.clauses id }
        requires falsified { (l : Lit) → OthersOf (clause_at search.now.clauses id) but l
            → Contains search.now.lits (negation l) }
        ensures counted { OnOk result (IsCounted search.now border (analysis_of self.new)) }
        ensures met { OnOk result (Meets search.now border (analysis_of self.old) (analysis_of self.new)
            (OthersOf (clause_at search.now.clauses id) but)) }
    {
        for packed in search.clause(id) {
            let lit = packed.lit();
            if lit != but {
                self.meet(search, border, lit)?;
            }
        }
        Ok(())
    }
}
