//! The solver, as callers see it.

ghost use Rattle.std.specs.Prelude.{◌≡◌, ◌⊎◌, ◌↔◌, ℕ, ◌≤◌, true, length, IfNone, IfOk, IfSome, IsTrue, OnOk, OnErr};
ghost use Rattle.std.specs.Prelude.{None, Some};
ghost use Rattle.certificate_claims.specs.Refutations.{IsAxiomOf, axiom_clause};
ghost use Rattle.plain_lits.specs.HintCheck.{IsTautology};
ghost use Rattle.semantics.specs.Frameworks.{Framework};
ghost use Rattle.meaning_atoms.specs.Literals.{negated};
ghost use Rattle.hinted_log.specs.declared.log.TheConstants.{MAX_STEPS};
ghost use Rattle.oracle_face.specs.Logs.{FactsAreFalse, IsNew, IsNumberOf, hints_of, is_loop, side_at, step_at};
ghost use Rattle.oracle_face.specs.Logs.{working};
ghost use Rattle.oracle_face.specs.Goals.{IsSide};
ghost use Rattle.oracle_face.specs.Growing.{HasRun, NoSide, Obliges, OnlySide, UnlessMemory, halt_of};
ghost use Rattle.meaning_atoms.specs.AxiomNames.{IsAxiomName};
ghost use Rattle.oracle_face.specs.declared.face.Pending.TheVariants.{Loop as OfLoop};
ghost use Rattle.atom_solver.specs.States.{AddsAxiom, IsGuardedLog, IsNoLoop, StaysLog, TakesSideOf, UsesAxioms};
ghost use Rattle.atom_solver.specs.States.{empty_log};
ghost use Rattle.session_log.specs.Steps.{LearnsClauses};
ghost use Rattle.atom_solver.specs.Searches.{IsAnswer, AreUnfixed, ends_in};
ghost use Rattle.atom_solver.specs.Imported.{IsImported, IsPlain};
ghost use Rattle.oracle_face.specs.StepSources.{imported_of, source_of};
ghost use Rattle.atom_solver.specs.Sides.{HasNoSide, IsSideOf};

use crate::in_hand::copy_of;
use crate::kept_side::KeptSide;
use crate::parts::SolverParts;
use crate::searched::Searched;
use hinted_log::MAX_STEPS;
use lists::{Items, Memory};
use meaning_atoms::{AtomLit, AxiomName};
use oracle_face::{AskId, Encoding, EntryName, Pending, StepSource};
use plain_lits::{Budget, Halt, StepId};
use set_lists::NumSet;
use std::alloc::Global;
use std::marker::Model;

/// A solver whose clauses are over atoms. It means the log of an oracle, and the clause that was in hand when the last
/// budget was spent. No framework is kept in it: whatever a call answers, what was a guarded log beside a framework
/// still is.
pub struct AtomSolver {
    parts: SolverParts,
}

// By hand, so that a drop is one call (docs/PROVING.md).
impl Drop for AtomSolver {
    fn drop(self) {
        let AtomSolver { parts: _ } = self;
    }
}

impl Model for AtomSolver {
    ghost use Rattle.atom_solver.specs.States.{AtomState};
    ghost use Rattle.atom_solver.specs.Inner.{state_of, IsWhole};

    ghost Value = { AtomState };

    ghost view = { λ s. state_of s.parts };

    ghost invariant = { λ s. IsWhole s.parts };
}

impl AtomSolver {
    /// No clause, and a log for at most so many steps.
    pub fn open(alloc: Global, log_limit: u64) -> Result<AtomSolver, Memory>
        requires { log_limit ≤ MAX_STEPS }
        ensures log { IfOk result (λ s. s.log ≡ empty_log log_limit) }
        ensures pending { IfOk result (λ s. s.pending ≡ None) }
    {
        let parts = SolverParts::open(alloc, log_limit)?;
        Ok(AtomSolver { parts })
    }

    /// Takes an axiom: its step comes and is in use, and no unit is spent. `LogFull` comes exactly at a full log. A
    /// loop clause, which is a unit, comes by `take_loop`.
    pub fn take_axiom(&mut self, alloc: Global, name: AxiomName) -> Result<(), Halt>
        requires { IsAxiomName name }
        ensures ok { OnOk result (AddsAxiom name self.old self.new) }
        ensures full { (result ≡ Err Halt.LogFull) ↔ (length self.old.log.steps ≡ self.old.log.limit) }
        ensures unspent { (count : ℕ) → result ≡ Err (Halt.Spent count) → ⊥ }
        ensures err { OnErr result (self.new ≡ self.old) }
        ensures log { (f : Framework) → IsAxiomOf f name → IsGuardedLog f self.old.log → IsGuardedLog f self.new.log }
    {
        self.parts.take_axiom(alloc, name)
    }

    /// Takes a loop clause, which is a unit where it is new and speaks of no fact but as false. The log's room is looked
    /// at first; where the budget is spent, the loop clause is kept as `pending`.
    pub fn take_loop(
        &mut self,
        alloc: Global,
        name: AxiomName,
        budget: &mut Budget,
    ) -> Result<(), Halt>
        requires name { IsAxiomName name }
        requires loop_clause { is_loop name ≡ true }
        ensures ok { OnOk result (AddsAxiom name self.old self.new) }
        ensures run { (f : Framework) → IsGuardedLog f self.old.log → IsAxiomOf f name
            → IsNew (working self.old.log.steps) (axiom_clause name) → FactsAreFalse f (axiom_clause name)
            → HasRun NoSide 0 f self.old.log self.new.log self.new.pending budget.old budget.new (halt_of result) }
        ensures same { OnErr result (self.new.log ≡ self.old.log) }
        ensures in_hand { (count : ℕ) → result ≡ Err (Halt.Spent count) → self.new.pending ≡ Some (OfLoop name) }
        ensures log { (f : Framework) → IsAxiomOf f name → IsGuardedLog f self.old.log → IsGuardedLog f self.new.log }
    {
        self.parts.take_loop(alloc, name, budget)
    }

    /// The number of a side clause, which is kept with the set that it is made from. Where there is one with the same
    /// literals, that one's number is given, and nothing changes. A new one takes a unit of the budget. The log's room
    /// is looked at first; where the budget is spent, the side clause is kept as `pending`. After every `Err` the log is
    /// as before.
    pub fn oblige(
        &mut self,
        alloc: Global,
        side: &[AtomLit],
        from: &NumSet,
        budget: &mut Budget,
    ) -> Result<AskId, Halt>
        requires { IsSide side.now }
        ensures obliges { (f : Framework) → IsGuardedLog f self.old.log
            → IfOk result (Obliges side.now self.old.log self.new.log) }
        ensures run { (f : Framework) → IsGuardedLog f self.old.log → HasRun (OnlySide side.now from.now) 0 f
            self.old.log self.new.log self.new.pending budget.old budget.new (halt_of result) }
        ensures same { OnErr result (self.new.log ≡ self.old.log) }
        ensures keeps { (self.new.log ≡ self.old.log) ⊎ TakesSideOf side.now from.now self.old.log self.new.log }
        ensures in_hand { (count : ℕ) → result ≡ Err (Halt.Spent count) → IsNoLoop self.new.pending }
        ensures log { StaysLog self.old.log self.new.log }
    {
        self.parts.oblige(alloc, side, from, budget)
    }

    /// Searches for literals under which each clause in use and each goal is true, where facts are as the framework has
    /// them. Each clause that is learned takes a unit of the budget; where it has none, the further clause is kept as
    /// `pending`. Where the goals are refuted, one step at most is logged that only ends the search, and only where no
    /// step's clause is a part of its own. After `Memory` the log may have learned steps that no budget counts.
    pub fn search<E: Encoding>(
        &mut self,
        alloc: Global,
        plain: &E::Plain,
        goals: &[AtomLit],
        budget: &mut Budget,
    ) -> Result<Searched, Halt>
        requires plain { IsTautology negated goals.now → ⊥ }
        requires unfixed { AreUnfixed (E.framework plain.now) goals.now }
        ensures answer { IsGuardedLog (E.framework plain.now) self.old.log
            → IfOk result (IsAnswer (E.framework plain.now) self.new.log goals.now) }
        ensures run { HasRun NoSide (ends_in result) (E.framework plain.now) self.old.log self.new.log
            self.new.pending budget.old budget.new (halt_of result) }
        ensures learns { UnlessMemory (halt_of result) (LearnsClauses self.old.log self.new.log) }
        ensures in_hand { (count : ℕ) → result ≡ Err (Halt.Spent count) → IsNoLoop self.new.pending }
        ensures log { StaysLog self.old.log self.new.log }
    {
        self.parts.search::<E>(alloc, plain, goals, budget)
    }

    /// Takes a clause from an entry: its step comes by those of the hints that the check looks at, is in use and marked
    /// with the entry's name, and no unit is spent. False where the log is full, or the check doesn't take the clause;
    /// then nothing has changed. A guarded log stays one where the clause and its hints ask for no side clause.
    pub fn import(
        &mut self,
        alloc: Global,
        literals: &[AtomLit],
        hints: Items<StepId>,
        name: EntryName,
    ) -> Result<bool, Memory>
        ensures imported { IfOk result (IsImported literals.now hints name self.old self.new) }
        ensures err { OnErr result (self.new ≡ self.old) }
    {
        self.parts.import(alloc, literals, hints, name)
    }

    /// Whether a step may be handed to others, or show what they hand over: it didn't only end a search, and asks for no
    /// side clause.
    pub fn is_plain(&self, step: StepId) -> bool
        requires { IsNumberOf self.now.log.steps step }
        ensures { IsTrue result ↔ IsPlain (step_at self.now.log.steps step) }
    {
        self.parts.is_plain(step)
    }

    /// The clause that was in hand when the last budget was spent.
    pub fn pending(&self, alloc: Global) -> Result<Option<Pending>, Memory>
        ensures { IfOk result (λ pending. pending ≡ self.now.pending) }
    {
        match &self.parts.pending {
            Some(pending) => Ok(Some(copy_of(alloc, pending)?)),
            None => Ok(None),
        }
    }

    /// Takes the clause that was in hand when the last budget was spent.
    pub fn take_pending(&mut self) -> Option<Pending>
        ensures pending { result ≡ self.old.pending }
        ensures rest { self.new ≡ record { log = self.old.log; pending = None } }
    {
        self.parts.pending.take()
    }

    /// The number of steps.
    pub fn len(&self) -> usize
        ensures len { result ≡ length self.now.log.steps }
        ensures within { length self.now.log.steps ≤ self.now.log.limit }
        ensures small { self.now.log.limit ≤ MAX_STEPS }
        ensures axioms { UsesAxioms self.now.log }
    {
        self.parts.solver.log().len()
    }

    /// The clause of a step.
    pub fn clause(&self, alloc: Global, step: StepId) -> Result<Items<AtomLit>, Memory>
        requires { IsNumberOf self.now.log.steps step }
        ensures { IfOk result (λ clause. clause ≡ (step_at self.now.log.steps step).clause) }
    {
        self.parts.clause(alloc, step)
    }

    /// Where a step comes from.
    pub fn origin(&self, alloc: Global, step: StepId) -> Result<StepSource, Memory>
        requires { IsNumberOf self.now.log.steps step }
        ensures source { IfOk result (λ origin. (step_at self.now.log.steps step).source
            ≡ source_of origin (hints_of (step_at self.now.log.steps step).source)) }
        ensures imported { IfOk result (λ origin. (step_at self.now.log.steps step).imported ≡ imported_of origin) }
    {
        self.parts.origin(alloc, step)
    }

    /// The steps that a step follows from; none where it is an axiom or the step of a side clause.
    pub fn hints(&self, step: StepId) -> &[StepId]
        requires { IsNumberOf self.now.log.steps step }
        ensures { result.now ≡ hints_of (step_at self.now.log.steps step).source }
    {
        self.parts.hints(step)
    }

    /// The side clause of a number.
    pub fn side(&self, number: AskId) -> &KeptSide
        requires { IsNumberOf self.now.log.sides number }
        ensures { result.now ≡ side_at self.now.log.sides number }
    {
        self.parts.sides.side(number.number() as usize - 1)
    }

    /// The number of side clauses.
    pub fn sides(&self) -> usize
        ensures { result ≡ length self.now.log.sides }
    {
        self.parts.sides.len()
    }

    /// The number of the side clause that has these literals, whatever their order; None exactly where there is none.
    pub fn ask_of(&self, alloc: Global, literals: &[AtomLit]) -> Result<Option<AskId>, Memory>
        ensures some { IfOk result (λ found. IfSome found (IsSideOf self.now.log.sides literals.now)) }
        ensures none { IfOk result (λ found. IfNone found (HasNoSide self.now.log.sides literals.now)) }
    {
        self.parts.ask_of(alloc, literals)
    }
}
