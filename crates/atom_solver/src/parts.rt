//! What a solver over atoms is made of.

ghost use Rattle.std.specs.Prelude.{◌+◌, ◌-◌, ◌⊎◌, IfErr, IfNone, None, IfSome, slice_index_or, ◌≡◌, ◌↔◌, ℕ, ◌≤◌};
ghost use Rattle.std.specs.Prelude.{[], length, List, IfOk, OnOk, OnErr, Contains, ◌<◌, vec_len, vec_capacity};
ghost use Rattle.plain_lits.specs.declared.lit.Lit.{Lit as ALit};
ghost use Rattle.plain_lits.specs.HintCheck.{IsTautology};
ghost use Rattle.plain_lits.specs.Literals.{negation};
ghost use Rattle.semantics.specs.Frameworks.{Framework};
ghost use Rattle.hinted_log.specs.declared.log.TheConstants.{MAX_STEPS};
ghost use Rattle.certificate_claims.specs.Refutations.{axiom_clause};
ghost use Rattle.plain_lits.specs.Checking.{HasRoomFor};
ghost use Rattle.meaning_atoms.specs.declared.atom.AtomLit.{AtomLit as AnAtomLit};
ghost use Rattle.meaning_atoms.specs.Literals.{negated};
ghost use Rattle.oracle_face.specs.Goals.{IsSide};
ghost use Rattle.oracle_face.specs.Growing.{HasRun, NoSide, Obliges, OnlySide, UnlessMemory, halt_of};
ghost use Rattle.oracle_face.specs.Logs.{IsNumberOf, hints_of, step_at};
ghost use Rattle.meaning_atoms.specs.AxiomNames.{IsAxiomName};
ghost use Rattle.oracle_face.specs.declared.face.Pending.TheVariants.{Loop as OfLoop, Side as OfSide};
ghost use Rattle.atom_solver.specs.Sides.{HasNoSide, IsNowhere, IsOrdered, IsSideOf};
ghost use Rattle.oracle_face.specs.declared.step_source.StepSource.TheVariants.{Hints};
ghost use Rattle.atom_solver.specs.Assumed.{AreAssumed, AreNear};
ghost use Rattle.atom_solver.specs.Inner.{state_of, GainsGiven, IsFilled, IsKept, IsWhole};
ghost use Rattle.atom_solver.specs.Inner.{KeepsInHand, KeepsSide, NeedsNoHints, StopsUnit, Tells};
ghost use Rattle.atom_solver.specs.Searches.{IsAnswer, AreUnfixed, HasLooked, ends_in};
ghost use Rattle.oracle_face.specs.Goals.{RefutesGoals};
ghost use Rattle.plain_lits.specs.Units.{Units};
ghost use Rattle.atom_solver.specs.Lifted.{atoms_of};
ghost use Rattle.oracle_face.specs.StepSources.{imported_of, is_given, source_of};
ghost use Rattle.atom_solver.specs.States.{AddsAxiom, IsGuardedLog, IsNoLoop, StaysLog, TakesSideOf, empty_state};
ghost use Rattle.session_log.specs.Steps.{LearnsClauses};
ghost use Rattle.atom_solver.specs.Tables.{StandsFor};

use crate::kept_side::{guarded_literals, in_order, number_at};
use crate::searched::Searched;
use crate::side_table::SideTable;
use crate::tables::{
    assume_facts, assume_some, over_atoms, packed_over_atoms, prefer_attacks, push_lits_for,
    reset_phases,
};
use atom_table::AtomTable;
use certificate_claims::clause_of_axiom;
use hinted_log::{LogFault, MAX_STEPS};
use lists::{Items, Memory};
use meaning_atoms::{Atom, AtomLit, AxiomName};
use oracle_face::{AskId, Encoding, Pending, StepSource};
use plain_lits::{Budget, Clause, Halt, Lit, StepId};
use sat_core::{Added, Solved, Solver};
use set_lists::NumSet;
use std::alloc::Global;

/// The solver with the table of its atoms, and what its log over atoms has besides.
#[derive(Drop)]
pub(crate) struct SolverParts {
    pub(crate) table: AtomTable,
    pub(crate) solver: Solver,
    /// Where the first steps come from; all others follow from their hints.
    pub(crate) origins: Vec<StepSource>,
    pub(crate) sides: SideTable,
    pub(crate) pending: Option<Pending>,
    /// The assumptions of the last search, and room for those of the next.
    pub(crate) assumed: Vec<Lit>,
    /// Room for the literals of a clause that comes.
    pub(crate) given: Vec<Lit>,
}

/// Says of all steps so far where they come from, and makes room for one more.
pub(crate) fn fill(origins: &mut Vec<StepSource>, steps: usize) -> Result<(), Memory>
    requires { length origins.old.items ≤ steps }
    ensures filled { IsFilled origins.old.items origins.new.items steps }
    ensures ok { OnOk result (length origins.new.items ≡ steps) }
    ensures room { OnOk result (vec_len origins.new < vec_capacity origins.new) }
{
    while origins.len() < steps {
        origins.push(StepSource::Hints)?;
    }
    origins.reserve(1)?;
    Ok(())
}

/// What a search found, over atoms.
fn searched(alloc: Global, table: &AtomTable, solved: Solved) -> Result<Searched, Memory>
    ensures { IfOk result (Tells table.now solved) }
{
    match solved {
        Solved::Model(lits) => {
            let values = over_atoms(alloc, table, lits.as_slice())?;
            Ok(Searched::Model(values))
        }
        Solved::Core(step) => Ok(Searched::Refuted(step)),
    }
}

impl SolverParts {
    /// No clause, and a log for at most so many steps.
    pub(crate) fn open(alloc: Global, log_limit: u64) -> Result<SolverParts, Memory>
        requires { log_limit ≤ MAX_STEPS }
        ensures whole { IfOk result IsWhole }
        ensures state { IfOk result (λ parts. state_of parts ≡ empty_state log_limit) }
    {
        let solver = Solver::open(alloc, log_limit)?;
        Ok(SolverParts {
            table: AtomTable::new(alloc),
            solver,
            origins: Vec::new(alloc),
            sides: SideTable::new(alloc),
            pending: None,
            assumed: Vec::new(alloc),
            given: Vec::new(alloc),
        })
    }

    /// The clause that stands for literals, of which each atom gets a variable.
    pub(crate) fn stand_for(
        &mut self,
        alloc: Global,
        literals: &[AtomLit],
    ) -> Result<Clause, Memory>
        requires whole { IsWhole self.old }
        ensures whole { IsWhole self.new }
        ensures state { state_of self.new ≡ state_of self.old }
        ensures solver { self.new.solver ≡ self.old.solver }
        ensures sides { self.new.sides ≡ self.old.sides }
        ensures clause { IfOk result (StandsFor self.new.table literals.now) }
    {
        self.given.clear();
        push_lits_for(&mut self.table, &mut self.solver, literals, &mut self.given)?;
        Clause::from_slice(alloc, self.given.as_slice())
    }

    /// Adds a clause that is given, with where it comes from.
    fn add_given(&mut self, clause: Clause, how: Added, origin: StepSource) -> Result<(), Halt>
        requires whole { IsWhole self.old }
        requires room { HasRoomFor (length self.old.table) clause }
        requires how { NeedsNoHints how }
        requires own { imported_of origin ≡ None }
        ensures whole { IsWhole self.new }
        ensures ok { OnOk result (GainsGiven (atoms_of self.old.table clause) (source_of origin []) (state_of self.old)
            (state_of self.new)) }
        ensures full { result ≡ Err Halt.LogFull
            → length self.old.solver.log.steps ≡ self.old.solver.log.limit }
        ensures unspent { (count : ℕ) → result ≡ Err (Halt.Spent count) → ⊥ }
        ensures err { OnErr result (state_of self.new ≡ state_of self.old) }
        ensures sides { self.new.sides ≡ self.old.sides }
    {
        let steps = self.solver.log().len();
        fill(&mut self.origins, steps)?;
        match self.solver.add(clause, how) {
            Ok(_) => {
                let _ = self.origins.push(origin);
                Ok(())
            }
            Err(LogFault::Memory) => Err(Halt::Memory),
            Err(LogFault::LogFull) => Err(Halt::LogFull),
            Err(LogFault::Rejected(_)) => unreachable!(),
        }
    }

    /// Takes an axiom.
    pub(crate) fn take_axiom(&mut self, alloc: Global, name: AxiomName) -> Result<(), Halt>
        requires whole { IsWhole self.old }
        requires name { IsAxiomName name }
        ensures whole { IsWhole self.new }
        ensures ok { OnOk result (AddsAxiom name (state_of self.old) (state_of self.new)) }
        ensures full { (result ≡ Err Halt.LogFull)
            ↔ (length self.old.solver.log.steps ≡ self.old.solver.log.limit) }
        ensures unspent { (count : ℕ) → result ≡ Err (Halt.Spent count) → ⊥ }
        ensures err { OnErr result (state_of self.new ≡ state_of self.old) }
    {
        if self.solver.log().is_full() {
            return Err(Halt::LogFull);
        }
        let literals = clause_of_axiom(alloc, &name)?;
        let clause = self.stand_for(alloc, literals.as_slice())?;
        self.add_given(clause, Added::Axiom, StepSource::Axiom(name))
    }

    /// Takes a loop clause, for which a unit is spent.
    pub(crate) fn take_loop(
        &mut self,
        alloc: Global,
        name: AxiomName,
        budget: &mut Budget,
    ) -> Result<(), Halt>
        requires whole { IsWhole self.old }
        requires name { IsAxiomName name }
        ensures whole { IsWhole self.new }
        ensures ok { OnOk result (AddsAxiom name (state_of self.old) (state_of self.new)) }
        ensures spent { OnOk result (budget.new.used ≡ budget.old.used + 1) }
        ensures limit { budget.new.limit ≡ budget.old.limit }
        ensures log { OnErr result ((state_of self.new).log ≡ (state_of self.old).log) }
        ensures stops { IfErr result (StopsUnit (OfLoop name) (state_of self.new) budget.old budget.new) }
    {
        if self.solver.log().is_full() {
            return Err(Halt::LogFull);
        }
        let paid = budget.spend();
        if !paid {
            self.pending = Some(Pending::Loop(name));
            return Err(Halt::Spent(budget.used()));
        }
        self.take_axiom(alloc, name)
    }

    /// Assumes the facts of all atoms with a variable, and the goals.
    fn assume<E: Encoding>(&mut self, plain: &E::Plain, goals: &[AtomLit]) -> Result<(), Memory>
        requires whole { IsWhole self.old }
        requires unfixed { AreUnfixed (E.framework plain.now) goals.now }
        ensures whole { IsWhole self.new }
        ensures state { state_of self.new ≡ state_of self.old }
        ensures ok { OnOk result (AreAssumed (E.framework plain.now) self.new.table goals.now self.new.assumed.items) }
    {
        assume_facts::<E>(&self.table, plain, &mut self.assumed)?;
        push_lits_for(&mut self.table, &mut self.solver, goals, &mut self.assumed)?;
        Ok(())
    }

    /// Keeps a side clause with its step.
    fn keep_side(
        &mut self,
        alloc: Global,
        literals: Items<AtomLit>,
        set: NumSet,
    ) -> Result<AskId, Halt>
        requires whole { IsWhole self.old }
        requires ordered { IsOrdered literals }
        requires other { IsNowhere self.old.sides.kept literals }
        ensures whole { IsWhole self.new }
        ensures ok { IfOk result (KeepsSide literals set (state_of self.old) (state_of self.new)) }
        ensures full { result ≡ Err Halt.LogFull
            → length self.old.solver.log.steps ≡ self.old.solver.log.limit }
        ensures unspent { (count : ℕ) → result ≡ Err (Halt.Spent count) → ⊥ }
        ensures err { OnErr result (state_of self.new ≡ state_of self.old) }
    {
        let number = number_at(self.sides.len())?;
        let guarded = guarded_literals(alloc, number, literals.as_slice())?;
        let clause = self.stand_for(alloc, guarded.as_slice())?;
        prefer_attacks(&self.table, &mut self.solver, self.given.as_slice())?;
        self.sides.make_room()?;
        self.add_given(clause, Added::Side, StepSource::Side(number))?;
        self.sides.push(literals, set);
        Ok(number)
    }

    /// Adds a side clause that isn't there, for which a unit is spent.
    fn add_side(
        &mut self,
        alloc: Global,
        literals: Items<AtomLit>,
        from: &NumSet,
        budget: &mut Budget,
    ) -> Result<AskId, Halt>
        requires whole { IsWhole self.old }
        requires ordered { IsOrdered literals }
        requires other { IsNowhere self.old.sides.kept literals }
        ensures whole { IsWhole self.new }
        ensures ok { IfOk result (KeepsSide literals from.now (state_of self.old) (state_of self.new)) }
        ensures spent { OnOk result (budget.new.used ≡ budget.old.used + 1) }
        ensures limit { budget.new.limit ≡ budget.old.limit }
        ensures log { OnErr result ((state_of self.new).log ≡ (state_of self.old).log) }
        ensures stops { IfErr result (StopsUnit (OfSide literals from.now) (state_of self.new) budget.old budget.new) }
    {
        if self.solver.log().is_full() {
            return Err(Halt::LogFull);
        }
        let set = from.copy(alloc)?;
        if !budget.spend() {
            self.pending = Some(Pending::Side(literals, set));
            return Err(Halt::Spent(budget.used()));
        }
        self.keep_side(alloc, literals, set)
    }

    /// The number of a side clause.
    pub(crate) fn oblige(
        &mut self,
        alloc: Global,
        side: &[AtomLit],
        from: &NumSet,
        budget: &mut Budget,
    ) -> Result<AskId, Halt>
        requires whole { IsWhole self.old }
        requires side { IsSide side.now }
        ensures whole { IsWhole self.new }
        ensures obliges { (f : Framework) → IsGuardedLog f (state_of self.old).log
            → IfOk result (Obliges side.now (state_of self.old).log (state_of self.new).log) }
        ensures run { (f : Framework) → IsGuardedLog f (state_of self.old).log
            → HasRun (OnlySide side.now from.now) 0 f (state_of self.old).log (state_of self.new).log self.new.pending
            budget.old budget.new (halt_of result) }
        ensures same { OnErr result ((state_of self.new).log ≡ (state_of self.old).log) }
        ensures keeps { ((state_of self.new).log ≡ (state_of self.old).log)
            ⊎ TakesSideOf side.now from.now (state_of self.old).log (state_of self.new).log }
        ensures in_hand { (count : ℕ) → result ≡ Err (Halt.Spent count) → IsNoLoop self.new.pending }
        ensures log { StaysLog (state_of self.old).log (state_of self.new).log }
    {
        let literals = in_order(alloc, side)?;
        match self.sides.find(literals.as_slice()) {
            Some(index) => {
                let number = number_at(index)?;
                Ok(number)
            }
            None => self.add_side(alloc, literals, from, budget),
        }
    }

    /// The clause of a step.
    pub(crate) fn clause(&self, alloc: Global, step: StepId) -> Result<Items<AtomLit>, Memory>
        requires whole { IsWhole self.now }
        requires step { IsNumberOf (state_of self.now).log.steps step }
        ensures { IfOk result (λ clause. clause ≡ (step_at (state_of self.now).log.steps step).clause) }
    {
        packed_over_atoms(alloc, &self.table, self.solver.log().clause(step))
    }

    /// Where a step comes from.
    pub(crate) fn origin(&self, alloc: Global, step: StepId) -> Result<StepSource, Memory>
        requires { 0 < step }
        ensures { IfOk result (λ origin. origin ≡ slice_index_or self.now.origins.items (step - 1) Hints) }
    {
        let index = step.number() as usize - 1;
        match self.origins.get(index) {
            Some(origin) => origin.copy(alloc),
            None => Ok(StepSource::Hints),
        }
    }

    /// Whether a step needs no hints: it is an axiom, or a side clause's.
    fn is_given(&self, step: StepId) -> bool
        requires { 0 < step }
        ensures { result ≡ is_given (slice_index_or self.now.origins.items (step - 1) Hints) }
    {
        match self.origins.get(step.number() as usize - 1) {
            Some(origin) => origin.is_given(),
            None => false,
        }
    }

    /// The steps that a step follows from.
    pub(crate) fn hints(&self, step: StepId) -> &[StepId]
        requires { IsNumberOf (state_of self.now).log.steps step }
        ensures { result.now ≡ hints_of (step_at (state_of self.now).log.steps step).source }
    {
        if self.is_given(step) {
            return &[];
        }
        self.solver.log().hints(step)
    }

    /// Keeps the clause that was in hand when a search's budget was spent.
    fn keep_in_hand(&mut self, alloc: Global) -> Result<(), Memory>
        ensures rest { KeepsInHand self.old self.new }
        ensures kept { OnOk result (IsKept self.old.table self.old.solver.pending self.new.pending) }
    {
        if let Some(in_hand) = self.solver.take_pending() {
            let literals = over_atoms(alloc, &self.table, in_hand.clause.as_slice())?;
            self.pending = Some(Pending::Learned(literals, in_hand.hints));
        }
        Ok(())
    }

    /// Searches under what is assumed.
    fn search_assumed(&mut self, alloc: Global, budget: &mut Budget) -> Result<Searched, Halt>
        requires whole { IsWhole self.old }
        requires plain { (l : ALit) → Contains self.old.assumed.items l
            → Contains self.old.assumed.items (negation l) → ⊥ }
        ensures whole { IsWhole self.new }
        ensures answer { (f : Framework) (goals : List AnAtomLit)
            → AreAssumed f self.old.table goals self.old.assumed.items → IsGuardedLog f (state_of self.old).log
            → IfOk result (IsAnswer f (state_of self.new).log goals) }
        ensures run { (f : Framework) (goals : List AnAtomLit)
            → AreAssumed f self.old.table goals self.old.assumed.items → HasRun NoSide (ends_in result) f
            (state_of self.old).log (state_of self.new).log self.new.pending budget.old budget.new (halt_of result) }
        ensures learns { UnlessMemory (halt_of result) (LearnsClauses (state_of self.old).log (state_of self.new).log) }
        ensures in_hand { (count : ℕ) → result ≡ Err (Halt.Spent count) → IsNoLoop self.new.pending }
        ensures log { StaysLog (state_of self.old).log (state_of self.new).log }
    {
        reset_phases(&self.table, &mut self.solver, &self.assumed);
        let _different = self.table.len();
        let _before = self.solver.log().len();
        let end = self.solver.solve(self.assumed.as_slice(), budget);
        let _after = self.solver.log().len();
        match end {
            Ok(solved) => {
                let found = searched(alloc, &self.table, solved)?;
                Ok(found)
            }
            Err(halt) => {
                self.keep_in_hand(alloc)?;
                Err(halt)
            }
        }
    }

    /// Finds the facts among some atoms, and the goals.
    fn assume_near<E: Encoding>(
        &mut self,
        plain: &E::Plain,
        atoms: &[Atom],
        goals: &[AtomLit],
    ) -> Result<(), Memory>
        requires whole { IsWhole self.old }
        ensures whole { IsWhole self.new }
        ensures state { state_of self.new ≡ state_of self.old }
        ensures ok { OnOk result (AreNear (E.framework plain.now) self.new.table goals.now self.new.assumed.items) }
    {
        assume_some::<E>(&self.table, plain, atoms, &mut self.assumed)?;
        push_lits_for(&mut self.table, &mut self.solver, goals, &mut self.assumed)?;
        Ok(())
    }

    /// Looks whether propagation refutes what is assumed. None says nothing.
    fn refute_assumed(&mut self) -> Result<Option<StepId>, Memory>
        requires whole { IsWhole self.old }
        requires plain { (l : ALit) → Contains self.old.assumed.items l
            → Contains self.old.assumed.items (negation l) → ⊥ }
        ensures whole { IsWhole self.new }
        ensures none { result ≡ Ok None → state_of self.new ≡ state_of self.old }
        ensures answer { (f : Framework) (goals : List AnAtomLit)
            → AreNear f self.old.table goals self.old.assumed.items → IsGuardedLog f (state_of self.old).log
            → IfOk result (λ found. IfSome found (RefutesGoals f (state_of self.new).log goals)) }
        ensures run { (f : Framework) (units : Units) → HasLooked f (state_of self.old).log (state_of self.new).log
            self.new.pending units result }
        ensures learns { OnOk result (LearnsClauses (state_of self.old).log (state_of self.new).log) }
        ensures log { StaysLog (state_of self.old).log (state_of self.new).log }
    {
        let _different = self.table.len();
        let _before = self.solver.log().len();
        let found = self.solver.refute(self.assumed.as_slice());
        let _after = self.solver.log().len();
        found
    }

    /// Looks whether the facts near goals refute them, by propagation alone. None says nothing.
    fn refute_near<E: Encoding>(
        &mut self,
        alloc: Global,
        plain: &E::Plain,
        goals: &[AtomLit],
    ) -> Result<Option<StepId>, Memory>
        requires whole { IsWhole self.old }
        requires plain { IsTautology negated goals.now → ⊥ }
        requires unfixed { AreUnfixed (E.framework plain.now) goals.now }
        ensures whole { IsWhole self.new }
        ensures none { result ≡ Ok None → state_of self.new ≡ state_of self.old }
        ensures answer { IsGuardedLog (E.framework plain.now) (state_of self.old).log
            → IfOk result (λ found. IfSome found
            (RefutesGoals (E.framework plain.now) (state_of self.new).log goals.now)) }
        ensures run { (f : Framework) (units : Units) → HasLooked f (state_of self.old).log (state_of self.new).log
            self.new.pending units result }
        ensures learns { OnOk result (LearnsClauses (state_of self.old).log (state_of self.new).log) }
        ensures log { StaysLog (state_of self.old).log (state_of self.new).log }
    {
        let atoms = E::near(alloc, plain, goals)?;
        if atoms.as_slice().is_empty() {
            return Ok(None);
        }
        self.assume_near::<E>(plain, atoms.as_slice(), goals)?;
        self.refute_assumed()
    }

    /// Searches under facts and goals. What is near the goals is looked at first: most goals that have no set are
    /// refuted by it, and then the time is that of the neighbourhood and not of all facts.
    pub(crate) fn search<E: Encoding>(
        &mut self,
        alloc: Global,
        plain: &E::Plain,
        goals: &[AtomLit],
        budget: &mut Budget,
    ) -> Result<Searched, Halt>
        requires whole { IsWhole self.old }
        requires plain { IsTautology negated goals.now → ⊥ }
        requires unfixed { AreUnfixed (E.framework plain.now) goals.now }
        ensures whole { IsWhole self.new }
        ensures answer { IsGuardedLog (E.framework plain.now) (state_of self.old).log
            → IfOk result (IsAnswer (E.framework plain.now) (state_of self.new).log goals.now) }
        ensures run { HasRun NoSide (ends_in result) (E.framework plain.now) (state_of self.old).log
            (state_of self.new).log self.new.pending budget.old budget.new (halt_of result) }
        ensures learns { UnlessMemory (halt_of result) (LearnsClauses (state_of self.old).log (state_of self.new).log) }
        ensures in_hand { (count : ℕ) → result ≡ Err (Halt.Spent count) → IsNoLoop self.new.pending }
        ensures log { StaysLog (state_of self.old).log (state_of self.new).log }
    {
        match self.refute_near::<E>(alloc, plain, goals) {
            Ok(Some(step)) => Ok(Searched::Refuted(step)),
            Ok(None) => {
                self.assume::<E>(plain, goals)?;
                self.search_assumed(alloc, budget)
            }
            Err(_) => Err(Halt::Memory),
        }
    }

    /// The number of the side clause with these literals, if there is one.
    pub(crate) fn ask_of(
        &self,
        alloc: Global,
        literals: &[AtomLit],
    ) -> Result<Option<AskId>, Memory>
        requires { IsWhole self.now }
        ensures some { IfOk result (λ found. IfSome found (IsSideOf (state_of self.now).log.sides literals.now)) }
        ensures none { IfOk result (λ found. IfNone found (HasNoSide (state_of self.now).log.sides literals.now)) }
    {
        let ordered = in_order(alloc, literals)?;
        match self.sides.find(ordered.as_slice()) {
            Some(index) => {
                let number = number_at(index)?;
                Ok(Some(number))
            }
            None => Ok(None),
        }
    }
}
