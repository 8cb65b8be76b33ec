//! The engine: an oracle over a kept solver.

ghost use Rattle.std.specs.Prelude.{◌≡◌, ◌≢◌, ◌⊎◌, ◌≤◌, Err, IfOk, None, OnOk, length};
ghost use Rattle.edit_rules.specs.Kinds.{framework_of};
ghost use Rattle.edit_rules.specs.Replay.{IsTaken, after_edit};
ghost use Rattle.hinted_log.specs.declared.log.TheConstants.{MAX_STEPS};
ghost use Rattle.atom_solver.specs.States.{empty_log};
ghost use Rattle.framework_solver.specs.Solvers.{AreInForce};
ghost use Rattle.framework_solver.specs.Updating.{GainsNeeded};

use certificate_making::ReadLog;
use edit_rules::{Effect, Framework};
use framework_solver::kinds::{accepts, admissible_part_of, is_aba, range_of};
use framework_solver::{FrameworkSolver, UpdateStop};
use hinted_log::MAX_STEPS;
use lists::{Items, Memory};
use meaning_atoms::AtomLit;
use oracle_face::{AskId, Found, Oracle, Pending, StepSource};
use plain_lits::{Budget, Halt, StepId};
use set_lists::NumSet;
use std::alloc::Global;
use std::marker::Model;

/// An oracle for one framework, over a solver that is kept from one search to the next with what it has learned. It means
/// its number, by which its entries are named, the framework, the log, and the clause that was in hand when the last budget
/// was spent.
pub struct Engine {
    pub(crate) number: u32,
    pub(crate) parts: FrameworkSolver,
    /// How many steps need not be offered any more: a trade kept them, or they don't go to others.
    pub(crate) offered: usize,
}

// By hand, so that a drop is one call (docs/PROVING.md).
impl Drop for Engine {
    fn drop(self) {
        let Engine {
            number: _,
            parts: _,
            offered: _,
        } = self;
    }
}

impl Model for Engine {
    ghost use Rattle.framework_solver.specs.Solvers.{IsWhole};
    ghost use Rattle.oracle_core.specs.Engines.{EngineState, engine_state};

    ghost Value = { EngineState };

    ghost view = { λ e. engine_state e.number e.parts };

    ghost invariant = { λ e. IsWhole e.parts };
}

impl Engine {
    /// The engine of a number for a framework, with an empty log for at most so many steps. No axiom is in the log before
    /// the first search.
    pub fn new(
        alloc: Global,
        number: u32,
        framework: Framework,
        log_limit: u64,
    ) -> Result<Engine, Memory>
        requires { log_limit ≤ MAX_STEPS }
        ensures number { IfOk result (λ e. e.number ≡ number) }
        ensures framework { IfOk result (λ e. e.framework ≡ framework_of framework) }
        ensures log { IfOk result (λ e. e.log ≡ empty_log log_limit) }
        ensures pending { IfOk result (λ e. e.pending ≡ None) }
    {
        let parts = FrameworkSolver::open(alloc, framework, log_limit)?;
        Ok(Engine {
            number,
            parts,
            offered: 0,
        })
    }

    /// The engine's framework.
    pub fn framework(&self) -> &Framework
        ensures { framework_of result.now ≡ self.now.framework }
    {
        &self.parts.framework
    }

    /// The number of steps of the log.
    pub fn steps(&self) -> usize
        ensures { result ≡ length self.now.log.steps }
    {
        self.parts.solver.len()
    }

    /// The clause that was in hand when the last budget was spent.
    pub fn pending(&self, alloc: Global) -> Result<Option<Pending>, Memory>
        ensures { IfOk result (λ pending. pending ≡ self.now.pending) }
    {
        self.parts.solver.pending(alloc)
    }

    /// Follows an edit of the framework: `effect` is what the edit does to the engine's framework. Nothing is withdrawn
    /// from the log. It gains the axioms that the framework needs behind the edit and that no step is yet; so an engine
    /// that had all of those before takes time for what the edit changed, beside the framework's flat arrays: an attack comes
    /// or goes in place, where what stands behind it moves by one, and every other edit is made in a copy. The first update
    /// of an engine that was asked nothing works out all axioms that the framework needs.
    ///
    /// `LogFull` comes only at a full log: the framework is the edited one then, and the next answer that takes steps
    /// adds the axioms that lack, or stops so. After `Memory` either nothing has changed, or the framework is the edited
    /// one and some axioms may lack, which the next answer adds.
    pub fn update(&mut self, alloc: Global, effect: &Effect) -> Result<(), UpdateStop>
        requires { IsTaken self.old.framework effect.now.edit effect.now }
        ensures framework { result ≢ Err UpdateStop.Memory
            → self.new.framework ≡ after_edit self.old.framework effect.now.edit }
        ensures stays { (self.new ≡ self.old)
            ⊎ (self.new.framework ≡ after_edit self.old.framework effect.now.edit) }
        ensures in_force { OnOk result (AreInForce self.new.framework self.new.log) }
        ensures full { result ≡ Err UpdateStop.LogFull → length self.new.log.steps ≡ self.new.log.limit }
        ensures gains { GainsNeeded self.new.framework self.old.log self.new.log }
        ensures number { self.new.number ≡ self.old.number }
        ensures pending { self.new.pending ≡ self.old.pending }
    {
        self.parts.update(alloc, effect)
    }
}

impl Oracle for Engine {
    ghost use Rattle.std.proofs.Common.{◌≡◌, ◌∙◌, refl};

    ghost framework = { λ e. e.framework };

    ghost log = { λ e. e.log };

    ghost pending = { λ e. e.pending };

    ghost follows = { λ before after. after.number ≡ before.number };

    fn members(&self) -> &NumSet {
        &self.parts.members
    }

    fn is_aba(&self) -> bool {
        is_aba(&self.parts.framework)
    }

    fn find(
        &mut self,
        alloc: Global,
        goals: &[AtomLit],
        budget: &mut Budget,
    ) -> Result<Found, Halt> {
        self.parts.find(alloc, goals, budget)
    }

    fn oblige(
        &mut self,
        alloc: Global,
        side: &[AtomLit],
        from: &NumSet,
        budget: &mut Budget,
    ) -> Result<AskId, Halt> {
        self.parts.oblige(alloc, side, from, budget)
    }

    fn range(&self, alloc: Global, set: &NumSet) -> Result<NumSet, Memory> {
        range_of(alloc, &self.parts.framework, set)
    }

    fn admissible_part(
        &self,
        alloc: Global,
        set: &NumSet,
        without: &NumSet,
    ) -> Result<NumSet, Memory> {
        admissible_part_of(alloc, &self.parts.framework, set, without)
    }

    fn accepts(&self, alloc: Global, goal: u32, set: &NumSet) -> Result<bool, Memory> {
        accepts(alloc, &self.parts.framework, goal, set)
    }

    ghost stays = { λ e. refl };

    ghost joins = { λ before between after first second. second ∙ first };
}

impl ReadLog for Engine {
    ghost framework = { λ e. e.framework };

    ghost log = { λ e. e.log };

    fn len(&self) -> usize {
        self.parts.solver.len()
    }

    fn clause(&self, alloc: Global, step: StepId) -> Result<Items<AtomLit>, Memory> {
        self.parts.solver.clause(alloc, step)
    }

    fn origin(&self, alloc: Global, step: StepId) -> Result<StepSource, Memory> {
        self.parts.solver.origin(alloc, step)
    }

    fn hints(&self, step: StepId) -> &[StepId] {
        self.parts.solver.hints(step)
    }

    fn sides(&self) -> usize {
        self.parts.solver.sides()
    }

    fn ask_of(&self, alloc: Global, literals: &[AtomLit]) -> Result<Option<AskId>, Memory> {
        self.parts.solver.ask_of(alloc, literals)
    }
}
