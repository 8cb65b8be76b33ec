//! How a log grows by one step.

ghost use Rattle.std.specs.Prelude.{◌≡◌, ◌↔◌, ◌<◌, ◌+◌, length, IfOk, IsTrue, OnErr, OnOk};
ghost use Rattle.oracle_face.specs.Goals.{IsSide};
ghost use Rattle.oracle_face.specs.Logs.{guarded};
ghost use Rattle.session_log.specs.Steps.{GainsStep, TakesSide, axiom_step, derived_step};
ghost use Rattle.core_logs.specs.Tests.{HasSideLike, IsSideLike};

use crate::literals::{copy_clause, is_same_clause, opposite};
use crate::log::CoreLog;
use crate::steps::{CoreSide, CoreStep, Justification};
use lists::{Items, Memory};
use meaning_atoms::{AtomLit, AxiomName};
use oracle_face::{AskId, EntryName};
use plain_lits::StepId;
use set_lists::NumSet;
use std::alloc::Global;

impl CoreLog {
    /// Takes an axiom with this clause, from an entry or by oneself. After `Memory` the log is as before.
    pub fn take_axiom(
        &mut self,
        alloc: Global,
        name: &AxiomName,
        clause: &[AtomLit],
        imported: Option<EntryName>,
    ) -> Result<(), Memory>
        requires { length self.old.steps < self.old.limit }
        ensures ok { OnOk result (GainsStep (axiom_step name.now clause.now imported) self.old.sides
            self.old self.new) }
        ensures err { OnErr result (self.new ≡ self.old) }
    {
        let literals = copy_clause(alloc, clause)?;
        let source = Justification::Axiom(name.copy(alloc)?);
        self.push_step(CoreStep::new(literals, source, imported, false))
    }

    /// Takes a clause that follows by hints. After `Memory` the log is as before.
    pub fn take_derived(
        &mut self,
        alloc: Global,
        clause: &[AtomLit],
        hints: &[StepId],
        imported: Option<EntryName>,
        closing: bool,
    ) -> Result<(), Memory>
        requires { length self.old.steps < self.old.limit }
        ensures ok { OnOk result (GainsStep (derived_step clause.now hints.now imported closing) self.old.sides
            self.old self.new) }
        ensures err { OnErr result (self.new ≡ self.old) }
    {
        let literals = copy_clause(alloc, clause)?;
        let source = Justification::Hints(Items::from_vec(Vec::from_slice(alloc, hints)?));
        self.push_step(CoreStep::new(literals, source, imported, closing))
    }

    /// Takes a side clause with its step. After `Memory`, which also says that there are too many, the log is as before.
    pub fn take_side(
        &mut self,
        alloc: Global,
        literals: &[AtomLit],
        set: &NumSet,
    ) -> Result<(), Memory>
        requires room { length self.old.steps < self.old.limit }
        requires side { IsSide literals.now }
        requires other { HasSideLike self.old.sides literals.now → ⊥ }
        ensures ok { OnOk result (TakesSide literals.now set.now (guarded (length self.old.sides + 1) literals.now)
            self.old self.new) }
        ensures err { OnErr result (self.new ≡ self.old) }
    {
        let number = next_number(self.sides().len())?;
        let clause = guarded_by(alloc, number, literals)?;
        let side = CoreSide::new(copy_clause(alloc, literals)?, set.copy(alloc)?);
        let step = CoreStep::new(clause, Justification::Side(number), None, false);
        self.push_side(side, step)
    }
}

/// The number of an item behind so many.
fn next_number(count: usize) -> Result<u32, Memory>
    ensures { IfOk result (λ number. number ≡ count + 1) }
{
    if count >= u32::MAX as usize {
        return Err(Memory);
    }
    Ok(count as u32 + 1)
}

/// The clause of a side clause's step.
fn guarded_by(alloc: Global, number: u32, side: &[AtomLit]) -> Result<Items<AtomLit>, Memory>
    ensures { IfOk result (λ clause. clause ≡ guarded number side.now) }
{
    let mut clause = Vec::with_capacity(alloc, 1)?;
    clause.push(opposite(AskId::new(number).goal()))?;
    clause.extend_from_slice(side)?;
    Ok(Items::from_vec(clause))
}

/// Whether the literals of a side clause are these.
fn is_like(side: &CoreSide, literals: &[AtomLit]) -> bool
    ensures { IsTrue result ↔ IsSideLike side.now literals.now }
{
    is_same_clause(side.literals(), literals)
}

/// Whether those of some side clause are.
pub fn has_side_like(sides: &[CoreSide], literals: &[AtomLit]) -> bool
    ensures { IsTrue result ↔ HasSideLike sides.now literals.now }
{
    sides.iter().any(|side| is_like(side, literals))
}
