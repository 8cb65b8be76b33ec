//! Clauses that are taken from entries, and steps that may be handed to others.

ghost use Rattle.std.specs.Prelude.{◌≡◌, ◌↔◌, ◌<◌, Contains, IfOk, IsTrue, OnErr, length};
ghost use Rattle.std.specs.List.Sorted.{IsStrictlyIncreasing};
ghost use Rattle.meaning_atoms.specs.Literals.{AsksNothing};
ghost use Rattle.meaning_atoms.specs.Worlds.{IsAsk};
ghost use Rattle.oracle_face.specs.Logs.{IsNumberOf, step_at};
ghost use Rattle.plain_lits.specs.Checking.{HasRoomFor};
ghost use Rattle.atom_solver.specs.Imported.{IsImported, IsPlain};
ghost use Rattle.atom_solver.specs.Inner.{IsWhole, state_of};
ghost use Rattle.atom_solver.specs.Lifted.{atom_at, atoms_of};
ghost use Rattle.atom_solver.specs.Tables.{told};

use crate::parts::{SolverParts, fill};
use atom_table::AtomTable;
use hinted_log::LogFault;
use lists::{Items, Memory};
use meaning_atoms::{Atom, AtomLit};
use oracle_face::{EntryName, StepSource};
use plain_lits::{Clause, Lit, PackedLit, StepId};
use sat_core::Added;
use std::alloc::Global;

/// Whether a rising list of steps has a step.
fn has_step(steps: &[StepId], step: StepId) -> bool
    requires { IsStrictlyIncreasing steps.now }
    ensures { IsTrue result ↔ Contains steps.now step }
{
    steps.binary_search(&step).is_ok()
}

/// Whether a literal is about a side clause.
fn asks(table: &AtomTable, lit: Lit) -> bool
    requires { lit.var < length table.now }
    ensures { IsTrue result ↔ IsAsk (atom_at table.now lit.var) }
{
    matches!(table.atom_at(lit.var), Atom::Ask(_))
}

/// Whether no literal of a clause is about a side clause.
fn asks_nothing(table: &AtomTable, clause: &[PackedLit]) -> bool
    requires { HasRoomFor (length table.now) clause.now }
    ensures { IsTrue result ↔ AsksNothing (atoms_of table.now clause.now) }
{
    for packed in clause {
        if asks(table, packed.lit()) {
            return false;
        }
    }
    true
}

impl SolverParts {
    /// Adds a clause that steps show, as one that is taken from an entry.
    fn add_entry(
        &mut self,
        clause: Clause,
        hints: Items<StepId>,
        name: EntryName,
    ) -> Result<bool, Memory>
        requires whole { IsWhole self.old }
        requires room { HasRoomFor (length self.old.table) clause }
        ensures whole { IsWhole self.new }
        ensures imported { IfOk result (IsImported (atoms_of self.old.table clause) hints name (state_of self.old)
            (state_of self.new)) }
        ensures err { OnErr result (state_of self.new ≡ state_of self.old) }
    {
        let _different = self.table.len();
        let steps = self.solver.log().len();
        fill(&mut self.origins, steps)?;
        match self.solver.add(clause, Added::Derived(hints)) {
            Ok(_) => {
                let _ = self.origins.push(StepSource::Entry(name));
                Ok(true)
            }
            Err(LogFault::Memory) => Err(Memory),
            Err(LogFault::LogFull | LogFault::Rejected(_)) => Ok(false),
        }
    }

    /// Takes a clause from an entry, with the steps that show it.
    pub(crate) fn import(
        &mut self,
        alloc: Global,
        literals: &[AtomLit],
        hints: Items<StepId>,
        name: EntryName,
    ) -> Result<bool, Memory>
        requires whole { IsWhole self.old }
        ensures whole { IsWhole self.new }
        ensures imported { IfOk result (IsImported literals.now hints name (state_of self.old) (state_of self.new)) }
        ensures err { OnErr result (state_of self.new ≡ state_of self.old) }
    {
        let clause = self.stand_for(alloc, literals)?;
        self.add_entry(clause, hints, name)
    }

    /// Whether a step didn't only end a search, and asks for no side clause.
    pub(crate) fn is_plain(&self, step: StepId) -> bool
        requires whole { IsWhole self.now }
        requires step { IsNumberOf (state_of self.now).log.steps step }
        ensures { IsTrue result ↔ IsPlain (step_at (state_of self.now).log.steps step) }
    {
        has_step(self.solver.active(), step)
            && asks_nothing(&self.table, self.solver.log().clause(step))
    }
}
