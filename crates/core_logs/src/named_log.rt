//! A session's log, in which each axiom's name fits its row.

ghost use Rattle.std.specs.Prelude.{◌≡◌, ◌↔◌, ◌<◌, ◌+◌, [], length, IsTrue, OnErr, OnOk};
ghost use Rattle.meaning_atoms.specs.AxiomNames.{IsAxiomName};
ghost use Rattle.oracle_face.specs.Goals.{IsSide};
ghost use Rattle.oracle_face.specs.Logs.{guarded};
ghost use Rattle.session_log.specs.Steps.{GainsStep, TakesSide, axiom_step, derived_step};
ghost use Rattle.core_logs.specs.Tests.{AreNamed, HasSideLike};

use crate::log::CoreLog;
use crate::steps::{CoreSide, CoreStep};
use lists::Memory;
use meaning_atoms::{AtomLit, AxiomName};
use oracle_face::EntryName;
use plain_lits::StepId;
use set_lists::NumSet;
use std::alloc::Global;
use std::marker::Model;

/// A log whose axioms are axioms.
#[derive(Drop)]
pub struct NamedLog {
    log: CoreLog,
}

impl Model for NamedLog {
    ghost use Rattle.oracle_face.specs.Logs.{OracleLog};
    ghost use Rattle.core_logs.specs.Tests.{AreNamed};

    ghost Value = { OracleLog };

    ghost view = { λ l. l.log };

    ghost invariant = { λ l. AreNamed l.log.steps };
}

impl NamedLog {
    /// A log without steps, which takes no memory.
    pub fn new(alloc: Global, limit: u64) -> NamedLog
        ensures { result ≡ record { limit = limit; steps = []; sides = [] } }
    {
        NamedLog {
            log: CoreLog::new(alloc, limit),
        }
    }

    /// The log.
    pub fn log(&self) -> &CoreLog
        ensures log { result.now ≡ self.now }
        ensures named { AreNamed self.now.steps }
    {
        &self.log
    }

    /// Whether one step more may come.
    pub fn has_room(&self) -> bool
        ensures { IsTrue result ↔ (length self.now.steps < self.now.limit) }
    {
        self.log.has_room()
    }

    /// The steps.
    pub fn steps(&self) -> &[CoreStep]
        ensures { result.now ≡ self.now.steps }
    {
        self.log.steps()
    }

    /// The side clauses.
    pub fn sides(&self) -> &[CoreSide]
        ensures { result.now ≡ self.now.sides }
    {
        self.log.sides()
    }

    /// Takes an axiom with this clause, from an entry or by oneself. After `Memory` the log is as before.
    pub fn take_axiom(
        &mut self,
        alloc: Global,
        name: &AxiomName,
        clause: &[AtomLit],
        imported: Option<EntryName>,
    ) -> Result<(), Memory>
        requires room { length self.old.steps < self.old.limit }
        requires name { IsAxiomName name.now }
        ensures ok { OnOk result (GainsStep (axiom_step name.now clause.now imported) self.old.sides
            self.old self.new) }
        ensures err { OnErr result (self.new ≡ self.old) }
    {
        self.log.take_axiom(alloc, name, clause, imported)
    }

    /// Takes a clause that follows by hints. After `Memory` the log is as before.
    pub fn take_derived(
        &mut self,
        alloc: Global,
        clause: &[AtomLit],
        hints: &[StepId],
        imported: Option<EntryName>,
        closing: bool,
    ) -> Result<(), Memory>
        requires { length self.old.steps < self.old.limit }
        ensures ok { OnOk result (GainsStep (derived_step clause.now hints.now imported closing) self.old.sides
            self.old self.new) }
        ensures err { OnErr result (self.new ≡ self.old) }
    {
        self.log
            .take_derived(alloc, clause, hints, imported, closing)
    }

    /// Takes a side clause with its step. After `Memory`, which also says that there are too many, the log is as before.
    pub fn take_side(
        &mut self,
        alloc: Global,
        literals: &[AtomLit],
        set: &NumSet,
    ) -> Result<(), Memory>
        requires room { length self.old.steps < self.old.limit }
        requires side { IsSide literals.now }
        requires other { HasSideLike self.old.sides literals.now → ⊥ }
        ensures ok { OnOk result (TakesSide literals.now set.now (guarded (length self.old.sides + 1) literals.now)
            self.old self.new) }
        ensures err { OnErr result (self.new ≡ self.old) }
    {
        self.log.take_side(alloc, literals, set)
    }
}
