//! Axioms that come into a log once.

ghost use Rattle.std.specs.Prelude.{◌≡◌, ℕ, Err, OnErr, OnOk, length};
ghost use Rattle.semantics.specs.Frameworks.{Framework};
ghost use Rattle.meaning_atoms.specs.AxiomNames.{IsAxiomName};
ghost use Rattle.certificate_claims.specs.Refutations.{IsAxiomOf};
ghost use Rattle.atom_solver.specs.States.{IsGuardedLog};
ghost use Rattle.entry_taking.specs.Names.{AreNamed};
ghost use Rattle.entry_taking.specs.Once.{ComesOnce};

use crate::names::StepNames;
use atom_solver::AtomSolver;
use meaning_atoms::AxiomName;
use plain_lits::Halt;
use std::alloc::Global;

/// Takes an axiom, unless a step of the log is that axiom already: then nothing changes. It spends nothing. `LogFull`
/// comes only at a full log. After every `Err` the log is as before.
pub fn add_axiom_once(
    alloc: Global,
    solver: &mut AtomSolver,
    names: &mut StepNames,
    name: &AxiomName,
) -> Result<(), Halt>
    requires named { AreNamed names.old solver.old.log.steps }
    requires name { IsAxiomName name.now }
    ensures named { AreNamed names.new solver.new.log.steps }
    ensures ok { OnOk result (ComesOnce name.now solver.old solver.new) }
    ensures full { result ≡ Err Halt.LogFull → length solver.old.log.steps ≡ solver.old.log.limit }
    ensures unspent { (count : ℕ) → result ≡ Err (Halt.Spent count) → ⊥ }
    ensures err { OnErr result (solver.new ≡ solver.old) }
    ensures log { (f : Framework) → IsAxiomOf f name.now → IsGuardedLog f solver.old.log
        → IsGuardedLog f solver.new.log }
{
    let _uses = solver.len();
    names.look(alloc, solver)?;
    let there = names.find_axiom(alloc, name)?;
    if there.is_some() {
        return Ok(());
    }
    let taken = name.copy(alloc)?;
    solver.take_axiom(alloc, taken)
}
