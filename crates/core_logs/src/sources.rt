//! Where the steps of a log come from.

ghost use Rattle.std.specs.Prelude.{◌≡◌, ◌↔◌, IfOk, IsTrue};
ghost use Rattle.oracle_face.specs.Logs.{is_loop};
ghost use Rattle.core_logs.specs.Tests.{HasAxiom, HasEntry, IsClauseOf, IsFromEntry, IsOfAxiom};

use crate::equality::{axioms_are_equal, names_are_equal};
use crate::literals::is_same_clause;
use crate::steps::{CoreStep, Justification};
use certificate_claims::clause_of_axiom;
use lists::Memory;
use meaning_atoms::{AbaAxiom, AtomLit, AxiomName};
use oracle_face::EntryName;
use std::alloc::Global;

/// Whether a step is the axiom's.
pub fn is_of_axiom(step: &CoreStep, name: &AxiomName) -> bool
    ensures { IsTrue result ↔ IsOfAxiom step.now name.now }
{
    match step.source() {
        Justification::Axiom(other) => axioms_are_equal(other, name),
        Justification::Side(_) | Justification::Hints(_) => false,
    }
}

/// Whether some step is.
pub fn has_axiom(steps: &[CoreStep], name: &AxiomName) -> bool
    ensures { IsTrue result ↔ HasAxiom steps.now name.now }
{
    steps.iter().any(|step| is_of_axiom(step, name))
}

/// Whether a step was taken from the entry.
pub fn is_from_entry(step: &CoreStep, name: EntryName) -> bool
    ensures { IsTrue result ↔ IsFromEntry step.now name }
{
    match step.imported() {
        Some(other) => names_are_equal(other, name),
        None => false,
    }
}

/// Whether some step was.
pub fn has_entry(steps: &[CoreStep], name: EntryName) -> bool
    ensures { IsTrue result ↔ HasEntry steps.now name }
{
    steps.iter().any(|step| is_from_entry(step, name))
}

/// Whether an axiom is a loop clause.
pub fn is_loop_clause(name: &AxiomName) -> bool
    ensures { result ≡ is_loop name.now }
{
    matches!(name, AxiomName::Aba(AbaAxiom::B17 { .. }))
}

/// Whether a clause has the literals of an axiom's.
pub fn is_clause_of(alloc: Global, name: &AxiomName, clause: &[AtomLit]) -> Result<bool, Memory>
    ensures { IfOk result (λ is. IsTrue is ↔ IsClauseOf name.now clause.now) }
{
    if !name.is_name() {
        return Ok(false);
    }
    let literals = clause_of_axiom(alloc, name)?;
    Ok(is_same_clause(clause, literals.as_slice()))
}
