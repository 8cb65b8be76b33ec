//! The clauses of axioms of either kind.

ghost use Rattle.std.specs.Prelude.{◌≡◌, All, IfOk};
ghost use Rattle.aba_axioms.specs.meaning_atoms.specs.Atoms.{IsLit};
ghost use Rattle.aba_axioms.specs.meaning_atoms.specs.AxiomNames.{IsAxiomName};
ghost use Rattle.aba_axioms.specs.meaning_atoms.specs.Worlds.{IsAsk, IsValid};
ghost use Rattle.certificate_claims.specs.Refutations.{axiom_clause};

use aba_axioms::clause_of as aba_clause_of;
use af_axioms::clause_of as af_clause_of;
use lists::{Items, Memory};
use meaning_atoms::{AtomLit, AxiomName};
use std::alloc::Global;

/// The clause of an axiom, with its literals in the order of its kind's table. A clause says that one of its literals
/// is true. `Memory` says that an allocation was refused.
pub fn clause_of_axiom(alloc: Global, name: &AxiomName) -> Result<Items<AtomLit>, Memory>
    requires { IsAxiomName name.now }
    ensures table { IfOk result (λ clause. clause ≡ axiom_clause name.now) }
    ensures valid { IfOk result IsValid }
    ensures bounds { IfOk result (All IsLit) }
    ensures no_ask { IfOk result (All (λ literal. ¬ IsAsk literal.atom)) }
{
    match name {
        AxiomName::Af(name) => af_clause_of(alloc, name),
        AxiomName::Aba(name) => aba_clause_of(alloc, name),
    }
}
