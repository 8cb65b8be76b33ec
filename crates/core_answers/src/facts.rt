//! What a framework says of literals and of axioms' names.

ghost use Rattle.std.specs.Prelude.{◌≡◌, ◌↔◌, not, Contains, IfNone, IfSome, IsTrue};
ghost use Rattle.meaning_atoms.specs.declared.atom.AtomLit.{AtomLit as ALit};
ghost use Rattle.meaning_atoms.specs.Worlds.{IsFact};
ghost use Rattle.af_axioms.specs.Facts.{IsFactValue};
ghost use Rattle.certificate_claims.specs.Refutations.{IsAxiomOf};
ghost use Rattle.edit_rules.specs.Kinds.{framework_of};
ghost use Rattle.core_answers.specs.Parts.{IsFalseIfFact};

use aba_facts::fact as aba_fact;
use af_axioms::fact_value;
use edit_rules::Framework;
use meaning_atoms::{Atom, AtomLit, AxiomName};

/// Whether an atom is true, where the framework alone fixes it.
fn fact(framework: &Framework, atom: &Atom) -> Option<bool>
    ensures some { IfSome result (IsFactValue (framework_of framework.now) atom.now) }
    ensures none { IfNone result (¬ IsFact (framework_of framework.now) atom.now) }
{
    match framework {
        Framework::Af(plain) => fact_value(plain, atom),
        Framework::Aba(plain) => aba_fact(plain, atom),
    }
}

/// Whether the framework alone makes a literal false.
pub(crate) fn is_false_fact(framework: &Framework, literal: &AtomLit) -> bool
    ensures { IsTrue result ↔ IsFactValue (framework_of framework.now) literal.now.atom (not literal.now.positive) }
{
    match fact(framework, &literal.atom) {
        Some(true) => !literal.positive,
        Some(false) => literal.positive,
        None => false,
    }
}

/// Whether a literal is false, if it speaks of a fact.
fn is_false_if_fact(framework: &Framework, literal: &AtomLit) -> bool
    ensures { IsTrue result ↔ IsFalseIfFact (framework_of framework.now) literal.now }
{
    match fact(framework, &literal.atom) {
        Some(true) => !literal.positive,
        Some(false) => literal.positive,
        None => true,
    }
}

/// Whether the literals of a clause that speak of facts are false in the framework.
pub(crate) fn facts_are_false(framework: &Framework, clause: &[AtomLit]) -> bool
    ensures { IsTrue result ↔ ((l : ALit) → Contains clause.now l → IsFalseIfFact (framework_of framework.now) l) }
{
    clause
        .iter()
        .all(|literal| is_false_if_fact(framework, literal))
}

/// Whether an axiom is one of the framework's kind, with arguments that fit its row.
pub(crate) fn is_axiom_of(framework: &Framework, name: &AxiomName) -> bool
    ensures { IsTrue result ↔ IsAxiomOf (framework_of framework.now) name.now }
{
    match (framework, name) {
        (Framework::Af(_), AxiomName::Af(name)) => name.is_name(),
        (Framework::Aba(_), AxiomName::Aba(name)) => name.is_name(),
        (Framework::Af(_), AxiomName::Aba(_)) | (Framework::Aba(_), AxiomName::Af(_)) => false,
    }
}
