//! The law of the axioms. It does nothing; its contract is the law.

ghost use Rattle.meaning_atoms.specs.declared.aba_axiom.AbaAxiom.{AbaAxiom};
ghost use Rattle.meaning_atoms.specs.AbaAxioms.{IsAbaAxiom};
ghost use Rattle.meaning_atoms.specs.Worlds.{IsValid};
ghost use Rattle.aba_axioms.specs.AbaTable.{aba_clause};

/// Each axiom of the table is true in every world, whatever the side clauses: of assumption-based frameworks, and, by the
/// fixed choice of what their atoms say there, of abstract ones. The loop clause is among them.
pub fn axioms_are_valid()
    ensures { (name : AbaAxiom) → IsAbaAxiom name → IsValid (aba_clause name) }
{}
