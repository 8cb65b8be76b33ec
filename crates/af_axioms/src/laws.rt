//! The law that shows the table of axioms right. Its function does nothing; its contract is the law.

ghost use Rattle.meaning_atoms.specs.declared.axiom.AfAxiom.{AfAxiom};
ghost use Rattle.meaning_atoms.specs.Axioms.{IsAfAxiom};
ghost use Rattle.meaning_atoms.specs.Worlds.{IsValid};
ghost use Rattle.af_axioms.specs.Table.{table_clause};

/// Each axiom is true of every framework and every set of numbers, whatever side clauses are asked beside it.
pub fn axioms_are_valid()
    ensures { (name : AfAxiom) → IsAfAxiom name → IsValid (table_clause name) }
{}
