//! The law of what is unfounded. Its function does nothing; its contract is the law.

ghost use Rattle.std.specs.Prelude.{ℕ, List, Contains};
ghost use Rattle.semantics.specs.AbaFrameworks.{Aba, IsAtom, IsNumberedAba};
ghost use Rattle.aba_notions.specs.Unfounded.{IsUnfoundedOf};
ghost use Rattle.aba_notions.specs.declared.unfounded.Unfounded.{Unfounded as AnUnfounded};
ghost use Rattle.meaning_atoms.specs.AbaAxioms.{IsLoop};
ghost use Rattle.loop_clauses.specs.LoopNames.{loop_rows};

/// What is claimed among a framework's atoms and does not follow from a base has the rows of a loop, to which each of its
/// atoms belongs. So a loop clause may be made of it.
pub fn unfounded_is_loop()
    ensures { (f : Aba) (base claimed : List ℕ) (found : AnUnfounded) (x : ℕ) → IsNumberedAba f
        → ((y : ℕ) → Contains claimed y → IsAtom f.atoms y) → IsUnfoundedOf f (Contains base) claimed found
        → Contains found.atoms x → IsLoop x (loop_rows found.rows) }
{}
