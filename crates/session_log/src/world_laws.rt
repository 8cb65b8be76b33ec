//! The law that makes a log worth keeping. Its function does nothing; its contract is the law.

ghost use Rattle.std.specs.Prelude.{ℕ, List};
ghost use Rattle.hinted_log.specs.Logs.{Step};
ghost use Rattle.meaning_atoms.specs.declared.atom.Atom.{Atom};
ghost use Rattle.meaning_atoms.specs.declared.atom.AtomLit.{AtomLit};
ghost use Rattle.session_log.specs.WorldLogs.{IsLogOf, IsTrueOfWorlds};

/// Where a log's axioms are valid and its side steps are side clauses of a list, each of its clauses is true in
/// every world beside these side clauses, and valid where it asks for none. This holds whatever atoms the
/// variables stand for.
pub fn logs_are_true()
    ensures { (atom_of : ℕ → Atom) (sides : List (List AtomLit)) (steps : List Step) → IsLogOf atom_of sides steps
        → IsTrueOfWorlds atom_of sides steps }
{}
