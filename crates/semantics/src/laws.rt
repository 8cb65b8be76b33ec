//! The laws that show the notions of frameworks to be the literature's. Each function does nothing; its contract
//! is the law.

ghost use Rattle.semantics.specs.Framework.{Af, IsAf};
ghost use Rattle.semantics.specs.Laws.{GroundedIsUnique, StableIsLargest, PreferredIsComplete, SemiStableIsPreferred, AdmissibleIsInPreferred, WidestExists, UnionIsAdmissible, UnattackedIsInAll, IdealIsUnique};

/// A framework has one grounded set alone, which is admissible and lies in every complete set.
pub fn grounded_is_unique()
    ensures { (f : Af) → GroundedIsUnique f }
{}

/// A stable set of a well-formed framework is preferred, semi-stable and a stage set.
pub fn stable_is_largest()
    ensures { (f : Af) → IsAf f → StableIsLargest f }
{}

/// A preferred set is complete.
pub fn preferred_is_complete()
    ensures { (f : Af) → PreferredIsComplete f }
{}

/// A semi-stable set is preferred and complete.
pub fn semi_stable_is_preferred()
    ensures { (f : Af) → SemiStableIsPreferred f }
{}

/// An admissible set is part of a preferred one, which may be the set itself.
pub fn admissible_is_in_preferred()
    ensures { (f : Af) → AdmissibleIsInPreferred f }
{}

/// The range of a conflict-free or admissible set lies in that of a widest one, which may be the set itself.
pub fn widest_exists()
    ensures { (f : Af) → WidestExists f }
{}

/// Two admissible sets that do not attack each other make an admissible set together.
pub fn union_is_admissible()
    ensures { (f : Af) → UnionIsAdmissible f }
{}

/// An admissible set that no admissible set attacks is part of every preferred set.
pub fn unattacked_is_in_all_preferred()
    ensures { (f : Af) → UnattackedIsInAll f }
{}

/// A framework has one ideal set alone, and it is admissible.
pub fn ideal_is_unique()
    ensures { (f : Af) → IdealIsUnique f }
{}
