//! The laws of assumption-based frameworks, and of abstract ones as frameworks with collective attacks. Each function
//! does nothing; its contract is the law.

ghost use Rattle.std.specs.Prelude.{List};
ghost use Rattle.semantics.specs.AbaFrameworks.{Aba, collective_of};
ghost use Rattle.semantics.specs.Rules.{Rule};
ghost use Rattle.semantics.specs.Framework.{Af, IsAf};
ghost use Rattle.semantics.specs.Frameworks.{Framework};
ghost use Rattle.aba_laws.specs.AfNotions.{NotionsAgree, collective_for};
ghost use Rattle.aba_laws.specs.Laws.{AdmissibleBySets, AdmissibleIsInPreferred, ClosureExists, ClosureIsLeast, DefendedIsAdmissible, DefendsByRest};
ghost use Rattle.aba_laws.specs.Laws.{DerivedIsDeduced, GroundedIsUnique, IdealByOthers, IdealIsUnique, InAllIsUnattacked, PreferredIsComplete, StableIsPreferred, UnionIsAdmissible};

/// What a set derives can be listed.
pub fn closure_exists()
    ensures { (rules : List Rule) → ClosureExists rules }
{}

/// What a set derives is the least set that holds it and is closed under the rules.
pub fn closure_is_least()
    ensures { (rules : List Rule) → ClosureIsLeast rules }
{}

/// What a set derives are its members and the heads of the last rules of deductions from it.
pub fn derived_is_deduced()
    ensures { (rules : List Rule) → DerivedIsDeduced rules }
{}

/// A set of assumptions is admissible where it does not attack itself and attacks each set that attacks it.
pub fn admissible_by_sets()
    ensures { (f : Aba) → AdmissibleBySets (collective_of f) }
{}

/// A set defends an assumption where the assumptions that it does not attack do not attack it together.
pub fn defends_by_rest()
    ensures { (f : Aba) → DefendsByRest (collective_of f) }
{}

/// Assumptions that an admissible set defends make an admissible set with it.
pub fn defended_is_admissible()
    ensures { (f : Aba) → DefendedIsAdmissible (collective_of f) }
{}

/// Two admissible sets that do not attack each other make an admissible set together.
pub fn union_is_admissible()
    ensures { (f : Aba) → UnionIsAdmissible (collective_of f) }
{}

/// A framework has one grounded set alone, which is admissible and lies in every complete set.
pub fn grounded_is_unique()
    ensures { (f : Aba) → GroundedIsUnique (collective_of f) }
{}

/// A stable set is preferred.
pub fn stable_is_preferred()
    ensures { (f : Aba) → StableIsPreferred (collective_of f) }
{}

/// A preferred set is complete.
pub fn preferred_is_complete()
    ensures { (f : Aba) → PreferredIsComplete (collective_of f) }
{}

/// An admissible set is part of a preferred one, which may be the set itself.
pub fn admissible_is_in_preferred()
    ensures { (f : Aba) → AdmissibleIsInPreferred (collective_of f) }
{}

/// An admissible set is part of every preferred set exactly where no admissible set attacks it, in frameworks of both
/// kinds.
pub fn in_all_is_unattacked()
    ensures { (f : Framework) → InAllIsUnattacked (collective_for f) }
{}

/// An admissible set that no admissible set attacks is ideal where it has all of each larger admissible set that none of
/// some admissible sets attacks, in frameworks of both kinds.
pub fn ideal_by_others()
    ensures { (f : Framework) → IdealByOthers (collective_for f) }
{}

/// A framework has one ideal set alone, and it is admissible.
pub fn ideal_is_unique()
    ensures { (f : Aba) → IdealIsUnique (collective_of f) }
{}

/// Each notion of a well-formed abstract framework is that of collective attacks, in which a set attacks what a member
/// attacks.
pub fn notions_agree()
    ensures { (f : Af) → IsAf f → NotionsAgree f }
{}
