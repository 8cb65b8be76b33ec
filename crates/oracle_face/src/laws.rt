//! What follows from an oracle's answers. Each function does nothing; its contract is the law.

ghost use Rattle.oracle_face.specs.Laws.{ClaimExcluded, GoalsExcluded, RefutesClaim};

/// Where a step of a log refutes goals, no set of the framework makes them true.
pub fn refuted_goals_have_no_set()
    ensures { GoalsExcluded }
{}

/// Where a step of a log refutes a claim, no set of the framework meets it.
pub fn refuted_claims_are_excluded()
    ensures { ClaimExcluded }
{}

/// A step that refutes goals refutes the claim that they make up.
pub fn refuted_goals_refute_claims()
    ensures { RefutesClaim }
{}
