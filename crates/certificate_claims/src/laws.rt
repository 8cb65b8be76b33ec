//! Each function does nothing; its contract is the law.

ghost use Rattle.certificate_claims.specs.Laws.{AcceptedIsRight, AcceptedIsVerdict, HitsAreAttacks, OneVerdict, RefutationsExclude, RightAnswersAgree, ShownIsRight};

/// The test of what a set attacks, by which claims are made, is that of the framework's attacks.
pub fn hits_are_attacks()
    ensures { HitsAreAttacks }
{}

/// Where a refutation of a claim stands, no set of the framework meets the claim's goals and its side clauses.
pub fn refutations_exclude()
    ensures { RefutationsExclude }
{}

/// An answer whose direct tests pass, and whose claims no set of the framework meets, is right.
pub fn shown_is_right()
    ensures { ShownIsRight }
{}

/// An answer with an accepted certificate is right, for every framework of numbers up to the largest of their kind.
pub fn accepted_is_right()
    ensures { AcceptedIsRight }
{}

/// Two right answers to one query on one framework agree: in YES and NO, and in the sets that they show where the query
/// leaves no choice of them.
pub fn right_answers_agree()
    ensures { RightAnswersAgree }
{}

/// There is one verdict on a certificate at most.
pub fn one_verdict()
    ensures { OneVerdict }
{}

/// The verdict is `Accepted` exactly where the certificate is accepted.
pub fn accepted_is_verdict()
    ensures { AcceptedIsVerdict }
{}
