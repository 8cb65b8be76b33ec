//! What a check tells of a certificate.

ghost use Rattle.std.specs.Prelude.{◌≡◌};
ghost use Rattle.certificate_claims.specs.Verdicts.{cause_name};

/// Why a certificate isn't accepted for an answer, in the order in which it is looked at.
#[derive(Clone, Copy, PartialEq, Eq)]
pub enum Cause {
    /// The answer has no shape that its task gives.
    AnswerShape,
    /// A direct test of a set of the answer fails, or of their order, or of the grounded set.
    BadWitness,
    /// The certificate has sets where it has to have none, or has none where there has to be one.
    SetCount,
    /// A direct test of a set of the certificate fails.
    BadSet,
    /// There are not as many refutations as claims.
    RefutationCount,
    /// A step of a refutation doesn't stand behind those before it.
    BadStep,
    /// A refutation has no step, or its last clause has a literal that isn't closed.
    OpenLiteral,
}

/// Whether a certificate is accepted for an answer.
#[derive(Clone, Copy, PartialEq, Eq)]
pub enum Verdict {
    /// It is.
    Accepted,
    /// It isn't. The first number is a refutation's, counted from 1, or 0; the second is that of a step of it or, where
    /// the first is 0, of a set, counted from 1, or 0.
    Rejected(Cause, usize, usize),
}

impl Cause {
    /// The name of the cause, as it is printed.
    pub fn name(self) -> &'static str
        ensures { result.now ≡ cause_name self }
    {
        match self {
            Cause::AnswerShape => "AnswerShape",
            Cause::BadWitness => "BadWitness",
            Cause::SetCount => "SetCount",
            Cause::BadSet => "BadSet",
            Cause::RefutationCount => "RefutationCount",
            Cause::BadStep => "BadStep",
            Cause::OpenLiteral => "OpenLiteral",
        }
    }
}
