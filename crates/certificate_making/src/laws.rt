//! The laws that make a log worth keeping. Each function does nothing; its contract is the law.

ghost use Rattle.certificate_making.specs.Accepted.{ShownIsAccepted};
ghost use Rattle.certificate_making.specs.Refuted.{TrimmedFits, TrimmedRefutes};

/// What a refuting step reaches, numbered anew and with the claim's numbers of side clauses, is a refutation.
pub fn trimmed_steps_refute()
    ensures { TrimmedRefutes }
{}

/// A text can hold it where the numbers have 32 bits.
pub fn trimmed_steps_fit()
    ensures { TrimmedFits }
{}

/// An answer that a guarded log shows has an accepted certificate.
pub fn shown_answers_are_accepted()
    ensures { ShownIsAccepted }
{}
