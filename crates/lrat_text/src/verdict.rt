//! What the check of a refutation tells.

/// What the check of a refutation tells.
#[derive(Clone, Copy, Debug, PartialEq, Eq)]
pub enum Verdict {
    /// A line has no literals, and it and all before it pass the hint check.
    Verified,
    /// The first line that fails the hint check has this id, and no line without literals stands before it.
    RejectedStep(u32),
    /// All lines pass, and each has a literal.
    NoEmptyClause,
}
