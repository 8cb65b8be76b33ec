//! The numbers of atoms and of rules.

/// The largest number that an atom may have. The smallest is 1.
pub const MAX_ATOM: u32 = 1_000_000;

/// The largest number that a rule may have. The smallest is 1.
pub const MAX_RULE: u32 = 1_000_000;
