//! How long a text may be.

/// The most bytes that a text may have where one is read.
pub const MAX_INPUT: u64 = 268_435_456;
