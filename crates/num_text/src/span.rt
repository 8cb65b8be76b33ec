//! Where a piece of text stands in its source.

/// The positions from `start` up to, but not including, `end`.
#[derive(Clone, Copy)]
pub struct Span {
    /// The index of the first byte.
    pub start: usize,
    /// The index after the last byte.
    pub end: usize,
}
