//! What a set has to be for its range to be compared.

/// What a set has to be for its range to be compared with others'.
#[derive(Clone, Copy, PartialEq, Eq)]
pub enum Mode {
    /// Conflict-free: the widest such sets are the stage sets.
    Cf,
    /// Admissible: the widest such sets are the semi-stable sets.
    Ad,
}
