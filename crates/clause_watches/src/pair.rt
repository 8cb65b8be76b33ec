//! The two literals that a clause watches.

use plain_lits::PackedLit;

/// The watched literals of a clause. Two that are the same say that the clause watches nothing.
#[derive(Clone, Copy)]
pub struct Pair {
    pub first: PackedLit,
    pub second: PackedLit,
}
