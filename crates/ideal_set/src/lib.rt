//! The ideal set by an oracle: the largest admissible set that no admissible set attacks. Beside it, the largest
//! admissible part of a set, which oracles find by their kind of framework.
#![tactic(auto)]

mod assumptions;
mod attackers;
mod free;
mod part;
mod searching;

pub use assumptions::largest_part_of_assumptions;
pub use part::largest_part;
pub use searching::{IdealSet, ideal};
