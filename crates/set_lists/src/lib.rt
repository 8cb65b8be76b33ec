//! Sets of numbers, which contracts see as rising lists.
#![tactic(auto)]

mod merge;
pub mod num_set;

pub use num_set::NumSet;
