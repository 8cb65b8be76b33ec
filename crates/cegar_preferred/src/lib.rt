//! Preferred sets by an oracle: sets that lie in no larger admissible one, and whether all preferred sets accept a
//! query.
#![tactic(auto)]

mod accepting;
mod maximal;

pub use accepting::{Accepting, accept_all};
pub use maximal::{Maximal, maximal_from, oblige_outside};
