//! A kept solver for one framework of either kind: the axioms that it needs, searches whose models are read as sets,
//! entries that come in, and edits that it follows.
#![tactic(auto)]

pub mod kinds;
mod reading;
pub mod solver;
pub mod updating;

pub use solver::FrameworkSolver;
pub use updating::UpdateStop;
