//! Learning from conflicts: a clause up to the first unique implication point, with the hints that show it.
#![tactic(auto)]

mod analysis;
mod learner;
mod walk;
mod workspace;

pub use learner::{Core, Learned, Learner};
