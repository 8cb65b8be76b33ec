//! The check of a certificate: accepted exactly where it shows its answer, or else the first failure.
#![tactic(auto)]

mod closed;
pub mod refuting;
mod steps;
mod taken;
mod verdict;
mod witness;

pub use refuting::{Flaw, check_refutations};
pub use verdict::check;
