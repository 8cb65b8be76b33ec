//! The clauses of a refutation's steps, over numbered variables, and the check of one more by its hints.
#![tactic(auto)]

mod bench;

pub use bench::Bench;
