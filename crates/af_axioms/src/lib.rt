//! The clauses that are true of every abstract framework and every set of numbers, by their names, and the
//! values of the atoms that a framework alone fixes.
#![tactic(auto)]

mod clause;
mod fact;
pub mod laws;

pub use clause::clause_of;
pub use fact::fact_value;
