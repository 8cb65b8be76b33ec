//! The axioms of assumption-based frameworks: clauses that are true of every framework and every set, of either kind;
//! and the atoms whose value such a framework alone fixes.
#![tactic(auto)]

mod clause;
pub mod laws;
mod loop_clause;

pub use clause::clause_of;
