//! A solver for clauses under assumptions, which learns from conflicts and keeps a log of what it learns.
#![tactic(auto)]

pub mod answer;
mod cdcl;
mod decision_loop;
mod fronts;
mod logged_clauses;
mod solver;

pub use answer::{Added, Solved, UnaddedClause};
pub use solver::Solver;
