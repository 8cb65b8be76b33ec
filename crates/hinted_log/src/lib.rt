//! A log of clauses: axioms, sides, and clauses that follow from earlier ones by a check of hints.
#![tactic(auto)]

mod clause_rows;
pub mod fault;
pub mod laws;
pub mod log;
pub mod step_kind;
mod store;
mod trim;

pub use fault::LogFault;
pub use log::{Log, MAX_STEPS};
pub use step_kind::StepKind;
