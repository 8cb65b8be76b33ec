//! Entries of other sessions that come into the log of a solver.
#![tactic(auto)]

mod name_digest;
pub mod names;
mod once;
pub mod taking;

pub use names::StepNames;
pub use once::add_axiom_once;
pub use taking::import_entry;
