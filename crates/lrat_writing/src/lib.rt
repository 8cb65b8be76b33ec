//! Refutations as text, written: the log of a refutation as a CNF and as LRAT lines, which the reader and the check of
//! `lrat_text` verify.
#![tactic(auto)]

mod clauses;
mod fitting;
mod laws;
mod steps;
mod write;
mod writer;

pub use fitting::can_write;
pub use laws::{cnf_reads_back, log_is_verified, refutation_reads_back};
pub use write::write_refutation;
pub use writer::{Writer, Written};
