//! Certificates made from a log: the refutations of an answer's claims by steps of the log.
#![tactic(auto)]

pub mod laws;
mod making;
pub mod positions;
mod reached;
pub mod read_log;
pub mod refute;
mod renumbering;

pub use making::certificate_for;
pub use positions::positions_of;
pub use read_log::ReadLog;
pub use refute::refutation;
