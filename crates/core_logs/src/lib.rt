//! The log of a session of the core, and what may come into it: plain tests, each of which tells exactly what its
//! definition says.
#![tactic(auto)]

pub mod checking;
pub mod equality;
pub mod literals;
pub mod log;
pub mod named_log;
pub mod sources;
pub mod steps;
pub mod taking;

pub use log::CoreLog;
pub use named_log::NamedLog;
pub use steps::{CoreSide, CoreStep, Justification};
