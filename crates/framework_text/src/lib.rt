//! The text of a framework of either kind, read by what its first line says.
#![tactic(auto)]

mod laws;
mod read;

pub use laws::one_reading;
pub use read::read_framework;
