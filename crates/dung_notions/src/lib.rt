//! The notions of abstract argumentation over one framework that is held in memory: its attacks from
//! either end, and its grounded set, found in linear time.
#![tactic(auto)]

mod af_plain;
mod changes;
mod grounded;
mod notions;
mod range;
mod written_out;

pub use af_plain::AfPlain;
pub use grounded::Grounded;
