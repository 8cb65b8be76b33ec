//! The atoms whose value an assumption-based framework alone fixes.
#![tactic(auto)]

mod cuts;
mod facts;
mod rule_parts;

pub use facts::fact;
