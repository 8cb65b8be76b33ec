//! The notions of flat assumption-based frameworks over one framework that is held in memory: what a set of atoms
//! derives, found in linear time, which assumptions it attacks and defends, and the grounded set.
#![tactic(auto)]

mod aba_plain;
mod closing;
mod grounded;
mod notions;
mod rule_table;
mod unfounded;

pub use aba_plain::AbaPlain;
pub use rule_table::RuleLists;
pub use unfounded::{Row, Unfounded};
