//! Flat assumption-based frameworks as clauses for a search: models of the axioms that a framework needs, the set of
//! assumptions that they are read as, and the loop clause that a model lacks which derives atoms only from one another.
#![tactic(auto)]

mod changing;
mod contrary_changes;
mod decoding;
mod encoding;
pub mod laws;
mod loops;
pub mod needed_axioms;
mod places;

pub use changing::changed;
pub use decoding::decode;
pub use encoding::AbaEncoding;
pub use loops::missing;
pub use needed_axioms::needed;
