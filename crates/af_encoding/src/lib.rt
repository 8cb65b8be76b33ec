//! Abstract frameworks as clauses for a search: the axioms that it needs of a framework and those that an edit calls
//! for, the values of the atoms that
//! the framework alone fixes, and the set of arguments that a model of these axioms is read as.
#![tactic(auto)]

mod affirming;
mod changing;
mod decoding;
mod encoding;
mod facts;
pub mod laws;
mod needed_axioms;
mod neighbourhood;

pub use affirming::{NumberAtom, affirmed_numbers};
pub use changing::changed;
pub use decoding::decode;
pub use encoding::AfEncoding;
pub use facts::fact;
pub use needed_axioms::needed;
