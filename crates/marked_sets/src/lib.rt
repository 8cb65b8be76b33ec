//! Tests of sets that cost what the sets touch, and not the size of the framework: by marks that are all taken back at
//! once.
#![tactic(auto)]

pub mod arguments;
mod marks;

pub use marks::Marks;
