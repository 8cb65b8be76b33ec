//! The variables of atoms: atoms and the numbers 0, 1, 2 and so on, one to one.
#![tactic(auto)]

pub mod table;

pub use table::AtomTable;
