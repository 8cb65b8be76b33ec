//! The atoms of which clauses about frameworks are made, what these say, their texts, and the names of the
//! clauses that always hold.
#![tactic(auto)]

pub mod aba_axiom;
pub mod atom;
pub mod axiom;
pub mod axiom_text;
mod clause;
pub mod laws;
pub mod loop_rows;
mod loop_text;
pub mod text;

pub use aba_axiom::AbaAxiom;
pub use atom::{Atom, AtomLit, Closure, END, is_atom_or_none, is_position};
pub use axiom::{AfAxiom, AxiomName};
pub use axiom_text::{axiom_of, push_axiom, write_axiom};
pub use clause::{list, no, yes};
pub use loop_rows::LoopRow;
pub use text::{atom_text, push_lit, read_lit};
