//! A solver over atoms, which keeps a log of its steps as an oracle does.
#![tactic(auto)]

pub(crate) mod importing;
pub(crate) mod in_hand;
pub mod kept_side;
pub(crate) mod parts;
pub mod searched;
pub(crate) mod side_table;
pub mod solver;
pub(crate) mod tables;

pub use kept_side::KeptSide;
pub use searched::Searched;
pub use solver::AtomSolver;
