//! Groups of edits, which a framework takes whole or not at all.
#![tactic(auto)]

pub mod attack_changes;
pub mod copies;
mod in_copy;
mod in_place;
mod pair_lists;
pub mod taking;

pub use copies::copy_effects;
pub use taking::{Effects, GroupFault, apply_group};
