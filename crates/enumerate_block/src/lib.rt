//! All sets of a mode, all preferred sets and all sets of a mode with widest ranges by an oracle, in the order of their
//! lists, with the steps that refute the claims of their certificate; and whether some set with a widest range, or each
//! of them, accepts an argument.
#![tactic(auto)]

mod deciding;
mod extensions;
mod marks;
mod ordered;
mod preferred;
mod ranges;
mod with_mode;

pub use deciding::{Deciding, decide};
pub use extensions::{Extensions, all};
pub use ordered::insert_in_order;
pub use preferred::all_preferred;
pub use ranges::{Ranged, all_widest};
pub use with_mode::{Listed, all_with_mode, all_with_range};
