//! What an answer has to show: its row in the table of certificates, and the claims of a row, whose goals are looked up
//! and whose side clauses are made where they are named.
#![tactic(auto)]

pub mod claim;
mod claims;
mod hits;
mod kinds;
mod rows;
pub mod sides;

pub use claim::{Claim, is_goal};
pub use claims::claims_of;
pub use kinds::range_of;
pub use rows::{opposite, row, shown_sets};
pub use sides::{SideKind, side_clause};
