//! Answers.

use lists::Items;
use set_lists::NumSet;

/// The answer to a query.
#[derive(Drop)]
pub enum Answer {
    /// `YES`, and a set that shows it where there is one.
    Yes(Option<NumSet>),
    /// `NO`, and a set that shows it where there is one.
    No(Option<NumSet>),
    /// Extensions, in order.
    Sets(Items<NumSet>),
}
