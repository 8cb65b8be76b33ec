//! The meaning of argumentation frameworks, over plain lists, and the laws that show it right; a slow program
//! that decides each notion from its words.
#![tactic(auto)]

pub mod af_lists;
pub mod argument;
pub mod deciding;
pub mod laws;
pub mod limits;
pub mod mode;
pub mod numbers;
pub mod sets;

pub use af_lists::AfLists;
pub use argument::{MAX_ARGUMENT, is_argument};
pub use deciding::{Notion, decide};
pub use limits::MAX_EXTENSIONS;
pub use mode::Mode;
pub use numbers::{MAX_ATOM, MAX_RULE};
