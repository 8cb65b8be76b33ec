//! The text of a flat assumption-based framework, read and written: a header `p aba n`, a line `a x` for each
//! assumption, `c x y` for each contrary y of an assumption x, and `r h b1 .. bk` for each rule with its head and the
//! atoms of its body.
//!
//! Space, tab and CR are blanks between fields. A line without fields, or whose first field begins with
//! `#`, is skipped; lines are numbered from 1, skipped ones included.
#![tactic(auto)]

mod finish;
mod laws;
mod read;
mod said;
mod statement;
mod stop;
mod write;

pub use laws::{one_reading, read_back};
pub use read::read_aba;
pub use said::{MAX_CONTRARY_LINES, MAX_RULE_LINES};
pub use write::write_aba;
