//! The text of an abstract framework, read and written: a header `p af n`, and a line `b a` for each
//! attack of b on a.
//!
//! Space, tab and CR are blanks between fields. A line without fields, or whose first field begins with
//! `#`, is skipped; lines are numbered from 1, skipped ones included.
#![tactic(auto)]

mod af_line;
mod fault;
mod header;
mod laws;
mod next_attack;
mod read;
mod write;

pub use af_line::MAX_ATTACK_LINES;
pub use fault::{LineCause, LineFault, ReadFault};
pub use header::read_header;
pub use laws::{one_reading, read_back, readable_or_faulty};
pub use read::read_af;
pub use write::write_af;
