//! Texts of lines, fields and numbers. Bytes are cut into lines and a line into fields without a copy:
//! each text is a part of the bytes that were given, and has its span beside it.
//!
//! A line ends at LF; a last piece that isn't empty is a line too. Space, tab and CR are blanks, and
//! fields are the longest pieces without blanks. A line without fields, or whose first field begins with
//! `#`, is one that readers skip. A number is one or more ASCII digits.
#![tactic(auto)]

pub mod count;
pub mod cuts;
pub mod field;
pub mod limit;
pub mod line;
pub mod number;
pub mod skips;
pub mod span;

pub use count::line_count;
pub use cuts::{fields, lines};
pub use field::{Field, Fields, NumberField};
pub use limit::MAX_INPUT;
pub use line::{Line, Lines};
pub use number::decimal;
pub use skips::{is_skipped, next_kept};
pub use span::Span;
