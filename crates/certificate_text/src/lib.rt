//! The text of a certificate, read and written.
//!
//! Its lines are `cert 1`, a line `w NUMBERS` for each set, for each refutation a line `r` and one for each step, and
//! `end`. A step is `a NAME ARGUMENTS`, `s N` or `d LITERALS 0 HINTS`. Space, tab and CR are blanks between fields. A line
//! without fields, or whose first field begins with `#`, is skipped; lines are numbered from 1, skipped ones included.
#![tactic(auto)]

mod draft;
mod fault;
mod laws;
mod read;
mod step;
mod word;
mod write;

pub use fault::{CertCause, CertFault};
pub use laws::{one_reading, reading_is_exact};
pub use read::read_certificate;
pub use write::write_certificate;
