//! Frameworks whose arguments have names: the texts of the formats APX and TGF are read, and a framework with names is
//! written as a text with numbers.
//!
//! A name is one or more ASCII letters, digits and `_`, of any length. Names are numbered from 1 in the order in which
//! they are first declared. A repeated declaration and a repeated attack count once.
//!
//! In APX a line holds facts `arg(a).` and `att(a,b).`, none or more, in any order, with blanks allowed between and
//! inside them but not within a word; a line whose first field begins with `%` says nothing. In TGF there are lines of
//! nodes `a`, then a line with the only field `#`, and lines of edges `a b`; further fields are labels, which say
//! nothing, and so do lines without fields. Without a line `#` there is no edge. Space, tab and CR are blanks, and a
//! line ends at LF.
#![tactic(auto)]

mod apx_line;
mod fact;
mod fault;
mod format;
mod framework;
mod line;
mod names;
mod numbers;
mod read;
mod series;
mod tgf_line;
mod token;
mod told;
mod write;

pub use fault::{NameCause, NameFault, ReadFault};
pub use format::NameFormat;
pub use names::Names;
pub use read::{NamedAf, read_named};
pub use write::write_named;
