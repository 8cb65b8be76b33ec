//! What the commands on frameworks whose arguments have names do: `names`, a query and its answer by names, and `af`, the
//! text with numbers. Their rows of the table of commands stand above (`argue_program`).
#![tactic(auto)]

pub mod naming;
pub mod numbering;
pub mod solving;
mod texts;

pub use naming::{Naming, format_named, naming_of};
pub use numbering::number_file;
pub use solving::{NamedSession, solve_names};
