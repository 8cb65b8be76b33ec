//! The text of a script: which session edits the framework how, and what it asks, line by line.
//!
//! A line is a session number and a command: `arg N`, `noarg N`, `att B A`, `noatt B A`, `asm A C`, `noasm A`,
//! `con A C`, `addcon A C`, `delcon A C`, `rule H B1 .. Bk`, `norule R`, `ask TASK` or `ask TASK N`; or `begin` and `end`,
//! between which the edits of a group stand, lines of other sessions among them; or `use K`, the first line of its
//! session, which puts the session on framework K. Space, tab and CR are blanks between fields. A line without fields, or
//! whose first field begins with `#`, is skipped; lines are numbered from 1, skipped ones included.
#![tactic(auto)]

mod arguments;
mod ask;
mod edit_line;
mod edit_word;
mod fault;
mod groups;
mod list;
mod open_groups;
mod read;
mod script;
mod script_line;
mod text_line;
mod use_line;

pub use edit_word::EditWord;
pub use fault::{ScriptCause, ScriptFault};
pub use list::{ListCause, ListFault, MAX_FRAMEWORKS, read_list};
pub use read::read_script;
pub use script::{
    Group, MAX_SESSIONS, Script, ScriptCommand, ScriptLine, ScriptUse, framework_of_session,
};
