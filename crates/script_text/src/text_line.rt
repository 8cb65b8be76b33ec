//! Lines of a script as values.

use edit_rules::Edit;
use iccma_tasks::Query;

/// What the fields behind a session's number say.
#[derive(Drop)]
pub enum LineCommand {
    /// Change the framework, alone or in the group that is open.
    Edit(Edit),
    /// Ask about the framework as it then is.
    Ask(Query),
    /// A group of edits begins.
    Begin,
    /// It ends.
    End,
    /// The session is on the framework of this number.
    Use(u32),
}

/// A line that isn't skipped.
#[derive(Drop)]
pub struct TextLine {
    /// The session whose line it is.
    pub session: u32,
    /// What it says.
    pub command: LineCommand,
}
