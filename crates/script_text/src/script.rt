//! Scripts as values.

ghost use Rattle.std.specs.Prelude.{◌≡◌};
ghost use Rattle.script_text.specs.Sizes.{HasGroupSize};
ghost use Rattle.script_text.specs.Uses.{use_of};

use edit_rules::Edit;
use iccma_tasks::Query;
use lists::Items;
use std::marker::Model;

/// The most sessions that a script may have: they are numbered from 1 to this.
pub const MAX_SESSIONS: u32 = 8;

/// Edits that are made at one time, from 1 to [`MAX_GROUP`](edit_rules::MAX_GROUP) of them. It means their list.
#[derive(Drop)]
pub struct Group {
    edits: Items<Edit>,
}

impl Model for Group {
    ghost use Rattle.std.specs.Prelude.{List};
    ghost use Rattle.edit_rules.specs.declared.edit.Edit.{Edit as AnEdit};
    ghost use Rattle.script_text.specs.Sizes.{HasGroupSize};

    ghost Value = { List AnEdit };

    ghost view = { λ g. g.edits };

    ghost invariant = { λ g. HasGroupSize g.edits };
}

impl Group {
    /// The group of these edits.
    pub fn new(edits: Items<Edit>) -> Group
        requires { HasGroupSize edits }
        ensures { result ≡ edits }
    {
        Group { edits }
    }

    /// The edits.
    pub fn as_slice(&self) -> &[Edit]
        ensures edits { result.now ≡ self.now }
        ensures size { HasGroupSize result.now }
    {
        self.edits.as_slice()
    }
}

/// What a script has a session do at one time.
#[derive(Drop)]
pub enum ScriptCommand {
    /// Change the framework by these edits, all or none. `true` says that they are written between `begin` and `end`;
    /// without them there is one edit.
    Edit(Group, bool),
    /// Ask about the framework as it then is.
    Ask(Query),
}

/// A command of a script.
#[derive(Drop)]
pub struct ScriptLine {
    /// The session whose command it is, from 1 to [`MAX_SESSIONS`].
    pub session: u32,
    /// What the session does.
    pub command: ScriptCommand,
}

/// Which framework a session is on.
#[derive(Drop, Clone, Copy)]
pub struct ScriptUse {
    /// The session, from 1 to [`MAX_SESSIONS`].
    pub session: u32,
    /// The number of its framework.
    pub framework: u32,
}

/// The commands of a script, each where its last line stands. Each session does its own in this order.
#[derive(Drop)]
pub struct Script {
    /// The commands.
    pub lines: Items<ScriptLine>,
    /// What the lines `S use K` say, in order. A session without such a line is on framework 1.
    pub uses: Items<ScriptUse>,
}

/// The framework of a session: that of its first use, or 1 where it has none.
pub fn framework_of_session(uses: &[ScriptUse], session: u32) -> u32
    ensures { result ≡ use_of uses.now session }
{
    for one in uses {
        if one.session == session {
            return one.framework;
        }
    }
    1
}
