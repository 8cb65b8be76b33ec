//! Where the sessions of a script stand, and the groups of edits that they have open.

ghost use Rattle.std.specs.Prelude.{◌≡◌, ◌+◌, length};
ghost use Rattle.script_text.specs.declared.script.TheConstants.{MAX_SESSIONS};
ghost use Rattle.script_text.specs.Sizes.{AreSmall};

use edit_rules::Edit;
use lists::Items;

/// Where the lines so far leave a session.
#[derive(Drop)]
pub(crate) enum Place {
    /// It has had no line.
    Unbegun,
    /// It has had a line, and no group is open.
    Between,
    /// It is inside a group, which has these edits so far.
    Inside(Items<Edit>),
}

/// Where each session stands, by the session's number. No session has number 0.
pub(crate) struct OpenGroups {
    pub(crate) places: Vec<Place>,
    ghost long: { length places.items ≡ MAX_SESSIONS + 1 },
    ghost small: { AreSmall places.items },
}

impl Drop for OpenGroups {
    fn drop(self) {
        let OpenGroups { places: _ } = self;
    }
}
