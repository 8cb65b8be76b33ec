//! What an edit took away or gave, and why it is refused.

ghost use Rattle.std.specs.Prelude.{◌≡◌, []};
ghost use Rattle.edit_rules.specs.Effects.{plain_effect};

use crate::edit::Edit;
use lists::{Items, Memory};
use std::alloc::Global;

/// What an edit did: with the framework behind it, it determines the framework before.

pub struct Effect {
    /// The edit.
    pub edit: Edit,
    /// The number that an added rule was given, and 0 for every other edit.
    pub rule: u32,
    /// The attacks (attacker, target) that went with a dropped argument, by rising attacker and then target.
    pub dropped: Items<(u32, u32)>,
    /// All contraries that the assumption of `ConSet` or `AsmDrop` had before, rising, also one that `ConSet` gives
    /// again, and empty for every other edit.
    pub gone: Items<u32>,
    /// The head of a dropped rule, and 0 for every other edit.
    pub head: u32,
    /// The body of a dropped rule, and empty for every other edit.
    pub body: Items<u32>,
}

// By hand, so that a drop is one call (docs/PROVING.md).
impl Drop for Effect {
    fn drop(self) {
        let Effect {
            edit: _,
            rule: _,
            dropped: _,
            gone: _,
            head: _,
            body: _,
        } = self;
    }
}

/// Why an edit is refused. Of several causes the first of the edit's row is told: the kind, then the numbers outside
/// their ranges, then the others in the order of this list. The framework is as before then.
#[derive(Clone, Copy, PartialEq, Eq)]
pub enum EditFault {
    /// Frameworks of that kind don't have the edit.
    WrongKind,
    /// The number lies outside its range.
    OutOfRange(u32),
    /// The argument to be added is live.
    ArgumentIsThere,
    /// The argument isn't live.
    UnknownArgument(u32),
    /// The attack to be added is there.
    AttackIsThere,
    /// The attack to be dropped isn't there.
    NoSuchAttack,
    /// The atom to become an assumption is one.
    AssumptionIsThere,
    /// The number is an assumption's, and a rule has it as its head or would have.
    NotFlat(u32),
    /// The number is no assumption's.
    UnknownAssumption(u32),
    /// The contrary to be added is there.
    ContraryIsThere,
    /// The contrary to be dropped isn't there.
    NoSuchContrary,
    /// No rule has the number.
    NoSuchRule(u32),
    /// An allocation was refused.
    Memory,
}

impl From<Memory> for EditFault {
    ghost use Rattle.edit_rules.specs.declared.effect.EditFault.TheVariants.{Memory};

    ghost from_gives = { λ _ fault. fault ≡ Memory };

    fn from(_error: Memory) -> EditFault {
        EditFault::Memory
    }
}

impl Effect {
    /// The effect of an edit that took nothing away.
    pub fn of_edit(alloc: Global, edit: Edit) -> Effect
        ensures { result ≡ plain_effect edit }
    {
        Effect::with_dropped(alloc, edit, Items::new(alloc))
    }

    /// The effect of an edit that took attacks along.
    pub fn with_dropped(alloc: Global, edit: Edit, dropped: Items<(u32, u32)>) -> Effect
        ensures { result ≡ record { edit = edit; rule = 0; dropped = dropped; gone = []; head = 0; body = [] } }
    {
        Effect {
            edit,
            rule: 0,
            dropped,
            gone: Items::new(alloc),
            head: 0,
            body: Items::new(alloc),
        }
    }
}
