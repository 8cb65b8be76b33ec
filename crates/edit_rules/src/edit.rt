//! Changes of a framework.

ghost use Rattle.std.specs.Prelude.{◌≡◌, IfOk};

use lists::{Items, Memory};
use std::alloc::Global;

/// The most edits of a group.
pub const MAX_GROUP: usize = 10_000;

/// A change of a framework. The first four are changes of an abstract framework, the others of an assumption-based one.
#[derive(PartialEq, Eq)]
pub enum Edit {
    /// Makes an argument live.
    ArgAdd(u32),
    /// Takes away an argument, and each attack that leaves or reaches it.
    ArgDrop(u32),
    /// Adds an attack: the attacker, then the target.
    AttackAdd(u32, u32),
    /// Takes away an attack: the attacker, then the target.
    AttackDrop(u32, u32),
    /// Makes an atom an assumption with one contrary, or with none where that is 0.
    AsmAdd(u32, u32),
    /// Makes an assumption one no longer; its contraries go.
    AsmDrop(u32),
    /// Makes an atom the only contrary of an assumption, or takes all away where that is 0.
    ConSet(u32, u32),
    /// Adds a contrary of an assumption: the assumption, then the contrary.
    ConAdd(u32, u32),
    /// Takes away a contrary of an assumption: the assumption, then the contrary.
    ConDrop(u32, u32),
    /// Adds a rule: its head, then its body.
    RuleAdd(u32, Items<u32>),
    /// Takes away the rule of a number.
    RuleDrop(u32),
}

// By hand, so that a drop is one call (docs/PROVING.md).
impl Drop for Edit {
    fn drop(self) {
        match self {
            Edit::ArgAdd(_)
            | Edit::ArgDrop(_)
            | Edit::AttackAdd(_, _)
            | Edit::AttackDrop(_, _)
            | Edit::AsmAdd(_, _)
            | Edit::AsmDrop(_)
            | Edit::ConSet(_, _)
            | Edit::ConAdd(_, _)
            | Edit::ConDrop(_, _)
            | Edit::RuleAdd(_, _)
            | Edit::RuleDrop(_) => {}
        }
    }
}

impl Edit {
    /// The same edit again.
    pub fn copy(&self, alloc: Global) -> Result<Edit, Memory>
        ensures { IfOk result (λ copy. copy ≡ self.now) }
    {
        Ok(match self {
            Edit::ArgAdd(number) => Edit::ArgAdd(*number),
            Edit::ArgDrop(number) => Edit::ArgDrop(*number),
            Edit::AttackAdd(attacker, target) => Edit::AttackAdd(*attacker, *target),
            Edit::AttackDrop(attacker, target) => Edit::AttackDrop(*attacker, *target),
            Edit::AsmAdd(assumption, contrary) => Edit::AsmAdd(*assumption, *contrary),
            Edit::AsmDrop(assumption) => Edit::AsmDrop(*assumption),
            Edit::ConSet(assumption, contrary) => Edit::ConSet(*assumption, *contrary),
            Edit::ConAdd(assumption, contrary) => Edit::ConAdd(*assumption, *contrary),
            Edit::ConDrop(assumption, contrary) => Edit::ConDrop(*assumption, *contrary),
            Edit::RuleAdd(head, body) => Edit::RuleAdd(*head, copy_body(alloc, body.as_slice())?),
            Edit::RuleDrop(rule) => Edit::RuleDrop(*rule),
        })
    }
}

/// The same body again.
fn copy_body(alloc: Global, body: &[u32]) -> Result<Items<u32>, Memory>
    ensures { IfOk result (λ copy. copy ≡ body.now) }
{
    Ok(Items::from_vec(Vec::from_slice(alloc, body)?))
}
