//! Groups of edits, taken whole or not at all.

ghost use Rattle.std.specs.Prelude.{◌≡◌, List, IfErr, IfNone, IfOk, IfSome, OnErr};
ghost use Rattle.semantics.specs.Frameworks.{Framework as AFramework};
ghost use Rattle.edit_rules.specs.declared.edit.Edit.{Edit as AnEdit};
ghost use Rattle.edit_rules.specs.Kinds.{framework_of};
ghost use Rattle.edit_groups.specs.Taking.{IsGroupFault, IsGroupTaken, IsRefusedAt};

use crate::in_copy::apply_in_copy;
use crate::in_place::apply_in_place;
use edit_rules::{Edit, EditFault, Effect, Framework};
use lists::{Items, Memory};
use std::alloc::{AllocError, AllocFailed, Global};

/// Why a framework doesn't take a group of edits. It is as before then.
#[derive(Clone, Copy)]
pub enum GroupFault {
    /// The place of the first edit that is refused, counted from 1, and why the framework behind the edits before it
    /// refuses it.
    Edit(u64, EditFault),
    /// An allocation was refused.
    Memory,
}

impl From<Memory> for GroupFault {
    ghost use Rattle.edit_groups.specs.declared.taking.GroupFault.TheVariants.{Memory};

    ghost from_gives = { λ _ fault. fault ≡ Memory };

    fn from(_error: Memory) -> GroupFault {
        GroupFault::Memory
    }
}

impl<T: Drop> From<AllocFailed<T>> for GroupFault {
    ghost use Rattle.edit_groups.specs.declared.taking.GroupFault.TheVariants.{Memory};

    ghost from_gives = { λ _ fault. fault ≡ Memory };

    fn from(_error: AllocFailed<T>) -> GroupFault {
        GroupFault::Memory
    }
}

impl From<AllocError> for GroupFault {
    ghost use Rattle.edit_groups.specs.declared.taking.GroupFault.TheVariants.{Memory};

    ghost from_gives = { λ _ fault. fault ≡ Memory };

    fn from(_error: AllocError) -> GroupFault {
        GroupFault::Memory
    }
}

/// Why a framework doesn't take a group whose edit at a place is refused so.
pub(crate) fn fault_at(place: u64, fault: EditFault) -> GroupFault
    ensures { (f : AFramework) (edits : List AnEdit) → IsRefusedAt f edits place fault → IsGroupFault f edits result }
{
    match fault {
        EditFault::Memory => GroupFault::Memory,
        _ => GroupFault::Edit(place, fault),
    }
}

/// What the edits of a group did, one by one, told twice: once for who keeps it and once for who asked. Behind a change
/// of the framework nothing may want memory, so there has to be a second list before.
#[derive(Drop)]
pub struct Effects {
    /// The effects, to be kept.
    pub kept: Items<Effect>,
    /// The same effects.
    pub told: Items<Effect>,
}

/// Changes a framework by a group of edits, one by one, or leaves it as it was: where an edit is refused by the
/// framework behind those before it, and where memory is refused. Attacks that come or go in an abstract framework do
/// so in place, in time linear in the group beside what each takes; every other group is made in a copy of the
/// framework.
pub fn apply_group(
    alloc: Global,
    framework: &mut Framework,
    edits: &[Edit],
) -> Result<Effects, GroupFault>
    ensures taken { IfOk result (λ effects.
        IsGroupTaken (framework_of framework.old) edits.now effects.kept (framework_of framework.new)) }
    ensures told { IfOk result (λ effects. effects.told ≡ effects.kept) }
    ensures fault { IfErr result (IsGroupFault (framework_of framework.old) edits.now) }
    ensures kept { OnErr result (framework.new ≡ framework.old) }
{
    match try_in_place(alloc, framework, edits)? {
        Some(effects) => Ok(effects),
        None => apply_in_copy(alloc, framework, edits),
    }
}

/// Changes an abstract framework in place, where all edits make attacks come or go. `None` says that they don't, or
/// that the framework is of the other kind; it is as before then.
fn try_in_place(
    alloc: Global,
    framework: &mut Framework,
    edits: &[Edit],
) -> Result<Option<Effects>, GroupFault>
    ensures taken { IfOk result (λ done. IfSome done (λ effects.
        IsGroupTaken (framework_of framework.old) edits.now effects.kept (framework_of framework.new))) }
    ensures told { IfOk result (λ done. IfSome done (λ effects. effects.told ≡ effects.kept)) }
    ensures none { IfOk result (λ done. IfNone done (framework.new ≡ framework.old)) }
    ensures fault { IfErr result (IsGroupFault (framework_of framework.old) edits.now) }
    ensures kept { OnErr result (framework.new ≡ framework.old) }
{
    match framework {
        Framework::Af(plain) => apply_in_place(alloc, plain, edits),
        Framework::Aba(_) => Ok(None),
    }
}
