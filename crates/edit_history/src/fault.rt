//! Why a commit adds nothing to the history.

ghost use Rattle.std.specs.Prelude.{◌≡◌};
ghost use Rattle.edit_history.specs.Faults.{fault_of};

use edit_groups::GroupFault;
use edit_rules::EditFault;
use lists::Memory;
use std::alloc::{AllocError, AllocFailed};

/// Why a group of edits is not in the history, which is as it was but for what other sessions added. Each front is its
/// length, in groups.
#[derive(Clone, Copy)]
pub enum CommitFault {
    /// The edits of the history and of the group together are more than there may be. This is tested before the edits.
    HistoryFull(u64),
    /// An edit of the group is refused by the framework after the history and the edits before it: its place in the
    /// group, counted from 1, why, and the front.
    Edit(u64, EditFault, u64),
    /// An allocation was refused.
    Memory,
}

impl From<Memory> for CommitFault {
    ghost use Rattle.edit_history.specs.declared.fault.CommitFault.TheVariants.{Memory};

    ghost from_gives = { λ _ fault. fault ≡ Memory };

    fn from(_error: Memory) -> CommitFault {
        CommitFault::Memory
    }
}

impl<T: Drop> From<AllocFailed<T>> for CommitFault {
    ghost use Rattle.edit_history.specs.declared.fault.CommitFault.TheVariants.{Memory};

    ghost from_gives = { λ _ fault. fault ≡ Memory };

    fn from(_error: AllocFailed<T>) -> CommitFault {
        CommitFault::Memory
    }
}

impl From<AllocError> for CommitFault {
    ghost use Rattle.edit_history.specs.declared.fault.CommitFault.TheVariants.{Memory};

    ghost from_gives = { λ _ fault. fault ≡ Memory };

    fn from(_error: AllocError) -> CommitFault {
        CommitFault::Memory
    }
}

/// Why a history of this front doesn't take a group that its framework doesn't take.
pub(crate) fn fault_at(fault: GroupFault, front: u64) -> CommitFault
    ensures { result ≡ fault_of fault front }
{
    match fault {
        GroupFault::Edit(place, why) => CommitFault::Edit(place, why, front),
        GroupFault::Memory => CommitFault::Memory,
    }
}
