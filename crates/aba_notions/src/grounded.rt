//! The grounded set.

ghost use Rattle.std.specs.Prelude.{IfOk};
ghost use Rattle.semantics.specs.AbaFrameworks.{collective_of};
ghost use Rattle.semantics.specs.Collectives.{IsGrounded};

use crate::aba_plain::AbaPlain;
use lists::Memory;
use set_lists::NumSet;
use std::alloc::Global;

impl AbaPlain {
    /// The grounded set: from the empty set on, what the set defends takes its place, until that is nothing new. Each
    /// round takes linear time, and there are at most as many rounds as assumptions. `Memory` says that an allocation
    /// was refused.
    pub fn grounded(&self, alloc: Global) -> Result<NumSet, Memory>
        ensures { IfOk result (IsGrounded (collective_of self.now)) }
    {
        let mut set = NumSet::new(alloc);
        let mut next = self.defended_by(alloc, &set)?;
        while !next.within(&set) {
            set = next;
            next = self.defended_by(alloc, &set)?;
        }
        Ok(set)
    }
}
