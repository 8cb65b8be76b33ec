//! The range of a set of arguments.

ghost use Rattle.std.specs.Prelude.{IfOk, OnOk};
ghost use Rattle.lists.specs.Members.{IsSetOf};
ghost use Rattle.attack_index.specs.semantics.specs.Framework.{IsInRange};
ghost use Rattle.dung_notions.specs.Ranges.{GainsTargets};

use crate::af_plain::AfPlain;
use lists::Memory;
use set_lists::NumSet;
use std::alloc::Global;

impl AfPlain {
    /// The set's range: its members and what they attack. It meets each attack that leaves a member once, and then
    /// puts what it found in order. `Memory` says that an allocation was refused.
    pub fn range_of(&self, alloc: Global, set: &NumSet) -> Result<NumSet, Memory>
        ensures { IfOk result (IsSetOf (IsInRange self.now set.now)) }
    {
        let mut found = Vec::from_slice(alloc, set.as_slice())?;
        for member in set.as_slice() {
            self.add_targets(&mut found, *member)?;
        }
        NumSet::from_slice(alloc, &found)
    }

    /// Adds what an argument attacks.
    fn add_targets(&self, found: &mut Vec<u32>, argument: u32) -> Result<(), Memory>
        ensures { OnOk result (GainsTargets self.now argument found.old.items found.new.items) }
    {
        let targets = self.targets_of(argument);
        for pair in targets {
            found.push(pair.1)?;
        }
        Ok(())
    }
}
