//! The largest admissible part of a set of assumptions.

ghost use Rattle.std.specs.Prelude.{IfOk};
ghost use Rattle.lists.specs.Members.{IsSetOf};
ghost use Rattle.semantics.specs.AbaFrameworks.{collective_of};
ghost use Rattle.semantics.specs.Collectives.{IsConflictFree};
ghost use Rattle.semantics.specs.Frameworks.{aba};
ghost use Rattle.oracle_face.specs.Parts.{IsLargestPart};
ghost use Rattle.ideal_set.specs.Rounds.{IsUndefendedMember};

use aba_notions::AbaPlain;
use lists::Memory;
use set_lists::NumSet;
use std::alloc::Global;

/// The members of a set that the set does not defend.
fn undefended(alloc: Global, plain: &AbaPlain, set: &NumSet) -> Result<NumSet, Memory>
    ensures { IfOk result (IsSetOf (IsUndefendedMember (collective_of plain.now) set.now)) }
{
    let defended = plain.defended_by(alloc, set)?;
    set.minus(alloc, &defended)
}

/// The largest admissible set that is part of a conflict-free set of assumptions and has none of the numbers: members
/// that are not defended are dropped until all are. Each round takes two searches for what a set derives, and there are
/// at most as many rounds as members. `Memory` says that an allocation was refused.
pub fn largest_part_of_assumptions(
    alloc: Global,
    plain: &AbaPlain,
    set: &NumSet,
    without: &NumSet,
) -> Result<NumSet, Memory>
    requires { IsConflictFree (collective_of plain.now) set.now }
    ensures { IfOk result (IsLargestPart (aba plain.now) set.now without.now) }
{
    let mut part = set.minus(alloc, without)?;
    loop {
        let dropped = undefended(alloc, plain, &part)?;
        if dropped.is_empty() {
            return Ok(part);
        }
        part = part.minus(alloc, &dropped)?;
    }
}
