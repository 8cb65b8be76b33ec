//! An attack that comes or goes, in the two indices of a framework.

ghost use Rattle.std.specs.Prelude.{◌≡◌, ◌<◌, OnErr, OnOk};
ghost use Rattle.attack_index.specs.Changes.{GainsPair, LosesPair};
ghost use Rattle.dung_notions.specs.Storage.{AreTwoWays};

use attack_index::AttackBlocks;
use lists::Memory;

/// Adds a pair to an index and, the other way round, to the other, unless it is there. Where the second has no room, the
/// first gives it back.
pub(crate) fn put_pair(
    outgoing: &mut AttackBlocks,
    incoming: &mut AttackBlocks,
    attacker: u32,
    target: u32,
) -> Result<(), Memory>
    requires ways { AreTwoWays outgoing.old.pairs incoming.old.pairs }
    requires leaving { (attacker < outgoing.old.bound) × (target < outgoing.old.bound) }
    requires reaching { (attacker < incoming.old.bound) × (target < incoming.old.bound) }
    ensures ways { AreTwoWays outgoing.new.pairs incoming.new.pairs }
    ensures leaving { outgoing.new.bound ≡ outgoing.old.bound }
    ensures reaching { incoming.new.bound ≡ incoming.old.bound }
    ensures gains { OnOk result (GainsPair (attacker, target) outgoing.old.pairs outgoing.new.pairs) }
    ensures err { OnErr result (outgoing.new ≡ outgoing.old) }
{
    if outgoing.has(attacker, target) {
        return Ok(());
    }
    incoming.insert(target, attacker)?;
    match outgoing.insert(attacker, target) {
        Ok(()) => Ok(()),
        Err(refused) => {
            incoming.remove(target, attacker);
            Err(refused)
        }
    }
}

/// Takes a pair out of an index and, the other way round, out of the other.
pub(crate) fn drop_pair(
    outgoing: &mut AttackBlocks,
    incoming: &mut AttackBlocks,
    attacker: u32,
    target: u32,
)
    requires { AreTwoWays outgoing.old.pairs incoming.old.pairs }
    ensures ways { AreTwoWays outgoing.new.pairs incoming.new.pairs }
    ensures leaving { outgoing.new.bound ≡ outgoing.old.bound }
    ensures reaching { incoming.new.bound ≡ incoming.old.bound }
    ensures loses { LosesPair (attacker, target) outgoing.old.pairs outgoing.new.pairs }
{
    outgoing.remove(attacker, target);
    incoming.remove(target, attacker);
}
