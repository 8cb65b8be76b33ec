//! Attacks that come or go together, in place.

ghost use Rattle.std.specs.Prelude.{◌≡◌, ◌<◌, ◌∷◌, [], ℕ, Contains, length, slice_index_or, take, OnErr, OnOk};
ghost use Rattle.edit_groups.specs.Gaining.{HasGained, HasLost};

use dung_notions::AfPlain;
use lists::Memory;

/// Takes the attacks of the pairs away, where they are there. It takes no memory.
pub(crate) fn remove_all(plain: &mut AfPlain, pairs: &[(u32, u32)])
    ensures { HasLost pairs.now plain.old plain.new }
{
    let _form = plain.live();
    for pair in pairs {
        plain.remove_attack(pair.0, pair.1);
    }
}

/// Adds the attacks of the pairs, none of which is there. After `Memory` the framework is as before.
pub(crate) fn insert_all(plain: &mut AfPlain, pairs: &[(u32, u32)]) -> Result<(), Memory>
    requires live { (p : ℕ × ℕ) → Contains pairs.now p
        → Contains plain.old.live p.0 × Contains plain.old.live p.1 }
    requires new { (p : ℕ × ℕ) → Contains pairs.now p → Contains plain.old.attacks p → ⊥ }
    ensures done { OnOk result (HasGained pairs.now plain.old plain.new) }
    ensures kept { OnErr result (plain.new ≡ plain.old) }
{
    let _form = plain.live();
    for index in 0..pairs.len() {
        insert_at(plain, pairs, index)?;
    }
    Ok(())
}

/// Adds the attack of the pair at an index. Where there is no memory, those of the pairs before it are taken away.
fn insert_at(plain: &mut AfPlain, pairs: &[(u32, u32)], index: usize) -> Result<(), Memory>
    requires index { index < length pairs.now }
    requires live { Contains plain.old.live (slice_index_or pairs.now index (0, 0)).0
        × Contains plain.old.live (slice_index_or pairs.now index (0, 0)).1 }
    ensures done { OnOk result (HasGained (slice_index_or pairs.now index (0, 0) ∷ []) plain.old plain.new) }
    ensures kept { OnErr result (HasLost (take index pairs.now) plain.old plain.new) }
{
    let pair = pairs[index];
    match plain.insert_attack(pair.0, pair.1) {
        Ok(()) => Ok(()),
        Err(refused) => {
            remove_all(plain, &pairs[..index]);
            Err(refused)
        }
    }
}
