//! Effects again.

ghost use Rattle.std.specs.Prelude.{◌≡◌, IfOk};

use edit_rules::Effect;
use lists::{Items, Memory};
use std::alloc::Global;

/// The same effects again.
pub fn copy_effects(alloc: Global, effects: &[Effect]) -> Result<Items<Effect>, Memory>
    ensures { IfOk result (λ copies. copies ≡ effects.now) }
{
    let mut copies = Items::new(alloc);
    for effect in effects {
        copies.push(copy_effect(alloc, effect)?)?;
    }
    Ok(copies)
}

/// The same effect again.
fn copy_effect(alloc: Global, effect: &Effect) -> Result<Effect, Memory>
    ensures { IfOk result (λ copy. copy ≡ effect.now) }
{
    let edit = effect.edit.copy(alloc)?;
    let dropped = copy_pairs(alloc, effect.dropped.as_slice())?;
    let gone = copy_numbers(alloc, effect.gone.as_slice())?;
    let body = copy_numbers(alloc, effect.body.as_slice())?;
    Ok(Effect {
        edit,
        rule: effect.rule,
        dropped,
        gone,
        head: effect.head,
        body,
    })
}

/// The same pairs again.
fn copy_pairs(alloc: Global, pairs: &[(u32, u32)]) -> Result<Items<(u32, u32)>, Memory>
    ensures { IfOk result (λ copy. copy ≡ pairs.now) }
{
    Ok(Items::from_vec(Vec::from_slice(alloc, pairs)?))
}

/// The same numbers again.
fn copy_numbers(alloc: Global, numbers: &[u32]) -> Result<Items<u32>, Memory>
    ensures { IfOk result (λ copy. copy ≡ numbers.now) }
{
    Ok(Items::from_vec(Vec::from_slice(alloc, numbers)?))
}
