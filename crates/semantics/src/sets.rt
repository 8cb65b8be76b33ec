//! All sets of some numbers.

ghost use Rattle.std.specs.Prelude.{◌≡◌, [], ◌∷◌, ◌++◌, IfOk};
ghost use Rattle.semantics.specs.Sets.{HasAllSets, HasLarger};

use lists::{Items, Memory};
use std::alloc::Global;

/// The sets that can be made of the numbers, each once by its members.
pub fn sets_of(alloc: Global, numbers: &[u32]) -> Result<Items<Items<u32>>, Memory>
    ensures { IfOk result (HasAllSets numbers.now) }
{
    let mut sets = Items::new(alloc);
    sets.push(Items::new(alloc))?;
    for number in numbers {
        sets = with_larger(alloc, sets.as_slice(), *number)?;
    }
    Ok(sets)
}

/// Each of the sets twice, as it is and with a number more.
fn with_larger(alloc: Global, sets: &[Items<u32>], number: u32) -> Result<Items<Items<u32>>, Memory>
    ensures { IfOk result (HasLarger number sets.now) }
{
    let mut all = Items::new(alloc);
    for set in sets {
        all.push(copy(alloc, set.as_slice())?)?;
        all.push(with(alloc, set.as_slice(), number)?)?;
    }
    Ok(all)
}

/// The set once more.
fn copy(alloc: Global, set: &[u32]) -> Result<Items<u32>, Memory>
    ensures { IfOk result (λ made. made ≡ set.now) }
{
    Ok(Items::from_vec(set.to_vec(alloc)?))
}

/// The set with a number more.
fn with(alloc: Global, set: &[u32], number: u32) -> Result<Items<u32>, Memory>
    ensures { IfOk result (λ larger. larger ≡ set.now ++ number ∷ []) }
{
    let mut larger = copy(alloc, set)?;
    larger.push(number)?;
    Ok(larger)
}
