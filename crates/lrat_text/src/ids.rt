//! The steps that ids name.

ghost use Rattle.std.specs.Prelude.{◌≡◌, ◌<◌, ◌≤◌, ◌++◌, length, map, Contains, IfSome, IfNone, OnOk, slice_index};
ghost use Rattle.std.specs.Bool.{OnTrue, OnFalse};
ghost use Rattle.std.specs.List.Sorted.{IsStrictlyIncreasing};
ghost use Rattle.std.specs.List.{range_with_len};
ghost use Rattle.lrat_text.specs.Checking.{AreIds, number_of};

use lists::Memory;
use plain_lits::StepId;

// The index of an id, where ids rise from `count` on. It is `id - count - 1` where all ids before it are given, which
// refutations that were trimmed have.
fn index_of(ids: &[u32], count: u32, id: u32) -> Option<usize>
    requires { AreIds count ids.now }
    ensures some { IfSome result (λ index. (index < length ids.now) × (slice_index ids.now index ≡ id)) }
    ensures none { IfNone result (¬ Contains ids.now id) }
{
    if id <= count {
        return None;
    }
    let near = (id - count - 1) as usize;
    if near < ids.len() && ids[near] == id {
        return Some(near);
    }
    search(ids, id)
}

// The index of a number in a rising list.
fn search(ids: &[u32], id: u32) -> Option<usize>
    requires { IsStrictlyIncreasing ids.now }
    ensures some { IfSome result (λ index. (index < length ids.now) × (slice_index ids.now index ≡ id)) }
    ensures none { IfNone result (¬ Contains ids.now id) }
{
    match ids.binary_search(&id) {
        Ok(index) => Some(index),
        Err(_) => None,
    }
}

// Whether the id is a clause's of the CNF.
fn is_given(id: u32, count: u32) -> bool
    ensures given { OnTrue result ((0 < id) × (id ≤ count)) }
    ensures other { OnFalse result (0 < id → id ≤ count → ⊥) }
{
    0 < id && id <= count
}

/// The number, from 1 on, of the step that an id names, or 0 where it names none. The clauses of the CNF, of which there
/// are `count`, are the first steps, with their numbers as ids; `ids` are those of the others.
pub(crate) fn number_of(ids: &[u32], count: u32, id: u32) -> StepId
    requires { AreIds count ids.now }
    ensures { result ≡ number_of (range_with_len 1 count ++ ids.now) id }
{
    if is_given(id, count) {
        return StepId::new(id);
    }
    match index_of(ids, count, id) {
        Some(index) => StepId::new(count + index as u32 + 1),
        None => StepId::new(0),
    }
}

/// Puts the numbers of the steps that hints name into a list, in place of what it has.
pub(crate) fn name_hints(
    ids: &[u32],
    count: u32,
    hints: &[u32],
    named: &mut Vec<StepId>,
) -> Result<(), Memory>
    requires { AreIds count ids.now }
    ensures { OnOk result (named.new.items ≡ map (number_of (range_with_len 1 count ++ ids.now)) hints.now) }
{
    named.clear();
    for hint in hints {
        named.push(number_of(ids, count, *hint))?;
    }
    Ok(())
}
