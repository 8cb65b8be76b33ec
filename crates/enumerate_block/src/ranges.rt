//! All sets of a mode with widest ranges.

ghost use Rattle.std.specs.Prelude.{◌≡◌, ◌≤◌, false, length, IfOk};
ghost use Rattle.oracle_face.specs.Kinds.{is_assumption_based};
ghost use Rattle.oracle_face.specs.Growing.{closes, halt_of};
ghost use Rattle.enumerate_block.specs.Ranges.{AreFound, GrowsRange, IsAllOrMore, IsUncovered, MadeForRanges, Records};
ghost use Rattle.goal_lists.specs.Runs.{Ran, RanInAll};

use crate::marks::{insert_all, steps_of};
use crate::{Listed, all_with_range};
use certificate_claims::mode_atom;
use goal_lists::{Wanted, search_for};
use lists::Items;
use oracle_face::{AskId, Budget, Found, Halt, Oracle, StepId};
use semantics::Mode;
use semi_stable::{Widest, oblige_wider, widest_in};
use set_lists::NumSet;
use std::alloc::Global;

/// What came of listing sets of a mode with widest ranges.
#[derive(Drop)]
pub enum Ranged {
    /// All of them, in the order of their lists; then the log step that shows that the range of each set of the mode
    /// lies in one of theirs, and for each set that is the first with its range the one that shows that no other has
    /// that range.
    Whole(Vec<NumSet>, Items<StepId>),
    /// More than the limit were found.
    TooMany,
}

/// Sets of a mode with widest ranges, in the order of their lists, all with each range that is there. Each that is the
/// first with its range is marked with the log step that shows that no other has the range. The side clauses are those
/// that something is in the range that isn't in one of these ranges.
#[derive(Drop)]
struct Ranges {
    sets: Vec<NumSet>,
    marks: Vec<Option<StepId>>,
    asks: Items<AskId>,
}

/// All sets of the mode with widest ranges, in an abstract framework, at most so many: by the mode `Cf` the stage sets,
/// by `Ad` the semi-stable sets. Where they have k ranges, it asks k + 1 times for a range that lies in none of those
/// found, and within each range as often as there are sets with it, besides what it asks to grow each range.
pub fn all_widest<O: Oracle>(
    alloc: Global,
    oracle: &mut O,
    budget: &mut Budget,
    mode: Mode,
    limit: usize,
) -> Result<Ranged, Halt>
    requires { is_assumption_based (O.framework oracle.old) ≡ false }
    ensures ranged { IfOk result (IsAllOrMore (O.framework oracle.old) (O.log oracle.new) mode limit) }
    ensures ran { RanInAll O.Oracle (λ f. MadeForRanges f mode) oracle.old oracle.new budget.old budget.new
        (halt_of result) }
{
    let _members = oracle.members();
    let mut found = Ranges {
        sets: Vec::new(alloc),
        marks: Vec::new(alloc),
        asks: Items::new(alloc),
    };
    loop {
        match find_uncovered(alloc, oracle, budget, mode, &found)? {
            Found::Refuted(step) => {
                let steps = steps_of(alloc, step, found.marks.as_slice())?;
                return Ok(Ranged::Whole(found.sets, steps));
            }
            Found::Set(set) => {
                let room = record_range(alloc, oracle, budget, mode, limit, &mut found, &set)?;
                if !room {
                    return Ok(Ranged::TooMany);
                }
            }
        }
    }
}

/// A set of the mode whose range lies in none of those found, or the step that shows that there is none.
fn find_uncovered<O: Oracle>(
    alloc: Global,
    oracle: &mut O,
    budget: &mut Budget,
    mode: Mode,
    found: &Ranges,
) -> Result<Found, Halt>
    requires { AreFound (O.framework oracle.old) (O.log oracle.old) mode found.now }
    ensures uncovered { IfOk result (IsUncovered (O.framework oracle.old) (O.log oracle.new) mode found.now) }
    ensures ran { Ran O.Oracle (λ f. MadeForRanges f mode) (closes result) oracle.old oracle.new budget.old budget.new
        (halt_of result) }
{
    let _members = oracle.members();
    let wanted = Wanted {
        ins: &[],
        outs: &[],
        ranged: &[],
        asks: found.asks.as_slice(),
    };
    search_for(alloc, oracle, budget, mode_atom(mode), &wanted)
}

/// A set with a widest range that holds the set's, with one more side clause, that something is not in that range.
fn grow_range<O: Oracle>(
    alloc: Global,
    oracle: &mut O,
    budget: &mut Budget,
    mode: Mode,
    found: &mut Ranges,
    set: &NumSet,
) -> Result<Widest, Halt>
    requires kind { is_assumption_based (O.framework oracle.old) ≡ false }
    requires set { IsUncovered (O.framework oracle.old) (O.log oracle.old) mode found.old (Found.Set set.now) }
    ensures grows { IfOk result (GrowsRange (O.framework oracle.old) (O.log oracle.new) mode set.now found.old
        found.new) }
    ensures ran { Ran O.Oracle (λ f. MadeForRanges f mode) 1 oracle.old oracle.new budget.old budget.new
        (halt_of result) }
{
    let widest = widest_in(alloc, oracle, budget, mode, set)?;
    let ask = oblige_wider(alloc, oracle, budget, mode, &widest)?;
    found.asks.push(ask)?;
    Ok(widest)
}

/// Lists all sets with a widest range that holds that of the one that was found. False says that the list is longer
/// than the limit then.
fn record_range<O: Oracle>(
    alloc: Global,
    oracle: &mut O,
    budget: &mut Budget,
    mode: Mode,
    limit: usize,
    found: &mut Ranges,
    set: &NumSet,
) -> Result<bool, Halt>
    requires found { AreFound (O.framework oracle.old) (O.log oracle.old) mode found.old }
    requires room { length found.old.sets.items ≤ limit }
    requires set { IsUncovered (O.framework oracle.old) (O.log oracle.old) mode found.old (Found.Set set.now) }
    ensures records { IfOk result (Records (O.framework oracle.old) (O.log oracle.new) mode limit found.old
        found.new) }
    ensures ran { Ran O.Oracle (λ f. MadeForRanges f mode) 2 oracle.old oracle.new budget.old budget.new
        (halt_of result) }
{
    let _members = oracle.members();
    let widest = grow_range(alloc, oracle, budget, mode, found, set)?;
    let room = limit - found.sets.len();
    match all_with_range(
        alloc,
        oracle,
        budget,
        mode,
        widest.range.as_slice(),
        room,
        &widest.set,
    )? {
        Listed::TooMany => Ok(false),
        Listed::Whole(sets, step) => {
            insert_all(
                alloc,
                &mut found.sets,
                &mut found.marks,
                sets.as_slice(),
                step,
            )?;
            Ok(true)
        }
    }
}
