//! All sets of a mode.

ghost use Rattle.std.specs.Prelude.{◌≤◌, [], length, IfOk};
ghost use Rattle.lists.specs.Members.{IsWithin};
ghost use Rattle.meaning_atoms.specs.Worlds.{HoldsOf};
ghost use Rattle.certificate_claims.specs.Claims.{mode_atom};
ghost use Rattle.certificate_claims.specs.SetLiterals.{differs as differs_of, members};
ghost use Rattle.oracle_face.specs.Growing.{closes, halt_of};
ghost use Rattle.enumerate_block.specs.Modes.{IsAllOrMore, IsAmong, IsFurtherOf, IsListing, IsListMode};
ghost use Rattle.enumerate_block.specs.Modes.{MadeDiffers, Records, base_mode};
ghost use Rattle.goal_lists.specs.Runs.{Ran};
ghost use Rattle.goal_lists.specs.Sides.{IsAskOf};

use crate::ordered::insert_in_order;
use certificate_claims::mode_atom;
use goal_lists::{Wanted, differs, search_for};
use lists::Items;
use meaning_atoms::Atom;
use oracle_face::{AskId, Budget, Found, Halt, Oracle, StepId};
use semantics::Mode;
use set_lists::NumSet;
use std::alloc::Global;

/// What came of listing sets.
#[derive(Drop)]
pub enum Listed {
    /// All of them, in the order of their lists, and the log step that shows that there is no other.
    Whole(Vec<NumSet>, StepId),
    /// More than the limit were found.
    TooMany,
}

/// Sets found, in the order of their lists, and the side clauses that a set differs from each.
#[derive(Drop)]
struct Listing {
    sets: Vec<NumSet>,
    asks: Items<AskId>,
}

/// All conflict-free, admissible, complete or stable sets, as the mode says, at most so many. Where there are k, it
/// asks k + 1 times.
pub fn all_with_mode<O: Oracle>(
    alloc: Global,
    oracle: &mut O,
    budget: &mut Budget,
    mode: Atom,
    limit: usize,
) -> Result<Listed, Halt>
    requires { IsListMode mode }
    ensures listed { IfOk result (IsAllOrMore (O.framework oracle.old) (O.log oracle.new) mode [] limit) }
    ensures ran { Ran O.Oracle (λ f. MadeDiffers f mode) 1 oracle.old oracle.new budget.old budget.new
        (halt_of result) }
{
    let _members = oracle.members();
    let listing = Listing {
        sets: Vec::new(alloc),
        asks: Items::new(alloc),
    };
    list_on(alloc, oracle, budget, mode, &[], limit, listing)
}

/// All sets of the mode with these members of the framework in their range, of which one is known, at most so many.
/// Where there are k, it asks k times.
pub fn all_with_range<O: Oracle>(
    alloc: Global,
    oracle: &mut O,
    budget: &mut Budget,
    mode: Mode,
    range: &[u32],
    limit: usize,
    known: &NumSet,
) -> Result<Listed, Halt>
    requires range { IsWithin range.now (members (O.framework oracle.old)) }
    requires known { IsAmong (O.framework oracle.old) (mode_atom mode) range.now known.now }
    ensures listed { IfOk result (IsAllOrMore (O.framework oracle.old) (O.log oracle.new) (mode_atom mode) range.now
        limit) }
    ensures ran { Ran O.Oracle (λ f. MadeDiffers f (mode_atom mode)) 1 oracle.old oracle.new budget.old budget.new
        (halt_of result) }
{
    let _members = oracle.members();
    let atom = mode_atom(mode);
    let mut listing = Listing {
        sets: Vec::new(alloc),
        asks: Items::new(alloc),
    };
    let room = record_set(
        alloc,
        oracle,
        budget,
        atom,
        range,
        limit,
        &mut listing,
        known,
    )?;
    if !room {
        return Ok(Listed::TooMany);
    }
    list_on(alloc, oracle, budget, atom, range, limit, listing)
}

/// All sets of the mode with these in their range, of which some are listed, at most so many.
fn list_on<O: Oracle>(
    alloc: Global,
    oracle: &mut O,
    budget: &mut Budget,
    mode: Atom,
    range: &[u32],
    limit: usize,
    start: Listing,
) -> Result<Listed, Halt>
    requires mode { IsListMode mode }
    requires range { IsWithin range.now (members (O.framework oracle.old)) }
    requires start { IsListing (O.framework oracle.old) (O.log oracle.old) mode range.now start }
    requires room { length start.sets.items ≤ limit }
    ensures listed { IfOk result (IsAllOrMore (O.framework oracle.old) (O.log oracle.new) mode range.now limit) }
    ensures ran { Ran O.Oracle (λ f. MadeDiffers f mode) 1 oracle.old oracle.new budget.old budget.new
        (halt_of result) }
{
    let _members = oracle.members();
    let mut listing = start;
    loop {
        match find_further(alloc, oracle, budget, mode, range, &listing)? {
            Found::Refuted(step) => return Ok(Listed::Whole(listing.sets, step)),
            Found::Set(set) => {
                let room = record_set(
                    alloc,
                    oracle,
                    budget,
                    mode,
                    range,
                    limit,
                    &mut listing,
                    &set,
                )?;
                if !room {
                    return Ok(Listed::TooMany);
                }
            }
        }
    }
}

/// A set of the mode with these in its range that isn't listed, or the step that shows that there is none.
fn find_further<O: Oracle>(
    alloc: Global,
    oracle: &mut O,
    budget: &mut Budget,
    mode: Atom,
    range: &[u32],
    listing: &Listing,
) -> Result<Found, Halt>
    requires mode { IsListMode mode }
    requires range { IsWithin range.now (members (O.framework oracle.old)) }
    requires listing { IsListing (O.framework oracle.old) (O.log oracle.old) mode range.now listing.now }
    ensures further { IfOk result (IsFurtherOf (O.framework oracle.old) (O.log oracle.new) mode range.now listing.now) }
    ensures ran { Ran O.Oracle (λ f. MadeDiffers f mode) (closes result) oracle.old oracle.new budget.old budget.new
        (halt_of result) }
{
    let _members = oracle.members();
    let wanted = Wanted {
        ins: &[],
        outs: &[],
        ranged: range,
        asks: listing.asks.as_slice(),
    };
    search_for(alloc, oracle, budget, mode, &wanted)
}

/// Lists a set that was found. False says that the list is longer than the limit then.
fn record_set<O: Oracle>(
    alloc: Global,
    oracle: &mut O,
    budget: &mut Budget,
    mode: Atom,
    range: &[u32],
    limit: usize,
    listing: &mut Listing,
    set: &NumSet,
) -> Result<bool, Halt>
    requires mode { IsListMode mode }
    requires listing { IsListing (O.framework oracle.old) (O.log oracle.old) mode range.now listing.old }
    requires set { IsFurtherOf (O.framework oracle.old) (O.log oracle.old) mode range.now listing.old
        (Found.Set set.now) }
    ensures records { IfOk result (Records (O.framework oracle.old) (O.log oracle.new) mode range.now limit set.now
        listing.old listing.new) }
    ensures ran { Ran O.Oracle (λ f. MadeDiffers f mode) 0 oracle.old oracle.new budget.old budget.new
        (halt_of result) }
{
    let _members = oracle.members();
    insert_in_order(&mut listing.sets, set.copy(alloc)?)?;
    if listing.sets.len() > limit {
        return Ok(false);
    }
    let ask = oblige_differs(alloc, oracle, budget, mode, set)?;
    listing.asks.push(ask)?;
    Ok(true)
}

/// Keeps the side clause that a set differs from one that was found by the mode, and gives its number.
fn oblige_differs<O: Oracle>(
    alloc: Global,
    oracle: &mut O,
    budget: &mut Budget,
    mode: Atom,
    set: &NumSet,
) -> Result<AskId, Halt>
    requires { HoldsOf (O.framework oracle.old) set.now (base_mode mode) }
    ensures asked { IfOk result (IsAskOf (O.log oracle.new).sides (differs_of (O.framework oracle.old) set.now)) }
    ensures ran { Ran O.Oracle (λ f. MadeDiffers f mode) 0 oracle.old oracle.new budget.old budget.new
        (halt_of result) }
{
    let side = differs(alloc, oracle.members(), set)?;
    oracle.oblige(alloc, &side, set, budget)
}
