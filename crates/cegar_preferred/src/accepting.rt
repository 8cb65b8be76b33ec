//! Whether all preferred sets accept a query.

ghost use Rattle.std.specs.Prelude.{IfOk};
ghost use Rattle.oracle_face.specs.Growing.{closes, halt_of};
ghost use Rattle.edit_rules.specs.Fitting.{IsKnown};
ghost use Rattle.cegar_preferred.specs.Covers.{Extends, IsAccepting, IsCover, IsUncovered};
ghost use Rattle.cegar_preferred.specs.Largest.{MadeOutside};
ghost use Rattle.goal_lists.specs.Runs.{Ran, RanInAll};

use crate::maximal::{Maximal, maximal_from, oblige_outside};
use goal_lists::search_query;
use lists::Items;
use meaning_atoms::Atom;
use oracle_face::{AskId, Budget, Found, Halt, Oracle, StepId};
use set_lists::NumSet;
use std::alloc::Global;

/// What came of asking whether all preferred sets accept a query.
#[derive(Drop)]
pub enum Accepting {
    /// A preferred set that doesn't.
    Counter(Maximal),
    /// Admissible sets that accept it, in one of which each admissible set lies that doesn't, and the log step that
    /// shows so: all preferred sets accept the query.
    Cover(Items<NumSet>, StepId),
}

/// Sets of a cover, and the side clauses that something lies outside each.
#[derive(Drop)]
struct Cover {
    sets: Items<NumSet>,
    asks: Items<AskId>,
}

/// Whether all preferred sets accept a query, an argument or an atom of the framework. Where k preferred sets are
/// found, it asks k + 1 times for a set that the cover lacks, besides what it asks to find them.
pub fn accept_all<O: Oracle>(
    alloc: Global,
    oracle: &mut O,
    budget: &mut Budget,
    goal: u32,
) -> Result<Accepting, Halt>
    requires { IsKnown (O.framework oracle.old) goal }
    ensures accepting { IfOk result (IsAccepting (O.framework oracle.old) (O.log oracle.new) goal) }
    ensures ran { RanInAll O.Oracle MadeOutside oracle.old oracle.new budget.old budget.new (halt_of result) }
{
    let _members = oracle.members();
    let mut cover = Cover {
        sets: Items::new(alloc),
        asks: Items::new(alloc),
    };
    loop {
        match find_uncovered(alloc, oracle, budget, goal, &cover)? {
            Found::Refuted(step) => return Ok(Accepting::Cover(cover.sets, step)),
            Found::Set(set) => match extend(alloc, oracle, budget, goal, &mut cover, &set)? {
                Some(counter) => return Ok(Accepting::Counter(counter)),
                None => {}
            },
        }
    }
}

/// An admissible set that doesn't accept the query and lies in no set of the cover, or the step that shows that
/// there is none.
fn find_uncovered<O: Oracle>(
    alloc: Global,
    oracle: &mut O,
    budget: &mut Budget,
    goal: u32,
    cover: &Cover,
) -> Result<Found, Halt>
    requires goal { IsKnown (O.framework oracle.old) goal }
    requires cover { IsCover (O.framework oracle.old) (O.log oracle.old) goal cover.now }
    ensures uncovered { IfOk result (IsUncovered (O.framework oracle.old) (O.log oracle.new) goal cover.now) }
    ensures ran { Ran O.Oracle MadeOutside (closes result) oracle.old oracle.new budget.old budget.new
        (halt_of result) }
{
    let _members = oracle.members();
    search_query(
        alloc,
        oracle,
        budget,
        Atom::Ad,
        goal,
        false,
        cover.asks.as_slice(),
    )
}

/// Takes a preferred set that holds the found one into the cover, or gives it back where it doesn't accept the
/// query.
fn extend<O: Oracle>(
    alloc: Global,
    oracle: &mut O,
    budget: &mut Budget,
    goal: u32,
    cover: &mut Cover,
    set: &NumSet,
) -> Result<Option<Maximal>, Halt>
    requires cover { IsCover (O.framework oracle.old) (O.log oracle.old) goal cover.old }
    requires set { IsUncovered (O.framework oracle.old) (O.log oracle.old) goal cover.old (Found.Set set.now) }
    ensures extends { IfOk result (Extends (O.framework oracle.old) (O.log oracle.new) goal cover.old cover.new) }
    ensures ran { Ran O.Oracle MadeOutside 1 oracle.old oracle.new budget.old budget.new (halt_of result) }
{
    let maximal = maximal_from(alloc, oracle, budget, set)?;
    let accepts = oracle.accepts(alloc, goal, &maximal.set)?;
    if !accepts {
        return Ok(Some(maximal));
    }
    let ask = oblige_outside(alloc, oracle, budget, &maximal.set)?;
    cover.asks.push(ask)?;
    cover.sets.push(maximal.set)?;
    Ok(None)
}
