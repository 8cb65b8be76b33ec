//! All preferred sets.

ghost use Rattle.std.specs.Prelude.{IfOk};
ghost use Rattle.oracle_face.specs.Growing.{closes, halt_of};
ghost use Rattle.cegar_preferred.specs.Largest.{MadeOutside};
ghost use Rattle.enumerate_block.specs.Preferred.{AreFound, IsAllOrMore, IsUncovered, Records};
ghost use Rattle.goal_lists.specs.Runs.{Ran, RanInAll};

use crate::{Listed, insert_in_order};
use cegar_preferred::{maximal_from, oblige_outside};
use goal_lists::{Wanted, search_for};
use lists::Items;
use meaning_atoms::Atom;
use oracle_face::{AskId, Budget, Found, Halt, Oracle};
use set_lists::NumSet;
use std::alloc::Global;

/// Preferred sets found, in the order of their lists, and the side clauses that something lies outside each.
#[derive(Drop)]
struct Preferred {
    sets: Vec<NumSet>,
    asks: Items<AskId>,
}

/// All preferred sets, at most so many. Where there are k, it asks k + 1 times for a set that lies in none of those
/// found, besides what it asks to grow each.
pub fn all_preferred<O: Oracle>(
    alloc: Global,
    oracle: &mut O,
    budget: &mut Budget,
    limit: usize,
) -> Result<Listed, Halt>
    ensures listed { IfOk result (IsAllOrMore (O.framework oracle.old) (O.log oracle.new) limit) }
    ensures ran { RanInAll O.Oracle MadeOutside oracle.old oracle.new budget.old budget.new (halt_of result) }
{
    let _members = oracle.members();
    let mut found = Preferred {
        sets: Vec::new(alloc),
        asks: Items::new(alloc),
    };
    loop {
        match find_uncovered(alloc, oracle, budget, &found)? {
            Found::Refuted(step) => return Ok(Listed::Whole(found.sets, step)),
            Found::Set(set) => {
                let room = record_grown(alloc, oracle, budget, limit, &mut found, &set)?;
                if !room {
                    return Ok(Listed::TooMany);
                }
            }
        }
    }
}

/// An admissible set that lies in none of the sets found, or the step that shows that there is none.
fn find_uncovered<O: Oracle>(
    alloc: Global,
    oracle: &mut O,
    budget: &mut Budget,
    found: &Preferred,
) -> Result<Found, Halt>
    requires { AreFound (O.framework oracle.old) (O.log oracle.old) found.now }
    ensures uncovered { IfOk result (IsUncovered (O.framework oracle.old) (O.log oracle.new) found.now) }
    ensures ran { Ran O.Oracle MadeOutside (closes result) oracle.old oracle.new budget.old budget.new
        (halt_of result) }
{
    let _members = oracle.members();
    let wanted = Wanted {
        ins: &[],
        outs: &[],
        ranged: &[],
        asks: found.asks.as_slice(),
    };
    search_for(alloc, oracle, budget, Atom::Ad, &wanted)
}

/// Lists a preferred set that holds the one that was found. False says that the list is longer than the limit then.
fn record_grown<O: Oracle>(
    alloc: Global,
    oracle: &mut O,
    budget: &mut Budget,
    limit: usize,
    found: &mut Preferred,
    set: &NumSet,
) -> Result<bool, Halt>
    requires found { AreFound (O.framework oracle.old) (O.log oracle.old) found.old }
    requires set { IsUncovered (O.framework oracle.old) (O.log oracle.old) found.old (Found.Set set.now) }
    ensures records { IfOk result (Records (O.framework oracle.old) (O.log oracle.new) limit found.old found.new) }
    ensures ran { Ran O.Oracle MadeOutside 1 oracle.old oracle.new budget.old budget.new (halt_of result) }
{
    let _members = oracle.members();
    let maximal = maximal_from(alloc, oracle, budget, set)?;
    insert_in_order(&mut found.sets, maximal.set.copy(alloc)?)?;
    if found.sets.len() > limit {
        return Ok(false);
    }
    let ask = oblige_outside(alloc, oracle, budget, &maximal.set)?;
    found.asks.push(ask)?;
    Ok(true)
}
