//! The search for the ideal set.

ghost use Rattle.std.specs.Prelude.{IfOk};
ghost use Rattle.oracle_face.specs.Growing.{halt_of};
ghost use Rattle.ideal_set.specs.Ideals.{AreAttackers, Attacks, HasTurned, IsAsked, IsCutDown, IsFree, IsIdealFound};
ghost use Rattle.ideal_set.specs.Ideals.{MadeForIdeal, turn_closes};
ghost use Rattle.goal_lists.specs.Runs.{Ran, RanInAll};

use crate::attackers::{Attackers, attacker, cut_grown, prune};
use crate::free::{Free, largest_free};
use lists::Items;
use oracle_face::{Budget, Found, Halt, Oracle, StepId};
use set_lists::NumSet;
use std::alloc::Global;

/// The ideal set with what shows it: admissible sets, the log step that refutes that an admissible set attacks the
/// ideal set, and the one that refutes that a larger admissible set holds nothing that those sets attack.
#[derive(Drop)]
pub struct IdealSet {
    pub set: NumSet,
    pub others: Items<NumSet>,
    pub unattacked: StepId,
    pub largest: StepId,
}

/// A set that was grown to its end, without what admissible sets attack.
#[derive(Drop)]
enum Turn {
    /// None of them attacks it, as the step shows.
    Unattacked(Free, StepId),
    /// This one does.
    AttackedBy(Free, NumSet),
}

/// The ideal set. An admissible set is grown to its end. Where admissible sets attack it, it
/// is cut down until none attacks what is left, and grown anew without what they and the grown set attack; where none
/// does, it is ideal. With k such sets and n times that a set was cut down and grown, it asks k + n + 1 times for one,
/// besides what it asks to grow.
pub fn ideal<O: Oracle>(
    alloc: Global,
    oracle: &mut O,
    budget: &mut Budget,
) -> Result<IdealSet, Halt>
    ensures ideal { IfOk result (IsIdealFound (O.framework oracle.old) (O.log oracle.new)) }
    ensures ran { RanInAll O.Oracle MadeForIdeal oracle.old oracle.new budget.old budget.new (halt_of result) }
{
    let _members = oracle.members();
    let mut found = Attackers {
        sets: Items::new(alloc),
        hit: NumSet::new(alloc),
    };
    let mut start = NumSet::new(alloc);
    loop {
        match take_turn(alloc, oracle, budget, &found, &start)? {
            Turn::Unattacked(free, unattacked) => {
                return Ok(IdealSet {
                    set: free.set,
                    others: found.sets,
                    unattacked,
                    largest: free.refutation,
                });
            }
            Turn::AttackedBy(free, other) => {
                start = cut_down(alloc, oracle, budget, &mut found, &free.set, other)?;
            }
        }
    }
}

/// Grows a set to its end, and asks for an admissible set that attacks it.
fn take_turn<O: Oracle>(
    alloc: Global,
    oracle: &mut O,
    budget: &mut Budget,
    found: &Attackers,
    start: &NumSet,
) -> Result<Turn, Halt>
    requires found { AreAttackers (O.framework oracle.old) (O.log oracle.old) found.now }
    requires start { IsFree (O.framework oracle.old) found.now.hit start.now }
    ensures turned { IfOk result (HasTurned (O.framework oracle.old) (O.log oracle.new) found.now) }
    ensures ran { Ran O.Oracle MadeForIdeal (turn_closes result) oracle.old oracle.new budget.old budget.new (halt_of
        result) }
{
    let _members = oracle.members();
    let free = largest_free(alloc, oracle, budget, &found.hit, start)?;
    match attacker(alloc, oracle, budget, &free.set)? {
        Found::Refuted(unattacked) => Ok(Turn::Unattacked(free, unattacked)),
        Found::Set(other) => Ok(Turn::AttackedBy(free, other)),
    }
}

/// Takes a set that was grown to its end, and an admissible one that attacks it. Gives what is left of it when no
/// admissible set attacks it any more.
fn cut_down<O: Oracle>(
    alloc: Global,
    oracle: &mut O,
    budget: &mut Budget,
    found: &mut Attackers,
    set: &NumSet,
    other: NumSet,
) -> Result<NumSet, Halt>
    requires found { AreAttackers (O.framework oracle.old) (O.log oracle.old) found.old }
    requires set { IsFree (O.framework oracle.old) found.old.hit set.now }
    requires attacks { Attacks (O.framework oracle.old) (O.log oracle.old) set.now (Found.Set other) }
    requires asked { IsAsked (O.framework oracle.old) (O.log oracle.old) set.now (Found.Set other) }
    ensures cut { IfOk result (IsCutDown (O.framework oracle.old) (O.log oracle.new) found.old found.new) }
    ensures ran { Ran O.Oracle MadeForIdeal 1 oracle.old oracle.new budget.old budget.new (halt_of result) }
{
    let _members = oracle.members();
    let left = cut_grown(alloc, oracle, found, set, other)?;
    prune(alloc, oracle, budget, found, &left)
}
