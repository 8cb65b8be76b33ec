//! A search for goals about sets.

ghost use Rattle.std.specs.Prelude.{IfOk};
ghost use Rattle.oracle_face.specs.Goals.{IsSide};
ghost use Rattle.oracle_face.specs.Growing.{IsFound, closes, halt_of};
ghost use Rattle.goal_lists.specs.Asking.{IsAskable, IsAskableAbout, IsAskableBeside, goals_of, query_goals};
ghost use Rattle.goal_lists.specs.Sides.{IsFoundBeside};
ghost use Rattle.goal_lists.specs.Runs.{MadeNone, MadeOnly, Ran};

use crate::goals::{Wanted, goals_about, goals_for, query_literal};
use meaning_atoms::{Atom, AtomLit};
use oracle_face::{AskId, Budget, Found, Halt, Oracle};
use set_lists::NumSet;
use std::alloc::Global;

/// A set of the mode that is as wanted, or the step that refutes that there is one. It asks the oracle once.
pub fn search_for<O: Oracle>(
    alloc: Global,
    oracle: &mut O,
    budget: &mut Budget,
    mode: Atom,
    wanted: &Wanted<'_>,
) -> Result<Found, Halt>
    requires { IsAskable (O.framework oracle.old) (O.log oracle.old).sides mode wanted.now.ins.now wanted.now.outs.now
        wanted.now.ranged.now wanted.now.asks.now }
    ensures found { IfOk result (IsFound (O.framework oracle.old) (O.log oracle.new)
        (goals_of mode wanted.now.ins.now wanted.now.outs.now wanted.now.ranged.now wanted.now.asks.now)) }
    ensures ran { Ran O.Oracle MadeNone (closes result) oracle.old oracle.new budget.old budget.new (halt_of result) }
{
    let _members = oracle.members();
    let goals = goals_for(alloc, mode, wanted)?;
    oracle.find(alloc, &goals, budget)
}

/// A set of the mode that accepts the query, an argument or an atom of the framework, or where `accepted` is false, one
/// that doesn't, and that makes the side clauses true; or the step that refutes that there is one. It asks the oracle
/// once.
pub fn search_query<O: Oracle>(
    alloc: Global,
    oracle: &mut O,
    budget: &mut Budget,
    mode: Atom,
    query: u32,
    accepted: bool,
    asks: &[AskId],
) -> Result<Found, Halt>
    requires { IsAskableAbout (O.framework oracle.old) (O.log oracle.old).sides mode query asks.now }
    ensures found { IfOk result (IsFound (O.framework oracle.old) (O.log oracle.new)
        (query_goals (O.framework oracle.old) mode query accepted asks.now)) }
    ensures ran { Ran O.Oracle MadeNone (closes result) oracle.old oracle.new budget.old budget.new (halt_of result) }
{
    let _members = oracle.members();
    let literal = query_literal(oracle.is_aba(), query, accepted);
    let goals = goals_about(alloc, mode, literal, asks)?;
    oracle.find(alloc, &goals, budget)
}

/// A set of the mode that is as wanted and makes a side clause true, or the step that refutes that there is one. The
/// side clause is kept with the set that it is made from, and stands in place of those of `wanted`. It asks the oracle
/// once.
pub fn search_beside<O: Oracle>(
    alloc: Global,
    oracle: &mut O,
    budget: &mut Budget,
    mode: Atom,
    wanted: &Wanted<'_>,
    side: &[AtomLit],
    from: &NumSet,
) -> Result<Found, Halt>
    requires side { IsSide side.now }
    requires beside { IsAskableBeside (O.framework oracle.old) mode wanted.now.ins.now wanted.now.outs.now
        wanted.now.ranged.now side.now }
    ensures found { IfOk result (IsFoundBeside (O.framework oracle.old) (O.log oracle.new) mode wanted.now.ins.now
        wanted.now.outs.now wanted.now.ranged.now side.now) }
    ensures ran { Ran O.Oracle (MadeOnly side.now from.now) (closes result) oracle.old oracle.new budget.old budget.new
        (halt_of result) }
{
    let ask = oracle.oblige(alloc, side, from, budget)?;
    let beside = Wanted {
        ins: wanted.ins,
        outs: wanted.outs,
        ranged: wanted.ranged,
        asks: &[ask],
    };
    search_for(alloc, oracle, budget, mode, &beside)
}
