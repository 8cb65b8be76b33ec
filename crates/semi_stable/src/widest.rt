//! The growing of a set by its range.

ghost use Rattle.std.specs.Prelude.{◌≡◌, false, IfOk};
ghost use Rattle.lists.specs.Members.{IsSetOf};
ghost use Rattle.meaning_atoms.specs.Worlds.{HoldsOf};
ghost use Rattle.certificate_claims.specs.Claims.{mode_atom};
ghost use Rattle.certificate_claims.specs.SetLiterals.{wider as wider_of};
ghost use Rattle.oracle_face.specs.Growing.{closes, halt_of};
ghost use Rattle.oracle_face.specs.Kinds.{IsRanged, is_assumption_based};
ghost use Rattle.semi_stable.specs.Widest.{HasRange, IsWider, IsWidestFrom, MadeWider};
ghost use Rattle.goal_lists.specs.Sides.{IsAskOf};
ghost use Rattle.goal_lists.specs.Runs.{Ran};

use certificate_claims::mode_atom;
use goal_lists::{Wanted, search_beside, wider as wider_than};
use oracle_face::{AskId, Budget, Found, Halt, Oracle, StepId};
use semantics::Mode;
use set_lists::NumSet;
use std::alloc::Global;

/// A set with a widest range, its range, and the log step that refutes that another of its mode has all of that range
/// and more.
#[derive(Drop)]
pub struct Widest {
    pub set: NumSet,
    pub range: NumSet,
    pub refutation: StepId,
}

/// A set of the mode with all of a set's range and more, or the step that refutes that there is one.
fn wider<O: Oracle>(
    alloc: Global,
    oracle: &mut O,
    budget: &mut Budget,
    mode: Mode,
    set: &NumSet,
    range: &NumSet,
) -> Result<Found, Halt>
    requires kind { is_assumption_based (O.framework oracle.old) ≡ false }
    requires holds { HoldsOf (O.framework oracle.old) set.now (mode_atom mode) }
    requires range { IsSetOf (IsRanged (O.framework oracle.old) set.now) range.now }
    ensures wider { IfOk result (IsWider (O.framework oracle.old) (O.log oracle.new) mode set.now) }
    ensures ran { Ran O.Oracle (λ f. MadeWider f mode) (closes result) oracle.old oracle.new budget.old budget.new
        (halt_of result) }
{
    let side = wider_than(alloc, oracle.members(), range)?;
    let wanted = Wanted {
        ins: &[],
        outs: &[],
        ranged: range.as_slice(),
        asks: &[],
    };
    search_beside(alloc, oracle, budget, mode_atom(mode), &wanted, &side, set)
}

/// Grows a set of a mode, in an abstract framework, to one whose range holds that of the set and is part of no other of
/// the mode: by the mode `Cf` a stage set, by `Ad` a semi-stable set. The search goes on from what each search finds:
/// where the range grows k times, it asks k + 1 times. An oracle that tries members first finds a set that holds as
/// much as it can, and so grows the range far at once. The halt is the oracle's, or want of memory; the oracle keeps
/// what it has learned.
pub fn widest_in<O: Oracle>(
    alloc: Global,
    oracle: &mut O,
    budget: &mut Budget,
    mode: Mode,
    set: &NumSet,
) -> Result<Widest, Halt>
    requires kind { is_assumption_based (O.framework oracle.old) ≡ false }
    requires holds { HoldsOf (O.framework oracle.old) set.now (mode_atom mode) }
    ensures widest { IfOk result (IsWidestFrom (O.framework oracle.old) (O.log oracle.new) mode set.now) }
    ensures ran { Ran O.Oracle (λ f. MadeWider f mode) 1 oracle.old oracle.new budget.old budget.new (halt_of result) }
{
    let _members = oracle.members();
    let mut grown = set.copy(alloc)?;
    loop {
        let range = oracle.range(alloc, &grown)?;
        match wider(alloc, oracle, budget, mode, &grown, &range)? {
            Found::Set(found) => grown = found,
            Found::Refuted(refutation) => {
                return Ok(Widest {
                    set: grown,
                    range,
                    refutation,
                });
            }
        }
    }
}

/// Keeps the side clause that something is in the range that isn't in that of a set of the mode, and gives its number.
pub fn oblige_wider<O: Oracle>(
    alloc: Global,
    oracle: &mut O,
    budget: &mut Budget,
    mode: Mode,
    widest: &Widest,
) -> Result<AskId, Halt>
    requires { HasRange (O.framework oracle.old) mode widest.now }
    ensures asked { IfOk result (IsAskOf (O.log oracle.new).sides (wider_of (O.framework oracle.old) widest.now.set)) }
    ensures ran { Ran O.Oracle (λ f. MadeWider f mode) 0 oracle.old oracle.new budget.old budget.new (halt_of result) }
{
    let side = wider_than(alloc, oracle.members(), &widest.range)?;
    oracle.oblige(alloc, &side, &widest.set, budget)
}
