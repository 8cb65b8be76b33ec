//! Whether some set of a mode with a widest range makes a literal about membership true.

ghost use Rattle.std.specs.Prelude.{◌≡◌, [], ◌∷◌, false, Contains, IfOk, OnOk};
ghost use Rattle.certificate_claims.specs.Claims.{mode_atom};
ghost use Rattle.certificate_claims.specs.SetLiterals.{members};
ghost use Rattle.goal_lists.specs.Asking.{IsAskable, goals_of};
ghost use Rattle.oracle_face.specs.Kinds.{is_assumption_based};
ghost use Rattle.oracle_face.specs.Growing.{IsFound, closes, halt_of};
ghost use Rattle.enumerate_block.specs.semi_stable.specs.Widest.{HasRange, MadeWider};
ghost use Rattle.enumerate_block.specs.Witnesses.{AreWanted, Extends, IsCover, IsDecided, IsMadeWithin};
ghost use Rattle.enumerate_block.specs.Witnesses.{IsUncovered, Takes, ins_of, outs_of};
ghost use Rattle.goal_lists.specs.Runs.{Ran, RanInAll};

use certificate_claims::mode_atom;
use goal_lists::{Wanted, search_for};
use lists::{Items, Memory};
use oracle_face::{AskId, Budget, Found, Halt, Oracle, StepId};
use semantics::Mode;
use semi_stable::{Widest, oblige_wider, widest_in};
use set_lists::NumSet;
use std::alloc::Global;

/// What came of asking whether a set of a mode with a widest range makes a literal about membership true.
#[derive(Drop)]
pub enum Deciding {
    /// A set that does, its range, and the log step that refutes that another of the mode has all of that range and
    /// more.
    Witness(Widest),
    /// Sets of the mode, in one of whose ranges lies the range of each set of the mode that makes the literal true. The
    /// first step shows that; then there is one for each set in order, which shows that no set of the mode that makes
    /// the literal true has all of its range.
    NoWitness(Items<NumSet>, Items<StepId>),
}

/// Sets with widest ranges, for each the step that shows that no set that makes the literal true has all of its range,
/// and the side clauses that something is in the range that isn't in one of theirs.
#[derive(Drop)]
struct RangeCover {
    sets: Items<NumSet>,
    steps: Items<StepId>,
    asks: Items<AskId>,
}

/// Whether a set of the mode with a widest range, in an abstract framework, accepts an argument, or where `accepted` is
/// false, whether one doesn't. Where r widest ranges are found, it asks r + 1 times at most for a set whose range lies
/// in none of them, and r times for a set that has one of them, besides what it asks to grow each range.
pub fn decide<O: Oracle>(
    alloc: Global,
    oracle: &mut O,
    budget: &mut Budget,
    mode: Mode,
    goal: u32,
    accepted: bool,
) -> Result<Deciding, Halt>
    requires kind { is_assumption_based (O.framework oracle.old) ≡ false }
    requires goal { Contains (members (O.framework oracle.old)) goal }
    ensures decided { IfOk result (IsDecided (O.framework oracle.old) (O.log oracle.new) mode goal accepted) }
    ensures ran { RanInAll O.Oracle (λ f. MadeWider f mode) oracle.old oracle.new budget.old budget.new
        (halt_of result) }
{
    let _members = oracle.members();
    let mut cover = RangeCover {
        sets: Items::new(alloc),
        steps: Items::new(alloc),
        asks: Items::new(alloc),
    };
    loop {
        match find_uncovered(alloc, oracle, budget, mode, goal, accepted, &cover)? {
            Found::Refuted(step) => {
                let steps = with_first(step, cover.steps)?;
                return Ok(Deciding::NoWitness(cover.sets, steps));
            }
            Found::Set(set) => {
                match extend(
                    alloc, oracle, budget, mode, goal, accepted, &mut cover, &set,
                )? {
                    Some(witness) => return Ok(Deciding::Witness(witness)),
                    None => {}
                }
            }
        }
    }
}

/// A step, and then others.
fn with_first(step: StepId, steps: Items<StepId>) -> Result<Items<StepId>, Memory>
    ensures { IfOk result (λ all. all ≡ step ∷ steps) }
{
    let mut all = steps.into_vec();
    all.insert(0, step)?;
    Ok(Items::from_vec(all))
}

/// What is wanted of a set that has the one argument of `goal` or hasn't it, has these in its range and makes the side
/// clauses true.
fn goals_wanted<'a>(
    goal: &'a [u32],
    accepted: bool,
    ranged: &'a [u32],
    asks: &'a [AskId],
) -> Wanted<'a>
    ensures { AreWanted accepted goal.now ranged.now asks.now result.ins.now result.outs.now result.ranged.now
        result.asks.now }
{
    if accepted {
        return Wanted {
            ins: goal,
            outs: &[],
            ranged,
            asks,
        };
    }
    Wanted {
        ins: &[],
        outs: goal,
        ranged,
        asks,
    }
}

/// A set of the mode that makes the literal true, has these in its range and makes the side clauses true; or the step
/// that refutes that there is one.
fn find_with<O: Oracle>(
    alloc: Global,
    oracle: &mut O,
    budget: &mut Budget,
    mode: Mode,
    goal: u32,
    accepted: bool,
    ranged: &[u32],
    asks: &[AskId],
) -> Result<Found, Halt>
    requires { IsAskable (O.framework oracle.old) (O.log oracle.old).sides (mode_atom mode)
        (ins_of accepted (goal ∷ [])) (outs_of accepted (goal ∷ [])) ranged.now asks.now }
    ensures found { IfOk result (IsFound (O.framework oracle.old) (O.log oracle.new) (goals_of (mode_atom mode)
        (ins_of accepted (goal ∷ [])) (outs_of accepted (goal ∷ [])) ranged.now asks.now)) }
    ensures ran { Ran O.Oracle (λ f. MadeWider f mode) (closes result) oracle.old oracle.new budget.old budget.new
        (halt_of result) }
{
    let goals = [goal];
    let wanted = goals_wanted(&goals, accepted, ranged, asks);
    search_for(alloc, oracle, budget, mode_atom(mode), &wanted)
}

/// A set of the mode that makes the literal true and whose range lies in none of those of the cover, or the step that
/// shows that there is none.
fn find_uncovered<O: Oracle>(
    alloc: Global,
    oracle: &mut O,
    budget: &mut Budget,
    mode: Mode,
    goal: u32,
    accepted: bool,
    cover: &RangeCover,
) -> Result<Found, Halt>
    requires goal { Contains (members (O.framework oracle.old)) goal }
    requires cover { IsCover (O.framework oracle.old) (O.log oracle.old) mode goal accepted cover.now }
    ensures uncovered { IfOk result (IsUncovered (O.framework oracle.old) (O.log oracle.new) mode goal accepted
        cover.now) }
    ensures ran { Ran O.Oracle (λ f. MadeWider f mode) (closes result) oracle.old oracle.new budget.old budget.new
        (halt_of result) }
{
    let _members = oracle.members();
    let asks = cover.asks.as_slice();
    find_with(alloc, oracle, budget, mode, goal, accepted, &[], asks)
}

/// A set of the mode that makes the literal true and has all of a set's range, or the step that shows that there is
/// none.
fn within_range<O: Oracle>(
    alloc: Global,
    oracle: &mut O,
    budget: &mut Budget,
    mode: Mode,
    goal: u32,
    accepted: bool,
    widest: &Widest,
) -> Result<Found, Halt>
    requires goal { Contains (members (O.framework oracle.old)) goal }
    requires range { HasRange (O.framework oracle.old) mode widest.now }
    ensures within { IfOk result (IsMadeWithin (O.framework oracle.old) (O.log oracle.new) mode goal accepted
        widest.now.set) }
    ensures ran { Ran O.Oracle (λ f. MadeWider f mode) (closes result) oracle.old oracle.new budget.old budget.new
        (halt_of result) }
{
    let _members = oracle.members();
    let range = widest.range.as_slice();
    find_with(alloc, oracle, budget, mode, goal, accepted, range, &[])
}

/// Grows the range of the set that was found. Gives a set of the mode with the grown range that makes the literal true,
/// or takes the range into the cover.
fn extend<O: Oracle>(
    alloc: Global,
    oracle: &mut O,
    budget: &mut Budget,
    mode: Mode,
    goal: u32,
    accepted: bool,
    cover: &mut RangeCover,
    set: &NumSet,
) -> Result<Option<Widest>, Halt>
    requires kind { is_assumption_based (O.framework oracle.old) ≡ false }
    requires goal { Contains (members (O.framework oracle.old)) goal }
    requires set { IsUncovered (O.framework oracle.old) (O.log oracle.old) mode goal accepted cover.old
        (Found.Set set.now) }
    ensures extends { IfOk result (Extends (O.framework oracle.old) (O.log oracle.new) mode goal accepted cover.old
        cover.new) }
    ensures ran { Ran O.Oracle (λ f. MadeWider f mode) 2 oracle.old oracle.new budget.old budget.new (halt_of result) }
{
    let _members = oracle.members();
    let widest = widest_in(alloc, oracle, budget, mode, set)?;
    match within_range(alloc, oracle, budget, mode, goal, accepted, &widest)? {
        Found::Set(set) => Ok(Some(Widest {
            set,
            range: widest.range,
            refutation: widest.refutation,
        })),
        Found::Refuted(step) => {
            take_range(alloc, oracle, budget, mode, cover, widest, step)?;
            Ok(None)
        }
    }
}

/// Takes a set with its range into the cover, with the step that shows that no set that makes the literal true has all
/// of that range, and with the side clause that something is not in it.
fn take_range<O: Oracle>(
    alloc: Global,
    oracle: &mut O,
    budget: &mut Budget,
    mode: Mode,
    cover: &mut RangeCover,
    widest: Widest,
    step: StepId,
) -> Result<(), Halt>
    requires { HasRange (O.framework oracle.old) mode widest }
    ensures takes { OnOk result (Takes (O.framework oracle.old) (O.log oracle.new) widest step cover.old cover.new) }
    ensures ran { Ran O.Oracle (λ f. MadeWider f mode) 0 oracle.old oracle.new budget.old budget.new (halt_of result) }
{
    let ask = oblige_wider(alloc, oracle, budget, mode, &widest)?;
    cover.asks.push(ask)?;
    cover.steps.push(step)?;
    cover.sets.push(widest.set)?;
    Ok(())
}
