//! One engine over edits and queries, with what each query comes to, worked out by hand from the definitions.

ghost use Rattle.std.specs.Prelude.{◌≡◌, ◌∷◌, [], IfOk};
ghost use Rattle.edit_rules.specs.Kinds.{framework_of};
ghost use Rattle.edit_rules.specs.Replay.{IsTaken};

use crate::tests::answers::{Asked, End, ask_all};
use crate::tests::engines::{aba_engine, af_engine};
use edit_rules::{Edit, EditFault, Effect, Framework, apply};
use lists::{Items, Memory};
use oracle_core::Engine;
use std::alloc::Global;
use std::test::Fail;

/// Edits in turn, and what is asked behind them.
#[derive(Drop)]
struct Turn<'a> {
    edits: &'a [Edit],
    asks: &'static [Asked],
}

/// Edits with what is asked behind them.
fn turn_of<'a>(edits: &'a [Edit], asks: &'static [Asked]) -> Turn<'a> {
    Turn { edits, asks }
}

/// What an edit does to a framework.
fn effect_of(alloc: Global, framework: &Framework, edit: &Edit) -> Result<Effect, EditFault>
    ensures { IfOk result (λ effect. IsTaken (framework_of framework.now) effect.edit effect) }
{
    let mut after = framework.copy(alloc)?;
    apply(alloc, &mut after, edit)
}

/// Edits the engine's framework.
fn follow(alloc: Global, engine: &mut Engine, edit: &Edit) -> Option<bool> {
    let Ok(effect) = effect_of(alloc, engine.framework(), edit) else {
        return None;
    };
    engine.update(alloc, &effect).ok()?;
    Some(true)
}

/// Edits the engine's framework several times.
fn follow_all(alloc: Global, engine: &mut Engine, edits: &[Edit]) -> Option<bool> {
    for edit in edits {
        follow(alloc, engine, edit)?;
    }
    Some(true)
}

/// Whether the queries behind each turn's edits end so.
fn all_hold(alloc: Global, engine: &mut Engine, turns: &[Turn<'_>]) -> Option<bool> {
    for turn in turns {
        follow_all(alloc, engine, turn.edits)?;
        let so = ask_all(alloc, engine, turn.asks)?;
        if !so {
            return Some(false);
        }
    }
    Some(true)
}

/// Whether the queries on an abstract framework end so.
fn af_holds(
    alloc: Global,
    arguments: &[u32],
    attacks: &[(u32, u32)],
    turns: &[Turn<'_>],
) -> Option<bool> {
    let mut engine = af_engine(alloc, arguments, attacks, 1_000_000)?;
    all_hold(alloc, &mut engine, turns)
}

/// Whether the queries on the framework of a text end so.
fn aba_holds(alloc: Global, text: &str, turns: &[Turn<'_>]) -> Option<bool> {
    let mut engine = aba_engine(alloc, text)?;
    all_hold(alloc, &mut engine, turns)
}

// 1 and 2 attack each other, 2 attacks 3, and 3 and 4 attack themselves.
const RIVALS: &[(u32, u32)] = &[(1, 2), (2, 1), (2, 3), (3, 3), (4, 4)];

/// What is asked about the rivals.
const OF_RIVALS: &[Asked] = &[("EE-PR", None, 1_000_000, 10, End::Sets(&[&[1], &[2]]))];

/// What is asked where 2 is unattacked.
const OF_UNATTACKED: &[Asked] = &[
    ("SE-GR", None, 0, 10, End::Sets(&[&[2]])),
    ("EE-PR", None, 1_000_000, 10, End::Sets(&[&[2]])),
    ("DC-PR", Some(1), 1_000_000, 10, End::No),
    ("DS-PR", Some(2), 1_000_000, 10, End::Yes),
];

/// Attacks go and come back, and with them what they kept out.
#[test]
fn follows_edits_of_attacks(rt: HostRuntime) -> Result<(), Fail> {
    let drop = [Edit::AttackDrop(1, 2)];
    let add = [Edit::AttackAdd(1, 2)];
    let turns = [
        turn_of(&[], OF_RIVALS),
        turn_of(&drop, OF_UNATTACKED),
        turn_of(&add, OF_RIVALS),
    ];
    assert!(rt; af_holds(rt.alloc(), &[1, 2, 3, 4], RIVALS, &turns) == Some(true));
    Ok(())
}

/// What is asked where 5 defends 1 against 2.
const OF_DEFENDED: &[Asked] = &[
    ("EE-PR", None, 1_000_000, 10, End::Sets(&[&[1, 5]])),
    ("DC-PR", Some(2), 1_000_000, 10, End::No),
];

/// What is asked where 3 alone is neither in the set nor attacked by it.
const OF_OPEN: &[Asked] = &[("EE-ST", None, 1_000_000, 10, End::No)];

/// What is asked where 3 is gone then.
const OF_STABLE: &[Asked] = &[("EE-ST", None, 1_000_000, 10, End::Sets(&[&[1, 4, 5]]))];

/// Arguments come and go.
#[test]
fn follows_edits_of_arguments(rt: HostRuntime) -> Result<(), Fail> {
    let add = [Edit::ArgAdd(5), Edit::AttackAdd(5, 2)];
    let free = [Edit::AttackDrop(4, 4)];
    let drop = [Edit::ArgDrop(3)];
    let turns = [
        turn_of(&add, OF_DEFENDED),
        turn_of(&free, OF_OPEN),
        turn_of(&drop, OF_STABLE),
    ];
    assert!(rt; af_holds(rt.alloc(), &[1, 2, 3, 4], RIVALS, &turns) == Some(true));
    Ok(())
}

/// How many steps the log has behind edits.
fn steps_after(alloc: Global, engine: &mut Engine, edits: &[Edit]) -> Option<usize> {
    follow_all(alloc, engine, edits)?;
    Some(engine.steps())
}

/// Whether edits take steps, and none where they are made once more.
fn come_once(alloc: Global, engine: &mut Engine, edits: &[Edit]) -> Option<bool> {
    let first = steps_after(alloc, engine, edits)?;
    let second = steps_after(alloc, engine, edits)?;
    Some(first > 0 && first == second)
}

/// The same of the rivals.
fn rivals_come_once(alloc: Global, edits: &[Edit]) -> Option<bool> {
    let mut engine = af_engine(alloc, &[1, 2, 3, 4], RIVALS, 1_000_000)?;
    come_once(alloc, &mut engine, edits)
}

/// No axiom comes twice.
#[test]
fn takes_an_axiom_once(rt: HostRuntime) -> Result<(), Fail> {
    let edits = [Edit::AttackDrop(1, 2), Edit::AttackAdd(1, 2)];
    assert!(rt; rivals_come_once(rt.alloc(), &edits) == Some(true));
    Ok(())
}

/// A body of one atom.
fn body_of(alloc: Global, atom: u32) -> Result<Items<u32>, Memory>
    ensures { IfOk result (λ body. body ≡ atom ∷ []) }
{
    let mut body = Items::new(alloc);
    body.push(atom)?;
    Ok(body)
}

/// What is asked about the two assumptions below.
const OF_BOTH: &[Asked] = &[("EE-ST", None, 1_000_000, 10, End::Sets(&[&[1], &[2]]))];

/// What is asked where nothing derives the contrary of 1.
const OF_ONE: &[Asked] = &[
    ("EE-ST", None, 1_000_000, 10, End::Sets(&[&[1]])),
    ("DC-CO", Some(3), 1_000_000, 10, End::No),
    ("DC-CO", Some(4), 1_000_000, 10, End::YesBy(&[1])),
];

/// Two assumptions, of which each derives the contrary of the other at first. Rules go and come.
#[test]
fn follows_edits_of_rules(rt: HostRuntime) -> Result<(), Fail> {
    let text = "p aba 4\na 1\na 2\nc 1 3\nc 2 4\nr 3 2\nr 4 1\n";
    let body = body_of(rt.alloc(), 2)?;
    let drop = [Edit::RuleDrop(1)];
    // The rule comes back, with another number.
    let add = [Edit::RuleAdd(3, body)];
    let turns = [
        turn_of(&[], OF_BOTH),
        turn_of(&drop, OF_ONE),
        turn_of(&add, OF_BOTH),
    ];
    assert!(rt; aba_holds(rt.alloc(), text, &turns) == Some(true));
    Ok(())
}
