//! Derived steps that the propagator leaves out for now, and the choice of them.

ghost use Rattle.std.specs.Prelude.{◌≡◌, ◌⊎◌, ℕ, ◌<◌, length, slice_index_or, Contains, IfSome, MatchOption, Some};
ghost use Rattle.std.specs.Bool.{OnTrue, OnFalse};
ghost use Rattle.plain_lits.specs.declared.lit.Lit.{Lit};
ghost use Rattle.plain_lits.specs.Literals.{negation};
ghost use Rattle.hinted_log.specs.Logs.{IsStepOf};
ghost use Rattle.sleeping_clauses.specs.Steps.{clause_of, FalsifiesAll};
ghost use Rattle.sleeping_clauses.specs.declared.sleepers.Sleeper.{Sleeper};
ghost use Rattle.sleeping_clauses.specs.Sleeping.{AreSleepers, SleepsAs, HasNoSubsumingSleeper};

use hinted_log::{Log, StepKind};
use lists::Memory;
use plain_lits::{Lit, PackedLit, StepId, Trail, Value};
use std::alloc::Global;

/// A step that sleeps, and a literal of its clause.
#[derive(Clone, Copy)]
pub struct Sleeper {
    pub step: StepId,
    pub key: PackedLit,
}

/// The sleeper at an index.
pub fn sleeper_at(asleep: &[Sleeper], index: usize) -> Sleeper
    requires { index < length asleep.now }
    ensures { (d : Sleeper) → slice_index_or asleep.now index d ≡ result }
{
    asleep[index]
}

/// Whether all literals of a clause are false.
pub fn is_falsified(trail: &Trail, part: &[PackedLit]) -> bool
    ensures falsified { OnTrue result ((l : Lit) → Contains part.now l → Contains trail.now.lits (negation l)) }
    ensures free { OnFalse result ((l : Lit) × Contains part.now l × (Contains trail.now.lits (negation l) → ⊥)) }
{
    for packed in part {
        match trail.value(packed.lit()) {
            Value::False => {}
            _ => return false,
        }
    }
    true
}

/// Whether all literals of a sleeper's clause are false. Where its key isn't, the others are not looked at.
fn is_falsified_sleeper(log: &Log, trail: &Trail, sleeper: Sleeper) -> bool
    requires step { IsStepOf log.now.steps sleeper.step }
    requires key { Contains (clause_of log.now.steps sleeper.step) sleeper.key }
    ensures { OnFalse result ((l : Lit) × Contains (clause_of log.now.steps sleeper.step) l
        × (Contains trail.now.lits (negation l) → ⊥)) }
{
    match trail.value(sleeper.key.lit()) {
        Value::False => is_falsified(trail, log.clause(sleeper.step)),
        _ => false,
    }
}

/// The index of the first sleeper whose clause holds no literal beyond those that are false.
pub fn first_falsified_sleeper(
    log: &Log,
    asleep: &[Sleeper],
    trail: &Trail,
    clause: &[Lit],
) -> Option<usize>
    requires falsified { FalsifiesAll clause.now trail.now.lits }
    requires asleep { AreSleepers log.now.steps asleep.now }
    ensures { MatchOption result (HasNoSubsumingSleeper log.now.steps asleep.now clause.now)
        (λ index. index < length asleep.now) }
{
    for index in 0..asleep.len() {
        if is_falsified_sleeper(log, trail, sleeper_at(asleep, index)) {
            return Some(index);
        }
    }
    None
}

/// Counts how often each literal, by its code, stands in a clause.
fn count_lits(counts: &mut [u32], clause: &[PackedLit]) {
    for packed in clause {
        let code = packed.code();
        if code < counts.len() {
            counts[code] = counts[code].saturating_add(1);
        }
    }
}

/// How often a literal was counted.
fn count_of(counts: &[u32], packed: PackedLit) -> u32 {
    let code = packed.code();
    if code < counts.len() {
        return counts[code];
    }
    0
}

/// Of a literal that was found, if any, and a further one that which was counted less.
fn rarer(counts: &[u32], found: Option<PackedLit>, packed: PackedLit) -> Option<PackedLit>
    ensures { IfSome result (λ l. (l ≡ packed) ⊎ (found ≡ Some l)) }
{
    match found {
        Some(other) if count_of(counts, other) <= count_of(counts, packed) => Some(other),
        _ => Some(packed),
    }
}

/// The literal of a clause that was counted least.
fn rarest(counts: &[u32], clause: &[PackedLit]) -> Option<PackedLit>
    ensures { IfSome result (Contains clause.now) }
{
    let mut found = None;
    for packed in clause {
        found = rarer(counts, found, *packed);
    }
    found
}

/// A step as a sleeper, where it is derived and its clause isn't empty.
pub fn sleeper_of(log: &Log, counts: &[u32], step: StepId) -> Option<Sleeper>
    requires { IsStepOf log.now.steps step }
    ensures { IfSome result (SleepsAs log.now.steps step) }
{
    match log.kind(step) {
        StepKind::Derived => {
            let key = rarest(counts, log.clause(step))?;
            Some(Sleeper { step, key })
        }
        _ => None,
    }
}

/// How often each literal stands in the clauses of steps whose number of levels is at least a bar.
pub fn counts_of(
    alloc: Global,
    log: &Log,
    awake: &[StepId],
    levels: &[u32],
    bar: u32,
    vars: usize,
) -> Result<Vec<u32>, Memory>
    requires { (number : ℕ) → Contains awake.now number → IsStepOf log.now.steps number }
{
    let mut counts = vec![in alloc; 0; vars.saturating_mul(2)]?;
    for index in 0..awake.len() {
        if levels_at(levels, index) >= bar {
            count_lits(counts.as_mut_slice(), log.clause(awake[index]));
        }
    }
    Ok(counts)
}

/// The number of levels at an index, or none.
pub fn levels_at(levels: &[u32], index: usize) -> u32 {
    if index < levels.len() {
        return levels[index];
    }
    0
}

/// The number of levels from which on a clause sleeps, so that half of those with more than two do.
pub fn bar_of(alloc: Global, levels: &[u32]) -> Result<u32, Memory> {
    let mut many = Vec::new(alloc);
    for level in levels {
        if *level > 2 {
            many.push(*level)?;
        }
    }
    many.sort_unstable();
    if many.is_empty() {
        return Ok(u32::MAX);
    }
    Ok(many[many.len() / 2])
}
