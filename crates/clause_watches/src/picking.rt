//! Which two literals a clause watches when it comes.

ghost use Rattle.std.specs.Prelude.{◌≡◌, ◌+◌, ◌<◌, ◌≤◌, ◌^◌, take, Contains, IfOk, IsTrue, ◌⊎◌, ◌↔◌};
ghost use Rattle.plain_lits.specs.declared.lit.Lit.{Lit};
ghost use Rattle.clause_watches.specs.Picks.{IsPairOf, HasVars, IsOther, IsPick, Considers, IsRank, Outlasts};
ghost use Rattle.clause_watches.specs.Picks.{WatchesLast};
ghost use Rattle.std.specs.Bool.{OnTrue, OnFalse};

use crate::pair::Pair;
use lists::Memory;
use plain_lits::{Lit, PackedLit, Trail, Value};

/// The greater of two numbers.
fn larger(a: usize, b: usize) -> usize
    ensures first { a ≤ result }
    ensures second { b ≤ result }
    ensures one_of { (result ≡ a) ⊎ (result ≡ b) }
{
    if a <= b { b } else { a }
}

/// The number above each variable of a list; more than can be packed is want of memory.
pub fn vars_of(lits: &[Lit]) -> Result<usize, Memory>
    ensures { IfOk result (HasVars lits.now) }
{
    let mut vars = 0;
    for lit in lits {
        if lit.var >= PackedLit::VARS {
            return Err(Memory);
        }
        vars = larger(vars, lit.var + 1);
    }
    Ok(vars)
}

/// How many true literals there were before a literal became false, or how many there are where it isn't false.
pub fn rank_of(trail: &Trail, lit: Lit) -> usize
    ensures { IsRank trail.now.lits lit result }
{
    match trail.value(lit) {
        Value::False => trail.position(!lit),
        _ => trail.len(),
    }
}

/// Whether a literal is the one that is passed over.
fn is_other(other: Option<Lit>, lit: Lit) -> bool
    ensures { IsTrue result ↔ IsOther other lit }
{
    match other {
        None => false,
        Some(passed) => passed == lit,
    }
}

/// Whether a literal became false later than another, or isn't false where the other is; else the other outlasts it.
fn outlasts(trail: &Trail, lit: Lit, other: Lit) -> bool
    ensures later { OnTrue result (Outlasts trail.now.lits lit other) }
    ensures sooner { OnFalse result (Outlasts trail.now.lits other lit) }
{
    let rank = rank_of(trail, lit);
    let passed = rank_of(trail, other);
    if rank > passed {
        return true;
    }
    false
}

/// The best literal so far, or the next one: where it isn't passed over, and isn't false or became false later.
fn consider(trail: &Trail, best: Option<Lit>, other: Option<Lit>, lit: Lit) -> Option<Lit>
    ensures { Considers trail.now.lits best other lit result }
{
    if is_other(other, lit) {
        return best;
    }
    match best {
        None => Some(lit),
        Some(held) => {
            if outlasts(trail, lit, held) {
                return Some(lit);
            }
            Some(held)
        }
    }
}

/// The literal of the clause, but for one, that isn't false or became false last.
fn pick_one(trail: &Trail, clause: &[Lit], other: Option<Lit>) -> Option<Lit>
    ensures { IsPick trail.now.lits clause.now other result }
{
    let mut best = None;
    for lit in clause {
        best = consider(trail, best, other, *lit);
    }
    best
}

/// A pair of two literals.
fn pair_with(first: Lit, second: Lit) -> Pair
    requires first { first.var < 2 ^ 31 }
    requires second { second.var < 2 ^ 31 }
    ensures first { result.first ≡ first }
    ensures second { result.second ≡ second }
{
    Pair {
        first: PackedLit::pack(first),
        second: PackedLit::pack(second),
    }
}

/// The pair of a literal that outlasts the others and the best other one.
pub fn pick_second(trail: &Trail, clause: &[Lit], first: Lit) -> Pair
    requires packs { (l : Lit) → Contains clause.now l → l.var < 2 ^ 31 }
    requires there { Contains clause.now first }
    requires best { (l : Lit) → Contains clause.now l → Outlasts trail.now.lits first l }
    ensures pair { IsPairOf clause.now result }
    ensures last { WatchesLast trail.now.lits clause.now result }
    ensures first { result.first ≡ first }
{
    match pick_one(trail, clause, Some(first)) {
        None => pair_with(first, first),
        Some(second) => pair_with(first, second),
    }
}

/// The pair that a new clause watches: two different literals that aren't false or became false last. A clause
/// without two different literals watches nothing.
pub fn pick(trail: &Trail, clause: &[Lit]) -> Pair
    requires { (l : Lit) → Contains clause.now l → l.var < 2 ^ 31 }
    ensures pair { IsPairOf clause.now result }
    ensures last { WatchesLast trail.now.lits clause.now result }
{
    let none = Lit {
        var: 0,
        positive: false,
    };
    match pick_one(trail, clause, None) {
        None => pair_with(none, none),
        Some(first) => pick_second(trail, clause, first),
    }
}
