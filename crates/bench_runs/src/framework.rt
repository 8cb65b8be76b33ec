//! The framework of a large input.

ghost use Rattle.std.specs.Prelude.{◌≡◌, ◌<◌, ◌≤◌, ◌++◌, IfOk, OnOk};
ghost use Rattle.std.specs.List.{range_with_len};
ghost use Rattle.semantics.specs.declared.argument.TheConstants.{MAX_ARGUMENT};
ghost use Rattle.bench_runs.specs.Generator.{attacks_drawn, attacks_from, bench_framework, next_state};

use crate::draws::{drawn, next};
use dung_notions::AfPlain;
use lists::Memory;
use set_lists::NumSet;
use std::alloc::Global;

/// Adds the attacks on an argument by the three draws behind a state, and gives the state behind them.
fn push_attacks(
    attacks: &mut Vec<(u32, u32)>,
    state: u64,
    n: u32,
    argument: u32,
) -> Result<u64, Memory>
    requires { 0 < n }
    ensures state { IfOk result (λ after. after ≡ next_state (next_state (next_state state))) }
    ensures attacks { OnOk result (attacks.new.items ≡ attacks.old.items ++ attacks_from n state argument) }
{
    let one = next(state);
    let two = next(one);
    let three = next(two);
    attacks.push((drawn(one, n), argument))?;
    attacks.push((drawn(two, n), argument))?;
    attacks.push((drawn(three, n), argument))?;
    Ok(three)
}

/// The attacks that are drawn, argument by argument.
fn draw_attacks(alloc: Global, n: u32, seed: u32) -> Result<Vec<(u32, u32)>, Memory>
    requires some { 0 < n }
    requires few { n ≤ MAX_ARGUMENT }
    ensures { IfOk result (λ attacks. attacks.items ≡ attacks_drawn n seed) }
{
    let mut attacks = Vec::new(alloc);
    let mut state = seed as u64;
    for argument in 1..n + 1 {
        state = push_attacks(&mut attacks, state, n, argument)?;
    }
    Ok(attacks)
}

/// The arguments from 1 to n.
fn arguments(alloc: Global, n: u32) -> Result<NumSet, Memory>
    requires { n ≤ MAX_ARGUMENT }
    ensures { IfOk result (λ live. live ≡ range_with_len 1 n) }
{
    let numbers: Vec<u32> = (1..n + 1).collect(alloc)?;
    NumSet::from_rising(alloc, &numbers)
}

/// The arguments from 1 to n, and the attacks that are drawn.
pub(crate) fn framework(alloc: Global, n: u32, seed: u32) -> Result<AfPlain, Memory>
    requires some { 0 < n }
    requires few { n ≤ MAX_ARGUMENT }
    ensures { IfOk result (λ f. f ≡ bench_framework n seed) }
{
    let live = arguments(alloc, n)?;
    let attacks = draw_attacks(alloc, n, seed)?;
    AfPlain::new(alloc, live, attacks)
}
