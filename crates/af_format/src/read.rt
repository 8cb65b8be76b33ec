//! Reading a framework.

ghost use Rattle.std.specs.Prelude.{◌≡◌, ℕ, ◌≤◌, ◌^◌, length, Contains, IfOk, IfErr, OnOk};
ghost use Rattle.std.specs.List.{range_with_len};
ghost use Rattle.num_text.specs.Cuts.{lines_of};
ghost use Rattle.num_text.specs.Lines.{kept};
ghost use Rattle.af_format.specs.AfText.{AreAttackLines, IsFrameworkOf, ReadsAs};
ghost use Rattle.af_format.specs.Faults.{IsFirstFault, IsFaultless, IfLine};
ghost use Rattle.dung_notions.specs.Solid.{IsSolid};
ghost use Rattle.semantics.specs.Framework.{Af};
ghost use Rattle.af_format.specs.FirstBadLine.{BeginWithHeader, IsFirstBadLine};
ghost use Rattle.num_text.specs.declared.limit.TheConstants.{MAX_INPUT};

use crate::fault::{LineFault, ReadFault};
use crate::header::read_header;
use crate::next_attack::next_attack;
use dung_notions::AfPlain;
use lists::{Items, Memory};
use num_text::{Lines, lines};
use semantics::MAX_ARGUMENT;
use set_lists::NumSet;
use std::alloc::Global;

/// The framework that the bytes describe. The first line that is not skipped is `p af n` with n up to
/// `semantics::MAX_ARGUMENT`; each further one is `b a`, both from 1 to n, which says that b attacks a. A repeated
/// attack counts once. At most `MAX_ATTACK_LINES` attack lines are read.
///
/// `Line` tells the first line at which a cause stands, and of the causes that stand there the first in
/// the order of [`LineCause`]. `Memory` says that an allocation was refused.
#[tactic(auto, using(crate::proofs::Reading::header_few, crate::proofs::Reading::reads_as, crate::proofs::Reading::bad_line_told, crate::proofs::Reading::ends_are_arguments, crate::proofs::Reading::faultless,))]
pub fn read_af(alloc: Global, bytes: &[u8]) -> Result<AfPlain, ReadFault>
    requires { length bytes.now ≤ MAX_INPUT }
    ensures ok { IfOk result (ReadsAs bytes.now) }
    ensures no_other { IfOk result (λ f. (g : Af) → ReadsAs bytes.now g → g ≡ f) }
    ensures solid { IfOk result IsSolid }
    ensures faultless { OnOk result (IsFaultless bytes.now) }
    ensures fault { IfErr result (λ e. IfLine e (λ fault. IsFirstFault bytes.now fault.line fault.cause)) }
{
    let mut left = lines(bytes);
    let count = read_count(bytes, &mut left)?;
    let attacks = read_attacks(alloc, left, count)?;
    Ok(framework_of(alloc, count, attacks)?)
}

/// The number of arguments that the text's header tells. The lines behind the header are left.
pub(crate) fn read_count(bytes: &[u8], left: &mut Lines<'_>) -> Result<u32, LineFault>
    requires size { length bytes.now ≤ MAX_INPUT }
    requires all { left.old ≡ lines_of bytes.now }
    ensures ok { IfOk result (λ count. BeginWithHeader bytes.now count left.new) }
    ensures fault { IfErr result (λ fault. IsFirstFault bytes.now fault.line fault.cause) }
{
    read_header(bytes, left, "af".as_bytes(), "aba".as_bytes())
}

#[tactic(auto, using(crate::proofs::Reading::read_none, crate::proofs::Reading::read_all,))]
// The attacks of all lines that are left and not skipped, in their order.
#[inline(never)]
fn read_attacks(
    alloc: Global,
    mut left: Lines<'_>,
    count: u32,
) -> Result<Items<(u32, u32)>, ReadFault>
    ensures ok { IfOk result (AreAttackLines count (kept left.entry)) }
    ensures fault { IfErr result
        (λ e. IfLine e (λ fault. IsFirstBadLine count (kept left.entry) fault.line fault.cause)) }
{
    let mut attacks = Items::new(alloc);
    while let Some(attack) = next_attack(&mut left, count, attacks.len())? {
        attacks.push(attack)?;
    }
    Ok(attacks)
}

// The framework of the arguments 1 to n and the attacks.
fn framework_of(alloc: Global, count: u32, attacks: Items<(u32, u32)>) -> Result<AfPlain, Memory>
    requires few { count ≤ MAX_ARGUMENT }
    requires ends { (b a : ℕ) → Contains attacks (b, a)
        → Contains (range_with_len 1 count) b × Contains (range_with_len 1 count) a }
    ensures { IfOk result (IsFrameworkOf count attacks) }
{
    let live = arguments(alloc, count)?;
    AfPlain::new(alloc, live, attacks.into_vec())
}

// The arguments 1 to n.
fn arguments(alloc: Global, count: u32) -> Result<NumSet, Memory>
    requires { count ≤ MAX_ARGUMENT }
    ensures { IfOk result (λ s. s ≡ range_with_len 1 count) }
{
    let numbers: Vec<u32> = (1..count + 1).collect(alloc)?;
    NumSet::from_rising(alloc, &numbers)
}
