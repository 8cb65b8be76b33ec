//! Refutations: the first flaw of each.

ghost use Rattle.std.specs.Prelude.{◌≡◌, ◌↔◌, ◌<◌, ◌-◌, ◌^◌, length, slice_index_or, IfOk, IsTrue};
ghost use Rattle.certificate_claims.specs.Refutations.{no_step};
ghost use Rattle.edit_rules.specs.Kinds.{framework_of};
ghost use Rattle.certificate_check.specs.Flaws.{EndsClosedBy, FindsFlaws, HasFlaw, IsFlawWithin, flaw_told};
ghost use Rattle.certificate_check.specs.Standing.{IsNamed};

use crate::closed::step_is_closed;
use crate::steps::first_bad_step;
use answer_claims::{Claim, range_of};
use certificate_claims::{Cause, Refutation, Step, Verdict};
use edit_rules::Framework;
use lists::Memory;
use std::alloc::Global;

/// What is wrong with a refutation.
#[derive(Clone, Copy)]
pub enum Flaw {
    /// Nothing.
    None,
    /// The step at this index doesn't stand.
    BadStep(usize),
    /// There is no step, or a literal of the last clause is open.
    OpenLiteral,
}

/// Whether there is a step and all literals of the last one's clause are closed.
fn ends_closed(
    alloc: Global,
    framework: &Framework,
    claim: &Claim,
    steps: &[Step],
) -> Result<bool, Memory>
    requires { 0 < length steps.now → IsNamed (framework_of framework.now) (length claim.now.sides)
        (slice_index_or steps.now (length steps.now - 1) no_step) }
    ensures { IfOk result (λ closed. IsTrue closed
        ↔ EndsClosedBy (framework_of framework.now) claim.now steps.now) }
{
    if steps.is_empty() {
        return Ok(false);
    }
    let range = range_of(alloc, framework, &claim.ranged)?;
    let closed = step_is_closed(alloc, framework, claim, &range, &steps[steps.len() - 1])?;
    Ok(closed)
}

/// The first flaw of a refutation.
fn flaw_of(
    alloc: Global,
    framework: &Framework,
    claim: &Claim,
    steps: &[Step],
) -> Result<Flaw, Memory>
    ensures { IfOk result (HasFlaw (framework_of framework.now) claim.now steps.now) }
{
    let bad = first_bad_step(alloc, framework, claim.kind, claim.sides.as_slice(), steps)?;
    if let Some(index) = bad {
        return Ok(Flaw::BadStep(index));
    }
    let closed = ends_closed(alloc, framework, claim, steps)?;
    if closed {
        return Ok(Flaw::None);
    }
    Ok(Flaw::OpenLiteral)
}

/// What is told of a flaw of the refutation at an index, which has so many steps.
fn flaw_verdict(index: usize, count: usize, flaw: Flaw) -> Option<Verdict>
    requires index { index < 2 ^ 64 - 1 }
    requires count { IsFlawWithin count flaw }
    ensures { result ≡ flaw_told index count flaw }
{
    match flaw {
        Flaw::None => None,
        Flaw::BadStep(step) => Some(Verdict::Rejected(Cause::BadStep, index + 1, step + 1)),
        Flaw::OpenLiteral => Some(Verdict::Rejected(Cause::OpenLiteral, index + 1, count)),
    }
}

/// What is told of refutations, each of the claim at its index: `Accepted`, or the first flaw. `Memory` says that an
/// allocation was refused.
pub fn check_refutations(
    alloc: Global,
    framework: &Framework,
    claims: &[Claim],
    refutations: &[Refutation],
) -> Result<Verdict, Memory>
    requires { length refutations.now ≡ length claims.now }
    ensures { IfOk result (FindsFlaws (framework_of framework.now) claims.now refutations.now) }
{
    for index in 0..refutations.len() {
        let steps = refutations[index].steps.as_slice();
        let flaw = flaw_of(alloc, framework, &claims[index], steps)?;
        if let Some(verdict) = flaw_verdict(index, steps.len(), flaw) {
            return Ok(verdict);
        }
    }
    Ok(Verdict::Accepted)
}
