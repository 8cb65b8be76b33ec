//! A refutation of an accepted certificate as two texts.

ghost use Rattle.std.specs.Prelude.{◌<◌, length, IfOk};
ghost use Rattle.edit_rules.specs.Kinds.{framework_of};
ghost use Rattle.certificate_claims.specs.Claims.{row_of};
ghost use Rattle.certificate_claims.specs.Verdicts.{IsVerdict, claim_at, steps_at};
ghost use Rattle.refutation_logs.specs.Exports.{IsExportOf, sides_in, steps_in};
ghost use Rattle.refutation_logs.specs.Logged.{AllHold};

use crate::texts::{Exported, export_steps};
use answer_claims::{Claim, claims_of, row};
use certificate_claims::{Certificate, Refutation, Verdict};
use edit_rules::Framework;
use iccma_tasks::{Answer, Query};
use lists::Memory;
use std::alloc::Global;

// The texts of the refutation at an index, beside the side clauses of the claim there.
fn export_at(
    alloc: Global,
    framework: &Framework,
    claims: &[Claim],
    refutations: &[Refutation],
    index: usize,
) -> Result<Exported, Memory>
    requires claim { index < length claims.now }
    requires refutation { index < length refutations.now }
    requires some { 0 < length (steps_in refutations.now index) }
    requires hold { AllHold (framework_of framework.now) (sides_in (framework_of framework.now) claims.now index)
        (steps_in refutations.now index) }
    ensures { IfOk result (IsExportOf (sides_in (framework_of framework.now) claims.now index)
        (steps_in refutations.now index)) }
{
    let claim = &claims[index];
    let steps = refutations[index].steps.as_slice();
    let sides = claim.sides.as_slice();
    let exported = export_steps(alloc, framework, claim.kind, sides, steps)?;
    Ok(exported)
}

/// The texts of the refutation at an index of an accepted certificate. The CNF has the clauses of its axioms and side
/// clauses in order, and then for each literal of its last step the negation. The lines are the derived steps, each
/// with its hints up to the false one, and one without literals. The variables are the atoms of the steps by first
/// appearance. Where the CNF is no longer than a text may be, it is read as these clauses, and where the lines are not
/// either, the check tells [`lrat_text::Verdict::Verified`]. `Memory` says that an allocation was refused, or that
/// there are more steps than [`hinted_log::MAX_STEPS`] or more atoms than [`lrat_text::MAX_VARIABLE`].
pub fn export_refutation(
    alloc: Global,
    framework: &Framework,
    query: &Query,
    answer: &Answer,
    certificate: &Certificate,
    index: usize,
) -> Result<Exported, Memory>
    requires accepted { IsVerdict (framework_of framework.now) query.now answer.now certificate.now Verdict.Accepted }
    requires index { index < length certificate.now.refutations }
    ensures { IfOk result (IsExportOf (claim_at (framework_of framework.now)
        (row_of (framework_of framework.now) query.now answer.now) certificate.now index).sides
        (steps_at certificate.now index)) }
{
    let row = row(alloc, framework, query, answer)?;
    let claims = claims_of(alloc, framework, &row, certificate.sets.as_slice())?;
    let refutations = certificate.refutations.as_slice();
    let exported = export_at(alloc, framework, claims.as_slice(), refutations, index)?;
    Ok(exported)
}
