//! The certificate of an answer whose claims a log refutes.

ghost use Rattle.std.specs.Prelude.{◌≡◌, ◌<◌, ◌≤◌, ◌^◌, ℕ, length, Contains, IfOk};
ghost use Rattle.certificate_claims.specs.Acceptance.{IsAccepted, Tests};
ghost use Rattle.certificate_claims.specs.Claims.{claims, row_of, sets_of};
ghost use Rattle.certificate_claims.specs.Refutations.{Claim as TableClaim};
ghost use Rattle.certificate_text.specs.Written.{IsWritable};
ghost use Rattle.edit_rules.specs.Kinds.{framework_of};
ghost use Rattle.enumerate_block.specs.Ranges.{AreRefuted};
ghost use Rattle.oracle_face.specs.Logs.{IsNumberOf};
ghost use Rattle.answer_claims.specs.ClaimParts.{AreClaims};
ghost use Rattle.answer_claims.specs.SetFacts.{HasSetsOf};
ghost use Rattle.answer_claims.specs.SideClauses.{side_of, sides_of};
ghost use Rattle.certificate_making.specs.ClaimSides.{IsAskOf};
ghost use Rattle.certificate_making.specs.Cuts.{AreCut, IsCutAt};
ghost use Rattle.certificate_making.specs.Making.{AreAsks, IsMade, AreMade};

use crate::{ReadLog, positions_of, refutation};
use answer_claims::{Claim, SideKind, claims_of, row, side_clause};
use certificate_claims::{Certificate, Refutation};
use edit_rules::Framework;
use iccma_tasks::{Answer, Query};
use lists::{Items, Memory};
use oracle_face::AskId;
use plain_lits::StepId;
use set_lists::NumSet;
use std::alloc::Global;

/// The number that the log has a set's side clause of a kind under, if it has it.
fn ask_for<L: ReadLog>(
    alloc: Global,
    log: &L,
    framework: &Framework,
    kind: SideKind,
    set: &NumSet,
) -> Result<Option<AskId>, Memory>
    ensures { IfOk result (IsAskOf (L.log log.now).sides (side_of (framework_of framework.now) kind set.now)) }
{
    let clause = side_clause(alloc, framework, kind, set, 1)?;
    log.ask_of(alloc, &clause.as_slice()[1..])
}

/// The numbers that the log has the sets' side clauses of a kind under.
fn asks_for<L: ReadLog>(
    alloc: Global,
    log: &L,
    framework: &Framework,
    kind: SideKind,
    sets: &[NumSet],
) -> Result<Vec<Option<AskId>>, Memory>
    ensures { IfOk result (λ asks. AreAsks (L.log log.now).sides
        (sides_of (framework_of framework.now) kind sets.now) asks.items) }
{
    let mut asks = Vec::new(alloc);
    for set in sets {
        asks.push(ask_for(alloc, log, framework, kind, set)?)?;
    }
    Ok(asks)
}

/// The refutation of a claim by a step of the log.
fn refutation_of<L: ReadLog>(
    alloc: Global,
    log: &L,
    framework: &Framework,
    claim: &Claim,
    step: StepId,
) -> Result<Refutation, Memory>
    requires step { IsNumberOf (L.log log.now).steps step }
    requires same { framework_of framework.now ≡ L.framework log.now }
    ensures made { IfOk result (IsMade (L.framework log.now) (L.log log.now) claim.now step) }
    ensures cut { IfOk result (λ made. IsCutAt (L.log log.now) step made.steps) }
{
    let asks = asks_for(alloc, log, framework, claim.kind, claim.sides.as_slice())?;
    if asks.len() > u32::MAX as usize {
        return Err(Memory);
    }
    let _form = log.len();
    let positions = positions_of(alloc, log.sides(), &asks)?;
    refutation(alloc, log, step, &positions)
}

/// The refutations of claims by steps of the log.
fn refutations_of<L: ReadLog>(
    alloc: Global,
    log: &L,
    framework: &Framework,
    claims: &[Claim],
    steps: &[StepId],
) -> Result<Items<Refutation>, Memory>
    requires long { length steps.now ≡ length claims.now }
    requires steps { (k : ℕ) → Contains steps.now k → IsNumberOf (L.log log.now).steps k }
    requires same { framework_of framework.now ≡ L.framework log.now }
    ensures made { IfOk result (λ made. AreMade (L.framework log.now) (L.log log.now) claims.now steps.now made) }
    ensures cut { IfOk result (λ made. AreCut (L.log log.now) made) }
{
    let mut made = Items::new(alloc);
    for index in 0..claims.len() {
        made.push(refutation_of(alloc, log, framework, &claims[index], steps[index])?)?;
    }
    Ok(made)
}

/// The claims of an answer's row.
fn claims_for(
    alloc: Global,
    framework: &Framework,
    query: &Query,
    answer: &Answer,
    sets: &[NumSet],
) -> Result<Items<Claim>, Memory>
    requires { HasSetsOf (framework_of framework.now) (row_of (framework_of framework.now) query.now answer.now) }
    ensures { IfOk result (λ made. AreClaims (framework_of framework.now) made
        (claims (framework_of framework.now) (row_of (framework_of framework.now) query.now answer.now) sets.now)) }
{
    let shown = row(alloc, framework, query, answer)?;
    let claims = claims_of(alloc, framework, &shown, sets)?;
    Ok(claims)
}

/// The certificate of an answer: the sets, and for each claim of the answer's row the refutation that the step at its place
/// comes to. Where the sets pass their tests and the steps refute the claims, it is accepted, and a text can hold it; each
/// refutation is made of just the log's steps that its last one reaches. Time
/// and memory are linear in the steps that are reached and in the side clauses of the claims. `Memory` says that an
/// allocation was refused.
pub fn certificate_for<L: ReadLog>(
    alloc: Global,
    log: &L,
    framework: &Framework,
    query: &Query,
    answer: &Answer,
    sets: Items<NumSet>,
    steps: &[StepId],
) -> Result<Certificate, Memory>
    requires same { framework_of framework.now ≡ L.framework log.now }
    requires tests { Tests (framework_of framework.now) query.now
        (row_of (framework_of framework.now) query.now answer.now) (sets_of answer.now) sets }
    requires refuted { AreRefuted (framework_of framework.now) (L.log log.now)
        (claims (framework_of framework.now) (row_of (framework_of framework.now) query.now answer.now) sets) steps.now }
    ensures sets { IfOk result (λ certificate. certificate.sets ≡ sets) }
    ensures accepted { IfOk result (IsAccepted (framework_of framework.now) query.now answer.now) }
    ensures writable { IfOk result IsWritable }
    ensures cut { IfOk result (λ certificate. AreCut (L.log log.now) certificate.refutations) }
{
    let _form = framework.kind();
    let _guards = log.len();
    let claims = claims_for(alloc, framework, query, answer, sets.as_slice())?;
    let refutations = refutations_of(alloc, log, framework, claims.as_slice(), steps)?;
    Ok(Certificate { sets, refutations })
}
