//! The check, section by section, each up to the first failure.

ghost use Rattle.std.specs.Prelude.{◌≡◌, ◌↔◌, Some, IfOk, IsTrue};
ghost use Rattle.semantics.specs.Frameworks.{af};
ghost use Rattle.certificate_claims.specs.Acceptance.{GroundedSays, NoneWithin, NoRangeWithin, PassesGrounded};
ghost use Rattle.certificate_claims.specs.Acceptance.{PassesOrder};
ghost use Rattle.certificate_claims.specs.Rights.{IsRight, SetsRise};
ghost use Rattle.certificate_claims.specs.Verdicts.{IsVerdict, looks};
ghost use Rattle.edit_rules.specs.Kinds.{framework_of};
ghost use Rattle.answer_claims.specs.SetFacts.{AreSetsOf, HasSetsOf};
ghost use Rattle.certificate_check.specs.Sections.{FindsIn, after_order, after_set_count, after_sets, after_shape};
ghost use Rattle.certificate_check.specs.Sections.{after_witnesses};
ghost use Rattle.certificate_check.specs.Witnesses.{IsRowOf, IsTestedRow, ShowsSets, TellsApart};

use crate::check_refutations;
use crate::witness::{first_bad_set, first_bad_witness, is_shaped, takes_sets};
use answer_claims::{claims_of, row, shown_sets};
use certificate_claims::{
    Cause, Certificate, Row, Verdict, no_range_within, none_within, sets_rise,
};
use dung_notions::AfPlain;
use edit_rules::Framework;
use iccma_tasks::{Answer, Query};
use lists::Memory;
use set_lists::NumSet;
use set_tests::grounded_accepts;
use std::alloc::Global;

/// What is checked: the framework, the query on it, the row that the answer picks, the sets that the answer shows, and
/// the certificate.
#[derive(Clone, Copy)]
pub(crate) struct Checked<'a> {
    pub(crate) framework: &'a Framework,
    pub(crate) query: &'a Query,
    pub(crate) row: &'a Row,
    pub(crate) shown: &'a [NumSet],
    pub(crate) certificate: &'a Certificate,
}

impl Checked<'_> {
    /// From the answer's shape on.
    fn check_row(&self, alloc: Global) -> Result<Verdict, Memory>
        requires sets { ShowsSets self.now.row.now self.now.shown.now }
        requires tested { IsTestedRow self.now.row.now self.now.query.now.task.semantics }
        requires kind { IsRowOf (framework_of self.now.framework.now) self.now.row.now }
        ensures { IfOk result (FindsIn self.now (looks self.now.shown.now self.now.certificate.now)) }
    {
        let shaped = is_shaped(self.row);
        if !shaped {
            return Ok(Verdict::Rejected(Cause::AnswerShape, 0, 0));
        }
        let verdict = self.check_witnesses(alloc)?;
        Ok(verdict)
    }

    /// From the sets that the answer shows on.
    fn check_witnesses(&self, alloc: Global) -> Result<Verdict, Memory>
        requires sets { ShowsSets self.now.row.now self.now.shown.now }
        requires tested { IsTestedRow self.now.row.now self.now.query.now.task.semantics }
        requires kind { IsRowOf (framework_of self.now.framework.now) self.now.row.now }
        ensures { IfOk result (FindsIn self.now (after_shape self.now.shown.now self.now.certificate.now)) }
    {
        let bad = first_bad_witness(alloc, self.framework, self.query, self.row, self.shown)?;
        if let Some(index) = bad {
            return Ok(Verdict::Rejected(Cause::BadWitness, 0, index + 1));
        }
        let verdict = self.check_order(alloc)?;
        Ok(verdict)
    }

    /// From the order of the listed sets and the grounded set on.
    fn check_order(&self, alloc: Global) -> Result<Verdict, Memory>
        requires { HasSetsOf (framework_of self.now.framework.now) self.now.row.now }
        ensures { IfOk result (FindsIn self.now (after_witnesses self.now.certificate.now)) }
    {
        let ordered = passes_order(alloc, self.framework, self.row)?;
        if !ordered {
            return Ok(Verdict::Rejected(Cause::BadWitness, 0, 0));
        }
        let grounded = passes_grounded(alloc, self.framework, self.query, self.row)?;
        if !grounded {
            return Ok(Verdict::Rejected(Cause::BadWitness, 0, 0));
        }
        let verdict = self.check_set_count(alloc)?;
        Ok(verdict)
    }

    /// From the number of the certificate's sets on.
    fn check_set_count(&self, alloc: Global) -> Result<Verdict, Memory>
        requires { HasSetsOf (framework_of self.now.framework.now) self.now.row.now }
        ensures { IfOk result (FindsIn self.now (after_order self.now.certificate.now)) }
    {
        let takes = takes_sets(self.row, self.certificate.sets.len());
        if !takes {
            return Ok(Verdict::Rejected(Cause::SetCount, 0, 0));
        }
        let verdict = self.check_sets(alloc)?;
        Ok(verdict)
    }

    /// From the certificate's sets on.
    fn check_sets(&self, alloc: Global) -> Result<Verdict, Memory>
        requires { HasSetsOf (framework_of self.now.framework.now) self.now.row.now }
        ensures { IfOk result (FindsIn self.now (after_set_count self.now.certificate.now)) }
    {
        let bad = first_bad_set(
            alloc,
            self.framework,
            self.query,
            self.row,
            self.certificate.sets.as_slice(),
        )?;
        if let Some(index) = bad {
            return Ok(Verdict::Rejected(Cause::BadSet, 0, index + 1));
        }
        let verdict = self.check_refutation_count(alloc)?;
        Ok(verdict)
    }

    /// Checks that there are as many refutations as claims, and then each refutation.
    fn check_refutation_count(&self, alloc: Global) -> Result<Verdict, Memory>
        requires { HasSetsOf (framework_of self.now.framework.now) self.now.row.now }
        ensures { IfOk result (FindsIn self.now (after_sets self.now.certificate.now)) }
    {
        let _task = self.query.task();
        let _count = self.shown.len();
        let claims = claims_of(
            alloc,
            self.framework,
            self.row,
            self.certificate.sets.as_slice(),
        )?;
        let refutations = self.certificate.refutations.as_slice();
        if refutations.len() != claims.len() {
            return Ok(Verdict::Rejected(Cause::RefutationCount, 0, 0));
        }
        let verdict = check_refutations(alloc, self.framework, claims.as_slice(), refutations)?;
        Ok(verdict)
    }
}

/// Whether the listed sets stand to each other as they have to.
fn passes_order(alloc: Global, framework: &Framework, row: &Row) -> Result<bool, Memory>
    requires { HasSetsOf (framework_of framework.now) row.now }
    ensures { IfOk result (λ passes. IsTrue passes ↔ PassesOrder (framework_of framework.now) row.now) }
{
    match row {
        Row::AllTested(_, sets) => Ok(sets_rise(sets.as_slice())),
        Row::AllLargest(sets) => Ok(rise_apart(sets.as_slice())),
        Row::AllWidest(_, sets) => Ok(rise_wide(alloc, framework, sets.as_slice())?),
        _ => Ok(true),
    }
}

/// Whether sets rise and none lies in another.
fn rise_apart(sets: &[NumSet]) -> bool
    ensures { IsTrue result ↔ (SetsRise sets.now × NoneWithin sets.now) }
{
    sets_rise(sets) && none_within(sets)
}

/// Whether sets rise and no range lies in another.
fn rise_wide(alloc: Global, framework: &Framework, sets: &[NumSet]) -> Result<bool, Memory>
    requires { AreSetsOf (framework_of framework.now) sets.now }
    ensures { IfOk result (λ rise. IsTrue rise
        ↔ (SetsRise sets.now × NoRangeWithin (framework_of framework.now) sets.now)) }
{
    let rise = sets_rise(sets);
    if !rise {
        return Ok(false);
    }
    let apart = ranges_apart(alloc, framework, sets)?;
    Ok(apart)
}

/// Whether no set's range lies in another's, by the framework's kind.
fn ranges_apart(alloc: Global, framework: &Framework, sets: &[NumSet]) -> Result<bool, Memory>
    requires { AreSetsOf (framework_of framework.now) sets.now }
    ensures { IfOk result (TellsApart (framework_of framework.now) sets.now) }
{
    match framework {
        Framework::Af(plain) => af_ranges_apart(alloc, plain, sets),
        Framework::Aba(_) => unreachable!(),
    }
}

/// The same in an abstract framework.
fn af_ranges_apart(alloc: Global, plain: &AfPlain, sets: &[NumSet]) -> Result<bool, Memory>
    requires { AreSetsOf (af plain.now) sets.now }
    ensures { IfOk result (TellsApart (af plain.now) sets.now) }
{
    let apart = no_range_within(alloc, plain, sets)?;
    Ok(apart)
}

/// Whether the grounded set says of the query what the row says. A row that isn't about the grounded set passes.
fn passes_grounded(
    alloc: Global,
    framework: &Framework,
    query: &Query,
    row: &Row,
) -> Result<bool, Memory>
    ensures { IfOk result (λ passes. IsTrue passes ↔ PassesGrounded (framework_of framework.now) query.now row.now) }
{
    match row {
        Row::ByGrounded(says) => Ok(grounded_says(alloc, framework, query, *says)?),
        _ => Ok(true),
    }
}

/// Whether the grounded set accepts the query or doesn't, as is said.
fn grounded_says(
    alloc: Global,
    framework: &Framework,
    query: &Query,
    says: bool,
) -> Result<bool, Memory>
    ensures { IfOk result (λ passes. IsTrue passes
        ↔ GroundedSays (framework_of framework.now) says query.now.number) }
{
    match query.number() {
        Some(number) => Ok(grounded_says_of(alloc, framework, number, says)?),
        None => Ok(false),
    }
}

/// Whether the grounded set accepts what is asked about or doesn't, as is said.
fn grounded_says_of(
    alloc: Global,
    framework: &Framework,
    number: u32,
    says: bool,
) -> Result<bool, Memory>
    ensures { IfOk result (λ passes. IsTrue passes ↔ GroundedSays (framework_of framework.now) says (Some number)) }
{
    let accepts = grounded_accepts(alloc, framework, number)?;
    Ok(accepts == says)
}

/// Checks a certificate for an answer to a query. It is `Accepted` exactly where the answer has a shape that its task
/// gives, the direct tests pass, and there is a refutation of each claim; else the first failure is told, in the order
/// in which these are looked at. An answer with an accepted certificate is right.
pub fn check(
    alloc: Global,
    framework: &Framework,
    query: &Query,
    answer: &Answer,
    certificate: &Certificate,
) -> Result<Verdict, Memory>
    ensures verdict { IfOk result (IsVerdict (framework_of framework.now) query.now answer.now certificate.now) }
    ensures right { IfOk result (λ v. v ≡ Verdict.Accepted
        → IsRight (framework_of framework.now) query.now answer.now) }
{
    let _kind = framework.kind();
    let row = row(alloc, framework, query, answer)?;
    let shown = shown_sets(alloc, answer)?;
    let checked = Checked {
        framework,
        query,
        row: &row,
        shown: shown.as_slice(),
        certificate,
    };
    let verdict = checked.check_row(alloc)?;
    Ok(verdict)
}
