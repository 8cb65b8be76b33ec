//! The direct tests, which look at sets alone.

ghost use Rattle.std.specs.Prelude.{◌≡◌, ◌↔◌, ◌<◌, [], length, slice_index_or, Contains, IfOk, IsTrue};
ghost use Rattle.meaning_atoms.specs.declared.atom.Atom.TheVariants.{Ad};
ghost use Rattle.meaning_atoms.specs.Worlds.{HoldsOf};
ghost use Rattle.certificate_claims.specs.declared.row.Row.TheVariants.{Ideal};
ghost use Rattle.certificate_claims.specs.Acceptance.{AcceptsAsSaid, IsShaped, IsShown, PassesSet, PassesTest, Suits, TakesSets};
ghost use Rattle.certificate_claims.specs.Claims.{mode_atom};
ghost use Rattle.certificate_claims.specs.Rights.{Accepts, IsExtension};
ghost use Rattle.edit_rules.specs.Kinds.{framework_of};
ghost use Rattle.set_tests.specs.Bases.{AreTests, IsBasis, IsTested};
ghost use Rattle.certificate_check.specs.Witnesses.{IsTestedRow};
ghost use Rattle.certificate_check.specs.Standing.{IsFirstWithout};

use certificate_claims::Row;
use edit_rules::Framework;
use iccma_tasks::{Problem, Query};
use lists::Memory;
use marked_rules::SetMarks;
use semantics::Mode;
use set_lists::NumSet;
use set_tests::{Basis, SetTests, basis_of, uses_of};
use std::alloc::Global;

/// Whether the answer has a shape that its task gives.
pub(crate) fn is_shaped(row: &Row) -> bool
    ensures { IsTrue result ↔ IsShaped row.now }
{
    match row {
        Row::Misshapen => false,
        _ => true,
    }
}

/// Whether a set that shows YES to DC accepts the query, and one that shows NO to DS doesn't.
fn suits(
    alloc: Global,
    tests: &SetTests,
    query: &Query,
    set: &NumSet,
    marks: &mut SetMarks,
) -> Result<bool, Memory>
    requires { AreTests tests.now }
    ensures { IfOk result (λ suits. IsTrue suits
        ↔ Suits (framework_of tests.now.framework.now) query.now.task.problem query.now.number set.now) }
{
    match (query.task().problem, query.number()) {
        (Problem::Credulous, Some(number)) => Ok(tests.accepts(alloc, set, number, marks)?),
        (Problem::Sceptical, Some(number)) => Ok(refuses(alloc, tests, set, number, marks)?),
        _ => Ok(true),
    }
}

/// Whether a set doesn't accept what is asked about.
fn refuses(
    alloc: Global,
    tests: &SetTests,
    set: &NumSet,
    number: u32,
    marks: &mut SetMarks,
) -> Result<bool, Memory>
    requires { AreTests tests.now }
    ensures { IfOk result (λ refuses. IsTrue refuses
        ↔ (Accepts (framework_of tests.now.framework.now) set.now number → ⊥)) }
{
    let accepts = tests.accepts(alloc, set, number, marks)?;
    Ok(!accepts)
}

/// Whether a set is of the mode and suits the query.
fn is_suitable(
    alloc: Global,
    tests: &SetTests,
    query: &Query,
    mode: Mode,
    set: &NumSet,
    marks: &mut SetMarks,
) -> Result<bool, Memory>
    requires { AreTests tests.now }
    ensures { IfOk result (λ is. IsTrue is ↔ (HoldsOf (framework_of tests.now.framework.now) set.now (mode_atom mode)
        × Suits (framework_of tests.now.framework.now) query.now.task.problem query.now.number set.now)) }
{
    let has_mode = tests.is_of_mode(alloc, mode, set, marks)?;
    if !has_mode {
        return Ok(false);
    }
    let suits = suits(alloc, tests, query, set, marks)?;
    Ok(suits)
}

/// Whether a set is an extension and suits the query.
fn is_suitable_extension(
    alloc: Global,
    tests: &SetTests,
    query: &Query,
    basis: &Basis,
    set: &NumSet,
    marks: &mut SetMarks,
) -> Result<bool, Memory>
    requires tests { AreTests tests.now }
    requires tested { IsTested query.now.task.semantics }
    requires basis { IsBasis (framework_of tests.now.framework.now) query.now.task.semantics basis.now }
    ensures { IfOk result (λ is. IsTrue is
        ↔ (IsExtension (framework_of tests.now.framework.now) query.now.task.semantics set.now
        × Suits (framework_of tests.now.framework.now) query.now.task.problem query.now.number set.now)) }
{
    let extension = tests.is_extension(alloc, query.task().semantics, basis, set, marks)?;
    if !extension {
        return Ok(false);
    }
    let suits = suits(alloc, tests, query, set, marks)?;
    Ok(suits)
}

/// Whether a set that the answer shows passes its test.
fn passes_test(
    alloc: Global,
    tests: &SetTests,
    query: &Query,
    row: &Row,
    basis: &Basis,
    set: &NumSet,
    marks: &mut SetMarks,
) -> Result<bool, Memory>
    requires tests { AreTests tests.now }
    requires row { IsTestedRow row.now query.now.task.semantics }
    requires basis { IsBasis (framework_of tests.now.framework.now) query.now.task.semantics basis.now }
    ensures { IfOk result (λ passes. IsTrue passes
        ↔ PassesTest (framework_of tests.now.framework.now) query.now row.now set.now) }
{
    match row {
        Row::Tested(_) => Ok(is_suitable_extension(alloc, tests, query, basis, set, marks)?),
        Row::Largest(_) => Ok(is_suitable(alloc, tests, query, Mode::Ad, set, marks)?),
        Row::Widest(mode, _) => Ok(is_suitable(alloc, tests, query, *mode, set, marks)?),
        Row::AllTested(_, _) => {
            let semantics = query.task().semantics;
            Ok(tests.is_extension(alloc, semantics, basis, set, marks)?)
        }
        Row::AllLargest(_) => Ok(tests.is_admissible(alloc, set, marks)?),
        Row::AllWidest(mode, _) => Ok(tests.is_of_mode(alloc, *mode, set, marks)?),
        _ => Ok(true),
    }
}

/// The index of the first set that the answer shows and that fails its test, if there is one.
fn first_failing(
    alloc: Global,
    tests: &SetTests,
    query: &Query,
    row: &Row,
    basis: &Basis,
    shown: &[NumSet],
    marks: &mut SetMarks,
) -> Result<Option<usize>, Memory>
    requires tests { AreTests tests.now }
    requires row { IsTestedRow row.now query.now.task.semantics }
    requires basis { IsBasis (framework_of tests.now.framework.now) query.now.task.semantics basis.now }
    ensures { IfOk result (IsFirstWithout (λ k. PassesTest (framework_of tests.now.framework.now) query.now row.now
        (slice_index_or shown.now k [])) (length shown.now)) }
{
    for index in 0..shown.len() {
        let passes = passes_test(alloc, tests, query, row, basis, &shown[index], marks)?;
        if !passes {
            return Ok(Some(index));
        }
    }
    Ok(None)
}

/// The index of the first set that the answer shows and that fails its test, if there is one.
pub(crate) fn first_bad_witness(
    alloc: Global,
    framework: &Framework,
    query: &Query,
    row: &Row,
    shown: &[NumSet],
) -> Result<Option<usize>, Memory>
    requires { IsTestedRow row.now query.now.task.semantics }
    ensures { IfOk result (IsFirstWithout (λ k. PassesTest (framework_of framework.now) query.now row.now
        (slice_index_or shown.now k [])) (length shown.now)) }
{
    if shown.is_empty() {
        return Ok(None);
    }
    let basis = basis_of(alloc, framework, query.task().semantics)?;
    let uses = uses_of(alloc, framework)?;
    let mut marks = SetMarks::new(alloc);
    let tests = SetTests {
        framework,
        uses: &uses,
    };
    let bad = first_failing(alloc, &tests, query, row, &basis, shown, &mut marks)?;
    Ok(bad)
}

/// Whether the certificate has as many sets as the row takes.
pub(crate) fn takes_sets(row: &Row, count: usize) -> bool
    ensures { IsTrue result ↔ TakesSets row.now count }
{
    match row {
        Row::Covered(_) | Row::Ranged(_, _) => true,
        Row::Ideal(_, _) => 0 < count,
        _ => count == 0,
    }
}

/// Whether a set is the one that is shown, if one is.
fn is_shown(shown: &Option<NumSet>, set: &NumSet) -> bool
    ensures { IsTrue result ↔ IsShown shown.now set.now }
{
    match shown {
        None => true,
        Some(shown) => is_equal(set, shown),
    }
}

/// Whether two sets are the same list.
fn is_equal(set: &NumSet, other: &NumSet) -> bool
    ensures { IsTrue result ↔ (set.now ≡ other.now) }
{
    set.as_slice() == other.as_slice()
}

/// Whether a set is admissible and accepts what is asked about.
fn covers(
    alloc: Global,
    tests: &SetTests,
    set: &NumSet,
    number: u32,
    marks: &mut SetMarks,
) -> Result<bool, Memory>
    requires { AreTests tests.now }
    ensures { IfOk result (λ covers. IsTrue covers ↔ (HoldsOf (framework_of tests.now.framework.now) set.now Ad
        × Accepts (framework_of tests.now.framework.now) set.now number)) }
{
    let admissible = tests.is_admissible(alloc, set, marks)?;
    if !admissible {
        return Ok(false);
    }
    let accepts = tests.accepts(alloc, set, number, marks)?;
    Ok(accepts)
}

/// Whether a set accepts the query or not, as is said, if it is.
fn accepts_as_said(
    alloc: Global,
    tests: &SetTests,
    number: Option<u32>,
    says: Option<bool>,
    set: &NumSet,
    marks: &mut SetMarks,
) -> Result<bool, Memory>
    requires { AreTests tests.now }
    ensures { IfOk result (λ accepts. IsTrue accepts
        ↔ AcceptsAsSaid (framework_of tests.now.framework.now) number says set.now) }
{
    match (number, says) {
        (Some(number), Some(true)) => Ok(tests.accepts(alloc, set, number, marks)?),
        (Some(number), Some(false)) => Ok(refuses(alloc, tests, set, number, marks)?),
        (_, None) => Ok(true),
        (None, Some(_)) => Ok(false),
    }
}

/// Whether the certificate's set at an index passes its test.
fn passes_set(
    alloc: Global,
    tests: &SetTests,
    query: &Query,
    row: &Row,
    index: usize,
    set: &NumSet,
    marks: &mut SetMarks,
) -> Result<bool, Memory>
    requires { AreTests tests.now }
    ensures { IfOk result (λ passes. IsTrue passes
        ↔ PassesSet (framework_of tests.now.framework.now) query.now row.now index set.now) }
{
    match row {
        Row::Covered(number) => Ok(covers(alloc, tests, set, *number, marks)?),
        Row::Ranged(mode, _) => Ok(tests.is_of_mode(alloc, *mode, set, marks)?),
        Row::Ideal(shown, says) => {
            let passes = passes_ideal(alloc, tests, query, shown, *says, index, set, marks)?;
            Ok(passes)
        }
        _ => Ok(true),
    }
}

/// Whether the set at an index of a certificate for the ideal set passes its test.
fn passes_ideal(
    alloc: Global,
    tests: &SetTests,
    query: &Query,
    shown: &Option<NumSet>,
    says: Option<bool>,
    index: usize,
    set: &NumSet,
    marks: &mut SetMarks,
) -> Result<bool, Memory>
    requires { AreTests tests.now }
    ensures { IfOk result (λ passes. IsTrue passes
        ↔ PassesSet (framework_of tests.now.framework.now) query.now (Ideal shown.now says) index set.now) }
{
    if index == 0 {
        let first = is_ideal_shown(alloc, tests, query, shown, says, set, marks)?;
        return Ok(first);
    }
    let admissible = tests.is_admissible(alloc, set, marks)?;
    Ok(admissible)
}

/// Whether a set is admissible, the one that the answer shows, and accepts the query or not as the answer says.
fn is_ideal_shown(
    alloc: Global,
    tests: &SetTests,
    query: &Query,
    shown: &Option<NumSet>,
    says: Option<bool>,
    set: &NumSet,
    marks: &mut SetMarks,
) -> Result<bool, Memory>
    requires { AreTests tests.now }
    ensures { IfOk result (λ is. IsTrue is
        ↔ (HoldsOf (framework_of tests.now.framework.now) set.now Ad × (IsShown shown.now set.now
        × AcceptsAsSaid (framework_of tests.now.framework.now) query.now.number says set.now))) }
{
    let admissible = tests.is_admissible(alloc, set, marks)?;
    if !admissible {
        return Ok(false);
    }
    let same = is_shown(shown, set);
    if !same {
        return Ok(false);
    }
    let accepts = accepts_as_said(alloc, tests, query.number(), says, set, marks)?;
    Ok(accepts)
}

/// The index of the first set of the certificate that fails its test, if there is one.
fn first_failing_set(
    alloc: Global,
    tests: &SetTests,
    query: &Query,
    row: &Row,
    sets: &[NumSet],
    marks: &mut SetMarks,
) -> Result<Option<usize>, Memory>
    requires { AreTests tests.now }
    ensures { IfOk result (IsFirstWithout (λ k. PassesSet (framework_of tests.now.framework.now) query.now row.now k
        (slice_index_or sets.now k [])) (length sets.now)) }
{
    for index in 0..sets.len() {
        let passes = passes_set(alloc, tests, query, row, index, &sets[index], marks)?;
        if !passes {
            return Ok(Some(index));
        }
    }
    Ok(None)
}

/// The index of the first set of the certificate that fails its test, if there is one.
pub(crate) fn first_bad_set(
    alloc: Global,
    framework: &Framework,
    query: &Query,
    row: &Row,
    sets: &[NumSet],
) -> Result<Option<usize>, Memory>
    ensures { IfOk result (IsFirstWithout (λ k. PassesSet (framework_of framework.now) query.now row.now k
        (slice_index_or sets.now k [])) (length sets.now)) }
{
    if sets.is_empty() {
        return Ok(None);
    }
    let uses = uses_of(alloc, framework)?;
    let mut marks = SetMarks::new(alloc);
    let tests = SetTests {
        framework,
        uses: &uses,
    };
    let bad = first_failing_set(alloc, &tests, query, row, sets, &mut marks)?;
    Ok(bad)
}
