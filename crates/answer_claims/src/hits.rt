//! What sets attack.

ghost use Rattle.std.specs.Prelude.{IfOk};
ghost use Rattle.edit_rules.specs.Kinds.{framework_of};
ghost use Rattle.set_tests.specs.Bases.{AreTests};
ghost use Rattle.answer_claims.specs.SetFacts.{IsHitBy};

use edit_rules::Framework;
use lists::Memory;
use marked_rules::SetMarks;
use set_lists::NumSet;
use set_tests::{SetTests, uses_of};
use std::alloc::Global;

/// What some set of a list attacks.
pub(crate) fn hit_by(
    alloc: Global,
    framework: &Framework,
    sets: &[NumSet],
) -> Result<NumSet, Memory>
    ensures { IfOk result (IsHitBy (framework_of framework.now) sets.now) }
{
    let uses = uses_of(alloc, framework)?;
    let mut marks = SetMarks::new(alloc);
    let tests = SetTests {
        framework,
        uses: &uses,
    };
    let hit = all_attacked(alloc, &tests, sets, &mut marks)?;
    Ok(hit)
}

/// The same, by tests of sets.
fn all_attacked(
    alloc: Global,
    tests: &SetTests<'_>,
    sets: &[NumSet],
    marks: &mut SetMarks,
) -> Result<NumSet, Memory>
    requires { AreTests tests.now }
    ensures { IfOk result (IsHitBy (framework_of tests.now.framework.now) sets.now) }
{
    let mut found = Vec::new(alloc);
    for index in 0..sets.len() {
        tests.add_attacked(alloc, &sets[index], &mut found, marks)?;
    }
    let hit = NumSet::from_slice(alloc, &found)?;
    Ok(hit)
}
