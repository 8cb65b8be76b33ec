//! What a set attacks, by the kind of its framework.

ghost use Rattle.std.specs.Prelude.{OnOk};
ghost use Rattle.semantics.specs.Frameworks.{aba, af};
ghost use Rattle.dung_notions.specs.Ranges.{GainsTargets};
ghost use Rattle.edit_rules.specs.Kinds.{framework_of};
ghost use Rattle.marked_rules.specs.Search.{IsUsesOf};
ghost use Rattle.set_tests.specs.Attacks.{GainsAttacked};
ghost use Rattle.set_tests.specs.Bases.{AreTests};

use crate::kinds::SetTests;
use aba_notions::AbaPlain;
use dung_notions::AfPlain;
use edit_rules::Framework;
use lists::Memory;
use marked_rules::{RuleUses, SetMarks, assumptions};
use set_lists::NumSet;
use std::alloc::Global;

impl SetTests<'_> {
    /// Adds what a set attacks.
    pub fn add_attacked(
        &self,
        alloc: Global,
        set: &NumSet,
        found: &mut Vec<u32>,
        marks: &mut SetMarks,
    ) -> Result<(), Memory>
        requires { AreTests self.now }
        ensures { OnOk result (GainsAttacked (framework_of self.now.framework.now) set.now found.old.items
            found.new.items) }
    {
        match self.framework {
            Framework::Af(plain) => add_targets_of(plain, set, found),
            Framework::Aba(plain) => add_assumptions(alloc, plain, self.uses, set, found, marks),
        }
    }
}

/// The same in an abstract framework. It meets each attack that leaves a member once.
fn add_targets_of(plain: &AfPlain, set: &NumSet, found: &mut Vec<u32>) -> Result<(), Memory>
    ensures { OnOk result (GainsAttacked (af plain.now) set.now found.old.items found.new.items) }
{
    for member in set.as_slice() {
        add_targets(plain, *member, found)?;
    }
    Ok(())
}

/// Adds what an argument attacks.
fn add_targets(plain: &AfPlain, argument: u32, found: &mut Vec<u32>) -> Result<(), Memory>
    ensures { OnOk result (GainsTargets plain.now argument found.old.items found.new.items) }
{
    let targets = plain.targets_of(argument);
    for pair in targets {
        found.push(pair.1)?;
    }
    Ok(())
}

/// The same in an assumption-based framework: the assumptions of which the set derives a contrary.
fn add_assumptions(
    alloc: Global,
    plain: &AbaPlain,
    uses: &RuleUses,
    set: &NumSet,
    found: &mut Vec<u32>,
    marks: &mut SetMarks,
) -> Result<(), Memory>
    requires { IsUsesOf plain.now uses.now }
    ensures { OnOk result (GainsAttacked (aba plain.now) set.now found.old.items found.new.items) }
{
    let attacked = assumptions::attacked_by(alloc, plain, uses, set, marks)?;
    found.extend_from_slice(attacked.as_slice())?;
    Ok(())
}
