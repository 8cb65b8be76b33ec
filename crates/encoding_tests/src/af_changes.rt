//! The axioms that edits call for, as they were worked out by hand.

ghost use Rattle.edit_rules.specs.Kinds.{framework_of};
ghost use Rattle.af_encoding.specs.Changes.{IsEdited};

use af_encoding::changed;
use dung_notions::AfPlain;
use edit_rules::{Edit, EditFault, Effect, Framework, apply};
use lists::{Items, Memory};
use meaning_atoms::AfAxiom::{A1, A2, A3, A4, A5, A6, A7, A8, A9, A10, A11, A12, A13};
use meaning_atoms::{AfAxiom, AxiomName};
use std::alloc::Global;
use std::process::Abort;
use std::test::Fail;

/// Attacks between the arguments 1, 2 and 3, an edit, and the axioms that it calls for.
type Row<'a> = (&'a [(u32, u32)], Change, &'a [AfAxiom]);

/// An edit, as a value that a constant may hold.
#[derive(Clone, Copy)]
enum Change {
    Argument(u32),
    NoArgument(u32),
    Attack(u32, u32),
    NoAttack(u32, u32),
}

/// 1 and 2 attack each other, and 2 attacks 3.
const MUTUAL: &[(u32, u32)] = &[(1, 2), (2, 1), (2, 3)];
/// The same without the attack of 2 on 1.
const CHAIN: &[(u32, u32)] = &[(1, 2), (2, 3)];
/// The same as the first, and 1 attacks 3.
const BOTH: &[(u32, u32)] = &[(1, 2), (1, 3), (2, 1), (2, 3)];

const ROWS: &[Row<'_>] = &[
    (MUTUAL, Change::NoAttack(2, 1), &[A6(1, 1), A9(1, 1)]),
    (
        CHAIN,
        Change::Attack(2, 1),
        &[
            A2(2, 1),
            A3(2, 1),
            A4(2, 1),
            A5(1, 1, 2),
            A8(1, 1, 2),
            A6(1, 3),
            A9(1, 3),
        ],
    ),
    (
        MUTUAL,
        Change::Attack(1, 3),
        &[
            A2(1, 3),
            A3(1, 3),
            A4(1, 3),
            A5(3, 1, 1),
            A8(3, 1, 1),
            A5(3, 2, 2),
            A8(3, 2, 2),
        ],
    ),
    (BOTH, Change::NoAttack(1, 3), &[A5(3, 1, 2), A8(3, 1, 2)]),
    (BOTH, Change::NoAttack(2, 3), &[A6(3, 2), A9(3, 2)]),
    (
        MUTUAL,
        Change::NoArgument(2),
        &[A6(1, 1), A9(1, 1), A6(3, 1), A9(3, 1)],
    ),
    (
        MUTUAL,
        Change::Argument(9),
        &[
            A1(9),
            A6(9, 1),
            A7(9),
            A9(9, 1),
            A10(9),
            A11(9),
            A12(9),
            A13(9),
        ],
    ),
];

fn edit_of(change: Change) -> Edit {
    match change {
        Change::Argument(number) => Edit::ArgAdd(number),
        Change::NoArgument(number) => Edit::ArgDrop(number),
        Change::Attack(attacker, target) => Edit::AttackAdd(attacker, target),
        Change::NoAttack(attacker, target) => Edit::AttackDrop(attacker, target),
    }
}

/// Whether the list has just the row's axioms.
fn are(names: &[AxiomName], row: &[AfAxiom]) -> bool {
    names.len() == row.len()
        && row.iter().all(|name| names.iter().any(|other| *other == AxiomName::Af(*name)))
}

/// The axioms that an edit of a framework calls for.
fn called(alloc: Global, plain: AfPlain, edit: &Edit) -> Result<Items<AxiomName>, EditFault> {
    let _live = plain.live();
    let mut framework = Framework::Af(plain);
    let effect = apply(alloc, &mut framework, edit)?;
    called_behind(alloc, &framework, &effect)
}

/// The axioms that an edit called for, by the framework behind it.
fn called_behind(
    alloc: Global,
    framework: &Framework,
    effect: &Effect,
) -> Result<Items<AxiomName>, EditFault>
    requires { IsEdited (framework_of framework.now) effect.now }
{
    match framework {
        Framework::Af(after) => Ok(changed(alloc, after, effect)?),
        Framework::Aba(_) => Err(EditFault::WrongKind),
    }
}

fn holds(alloc: Global, row: &Row<'_>) -> Result<bool, EditFault> {
    let (attacks, change, names) = *row;
    let plain = AfPlain::of_lists(alloc, &[1, 2, 3], attacks)?;
    let found = called(alloc, plain, &edit_of(change))?;
    Ok(are(found.as_slice(), names))
}

#[test]
fn edits(rt: HostRuntime) -> Result<(), Fail> {
    for (number, row) in ROWS.iter().enumerate() {
        assert!(rt; holds(rt.alloc(), row) == Ok(true), "row {number}");
    }
    Ok(())
}
