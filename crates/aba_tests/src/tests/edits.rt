//! Edits of frameworks with rules: what each one tells and does, that it can be undone, and the last numbers of rules.
//! The order of their refusals is a row of `argue_rows`.

use crate::tests::aba_text::{Shown, framework_of, is_shown};
use aba_notions::{AbaPlain, RuleLists};
use edit_rules::{
    Edit, EditFault, aba_edits_keep_form, aba_effects_determine, apply_aba, numbers_are_given_once,
};
use lists::{Items, Memory};
use set_lists::NumSet;
use std::alloc::Global;
use std::process::Abort;
use std::test::Fail;

/// An edit that borrows its body.
#[derive(Clone, Copy)]
pub(crate) enum Change<'a> {
    AsmAdd(u32, u32),
    AsmDrop(u32),
    ConSet(u32, u32),
    ConAdd(u32, u32),
    ConDrop(u32, u32),
    RuleAdd(u32, &'a [u32]),
    RuleDrop(u32),
}

/// What an effect tells: the rule's number, the contraries that were there, and the head and the body of the rule that
/// went; or why the edit is refused.
type Told<'a> = Result<(u32, &'a [u32], u32, &'a [u32]), EditFault>;

/// What is told of an edit that gives no number and takes nothing away.
const NOTHING: Told<'static> = Ok((0, &[], 0, &[]));

pub(crate) fn edit_of(alloc: Global, change: Change<'_>) -> Result<Edit, Memory> {
    Ok(match change {
        Change::AsmAdd(assumption, contrary) => Edit::AsmAdd(assumption, contrary),
        Change::AsmDrop(assumption) => Edit::AsmDrop(assumption),
        Change::ConSet(assumption, contrary) => Edit::ConSet(assumption, contrary),
        Change::ConAdd(assumption, contrary) => Edit::ConAdd(assumption, contrary),
        Change::ConDrop(assumption, contrary) => Edit::ConDrop(assumption, contrary),
        Change::RuleAdd(head, body) => {
            Edit::RuleAdd(head, Items::from_vec(Vec::from_slice(alloc, body)?))
        }
        Change::RuleDrop(number) => Edit::RuleDrop(number),
    })
}

/// Makes the edit; whether it ends as it is told.
fn ends_so(alloc: Global, framework: &mut AbaPlain, edit: &Edit, told: Told<'_>) -> bool {
    match (apply_aba(alloc, framework, edit), told) {
        (Ok(effect), Ok((rule, gone, head, body))) => {
            effect.edit == *edit
                && (effect.rule, effect.head) == (rule, head)
                && effect.gone.as_slice() == gone
                && effect.body.as_slice() == body
                && effect.dropped.is_empty()
        }
        (Err(fault), Err(told)) => fault == told,
        _ => false,
    }
}

/// A change, what is told of it, and the framework behind it.
type Row = (Change<'static>, Told<'static>, Shown<'static>);

/// Makes the row's edit; whether it ends so, and leaves that framework.
fn holds(alloc: Global, framework: &mut AbaPlain, row: &Row) -> Result<bool, Memory> {
    let edit = edit_of(alloc, row.0)?;
    Ok(ends_so(alloc, framework, &edit, row.1) && is_shown(framework, &row.2))
}

/// Asserts that each row's edit does what the row says, one after the other.
fn follow(
    rt: &impl Abort,
    alloc: Global,
    framework: &mut AbaPlain,
    rows: &[Row],
) -> Result<(), Fail> {
    for (number, row) in rows.iter().enumerate() {
        assert!(rt; holds(alloc, framework, row)?, "row {number}");
    }
    Ok(())
}

/// Two assumptions, each of which derives the contrary of the other.
const RIVALS: &str = "p aba 4\na 1\na 2\nc 1 3\nc 2 4\nr 3 2\nr 4 1\n";

const RIVALS_SHOWN: Shown<'static> = (
    4,
    &[1, 2],
    &[(1, 3), (2, 4)],
    &[(1, 3, &[2]), (2, 4, &[1])],
    3,
);

/// One edit after the other, with what it tells and the framework behind it.
const CHANGES: &[Row] = &[
    (
        Change::ConSet(1, 4),
        Ok((0, &[3], 0, &[])),
        (
            4,
            &[1, 2],
            &[(1, 4), (2, 4)],
            &[(1, 3, &[2]), (2, 4, &[1])],
            3,
        ),
    ),
    (
        Change::ConSet(1, 4),
        Ok((0, &[4], 0, &[])),
        (
            4,
            &[1, 2],
            &[(1, 4), (2, 4)],
            &[(1, 3, &[2]), (2, 4, &[1])],
            3,
        ),
    ),
    (Change::ConSet(1, 3), Ok((0, &[4], 0, &[])), RIVALS_SHOWN),
    (
        Change::ConSet(2, 0),
        Ok((0, &[4], 0, &[])),
        (4, &[1, 2], &[(1, 3)], &[(1, 3, &[2]), (2, 4, &[1])], 3),
    ),
    (Change::ConSet(2, 4), NOTHING, RIVALS_SHOWN),
    (
        Change::AsmDrop(1),
        Ok((0, &[3], 0, &[])),
        (4, &[2], &[(2, 4)], &[(1, 3, &[2]), (2, 4, &[1])], 3),
    ),
    (Change::AsmAdd(1, 3), NOTHING, RIVALS_SHOWN),
    (
        Change::RuleDrop(1),
        Ok((0, &[], 3, &[2])),
        (4, &[1, 2], &[(1, 3), (2, 4)], &[(2, 4, &[1])], 3),
    ),
    (
        Change::RuleDrop(1),
        Err(EditFault::NoSuchRule(1)),
        (4, &[1, 2], &[(1, 3), (2, 4)], &[(2, 4, &[1])], 3),
    ),
    (
        Change::RuleAdd(3, &[2]),
        Ok((3, &[], 0, &[])),
        (
            4,
            &[1, 2],
            &[(1, 3), (2, 4)],
            &[(2, 4, &[1]), (3, 3, &[2])],
            4,
        ),
    ),
    (
        Change::RuleDrop(3),
        Ok((0, &[], 3, &[2])),
        (4, &[1, 2], &[(1, 3), (2, 4)], &[(2, 4, &[1])], 4),
    ),
    (
        Change::RuleAdd(4, &[3, 1, 3, 2, 1]),
        Ok((4, &[], 0, &[])),
        (
            4,
            &[1, 2],
            &[(1, 3), (2, 4)],
            &[(2, 4, &[1]), (4, 4, &[1, 2, 3])],
            5,
        ),
    ),
    (
        Change::RuleDrop(4),
        Ok((0, &[], 4, &[1, 2, 3])),
        (4, &[1, 2], &[(1, 3), (2, 4)], &[(2, 4, &[1])], 5),
    ),
    (
        Change::RuleDrop(2),
        Ok((0, &[], 4, &[1])),
        (4, &[1, 2], &[(1, 3), (2, 4)], &[], 5),
    ),
    (
        Change::AsmDrop(2),
        Ok((0, &[4], 0, &[])),
        (4, &[1], &[(1, 3)], &[], 5),
    ),
    (
        Change::RuleAdd(2, &[]),
        Ok((5, &[], 0, &[])),
        (4, &[1], &[(1, 3)], &[(5, 2, &[])], 6),
    ),
    (
        Change::AsmAdd(2, 2),
        Err(EditFault::NotFlat(2)),
        (4, &[1], &[(1, 3)], &[(5, 2, &[])], 6),
    ),
    (
        Change::RuleDrop(5),
        Ok((0, &[], 2, &[])),
        (4, &[1], &[(1, 3)], &[], 6),
    ),
    (
        Change::AsmAdd(4, 1),
        NOTHING,
        (4, &[1, 4], &[(1, 3), (4, 1)], &[], 6),
    ),
    (
        Change::AsmAdd(2, 2),
        NOTHING,
        (4, &[1, 2, 4], &[(1, 3), (2, 2), (4, 1)], &[], 6),
    ),
];

/// Contraries of one assumption that come and go.
const CONTRARIES: &[Row] = &[
    (
        Change::ConAdd(1, 2),
        NOTHING,
        (4, &[1, 4], &[(1, 2), (1, 3), (4, 1)], &[], 1),
    ),
    (
        Change::ConAdd(1, 4),
        NOTHING,
        (4, &[1, 4], &[(1, 2), (1, 3), (1, 4), (4, 1)], &[], 1),
    ),
    (
        Change::ConAdd(1, 3),
        Err(EditFault::ContraryIsThere),
        (4, &[1, 4], &[(1, 2), (1, 3), (1, 4), (4, 1)], &[], 1),
    ),
    (
        Change::ConDrop(1, 3),
        NOTHING,
        (4, &[1, 4], &[(1, 2), (1, 4), (4, 1)], &[], 1),
    ),
    (
        Change::ConDrop(1, 3),
        Err(EditFault::NoSuchContrary),
        (4, &[1, 4], &[(1, 2), (1, 4), (4, 1)], &[], 1),
    ),
    (
        Change::ConSet(1, 4),
        Ok((0, &[2, 4], 0, &[])),
        (4, &[1, 4], &[(1, 4), (4, 1)], &[], 1),
    ),
    (
        Change::ConAdd(1, 1),
        NOTHING,
        (4, &[1, 4], &[(1, 1), (1, 4), (4, 1)], &[], 1),
    ),
    (
        Change::AsmDrop(1),
        Ok((0, &[1, 4], 0, &[])),
        (4, &[4], &[(4, 1)], &[], 1),
    ),
    (
        Change::AsmAdd(2, 0),
        NOTHING,
        (4, &[2, 4], &[(4, 1)], &[], 1),
    ),
];

/// A text, and the edits that are made of its framework, one after the other.
const COURSES: &[(&str, &[Row])] = &[
    (RIVALS, CHANGES),
    ("p aba 4\na 1\na 4\nc 1 3\nc 4 1\n", CONTRARIES),
];

/// One assumption and no rule; the next rule gets the last number.
const ONE_LEFT: Shown<'static> = (2, &[1], &[(1, 2)], &[], 1_000_000);

/// The last rule, and then none.
const MAX_RULE: Shown<'static> = (2, &[1], &[(1, 2)], &[(1_000_000, 2, &[1, 2])], 1_000_001);

const NONE_LEFT: Shown<'static> = (2, &[1], &[(1, 2)], &[], 1_000_001);

/// Edits of a framework whose next rule gets the last number. After it none is left, whatever goes.
const LAST_NUMBERS: &[Row] = &[
    (Change::AsmAdd(1, 2), NOTHING, ONE_LEFT),
    (
        Change::RuleAdd(2, &[2, 1, 2]),
        Ok((1_000_000, &[], 0, &[])),
        MAX_RULE,
    ),
    (
        Change::RuleAdd(2, &[3]),
        Err(EditFault::OutOfRange(3)),
        MAX_RULE,
    ),
    (
        Change::RuleAdd(1, &[]),
        Err(EditFault::NotFlat(1)),
        MAX_RULE,
    ),
    (
        Change::RuleAdd(2, &[]),
        Err(EditFault::OutOfRange(1_000_001)),
        MAX_RULE,
    ),
    (
        Change::RuleDrop(1_000_000),
        Ok((0, &[], 2, &[1, 2])),
        NONE_LEFT,
    ),
    (
        Change::RuleAdd(2, &[]),
        Err(EditFault::OutOfRange(1_000_001)),
        NONE_LEFT,
    ),
    (
        Change::RuleDrop(1_000_000),
        Err(EditFault::NoSuchRule(1_000_000)),
        NONE_LEFT,
    ),
];

#[test]
fn changes(rt: HostRuntime) -> Result<(), Fail> {
    aba_edits_keep_form();
    aba_effects_determine();
    numbers_are_given_once();
    for &(text, rows) in COURSES {
        let Some(mut framework) = framework_of(rt.alloc(), text) else {
            assert!(rt; false, "not read");
            return Ok(());
        };
        follow(&rt, rt.alloc(), &mut framework, rows)?;
    }
    Ok(())
}

/// The atoms 1 and 2 without an assumption or a rule, where the next rule gets the last number.
fn one_number_left(alloc: Global) -> Result<AbaPlain, Memory> {
    let rules = RuleLists {
        numbers: Vec::new(alloc),
        heads: Vec::new(alloc),
        bodies: Vec::new(alloc),
    };
    AbaPlain::new(
        alloc,
        2,
        NumSet::new(alloc),
        Vec::new(alloc),
        rules,
        1_000_000,
    )
}

#[test]
fn last_numbers(rt: HostRuntime) -> Result<(), Fail> {
    let mut framework = one_number_left(rt.alloc())?;
    follow(&rt, rt.alloc(), &mut framework, LAST_NUMBERS)
}
