//! Side clauses, which are made only where a step names them.

ghost use Rattle.std.specs.Prelude.{◌≡◌, [], ◌∷◌, ◌++◌, not, map, filter, IfOk, OnOk};
ghost use Rattle.meaning_atoms.specs.declared.atom.Atom.TheVariants.{Ask};
ghost use Rattle.meaning_atoms.specs.Literals.{denied};
ghost use Rattle.certificate_claims.specs.SetLiterals.{attacked, has, members, wider};
ghost use Rattle.edit_rules.specs.Kinds.{framework_of};
ghost use Rattle.answer_claims.specs.SideClauses.{side_of};
ghost use Rattle.certificate_claims.specs.Words.{literal_of};

use crate::kinds::{members_of, range_of};
use certificate_claims::{Word, push_all};
use edit_rules::Framework;
use lists::Memory;
use meaning_atoms::{Atom, AtomLit};
use set_lists::NumSet;
use std::alloc::Global;

/// What a side clause says of a set.
#[derive(Clone, Copy)]
pub enum SideKind {
    /// Some member lies outside the set.
    Outside,
    /// Some member lies outside the set, or some member of it is none.
    Differs,
    /// Something is in the range that isn't in the set's range.
    Wider,
    /// A member of the set is attacked.
    Attacked,
}

/// Whether a number is no member.
fn lacks(set: &NumSet, number: u32) -> bool
    ensures { result ≡ not (has set.now number) }
{
    !set.contains(number)
}

/// Adds a number if it is no member.
fn add_if_lacking(found: &mut Vec<u32>, set: &NumSet, number: u32) -> Result<(), Memory>
    ensures { OnOk result (found.new.items
        ≡ found.old.items ++ filter (λ x. not (has set.now x)) (number ∷ [])) }
{
    let lacking = lacks(set, number);
    if lacking {
        found.push(number)?;
        return Ok(());
    }
    Ok(())
}

/// Those of the numbers that are no members.
fn numbers_outside(alloc: Global, numbers: &[u32], set: &NumSet) -> Result<Vec<u32>, Memory>
    ensures { IfOk result (λ found. found.items ≡ filter (λ x. not (has set.now x)) numbers.now) }
{
    let mut found = Vec::new(alloc);
    for number in numbers {
        add_if_lacking(&mut found, set, *number)?;
    }
    Ok(found)
}

/// Adds, of the numbers that sets are made of, the literals of those that the set lacks.
fn push_lacking(
    alloc: Global,
    clause: &mut Vec<AtomLit>,
    framework: &Framework,
    word: Word,
    set: &NumSet,
) -> Result<(), Memory>
    ensures { OnOk result (clause.new.items ≡ clause.old.items ++ map (literal_of word)
        (filter (λ x. not (has set.now x)) (members (framework_of framework.now)))) }
{
    let numbers = numbers_outside(alloc, members_of(framework), set)?;
    push_all(clause, word, numbers.as_slice())
}

/// Adds the literals of a side clause.
fn push_side(
    alloc: Global,
    clause: &mut Vec<AtomLit>,
    framework: &Framework,
    kind: SideKind,
    set: &NumSet,
) -> Result<(), Memory>
    ensures { OnOk result (clause.new.items ≡ clause.old.items ++ side_of (framework_of framework.now) kind set.now) }
{
    match kind {
        SideKind::Outside => push_lacking(alloc, clause, framework, Word::In, set),
        SideKind::Differs => {
            push_lacking(alloc, clause, framework, Word::In, set)?;
            push_all(clause, Word::Out, set.as_slice())
        }
        SideKind::Wider => push_wider(alloc, clause, framework, set),
        SideKind::Attacked => push_attacked(clause, framework, set),
    }
}

/// Adds the side clause "the range is wider than the set's": a literal `Range` of each argument outside the set's
/// range.
fn push_wider(
    alloc: Global,
    clause: &mut Vec<AtomLit>,
    framework: &Framework,
    set: &NumSet,
) -> Result<(), Memory>
    ensures { OnOk result (clause.new.items ≡ clause.old.items ++ wider (framework_of framework.now) set.now) }
{
    let range = range_of(alloc, framework, set)?;
    push_lacking(alloc, clause, framework, Word::Ranged, &range)?;
    Ok(())
}

/// Adds the literals that a member of the set is attacked.
fn push_attacked(
    clause: &mut Vec<AtomLit>,
    framework: &Framework,
    set: &NumSet,
) -> Result<(), Memory>
    ensures { OnOk result (clause.new.items ≡ clause.old.items ++ attacked (framework_of framework.now) set.now) }
{
    match framework {
        Framework::Af(_) => push_all(clause, Word::Struck, set.as_slice()),
        Framework::Aba(_) => push_all(clause, Word::Contrary, set.as_slice()),
    }
}

/// The clause of a step that names a side clause by its number. It may have a literal for each argument.
/// `Memory` says that an allocation was refused.
pub fn side_clause(
    alloc: Global,
    framework: &Framework,
    kind: SideKind,
    set: &NumSet,
    number: u32,
) -> Result<Vec<AtomLit>, Memory>
    ensures { IfOk result (λ clause. clause.items
        ≡ denied (Ask number) ∷ side_of (framework_of framework.now) kind set.now) }
{
    let mut clause = Vec::new(alloc);
    clause.push(AtomLit {
        atom: Atom::Ask(number),
        positive: false,
    })?;
    push_side(alloc, &mut clause, framework, kind, set)?;
    Ok(clause)
}
