//! The row of an answer in the table of certificates.

ghost use Rattle.std.specs.Bool.{OnFalse, OnTrue};
ghost use Rattle.std.specs.Prelude.{◌≡◌, ◌∷◌, [], IfOk};
ghost use Rattle.meaning_atoms.specs.Literals.{affirmed, negated};
ghost use Rattle.iccma_tasks.specs.declared.answer.Answer.TheVariants.{Sets};
ghost use Rattle.certificate_claims.specs.Claims.{all_row, all_shown, credulous_row, each_accepts, mode_atom, none_accepts, row_for, row_of, row_where, sceptical_row, sets_of, shown, some_row, there_is_none};
ghost use Rattle.certificate_claims.specs.declared.row.Row.{Row};
ghost use Rattle.certificate_claims.specs.declared.row.Row.TheVariants.{Misshapen};
ghost use Rattle.certificate_claims.specs.SetLiterals.{goal};
ghost use Rattle.edit_rules.specs.Kinds.{framework_of};

use certificate_claims::{Row, mode_atom};
use edit_rules::Framework;
use iccma_tasks::{Answer, Problem, Query, Semantics};
use lists::{Items, Memory};
use meaning_atoms::{Atom, AtomLit, Closure};
use semantics::Mode;
use set_lists::NumSet;
use std::alloc::Global;

/// The literal that a set accepts the query.
pub(crate) fn goal_literal(framework: &Framework, number: u32) -> AtomLit
    ensures { result ≡ goal (framework_of framework.now) number }
{
    match framework {
        Framework::Af(_) => yes(Atom::Member(number)),
        Framework::Aba(_) => yes(Atom::Der(Closure::Own, number)),
    }
}

/// The literal that the atom is so.
pub(crate) fn yes(atom: Atom) -> AtomLit
    ensures { result ≡ affirmed atom }
{
    AtomLit {
        atom,
        positive: true,
    }
}

/// The literal that a set is of the mode.
pub(crate) fn of_mode(mode: Mode) -> AtomLit
    ensures { result ≡ affirmed (mode_atom mode) }
{
    yes(mode_atom(mode))
}

/// The literal that says the opposite.
pub fn opposite(literal: AtomLit) -> AtomLit
    ensures { result ≡ negated literal }
{
    AtomLit {
        atom: literal.atom,
        positive: !literal.positive,
    }
}

/// A list of one literal.
pub(crate) fn one(alloc: Global, literal: AtomLit) -> Result<Items<AtomLit>, Memory>
    ensures { IfOk result (λ list. list ≡ literal ∷ []) }
{
    let mut list = Items::new(alloc);
    list.push(literal)?;
    Ok(list)
}

/// A list of two literals.
pub(crate) fn two(alloc: Global, first: AtomLit, second: AtomLit) -> Result<Items<AtomLit>, Memory>
    ensures { IfOk result (λ list. list ≡ first ∷ second ∷ []) }
{
    let mut list = Items::new(alloc);
    list.push(first)?;
    list.push(second)?;
    Ok(list)
}

/// The same sets again.
pub(crate) fn copies(alloc: Global, sets: &[NumSet]) -> Result<Items<NumSet>, Memory>
    ensures { IfOk result (λ list. list ≡ sets.now) }
{
    let mut list = Items::new(alloc);
    for set in sets {
        list.push(set.copy(alloc)?)?;
    }
    Ok(list)
}

/// The row of a set that is shown; `says` is whether the answer says that it accepts the query.
fn shown_row(
    alloc: Global,
    semantics: Semantics,
    set: &NumSet,
    says: Option<bool>,
) -> Result<Row, Memory>
    ensures { IfOk result (λ row. row ≡ shown semantics set.now says) }
{
    let set = set.copy(alloc)?;
    match semantics {
        Semantics::Complete | Semantics::Grounded | Semantics::Stable => Ok(Row::Tested(set)),
        Semantics::Preferred => Ok(Row::Largest(set)),
        Semantics::SemiStable => Ok(Row::Widest(Mode::Ad, set)),
        Semantics::Stage => Ok(Row::Widest(Mode::Cf, set)),
        Semantics::Ideal => Ok(Row::Ideal(Some(set), says)),
    }
}

/// The row of an answer that no extension accepts the query.
fn none_row(
    alloc: Global,
    framework: &Framework,
    semantics: Semantics,
    number: u32,
) -> Result<Row, Memory>
    ensures { IfOk result (λ row. row ≡ none_accepts (framework_of framework.now) semantics number) }
{
    let literal = goal_literal(framework, number);
    match semantics {
        Semantics::Complete => Ok(Row::Excluded(two(alloc, yes(Atom::Ad), literal)?)),
        Semantics::Grounded => Ok(Row::ByGrounded(false)),
        Semantics::Preferred => Ok(Row::Excluded(two(alloc, yes(Atom::Ad), literal)?)),
        Semantics::Stable => Ok(Row::Excluded(two(alloc, yes(Atom::St), literal)?)),
        Semantics::SemiStable => Ok(Row::Ranged(Mode::Ad, literal)),
        Semantics::Stage => Ok(Row::Ranged(Mode::Cf, literal)),
        Semantics::Ideal => Ok(Row::Ideal(None, Some(false))),
    }
}

/// The row of an answer that each extension accepts the query.
fn each_row(
    alloc: Global,
    framework: &Framework,
    semantics: Semantics,
    number: u32,
) -> Result<Row, Memory>
    ensures { IfOk result (λ row. row ≡ each_accepts (framework_of framework.now) semantics number) }
{
    let literal = opposite(goal_literal(framework, number));
    match semantics {
        Semantics::Complete | Semantics::Grounded => Ok(Row::ByGrounded(true)),
        Semantics::Preferred => Ok(Row::Covered(number)),
        Semantics::Stable => Ok(Row::Excluded(two(alloc, yes(Atom::St), literal)?)),
        Semantics::SemiStable => Ok(Row::Ranged(Mode::Ad, literal)),
        Semantics::Stage => Ok(Row::Ranged(Mode::Cf, literal)),
        Semantics::Ideal => Ok(Row::Ideal(None, Some(true))),
    }
}

/// The row of an answer that there is no extension.
fn no_extension_row(alloc: Global, semantics: Semantics) -> Result<Row, Memory>
    ensures { IfOk result (λ row. row ≡ there_is_none semantics) }
{
    match semantics {
        Semantics::Stable => Ok(Row::Excluded(one(alloc, yes(Atom::St))?)),
        _ => Ok(Row::Misshapen),
    }
}

/// The row of sets that are shown to be all extensions.
fn all_shown_row(alloc: Global, semantics: Semantics, sets: &[NumSet]) -> Result<Row, Memory>
    ensures { IfOk result (λ row. row ≡ all_shown semantics sets.now) }
{
    let sets = copies(alloc, sets)?;
    match semantics {
        Semantics::Complete => Ok(Row::AllTested(Atom::Co, sets)),
        Semantics::Preferred => Ok(Row::AllLargest(sets)),
        Semantics::Stable => Ok(Row::AllTested(Atom::St, sets)),
        Semantics::SemiStable => Ok(Row::AllWidest(Mode::Ad, sets)),
        Semantics::Stage => Ok(Row::AllWidest(Mode::Cf, sets)),
        Semantics::Grounded | Semantics::Ideal => Ok(Row::Misshapen),
    }
}

/// The row of an answer to a `DC`.
fn credulous(
    alloc: Global,
    framework: &Framework,
    semantics: Semantics,
    number: u32,
    answer: &Answer,
) -> Result<Row, Memory>
    ensures { IfOk result (λ row. row ≡ credulous_row (framework_of framework.now) semantics number answer.now) }
{
    match answer {
        Answer::Yes(Some(set)) => Ok(shown_row(alloc, semantics, set, Some(true))?),
        Answer::No(None) => Ok(none_row(alloc, framework, semantics, number)?),
        Answer::Yes(None) | Answer::No(Some(_)) | Answer::Sets(_) => Ok(Row::Misshapen),
    }
}

/// The row of an answer to a `DS`.
fn sceptical(
    alloc: Global,
    framework: &Framework,
    semantics: Semantics,
    number: u32,
    answer: &Answer,
) -> Result<Row, Memory>
    ensures { IfOk result (λ row. row ≡ sceptical_row (framework_of framework.now) semantics number answer.now) }
{
    match answer {
        Answer::Yes(None) => Ok(each_row(alloc, framework, semantics, number)?),
        Answer::No(Some(set)) => Ok(shown_row(alloc, semantics, set, Some(false))?),
        Answer::Yes(Some(_)) | Answer::No(None) | Answer::Sets(_) => Ok(Row::Misshapen),
    }
}

/// The row of sets that answer an `SE`.
fn some_sets(alloc: Global, semantics: Semantics, sets: &[NumSet]) -> Result<Row, Memory>
    ensures { IfOk result (λ row. row ≡ some_row semantics (Sets sets.now)) }
{
    match sets {
        [only] => Ok(shown_row(alloc, semantics, only, None)?),
        _ => Ok(Row::Misshapen),
    }
}

/// The row of an answer to an `SE`.
fn some(alloc: Global, semantics: Semantics, answer: &Answer) -> Result<Row, Memory>
    ensures { IfOk result (λ row. row ≡ some_row semantics answer.now) }
{
    match answer {
        Answer::Sets(sets) => Ok(some_sets(alloc, semantics, sets.as_slice())?),
        Answer::No(None) => Ok(no_extension_row(alloc, semantics)?),
        Answer::Yes(_) | Answer::No(Some(_)) => Ok(Row::Misshapen),
    }
}

/// The row of sets that answer an `EE`.
fn all_sets(alloc: Global, semantics: Semantics, sets: &[NumSet]) -> Result<Row, Memory>
    ensures { IfOk result (λ row. row ≡ all_row semantics (Sets sets.now)) }
{
    match sets {
        [] => Ok(Row::Misshapen),
        _ => Ok(all_shown_row(alloc, semantics, sets)?),
    }
}

/// The row of an answer to an `EE`.
fn all(alloc: Global, semantics: Semantics, answer: &Answer) -> Result<Row, Memory>
    ensures { IfOk result (λ row. row ≡ all_row semantics answer.now) }
{
    match answer {
        Answer::Sets(sets) => Ok(all_sets(alloc, semantics, sets.as_slice())?),
        Answer::No(None) => Ok(no_extension_row(alloc, semantics)?),
        Answer::Yes(_) | Answer::No(Some(_)) => Ok(Row::Misshapen),
    }
}

/// The row of an answer to a query. `Memory` says that an allocation was refused.
pub fn row(
    alloc: Global,
    framework: &Framework,
    query: &Query,
    answer: &Answer,
) -> Result<Row, Memory>
    ensures { IfOk result (λ row. row ≡ row_of (framework_of framework.now) query.now answer.now) }
{
    let semantics = query.task().semantics;
    if !has_rows(framework, semantics) {
        return Ok(Row::Misshapen);
    }
    let row = own_row(alloc, framework, query, answer)?;
    Ok(row)
}

/// Whether answers by the semantics have rows on the framework: those on assumption-based frameworks have none by
/// semi-stable and stage sets.
fn has_rows(framework: &Framework, semantics: Semantics) -> bool
    ensures has { OnTrue result ((row : Row) → row_where semantics (framework_of framework.now) row ≡ row) }
    ensures none { OnFalse result ((row : Row) → row_where semantics (framework_of framework.now) row ≡ Misshapen) }
{
    match (framework, semantics) {
        (Framework::Aba(_), Semantics::SemiStable | Semantics::Stage) => false,
        _ => true,
    }
}

/// The row of an answer to a query, where answers by its semantics have rows.
fn own_row(
    alloc: Global,
    framework: &Framework,
    query: &Query,
    answer: &Answer,
) -> Result<Row, Memory>
    ensures { IfOk result (λ row. row ≡ row_for (framework_of framework.now) query.now.task.problem
        query.now.task.semantics query.now.number answer.now) }
{
    let semantics = query.task().semantics;
    match (query.task().problem, query.number()) {
        (Problem::Credulous, Some(q)) => Ok(credulous(alloc, framework, semantics, q, answer)?),
        (Problem::Sceptical, Some(q)) => Ok(sceptical(alloc, framework, semantics, q, answer)?),
        (Problem::SomeExtension, None) => Ok(some(alloc, semantics, answer)?),
        (Problem::AllExtensions, None) => Ok(all(alloc, semantics, answer)?),
        (Problem::Credulous | Problem::Sceptical, None)
        | (Problem::SomeExtension | Problem::AllExtensions, Some(_)) => Ok(Row::Misshapen),
    }
}

/// The sets that an answer shows, copied. `Memory` says that an allocation was refused.
pub fn shown_sets(alloc: Global, answer: &Answer) -> Result<Items<NumSet>, Memory>
    ensures { IfOk result (λ sets. sets ≡ sets_of answer.now) }
{
    match answer {
        Answer::Yes(Some(set)) | Answer::No(Some(set)) => {
            let mut sets = Items::new(alloc);
            sets.push(set.copy(alloc)?)?;
            Ok(sets)
        }
        Answer::Sets(sets) => Ok(copies(alloc, sets.as_slice())?),
        Answer::Yes(None) | Answer::No(None) => Ok(Items::new(alloc)),
    }
}
