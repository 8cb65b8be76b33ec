//! The goals of a search.

ghost use Rattle.std.specs.Prelude.{◌≡◌, ◌++◌, IfOk, OnOk};
ghost use Rattle.semantics.specs.Frameworks.{Framework};
ghost use Rattle.oracle_face.specs.Kinds.{is_assumption_based};
ghost use Rattle.goal_lists.specs.Asking.{are_asked, goals_of};
ghost use Rattle.goal_lists.specs.Asking as asking;

use crate::literal_lists::{affirmed, push_in, push_out, push_ranged};
use lists::Memory;
use meaning_atoms::{Atom, AtomLit, Closure};
use oracle_face::AskId;
use std::alloc::Global;

/// What a set has to be like: its members and what are none, what is in its range, and which side clauses it makes
/// true.
#[derive(Clone, Copy)]
pub struct Wanted<'a> {
    pub ins: &'a [u32],
    pub outs: &'a [u32],
    pub ranged: &'a [u32],
    pub asks: &'a [AskId],
}

/// The goals for a set of a mode.
pub fn goals_for(alloc: Global, mode: Atom, wanted: &Wanted<'_>) -> Result<Vec<AtomLit>, Memory>
    ensures { IfOk result (λ goals. goals.items
        ≡ goals_of mode wanted.now.ins.now wanted.now.outs.now wanted.now.ranged.now wanted.now.asks.now) }
{
    let mut goals = Vec::new(alloc);
    goals.push(affirmed(mode))?;
    push_in(&mut goals, wanted.ins)?;
    push_out(&mut goals, wanted.outs)?;
    push_ranged(&mut goals, wanted.ranged)?;
    push_asks(&mut goals, wanted.asks)?;
    Ok(goals)
}

/// The atom that a set accepts a query: that the set derives the atom of an assumption-based framework, or that the
/// argument of an abstract one is a member.
fn query_atom(is_aba: bool, query: u32) -> Atom
    ensures { result ≡ asking.query_atom is_aba query }
{
    if is_aba {
        Atom::Der(Closure::Own, query)
    } else {
        Atom::Member(query)
    }
}

/// The literal that a set accepts a query, or where `accepted` is false, that it doesn't.
pub(crate) fn query_literal(is_aba: bool, query: u32, accepted: bool) -> AtomLit
    ensures { (f : Framework) → is_aba ≡ is_assumption_based f → result ≡ asking.query_literal f query accepted }
{
    AtomLit {
        atom: query_atom(is_aba, query),
        positive: accepted,
    }
}

/// The goals for a set of a mode of which a literal is true, and which makes side clauses true.
pub(crate) fn goals_about(
    alloc: Global,
    mode: Atom,
    literal: AtomLit,
    asks: &[AskId],
) -> Result<Vec<AtomLit>, Memory>
    ensures { IfOk result (λ goals. goals.items ≡ asking.goals_about mode literal asks.now) }
{
    let mut goals = Vec::new(alloc);
    goals.push(affirmed(mode))?;
    goals.push(literal)?;
    push_asks(&mut goals, asks)?;
    Ok(goals)
}

/// Adds for each side clause that it is true.
fn push_asks(goals: &mut Vec<AtomLit>, asks: &[AskId]) -> Result<(), Memory>
    ensures { OnOk result (goals.new.items ≡ goals.old.items ++ are_asked asks.now) }
{
    for ask in asks {
        goals.push(ask.goal())?;
    }
    Ok(())
}
