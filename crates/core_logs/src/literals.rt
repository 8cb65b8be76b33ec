//! Tests of literals and clauses, each exact.

ghost use Rattle.std.specs.Prelude.{◌≡◌, ◌↔◌, Contains, IfOk, IsTrue, true};
ghost use Rattle.plain_lits.specs.HintCheck.{IsTautology};
ghost use Rattle.semantics.specs.Arguments.{IsArgument};
ghost use Rattle.meaning_atoms.specs.declared.atom.AtomLit.{AtomLit as ALit};
ghost use Rattle.meaning_atoms.specs.Literals.{AsksNothing, negated};
ghost use Rattle.meaning_atoms.specs.Worlds.{IsAsk};
ghost use Rattle.oracle_face.specs.Goals.{IsMemberAtom, IsOfOneKind, IsOneSided, IsSide, Tells};
ghost use Rattle.oracle_face.specs.Logs.{IsSameClause};
ghost use Rattle.core_logs.specs.Tests.{AsksNone, IsAffirmed, IsHit, IsNoHit, IsOfMember, TellAll};

use lists::{Items, Memory};
use meaning_atoms::laws::literals_are_equal;
use meaning_atoms::{Atom, AtomLit, Closure};
use semantics::is_argument;
use std::alloc::Global;

/// The literal that says the opposite.
pub fn opposite(literal: AtomLit) -> AtomLit
    ensures { result ≡ negated literal }
{
    AtomLit {
        atom: literal.atom,
        positive: !literal.positive,
    }
}

/// Whether a clause has a literal.
pub fn has(clause: &[AtomLit], literal: &AtomLit) -> bool
    ensures { IsTrue result ↔ Contains clause.now literal.now }
{
    clause
        .iter()
        .any(|other| literals_are_equal(other, literal))
}

/// Whether each literal of the one is in the other.
pub fn is_part(part: &[AtomLit], clause: &[AtomLit]) -> bool
    ensures { IsTrue result ↔ ((l : ALit) → Contains part.now l → Contains clause.now l) }
{
    part.iter().all(|literal| has(clause, literal))
}

/// Whether both have the same literals.
pub fn is_same_clause(left: &[AtomLit], right: &[AtomLit]) -> bool
    ensures { IsTrue result ↔ IsSameClause left.now right.now }
{
    is_part(left, right) && is_part(right, left)
}

/// Whether a clause has the negation of a literal.
pub fn has_opposite(clause: &[AtomLit], literal: &AtomLit) -> bool
    ensures { IsTrue result ↔ Contains clause.now (negated literal.now) }
{
    has(clause, &opposite(*literal))
}

/// Whether some literal stands beside its negation.
pub fn is_tautology(clause: &[AtomLit]) -> bool
    ensures { IsTrue result ↔ IsTautology negated clause.now }
{
    clause.iter().any(|literal| has_opposite(clause, literal))
}

/// Whether a literal speaks of no side clause.
fn asks_none(literal: &AtomLit) -> bool
    ensures { IsTrue result ↔ AsksNone literal.now }
{
    !matches!(literal.atom, Atom::Ask(_))
}

/// Whether no literal speaks of a side clause.
pub fn asks_nothing(clause: &[AtomLit]) -> bool
    ensures { IsTrue result ↔ AsksNothing clause.now }
{
    clause.iter().all(|literal| asks_none(literal))
}

/// Whether a literal says what a side clause may say of an argument.
fn says_of_argument(literal: &AtomLit) -> bool
    ensures { IsTrue result ↔ Tells IsArgument literal.now.atom literal.now.positive }
{
    match (literal.atom, literal.positive) {
        (Atom::Member(argument), _) => is_argument(argument),
        (Atom::Range(argument), true) => is_argument(argument),
        (Atom::Tail(argument, from), true) => is_argument(argument) && from == 1,
        (Atom::Hit(Closure::Own, argument, from), true) => is_argument(argument) && from == 1,
        _ => false,
    }
}

/// Whether each literal does.
fn all_say_of_argument(clause: &[AtomLit]) -> bool
    ensures { IsTrue result ↔ TellAll clause.now }
{
    clause.iter().all(|literal| says_of_argument(literal))
}

fn affirms(literal: &AtomLit) -> bool
    ensures { IsTrue result ↔ IsAffirmed literal.now }
{
    literal.positive
}

/// Whether each literal is an atom itself.
fn all_affirm(clause: &[AtomLit]) -> bool
    ensures { IsTrue result ↔ ((l : ALit) → Contains clause.now l → IsAffirmed l) }
{
    clause.iter().all(|literal| affirms(literal))
}

fn is_of_member(literal: &AtomLit) -> bool
    ensures { IsTrue result ↔ IsOfMember literal.now }
{
    matches!(literal.atom, Atom::Member(_))
}

/// Whether each literal is about membership.
fn all_are_members(clause: &[AtomLit]) -> bool
    ensures { IsTrue result ↔ ((l : ALit) → Contains clause.now l → IsOfMember l) }
{
    clause.iter().all(|literal| is_of_member(literal))
}

fn is_one_sided(clause: &[AtomLit]) -> bool
    ensures { IsTrue result ↔ IsOneSided clause.now }
{
    all_affirm(clause) || (all_are_members(clause) && !is_tautology(clause))
}

/// Whether a literal says that a contrary is derived.
fn is_hit(literal: &AtomLit) -> bool
    ensures { IsTrue result ↔ IsHit literal.now }
{
    matches!(literal.atom, Atom::Hit(..))
}

/// Whether each literal does.
fn all_hit(clause: &[AtomLit]) -> bool
    ensures { IsTrue result ↔ ((l : ALit) → Contains clause.now l → IsHit l) }
{
    clause.iter().all(|literal| is_hit(literal))
}

fn is_no_hit(literal: &AtomLit) -> bool
    ensures { IsTrue result ↔ IsNoHit literal.now }
{
    !matches!(literal.atom, Atom::Hit(..))
}

/// Whether no literal does.
fn none_hit(clause: &[AtomLit]) -> bool
    ensures { IsTrue result ↔ ((l : ALit) → Contains clause.now l → IsNoHit l) }
{
    clause.iter().all(|literal| is_no_hit(literal))
}

fn is_of_one_kind(clause: &[AtomLit]) -> bool
    ensures { IsTrue result ↔ IsOfOneKind clause.now }
{
    none_hit(clause) || all_hit(clause)
}

/// Whether an oracle may be asked to keep this side clause.
pub fn is_side(side: &[AtomLit]) -> bool
    ensures { IsTrue result ↔ IsSide side.now }
{
    all_say_of_argument(side) && is_one_sided(side) && is_of_one_kind(side)
}

/// The same literals again.
pub fn copy_clause(alloc: Global, clause: &[AtomLit]) -> Result<Items<AtomLit>, Memory>
    ensures { IfOk result (λ copy. copy ≡ clause.now) }
{
    Ok(Items::from_vec(Vec::from_slice(alloc, clause)?))
}
