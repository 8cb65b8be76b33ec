//! The words of clauses: atoms about a framework and a set of its arguments or assumptions, and literals.

ghost use Rattle.std.specs.Prelude.{◌≡◌, ◌↔◌, IfSome, IsTrue, Some};
ghost use Rattle.meaning_atoms.specs.declared.atom.Closure.{Closure as AClosure};
ghost use Rattle.meaning_atoms.specs.Atoms.{IsAtom, IsAtomOrNone, IsPosition, closure_number};
ghost use Rattle.meaning_atoms.specs.AtomText.{name_of};

use semantics::{MAX_ARGUMENT, is_argument};

/// The number just past the largest argument, atom or rule, 1,000,001: the end of every range of such numbers.
pub const END: u32 = MAX_ARGUMENT + 1;

/// Which closure under the rules of an assumption-based framework.
#[derive(Clone, Copy, Drop, PartialEq, Eq, PartialOrd, Ord, Hash)]
pub enum Closure {
    /// Of the set: what it derives.
    Own,
    /// Of the assumptions that the set does not attack.
    Rest,
}

/// A statement about a framework and a set of its arguments or assumptions. Numbers of arguments are 1 to
/// `semantics::MAX_ARGUMENT`, of assumptions 1 to `MAX_ATOM`, of rules 1 to `MAX_RULE`, and a position to begin at is
/// 1 to `END`. The atoms that only frameworks of one kind have read in those of another by a fixed choice. What each
/// atom says in a world is the definition `Holds` of the specs.
#[derive(Clone, Copy, Drop, PartialEq, Eq, PartialOrd, Ord, Hash)]
pub enum Atom {
    /// The argument is in the set.
    Member(u32),
    /// The argument is live in the framework.
    Live(u32),
    /// The first argument attacks the second.
    Attack(u32, u32),
    /// No attacker of the argument has a number from the second value to just before the third.
    Gap(u32, u32, u32),
    /// Some member of the set whose number is the second value or more attacks the argument.
    Tail(u32, u32),
    /// Some attacker of the argument whose number is the second value or more is not attacked by the set.
    Unmet(u32, u32),
    /// The argument is in the set or attacked by it.
    Range(u32),
    /// The set is conflict-free.
    Cf,
    /// The set is admissible.
    Ad,
    /// The set is complete.
    Co,
    /// The set is stable.
    St,
    /// The side clause of this number is true. Numbers begin at 1.
    Ask(u32),
    /// The number is an assumption.
    Asm(u32),
    /// The first number is an assumption, and the second a contrary of it.
    Con(u32, u32),
    /// The number is an assumption, and no contrary of it is from the second value to just before the third.
    ConGap(u32, u32, u32),
    /// The rule of the first number is there, and its head is the second.
    Head(u32, u32),
    /// No rule whose number is from the second value to just before the third heads the atom.
    HGap(u32, u32, u32),
    /// The rule of the first number is there, and the second is in its body.
    Body(u32, u32),
    /// The rule is there, and no atom of its body is from the second value to just before the third.
    BGap(u32, u32, u32),
    /// The atom is in the closure. 0 is no atom.
    Der(Closure, u32),
    /// The rule is there, and some atom of its body that is the third value or more is not in the closure.
    Miss(Closure, u32, u32),
    /// Some rule whose number is the third value or more heads the atom, with its whole body in the closure.
    Sup(Closure, u32, u32),
    /// The number is an assumption, and some contrary of it that is the third value or more is in the closure.
    Hit(Closure, u32, u32),
}

/// An atom, or its negation.
#[derive(Clone, Copy, Drop, Hash, PartialEq, Eq, PartialOrd, Ord)]
pub struct AtomLit {
    pub atom: Atom,
    /// Whether the literal is the atom itself, not its negation.
    pub positive: bool,
}

impl Closure {
    /// The closure's number in texts: 1 for the set's own, 2 for that of the rest.
    pub fn number(self) -> u32
        ensures { result ≡ closure_number self }
    {
        match self {
            Closure::Own => 1,
            Closure::Rest => 2,
        }
    }

    /// The closure of this number. None where there is none.
    pub fn of_number(number: u32) -> Option<Closure>
        ensures some { IfSome result (λ closure. closure_number closure ≡ number) }
        ensures read { (closure : AClosure) → closure_number closure ≡ number → result ≡ Some closure }
    {
        match number {
            1 => Some(Closure::Own),
            2 => Some(Closure::Rest),
            _ => None,
        }
    }
}

impl Atom {
    /// Whether the numbers are within their bounds: arguments, assumptions, heads, body atoms and rules from 1 to
    /// the largest of their kind, a contrary and an atom of a closure from 0, positions from 1 to `END`, of a gap the
    /// first no more than the second, and the number of a side clause from 1.
    pub fn is_within(&self) -> bool
        ensures { IsTrue result ↔ IsAtom self.now }
    {
        match *self {
            Atom::Member(a) | Atom::Live(a) | Atom::Range(a) | Atom::Asm(a) => is_argument(a),
            Atom::Attack(b, a) | Atom::Head(b, a) | Atom::Body(b, a) => is_argument(b)
                && is_argument(a),
            Atom::Gap(a, i, j)
            | Atom::HGap(a, i, j)
            | Atom::BGap(a, i, j)
            | Atom::ConGap(a, i, j) => is_argument(a) && is_position(i) && is_position(j) && i <= j,
            Atom::Tail(a, i) | Atom::Unmet(a, i) | Atom::Miss(_, a, i) | Atom::Hit(_, a, i) => {
                is_argument(a) && is_position(i)
            }
            Atom::Cf | Atom::Ad | Atom::Co | Atom::St => true,
            Atom::Ask(n) => 1 <= n,
            Atom::Con(a, c) => is_argument(a) && is_atom_or_none(c),
            Atom::Der(_, x) => is_atom_or_none(x),
            Atom::Sup(_, x, i) => is_atom_or_none(x) && is_position(i),
        }
    }

    /// The name before the numbers in the atom's text.
    pub fn name(&self) -> &'static str
        ensures { result.now ≡ name_of self.now }
    {
        match *self {
            Atom::Member(_) => "Member",
            Atom::Live(_) => "Live",
            Atom::Attack(..) => "Attack",
            Atom::Gap(..) => "Gap",
            Atom::Tail(..) => "Tail",
            Atom::Unmet(..) => "Unmet",
            Atom::Range(_) => "Range",
            Atom::Cf => "Cf",
            Atom::Ad => "Ad",
            Atom::Co => "Co",
            Atom::St => "St",
            Atom::Ask(_) => "Ask",
            Atom::Asm(_) => "Asm",
            Atom::Con(..) => "Con",
            Atom::ConGap(..) => "ConGap",
            Atom::Head(..) => "Head",
            Atom::HGap(..) => "HGap",
            Atom::Body(..) => "Body",
            Atom::BGap(..) => "BGap",
            Atom::Der(..) => "Der",
            Atom::Miss(..) => "Miss",
            Atom::Sup(..) => "Sup",
            Atom::Hit(..) => "Hit",
        }
    }
}

/// Whether the number is an atom's, from 1 to `semantics::MAX_ATOM`, or 0, which is no atom.
pub fn is_atom_or_none(number: u32) -> bool
    ensures { IsTrue result ↔ IsAtomOrNone number }
{
    number < END
}

/// Whether the number is a position in the order of arguments, of atoms or of rules, from 1 to `END`.
pub fn is_position(number: u32) -> bool
    ensures { IsTrue result ↔ IsPosition number }
{
    1 <= number && number <= END
}
