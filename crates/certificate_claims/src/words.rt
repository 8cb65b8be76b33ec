//! Literals by what they say of a number.

ghost use Rattle.std.specs.Prelude.{◌≡◌, ◌++◌, map, OnOk};
ghost use Rattle.certificate_claims.specs.Words.{literal_of};

use lists::Memory;
use meaning_atoms::{Atom, AtomLit, Closure};

/// What a literal says of a number.
#[derive(Clone, Copy, PartialEq, Eq)]
pub enum Word {
    /// It is a member.
    In,
    /// It is not a member.
    Out,
    /// It is in the range.
    Ranged,
    /// A member attacks it.
    Struck,
    /// The members derive a contrary of it.
    Contrary,
}

/// The literal that says so of a number.
pub fn literal(word: Word, number: u32) -> AtomLit
    ensures { result ≡ literal_of word number }
{
    match word {
        Word::In => AtomLit {
            atom: Atom::Member(number),
            positive: true,
        },
        Word::Out => AtomLit {
            atom: Atom::Member(number),
            positive: false,
        },
        Word::Ranged => AtomLit {
            atom: Atom::Range(number),
            positive: true,
        },
        Word::Struck => AtomLit {
            atom: Atom::Tail(number, 1),
            positive: true,
        },
        Word::Contrary => AtomLit {
            atom: Atom::Hit(Closure::Own, number, 1),
            positive: true,
        },
    }
}

/// Adds the literals that say so of each number. `Memory` says that an allocation was refused.
pub fn push_all(clause: &mut Vec<AtomLit>, word: Word, numbers: &[u32]) -> Result<(), Memory>
    ensures { OnOk result (clause.new.items ≡ clause.old.items ++ map (literal_of word) numbers.now) }
{
    for number in numbers {
        clause.push(literal(word, *number))?;
    }
    Ok(())
}
