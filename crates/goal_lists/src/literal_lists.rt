//! Lists of literals about sets.

ghost use Rattle.std.specs.Prelude.{ℕ, List, ◌≡◌, ◌++◌, ◌∷◌, [], false, not, map, filter, IfOk, OnOk};
ghost use Rattle.semantics.specs.Frameworks.{Framework};
ghost use Rattle.meaning_atoms.specs.Literals as literals;
ghost use Rattle.certificate_claims.specs.SetLiterals.{are_in, are_out, are_ranged, has, members};
ghost use Rattle.certificate_claims.specs.SetLiterals as set_literals;
ghost use Rattle.oracle_face.specs.Kinds.{IsRanged, is_assumption_based};
ghost use Rattle.lists.specs.Members.{IsSetOf};
ghost use Rattle.certificate_claims.specs.Words.{literal_of};
ghost use Rattle.goal_lists.specs.Words.{struck_word};

use certificate_claims::{Word, literal, push_all};
use lists::Memory;
use meaning_atoms::{Atom, AtomLit};
use set_lists::NumSet;
use std::alloc::Global;

/// The literal that says an atom.
pub fn affirmed(atom: Atom) -> AtomLit
    ensures { result ≡ literals.affirmed atom }
{
    AtomLit {
        atom,
        positive: true,
    }
}

/// Adds for each number that it is a member.
pub fn push_in(clause: &mut Vec<AtomLit>, numbers: &[u32]) -> Result<(), Memory>
    ensures { OnOk result (clause.new.items ≡ clause.old.items ++ are_in numbers.now) }
{
    push_all(clause, Word::In, numbers)
}

/// Adds for each number that it is no member.
pub fn push_out(clause: &mut Vec<AtomLit>, numbers: &[u32]) -> Result<(), Memory>
    ensures { OnOk result (clause.new.items ≡ clause.old.items ++ are_out numbers.now) }
{
    push_all(clause, Word::Out, numbers)
}

/// Adds for each number that it is in the range.
pub fn push_ranged(clause: &mut Vec<AtomLit>, numbers: &[u32]) -> Result<(), Memory>
    ensures { OnOk result (clause.new.items ≡ clause.old.items ++ are_ranged numbers.now) }
{
    push_all(clause, Word::Ranged, numbers)
}

/// Whether a number is no member.
fn lacks(set: &NumSet, number: u32) -> bool
    ensures { result ≡ not (has set.now number) }
{
    !set.contains(number)
}

/// Adds the literal that says so of a number, if it is no member.
fn push_if_lacking(
    clause: &mut Vec<AtomLit>,
    word: Word,
    set: &NumSet,
    number: u32,
) -> Result<(), Memory>
    ensures { OnOk result (clause.new.items
        ≡ clause.old.items ++ map (literal_of word) (filter (λ x. not (has set.now x)) (number ∷ []))) }
{
    let lacking = lacks(set, number);
    if lacking {
        clause.push(literal(word, number))?;
        return Ok(());
    }
    Ok(())
}

/// The literals that say so of those of the numbers that are no members.
fn literals_outside(
    alloc: Global,
    word: Word,
    numbers: &[u32],
    set: &NumSet,
) -> Result<Vec<AtomLit>, Memory>
    ensures { IfOk result (λ clause. clause.items
        ≡ map (literal_of word) (filter (λ x. not (has set.now x)) numbers.now)) }
{
    let mut clause = Vec::new(alloc);
    for number in numbers {
        push_if_lacking(&mut clause, word, set, *number)?;
    }
    Ok(clause)
}

/// The side clause that some member lies outside a set; `members` are the numbers that sets are made of.
pub fn outside(alloc: Global, members: &NumSet, set: &NumSet) -> Result<Vec<AtomLit>, Memory>
    ensures { IfOk result (λ clause. (f : Framework) → members.now ≡ set_literals.members f
        → clause.items ≡ set_literals.outside f set.now) }
{
    let clause = literals_outside(alloc, Word::In, members.as_slice(), set)?;
    Ok(clause)
}

/// The side clause that some member lies outside a set, or some member of it is none.
pub fn differs(alloc: Global, members: &NumSet, set: &NumSet) -> Result<Vec<AtomLit>, Memory>
    ensures { IfOk result (λ clause. (f : Framework) → members.now ≡ set_literals.members f
        → clause.items ≡ set_literals.differs f set.now) }
{
    let mut clause = literals_outside(alloc, Word::In, members.as_slice(), set)?;
    push_out(&mut clause, set.as_slice())?;
    Ok(clause)
}

/// The side clause that something is in the range that isn't in a set's range, in an abstract framework.
pub fn wider(alloc: Global, members: &NumSet, range: &NumSet) -> Result<Vec<AtomLit>, Memory>
    ensures { IfOk result (λ clause. (f : Framework) (set : List ℕ) → is_assumption_based f ≡ false
        → members.now ≡ set_literals.members f → IsSetOf (IsRanged f set) range.now
        → clause.items ≡ set_literals.wider f set) }
{
    let clause = literals_outside(alloc, Word::Ranged, members.as_slice(), range)?;
    Ok(clause)
}

/// The word that a number is attacked.
fn word_of_attack(is_aba: bool) -> Word
    ensures { result ≡ struck_word is_aba }
{
    if is_aba { Word::Contrary } else { Word::Struck }
}

/// The side clause that a member of a set is attacked, by whether the framework is assumption-based.
pub fn attacked(alloc: Global, is_aba: bool, set: &NumSet) -> Result<Vec<AtomLit>, Memory>
    ensures { IfOk result (λ clause. (f : Framework) → is_aba ≡ is_assumption_based f
        → clause.items ≡ set_literals.attacked f set.now) }
{
    let word = word_of_attack(is_aba);
    let mut clause = Vec::new(alloc);
    push_all(&mut clause, word, set.as_slice())?;
    Ok(clause)
}
