//! The text of a literal, written and read.

ghost use Rattle.std.specs.Prelude.{◌≡◌, ◌↔◌, codes, ℕ, ◌≤◌, false, ◌++◌, List, [], ◌∷◌, length, IsTrue, IfOk, OnOk, IfSome, IsSome, Some, position};
ghost use Rattle.std.specs.List.{AllZip, flat_map, slice_split};
ghost use Rattle.std.specs.Option.{option_map};
ghost use Rattle.std.specs.String.{string_bytes};
ghost use Rattle.std.specs.Fmt.{decimal as decimal_text};
ghost use Rattle.num_text.specs.Number.{IsNumber};
ghost use Rattle.meaning_atoms.specs.declared.atom.Atom.{Atom as AnAtom};
ghost use Rattle.meaning_atoms.specs.declared.atom.AtomLit.{AtomLit as ALit};
ghost use Rattle.meaning_atoms.specs.Atoms.{IsLit};
ghost use Rattle.meaning_atoms.specs.AtomText.{IsLitText, is_colon, lit_text, name_of, numbers_of, signed};
ghost use Rattle.meaning_atoms.specs.Pieces.{HasFound, IsAtomOf, IsFirstNumber, pieces_left, values_of};

use crate::atom::{Atom, AtomLit, Closure};
use lists::{Bytes, Memory};
use num_text::decimal;
use std::alloc::Global;
use std::fmt::Write;

// The numbers behind the name of an atom.
#[derive(Clone, Copy)]
enum Numbers {
    Zero,
    One(u32),
    Two(u32, u32),
    Three(u32, u32, u32),
}

/// The text of a literal: its atom's name, with a hyphen before it where the literal is negative, and each
/// number of the atom in decimal behind a colon, as `-Gap:1:3:1000001`. Where the numbers are within their
/// bounds, this text reads as the literal again. Only tests call it: a certificate is written without a text of each
/// literal.
pub fn atom_text(alloc: Global, lit: &AtomLit) -> Result<Bytes, Memory>
    ensures text { IfOk result (λ text. text ≡ lit_text lit.now) }
    ensures reads { IfOk result (λ text. IsLit lit.now → IsLitText text lit.now) }
{
    let mut text = String::new(alloc);
    push_lit(&mut text, lit)?;
    Ok(Bytes::from_vec(text.into_bytes()))
}

/// Adds the text of a literal at the end of a text. After `Memory` a part of it may have been added.
pub fn push_lit(text: &mut String, lit: &AtomLit) -> Result<(), Memory>
    ensures { OnOk result (string_bytes text.new ≡ string_bytes text.old ++ lit_text lit.now) }
{
    if !lit.positive {
        text.push('-')?;
    }
    text.push_str(lit.atom.name())?;
    push_numbers(text, &lit.atom)
}

// Adds each number of the atom behind a colon.
fn push_numbers(text: &mut String, atom: &Atom) -> Result<(), Memory>
    ensures text { OnOk result (string_bytes text.new
        ≡ string_bytes text.old ++ flat_map (λ n. 58 ∷ decimal_text n) (numbers_of atom.now)) }
{
    match *atom {
        Atom::Member(a) | Atom::Live(a) | Atom::Range(a) | Atom::Ask(a) | Atom::Asm(a) => {
            write!(text, ":{a}")?
        }
        Atom::Attack(a, b)
        | Atom::Tail(a, b)
        | Atom::Unmet(a, b)
        | Atom::Con(a, b)
        | Atom::Head(a, b)
        | Atom::Body(a, b) => write!(text, ":{a}:{b}")?,
        Atom::Gap(a, i, j) | Atom::ConGap(a, i, j) | Atom::HGap(a, i, j) | Atom::BGap(a, i, j) =>
            write!(text, ":{a}:{i}:{j}")?,
        Atom::Der(closure, x) => write!(text, ":{}:{x}", closure.number())?,
        Atom::Miss(closure, x, i) | Atom::Sup(closure, x, i) | Atom::Hit(closure, x, i) => {
            write!(text, ":{}:{x}:{i}", closure.number())?
        }
        Atom::Cf | Atom::Ad | Atom::Co | Atom::St => {}
    }
    Ok(())
}

/// The literal that the bytes are the text of. Numbers may have leading zeros. `None` where the bytes are the
/// text of no literal whose numbers are within their bounds.
pub fn read_lit(bytes: &[u8]) -> Option<AtomLit>
    ensures spells { IfSome result (IsLitText bytes.now) }
    ensures read { (lit : ALit) → IsLitText bytes.now lit → result ≡ Some lit }
{
    let (name, rest) = first_piece(bytes);
    let numbers = numbers_in(rest)?;
    let (positive, name) = without_sign(name);
    let atom = atom_of(name, numbers)?;
    if !atom.is_within() {
        return None;
    }
    Some(AtomLit { atom, positive })
}

// What stands before the first colon, and what stands behind it.
fn first_piece<'a>(text: &'a [u8]) -> (&'a [u8], Option<&'a [u8]>)
    ensures { slice_split is_colon text.entry.now
        ≡ result.0.now ∷ pieces_left (option_map (λ rest. rest.now) result.1) }
{
    match first_colon(text) {
        Some(index) => (&text[..index], Some(&text[index + 1..])),
        None => (text, None),
    }
}

fn first_colon(text: &[u8]) -> Option<usize>
    ensures { result ≡ position is_colon text.now }
{
    text.iter().position(|byte| *byte == b':')
}

// The numbers that the pieces of the text spell, where there are at most three pieces.
fn numbers_in<'a>(text: Option<&'a [u8]>) -> Option<Numbers>
    ensures spelled { IfSome result (λ numbers. AllZip IsNumber (pieces_left (option_map (λ rest. rest.now) text.entry))
        (values_of numbers)) }
    ensures read { (numbers : List ℕ) → AllZip IsNumber (pieces_left (option_map (λ rest. rest.now) text.entry)) numbers
        → length numbers ≤ 3 → HasFound result numbers }
{
    let Some(text) = text else {
        return Some(Numbers::Zero);
    };
    let (first, rest) = first_number(text)?;
    let Some(rest) = rest else {
        return Some(Numbers::One(first));
    };
    let (second, rest) = first_number(rest)?;
    let Some(rest) = rest else {
        return Some(Numbers::Two(first, second));
    };
    let (third, rest) = first_number(rest)?;
    match rest {
        Some(_) => None,
        None => Some(Numbers::Three(first, second, third)),
    }
}

// The number that the first piece spells, and what is left behind it.
fn first_number<'a>(text: &'a [u8]) -> Option<(u32, Option<&'a [u8]>)>
    ensures spelled { IfSome result (λ found. IsFirstNumber (slice_split is_colon text.entry.now) found.0
        (pieces_left (option_map (λ rest. rest.now) found.1))) }
    ensures read { (n : ℕ) (more : List (List ℕ)) → IsFirstNumber (slice_split is_colon text.entry.now) n more
        → IsSome result }
{
    let (piece, rest) = first_piece(text);
    let number = decimal(piece)?;
    Some((number, rest))
}

// The name without its sign, and whether there was none.
fn without_sign<'a>(name: &'a [u8]) -> (bool, &'a [u8])
    ensures cut { name.entry.now ≡ signed result.0 result.1.now }
    ensures positive { (plain : List ℕ) → name.entry.now ≡ 45 ∷ plain → result.0 ≡ false }
{
    match name {
        [b'-', plain @ ..] => (false, plain),
        _ => (true, name),
    }
}

// The atom of this name and these numbers.
fn atom_of(name: &[u8], numbers: Numbers) -> Option<Atom>
    ensures named { IfSome result (IsAtomOf name.now (values_of numbers)) }
    ensures read { (atom : AnAtom) → IsAtomOf name.now (values_of numbers) atom → result ≡ Some atom }
{
    match numbers {
        Numbers::Zero => notion_of(name),
        Numbers::One(a) => atom_of_one(name, a),
        Numbers::Two(a, b) => atom_of_two(name, a, b),
        Numbers::Three(a, i, j) => atom_of_three(name, a, i, j),
    }
}

fn notion_of(name: &[u8]) -> Option<Atom>
    ensures named { IfSome result (IsAtomOf name.now []) }
    ensures read { (atom : AnAtom) → IsAtomOf name.now [] atom → result ≡ Some atom }
{
    match name {
        b"Cf" => Some(Atom::Cf),
        b"Ad" => Some(Atom::Ad),
        b"Co" => Some(Atom::Co),
        b"St" => Some(Atom::St),
        _ => None,
    }
}

fn atom_of_one(name: &[u8], a: u32) -> Option<Atom>
    ensures named { IfSome result (IsAtomOf name.now (a ∷ [])) }
    ensures read { (atom : AnAtom) → IsAtomOf name.now (a ∷ []) atom → result ≡ Some atom }
{
    match name {
        b"Member" => Some(Atom::Member(a)),
        b"Live" => Some(Atom::Live(a)),
        b"Range" => Some(Atom::Range(a)),
        b"Ask" => Some(Atom::Ask(a)),
        b"Asm" => Some(Atom::Asm(a)),
        _ => None,
    }
}

fn atom_of_two(name: &[u8], a: u32, b: u32) -> Option<Atom>
    ensures named { IfSome result (IsAtomOf name.now (a ∷ b ∷ [])) }
    ensures read { (atom : AnAtom) → IsAtomOf name.now (a ∷ b ∷ []) atom → result ≡ Some atom }
{
    match name {
        b"Attack" => Some(Atom::Attack(a, b)),
        b"Tail" => Some(Atom::Tail(a, b)),
        b"Unmet" => Some(Atom::Unmet(a, b)),
        b"Con" => Some(Atom::Con(a, b)),
        b"Head" => Some(Atom::Head(a, b)),
        b"Body" => Some(Atom::Body(a, b)),
        b"Der" => derived(a, b),
        _ => None,
    }
}

// An atom of the closure of this number.
fn derived(closure: u32, x: u32) -> Option<Atom>
    ensures named { IfSome result (IsAtomOf (codes "Der") (closure ∷ x ∷ [])) }
    ensures read { (atom : AnAtom) → IsAtomOf (codes "Der") (closure ∷ x ∷ []) atom → result ≡ Some atom }
{
    let closure = Closure::of_number(closure)?;
    Some(Atom::Der(closure, x))
}

fn atom_of_three(name: &[u8], a: u32, i: u32, j: u32) -> Option<Atom>
    ensures named { IfSome result (IsAtomOf name.now (a ∷ i ∷ j ∷ [])) }
    ensures read { (atom : AnAtom) → IsAtomOf name.now (a ∷ i ∷ j ∷ []) atom → result ≡ Some atom }
{
    match name {
        b"Gap" => Some(Atom::Gap(a, i, j)),
        b"ConGap" => Some(Atom::ConGap(a, i, j)),
        b"HGap" => Some(Atom::HGap(a, i, j)),
        b"BGap" => Some(Atom::BGap(a, i, j)),
        b"Miss" => missing(a, i, j),
        b"Sup" => supported(a, i, j),
        b"Hit" => hit(a, i, j),
        _ => None,
    }
}

// A rule whose body is not in the closure of this number.
fn missing(closure: u32, rule: u32, i: u32) -> Option<Atom>
    ensures named { IfSome result (IsAtomOf (codes "Miss") (closure ∷ rule ∷ i ∷ [])) }
    ensures read { (atom : AnAtom) → IsAtomOf (codes "Miss") (closure ∷ rule ∷ i ∷ []) atom → result ≡ Some atom }
{
    let closure = Closure::of_number(closure)?;
    Some(Atom::Miss(closure, rule, i))
}

// An atom that some rule supports in the closure of this number.
fn supported(closure: u32, x: u32, i: u32) -> Option<Atom>
    ensures named { IfSome result (IsAtomOf (codes "Sup") (closure ∷ x ∷ i ∷ [])) }
    ensures read { (atom : AnAtom) → IsAtomOf (codes "Sup") (closure ∷ x ∷ i ∷ []) atom → result ≡ Some atom }
{
    let closure = Closure::of_number(closure)?;
    Some(Atom::Sup(closure, x, i))
}

// An assumption of which some contrary is in the closure of this number.
fn hit(closure: u32, a: u32, i: u32) -> Option<Atom>
    ensures named { IfSome result (IsAtomOf (codes "Hit") (closure ∷ a ∷ i ∷ [])) }
    ensures read { (atom : AnAtom) → IsAtomOf (codes "Hit") (closure ∷ a ∷ i ∷ []) atom → result ≡ Some atom }
{
    let closure = Closure::of_number(closure)?;
    Some(Atom::Hit(closure, a, i))
}
