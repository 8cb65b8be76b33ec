//! The text of an axiom's name with its arguments, written and read.

ghost use Rattle.std.specs.Prelude.{◌≡◌, ℕ, ◌++◌, [], ◌∷◌, codes, IfOk, OnOk, IfSome, Some};
ghost use Rattle.std.specs.List.{flat_map};
ghost use Rattle.std.specs.String.{string_bytes};
ghost use Rattle.std.specs.Fmt.{decimal as decimal_text};
ghost use Rattle.meaning_atoms.specs.declared.aba_axiom.AbaAxiom.{AbaAxiom as AnAbaAxiom};
ghost use Rattle.meaning_atoms.specs.declared.axiom.AfAxiom.{AfAxiom as AnAfAxiom};
ghost use Rattle.meaning_atoms.specs.declared.axiom.AxiomName.{AxiomName as AName};
ghost use Rattle.meaning_atoms.specs.declared.axiom.AxiomName.TheVariants.{Aba, Af};
ghost use Rattle.num_text.specs.Cuts.{field_texts};
ghost use Rattle.meaning_atoms.specs.AxiomNames.{IsAxiomName};
ghost use Rattle.meaning_atoms.specs.AxiomText.{IsAxiomFields, IsAxiomOf, IsNamed, aba_arguments, af_arguments, axiom_arguments, axiom_text};

use crate::aba_axiom::AbaAxiom;
use crate::atom::Closure;
use crate::axiom::{AfAxiom, AxiomName};
use crate::loop_text::{loop_of, push_loop};
use lists::{Bytes, Memory};
use std::alloc::Global;
use std::fmt::Write;

/// The text of an axiom: its name, and each argument in decimal behind a blank, as `A5 1 3 7`. Where the arguments fit
/// their row, its fields read as the axiom again. Only tests call it: a certificate is written without a text of each
/// axiom.
pub fn write_axiom(alloc: Global, axiom: &AxiomName) -> Result<Bytes, Memory>
    ensures text { IfOk result (λ text. text ≡ axiom_text axiom.now) }
    ensures reads { IfOk result (λ text. IsAxiomName axiom.now → IsAxiomFields (field_texts text) axiom.now) }
{
    let mut text = String::new(alloc);
    push_axiom(&mut text, axiom)?;
    Ok(Bytes::from_vec(text.into_bytes()))
}

/// Adds the text of an axiom at the end of a text. After `Memory` a part of it may have been added.
pub fn push_axiom(text: &mut String, axiom: &AxiomName) -> Result<(), Memory>
    ensures { OnOk result (string_bytes text.new ≡ string_bytes text.old ++ axiom_text axiom.now) }
{
    text.push_str(axiom.name())?;
    push_arguments(text, axiom)
}

// Adds each argument behind a blank.
fn push_arguments(text: &mut String, axiom: &AxiomName) -> Result<(), Memory>
    ensures { OnOk result (string_bytes text.new
        ≡ string_bytes text.old ++ flat_map (λ n. 32 ∷ decimal_text n) (axiom_arguments axiom.now)) }
{
    match axiom {
        AxiomName::Af(axiom) => push_af_arguments(text, axiom),
        AxiomName::Aba(axiom) => push_aba_arguments(text, axiom),
    }
}

fn push_af_arguments(text: &mut String, axiom: &AfAxiom) -> Result<(), Memory>
    ensures { OnOk result (string_bytes text.new
        ≡ string_bytes text.old ++ flat_map (λ n. 32 ∷ decimal_text n) (af_arguments axiom.now)) }
{
    match *axiom {
        AfAxiom::A1(a)
        | AfAxiom::A7(a)
        | AfAxiom::A10(a)
        | AfAxiom::A11(a)
        | AfAxiom::A12(a)
        | AfAxiom::A13(a)
        | AfAxiom::A14(a) => write!(text, " {a}")?,
        AfAxiom::A2(a, b)
        | AfAxiom::A3(a, b)
        | AfAxiom::A4(a, b)
        | AfAxiom::A6(a, b)
        | AfAxiom::A9(a, b) => write!(text, " {a} {b}")?,
        AfAxiom::A5(a, i, j) | AfAxiom::A8(a, i, j) => write!(text, " {a} {i} {j}")?,
    }
    Ok(())
}

fn push_aba_arguments(text: &mut String, axiom: &AbaAxiom) -> Result<(), Memory>
    ensures { OnOk result (string_bytes text.new
        ≡ string_bytes text.old ++ flat_map (λ n. 32 ∷ decimal_text n) (aba_arguments axiom.now)) }
{
    match axiom {
        AbaAxiom::B1(a)
        | AbaAxiom::B2(a)
        | AbaAxiom::B3(a)
        | AbaAxiom::B14(a)
        | AbaAxiom::B15(a)
        | AbaAxiom::B16(a) => write!(text, " {a}")?,
        AbaAxiom::B12(a, c) | AbaAxiom::B13(a, c) => write!(text, " {a} {c}")?,
        AbaAxiom::B4(k) => write!(text, " {}", k.number())?,
        AbaAxiom::B9(k, x) => write!(text, " {} {x}", k.number())?,
        AbaAxiom::B9Con(a, c) => write!(text, " {CONTRARY_PART} {a} {c}")?,
        AbaAxiom::B5(k, a, b)
        | AbaAxiom::B6(k, a, b)
        | AbaAxiom::B8(k, a, b)
        | AbaAxiom::B11(k, a, b)
        | AbaAxiom::B19(k, a, b) => write!(text, " {} {a} {b}", k.number())?,
        AbaAxiom::B7(k, a, i, j) | AbaAxiom::B10(k, a, i, j) | AbaAxiom::B18(k, a, i, j) => {
            write!(text, " {} {a} {i} {j}", k.number())?
        }
        AbaAxiom::B17 { closure, x, rows } => push_loop(text, *closure, *x, rows.as_slice())?,
    }
    Ok(())
}

// The part of `B9` that speaks of a contrary.
const CONTRARY_PART: u32 = 3;

/// The axiom of this name and these arguments. `None` where there is none, or the arguments don't fit its row.
pub fn axiom_of(alloc: Global, name: &[u8], arguments: &[u32]) -> Result<Option<AxiomName>, Memory>
    ensures named { IfOk result (λ found. IfSome found (IsAxiomOf name.now arguments.now)) }
    ensures read { (which : AName) → IsAxiomOf name.now arguments.now which → IfOk result (λ found. found ≡ Some which) }
{
    let Some(axiom) = named(alloc, name, arguments)? else {
        return Ok(None);
    };
    if axiom.is_name() {
        Ok(Some(axiom))
    } else {
        Ok(None)
    }
}

// The axiom of this name and these arguments, whether they fit its row or not.
fn named(alloc: Global, name: &[u8], arguments: &[u32]) -> Result<Option<AxiomName>, Memory>
    ensures named { IfOk result (λ found. IfSome found (IsNamed name.now arguments.now)) }
    ensures read { (which : AName) → IsNamed name.now arguments.now which → IfOk result (λ found. found ≡ Some which) }
{
    if let Some(axiom) = af_named(name, arguments) {
        return Ok(Some(AxiomName::Af(axiom)));
    }
    match aba_named(alloc, name, arguments)? {
        Some(axiom) => Ok(Some(AxiomName::Aba(axiom))),
        None => Ok(None),
    }
}

// The axiom of abstract frameworks of this name and these arguments.
fn af_named(name: &[u8], arguments: &[u32]) -> Option<AfAxiom>
    ensures named { IfSome result (λ which. IsNamed name.now arguments.now (Af which)) }
    ensures read { (which : AnAfAxiom) → IsNamed name.now arguments.now (Af which) → result ≡ Some which }
{
    match *arguments {
        [a] => af_of_one(name, a),
        [a, b] => af_of_two(name, a, b),
        [a, i, j] => af_of_three(name, a, i, j),
        _ => None,
    }
}

fn af_of_one(name: &[u8], a: u32) -> Option<AfAxiom>
    ensures named { IfSome result (λ which. IsNamed name.now (a ∷ []) (Af which)) }
    ensures read { (which : AnAfAxiom) → IsNamed name.now (a ∷ []) (Af which) → result ≡ Some which }
{
    match name {
        b"A1" => Some(AfAxiom::A1(a)),
        b"A7" => Some(AfAxiom::A7(a)),
        b"A10" => Some(AfAxiom::A10(a)),
        b"A11" => Some(AfAxiom::A11(a)),
        b"A12" => Some(AfAxiom::A12(a)),
        b"A13" => Some(AfAxiom::A13(a)),
        b"A14" => Some(AfAxiom::A14(a)),
        _ => None,
    }
}

fn af_of_two(name: &[u8], a: u32, b: u32) -> Option<AfAxiom>
    ensures named { IfSome result (λ which. IsNamed name.now (a ∷ b ∷ []) (Af which)) }
    ensures read { (which : AnAfAxiom) → IsNamed name.now (a ∷ b ∷ []) (Af which) → result ≡ Some which }
{
    match name {
        b"A2" => Some(AfAxiom::A2(a, b)),
        b"A3" => Some(AfAxiom::A3(a, b)),
        b"A4" => Some(AfAxiom::A4(a, b)),
        b"A6" => Some(AfAxiom::A6(a, b)),
        b"A9" => Some(AfAxiom::A9(a, b)),
        _ => None,
    }
}

fn af_of_three(name: &[u8], a: u32, i: u32, j: u32) -> Option<AfAxiom>
    ensures named { IfSome result (λ which. IsNamed name.now (a ∷ i ∷ j ∷ []) (Af which)) }
    ensures read { (which : AnAfAxiom) → IsNamed name.now (a ∷ i ∷ j ∷ []) (Af which) → result ≡ Some which }
{
    match name {
        b"A5" => Some(AfAxiom::A5(a, i, j)),
        b"A8" => Some(AfAxiom::A8(a, i, j)),
        _ => None,
    }
}

// The axiom of assumption-based frameworks of this name and these arguments.
fn aba_named(alloc: Global, name: &[u8], arguments: &[u32]) -> Result<Option<AbaAxiom>, Memory>
    ensures named { IfOk result (λ found. IfSome found (λ which. IsNamed name.now arguments.now (Aba which))) }
    ensures read { (which : AnAbaAxiom) → IsNamed name.now arguments.now (Aba which)
        → IfOk result (λ found. found ≡ Some which) }
{
    match name {
        b"B17" => loop_of(alloc, arguments),
        _ => Ok(aba_of(name, arguments)),
    }
}

// The same where the name is not that of a loop clause.
fn aba_of(name: &[u8], arguments: &[u32]) -> Option<AbaAxiom>
    ensures named { IfSome result (λ which. IsNamed name.now arguments.now (Aba which)) }
    ensures read { (which : AnAbaAxiom) → IsNamed name.now arguments.now (Aba which) → (name.now ≡ codes "B17" → ⊥)
        → result ≡ Some which }
{
    match *arguments {
        [a] => aba_of_one(name, a),
        [a, b] => aba_of_two(name, a, b),
        [a, b, c] => aba_of_three(name, a, b, c),
        [closure, a, i, j] => aba_of_four(name, closure, a, i, j),
        _ => None,
    }
}

fn aba_of_one(name: &[u8], a: u32) -> Option<AbaAxiom>
    ensures named { IfSome result (λ which. IsNamed name.now (a ∷ []) (Aba which)) }
    ensures read { (which : AnAbaAxiom) → IsNamed name.now (a ∷ []) (Aba which) → (name.now ≡ codes "B17" → ⊥)
        → result ≡ Some which }
{
    match name {
        b"B1" => Some(AbaAxiom::B1(a)),
        b"B2" => Some(AbaAxiom::B2(a)),
        b"B3" => Some(AbaAxiom::B3(a)),
        b"B4" => never_zero(a),
        b"B14" => Some(AbaAxiom::B14(a)),
        b"B15" => Some(AbaAxiom::B15(a)),
        b"B16" => Some(AbaAxiom::B16(a)),
        _ => None,
    }
}

fn never_zero(closure: u32) -> Option<AbaAxiom>
    ensures named { IfSome result (λ which. IsNamed (codes "B4") (closure ∷ []) (Aba which)) }
    ensures read { (which : AnAbaAxiom) → IsNamed (codes "B4") (closure ∷ []) (Aba which) → result ≡ Some which }
{
    let closure = Closure::of_number(closure)?;
    Some(AbaAxiom::B4(closure))
}

fn aba_of_two(name: &[u8], a: u32, b: u32) -> Option<AbaAxiom>
    ensures named { IfSome result (λ which. IsNamed name.now (a ∷ b ∷ []) (Aba which)) }
    ensures read { (which : AnAbaAxiom) → IsNamed name.now (a ∷ b ∷ []) (Aba which) → (name.now ≡ codes "B17" → ⊥)
        → result ≡ Some which }
{
    match name {
        b"B9" => given_or_headed(a, b),
        b"B12" => Some(AbaAxiom::B12(a, b)),
        b"B13" => Some(AbaAxiom::B13(a, b)),
        _ => None,
    }
}

fn given_or_headed(closure: u32, x: u32) -> Option<AbaAxiom>
    ensures named { IfSome result (λ which. IsNamed (codes "B9") (closure ∷ x ∷ []) (Aba which)) }
    ensures read { (which : AnAbaAxiom) → IsNamed (codes "B9") (closure ∷ x ∷ []) (Aba which) → result ≡ Some which }
{
    let closure = Closure::of_number(closure)?;
    Some(AbaAxiom::B9(closure, x))
}

fn aba_of_three(name: &[u8], a: u32, b: u32, c: u32) -> Option<AbaAxiom>
    ensures named { IfSome result (λ which. IsNamed name.now (a ∷ b ∷ c ∷ []) (Aba which)) }
    ensures read { (which : AnAbaAxiom) → IsNamed name.now (a ∷ b ∷ c ∷ []) (Aba which) → (name.now ≡ codes "B17" → ⊥)
        → result ≡ Some which }
{
    match name {
        b"B9" => contrary_part(a, b, c),
        _ => of_closure(name, a, b, c),
    }
}

fn contrary_part(part: u32, a: u32, c: u32) -> Option<AbaAxiom>
    ensures named { IfSome result (λ which. IsNamed (codes "B9") (part ∷ a ∷ c ∷ []) (Aba which)) }
    ensures read { (which : AnAbaAxiom) → IsNamed (codes "B9") (part ∷ a ∷ c ∷ []) (Aba which) → result ≡ Some which }
{
    if part == CONTRARY_PART {
        Some(AbaAxiom::B9Con(a, c))
    } else {
        None
    }
}

// The axiom of this name whose first argument is a closure's number.
fn of_closure(name: &[u8], closure: u32, a: u32, b: u32) -> Option<AbaAxiom>
    ensures named { IfSome result (λ which. IsNamed name.now (closure ∷ a ∷ b ∷ []) (Aba which)) }
    ensures read { (which : AnAbaAxiom) → IsNamed name.now (closure ∷ a ∷ b ∷ []) (Aba which)
        → (name.now ≡ codes "B17" → ⊥) → (name.now ≡ codes "B9" → ⊥) → result ≡ Some which }
{
    let closure = Closure::of_number(closure)?;
    match name {
        b"B5" => Some(AbaAxiom::B5(closure, a, b)),
        b"B6" => Some(AbaAxiom::B6(closure, a, b)),
        b"B8" => Some(AbaAxiom::B8(closure, a, b)),
        b"B11" => Some(AbaAxiom::B11(closure, a, b)),
        b"B19" => Some(AbaAxiom::B19(closure, a, b)),
        _ => None,
    }
}

fn aba_of_four(name: &[u8], closure: u32, a: u32, i: u32, j: u32) -> Option<AbaAxiom>
    ensures named { IfSome result (λ which. IsNamed name.now (closure ∷ a ∷ i ∷ j ∷ []) (Aba which)) }
    ensures read { (which : AnAbaAxiom) → IsNamed name.now (closure ∷ a ∷ i ∷ j ∷ []) (Aba which)
        → (name.now ≡ codes "B17" → ⊥) → result ≡ Some which }
{
    let closure = Closure::of_number(closure)?;
    match name {
        b"B7" => Some(AbaAxiom::B7(closure, a, i, j)),
        b"B10" => Some(AbaAxiom::B10(closure, a, i, j)),
        b"B18" => Some(AbaAxiom::B18(closure, a, i, j)),
        _ => None,
    }
}
