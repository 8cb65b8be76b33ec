//! Reading a step.

ghost use Rattle.std.specs.Prelude.{◌≡◌, ◌↔◌, ◌≤◌, [], ◌∷◌, ◌++◌, ℕ, Some, codes, map, IfOk, IfErr, IfSome, IfNone, IsTrue};
ghost use Rattle.std.specs.List.{AllZip};
ghost use Rattle.meaning_atoms.specs.declared.atom.AtomLit.{AtomLit as ALit};
ghost use Rattle.meaning_atoms.specs.declared.axiom.AxiomName.{AxiomName as AName};
ghost use Rattle.num_text.specs.Number.{IsNumber};
ghost use Rattle.meaning_atoms.specs.AtomText.{IsLitText, signed};
ghost use Rattle.meaning_atoms.specs.AxiomText.{IsAxiomFields};
ghost use Rattle.certificate_text.specs.declared.word.Word.TheVariants.{Axiom as AxiomWord, Side as SideWord, Derived as DerivedWord};
ghost use Rattle.certificate_text.specs.Lines.{FaultsAt};
ghost use Rattle.certificate_text.specs.Literals.{GoesOn, HasLiterals, closed_view, found_in};
ghost use Rattle.certificate_text.specs.StepFields.{HasBadNumber, HasBadOrdinal, IsStepOf, SpellsOrdinal, StepStands};

use crate::fault::{CertCause, CertFault};
use crate::word::Word;
use certificate_claims::Step;
use lists::{Items, Memory};
use meaning_atoms::{Atom, AtomLit, AxiomName, axiom_of, read_lit};
use num_text::{Fields, decimal};
use std::alloc::Global;
use std::mem::replace;

/// Lists that are filled anew for each step, so that a step's own lists take one allocation each, and no more than
/// their items need. With the numbers read in one pass and [`member`], a certificate of 1,000,000 steps is read and
/// checked in two thirds of the time that it took where each step's lists grew by themselves.
#[derive(Drop)]
pub(crate) struct Room {
    literals: Items<AtomLit>,
    numbers: Items<u32>,
}

impl Room {
    /// No list is there yet, which takes no memory.
    pub(crate) fn new(alloc: Global) -> Room {
        Room {
            literals: Items::new(alloc),
            numbers: Items::new(alloc),
        }
    }
}

// The same items, in no more room than they need.
fn copied<T: Copy>(alloc: Global, list: &Items<T>) -> Result<Items<T>, Memory>
    ensures { IfOk result (λ copy. copy ≡ list.now) }
{
    Ok(Items::from_vec(Vec::from_slice(alloc, list.as_slice())?))
}

// The list without its items, with the room that it has. An empty list is left in its place.
fn cleared<T: Drop>(alloc: Global, list: &mut Items<T>) -> Items<T>
    ensures { result ≡ [] }
{
    let mut room = replace(list, Items::new(alloc)).into_vec();
    room.clear();
    Items::from_vec(room)
}

/// The fault of this cause at a line.
pub(crate) fn fault(line: usize, cause: CertCause) -> CertFault
    ensures { result ≡ CertFault.At line cause }
{
    CertFault::At { line, cause }
}

/// Whether no field is left.
pub(crate) fn is_done(mut rest: Fields<'_>) -> bool
    ensures { IsTrue result ↔ (map (λ f. f.text) rest.entry ≡ []) }
{
    rest.next().is_none()
}

// A number that is not 0.
fn from_one(number: Option<u32>) -> Option<u32>
    ensures number { IfSome result (λ n. (number ≡ Some n) × (1 ≤ n)) }
    ensures none { IfNone result ((n : ℕ) → number ≡ Some n → 1 ≤ n → ⊥) }
{
    let found = number?;
    if found < 1 {
        return None;
    }
    Some(found)
}

// The number, counted from 1, that the bytes spell.
fn ordinal(bytes: &[u8]) -> Option<u32>
    ensures number { IfSome result (SpellsOrdinal bytes.now) }
    ensures none { IfNone result ((n : ℕ) → ¬ SpellsOrdinal bytes.now n) }
{
    let number = decimal(bytes)?;
    if number < 1 {
        return None;
    }
    Some(number)
}

// The numbers, counted from 1, that the fields spell. `None` where some field spells none.
fn ordinals(empty: Items<u32>, mut rest: Fields<'_>) -> Result<Option<Items<u32>>, Memory>
    requires { empty ≡ [] }
    ensures numbers { IfOk result (λ found. IfSome found (AllZip SpellsOrdinal (map (λ f. f.text) rest.entry))) }
    ensures none { IfOk result (λ found. IfNone found (HasBadOrdinal (map (λ f. f.text) rest.entry))) }
{
    let mut numbers = empty;
    while let Some(field) = rest.next_number() {
        let Some(number) = from_one(field.number) else {
            return Ok(None);
        };
        numbers.push(number)?;
    }
    Ok(Some(numbers))
}

// The numbers that the fields spell. `None` where some field spells none.
fn numbers(empty: Items<u32>, mut rest: Fields<'_>) -> Result<Option<Items<u32>>, Memory>
    requires { empty ≡ [] }
    ensures numbers { IfOk result (λ found. IfSome found (AllZip IsNumber (map (λ f. f.text) rest.entry))) }
    ensures none { IfOk result (λ found. IfNone found (HasBadNumber (map (λ f. f.text) rest.entry))) }
{
    let mut numbers = empty;
    while let Some(field) = rest.next_number() {
        let Some(number) = field.number else {
            return Ok(None);
        };
        numbers.push(number)?;
    }
    Ok(Some(numbers))
}

// What the fields before the first `0` are.
enum Literals {
    // There is no `0`.
    Unclosed,
    // Some field is no literal.
    Unreadable,
    // These literals.
    Read(Items<AtomLit>),
}

// The sign and the digits of a literal whose atom is a member.
#[derive(Clone, Copy)]
struct MemberText<'a> {
    positive: bool,
    digits: &'a [u8],
}

// What stands before and behind `Member:`.
fn cut_member<'a>(bytes: &'a [u8]) -> Option<MemberText<'a>>
    ensures { IfSome result (λ m. bytes.entry.now ≡ signed m.positive (codes "Member:") ++ m.digits.now) }
{
    match bytes {
        [b'M', b'e', b'm', b'b', b'e', b'r', b':', digits @ ..] => Some(MemberText {
            positive: true,
            digits,
        }),
        [b'-', b'M', b'e', b'm', b'b', b'e', b'r', b':', digits @ ..] => Some(MemberText {
            positive: false,
            digits,
        }),
        _ => None,
    }
}

// The literal of a member, where the bytes are like the text of one: it is read in one pass over the digits, and not
// cut at colons first. Without this, that run takes 0.15 s more.
fn member(bytes: &[u8]) -> Option<AtomLit>
    ensures { IfSome result (IsLitText bytes.now) }
{
    let MemberText { positive, digits } = cut_member(bytes)?;
    let atom = Atom::Member(decimal(digits)?);
    if !atom.is_within() {
        return None;
    }
    Some(AtomLit { atom, positive })
}

// The literal that the bytes are the text of.
fn literal_of(bytes: &[u8]) -> Option<AtomLit>
    ensures spells { IfSome result (IsLitText bytes.now) }
    ensures read { (l : ALit) → IsLitText bytes.now l → result ≡ Some l }
{
    if let Some(member) = member(bytes) {
        return Some(member);
    }
    read_lit(bytes)
}

// Adds one more literal, where each so far was one, and answers whether this one is too.
fn with_literal(readable: bool, literals: &mut Items<AtomLit>, bytes: &[u8]) -> Result<bool, Memory>
    ensures { IfOk result (λ still. GoesOn (found_in readable literals.old) bytes.now (found_in still literals.new)) }
{
    if !readable {
        return Ok(false);
    }
    match literal_of(bytes) {
        Some(literal) => {
            literals.push(literal)?;
            Ok(true)
        }
        None => Ok(false),
    }
}

fn closed(readable: bool, literals: Items<AtomLit>) -> Literals
    ensures { result ≡ closed_view (found_in readable literals) }
{
    if readable {
        return Literals::Read(literals);
    }
    Literals::Unreadable
}

// Reads the literals up to the closing `0`. The fields behind it are left.
fn read_literals(empty: Items<AtomLit>, rest: &mut Fields<'_>) -> Result<Literals, Memory>
    requires { empty ≡ [] }
    ensures { IfOk result (HasLiterals (map (λ f. f.text) rest.old) (map (λ f. f.text) rest.new)) }
{
    let mut literals = empty;
    let mut readable = true;
    while let Some(field) = rest.next() {
        if field.text == b"0".as_slice() {
            return Ok(closed(readable, literals));
        }
        readable = with_literal(readable, &mut literals, field.text)?;
    }
    Ok(Literals::Unclosed)
}

fn derived(
    alloc: Global,
    line: usize,
    mut rest: Fields<'_>,
    room: &mut Room,
) -> Result<Step, CertFault>
    ensures step { IfOk result (IsStepOf DerivedWord (map (λ f. f.text) rest.entry)) }
    ensures fault { IfErr result (FaultsAt line (StepStands DerivedWord (map (λ f. f.text) rest.entry))) }
{
    let literals = cleared(alloc, &mut room.literals);
    let numbers = cleared(alloc, &mut room.numbers);
    match read_literals(literals, &mut rest)? {
        Literals::Unclosed => Err(fault(line, CertCause::BadLine)),
        Literals::Unreadable => match ordinals(numbers, rest)? {
            Some(_hints) => Err(fault(line, CertCause::BadAtom)),
            None => Err(fault(line, CertCause::BadNumber)),
        },
        Literals::Read(literals) => match ordinals(numbers, rest)? {
            Some(hints) => {
                let step = Step::Derived(copied(alloc, &literals)?, copied(alloc, &hints)?);
                room.literals = literals;
                room.numbers = hints;
                Ok(step)
            }
            None => Err(fault(line, CertCause::BadNumber)),
        },
    }
}

// The axiom of this name whose arguments the fields spell.
fn axiom_named(
    alloc: Global,
    name: &[u8],
    rest: Fields<'_>,
    room: &mut Room,
) -> Result<Option<AxiomName>, Memory>
    ensures axiom { IfOk result (λ found. IfSome found (IsAxiomFields (name.now ∷ map (λ f. f.text) rest.entry))) }
    ensures none { IfOk result (λ found. IfNone found
        ((which : AName) → ¬ IsAxiomFields (name.now ∷ map (λ f. f.text) rest.entry) which)) }
{
    let empty = cleared(alloc, &mut room.numbers);
    match numbers(empty, rest)? {
        Some(arguments) => {
            let found = axiom_of(alloc, name, arguments.as_slice())?;
            room.numbers = arguments;
            Ok(found)
        }
        None => Ok(None),
    }
}

fn axiom(
    alloc: Global,
    line: usize,
    mut rest: Fields<'_>,
    room: &mut Room,
) -> Result<Step, CertFault>
    ensures step { IfOk result (IsStepOf AxiomWord (map (λ f. f.text) rest.entry)) }
    ensures fault { IfErr result (FaultsAt line (StepStands AxiomWord (map (λ f. f.text) rest.entry))) }
{
    let Some(name) = rest.next() else {
        return Err(fault(line, CertCause::BadLine));
    };
    match axiom_named(alloc, name.text, rest, room)? {
        Some(axiom) => Ok(Step::Axiom(axiom)),
        None => Err(fault(line, CertCause::BadAxiom)),
    }
}

fn side(line: usize, mut rest: Fields<'_>) -> Result<Step, CertFault>
    ensures step { IfOk result (IsStepOf SideWord (map (λ f. f.text) rest.entry)) }
    ensures fault { IfErr result (FaultsAt line (StepStands SideWord (map (λ f. f.text) rest.entry))) }
{
    let Some(field) = rest.next() else {
        return Err(fault(line, CertCause::BadLine));
    };
    if !is_done(rest) {
        return Err(fault(line, CertCause::BadLine));
    }
    match ordinal(field.text) {
        Some(number) => Ok(Step::Side(number)),
        None => Err(fault(line, CertCause::BadNumber)),
    }
}

/// The step that a line with this word and these further fields says.
pub(crate) fn step_of(
    alloc: Global,
    line: usize,
    word: Word,
    rest: Fields<'_>,
    room: &mut Room,
) -> Result<Step, CertFault>
    ensures step { IfOk result (IsStepOf word (map (λ f. f.text) rest.entry)) }
    ensures fault { IfErr result (FaultsAt line (StepStands word (map (λ f. f.text) rest.entry))) }
{
    match word {
        Word::Axiom => axiom(alloc, line, rest, room),
        Word::Side => side(line, rest),
        Word::Derived => derived(alloc, line, rest, room),
        Word::Header | Word::Set | Word::Refutation | Word::End | Word::Other => {
            Err(fault(line, CertCause::BadLine))
        }
    }
}
