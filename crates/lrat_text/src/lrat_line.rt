//! What a line of an LRAT text says.

ghost use Rattle.std.specs.Bool.{OnTrue, OnFalse};
ghost use Rattle.std.specs.Prelude.{◌≡◌, ◌↔◌, ◌⊎◌, ◌≤◌, ◌<◌, ℕ, [], ◌∷◌, ◌++◌, List, map, IfOk, IfErr, IsTrue};
ghost use Rattle.num_text.specs.Cuts.{field_texts};
ghost use Rattle.num_text.specs.Numerals.{IsReadNumber};
ghost use Rattle.lrat_text.specs.Numbers.{is_zero};
ghost use Rattle.lrat_text.specs.LratText.{IsStepLine, FaultsAt, LineStands};
ghost use Rattle.lrat_text.specs.Causes.{IsFirstLratCause};
ghost use Rattle.lrat_text.specs.LratText.{LiteralsSay, HintsSay, ReadsPart, AreParts, HasForm};
ghost use Rattle.lrat_text.specs.declared.fault.LratFault.{LratFault};

use crate::fault::{LratCause, LratFault};
use crate::signed::signed;
use lists::Memory;
use num_text::{Fields, Line, fields};
use plain_lits::Lit;
use std::alloc::Global;

/// The literals and the hints of a line. The lists are filled anew for each line, so that a line takes no allocation.
#[derive(Drop)]
pub(crate) struct StepText {
    pub literals: Vec<Lit>,
    pub hints: Vec<u32>,
}

impl StepText {
    /// No literal and no hint, which takes no memory.
    pub(crate) fn new(alloc: Global) -> StepText {
        StepText {
            literals: Vec::new(alloc),
            hints: Vec::new(alloc),
        }
    }
}

// What was found of the fields up to a `0`, or to the end.
#[derive(Clone, Copy)]
struct Part {
    // There is a `0`.
    closed: bool,
    // There is another field before it.
    filled: bool,
    // What is wrong with the fields before it.
    cause: Option<LratCause>,
}

// Whether the field is `0`.
fn is_zero(text: &[u8]) -> bool
    ensures { result ≡ is_zero text.now }
{
    text == b"0".as_slice()
}

// Whether a variable is from 1 to this number.
fn is_within(var: usize, vars: u32) -> bool
    ensures inside { OnTrue result ((1 ≤ var) × (var ≤ vars)) }
    ensures outside { OnFalse result ((var ≡ 0) ⊎ (vars < var)) }
{
    1 <= var && var <= vars as usize
}

// Adds a literal, where nothing is wrong so far, and tells what is wrong now.
fn add_literal(
    cause: Option<LratCause>,
    text: &[u8],
    number: Option<u32>,
    vars: u32,
    literals: &mut Vec<Lit>,
) -> Result<Option<LratCause>, Memory>
    requires { IsReadNumber text.now number }
    ensures { IfOk result (λ now. (front : List (List ℕ)) → LiteralsSay vars front literals.old.items cause
        → LiteralsSay vars (front ++ text.now ∷ []) literals.new.items now) }
{
    let Some(lit) = signed(text, number) else {
        return Ok(Some(LratCause::BadNumber));
    };
    if cause.is_some() {
        return Ok(cause);
    }
    if !is_within(lit.var, vars) {
        return Ok(Some(LratCause::OutOfRange));
    }
    literals.push(lit)?;
    Ok(None)
}

// Adds a hint, where nothing is wrong so far, and tells what is wrong now.
fn add_hint(
    cause: Option<LratCause>,
    text: &[u8],
    number: Option<u32>,
    hints: &mut Vec<u32>,
) -> Result<Option<LratCause>, Memory>
    requires { IsReadNumber text.now number }
    ensures { IfOk result (λ now. (front : List (List ℕ)) → HintsSay front hints.old.items cause
        → HintsSay (front ++ text.now ∷ []) hints.new.items now) }
{
    let Some(hint) = number else {
        return Ok(Some(LratCause::BadNumber));
    };
    if cause.is_some() {
        return Ok(cause);
    }
    hints.push(hint)?;
    Ok(None)
}

// Reads the literals up to a `0`, in place of those that the list has. The fields behind it are left.
fn read_literals(rest: &mut Fields<'_>, vars: u32, literals: &mut Vec<Lit>) -> Result<Part, Memory>
    ensures { IfOk result (ReadsPart (λ front. LiteralsSay vars front literals.new.items)
        (map (λ f. f.text) rest.old) (map (λ f. f.text) rest.new)) }
{
    literals.clear();
    let mut filled = false;
    let mut cause = None;
    while let Some(field) = rest.next_number() {
        if is_zero(field.text) {
            return Ok(Part {
                closed: true,
                filled,
                cause,
            });
        }
        filled = true;
        cause = add_literal(cause, field.text, field.number, vars, literals)?;
    }
    Ok(Part {
        closed: false,
        filled,
        cause,
    })
}

// Reads the hints up to a `0`, in place of those that the list has. The fields behind it are left.
fn read_hints(rest: &mut Fields<'_>, hints: &mut Vec<u32>) -> Result<Part, Memory>
    ensures { IfOk result (ReadsPart (λ front. HintsSay front hints.new.items)
        (map (λ f. f.text) rest.old) (map (λ f. f.text) rest.new)) }
{
    hints.clear();
    let mut filled = false;
    let mut cause = None;
    while let Some(field) = rest.next_number() {
        if is_zero(field.text) {
            return Ok(Part {
                closed: true,
                filled,
                cause,
            });
        }
        filled = true;
        cause = add_hint(cause, field.text, field.number, hints)?;
    }
    Ok(Part {
        closed: false,
        filled,
        cause,
    })
}

// Whether no field is left.
fn is_done(mut rest: Fields<'_>) -> bool
    ensures { IsTrue result ↔ (map (λ f. f.text) rest.entry ≡ []) }
{
    rest.next().is_none()
}

// Whether a line that begins so, and goes on with these parts, of which the first is closed, has two fields `0`, of
// which one is its last, and a field more.
fn has_form(id: &[u8], literals: Part, hints: Part, is_done: bool) -> bool
    ensures { (rest : List (List ℕ)) → AreParts rest literals hints is_done → IsTrue result ↔ HasForm (id.now ∷ rest) }
{
    if !is_zero(id) {
        if hints.closed {
            return is_done;
        }
        return false;
    }
    if hints.closed {
        return false;
    }
    if hints.filled {
        return false;
    }
    literals.filled
}

// The fault of this cause at a line.
fn fault(line: usize, cause: LratCause) -> LratFault
    ensures { result ≡ LratFault.At line cause }
{
    LratFault::At { line, cause }
}

/// The id of a line, whose literals and hints are put in place of those that `into` has. Variables are from 1 to
/// `vars`, and the id is above `last`.
pub(crate) fn read_step(
    line: &Line<'_>,
    vars: u32,
    last: u32,
    into: &mut StepText,
) -> Result<u32, LratFault>
    ensures step { IfOk result
        (λ id. IsStepLine vars last (field_texts line.now.text.now) id into.new.literals.items into.new.hints.items) }
    ensures fault { IfErr result
        (FaultsAt line.now.number (IsFirstLratCause (LineStands vars last (field_texts line.now.text.now)))) }
{
    let mut rest = fields(line);
    let Some(id) = rest.next_number() else {
        return Err(fault(line.number, LratCause::BadLine));
    };
    let literals = read_literals(&mut rest, vars, &mut into.literals)?;
    let is_closed = literals.closed;
    if !is_closed {
        return Err(fault(line.number, LratCause::BadLine));
    }
    let hints = read_hints(&mut rest, &mut into.hints)?;
    if !has_form(id.text, literals, hints, is_done(rest)) {
        return Err(fault(line.number, LratCause::BadLine));
    }
    let Some(number) = id.number else {
        return Err(fault(line.number, LratCause::BadNumber));
    };
    if hints.cause.is_some() {
        return Err(fault(line.number, LratCause::BadNumber));
    }
    if let Some(cause) = literals.cause {
        return Err(fault(line.number, cause));
    }
    if number <= last {
        return Err(fault(line.number, LratCause::IdOrder));
    }
    Ok(number)
}
