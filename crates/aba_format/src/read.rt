//! Reading a framework.

ghost use Rattle.std.specs.Prelude.{◌≡◌, ℕ, ◌≤◌, ◌<◌, ◌⊎◌, length, Contains, IfOk, IfErr, IfSome, IfNone, OnOk};
ghost use Rattle.num_text.specs.Cuts.{field_texts};
ghost use Rattle.num_text.specs.Lines.{kept};
ghost use Rattle.num_text.specs.declared.limit.TheConstants.{MAX_INPUT};
ghost use Rattle.semantics.specs.declared.numbers.TheConstants.{MAX_ATOM};
ghost use Rattle.semantics.specs.AbaFrameworks.{Aba};
ghost use Rattle.aba_notions.specs.Solid.{IsSolid};
ghost use Rattle.af_format.specs.Faults.{IfLine};
ghost use Rattle.aba_format.specs.AbaText.{ReadsAs};
ghost use Rattle.aba_format.specs.Faults.{IsFaultless, IsFirstFault};
ghost use Rattle.aba_format.specs.Reading.{AreAllMarked, AreRead, AreWhole, AreWideFor, IfCause, IsBadText};
ghost use Rattle.aba_format.specs.Reading.{IsFirstBadLine};
ghost use Rattle.aba_format.specs.Reading.{IsFirstUnmarked, IsStopped, NumbersRise, TakesLine};

use crate::finish::framework_of;
use crate::said::LineParts;
use crate::statement::{Statement, statement_of};
use crate::stop::LineStop;
use aba_notions::AbaPlain;
use af_format::{LineCause, LineFault, ReadFault, read_header};
use num_text::{Line, Lines, lines, next_kept};
use std::alloc::Global;

/// Reads a framework in the ICCMA form: `p aba n`, then lines `a x`, `c x y` and `r h b1 .. bk` in any order (the
/// README has the grammar). Each line `c` adds a contrary, so an assumption has none, one or several. Repeated lines `a`
/// and `c`, and atoms repeated in a body, count once; each line `r` is a rule of its own, numbered by its order. At most
/// [`MAX_RULE_LINES`](crate::MAX_RULE_LINES) lines `r` are read, and at most
/// [`MAX_CONTRARY_LINES`](crate::MAX_CONTRARY_LINES) lines `c`, repeated ones included.
///
/// `Line` tells the first line at which a cause stands, and of the causes that stand there the first in
/// the order of [`LineCause`]. `Memory` says that an allocation was refused.
pub fn read_aba(alloc: Global, bytes: &[u8]) -> Result<AbaPlain, ReadFault>
    requires { length bytes.now ≤ MAX_INPUT }
    ensures ok { IfOk result (ReadsAs bytes.now) }
    ensures no_other { IfOk result (λ f. (g : Aba) → ReadsAs bytes.now g → g ≡ f) }
    ensures solid { IfOk result IsSolid }
    ensures faultless { OnOk result (IsFaultless bytes.now) }
    ensures fault { IfErr result (λ e. IfLine e (λ fault. IsFirstFault bytes.now fault.line fault.cause)) }
{
    let mut left = lines(bytes);
    let count = read_header(bytes, &mut left, "aba".as_bytes(), "af".as_bytes())?;
    let parts = read_lines(alloc, left, count)?;
    Ok(framework_of(alloc, count, parts)?)
}

// What all lines say that are left and not skipped.
fn read_lines(alloc: Global, left: Lines<'_>, count: u32) -> Result<LineParts, ReadFault>
    requires few { count ≤ MAX_ATOM }
    requires rise { NumbersRise (kept left) }
    ensures ok { IfOk result (AreWhole count (kept left.entry)) }
    ensures fault { IfErr result
        (λ e. IfLine e (λ fault. IsBadText count (kept left.entry) fault.line fault.cause)) }
{
    let parts = take_lines(alloc, left, count)?;
    match first_unmarked(&parts.given, &parts.assumed) {
        None => Ok(parts),
        Some(line) => Err(ReadFault::Line(LineFault {
            line,
            cause: LineCause::ContraryOfNonAssumption,
        })),
    }
}

// The same, whether or not only assumptions have contraries.
#[inline(never)]
fn take_lines(alloc: Global, mut left: Lines<'_>, count: u32) -> Result<LineParts, ReadFault>
    requires few { count ≤ MAX_ATOM }
    requires rise { NumbersRise (kept left) }
    ensures ok { IfOk result (AreRead count (kept left.entry)) }
    ensures fault { IfErr result
        (λ e. IfLine e (λ fault. IsFirstBadLine count (kept left.entry) fault.line fault.cause)) }
{
    let mut parts = LineParts::new(alloc, count)?;
    let mut body = Vec::new(alloc);
    while let Some(line) = next_kept(&mut left) {
        take_line(&mut parts, &mut body, &line, count)?;
    }
    Ok(parts)
}

// Takes in what a line says. `body` is room for the body of a rule, and is left with anything.
fn take_line(
    parts: &mut LineParts,
    body: &mut Vec<u32>,
    line: &Line<'_>,
    count: u32,
) -> Result<(), ReadFault>
    requires { AreWideFor count parts.old }
    ensures ok { OnOk result (TakesLine count line.now.number line.now.text.now parts.old parts.new) }
    ensures fault { IfErr result (λ e. IfLine e (λ fault. (fault.line ≡ line.now.number)
        × IsStopped count line.now.text.now parts.old fault.cause)) }
{
    match take_statement(parts, body, line, count) {
        Ok(()) => Ok(()),
        Err(LineStop::Memory) => Err(ReadFault::Memory),
        Err(LineStop::Cause(cause)) => Err(ReadFault::Line(LineFault {
            line: line.number,
            cause,
        })),
    }
}

// The same, and why it stops.
#[inline(always)]
fn take_statement(
    parts: &mut LineParts,
    body: &mut Vec<u32>,
    line: &Line<'_>,
    count: u32,
) -> Result<(), LineStop>
    requires { AreWideFor count parts.old }
    ensures ok { OnOk result (TakesLine count line.now.number line.now.text.now parts.old parts.new) }
    ensures err { IfErr result (λ stop. IfCause stop (IsStopped count line.now.text.now parts.old)) }
{
    match statement_of(line, count, body)? {
        Statement::Assumption(x) => parts.add_assumption(x),
        Statement::Contrary(x, y) => parts.add_contrary(x, y, line.number),
        Statement::Rule(head) => parts.add_rule(head, body.as_slice()),
    }
}

// The number beside the first of the given atoms that has no mark.
fn first_unmarked(given: &[(u32, usize)], marks: &[bool]) -> Option<usize>
    requires { (x line : ℕ) → Contains given.now (x, line) → x < length marks.now }
    ensures some { IfSome result (IsFirstUnmarked given.now marks.now) }
    ensures none { IfNone result (AreAllMarked given.now marks.now) }
{
    for (atom, line) in given {
        if !marks[*atom as usize] {
            return Some(*line);
        }
    }
    None
}
