//! The header of a framework's text, for both kinds of framework.

ghost use Rattle.std.specs.Prelude.{◌≡◌, ◌≢◌, ◌∷◌, ◌≤◌, [], IfOk, IfErr, codes, length};
ghost use Rattle.num_text.specs.Cuts.{field_texts, lines_of};
ghost use Rattle.af_format.specs.Causes.{IsFirstCause};
ghost use Rattle.af_format.specs.Headers.{IsHeaderOf, StandsOnHeader, BeginWith, IsBadHeader};
ghost use Rattle.num_text.specs.declared.limit.TheConstants.{MAX_INPUT};

use crate::fault::{LineCause, LineFault};
use num_text::{Line, Lines, decimal, fields, line_count, next_kept};
use semantics::MAX_ARGUMENT;

/// The number that the header of a text tells: `p`, the word of the text's own kind of framework, and a number of at
/// most `semantics::MAX_ARGUMENT`. The lines after the header are left. `other` is the word of the other kind.
///
/// A fault is that of the first line that is not skipped, or, where there is none, `NoHeader` behind the last line.
pub fn read_header(
    bytes: &[u8],
    left: &mut Lines<'_>,
    own: &[u8],
    other: &[u8],
) -> Result<u32, LineFault>
    requires size { length bytes.now ≤ MAX_INPUT }
    requires all { left.old ≡ lines_of bytes.now }
    requires differ { own.now ≢ other.now }
    ensures ok { IfOk result (λ count. BeginWith own.now bytes.now count left.new) }
    ensures fault { IfErr result (λ fault. IsBadHeader own.now other.now bytes.now fault.line fault.cause) }
{
    let Some(header) = next_kept(left) else {
        return Err(LineFault {
            line: line_count(bytes) + 1,
            cause: LineCause::NoHeader,
        });
    };
    match header_of(&header, own, other) {
        Ok(count) => Ok(count),
        Err(cause) => Err(LineFault {
            line: header.number,
            cause,
        }),
    }
}

// The number that a header tells.
fn header_of(line: &Line<'_>, own: &[u8], other: &[u8]) -> Result<u32, LineCause>
    requires { own.now ≢ other.now }
    ensures ok { IfOk result (IsHeaderOf own.now line.now.text.now) }
    ensures err { IfErr result (IsFirstCause (StandsOnHeader own.now other.now (field_texts line.now.text.now))) }
{
    let text = header_number(line, own, other)?;
    let count = decimal(text).ok_or(LineCause::BadHeader)?;
    if count > MAX_ARGUMENT {
        return Err(LineCause::OutOfRange);
    }
    Ok(count)
}

// The third field of a header that has no other after it.
fn header_number<'a>(line: &Line<'a>, own: &[u8], other: &[u8]) -> Result<&'a [u8], LineCause>
    requires { own.now ≢ other.now }
    ensures ok { IfOk result (λ text. field_texts line.now.text.now ≡ codes "p" ∷ own.now ∷ text.now ∷ []) }
    ensures err { IfErr result (IsFirstCause (StandsOnHeader own.now other.now (field_texts line.now.text.now))) }
{
    let mut parts = fields(line);
    let first = parts.next().ok_or(LineCause::NoHeader)?;
    if first.text != "p".as_bytes() {
        return Err(LineCause::NoHeader);
    }
    let kind = parts.next().ok_or(LineCause::BadHeader)?;
    if kind.text == other {
        return Err(LineCause::WrongKind);
    }
    if kind.text != own {
        return Err(LineCause::BadHeader);
    }
    let number = parts.next().ok_or(LineCause::BadHeader)?;
    if parts.next().is_some() {
        return Err(LineCause::BadHeader);
    }
    Ok(number.text)
}
