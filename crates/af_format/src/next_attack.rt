//! The attack lines of a text, one after the other.

ghost use Rattle.std.specs.Prelude.{◌≡◌, ℕ, [], IfOk, IfErr, IfSome, IfNone, Ok, Err, Some};
ghost use Rattle.num_text.specs.Lines.{kept};
ghost use Rattle.af_format.specs.FirstBadLine.{TellsNext, IsNextFault};

use crate::af_line::attack_of;
use crate::fault::{LineCause, LineFault};
use num_text::{Lines, next_kept};

/// The attack of the next line that is not skipped, where so many attack lines stand before it; `None` where no
/// such line is left.
pub(crate) fn next_attack(
    left: &mut Lines<'_>,
    count: u32,
    index: usize,
) -> Result<Option<(u32, u32)>, LineFault>
    ensures next { IfOk result (λ next. IfSome next (TellsNext count index (kept left.old) (kept left.new))) }
    ensures end { IfOk result (λ next. IfNone next (kept left.old ≡ [])) }
    ensures fault { IfErr result (λ fault. IsNextFault count index (kept left.old) fault.line fault.cause) }
{
    match next_kept(left) {
        Some(line) => at_line(line.number, attack_of(&line, count, index)),
        None => Ok(None),
    }
}

// What a line of that number tells.
fn at_line(
    line: usize,
    told: Result<(u32, u32), LineCause>,
) -> Result<Option<(u32, u32)>, LineFault>
    ensures ok { IfOk told (λ attack. result ≡ Ok (Some attack)) }
    ensures err { IfErr told (λ cause. result ≡ Err (record { line = line; cause = cause })) }
{
    match told {
        Ok(attack) => Ok(Some(attack)),
        Err(cause) => Err(LineFault { line, cause }),
    }
}
