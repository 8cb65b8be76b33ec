//! The lines of a text of either format.

ghost use Rattle.std.specs.Prelude.{◌≡◌, IfOk, IfErr, OnOk};
ghost use Rattle.num_text.specs.Views.{line_text};
ghost use Rattle.apx_tgf.specs.Taking.{TakesLine, IsNoLine, IsOverLimit};
ghost use Rattle.apx_tgf.specs.Told.{IsWithinLimits};

use crate::apx_line::take_apx_line;
use crate::fault::{NameCause, NameFault, ReadFault};
use crate::format::NameFormat;
use crate::tgf_line::take_tgf_line;
use crate::told::ToldSoFar;
use af_format::MAX_ATTACK_LINES;
use num_text::Line;
use semantics::MAX_ARGUMENT;

/// Takes what a line says. `divided` says whether the line `#` of a TGF text came before it; what is given, whether it
/// has come then.
pub(crate) fn take_line<'a>(
    format: NameFormat,
    line: &Line<'a>,
    divided: bool,
    told: &mut ToldSoFar<'a>,
) -> Result<bool, ReadFault>
    ensures ok { IfOk result (TakesLine format divided (line_text line.now) told.old told.new) }
    ensures fault { IfErr result (IsNoLine format divided (line_text line.now)) }
{
    match format {
        NameFormat::Apx => {
            take_apx_line(line, told)?;
            Ok(divided)
        }
        NameFormat::Tgf => take_tgf_line(line, divided, told),
    }
}

/// Whether what is told with this line is within the limits, or else the fault of the line.
pub(crate) fn within_limits(told: &ToldSoFar<'_>, line: usize) -> Result<(), NameFault>
    ensures ok { OnOk result (IsWithinLimits told.now) }
    ensures fault { IfErr result (IsOverLimit told.now line) }
{
    if told.name_count() > MAX_ARGUMENT as usize {
        return Err(NameFault {
            line,
            cause: NameCause::TooManyArguments,
        });
    }
    if told.attack_count() > MAX_ATTACK_LINES {
        return Err(NameFault {
            line,
            cause: NameCause::TooManyLines,
        });
    }
    Ok(())
}
