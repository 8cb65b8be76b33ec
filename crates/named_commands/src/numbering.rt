//! The text with numbers of a framework whose arguments have names.

ghost use Rattle.std.specs.Prelude.{◌≡◌, ◌≤◌, length, IfErr, IfOk, IsErrOf, IsSome};
ghost use Rattle.argue_outside.specs.Outside.{OtherCountsKept};
ghost use Rattle.num_text.specs.declared.limit.TheConstants.{MAX_INPUT};
ghost use Rattle.argue_commands.specs.Inputs.{EndsReading, named_input, reading};
ghost use Rattle.argue_commands.specs.Texts.{common_text};
ghost use Rattle.named_commands.specs.Numberings.{IsNumbered, IsNumberedOf, StopsNumbering};

use crate::solving::names_refused;
use apx_tgf::{NameFormat, read_named, write_named};
use argue_commands::Status;
use argue_commands::input::read_input;
use argue_outside::{Files, Role};
use argue_words::AfWords;
use lists::{Bytes, Memory};
use std::alloc::Global;

// The text with numbers of the framework that a text describes.
fn number_text(alloc: Global, format: NameFormat, bytes: &[u8]) -> Result<Bytes, Status>
    requires { length bytes.now ≤ MAX_INPUT }
    ensures ok { IfOk result (IsNumbered format bytes.now) }
    ensures err { IfErr result (StopsNumbering format bytes.now) }
{
    let named = match read_named(alloc, format, bytes) {
        Ok(named) => named,
        Err(fault) => return Err(names_refused(fault)),
    };
    match write_named(alloc, &named.names, &named.framework) {
        Ok(text) => Ok(text),
        Err(Memory) => Err(Status::WantOfMemory),
    }
}

/// The text with numbers of the framework in a file, or the status of the run that stops before.
pub fn number_file<F: Files>(
    alloc: Global,
    files: &mut F,
    format: NameFormat,
    words: &AfWords<'_>,
) -> Result<Bytes, Status>
    ensures ok { IfOk result (IsNumberedOf (F.holds files.old words.now.file.now) format) }
    ensures err { IfErr result
        (EndsReading (reading F.Files files.old files.new) (named_input format words.now.file.now)) }
    ensures told { IfErr result (λ end. IsSome (common_text end)) }
    ensures quiet { (IsErrOf result (Status.ReadFault (Role.Framework 1)) → ⊥)
        → F.read_count files.new ≡ F.read_count files.old }
    ensures others { OtherCountsKept (Role.Framework 1) (F.read_count files.old) (F.read_count files.new) }
    ensures same { F.holds files.new ≡ F.holds files.old }
    ensures writes { F.write_count files.new ≡ F.write_count files.old }
{
    let bytes = match read_input(alloc, files, Role::Framework(1), words.file) {
        Ok(bytes) => bytes,
        Err(end) => return Err(end),
    };
    number_text(alloc, format, bytes.as_slice())
}
