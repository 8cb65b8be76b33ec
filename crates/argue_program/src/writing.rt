//! Writing what a run has decided.

ghost use Rattle.std.specs.Prelude.{◌≡◌, ◌≢◌, ◌⊎◌, map};
ghost use Rattle.argue_outside.specs.Outside.{FaultCounted};
ghost use Rattle.argue_commands.specs.Replacing.{file_text, RefusesFile};
ghost use Rattle.argue_program.specs.Writing.{BreaksOff, IsWritten, output};

use crate::ended::Ended;
use crate::ending::Ending;
use argue_commands::Status;
use argue_commands::replacing::write_files;
use argue_outside::{Files, Sink, put_all};

/// Writes an ending, its files first and then its text. Where that breaks off, the status is that of a write fault: the
/// output failed, or a file's name isn't accepted.
pub fn write_ending<F: Files, O: Sink>(files: &mut F, out: &mut O, ending: Ending) -> Ended
    requires { ending.status ≢ Status.WriteFault }
    ensures kept { result.kept ≡ ending.kept }
    ensures whole { result.status ≢ Status.WriteFault → (result.status ≡ ending.status) × IsWritten ending
        (output F.Files O.Sink files.old out.old) (output F.Files O.Sink files.new out.new) }
    ensures broken { result.status ≡ Status.WriteFault → BreaksOff ending
        (output F.Files O.Sink files.old out.old) (output F.Files O.Sink files.new out.new) }
    ensures refused { result.status ≡ Status.WriteFault → FaultCounted (O.fault_count out.old) (O.fault_count out.new)
        ⊎ RefusesFile (F.accepts files.new) (map file_text ending.files) }
    ensures reads { F.read_count files.new ≡ F.read_count files.old }
{
    let Ending {
        status,
        kept,
        text,
        files: list,
    } = ending;
    if write_files(files, list.as_slice()).is_err() || put_all(out, text.as_bytes()).is_err() {
        return Ended {
            status: Status::WriteFault,
            kept,
        };
    }
    Ended { status, kept }
}
