//! The files that a run writes, and how they are replaced.

ghost use Rattle.std.specs.Prelude.{◌≡◌, map, OnErr, OnOk};
ghost use Rattle.argue_outside.specs.Outside.{FaultCounted};
ghost use Rattle.argue_commands.specs.Replacing.{file_text, BreaksFiles, BreaksReplacing, RefusesFile, Replaces, WritesFiles};

use argue_outside::{Failed, Files, append_all};
use lists::Bytes;

/// A file that a run writes: its name, and the bytes that it is to have.
#[derive(Drop)]
pub struct Written {
    pub name: String,
    pub bytes: Bytes,
}

/// Clears a file and writes its bytes. After `Failed` the file is as before, or has a part of the bytes, and its name
/// isn't accepted.
fn replace_file<F: Files>(files: &mut F, file: &Written) -> Result<(), Failed>
    ensures ok { OnOk result (Replaces (file_text file.now) (F.holds files.old) (F.holds files.new)) }
    ensures err { OnErr result (BreaksReplacing (file_text file.now) (F.holds files.old) (F.holds files.new)) }
    ensures refused { OnErr result (¬ F.accepts files.new (file_text file.now).name) }
    ensures quiet { OnOk result (F.write_count files.new ≡ F.write_count files.old) }
    ensures failed { OnErr result (FaultCounted (F.write_count files.old) (F.write_count files.new)) }
    ensures reads { F.read_count files.new ≡ F.read_count files.old }
{
    files.clear(file.name.as_str())?;
    append_all(files, file.name.as_str(), file.bytes.as_slice())
}

/// Replaces the files in order, up to one that can't be.
pub fn write_files<F: Files>(files: &mut F, list: &[Written]) -> Result<(), Failed>
    ensures ok { OnOk result (WritesFiles (map file_text list.now) (F.holds files.old) (F.holds files.new)) }
    ensures err { OnErr result (BreaksFiles (map file_text list.now) (F.holds files.old) (F.holds files.new)) }
    ensures refused { OnErr result (RefusesFile (F.accepts files.new) (map file_text list.now)) }
    ensures quiet { OnOk result (F.write_count files.new ≡ F.write_count files.old) }
    ensures failed { OnErr result (FaultCounted (F.write_count files.old) (F.write_count files.new)) }
    ensures reads { F.read_count files.new ≡ F.read_count files.old }
{
    for file in list {
        replace_file(files, file)?;
    }
    Ok(())
}
