//! The texts of a refutation of a certificate.

ghost use Rattle.std.specs.Prelude.{◌≡◌, IfOk};
ghost use Rattle.argue_words.specs.Words.{export_texts, exporting};
ghost use Rattle.argue_commands.specs.Inputs.{reading};
ghost use Rattle.argue_program.specs.Rows.{EndsExport, IsEndingFor};

use crate::ended::Transcript;
use crate::ending::{Ending, status_ending};
use argue_commands::{Status, Text};
use argue_outside::Files;
use argue_words::ExportWords;
use lists::Memory;
use lrat_commands::{export_files, exported_line, exported_list, exporting_of};
use refutation_logs::Exported;
use std::alloc::Global;

/// The ending of an export that is done: the line with the numbers of its texts, and their files. It keeps nothing.
fn export_ending(alloc: Global, output: &str, exported: Exported) -> Result<Ending, Memory>
    ensures { IfOk result (EndsExport exported output.entry.now) }
{
    let text = exported_line(alloc, &exported)?;
    let files = exported_list(alloc, output, exported)?;
    Ok(Ending {
        status: Status::Done,
        kept: Transcript::nothing(),
        text: Text::Made(text),
        files,
    })
}

/// The ending of an export.
pub(crate) fn export<F: Files>(alloc: Global, files: &mut F, words: ExportWords<'_>) -> Ending
    ensures ending { IsEndingFor (reading F.Files files.old files.new) (exporting (export_texts words.entry)) result }
    ensures same { F.holds files.new ≡ F.holds files.old }
    ensures writes { F.write_count files.new ≡ F.write_count files.old }
{
    let Some(wanted) = exporting_of(&words) else {
        return status_ending(alloc, Status::Usage);
    };
    match export_files(alloc, files, &wanted, &words.check) {
        Ok(exported) => match export_ending(alloc, words.output, exported) {
            Ok(ending) => ending,
            Err(Memory) => status_ending(alloc, Status::WantOfMemory),
        },
        Err(status) => status_ending(alloc, status),
    }
}
