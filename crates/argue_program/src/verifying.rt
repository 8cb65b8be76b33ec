//! The check of a CNF with its refutation.

ghost use Rattle.std.specs.Prelude.{◌≡◌};
ghost use Rattle.argue_words.specs.Words.{lrat_texts, verifying};
ghost use Rattle.argue_commands.specs.Inputs.{reading};
ghost use Rattle.argue_program.specs.Rows.{IsEndingFor};

use crate::ending::{Ending, done_ending, status_ending};
use argue_commands::Text;
use argue_outside::Files;
use argue_words::LratWords;
use lrat_commands::verify_files;
use std::alloc::Global;

/// The ending of a check of a refutation.
pub(crate) fn lrat<F: Files>(alloc: Global, files: &mut F, words: LratWords<'_>) -> Ending
    ensures ending { IsEndingFor (reading F.Files files.old files.new) (verifying (lrat_texts words.entry)) result }
    ensures same { F.holds files.new ≡ F.holds files.old }
    ensures writes { F.write_count files.new ≡ F.write_count files.old }
{
    match verify_files(alloc, files, &words) {
        Ok(()) => done_ending(alloc, Text::Fixed("VERIFIED\n")),
        Err(status) => status_ending(alloc, status),
    }
}
