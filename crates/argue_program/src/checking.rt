//! The check of an answer with its certificate.

ghost use Rattle.std.specs.Prelude.{◌≡◌};
ghost use Rattle.argue_words.specs.Words.{check_texts, checking};
ghost use Rattle.argue_commands.specs.Inputs.{reading};
ghost use Rattle.argue_program.specs.Rows.{IsEndingFor};

use crate::ending::{Ending, done_ending, status_ending};
use argue_commands::checking::check_files;
use argue_commands::query::query_of;
use argue_commands::{Status, Text};
use argue_outside::Files;
use argue_words::CheckWords;
use std::alloc::Global;

/// The ending of a check.
pub(crate) fn check<F: Files>(alloc: Global, files: &mut F, words: CheckWords<'_>) -> Ending
    ensures ending { IsEndingFor (reading F.Files files.old files.new) (checking (check_texts words.entry)) result }
    ensures same { F.holds files.new ≡ F.holds files.old }
    ensures writes { F.write_count files.new ≡ F.write_count files.old }
{
    let Some(query) = query_of(words.task, words.number) else {
        return status_ending(alloc, Status::Usage);
    };
    match check_files(alloc, files, &query, &words) {
        Ok(()) => done_ending(alloc, Text::Fixed("ACCEPTED\n")),
        Err(status) => status_ending(alloc, status),
    }
}
