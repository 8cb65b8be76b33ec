//! The text with numbers of a framework whose arguments have names.

ghost use Rattle.std.specs.Prelude.{◌≡◌};
ghost use Rattle.argue_words.specs.Words.{af_texts, numbering};
ghost use Rattle.argue_commands.specs.Inputs.{reading};
ghost use Rattle.argue_program.specs.Rows.{IsEndingFor};

use crate::ending::{Ending, done_ending, status_ending};
use argue_commands::{Status, Text};
use argue_outside::Files;
use argue_words::AfWords;
use named_commands::{format_named, number_file};
use std::alloc::Global;

/// The ending of a text with numbers.
pub(crate) fn af<F: Files>(alloc: Global, files: &mut F, words: AfWords<'_>) -> Ending
    ensures ending { IsEndingFor (reading F.Files files.old files.new) (numbering (af_texts words.entry)) result }
    ensures same { F.holds files.new ≡ F.holds files.old }
    ensures writes { F.write_count files.new ≡ F.write_count files.old }
{
    let Some(format) = format_named(words.kind) else {
        return status_ending(alloc, Status::Usage);
    };
    match number_file(alloc, files, format, &words) {
        Ok(text) => done_ending(alloc, Text::Answer(text)),
        Err(status) => status_ending(alloc, status),
    }
}
