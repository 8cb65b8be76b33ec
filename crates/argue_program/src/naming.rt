//! The answer to a query by names.

ghost use Rattle.std.specs.Prelude.{◌≡◌, IfOk};
ghost use Rattle.std.specs.Option.{option_map};
ghost use Rattle.argue_words.specs.Words.{by_name, names_texts};
ghost use Rattle.argue_commands.specs.Inputs.{reading};
ghost use Rattle.argue_program.specs.Rows.{EndsSession, IsEndingFor};

use crate::ending::{Ending, status_ending};
use crate::solving::{answer_ending, stop_ending};
use argue_commands::{KeptSession, Status};
use argue_outside::Files;
use argue_words::NamesWords;
use lists::Memory;
use named_commands::{NamedSession, naming_of, solve_names};
use std::alloc::Global;

/// The ending of a session whose answer has this text by names. It keeps the session.
fn named_ending(
    alloc: Global,
    named: NamedSession,
    certificate: Option<&str>,
) -> Result<Ending, Memory>
    ensures { IfOk result (EndsSession named.session named.text (option_map (λ text. text.now) certificate.entry)) }
{
    let NamedSession { session, text } = named;
    let KeptSession { reply, engine } = session;
    match reply {
        Ok(reply) => answer_ending(alloc, reply, engine, text, certificate),
        Err(stop) => stop_ending(alloc, stop, engine),
    }
}

/// The ending of a query by names.
pub(crate) fn names<F: Files>(alloc: Global, files: &mut F, words: NamesWords<'_>) -> Ending
    ensures ending { IsEndingFor (reading F.Files files.old files.new) (by_name (names_texts words.entry)) result }
    ensures same { F.holds files.new ≡ F.holds files.old }
    ensures writes { F.write_count files.new ≡ F.write_count files.old }
{
    let Some(query) = naming_of(&words) else {
        return status_ending(alloc, Status::Usage);
    };
    match solve_names(alloc, files, &query, &words) {
        Ok(session) => match named_ending(alloc, session, words.certificate) {
            Ok(ending) => ending,
            Err(Memory) => status_ending(alloc, Status::WantOfMemory),
        },
        Err(status) => status_ending(alloc, status),
    }
}
