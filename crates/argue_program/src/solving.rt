//! The answer to a query.

ghost use Rattle.std.specs.Prelude.{◌≡◌, ℕ, List, Ok, Err, IfOk, Option};
ghost use Rattle.std.specs.Option.{option_map};
ghost use Rattle.argue_words.specs.Words.{solve_texts, solving};
ghost use Rattle.argue_commands.specs.Inputs.{reading};
ghost use Rattle.argue_program.specs.Rows.{EndsSession, IsEndingFor, reply_text, session_kept};

use crate::ended::Transcript;
use crate::ending::{Ending, status_ending};
use argue_commands::query::solving_of;
use argue_commands::solving::{certificate_file, solve_file, status_of};
use argue_commands::texts::status_text;
use argue_commands::{AnswerStop, Answered, Engine, KeptSession, Status, Text};
use argue_outside::Files;
use argue_words::SolveWords;
use iccma_tasks::answer_text;
use lists::{Bytes, Items, Memory};
use std::alloc::Global;

/// What is kept of a session.
fn kept_of(reply: Result<Answered, AnswerStop>, engine: Engine) -> Transcript
    ensures { result ≡ session_kept (record { reply = reply; engine = engine }) }
{
    Transcript {
        session: Some(KeptSession { reply, engine }),
        script: None,
    }
}

/// The ending with an answer: its text, and the file of its certificate where one is named.
pub(crate) fn answer_ending(
    alloc: Global,
    reply: Answered,
    engine: Engine,
    text: Bytes,
    certificate: Option<&str>,
) -> Result<Ending, Memory>
    ensures { IfOk result (EndsSession (record { reply = Ok reply; engine = engine }) text
        (option_map (λ text. text.now) certificate.entry)) }
{
    let files = certificate_file(alloc, certificate, &reply.certificate)?;
    Ok(Ending {
        status: Status::Done,
        kept: kept_of(Ok(reply), engine),
        text: Text::Answer(text),
        files,
    })
}

/// The ending without an answer: the line of its status.
pub(crate) fn stop_ending(alloc: Global, stop: AnswerStop, engine: Engine) -> Result<Ending, Memory>
    ensures { (text : List ℕ) (name : Option (List ℕ))
        → IfOk result (EndsSession (record { reply = Err stop; engine = engine }) text name) }
{
    let status = status_of(stop);
    let text = status_text(alloc, status)?;
    Ok(Ending {
        status,
        kept: kept_of(Err(stop), engine),
        text,
        files: Items::new(alloc),
    })
}

/// The ending of a session, which keeps it.
fn session_ending(
    alloc: Global,
    session: KeptSession,
    certificate: Option<&str>,
) -> Result<Ending, Memory>
    ensures { IfOk result (EndsSession session (reply_text session.reply)
        (option_map (λ text. text.now) certificate.entry)) }
{
    let KeptSession { reply, engine } = session;
    match reply {
        Ok(reply) => {
            let text = answer_text(alloc, &reply.answer)?;
            answer_ending(alloc, reply, engine, text, certificate)
        }
        Err(stop) => stop_ending(alloc, stop, engine),
    }
}

/// The ending of a query.
pub(crate) fn solve<F: Files>(alloc: Global, files: &mut F, words: SolveWords<'_>) -> Ending
    ensures ending { IsEndingFor (reading F.Files files.old files.new) (solving (solve_texts words.entry)) result }
    ensures same { F.holds files.new ≡ F.holds files.old }
    ensures writes { F.write_count files.new ≡ F.write_count files.old }
{
    let Some(query) = solving_of(&words) else {
        return status_ending(alloc, Status::Usage);
    };
    match solve_file(alloc, files, &query, &words) {
        Ok(session) => match session_ending(alloc, session, words.certificate) {
            Ok(ending) => ending,
            Err(Memory) => status_ending(alloc, Status::WantOfMemory),
        },
        Err(status) => status_ending(alloc, status),
    }
}
