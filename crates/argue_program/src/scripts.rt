//! The run of a script's sessions on the framework in a file.

ghost use Rattle.std.specs.Prelude.{◌≡◌, IfOk, map};
ghost use Rattle.std.specs.Option.{option_map};
ghost use Rattle.argue_words.specs.Words.{live_texts, living};
ghost use Rattle.edit_rules.specs.Kinds.{framework_of};
ghost use Rattle.argue_commands.specs.Inputs.{reading};
ghost use Rattle.argue_commands.specs.Replacing.{file_text};
ghost use Rattle.argue_program.specs.Rows.{EndsScript, EndsServed, IsEndingFor, certificates_files};

use crate::ended::Transcript;
use crate::ending::{Ending, status_ending};
use argue_commands::opening::{Opened, open_files};
use argue_commands::query::budget_in;
use argue_commands::{Status, Text, Written};
use argue_outside::{Files, Pace};
use argue_words::LiveWords;
use bench_runs::{ScriptTranscript, run_script};
use lists::{Items, Memory};
use session_replies::{Reply, certificates_text, transcript_text};
use std::alloc::Global;
use std::sync::Wait;
use std::thread::Threads;

/// The file that the certificates of all answers are written to, where one is named.
fn certificates_file(
    alloc: Global,
    name: Option<&str>,
    transcript: &ScriptTranscript,
) -> Result<Items<Written>, Memory>
    ensures { IfOk result (λ files. map file_text files
        ≡ certificates_files (option_map (λ text. text.now) name.entry) transcript.now) }
{
    let mut files = Items::new(alloc);
    let Some(name) = name else {
        return Ok(files);
    };
    files.push(Written {
        name: String::from_str(alloc, name)?,
        bytes: certificates_text(alloc, transcript.replies.as_slice())?,
    })?;
    Ok(files)
}

/// The ending of a script's run, which keeps what the sessions came to.
fn script_ending(
    alloc: Global,
    transcript: ScriptTranscript,
    certificate: Option<&str>,
) -> Result<Ending, Memory>
    ensures { IfOk result (EndsScript transcript (option_map (λ text. text.now) certificate.entry)) }
{
    let text = transcript_text(
        alloc,
        transcript.replies.as_slice(),
        transcript.history.entries.as_slice(),
    )?;
    let files = certificates_file(alloc, certificate, &transcript)?;
    Ok(Ending {
        status: Status::Done,
        kept: Transcript {
            session: None,
            script: Some(transcript),
        },
        text: Text::Answer(text),
        files,
    })
}

/// Runs the sessions of a script on a framework, and makes the ending.
fn serve<R: Threads + Wait + Sync, P: Pace + Sync>(
    rt: &R,
    alloc: Global,
    opened: Opened,
    budget: u32,
    certificate: Option<&str>,
    pace: &P,
) -> Result<Ending, Memory>
    ensures { IfOk result (EndsServed (framework_of opened.framework) opened.script budget
        (option_map (λ text. text.now) certificate.entry)) }
{
    let Opened { framework, script } = opened;
    let transcript = run_script(rt, alloc, framework, &script, budget as u64, pace)?;
    script_ending(alloc, transcript, certificate)
}

/// The ending of a script's run.
pub(crate) fn live<R: Threads + Wait + Sync, F: Files, P: Pace + Sync>(
    rt: &R,
    alloc: Global,
    files: &mut F,
    words: LiveWords<'_>,
    pace: &P,
) -> Ending
    ensures ending { IsEndingFor (reading F.Files files.old files.new) (living (live_texts words.entry)) result }
    ensures same { F.holds files.new ≡ F.holds files.old }
    ensures writes { F.write_count files.new ≡ F.write_count files.old }
{
    let Some(budget) = budget_in(words.budget) else {
        return status_ending(alloc, Status::Usage);
    };
    match open_files(alloc, files, &words) {
        Ok(opened) => match serve(rt, alloc, opened, budget, words.certificate, pace) {
            Ok(ending) => ending,
            Err(Memory) => status_ending(alloc, Status::WantOfMemory),
        },
        Err(status) => status_ending(alloc, status),
    }
}
