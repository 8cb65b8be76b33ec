//! What `main` does: the words, the real files and standard output of a process, and its exit status.

ghost use Rattle.std.specs.Prelude.{◌≡◌, ◌≢◌, ◌⊎◌, []};
ghost use Rattle.std.specs.Option.{unwrap_or};
ghost use Rattle.std.specs.Io.KnownBytes.{Appends};
ghost use Rattle.argue_outside.specs.Outside.{AppendsPart, FaultCounted};
ghost use Rattle.argue_program.specs.Rows.{nothing_kept};
ghost use Rattle.argue_commands.specs.Texts.{common_text};

use crate::command::run;
use crate::ended::Ended;
use crate::ending::status_ending;
use crate::writing::write_ending;
use argue_commands::Status;
use argue_outside::{Files, NoPace, RealFiles, RealOut, Sink};
use std::alloc::{AllocError, Global};
use std::env;
use std::io::{self, ErrorKind};
use std::process::ExitCode;
use std::rt::{Env, Runtime};
use std::sync::Wait;
use std::thread::Threads;

/// Runs the program in a process, and gives the status with which the process has to end. Words that can't be had
/// end it as words that aren't well-formed do, but for want of memory.
///
/// No contract can say what the words, files and output of a process are. So this function is tested: by the stored
/// runs of the programs whose `main` is a call of it, one without words and one with words, a file and a status.
pub fn run_process<R: Runtime + AllocGlobal + Threads + Wait + Sync>(rt: &R) -> ExitCode {
    let reading: Result<R, AllocError> = rt.clone();
    let writing: Result<R, AllocError> = rt.clone();
    let (Ok(reading), Ok(writing)) = (reading, writing) else {
        return ExitCode::from(Status::WantOfMemory.code());
    };
    let mut files = RealFiles::new(rt.alloc(), reading);
    let mut out = RealOut::new(writing);
    let ended = match words(rt) {
        Ok(words) => run(
            rt,
            rt.alloc(),
            words.as_slice(),
            &mut files,
            &mut out,
            &NoPace,
        ),
        Err(error) => refuse_words(rt.alloc(), words_status(error.kind()), &mut files, &mut out),
    };
    ExitCode::from(ended.status.code())
}

/// The words after the program's name.
fn words<R: Env + AllocGlobal>(rt: &R) -> io::Result<Vec<String>> {
    Ok(env::args(rt)?.skip(1).collect(rt.alloc())?)
}

/// The status of a run whose words couldn't be had for this reason.
fn words_status(reason: ErrorKind) -> Status
    ensures memory { reason ≡ ErrorKind.OutOfMemory → result ≡ Status.WantOfMemory }
    ensures usage { reason ≢ ErrorKind.OutOfMemory → result ≡ Status.Usage }
    ensures either { (result ≡ Status.Usage) ⊎ (result ≡ Status.WantOfMemory) }
{
    match reason {
        ErrorKind::OutOfMemory => Status::WantOfMemory,
        _ => Status::Usage,
    }
}

/// Ends a run whose words couldn't be had.
fn refuse_words<F: Files, O: Sink>(
    alloc: Global,
    status: Status,
    files: &mut F,
    out: &mut O,
) -> Ended
    requires { (status ≡ Status.Usage) ⊎ (status ≡ Status.WantOfMemory) }
    ensures kept { result.kept ≡ nothing_kept }
    ensures status { result.status ≢ Status.WriteFault → result.status ≡ status }
    ensures text { result.status ≢ Status.WriteFault
        → Appends (O.contents out.old) (O.contents out.new) (unwrap_or (common_text status) []) }
    ensures part { result.status ≡ Status.WriteFault
        → AppendsPart (O.contents out.old) (O.contents out.new) (unwrap_or (common_text status) []) }
    ensures write_fault { result.status ≡ Status.WriteFault → FaultCounted (O.fault_count out.old)
        (O.fault_count out.new) }
{
    let ending = status_ending(alloc, status);
    write_ending(files, out, ending)
}
