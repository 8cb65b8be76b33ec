//! Which ending the words ask for: an arm for each command.

ghost use Rattle.std.specs.Prelude.{◌≡◌, ◌≢◌, Some, map};
ghost use Rattle.std.specs.String.{string_bytes};
ghost use Rattle.argue_words.specs.Words.{command_named, request_of, requested};
ghost use Rattle.argue_words.specs.declared.words.BenchWords.{BenchWords as ABenchWords};
ghost use Rattle.argue_words.specs.declared.words.LiveWords.{LiveWords as ALiveWords};
ghost use Rattle.argue_commands.specs.Inputs.{reading};
ghost use Rattle.argue_program.specs.Rows.{IsEndingFor};

use crate::checking::check;
use crate::ending::{Ending, done_ending, status_ending};
use crate::exporting::export;
use crate::large::bench;
use crate::naming::names;
use crate::numbering::af;
use crate::scripts::live;
use crate::solving::solve;
use crate::verifying::lrat;
use argue_commands::{Status, Text};
use argue_outside::{Files, Pace};
use argue_words::{Command, CommandName, read_words};
use lists::Memory;
use std::alloc::Global;
use std::sync::Wait;
use std::thread::Threads;

/// The line of `--problems`.
const PROBLEMS: &str = concat!(
    "[DC-CO,DC-GR,DC-PR,DC-ST,DC-SST,DC-ID,DC-STG,DS-CO,DS-GR,DS-PR,DS-ST,DS-SST,DS-ID,DS-STG,",
    "SE-CO,SE-GR,SE-PR,SE-ST,SE-SST,SE-ID,SE-STG,EE-CO,EE-PR,EE-ST,EE-SST,EE-STG]\n",
);

/// The ending of a command that wants no sessions in threads.
fn decide_command<F: Files>(alloc: Global, command: Command, files: &mut F) -> Ending
    requires live { (words : ALiveWords) → command ≢ Command.Live words }
    requires bench { (words : ABenchWords) → command ≢ Command.Bench words }
    ensures ending { IsEndingFor (reading F.Files files.old files.new) (request_of command.entry) result }
    ensures same { F.holds files.new ≡ F.holds files.old }
    ensures writes { F.write_count files.new ≡ F.write_count files.old }
{
    match command {
        Command::Version => done_ending(alloc, Text::Fixed("argue 1.0\n")),
        Command::Problems => done_ending(alloc, Text::Fixed(PROBLEMS)),
        Command::Solve(words) => solve(alloc, files, words),
        Command::Check(words) => check(alloc, files, words),
        Command::Names(words) => names(alloc, files, words),
        Command::Af(words) => af(alloc, files, words),
        Command::Lrat(words) => lrat(alloc, files, words),
        Command::Export(words) => export(alloc, files, words),
        Command::Live(_) | Command::Bench(_) => unreachable!(),
        Command::Unknown => status_ending(alloc, Status::Usage),
    }
}

/// Decides how a run on these words ends, which name neither `live` nor `bench`: what it keeps, and what it has to
/// write. Files are read, and nothing is written. All memory of a run is taken here.
pub fn decide<F: Files>(alloc: Global, words: &[String], files: &mut F) -> Ending
    requires live { command_named (map string_bytes words.now) ≢ Some CommandName.Live }
    requires bench { command_named (map string_bytes words.now) ≢ Some CommandName.Bench }
    ensures ending { IsEndingFor (reading F.Files files.old files.new) (requested (map string_bytes words.now)) result }
    ensures same { F.holds files.new ≡ F.holds files.old }
    ensures writes { F.write_count files.new ≡ F.write_count files.old }
{
    match read_words(alloc, words) {
        Ok(command) => decide_command(alloc, command, files),
        Err(Memory) => status_ending(alloc, Status::WantOfMemory),
    }
}

/// Decides how a run on any words ends: what it keeps, and what it has to write. Files are read, and nothing is
/// written. All memory of a run is taken here. If the words ask for it, the sessions of a script, or those of a large
/// input, run in threads of their own.
pub fn decide_with<R: Threads + Wait + Sync, F: Files, P: Pace + Sync>(
    rt: &R,
    alloc: Global,
    words: &[String],
    files: &mut F,
    pace: &P,
) -> Ending
    ensures ending { IsEndingFor (reading F.Files files.old files.new) (requested (map string_bytes words.now)) result }
    ensures same { F.holds files.new ≡ F.holds files.old }
    ensures writes { F.write_count files.new ≡ F.write_count files.old }
{
    match read_words(alloc, words) {
        Ok(Command::Live(words)) => live(rt, alloc, files, words, pace),
        Ok(Command::Bench(words)) => bench(rt, alloc, &*files, words, pace),
        Ok(other) => decide_command(alloc, other, files),
        Err(Memory) => status_ending(alloc, Status::WantOfMemory),
    }
}
