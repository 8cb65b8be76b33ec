//! The top call.

ghost use Rattle.std.specs.Prelude.{◌≢◌, Some, map};
ghost use Rattle.std.specs.String.{string_bytes};
ghost use Rattle.argue_words.specs.Words.{command_named};
ghost use Rattle.argue_program.specs.Promises.{Promises};
ghost use Rattle.argue_program.specs.Runs.{IsRunOf};
ghost use Rattle.argue_program.specs.Seen.{seen};

use crate::decision::{decide, decide_with};
use crate::ended::Ended;
use crate::writing::write_ending;
use argue_outside::{Files, Pace, Sink};
use argue_words::CommandName;
use std::alloc::Global;
use std::sync::Wait;
use std::thread::Threads;

/// Runs the program on the words after its name, the first of which is neither `live` nor `bench`: decides the ending,
/// and writes it. It waits for nobody, so it is proved to return.
pub fn execute<F: Files, O: Sink>(
    alloc: Global,
    words: &[String],
    files: &mut F,
    out: &mut O,
) -> Ended
    requires live { command_named (map string_bytes words.now) ≢ Some CommandName.Live }
    requires bench { command_named (map string_bytes words.now) ≢ Some CommandName.Bench }
    // What the run does, by the row of what its words ask for.
    ensures run { IsRunOf (map string_bytes words.now)
        (seen F.Files O.Sink files.old files.new out.old out.new) result }
    // What follows, in the words of its query.
    ensures promises { Promises (map string_bytes words.now)
        (seen F.Files O.Sink files.old files.new out.old out.new) result }
{
    let ending = decide(alloc, words, files);
    write_ending(files, out, ending)
}

/// Runs the program on the words after its name, with what its sessions need beside files and output: a runtime, and a
/// gate for tests. If the words ask for a script's run or that of a large input, its sessions run in threads of their
/// own, and this returns if they do; on all other words it does what `execute` does.
pub fn run<F: Files, O: Sink, P: Pace + Sync, R: Threads + Wait + Sync>(
    rt: &R,
    alloc: Global,
    words: &[String],
    files: &mut F,
    out: &mut O,
    pace: &P,
) -> Ended
    // What the run does, by the row of what its words ask for.
    ensures run { IsRunOf (map string_bytes words.now)
        (seen F.Files O.Sink files.old files.new out.old out.new) result }
    // What follows, in the words of its query.
    ensures promises { Promises (map string_bytes words.now)
        (seen F.Files O.Sink files.old files.new out.old out.new) result }
{
    let ending = decide_with(rt, alloc, words, files, pace);
    write_ending(files, out, ending)
}
