//! The run of a large input.

ghost use Rattle.std.specs.Prelude.{◌≡◌, ◌≤◌, IfSome};
ghost use Rattle.argue_words.specs.Words.{bench_texts, benching};
ghost use Rattle.bench_runs.specs.declared.input.TheConstants.{MAX_ARGUMENTS};
ghost use Rattle.argue_commands.specs.Inputs.{reading};
ghost use Rattle.argue_program.specs.LargeInputs.{arguments_of, large_by};
ghost use Rattle.argue_program.specs.Rows.{EndsSummed, IsEndingFor};

use crate::ended::Transcript;
use crate::ending::{Ending, status_ending};
use argue_commands::query::number_in;
use argue_commands::{Status, Text};
use argue_outside::{Files, Pace};
use argue_words::BenchWords;
use bench_runs::{BenchRun, MAX_ARGUMENTS, run_bench};
use lists::{Items, Memory};
use std::alloc::Global;
use std::sync::Wait;
use std::thread::Threads;

/// A large input that is asked for: how many arguments it has, and the seed of its draws.
#[derive(Clone, Copy)]
pub struct LargeInput {
    pub arguments: u32,
    pub seed: u32,
}

// How many arguments a text asks for.
fn arguments_in(text: &str) -> Option<u32>
    ensures is { result ≡ arguments_of text.now }
    ensures some { IfSome result (λ n. 1 ≤ n) }
    ensures few { IfSome result (λ n. n ≤ MAX_ARGUMENTS) }
{
    let number = number_in(text)?;
    if 1 <= number && number <= MAX_ARGUMENTS {
        Some(number)
    } else {
        None
    }
}

/// The large input that words ask for. `None` where a text is no number, or a large input doesn't have so many arguments.
#[tactic(auto, unfolding(crate::specs::LargeInputs::large_by))]
fn large_of(words: &BenchWords<'_>) -> Option<LargeInput>
    ensures is { result ≡ large_by (bench_texts words.now) }
    ensures some { IfSome result (λ large. 1 ≤ large.arguments) }
    ensures few { IfSome result (λ large. large.arguments ≤ MAX_ARGUMENTS) }
{
    let arguments = arguments_in(words.arguments)?;
    let seed = number_in(words.seed)?;
    Some(LargeInput { arguments, seed })
}

/// The ending of a large input's run, which keeps what its sessions came to.
fn summary_ending(alloc: Global, run: BenchRun) -> Ending
    ensures { EndsSummed run result }
{
    let BenchRun {
        transcript,
        counts: _,
        summary,
    } = run;
    Ending {
        status: Status::Done,
        kept: Transcript {
            session: None,
            script: Some(transcript),
        },
        text: Text::Answer(summary),
        files: Items::new(alloc),
    }
}

/// The ending of words that ask for a large input's run. No file is read: they are here for the contract alone.
pub(crate) fn bench<R: Threads + Wait + Sync, F: Files, P: Pace + Sync>(
    rt: &R,
    alloc: Global,
    files: &F,
    words: BenchWords<'_>,
    pace: &P,
) -> Ending
    ensures { IsEndingFor (reading F.Files files.now files.now) (benching (bench_texts words.entry)) result }
{
    let Some(large) = large_of(&words) else {
        return status_ending(alloc, Status::Usage);
    };
    match run_bench(rt, alloc, large.arguments, large.seed, pace) {
        Ok(run) => summary_ending(alloc, run),
        Err(Memory) => status_ending(alloc, Status::WantOfMemory),
    }
}
