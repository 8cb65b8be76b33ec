//! The run of a large input.

ghost use Rattle.std.specs.Prelude.{◌≡◌, ◌≤◌, IfOk};
ghost use Rattle.semantics.specs.Frameworks.{af};
ghost use Rattle.bench_runs.specs.Transcripts.{IsTranscriptOf};
ghost use Rattle.bench_runs.specs.Generator.{bench_framework};
ghost use Rattle.bench_runs.specs.Scripts.{bench_script};
ghost use Rattle.bench_runs.specs.declared.input.TheConstants.{MAX_ARGUMENTS};
ghost use Rattle.bench_runs.specs.Runs.{AreCounts, IsBenchRun};
ghost use Rattle.bench_runs.specs.Summaries.{bench_counts, counts_text, summary as summary_of};

use crate::counts::{Counts, summary_text};
use crate::rejected::rejected_in;
use crate::sorted::SortedLines;
use crate::tally::{last_grounded, queries_of, sizes};
use crate::{ScriptTranscript, bench_input, run_script};
use argue_outside::Pace;
use lists::{Bytes, Memory};
use script_text::Script;
use std::alloc::Global;
use std::sync::Wait;
use std::thread::Threads;

/// How many units each query of a large input has.
pub const BENCH_BUDGET: u64 = 1_000;

/// What the run of a large input comes to.
#[derive(Drop)]
pub struct BenchRun {
    /// What its sessions did and were told.
    pub transcript: ScriptTranscript,
    /// What is counted of that.
    pub counts: Counts,
    /// The counts as text.
    pub summary: Bytes,
}

/// Counts what stands in a transcript. The certificates of all answers are checked for it, each on the framework behind
/// the entries up to its reply's front.
fn count(
    alloc: Global,
    n: u32,
    seed: u32,
    script: &Script,
    transcript: &ScriptTranscript,
) -> Result<Counts, Memory>
    requires some { 1 ≤ n }
    requires few { n ≤ MAX_ARGUMENTS }
    requires script { script.now ≡ bench_script n seed }
    requires transcript { IsTranscriptOf (af (bench_framework n seed)) (bench_script n seed) BENCH_BUDGET
        transcript.now }
    ensures { IfOk result (AreCounts (bench_framework n seed) (bench_script n seed) transcript.now) }
{
    let opening = &transcript.history.opening;
    let history = transcript.history.entries.as_slice();
    let replies = transcript.replies.as_slice();
    let lines = SortedLines::new(alloc, script.lines.as_slice())?;
    let rejected = rejected_in(alloc, opening, history, &lines, replies)?;
    let grounded = last_grounded(alloc, opening, history)?;
    let (arguments, attacks) = sizes(opening);
    Ok(Counts {
        arguments,
        attacks,
        edits: history.len(),
        queries: queries_of(replies),
        rejected,
        grounded,
    })
}

/// What is counted of a transcript, and its text.
fn summarized(
    alloc: Global,
    n: u32,
    seed: u32,
    script: &Script,
    transcript: &ScriptTranscript,
) -> Result<(Counts, Bytes), Memory>
    requires some { 1 ≤ n }
    requires few { n ≤ MAX_ARGUMENTS }
    requires script { script.now ≡ bench_script n seed }
    requires transcript { IsTranscriptOf (af (bench_framework n seed)) (bench_script n seed) BENCH_BUDGET
        transcript.now }
    ensures counts { IfOk result
        (λ told. AreCounts (bench_framework n seed) (bench_script n seed) transcript.now told.0) }
    ensures text { IfOk result (λ told. told.1 ≡ counts_text told.0) }
{
    let counts = count(alloc, n, seed, script, transcript)?;
    let text = summary_text(alloc, &counts)?;
    Ok((counts, text))
}

/// A transcript with what is counted of it.
fn with_counts(
    alloc: Global,
    n: u32,
    seed: u32,
    script: &Script,
    transcript: ScriptTranscript,
) -> Result<BenchRun, Memory>
    requires some { 1 ≤ n }
    requires few { n ≤ MAX_ARGUMENTS }
    requires script { script.now ≡ bench_script n seed }
    requires transcript { IsTranscriptOf (af (bench_framework n seed)) (bench_script n seed) BENCH_BUDGET transcript }
    ensures { IfOk result (IsBenchRun n seed) }
{
    let (counts, summary) = summarized(alloc, n, seed, script, &transcript)?;
    Ok(BenchRun {
        transcript,
        counts,
        summary,
    })
}

/// Runs the sessions of a large input, which work at the same time, each query with [`BENCH_BUDGET`] units; checks the
/// certificates of all answers, each on the framework behind the entries up to its reply's front; and counts. The
/// transcript is that of the script of n and the seed on the framework that they draw, and the counts are those of the
/// transcript. Whatever the order of the turns, no edit is refused, no certificate is rejected, and the last framework
/// is the first one, so that the summary is that of n and the seed.
pub fn run_bench<R: Threads + Wait + Sync, P: Pace + Sync>(
    rt: &R,
    alloc: Global,
    n: u32,
    seed: u32,
    pace: &P,
) -> Result<BenchRun, Memory>
    requires some { 1 ≤ n }
    requires few { n ≤ MAX_ARGUMENTS }
    ensures run { IfOk result (IsBenchRun n seed) }
    ensures counts { IfOk result (λ run. run.counts ≡ bench_counts n seed) }
    ensures summary { IfOk result (λ run. run.summary ≡ summary_of n seed) }
{
    let (framework, script) = bench_input(alloc, n, seed)?;
    let transcript = run_script(rt, alloc, framework, &script, BENCH_BUDGET, pace)?;
    with_counts(alloc, n, seed, &script, transcript)
}
