//! What is counted of a run, and its text.

ghost use Rattle.std.specs.Prelude.{◌≡◌, IfOk};
ghost use Rattle.bench_runs.specs.Summaries.{counts_text};

use crate::BENCH_SESSIONS;
use lists::{Bytes, Memory};
use std::alloc::Global;

/// What is counted of the run of a large input.
#[derive(Clone, Copy)]
pub struct Counts {
    /// The arguments of the framework.
    pub arguments: usize,
    /// Its attacks.
    pub attacks: usize,
    /// The entries of the history.
    pub edits: usize,
    /// The replies to queries.
    pub queries: usize,
    /// The answers whose certificate is rejected on the framework at their front.
    pub rejected: usize,
    /// The members of the last framework's grounded set.
    pub grounded: usize,
}

/// The summary of a run: a line for each count, and one for the number of sessions. Every line ends with LF.
pub(crate) fn summary_text(alloc: Global, counts: &Counts) -> Result<Bytes, Memory>
    ensures { IfOk result (λ text. text ≡ counts_text counts.now) }
{
    let Counts {
        arguments,
        attacks,
        edits,
        queries,
        rejected,
        grounded,
    } = *counts;
    let sessions = BENCH_SESSIONS;
    let text = format!(in alloc;
        "arguments {arguments}\nattacks {attacks}\nsessions {sessions}\nedits {edits}\n\
        queries {queries}\nrejected {rejected}\ngrounded {grounded}\n"
    )?;
    Ok(Bytes::from_vec(text.into_bytes()))
}
