//! Runs of scripts: a script's sessions on one framework, each in a thread of its own over one history of edits; and
//! large inputs drawn from a seed for trials of the server, their runs, what is counted of them, and the summary.
#![tactic(auto)]

mod counts;
mod draws;
mod framework;
mod input;
pub mod input_laws;
pub mod laws;
mod rejected;
mod replay;
mod run;
mod runner;
mod script;
mod script_run;
mod sorted;
mod tally;
mod transcript;
pub mod walk_laws;

pub use counts::Counts;
pub use draws::{INCREMENT, MULTIPLIER};
pub use input::{MAX_ARGUMENTS, bench_input};
pub use run::{BENCH_BUDGET, BenchRun, run_bench};
pub use script::{BENCH_SESSIONS, MAX_ASKED};
pub use script_run::{MAX_HISTORY, run_script};
pub use transcript::ScriptTranscript;
