//! The program from words and bytes to bytes.
//!
//! `run` is the top call. Its contract is the headline: an answer is right on the framework that the file's bytes
//! read as, and every other way to end has its cause. It decides first and writes then: `decide_with` makes the ending,
//! and `write_ending` writes it. `decide` and `execute` are the same of words that want no threads.
#![tactic(auto)]

mod checking;
pub mod command;
pub mod decision;
pub mod ended;
pub mod ending;
mod exporting;
mod large;
mod naming;
mod numbering;
pub mod process;
mod scripts;
mod solving;
mod verifying;
pub mod writing;

pub use argue_commands::{
    FaultCause, KeptSession, Limit, Refusal, Rejection, Status, Text, Written,
};
pub use command::{execute, run};
pub use decision::{decide, decide_with};
pub use ended::{Ended, Transcript};
pub use ending::Ending;
pub use process::run_process;
pub use writing::write_ending;
