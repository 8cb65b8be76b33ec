//! What the commands without sessions do: the queries of words, the inputs of a run, an answer and a check, the texts of
//! all statuses, and the files that are written. What a run keeps and its row of the table stand above
//! (`argue_program`), since the sessions of scripts do.
#![tactic(auto)]

pub mod checking;
pub mod ended;
pub mod input;
pub mod opening;
pub mod query;
pub mod replacing;
pub mod solving;
pub mod texts;

pub use ended::{FaultCause, KeptSession, Limit, Refusal, Rejection, Status};
pub use oracle_core::{AnswerStop, Answered, Engine};
pub use replacing::Written;
pub use texts::Text;
