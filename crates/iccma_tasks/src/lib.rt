//! The tasks of the solver by their names, the queries that are made of them, the kind of framework that a text has,
//! and the text of answers.
#![tactic(auto)]

pub mod answer;
pub mod fault;
pub mod kind_text;
pub mod query;
pub mod read;
pub mod task;
pub mod write;

pub use answer::Answer;
pub use fault::{AnswerCause, AnswerFault};
pub use kind_text::kind_of;
pub use query::Query;
pub use read::{read_answer, set_of};
pub use task::{Kind, Problem, Semantics, Task, TaskFault, problems};
pub use write::{answer_text, push_set, push_sets};
