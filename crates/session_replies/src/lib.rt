//! What a session of the server is told of each line of its script, and the texts of it: transcripts, histories and
//! the certificates of all answers.
#![tactic(auto)]

mod certificates;
mod edit_faults;
mod history;
pub mod reply;
mod session;

pub use certificates::certificates_text;
pub use edit_faults::{edit_fault_name, edit_fault_number};
pub use history::history_text;
pub use reply::{Body, Reply};
pub use session::{session_text, transcript_text};
