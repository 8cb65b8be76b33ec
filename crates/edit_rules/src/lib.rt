//! Frameworks of both kinds as values, which queries fit them, and how edits change them.
#![tactic(auto)]

pub mod aba_edit_laws;
pub mod aba_edits;
mod checks;
pub mod edit;
pub mod edits;
pub mod effect;
pub mod framework;
pub mod laws;
pub mod makes;
pub mod numbers;
pub mod query_fault;

pub use aba_edit_laws::{aba_edits_keep_form, aba_effects_determine, numbers_are_given_once};
pub use aba_edits::apply_aba;
pub use edit::{Edit, MAX_GROUP};
pub use edits::{apply, check_ends};
pub use effect::{EditFault, Effect};
pub use framework::Framework;
pub use makes::copy_aba;
pub use numbers::numbers_but;
pub use query_fault::{QueryFault, query_fits};
