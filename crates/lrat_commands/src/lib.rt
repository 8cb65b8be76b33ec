//! What the commands on refutations as text do: `lrat`, the check of a CNF with its refutation, and `export`, the texts of
//! a refutation of a certificate. Their rows of the table of commands stand above (`argue_program`).
#![tactic(auto)]

pub mod exporting;
pub mod verifying;

pub use exporting::{Exporting, export_files, exported_line, exported_list, exporting_of};
pub use verifying::verify_files;
