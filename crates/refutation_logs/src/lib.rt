//! Refutations of certificates as logs over numbered variables, which `lrat_writing` writes as a CNF and LRAT lines.
#![tactic(auto)]

mod certificate;
mod counts;
mod numbering;
mod steps;
pub mod texts;
mod used;

pub use certificate::export_refutation;
pub use texts::Exported;
