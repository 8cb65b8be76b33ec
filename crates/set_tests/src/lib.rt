//! Tests of sets by the kind of their framework: which sets are admissible, complete, stable or grounded, and which accept
//! what is asked about. What the tests of all sets share is found once.
#![tactic(auto)]

mod attacks;
pub mod kinds;

pub use kinds::{Basis, SetTests, basis_of, grounded_accepts, member_count, uses_of};
