//! Tests of sets of assumptions that cost what the rules reach from them: what a set derives, by marks and counts that
//! all go back at once, and the atoms from which a way leads to a contrary of a member.
#![tactic(auto)]

pub mod assumptions;
mod closing;
mod cone;
mod counts;
pub mod rule_uses;

pub use assumptions::SetMarks;
pub use rule_uses::RuleUses;
