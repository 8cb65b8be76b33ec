//! Tests of what no clause says in the crates that sessions share.
#![tactic(auto)]

#[cfg(test)]
mod tests;
