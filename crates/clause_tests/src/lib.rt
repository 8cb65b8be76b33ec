//! Tests of what no clause says in the crates of clauses and of the search for a model.
#![tactic(auto)]

#[cfg(test)]
mod tests;
