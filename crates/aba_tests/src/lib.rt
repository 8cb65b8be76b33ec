//! Tests of what no clause says in the crates of assumption-based frameworks: texts, definitions, edits and queries.
#![tactic(auto)]

#[cfg(test)]
mod tests;
