//! Tests of what no clause says in the crates of lists, frameworks and certificates. What a run of the program shows is a
//! row of `argue_rows`.
#![tactic(auto)]

#[cfg(test)]
mod tests;
