//! Tests of what no clause says of files and sinks, and of whole runs over files that no row can hold.
#![tactic(auto)]

#[cfg(test)]
mod tests;
