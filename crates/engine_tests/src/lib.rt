//! Tests of the engine: what it answers, and why it has no answer, over a log that is kept from one query to the next.
#![tactic(auto)]

#[cfg(test)]
mod tests;
