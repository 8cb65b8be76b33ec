//! The words after the program's name: none, `--problems`, the name of a command (`check`, `live`, `bench`, `names`,
//! `af`, `lrat` or `export`) and its options, or the options of a query, in any order, as clap takes them.
#![tactic(auto)]

mod options;
pub mod words;

pub use words::{
    AfWords, BenchWords, CheckWords, Command, CommandName, ExportWords, LiveWords, LratWords,
    NamesWords, SolveWords, read_words,
};
