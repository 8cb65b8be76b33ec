//! The tests, a module for each part.

mod af_text;
mod atoms;
mod attacks;
mod axioms;
mod certificates;
mod comparisons;
mod definitions;
mod edits;
mod exports;
mod fields;
mod list_tests;
mod named_texts;
mod notions;
mod sets;
mod small_frameworks;
mod tasks;
