//! The tests, a module for each part.

mod aba_text;
mod changes;
mod definitions;
mod edits;
mod frameworks;
mod notions;
