//! The tests, a module for each part.

mod answers;
mod assumptions;
mod definitions;
mod engines;
mod machines;
mod oracles;
mod trades;
mod updates;
