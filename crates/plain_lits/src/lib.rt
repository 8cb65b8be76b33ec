//! Literals, clauses and assignments over plain variables, numbers of log steps, and the budget of units.
#![tactic(auto)]

mod assignment;
pub mod budget;
pub mod check;
pub mod clause;
pub mod halt;
pub mod laws;
pub mod lit;
pub mod packed_lit;
pub mod rows;
pub mod step_id;
pub mod trail;
pub mod value;

pub use budget::Budget;
pub use clause::Clause;
pub use halt::Halt;
pub use lit::Lit;
pub use packed_lit::PackedLit;
pub use rows::Rows;
pub use step_id::StepId;
pub use trail::Trail;
pub use value::Value;
