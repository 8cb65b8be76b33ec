//! What the search asks of an oracle, how a framework is put into clauses, and what sessions hand each other: entries,
//! which are clauses that are true of every framework, and the trades through which they pass.
#![tactic(auto)]

pub mod encoding;
pub mod entry;
pub mod face;
pub mod laws;
pub mod oracle;
pub mod step_source;
pub mod trade;

pub use encoding::Encoding;
pub use entry::{Entry, EntryName, EntryOrigin, HintName};
pub use face::{AskId, Found, Pending};
pub use oracle::Oracle;
pub use plain_lits::{Budget, Halt, StepId};
pub use step_source::StepSource;
pub use trade::{ClauseTrade, NoTrade};
