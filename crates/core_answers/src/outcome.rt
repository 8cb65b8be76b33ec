//! What comes of a query.

use edit_rules::QueryFault;
use iccma_tasks::Answer;
use lists::Items;
use set_lists::NumSet;

/// How an answer of the core ends.
pub enum Outcome {
    /// The query doesn't fit the framework.
    Refused(QueryFault),
    /// An answer, with the sets of its certificate.
    Definite(Answer, Items<NumSet>),
    /// The budget was spent, at this number of units.
    Unknown(u64),
    /// More extensions than may be listed.
    TooMany(Items<NumSet>),
    /// The log was full.
    LogFull,
}

impl Drop for Outcome {
    fn drop(self) {
        match self {
            Outcome::Refused(_)
            | Outcome::Definite(_, _)
            | Outcome::Unknown(_)
            | Outcome::TooMany(_)
            | Outcome::LogFull => {}
        }
    }
}
