//! What a certificate is, what it has to show for an answer, when it does, and the verdict that a check tells. The laws
//! that make certificates worth checking: an answer with an accepted certificate is right, right answers agree, and
//! there is one verdict on a certificate.
#![tactic(auto)]

mod axiom;
pub mod certificate;
pub mod laws;
mod order;
mod ranges;
pub mod row;
pub mod verdict;
mod words;

pub use axiom::clause_of_axiom;
pub use certificate::{Certificate, Refutation, Step};
pub use order::{none_within, sets_rise};
pub use ranges::{FirstRanged, first_ranged, no_range_within, ranges_of, with_range};
pub use row::{Row, mode_atom};
pub use verdict::{Cause, Verdict};
pub use words::{Word, literal, push_all};
