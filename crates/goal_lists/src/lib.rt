//! Goals and side clauses about sets, as lists of literals, for the loops over an oracle.
#![tactic(auto)]

mod goals;
mod literal_lists;
mod search;

pub use goals::{Wanted, goals_for};
pub use literal_lists::{
    affirmed, attacked, differs, outside, push_in, push_out, push_ranged, wider,
};
pub use search::{search_beside, search_for, search_query};
