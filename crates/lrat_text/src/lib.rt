//! Refutations that come as text: a formula as DIMACS CNF, a refutation of it as LRAT, and the check of the one with the
//! other.
//!
//! A CNF has a header `p cnf V C`, and behind it numbers, each with `-` before it or not, where a number 0 ends a clause
//! and line ends are blanks. An LRAT line is `id literals 0 hints 0`; a line whose second field is `d` is skipped, since
//! a check that keeps all clauses stays sound. In both, space, tab and CR are blanks between fields, and a line without
//! fields, or whose first field begins with `c`, is skipped; lines are numbered from 1, skipped ones included.
#![tactic(auto)]

mod cnf;
mod fault;
mod ids;
mod laws;
mod lrat;
mod lrat_line;
mod plain;
mod signed;
mod skips;
mod spelled;
mod steps;
mod table;
mod verdict;

pub use cnf::{Cnf, MAX_VARIABLE, read_cnf};
pub use fault::{CnfCause, CnfFault, LratCause, LratFault};
pub use laws::{one_reading, one_verdict, verified_is_unsatisfiable};
pub use lrat::check_lrat;
pub use verdict::Verdict;
