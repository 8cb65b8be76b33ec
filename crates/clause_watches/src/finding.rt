//! The look for another literal to watch.

ghost use Rattle.std.specs.Prelude.{◌≡◌, ◌≤◌, length};
ghost use Rattle.clause_watches.specs.Picks.{FindsWatch};

use plain_lits::{PackedLit, Trail, Value};

/// A literal of a clause, and about where it was found: a later look may begin there. What is told of the index is
/// advice.
#[derive(Clone, Copy)]
pub struct NewWatch {
    pub lit: PackedLit,
    pub at: usize,
}

/// A literal of a part of a clause that isn't false and isn't the other watched one.
fn find_in(trail: &Trail, part: &[PackedLit], other: usize) -> Option<NewWatch>
    ensures { FindsWatch trail.now.lits part.now other result }
{
    for at in 0..part.len() {
        let lit = part[at];
        if lit.code() != other {
            match trail.value(lit.lit()) {
                Value::False => {}
                _ => return Some(NewWatch { lit, at }),
            }
        }
    }
    None
}

/// A literal of a clause that isn't false and isn't the other watched one. The look begins at an index, and ends
/// before it.
pub(crate) fn find_around(
    trail: &Trail,
    clause: &[PackedLit],
    begin: usize,
    other: usize,
) -> Option<NewWatch>
    requires { begin ≤ length clause.now }
    ensures { FindsWatch trail.now.lits clause.now other result }
{
    match find_in(trail, &clause[begin..], other) {
        Some(found) => Some(NewWatch {
            lit: found.lit,
            at: begin.saturating_add(found.at),
        }),
        None => find_in(trail, &clause[..begin], other),
    }
}
