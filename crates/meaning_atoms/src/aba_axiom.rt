//! The names of the clauses that always hold of assumption-based frameworks.

ghost use Rattle.std.specs.Prelude.{◌≡◌, ◌↔◌, IfOk, IsTrue};
ghost use Rattle.meaning_atoms.specs.AbaAxioms.{IsAbaAxiom};
ghost use Rattle.meaning_atoms.specs.AxiomText.{aba_name};

use crate::atom::{Closure, is_atom_or_none, is_position};
use crate::axiom::is_stretch;
use crate::loop_rows::{LoopRow, copy_rows, is_loop};
use lists::{Items, Memory};
use semantics::is_argument;
use std::alloc::Global;

/// The name of an axiom of assumption-based frameworks with its arguments, in the order of the table of axioms. A value
/// whose arguments are out of the bounds of its row is no axiom name.
#[derive(PartialEq, Eq)]
pub enum AbaAxiom {
    B1(u32),
    B2(u32),
    B3(u32),
    B4(Closure),
    B5(Closure, u32, u32),
    B6(Closure, u32, u32),
    B7(Closure, u32, u32, u32),
    B8(Closure, u32, u32),
    /// The parts 1 and 2 of the row, which speak of a closure.
    B9(Closure, u32),
    /// The part 3 of the row, which speaks of a contrary.
    B9Con(u32, u32),
    B10(Closure, u32, u32, u32),
    B11(Closure, u32, u32),
    B12(u32, u32),
    B13(u32, u32),
    B14(u32),
    B15(u32),
    B16(u32),
    /// The clause of a loop, which says that an atom of the rows is not in the closure.
    B17 {
        closure: Closure,
        x: u32,
        rows: Items<LoopRow>,
    },
    B18(Closure, u32, u32, u32),
    B19(Closure, u32, u32),
}

// By hand, so that a drop is one call (docs/PROVING.md).
impl Drop for AbaAxiom {
    fn drop(self) {
        match self {
            AbaAxiom::B1(_)
            | AbaAxiom::B2(_)
            | AbaAxiom::B3(_)
            | AbaAxiom::B4(_)
            | AbaAxiom::B5(_, _, _)
            | AbaAxiom::B6(_, _, _)
            | AbaAxiom::B7(_, _, _, _)
            | AbaAxiom::B8(_, _, _)
            | AbaAxiom::B9(_, _)
            | AbaAxiom::B9Con(_, _)
            | AbaAxiom::B10(_, _, _, _)
            | AbaAxiom::B11(_, _, _)
            | AbaAxiom::B12(_, _)
            | AbaAxiom::B13(_, _)
            | AbaAxiom::B14(_)
            | AbaAxiom::B15(_)
            | AbaAxiom::B16(_)
            | AbaAxiom::B18(_, _, _, _)
            | AbaAxiom::B19(_, _, _)
            | AbaAxiom::B17 {
                closure: _,
                x: _,
                rows: _,
            } => {}
        }
    }
}

impl AbaAxiom {
    /// Whether the arguments fit the name's row: assumptions, heads, body atoms, atoms that rules head, and rules from 1
    /// to `semantics::MAX_ATOM` or `MAX_RULE`, contraries from 0, a position to begin at from 1 to `END`, a position to
    /// end at before `END` and not before its beginning, 1 to 3 for `B16`, and for `B17` the rows of a loop to which
    /// the atom belongs.
    pub fn is_name(&self) -> bool
        ensures { IsTrue result ↔ IsAbaAxiom self.now }
    {
        match self {
            AbaAxiom::B1(a)
            | AbaAxiom::B2(a)
            | AbaAxiom::B3(a)
            | AbaAxiom::B9(_, a)
            | AbaAxiom::B14(a)
            | AbaAxiom::B15(a) => is_argument(*a),
            AbaAxiom::B9Con(a, c) | AbaAxiom::B12(a, c) | AbaAxiom::B13(a, c) => is_argument(*a)
                && is_atom_or_none(*c),
            AbaAxiom::B4(_) => true,
            AbaAxiom::B5(_, r, x) | AbaAxiom::B6(_, r, x) => is_argument(*r) && is_argument(*x),
            AbaAxiom::B7(_, a, i, j) | AbaAxiom::B10(_, a, i, j) | AbaAxiom::B18(_, a, i, j) => {
                is_stretch(*a, *i, *j)
            }
            AbaAxiom::B8(_, a, i) | AbaAxiom::B11(_, a, i) | AbaAxiom::B19(_, a, i) => is_argument(
                *a,
            ) && is_position(*i),
            AbaAxiom::B16(part) => 1 <= *part && *part <= 3,
            AbaAxiom::B17 { x, rows, .. } => is_loop(*x, rows.as_slice()),
        }
    }

    /// The name before the arguments in the axiom's text.
    pub fn name(&self) -> &'static str
        ensures { result.now ≡ aba_name self.now }
    {
        match self {
            AbaAxiom::B1(_) => "B1",
            AbaAxiom::B2(_) => "B2",
            AbaAxiom::B3(_) => "B3",
            AbaAxiom::B4(_) => "B4",
            AbaAxiom::B5(..) => "B5",
            AbaAxiom::B6(..) => "B6",
            AbaAxiom::B7(..) => "B7",
            AbaAxiom::B8(..) => "B8",
            AbaAxiom::B9(..) | AbaAxiom::B9Con(..) => "B9",
            AbaAxiom::B10(..) => "B10",
            AbaAxiom::B11(..) => "B11",
            AbaAxiom::B12(..) => "B12",
            AbaAxiom::B13(..) => "B13",
            AbaAxiom::B14(_) => "B14",
            AbaAxiom::B15(_) => "B15",
            AbaAxiom::B16(_) => "B16",
            AbaAxiom::B17 { .. } => "B17",
            AbaAxiom::B18(..) => "B18",
            AbaAxiom::B19(..) => "B19",
        }
    }

    /// The same name again.
    pub fn copy(&self, alloc: Global) -> Result<AbaAxiom, Memory>
        ensures { IfOk result (λ copy. copy ≡ self.now) }
    {
        Ok(match self {
            AbaAxiom::B1(a) => AbaAxiom::B1(*a),
            AbaAxiom::B2(a) => AbaAxiom::B2(*a),
            AbaAxiom::B3(a) => AbaAxiom::B3(*a),
            AbaAxiom::B4(k) => AbaAxiom::B4(*k),
            AbaAxiom::B5(k, r, h) => AbaAxiom::B5(*k, *r, *h),
            AbaAxiom::B6(k, r, x) => AbaAxiom::B6(*k, *r, *x),
            AbaAxiom::B7(k, r, i, j) => AbaAxiom::B7(*k, *r, *i, *j),
            AbaAxiom::B8(k, r, i) => AbaAxiom::B8(*k, *r, *i),
            AbaAxiom::B9(k, x) => AbaAxiom::B9(*k, *x),
            AbaAxiom::B9Con(a, c) => AbaAxiom::B9Con(*a, *c),
            AbaAxiom::B10(k, x, i, j) => AbaAxiom::B10(*k, *x, *i, *j),
            AbaAxiom::B11(k, x, i) => AbaAxiom::B11(*k, *x, *i),
            AbaAxiom::B12(a, c) => AbaAxiom::B12(*a, *c),
            AbaAxiom::B13(a, c) => AbaAxiom::B13(*a, *c),
            AbaAxiom::B14(a) => AbaAxiom::B14(*a),
            AbaAxiom::B15(a) => AbaAxiom::B15(*a),
            AbaAxiom::B16(part) => AbaAxiom::B16(*part),
            AbaAxiom::B17 { closure, x, rows } => AbaAxiom::B17 {
                closure: *closure,
                x: *x,
                rows: copy_rows(alloc, rows.as_slice())?,
            },
            AbaAxiom::B18(k, a, i, j) => AbaAxiom::B18(*k, *a, *i, *j),
            AbaAxiom::B19(k, a, i) => AbaAxiom::B19(*k, *a, *i),
        })
    }
}
