//! The name of a loop clause.

ghost use Rattle.std.specs.Prelude.{◌≡◌, ◌≤◌, IfOk, map};
ghost use Rattle.meaning_atoms.specs.AbaAxioms.{IsAbaAxiom, IsLoop};
ghost use Rattle.meaning_atoms.specs.Worlds.{IsValid};
ghost use Rattle.meaning_atoms.specs.declared.aba_axiom.AbaAxiom.TheVariants.{B17};
ghost use Rattle.aba_axioms.specs.AbaTable.{aba_clause};
ghost use Rattle.loop_clauses.specs.LoopNames.{closure_numbered, loop_row, loop_rows};

use aba_notions::{Row, Unfounded};
use lists::{Items, Memory};
use meaning_atoms::{AbaAxiom, Closure, LoopRow};
use std::alloc::Global;

/// The name of the loop clause which says of an unfounded atom that it is not in the closure: that of the set for `k` 1,
/// that of the assumptions which the set does not attack for `k` 2. The rows have to be those of a loop, which what
/// `AbaPlain::unfounded` finds among a framework's atoms always is
/// ([`unfounded_is_loop`](crate::laws::unfounded_is_loop)). `Memory` says that an allocation was refused.
pub fn loop_axiom(alloc: Global, k: u8, found: &Unfounded, x: u32) -> Result<AbaAxiom, Memory>
    requires low { 1 ≤ k }
    requires high { k ≤ 2 }
    requires rows { IsLoop x (loop_rows found.now.rows) }
    ensures name { IfOk result (λ name. name ≡ B17 (closure_numbered k) x (loop_rows found.now.rows)) }
    ensures fits { IfOk result IsAbaAxiom }
    ensures valid { IfOk result (λ name. IsValid (aba_clause name)) }
{
    let closure = closure_of_number(k);
    let rows = copy_rows(alloc, found.rows.as_slice())?;
    Ok(AbaAxiom::B17 { closure, x, rows })
}

/// The closure of a number from 1 to 2.
fn closure_of_number(k: u8) -> Closure
    requires low { 1 ≤ k }
    requires high { k ≤ 2 }
    ensures { result ≡ closure_numbered k }
{
    if k == 1 { Closure::Own } else { Closure::Rest }
}

/// The same rows, as those of a clause.
fn copy_rows(alloc: Global, rows: &[Row]) -> Result<Items<LoopRow>, Memory>
    ensures { IfOk result (λ copy. copy ≡ loop_rows rows.now) }
{
    let mut copy = Items::new(alloc);
    for row in rows {
        copy.push(copy_row(alloc, row)?)?;
    }
    Ok(copy)
}

fn copy_row(alloc: Global, row: &Row) -> Result<LoopRow, Memory>
    ensures { IfOk result (λ copy. copy ≡ loop_row row.now) }
{
    Ok(LoopRow {
        atom: row.atom,
        pairs: Items::from_vec(Vec::from_slice(alloc, row.pairs.as_slice())?),
    })
}
