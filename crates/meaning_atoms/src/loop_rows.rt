//! The rows of a loop clause.

ghost use Rattle.std.specs.Prelude.{◌≡◌, ◌↔◌, IfOk, IsTrue};
ghost use Rattle.meaning_atoms.specs.AbaAxioms.{AtomsRise, IsLoop, IsLoopAtom, IsLoopPair, IsLoopRow, RulesRise};

use lists::{Items, Memory};
use semantics::is_argument;
use std::alloc::Global;

/// An atom of a loop, and a pair for each rule that heads it: the rule's number, and an atom of its body that is in the
/// loop, or 0 where the clause says that some atom of the body is missing in the closure.
#[derive(Drop, PartialEq, Eq)]
pub struct LoopRow {
    pub atom: u32,
    pub pairs: Items<(u32, u32)>,
}

/// The same rows again.
pub(crate) fn copy_rows(alloc: Global, rows: &[LoopRow]) -> Result<Items<LoopRow>, Memory>
    ensures { IfOk result (λ copy. copy ≡ rows.now) }
{
    let mut copy = Items::new(alloc);
    for row in rows {
        copy.push(copy_row(alloc, row)?)?;
    }
    Ok(copy)
}

fn copy_row(alloc: Global, row: &LoopRow) -> Result<LoopRow, Memory>
    ensures { IfOk result (λ copy. copy ≡ row.now) }
{
    Ok(LoopRow {
        atom: row.atom,
        pairs: Items::from_vec(Vec::from_slice(alloc, row.pairs.as_slice())?),
    })
}

/// Whether these are the rows of a loop to which the atom belongs. It takes time logarithmic in the rows for each pair.
pub(crate) fn is_loop(x: u32, rows: &[LoopRow]) -> bool
    ensures { IsTrue result ↔ IsLoop x rows.now }
{
    if !atoms_rise(rows) {
        return false;
    }
    has_atom(rows, x) && rows.iter().all(|row| is_loop_row(rows, row))
}

/// Whether the atom of each row is below that of the next.
fn atoms_rise(rows: &[LoopRow]) -> bool
    ensures { IsTrue result ↔ AtomsRise rows.now }
{
    for index in 1..rows.len() {
        if rows[index].atom <= rows[index - 1].atom {
            return false;
        }
    }
    true
}

/// Whether some row is the atom's.
fn has_atom(rows: &[LoopRow], x: u32) -> bool
    requires { AtomsRise rows.now }
    ensures { IsTrue result ↔ IsLoopAtom rows.now x }
{
    let index = rows.partition_point(|row| row.atom < x);
    match rows.get(index) {
        Some(row) => row.atom == x,
        None => false,
    }
}

/// Whether a row has the form of one among the rows.
fn is_loop_row(rows: &[LoopRow], row: &LoopRow) -> bool
    requires { AtomsRise rows.now }
    ensures { IsTrue result ↔ IsLoopRow rows.now row.now }
{
    let pairs = row.pairs.as_slice();
    if !is_argument(row.atom) || !rules_rise(pairs) {
        return false;
    }
    pairs.iter().all(|pair| is_loop_pair(rows, *pair))
}

/// Whether the rule of each pair is below that of the next.
fn rules_rise(pairs: &[(u32, u32)]) -> bool
    ensures { IsTrue result ↔ RulesRise pairs.now }
{
    for index in 1..pairs.len() {
        if pairs[index].0 <= pairs[index - 1].0 {
            return false;
        }
    }
    true
}

/// Whether a pair is a rule's number with 0 or an atom of the rows.
fn is_loop_pair(rows: &[LoopRow], pair: (u32, u32)) -> bool
    requires { AtomsRise rows.now }
    ensures { IsTrue result ↔ IsLoopPair rows.now pair }
{
    is_argument(pair.0) && (pair.1 == 0 || has_atom(rows, pair.1))
}
