//! The loop clause.

ghost use Rattle.std.specs.Prelude.{◌≡◌, ℕ, ◌≤◌, ◌<◌, ◌++◌, ◌∷◌, Contains, map, IfOk, OnOk};
ghost use Rattle.std.specs.List.{flat_map};
ghost use Rattle.meaning_atoms.specs.Literals.{affirmed};
ghost use Rattle.meaning_atoms.specs.AbaAxioms.{IsLoop};
ghost use Rattle.meaning_atoms.specs.declared.loop_rows.LoopRow.{LoopRow as ALoopRow};
ghost use Rattle.aba_axioms.specs.AbaTable.{filled_gap, given_atom as given_in, loop_clause as loop_literals};
ghost use Rattle.aba_axioms.specs.AbaTable.{other_heads, pair_literal, row_literals};

use crate::clause::given_atom;
use lists::{Items, Memory};
use meaning_atoms::Atom::{Body, Der, HGap, Miss};
use meaning_atoms::{AtomLit, Closure, END, LoopRow, no, yes};
use std::alloc::Global;

/// B17: the atom is not in the closure; or some atom of the rows is given; or some atom of the rows is headed by a rule
/// that its pairs don't block.
pub(crate) fn loop_clause(
    alloc: Global,
    closure: Closure,
    x: u32,
    rows: &[LoopRow],
) -> Result<Items<AtomLit>, Memory>
    requires { IsLoop x rows.now }
    ensures { IfOk result (λ clause. clause ≡ loop_literals closure x rows.now) }
{
    let mut clause = Items::new(alloc);
    clause.push(no(Der(closure, x)))?;
    push_given(&mut clause, closure, rows)?;
    push_rows(&mut clause, closure, rows)?;
    Ok(clause)
}

/// Adds for each row that its atom is given.
fn push_given(clause: &mut Items<AtomLit>, closure: Closure, rows: &[LoopRow]) -> Result<(), Memory>
    ensures { OnOk result (clause.new ≡ clause.old
        ++ map (λ row. affirmed (given_in closure row.atom)) rows.now) }
{
    for row in rows {
        clause.push(yes(given_atom(closure, row.atom)))?;
    }
    Ok(())
}

/// Adds the literals of each row.
fn push_rows(clause: &mut Items<AtomLit>, closure: Closure, rows: &[LoopRow]) -> Result<(), Memory>
    requires { (row : ALoopRow) → Contains rows.now row → (p : ℕ × ℕ) → Contains row.pairs p → p.0 < END }
    ensures { OnOk result (clause.new ≡ clause.old ++ flat_map (row_literals closure) rows.now) }
{
    for row in rows {
        push_heads(clause, row.atom, row.pairs.as_slice())?;
        push_pairs(clause, closure, row.pairs.as_slice())?;
    }
    Ok(())
}

/// Adds that some rule heads the atom which is none of these.
fn push_heads(clause: &mut Items<AtomLit>, atom: u32, pairs: &[(u32, u32)]) -> Result<(), Memory>
    requires { (p : ℕ × ℕ) → Contains pairs.now p → p.0 < END }
    ensures { OnOk result (clause.new ≡ clause.old ++ other_heads atom 1 (map (λ p. p.0) pairs.now)) }
{
    let mut begin = 1;
    for pair in pairs {
        push_gap(clause, atom, begin, pair.0)?;
        begin = pair.0 + 1;
    }
    push_gap(clause, atom, begin, END)
}

/// Adds, unless the ends are equal, that some rule heads the atom whose number is from the one to just before the other.
fn push_gap(clause: &mut Items<AtomLit>, atom: u32, begin: u32, end: u32) -> Result<(), Memory>
    ensures { OnOk result (clause.new ≡ clause.old ++ filled_gap atom begin end) }
{
    if begin != end {
        clause.push(no(HGap(atom, begin, end)))?;
    }
    Ok(())
}

/// Adds for each pair that the rule's body isn't so blocked.
fn push_pairs(
    clause: &mut Items<AtomLit>,
    closure: Closure,
    pairs: &[(u32, u32)],
) -> Result<(), Memory>
    ensures { OnOk result (clause.new ≡ clause.old ++ map (pair_literal closure) pairs.now) }
{
    for pair in pairs {
        clause.push(literal_of(closure, *pair))?;
    }
    Ok(())
}

/// That the rule has not the atom in its body, or, for 0, that the closure has its whole body.
fn literal_of(closure: Closure, pair: (u32, u32)) -> AtomLit
    ensures { result ≡ pair_literal closure pair }
{
    if pair.1 == 0 {
        return no(Miss(closure, pair.0, 1));
    }
    no(Body(pair.0, pair.1))
}
