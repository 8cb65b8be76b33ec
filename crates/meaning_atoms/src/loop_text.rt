//! The arguments of a loop clause's name, written and read.

ghost use Rattle.std.specs.Prelude.{◌≡◌, ℕ, List, ◌∷◌, ◌++◌, codes, length, map, IfNone, IfOk, IfSome, OnOk, Some};
ghost use Rattle.std.specs.List.{flat_map};
ghost use Rattle.std.specs.String.{string_bytes};
ghost use Rattle.std.specs.Fmt.{decimal as decimal_text};
ghost use Rattle.meaning_atoms.specs.declared.aba_axiom.AbaAxiom.{AbaAxiom as AnAxiom};
ghost use Rattle.meaning_atoms.specs.declared.axiom.AxiomName.TheVariants.{Aba};
ghost use Rattle.meaning_atoms.specs.declared.loop_rows.LoopRow.{LoopRow as ARow};
ghost use Rattle.meaning_atoms.specs.Atoms.{closure_number};
ghost use Rattle.meaning_atoms.specs.AxiomText.{IsNamed, loop_numbers, pair_numbers, row_numbers};
ghost use Rattle.meaning_atoms.specs.LoopRows.{AreRowsOf, BeginsWithPairs, BeginsWithRow};

use crate::aba_axiom::AbaAxiom;
use crate::atom::Closure;
use crate::loop_rows::LoopRow;
use lists::{Items, Memory};
use std::alloc::Global;
use std::fmt::Write;

/// Adds the arguments of a loop clause's name: the closure, the atom, how many rows there are, the atom of each row, and
/// of each row how many pairs it has, and these.
pub(crate) fn push_loop(
    text: &mut String,
    closure: Closure,
    x: u32,
    rows: &[LoopRow],
) -> Result<(), Memory>
    ensures { OnOk result (string_bytes text.new ≡ string_bytes text.old
        ++ flat_map (λ n. 32 ∷ decimal_text n) (closure_number closure ∷ (x ∷ loop_numbers rows.now))) }
{
    write!(text, " {} {x} {}", closure.number(), rows.len())?;
    push_atoms(text, rows)?;
    push_rows(text, rows)
}

// Adds the atom of each row.
fn push_atoms(text: &mut String, rows: &[LoopRow]) -> Result<(), Memory>
    ensures { OnOk result (string_bytes text.new ≡ string_bytes text.old
        ++ flat_map (λ n. 32 ∷ decimal_text n) (map (λ r. r.atom) rows.now)) }
{
    for row in rows {
        write!(text, " {}", row.atom)?;
    }
    Ok(())
}

// Adds how many pairs each row has, and these.
fn push_rows(text: &mut String, rows: &[LoopRow]) -> Result<(), Memory>
    ensures { OnOk result (string_bytes text.new ≡ string_bytes text.old
        ++ flat_map (λ n. 32 ∷ decimal_text n) (flat_map row_numbers rows.now)) }
{
    for row in rows {
        push_row(text, row)?;
    }
    Ok(())
}

fn push_row(text: &mut String, row: &LoopRow) -> Result<(), Memory>
    ensures { OnOk result (string_bytes text.new ≡ string_bytes text.old
        ++ flat_map (λ n. 32 ∷ decimal_text n) (row_numbers row.now)) }
{
    write!(text, " {}", row.pairs.len())?;
    push_pairs(text, row.pairs.as_slice())
}

fn push_pairs(text: &mut String, pairs: &[(u32, u32)]) -> Result<(), Memory>
    ensures { OnOk result (string_bytes text.new ≡ string_bytes text.old
        ++ flat_map (λ n. 32 ∷ decimal_text n) (flat_map pair_numbers pairs.now)) }
{
    for pair in pairs {
        write!(text, " {} {}", pair.0, pair.1)?;
    }
    Ok(())
}

/// The loop clause's name with these arguments, whether they fit its row or not.
pub(crate) fn loop_of(alloc: Global, arguments: &[u32]) -> Result<Option<AbaAxiom>, Memory>
    ensures named { IfOk result (λ found. IfSome found (λ which. IsNamed (codes "B17") arguments.now (Aba which))) }
    ensures read { (which : AnAxiom) → IsNamed (codes "B17") arguments.now (Aba which)
        → IfOk result (λ found. found ≡ Some which) }
{
    match arguments {
        [closure, x, numbers @ ..] => {
            let Some(closure) = Closure::of_number(*closure) else {
                return Ok(None);
            };
            let Some(rows) = loop_rows(alloc, numbers)? else {
                return Ok(None);
            };
            Ok(Some(AbaAxiom::B17 {
                closure,
                x: *x,
                rows,
            }))
        }
        _ => Ok(None),
    }
}

// The rows of which these are the numbers.
fn loop_rows(alloc: Global, numbers: &[u32]) -> Result<Option<Items<LoopRow>>, Memory>
    ensures some { IfOk result (λ found. IfSome found (λ rows. loop_numbers rows ≡ numbers.now)) }
    ensures read { (rows : List ARow) → loop_numbers rows ≡ numbers.now → IfOk result (λ found. found ≡ Some rows) }
{
    match numbers {
        [count, rest @ ..] => {
            let count = *count as usize;
            if rest.len() < count {
                return Ok(None);
            }
            let (atoms, pairs) = rest.split_at(count);
            rows_of(alloc, atoms, pairs)
        }
        _ => Ok(None),
    }
}

// The rows of these atoms with the pairs that the numbers tell.
fn rows_of(alloc: Global, atoms: &[u32], numbers: &[u32]) -> Result<Option<Items<LoopRow>>, Memory>
    ensures some { IfOk result (λ found. IfSome found (AreRowsOf atoms.now numbers.now)) }
    ensures read { (rows : List ARow) → AreRowsOf atoms.now numbers.now rows
        → IfOk result (λ found. found ≡ Some rows) }
{
    let mut rows = Items::new(alloc);
    let mut rest = numbers;
    for atom in atoms {
        let Some((pairs, later)) = first_row(alloc, rest)? else {
            return Ok(None);
        };
        rows.push(LoopRow { atom: *atom, pairs })?;
        rest = later;
    }
    if !rest.is_empty() {
        return Ok(None);
    }
    Ok(Some(rows))
}

// The pairs of the first row, and the numbers behind them.
fn first_row<'a>(
    alloc: Global,
    numbers: &'a [u32],
) -> Result<Option<(Items<(u32, u32)>, &'a [u32])>, Memory>
    ensures some { IfOk result (λ found. IfSome found (λ f. BeginsWithRow numbers.entry.now f.0 f.1.now)) }
    ensures none { IfOk result (λ found. IfNone found ((pairs : List (ℕ × ℕ)) (rest : List ℕ)
        → ¬ BeginsWithRow numbers.entry.now pairs rest)) }
{
    match numbers {
        [count, rest @ ..] => first_pairs(alloc, *count as usize, rest),
        _ => Ok(None),
    }
}

// So many pairs, and the numbers behind them.
fn first_pairs<'a>(
    alloc: Global,
    count: usize,
    numbers: &'a [u32],
) -> Result<Option<(Items<(u32, u32)>, &'a [u32])>, Memory>
    ensures some { IfOk result (λ found. IfSome found (λ f. BeginsWithPairs numbers.entry.now count f.0 f.1.now)) }
    ensures none { IfOk result (λ found. IfNone found ((pairs : List (ℕ × ℕ)) (rest : List ℕ)
        → ¬ BeginsWithPairs numbers.entry.now count pairs rest)) }
{
    let mut pairs = Items::new(alloc);
    let mut rest = numbers;
    while pairs.len() < count {
        match rest {
            [rule, atom, later @ ..] => {
                pairs.push((*rule, *atom))?;
                rest = later;
            }
            _ => return Ok(None),
        }
    }
    Ok(Some((pairs, rest)))
}
