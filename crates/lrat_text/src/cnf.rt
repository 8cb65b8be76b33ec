//! Reading a CNF.

ghost use Rattle.std.specs.Prelude.{◌≡◌, ℕ, ◌≤◌, ◌∷◌, [], codes, length, IfOk, IfErr, IfSome, IfNone, OnOk};
ghost use Rattle.num_text.specs.Cuts.{field_texts, lines_of};
ghost use Rattle.num_text.specs.Number.{IsNumber};
ghost use Rattle.num_text.specs.declared.limit.TheConstants.{MAX_INPUT};
ghost use Rattle.lrat_text.specs.Lines.{cnf_kept};
ghost use Rattle.lrat_text.specs.CnfText.{IsHeader, IsCnfRead, BeginWith, IsBadHeader, HeaderStands, adds, cut, LineSays};
ghost use Rattle.lrat_text.specs.CnfText.{IsFormula, ReadsFrom, no_cut};
ghost use Rattle.lrat_text.specs.Causes.{IsFirstCnfCause};

use crate::fault::{CnfCause, CnfFault};
use crate::signed::signed;
use crate::skips::next_cnf_line;
use lists::Memory;
use num_text::{Line, Lines, decimal, fields, line_count, lines};
use plain_lits::{Lit, PackedLit, Rows};
use std::alloc::Global;
use std::marker::Model;

/// The most that a CNF's header may have as its number of variables, or of clauses.
pub const MAX_VARIABLE: u32 = 2_147_483_647;

/// A CNF: variables from 1 to some number, and clauses of which each is a list of literals over them. Contracts see
/// both.
pub struct Cnf {
    vars: u32,
    clauses: Rows<PackedLit>,
}

// By hand, so that a drop is one call (docs/PROVING.md).
impl Drop for Cnf {
    fn drop(self) {
        let Cnf {
            vars: _,
            clauses: _,
        } = self;
    }
}

impl Model for Cnf {
    ghost use Rattle.lrat_text.specs.CnfText.{Formula, formula, IsFormula};

    ghost Value = { Formula };

    ghost view = { λ c. formula c.vars c.clauses };

    ghost invariant = { λ c. IsFormula (formula c.vars c.clauses) };
}

impl Cnf {
    /// How many variables the header tells. Each variable of a clause is from 1 to this number.
    pub fn vars(&self) -> u32
        ensures { result ≡ self.now.vars }
    {
        self.vars
    }

    /// The number of clauses.
    pub fn len(&self) -> usize
        ensures { result ≡ length self.now.clauses }
    {
        self.clauses.len()
    }

    /// The number of variables, and the clauses.
    pub(crate) fn into_parts(self) -> (u32, Rows<PackedLit>)
        ensures vars { result.0 ≡ self.vars }
        ensures clauses { result.1 ≡ self.clauses }
        ensures form { IsFormula self }
    {
        let Cnf { vars, clauses } = self;
        (vars, clauses)
    }
}

// What a header tells.
#[derive(Clone, Copy)]
struct Header {
    vars: u32,
    count: u32,
}

// The number that a field spells, where it is at most `MAX_VARIABLE`.
fn bounded(text: &[u8]) -> Option<u32>
    ensures some { IfSome result (IsNumber text.now) }
    ensures few { IfSome result (λ n. n ≤ MAX_VARIABLE) }
    ensures none { IfNone result ((n : ℕ) → IsNumber text.now n → n ≤ MAX_VARIABLE → ⊥) }
{
    let number = decimal(text)?;
    if number > MAX_VARIABLE {
        return None;
    }
    Some(number)
}

// The third field of a header and its fourth, which is its last.
fn header_fields<'a>(line: &Line<'a>) -> Result<(&'a [u8], &'a [u8]), CnfCause>
    ensures ok { IfOk result
        (λ p. field_texts line.now.text.now ≡ codes "p" ∷ codes "cnf" ∷ p.0.now ∷ p.1.now ∷ []) }
    ensures err { IfErr result (IsFirstCnfCause (HeaderStands (field_texts line.now.text.now))) }
{
    let mut parts = fields(line);
    let first = parts.next().ok_or(CnfCause::NoHeader)?;
    if first.text != "p".as_bytes() {
        return Err(CnfCause::NoHeader);
    }
    let kind = parts.next().ok_or(CnfCause::BadHeader)?;
    if kind.text != "cnf".as_bytes() {
        return Err(CnfCause::BadHeader);
    }
    let vars = parts.next().ok_or(CnfCause::BadHeader)?;
    let count = parts.next().ok_or(CnfCause::BadHeader)?;
    if parts.next().is_some() {
        return Err(CnfCause::BadHeader);
    }
    Ok((vars.text, count.text))
}

// What a line tells as a header.
fn header_of(line: &Line<'_>) -> Result<Header, CnfCause>
    ensures ok { IfOk result (λ h. IsHeader (field_texts line.now.text.now) h.vars h.count) }
    ensures err { IfErr result (IsFirstCnfCause (HeaderStands (field_texts line.now.text.now))) }
{
    let (first, second) = header_fields(line)?;
    let Some(vars) = bounded(first) else {
        return Err(CnfCause::BadHeader);
    };
    let Some(count) = bounded(second) else {
        return Err(CnfCause::BadHeader);
    };
    Ok(Header { vars, count })
}

// The header of a text. The lines behind it are left.
fn read_header(bytes: &[u8], left: &mut Lines<'_>) -> Result<Header, CnfFault>
    requires size { length bytes.now ≤ MAX_INPUT }
    requires all { left.old ≡ lines_of bytes.now }
    ensures ok { IfOk result (λ h. BeginWith bytes.now h.vars h.count left.new) }
    ensures fault { IfErr result (IsBadHeader bytes.now) }
{
    let Some(header) = next_cnf_line(left) else {
        return Err(CnfFault::At {
            line: line_count(bytes) + 1,
            cause: CnfCause::NoHeader,
        });
    };
    match header_of(&header) {
        Ok(told) => Ok(told),
        Err(cause) => Err(CnfFault::At {
            line: header.number,
            cause,
        }),
    }
}

// Adds a number to the clauses that are whole and to the one that is open: 0 ends the open one.
fn add(clauses: &mut Rows<PackedLit>, open: &mut Vec<PackedLit>, lit: Lit) -> Result<(), Memory>
    requires { lit.var ≤ 2147483647 }
    ensures { OnOk result (cut clauses.new open.new.items ≡ adds (cut clauses.old open.old.items) lit) }
{
    if lit.var == 0 {
        clauses.push(open.as_slice())?;
        open.clear();
    } else {
        open.push(PackedLit::pack(lit))?;
    }
    Ok(())
}

// Adds the numbers of a line, or tells its cause; the clauses count for nothing then.
fn read_line(
    line: &Line<'_>,
    vars: u32,
    clauses: &mut Rows<PackedLit>,
    open: &mut Vec<PackedLit>,
) -> Result<Option<CnfCause>, Memory>
    requires { vars ≤ 2147483647 }
    ensures { IfOk result (LineSays vars (field_texts line.now.text.now) (cut clauses.old open.old.items)
        (cut clauses.new open.new.items)) }
{
    let mut outside = false;
    let mut parts = fields(line);
    while let Some(field) = parts.next_number() {
        let Some(lit) = signed(field.text, field.number) else {
            return Ok(Some(CnfCause::BadNumber));
        };
        if lit.var > vars as usize {
            outside = true;
        } else {
            add(clauses, open, lit)?;
        }
    }
    if outside {
        return Ok(Some(CnfCause::OutOfRange));
    }
    Ok(None)
}

// The clauses that the lines behind a header tell.
fn read_clauses(
    alloc: Global,
    bytes: &[u8],
    mut left: Lines<'_>,
    header: Header,
) -> Result<Rows<PackedLit>, CnfFault>
    requires size { length bytes.now ≤ MAX_INPUT }
    requires vars { header.vars ≤ 2147483647 }
    ensures { ReadsFrom bytes.now header.vars header.count no_cut (cnf_kept left.entry) result }
{
    let mut clauses = Rows::new(alloc);
    let mut open = Vec::new(alloc);
    while let Some(line) = next_cnf_line(&mut left) {
        if let Some(cause) = read_line(&line, header.vars, &mut clauses, &mut open)? {
            return Err(CnfFault::At {
                line: line.number,
                cause,
            });
        }
    }
    if clauses.len() != header.count as usize || !open.is_empty() {
        return Err(CnfFault::At {
            line: line_count(bytes) + 1,
            cause: CnfCause::ClauseCount,
        });
    }
    Ok(clauses)
}

/// Reads a CNF. `At` tells the first line at which a cause stands, and of the causes that stand there the first in the
/// order of [`CnfCause`]. `Memory` is want of memory, and says nothing of the text.
pub fn read_cnf(alloc: Global, bytes: &[u8]) -> Result<Cnf, CnfFault>
    requires { length bytes.now ≤ MAX_INPUT }
    ensures read { IsCnfRead bytes.now result }
{
    let mut left = lines(bytes);
    let header = read_header(bytes, &mut left)?;
    let clauses = read_clauses(alloc, bytes, left, header)?;
    Ok(Cnf {
        vars: header.vars,
        clauses,
    })
}
