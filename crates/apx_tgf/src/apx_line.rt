//! The lines of an APX text.

ghost use Rattle.std.specs.Prelude.{◌≡◌, ℕ, Bool, List, OnOk, IfErr, IsTrue, ◌↔◌, ◌∷◌};
ghost use Rattle.num_text.specs.Cuts.{field_texts};
ghost use Rattle.num_text.specs.Views.{line_text};
ghost use Rattle.apx_tgf.specs.ApxText.{BeginWithPercent, statement_of};
ghost use Rattle.apx_tgf.specs.Told.{told_after};
ghost use Rattle.apx_tgf.specs.Views.{fact_of};
ghost use Rattle.apx_tgf.specs.Taking.{TakesApxLine, IsNoApxLine, TakesFact, IsNoFactFault};

use crate::fact::{ReadFact, fact_from};
use crate::fault::{NameCause, NameFault, ReadFault};
use crate::token::{Tokens, blanks_length};
use crate::told::{NamedAttack, ToldSoFar};
use lists::Memory;
use num_text::Line;

/// Takes what a line of an APX text says.
pub(crate) fn take_apx_line<'a>(line: &Line<'a>, told: &mut ToldSoFar<'a>) -> Result<(), ReadFault>
    ensures ok { OnOk result (TakesApxLine (line_text line.now) told.old told.new) }
    ensures fault { IfErr result (IsNoApxLine (line_text line.now)) }
{
    if is_remark(line) {
        return Ok(());
    }
    let mut tokens = Tokens::new(line.text);
    while let Some(first) = tokens.next() {
        take_fact(first, &mut tokens, line.number, told)?;
    }
    Ok(())
}

// Whether the first field of the line begins with `%`, which the first byte that is no blank tells.
fn is_remark(line: &Line<'_>) -> bool
    ensures { IsTrue result ↔ BeginWithPercent (field_texts line.now.text.now) }
{
    let start = blanks_length(line.text);
    if start == line.text.len() {
        return false;
    }
    line.text[start] == b'%'
}

// Takes the fact that begins with this token.
#[inline(always)]
fn take_fact<'a>(
    first: &[u8],
    tokens: &mut Tokens<'a>,
    line: usize,
    told: &mut ToldSoFar<'a>,
) -> Result<(), ReadFault>
    ensures ok { OnOk result (TakesFact line (first.now ∷ tokens.old) tokens.new told.old told.new) }
    ensures fault { IfErr result (IsNoFactFault line (first.now ∷ tokens.old)) }
{
    let Some(fact) = fact_from(first, tokens) else {
        return Err(ReadFault::Line(NameFault {
            line,
            cause: NameCause::BadLine,
        }));
    };
    Ok(tell_fact(fact, line, told)?)
}

// Takes what a fact on a line says.
#[inline(always)]
fn tell_fact<'a>(fact: ReadFact<'a>, line: usize, told: &mut ToldSoFar<'a>) -> Result<(), Memory>
    ensures { OnOk result (told.new ≡ told_after told.old (statement_of line (fact_of fact.entry))) }
{
    match fact {
        ReadFact::Argument(name) => told.declare(name),
        ReadFact::Attack(attacker, target) => told.tell(NamedAttack {
            line,
            attacker,
            target,
        }),
    }
}
