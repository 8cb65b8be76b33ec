//! The lines of a TGF text.

ghost use Rattle.std.specs.Prelude.{◌≡◌, ℕ, Bool, List, IfOk, IfErr, ◌∷◌, map, true, false};
ghost use Rattle.num_text.specs.Cuts.{field_texts};
ghost use Rattle.num_text.specs.Views.{line_text};
ghost use Rattle.apx_tgf.specs.Taking.{TakesLine, IsNoLine};
ghost use Rattle.apx_tgf.specs.declared.format.NameFormat.TheVariants.{Tgf};
ghost use Rattle.apx_tgf.specs.declared.fault.NameCause.TheVariants.{BadLine};
ghost use Rattle.apx_tgf.specs.declared.fault.ReadFault.TheVariants.{Line as of_line};

use crate::fault::{NameCause, NameFault, ReadFault};
use crate::token::is_name;
use crate::told::{NamedAttack, ToldSoFar};
use num_text::{Fields, Line, fields};

/// Takes what a line of a TGF text says, and tells whether the line `#` has come with it.
pub(crate) fn take_tgf_line<'a>(
    line: &Line<'a>,
    divided: bool,
    told: &mut ToldSoFar<'a>,
) -> Result<bool, ReadFault>
    ensures ok { IfOk result (TakesLine Tgf divided (line_text line.now) told.old told.new) }
    ensures fault { IfErr result (IsNoLine Tgf divided (line_text line.now)) }
{
    let mut parts = fields(line);
    let Some(first) = parts.next() else {
        return Ok(divided);
    };
    if divided {
        take_edge(line, first.text, parts, told)
    } else {
        take_node(line, first.text, parts, told)
    }
}

// Takes a line before the line `#`, or that line, which begins with this field; the others follow.
fn take_node<'a>(
    line: &Line<'a>,
    first: &'a [u8],
    mut others: Fields<'a>,
    told: &mut ToldSoFar<'a>,
) -> Result<bool, ReadFault>
    requires { field_texts line.now.text.now ≡ first.now ∷ map (λ f. f.text) others }
    ensures ok { IfOk result (TakesLine Tgf false (line_text line.now) told.old told.new) }
    ensures fault { IfErr result (IsNoLine Tgf false (line_text line.now)) }
{
    if is_name(first) {
        told.declare(first)?;
        return Ok(false);
    }
    if first != "#".as_bytes() || others.next().is_some() {
        return Err(bad_line(line.number));
    }
    Ok(true)
}

// Takes a line behind the line `#`, which begins with this field; the others follow.
fn take_edge<'a>(
    line: &Line<'a>,
    first: &'a [u8],
    mut others: Fields<'a>,
    told: &mut ToldSoFar<'a>,
) -> Result<bool, ReadFault>
    requires { field_texts line.now.text.now ≡ first.now ∷ map (λ f. f.text) others }
    ensures ok { IfOk result (TakesLine Tgf true (line_text line.now) told.old told.new) }
    ensures fault { IfErr result (IsNoLine Tgf true (line_text line.now)) }
{
    let Some(second) = others.next() else {
        return Err(bad_line(line.number));
    };
    if !is_name(first) || !is_name(second.text) {
        return Err(bad_line(line.number));
    }
    told.tell(NamedAttack {
        line: line.number,
        attacker: first,
        target: second.text,
    })?;
    Ok(true)
}

// That this line is bad.
fn bad_line(line: usize) -> ReadFault
    ensures { result ≡ of_line (record { line = line; cause = BadLine }) }
{
    ReadFault::Line(NameFault {
        line,
        cause: NameCause::BadLine,
    })
}
