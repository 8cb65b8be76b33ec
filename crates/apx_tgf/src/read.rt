//! Reading a framework with names.

ghost use Rattle.std.specs.Prelude.{◌≡◌, ℕ, ◌≤◌, List, length, IfOk, IfErr, OnOk};
ghost use Rattle.num_text.specs.declared.limit.TheConstants.{MAX_INPUT};
ghost use Rattle.num_text.specs.Cuts.{lines_of};
ghost use Rattle.semantics.specs.Framework.{Af};
ghost use Rattle.semantics.specs.declared.argument.TheConstants.{MAX_ARGUMENT};
ghost use Rattle.dung_notions.specs.Solid.{IsSolid};
ghost use Rattle.af_format.specs.declared.af_line.TheConstants.{MAX_ATTACK_LINES};
ghost use Rattle.apx_tgf.specs.declared.fault.NameCause.{NameCause};
ghost use Rattle.apx_tgf.specs.Names.{AreDistinct, AreNames};
ghost use Rattle.apx_tgf.specs.NamedText.{ReadsAs};
ghost use Rattle.apx_tgf.specs.Faults.{IsFirstFault, IfLine, IsLineFault};
ghost use Rattle.apx_tgf.specs.Reading.{TellsAll};

use crate::fault::ReadFault;
use crate::format::NameFormat;
use crate::framework::framework_of;
use crate::line::{take_line, within_limits};
use crate::names::Names;
use crate::numbers::numbers_of_all;
use crate::told::ToldSoFar;
use dung_notions::AfPlain;
use num_text::{Lines, lines};
use std::alloc::Global;

/// A framework whose arguments have names.
#[derive(Drop)]
pub struct NamedAf<'a> {
    /// The names of the arguments 1, 2 and so on.
    pub names: Names<'a>,
    /// The framework of the numbers.
    pub framework: AfPlain,
}

/// The framework that a text of this format describes, with the names of its arguments in order of first declaration.
///
/// `Line` tells the first line at which a cause stands, and of the causes that stand there the first in the order of
/// [`NameCause`](crate::NameCause); `UnknownName` is told only where no line has another fault. `Memory` says that an
/// allocation was refused.
pub fn read_named<'a>(
    alloc: Global,
    format: NameFormat,
    bytes: &'a [u8],
) -> Result<NamedAf<'a>, ReadFault>
    requires { length bytes.now ≤ MAX_INPUT }
    ensures ok { IfOk result (λ r. ReadsAs format bytes.now r.names r.framework) }
    ensures no_other { IfOk result (λ r. (names : List (List ℕ)) (f : Af) → ReadsAs format bytes.now names f
        → (names ≡ r.names) × (f ≡ r.framework)) }
    ensures solid { IfOk result (λ r. IsSolid r.framework) }
    ensures few { IfOk result (λ r. length r.names ≤ MAX_ARGUMENT) }
    ensures few_attacks { IfOk result (λ r. length r.framework.attacks ≤ MAX_ATTACK_LINES) }
    ensures names { IfOk result (λ r. AreNames r.names) }
    ensures one_to_one { IfOk result (λ r. AreDistinct r.names) }
    ensures faultless { OnOk result ((line : ℕ) (cause : NameCause) → ¬ IsFirstFault format bytes.now line cause) }
    ensures fault { IfErr result (λ e. IfLine e (λ fault. IsFirstFault format bytes.now fault.line fault.cause)) }
{
    let told = read_lines(alloc, format, lines(bytes))?;
    let attacks = numbers_of_all(alloc, &told.names, told.attacks.as_slice())?;
    let framework = framework_of(alloc, told.names.len() as u32, attacks)?;
    Ok(NamedAf {
        names: told.names,
        framework,
    })
}

// What all lines that are left tell.
fn read_lines<'a>(
    alloc: Global,
    format: NameFormat,
    mut left: Lines<'a>,
) -> Result<ToldSoFar<'a>, ReadFault>
    ensures ok { IfOk result (TellsAll format left.entry) }
    ensures fault { IfErr result (λ e. IfLine e (λ fault. IsLineFault format left.entry fault.line fault.cause)) }
{
    let mut told = ToldSoFar::new(alloc);
    let mut divided = false;
    while let Some(line) = left.next() {
        divided = take_line(format, &line, divided, &mut told)?;
        within_limits(&told, line.number)?;
    }
    Ok(told)
}
