//! The attacks of a text by numbers.

ghost use Rattle.std.specs.Prelude.{◌≤◌, length, map, IfOk, IfErr};
ghost use Rattle.std.specs.List.{AllZip};
ghost use Rattle.semantics.specs.declared.argument.TheConstants.{MAX_ARGUMENT};
ghost use Rattle.apx_tgf.specs.Numbered.{AreNumbersOf, IsUnknownAttack, IsUnknownFault};
ghost use Rattle.apx_tgf.specs.Faults.{IfLine};
ghost use Rattle.apx_tgf.specs.Views.{told_attack};

use crate::fault::{NameCause, NameFault, ReadFault};
use crate::names::Names;
use crate::told::NamedAttack;
use lists::Items;
use std::alloc::Global;

/// The numbers of the attackers and targets, or the fault of the first attack with a name that isn't declared.
pub(crate) fn numbers_of_all(
    alloc: Global,
    names: &Names<'_>,
    attacks: &[NamedAttack<'_>],
) -> Result<Items<(u32, u32)>, ReadFault>
    requires { length names.now ≤ MAX_ARGUMENT }
    ensures ok { IfOk result (AllZip (AreNumbersOf names.now) (map told_attack attacks.now)) }
    ensures fault { IfErr result (λ e. IfLine e (IsUnknownFault names.now (map told_attack attacks.now))) }
{
    let mut numbers = Items::new(alloc);
    for attack in attacks {
        numbers.push(numbers_of(names, attack)?)?;
    }
    Ok(numbers)
}

// The numbers of attacker and target.
fn numbers_of(names: &Names<'_>, attack: &NamedAttack<'_>) -> Result<(u32, u32), NameFault>
    requires { length names.now ≤ MAX_ARGUMENT }
    ensures ok { IfOk result (AreNumbersOf names.now (told_attack attack.now)) }
    ensures fault { IfErr result (IsUnknownAttack names.now (told_attack attack.now)) }
{
    match (
        names.number_of(attack.attacker),
        names.number_of(attack.target),
    ) {
        (Some(attacker), Some(target)) => Ok((attacker as u32, target as u32)),
        _ => Err(NameFault {
            line: attack.line,
            cause: NameCause::UnknownName,
        }),
    }
}
