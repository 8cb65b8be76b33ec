//! The names of the faults of edits.

ghost use Rattle.std.specs.Prelude.{◌≡◌};
ghost use Rattle.session_replies.specs.Replies.{edit_fault_name as fault_name, edit_fault_number as fault_number};

use edit_rules::EditFault;

/// The name of a fault, as it is printed.
pub fn edit_fault_name(fault: EditFault) -> &'static str
    ensures { result.now ≡ fault_name fault }
{
    match fault {
        EditFault::WrongKind => "WrongKind",
        EditFault::OutOfRange(_) => "OutOfRange",
        EditFault::ArgumentIsThere => "ArgumentIsThere",
        EditFault::UnknownArgument(_) => "UnknownArgument",
        EditFault::AttackIsThere => "AttackIsThere",
        EditFault::NoSuchAttack => "NoSuchAttack",
        EditFault::AssumptionIsThere => "AssumptionIsThere",
        EditFault::NotFlat(_) => "NotFlat",
        EditFault::UnknownAssumption(_) => "UnknownAssumption",
        EditFault::ContraryIsThere => "ContraryIsThere",
        EditFault::NoSuchContrary => "NoSuchContrary",
        EditFault::NoSuchRule(_) => "NoSuchRule",
        EditFault::Memory => "Memory",
    }
}

/// The number that a fault carries, if it carries one.
pub fn edit_fault_number(fault: EditFault) -> Option<u32>
    ensures { result ≡ fault_number fault }
{
    match fault {
        EditFault::OutOfRange(number)
        | EditFault::UnknownArgument(number)
        | EditFault::NotFlat(number)
        | EditFault::UnknownAssumption(number)
        | EditFault::NoSuchRule(number) => Some(number),
        EditFault::WrongKind
        | EditFault::ArgumentIsThere
        | EditFault::AttackIsThere
        | EditFault::NoSuchAttack
        | EditFault::AssumptionIsThere
        | EditFault::ContraryIsThere
        | EditFault::NoSuchContrary
        | EditFault::Memory => None,
    }
}
