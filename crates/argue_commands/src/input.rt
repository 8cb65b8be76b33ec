//! The inputs of a run.

ghost use Rattle.std.specs.Prelude.{◌≡◌, IfErr, IfOk, IsErrOf};
ghost use Rattle.edit_rules.specs.Kinds.{framework_of};
ghost use Rattle.argue_outside.specs.Outside.{HoldsStill, IsRole, OtherCountsKept};
ghost use Rattle.argue_commands.specs.Inputs.{EndsReading, HasBytes, IsFrameworkOf, IsUnrefused, input, reading};
ghost use Rattle.argue_commands.specs.Inputs.{status_of_fault};

use crate::ended::{FaultCause, Limit, Refusal, Status};
use af_format::ReadFault;
use argue_outside::{Files, ReadStop, Role, read_all};
use edit_rules::Framework;
use framework_text::read_framework as read_text;
use lists::{Bytes, Memory};
use num_text::MAX_INPUT;
use std::alloc::Global;

impl From<Memory> for Status {
    ghost use Rattle.std.specs.Prelude.{◌≡◌};
    ghost use Rattle.argue_commands.specs.declared.ended.Status.TheVariants.{WantOfMemory as want};

    ghost from_gives = { λ _ end. end ≡ want };

    fn from(_memory: Memory) -> Status {
        Status::WantOfMemory
    }
}

/// The whole bytes of an input, or the status of the run that it ends.
pub fn read_input<F: Files>(
    alloc: Global,
    files: &mut F,
    role: Role,
    name: &str,
) -> Result<Bytes, Status>
    requires { IsRole role }
    ensures ok { IfOk result (HasBytes (F.holds files.old name.now)) }
    ensures err { IfErr result (EndsReading (reading F.Files files.old files.new) (input role name.now)) }
    ensures unrefused { IfErr result IsUnrefused }
    ensures quiet { (IsErrOf result (Status.ReadFault role) → ⊥) → F.read_count files.new ≡ F.read_count files.old }
    ensures others { OtherCountsKept role (F.read_count files.old) (F.read_count files.new) }
    ensures serving { HoldsStill (F.serves files.old) (F.serves files.new) }
    ensures same { F.holds files.new ≡ F.holds files.old }
    ensures writes { F.write_count files.new ≡ F.write_count files.old }
{
    match read_all(alloc, files, role, name, MAX_INPUT) {
        Ok(bytes) => Ok(bytes),
        Err(ReadStop::Failed) => Err(Status::ReadFault(role)),
        Err(ReadStop::TooLong) => Err(Status::Limit(Limit::Input)),
        Err(ReadStop::Memory) => Err(Status::WantOfMemory),
    }
}

/// The status of a run whose framework has this fault.
pub(crate) fn refused(role: Role, fault: ReadFault) -> Status
    ensures { result ≡ status_of_fault role fault }
{
    match fault {
        ReadFault::Line(fault) => Status::InputRefused(Refusal::Line(
            role,
            fault.line,
            FaultCause::Framework(fault.cause),
        )),
        ReadFault::Memory => Status::WantOfMemory,
    }
}

/// The framework of an input, or the status of the run that it ends.
pub(crate) fn read_framework<F: Files>(
    alloc: Global,
    files: &mut F,
    number: u32,
    name: &str,
) -> Result<Framework, Status>
    requires { IsRole (Role.Framework number) }
    ensures ok { IfOk result (λ framework. IsFrameworkOf (F.holds files.old name.now) (framework_of framework)) }
    ensures err { IfErr result
        (EndsReading (reading F.Files files.old files.new) (input (Role.Framework number) name.now)) }
    ensures quiet { (IsErrOf result (Status.ReadFault (Role.Framework number)) → ⊥)
        → F.read_count files.new ≡ F.read_count files.old }
    ensures others { OtherCountsKept (Role.Framework number) (F.read_count files.old) (F.read_count files.new) }
    ensures same { F.holds files.new ≡ F.holds files.old }
    ensures writes { F.write_count files.new ≡ F.write_count files.old }
{
    let role = Role::Framework(number);
    let bytes = read_input(alloc, files, role, name)?;
    match read_text(alloc, bytes.as_slice()) {
        Ok(framework) => Ok(framework),
        Err(fault) => Err(refused(role, fault)),
    }
}
