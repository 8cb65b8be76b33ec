//! The framework and the script in the files of a script's run.

ghost use Rattle.std.specs.Prelude.{◌≡◌, ◌≢◌, ◌≤◌, length, IfErr, IfOk, IsErrOf, IsSome};
ghost use Rattle.argue_outside.specs.declared.Role.{Role as ARole};
ghost use Rattle.argue_words.specs.Words.{live_texts};
ghost use Rattle.num_text.specs.declared.limit.TheConstants.{MAX_INPUT};
ghost use Rattle.argue_commands.specs.Inputs.{StopsReading, reading};
ghost use Rattle.argue_commands.specs.Opening.{HasLiveBytes, IsLiveFault, IsOpened, OpensFiles, live_inputs};
ghost use Rattle.argue_commands.specs.Opening.{script_status};
ghost use Rattle.argue_commands.specs.Texts.{common_text};

use crate::ended::{FaultCause, Refusal, Status};
use crate::input::{read_input, refused};
use argue_outside::{Files, Role};
use argue_words::LiveWords;
use edit_rules::Framework;
use framework_text::read_framework;
use lists::Bytes;
use script_text::{Script, ScriptFault, read_script};
use std::alloc::Global;

/// The bytes of the files of a script's run.
#[derive(Drop)]
pub(crate) struct LiveBytes {
    pub framework: Bytes,
    pub script: Bytes,
}

/// What the files of a script's run read as.
#[derive(Drop)]
pub struct Opened {
    pub framework: Framework,
    pub script: Script,
}

/// Reads the files of a script's run whole, in order.
fn read_files<F: Files>(
    alloc: Global,
    files: &mut F,
    words: &LiveWords<'_>,
) -> Result<LiveBytes, Status>
    ensures ok { IfOk result (HasLiveBytes (F.holds files.old) (live_texts words.now)) }
    ensures err { IfErr result
        (StopsReading (reading F.Files files.old files.new) (live_inputs (live_texts words.now))) }
    ensures quiet { ((role : ARole) → IsErrOf result (Status.ReadFault role) → ⊥)
        → F.read_count files.new ≡ F.read_count files.old }
    ensures others { (role : ARole) → role ≢ Role.Framework 1 → role ≢ Role.Script
        → F.read_count files.new role ≡ F.read_count files.old role }
    ensures same { F.holds files.new ≡ F.holds files.old }
    ensures writes { F.write_count files.new ≡ F.write_count files.old }
{
    let framework = match read_input(alloc, files, Role::Framework(1), words.file) {
        Ok(bytes) => bytes,
        Err(end) => return Err(end),
    };
    let script = match read_input(alloc, files, Role::Script, words.script) {
        Ok(bytes) => bytes,
        Err(end) => return Err(end),
    };
    Ok(LiveBytes { framework, script })
}

/// The status of a run whose script has this fault.
fn script_refused(fault: ScriptFault) -> Status
    ensures { result ≡ script_status fault }
{
    match fault {
        ScriptFault::At { line, cause } => {
            Status::InputRefused(Refusal::Line(Role::Script, line, FaultCause::Script(cause)))
        }
        ScriptFault::Memory => Status::WantOfMemory,
    }
}

/// Reads the texts of a script's run, in order.
fn parse(alloc: Global, bytes: &LiveBytes) -> Result<Opened, Status>
    requires { length bytes.now.framework ≤ MAX_INPUT }
    ensures ok { IfOk result (IsOpened bytes.now) }
    ensures err { IfErr result (IsLiveFault bytes.now) }
{
    let framework = match read_framework(alloc, bytes.framework.as_slice()) {
        Ok(framework) => framework,
        Err(fault) => return Err(refused(Role::Framework(1), fault)),
    };
    match read_script(alloc, bytes.script.as_slice(), 1) {
        Ok(script) => Ok(Opened { framework, script }),
        Err(fault) => Err(script_refused(fault)),
    }
}

/// The framework and the script in the files, or the status of the run that they end.
pub fn open_files<F: Files>(
    alloc: Global,
    files: &mut F,
    words: &LiveWords<'_>,
) -> Result<Opened, Status>
    ensures ok { IfOk result (OpensFiles (F.holds files.old) (live_texts words.now)) }
    ensures err { IfErr result
        (StopsReading (reading F.Files files.old files.new) (live_inputs (live_texts words.now))) }
    ensures told { IfErr result (λ end. IsSome (common_text end)) }
    ensures quiet { ((role : ARole) → IsErrOf result (Status.ReadFault role) → ⊥)
        → F.read_count files.new ≡ F.read_count files.old }
    ensures others { (role : ARole) → role ≢ Role.Framework 1 → role ≢ Role.Script
        → F.read_count files.new role ≡ F.read_count files.old role }
    ensures same { F.holds files.new ≡ F.holds files.old }
    ensures writes { F.write_count files.new ≡ F.write_count files.old }
{
    let bytes = match read_files(alloc, files, words) {
        Ok(bytes) => bytes,
        Err(end) => return Err(end),
    };
    parse(alloc, &bytes)
}
