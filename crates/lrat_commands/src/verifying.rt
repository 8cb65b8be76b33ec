//! The check of a CNF with its refutation.

ghost use Rattle.std.specs.Prelude.{◌≡◌, ◌≢◌, ◌⊎◌, ◌≤◌, length, IfErr, IfOk, IsErrOf, IsSome, OnOk};
ghost use Rattle.argue_outside.specs.declared.Role.{Role as ARole};
ghost use Rattle.argue_words.specs.Words.{lrat_texts};
ghost use Rattle.num_text.specs.declared.limit.TheConstants.{MAX_INPUT};
ghost use Rattle.lrat_text.specs.CnfText.{IsCnfText};
ghost use Rattle.argue_commands.specs.Inputs.{StopsReading, reading};
ghost use Rattle.argue_commands.specs.Texts.{common_text};
ghost use Rattle.lrat_commands.specs.Verifying.{EndsVerifying, HasLratBytes, LratEnds, StopsCnf, VerifiesFiles};
ghost use Rattle.lrat_commands.specs.Verifying.{cnf_status, lrat_inputs, lrat_status};

use argue_commands::input::read_input;
use argue_commands::{FaultCause, Refusal, Rejection, Status};
use argue_outside::{Files, Role};
use argue_words::LratWords;
use lists::Bytes;
use lrat_text::{Cnf, CnfFault, LratFault, Verdict, check_lrat, read_cnf};
use std::alloc::Global;

/// The bytes of the files of a check of a refutation.
#[derive(Drop)]
pub(crate) struct LratBytes {
    pub cnf: Bytes,
    pub lrat: Bytes,
}

/// Reads the files of a check of a refutation whole, in order.
fn read_files<F: Files>(
    alloc: Global,
    files: &mut F,
    words: &LratWords<'_>,
) -> Result<LratBytes, Status>
    ensures ok { IfOk result (HasLratBytes (F.holds files.old) (lrat_texts words.now)) }
    ensures err { IfErr result
        (StopsReading (reading F.Files files.old files.new) (lrat_inputs (lrat_texts words.now))) }
    ensures quiet { ((role : ARole) → IsErrOf result (Status.ReadFault role) → ⊥)
        → F.read_count files.new ≡ F.read_count files.old }
    ensures others { (role : ARole) → role ≢ Role.Cnf → role ≢ Role.Lrat
        → F.read_count files.new role ≡ F.read_count files.old role }
    ensures same { F.holds files.new ≡ F.holds files.old }
    ensures writes { F.write_count files.new ≡ F.write_count files.old }
{
    let cnf = match read_input(alloc, files, Role::Cnf, words.cnf) {
        Ok(bytes) => bytes,
        Err(end) => return Err(end),
    };
    let lrat = match read_input(alloc, files, Role::Lrat, words.lrat) {
        Ok(bytes) => bytes,
        Err(end) => return Err(end),
    };
    Ok(LratBytes { cnf, lrat })
}

// The status of a run whose CNF has this fault.
fn cnf_refused(fault: CnfFault) -> Status
    ensures { result ≡ cnf_status fault }
{
    match fault {
        CnfFault::At { line, cause } => {
            Status::InputRefused(Refusal::Line(Role::Cnf, line, FaultCause::Cnf(cause)))
        }
        CnfFault::Memory => Status::WantOfMemory,
    }
}

// The status of a run whose refutation has this fault.
fn lrat_refused(fault: LratFault) -> Status
    ensures { result ≡ lrat_status fault }
{
    match fault {
        LratFault::At { line, cause } => {
            Status::InputRefused(Refusal::Line(Role::Lrat, line, FaultCause::Lrat(cause)))
        }
        LratFault::Memory => Status::WantOfMemory,
    }
}

// The CNF that a text describes.
fn parse(alloc: Global, bytes: &[u8]) -> Result<Cnf, Status>
    requires { length bytes.now ≤ MAX_INPUT }
    ensures ok { IfOk result (IsCnfText bytes.now) }
    ensures err { IfErr result (StopsCnf bytes.now) }
{
    match read_cnf(alloc, bytes) {
        Ok(cnf) => Ok(cnf),
        Err(fault) => Err(cnf_refused(fault)),
    }
}

// Checks a CNF with the text of a refutation. `Ok` where it verifies the refutation, else how the run ends.
fn judge(alloc: Global, cnf: Cnf, bytes: &[u8]) -> Result<(), Status>
    requires { length bytes.now ≤ MAX_INPUT }
    ensures ok { OnOk result (LratEnds cnf bytes.now Status.Done) }
    ensures err { IfErr result (λ end. (end ≡ Status.WantOfMemory) ⊎ LratEnds cnf bytes.now end) }
    ensures told { IfErr result (λ end. IsSome (common_text end)) }
{
    match check_lrat(alloc, cnf, bytes) {
        Ok(Verdict::Verified) => Ok(()),
        Ok(Verdict::RejectedStep(id)) => Err(Status::Rejected(Rejection::Step(id))),
        Ok(Verdict::NoEmptyClause) => Err(Status::Rejected(Rejection::NoEmptyClause)),
        Err(fault) => Err(lrat_refused(fault)),
    }
}

/// Checks the CNF in one file with the refutation in another. `Ok` where the refutation is verified, else how the run
/// ends. Both files are read before a fault of a text is told, and all lines of the refutation before a verdict is.
pub fn verify_files<F: Files>(
    alloc: Global,
    files: &mut F,
    words: &LratWords<'_>,
) -> Result<(), Status>
    ensures ok { OnOk result (VerifiesFiles (F.holds files.old) (lrat_texts words.now) Status.Done) }
    ensures err { IfErr result (EndsVerifying (reading F.Files files.old files.new) (lrat_texts words.now)) }
    ensures told { IfErr result (λ end. IsSome (common_text end)) }
    ensures quiet { ((role : ARole) → IsErrOf result (Status.ReadFault role) → ⊥)
        → F.read_count files.new ≡ F.read_count files.old }
    ensures others { (role : ARole) → role ≢ Role.Cnf → role ≢ Role.Lrat
        → F.read_count files.new role ≡ F.read_count files.old role }
    ensures same { F.holds files.new ≡ F.holds files.old }
    ensures writes { F.write_count files.new ≡ F.write_count files.old }
{
    let bytes = match read_files(alloc, files, words) {
        Ok(bytes) => bytes,
        Err(end) => return Err(end),
    };
    let cnf = match parse(alloc, bytes.cnf.as_slice()) {
        Ok(cnf) => cnf,
        Err(end) => return Err(end),
    };
    judge(alloc, cnf, bytes.lrat.as_slice())
}
