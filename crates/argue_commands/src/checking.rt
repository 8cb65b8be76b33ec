//! The check of an answer with its certificate.

ghost use Rattle.std.specs.Prelude.{◌≡◌, ◌≢◌, ◌⊎◌, ◌≤◌, length, IfErr, IfOk, IsErrOf, IsSome, OnOk};
ghost use Rattle.argue_outside.specs.declared.Role.{Role as ARole};
ghost use Rattle.argue_words.specs.Words.{check_texts};
ghost use Rattle.edit_rules.specs.Kinds.{framework_of};
ghost use Rattle.num_text.specs.declared.limit.TheConstants.{MAX_INPUT};
ghost use Rattle.argue_commands.specs.Checks.{AcceptsFiles, CheckEnds, ChecksFiles, EndsChecking, HasCheckBytes};
ghost use Rattle.argue_commands.specs.Checks.{IsChecked, IsTextFault, answer_status, certificate_status, check_inputs};
ghost use Rattle.argue_commands.specs.Inputs.{StopsReading, reading};
ghost use Rattle.argue_commands.specs.Texts.{common_text};

use crate::ended::{FaultCause, Refusal, Rejection, Status};
use crate::input::{read_input, refused};
use argue_outside::{Files, Role};
use argue_words::CheckWords;
use certificate_check::check;
use certificate_claims::{Certificate, Verdict};
use certificate_text::{CertFault, read_certificate};
use edit_rules::{Framework, query_fits};
use framework_text::read_framework;
use iccma_tasks::{Answer, AnswerFault, Query, read_answer};
use lists::{Bytes, Memory};
use std::alloc::Global;
use std::mem::forget;

/// The bytes of the files of a check.

pub(crate) struct CheckBytes {
    pub framework: Bytes,
    pub answer: Bytes,
    pub certificate: Bytes,
}

// By hand, so that a drop is one call (docs/PROVING.md).
impl Drop for CheckBytes {
    fn drop(self) {
        let CheckBytes {
            framework: _,
            answer: _,
            certificate: _,
        } = self;
    }
}

/// What the files of a check read as.
pub struct Checked {
    pub framework: Framework,
    pub answer: Answer,
    pub certificate: Certificate,
}

// By hand, so that a drop is one call (docs/PROVING.md).
impl Drop for Checked {
    fn drop(self) {
        let Checked {
            framework: _,
            answer: _,
            certificate: _,
        } = self;
    }
}

/// Reads the files of a check whole, in order.
fn read_files<F: Files>(
    alloc: Global,
    files: &mut F,
    words: &CheckWords<'_>,
) -> Result<CheckBytes, Status>
    ensures ok { IfOk result (HasCheckBytes (F.holds files.old) (check_texts words.now)) }
    ensures err { IfErr result
        (StopsReading (reading F.Files files.old files.new) (check_inputs (check_texts words.now))) }
    ensures quiet { ((role : ARole) → IsErrOf result (Status.ReadFault role) → ⊥)
        → F.read_count files.new ≡ F.read_count files.old }
    ensures others { (role : ARole) → role ≢ Role.Framework 1 → role ≢ Role.Answer → role ≢ Role.Certificate
        → F.read_count files.new role ≡ F.read_count files.old role }
    ensures same { F.holds files.new ≡ F.holds files.old }
    ensures writes { F.write_count files.new ≡ F.write_count files.old }
{
    let framework = match read_input(alloc, files, Role::Framework(1), words.file) {
        Ok(bytes) => bytes,
        Err(end) => return Err(end),
    };
    let answer = match read_input(alloc, files, Role::Answer, words.answer) {
        Ok(bytes) => bytes,
        Err(end) => return Err(end),
    };
    let certificate = match read_input(alloc, files, Role::Certificate, words.certificate) {
        Ok(bytes) => bytes,
        Err(end) => return Err(end),
    };
    Ok(CheckBytes {
        framework,
        answer,
        certificate,
    })
}

/// The status of a run whose answer has this fault.
fn answer_refused(fault: AnswerFault) -> Status
    ensures { result ≡ answer_status fault }
{
    match fault {
        AnswerFault::At { line, cause } => {
            Status::InputRefused(Refusal::Line(Role::Answer, line, FaultCause::Answer(cause)))
        }
        AnswerFault::Memory => Status::WantOfMemory,
    }
}

/// The status of a run whose certificate has this fault.
fn certificate_refused(fault: CertFault) -> Status
    ensures { result ≡ certificate_status fault }
{
    match fault {
        CertFault::At { line, cause } => Status::InputRefused(Refusal::Line(
            Role::Certificate,
            line,
            FaultCause::Certificate(cause),
        )),
        CertFault::Memory => Status::WantOfMemory,
    }
}

/// Reads the texts of a check, in order.
fn parse(alloc: Global, bytes: &CheckBytes) -> Result<Checked, Status>
    requires framework { length bytes.now.framework ≤ MAX_INPUT }
    requires certificate { length bytes.now.certificate ≤ MAX_INPUT }
    ensures ok { IfOk result (IsChecked bytes.now) }
    ensures err { IfErr result (IsTextFault bytes.now) }
{
    let framework = match read_framework(alloc, bytes.framework.as_slice()) {
        Ok(framework) => framework,
        Err(fault) => return Err(refused(Role::Framework(1), fault)),
    };
    let answer = match read_answer(alloc, bytes.answer.as_slice()) {
        Ok(answer) => answer,
        Err(fault) => return Err(answer_refused(fault)),
    };
    match read_certificate(alloc, bytes.certificate.as_slice()) {
        Ok(certificate) => Ok(Checked {
            framework,
            answer,
            certificate,
        }),
        Err(fault) => Err(certificate_refused(fault)),
    }
}

/// Checks the answer to a query with its certificate. `Ok` where the certificate is accepted, else how the run ends.
fn judge(alloc: Global, query: &Query, read: &Checked) -> Result<(), Status>
    ensures ok { OnOk result (CheckEnds (framework_of read.now.framework) query.now read.now.answer read.now.certificate
        Status.Done) }
    ensures err { IfErr result (λ end. (end ≡ Status.WantOfMemory) ⊎ CheckEnds (framework_of read.now.framework) query.now
        read.now.answer read.now.certificate end) }
    ensures told { IfErr result (λ end. IsSome (common_text end)) }
{
    match query_fits(&read.framework, query) {
        Ok(()) => {}
        Err(fault) => return Err(Status::InputRefused(Refusal::Query(fault))),
    }
    match check(
        alloc,
        &read.framework,
        query,
        &read.answer,
        &read.certificate,
    ) {
        Ok(Verdict::Accepted) => Ok(()),
        Ok(Verdict::Rejected(failure, refutation, step)) => {
            Err(Status::Rejected(Rejection::Certificate(failure, refutation, step)))
        }
        Err(Memory) => Err(Status::WantOfMemory),
    }
}

/// Checks the answer in one file with the certificate in another, on the framework in a third. What the files read as
/// where the certificate is accepted, else how the run ends.
pub fn read_accepted<F: Files>(
    alloc: Global,
    files: &mut F,
    query: &Query,
    words: &CheckWords<'_>,
) -> Result<Checked, Status>
    ensures ok { IfOk result (AcceptsFiles (F.holds files.old) query.now (check_texts words.now)) }
    ensures err { IfErr result
        (EndsChecking (reading F.Files files.old files.new) query.now (check_texts words.now)) }
    ensures told { IfErr result (λ end. IsSome (common_text end)) }
    ensures quiet { ((role : ARole) → IsErrOf result (Status.ReadFault role) → ⊥)
        → F.read_count files.new ≡ F.read_count files.old }
    ensures others { (role : ARole) → role ≢ Role.Framework 1 → role ≢ Role.Answer → role ≢ Role.Certificate
        → F.read_count files.new role ≡ F.read_count files.old role }
    ensures same { F.holds files.new ≡ F.holds files.old }
    ensures writes { F.write_count files.new ≡ F.write_count files.old }
{
    let bytes = match read_files(alloc, files, words) {
        Ok(bytes) => bytes,
        Err(end) => return Err(end),
    };
    let read = match parse(alloc, &bytes) {
        Ok(read) => read,
        Err(end) => return Err(end),
    };
    match judge(alloc, query, &read) {
        Ok(()) => Ok(read),
        Err(end) => {
            // The run ends here: to take millions of lists back one by one would cost it a twentieth of its time.
            forget(read);
            Err(end)
        }
    }
}

/// Checks the answer in one file with the certificate in another, on the framework in a third. `Ok` where the
/// certificate is accepted, else how the run ends.
pub fn check_files<F: Files>(
    alloc: Global,
    files: &mut F,
    query: &Query,
    words: &CheckWords<'_>,
) -> Result<(), Status>
    ensures ok { OnOk result (ChecksFiles (F.holds files.old) query.now (check_texts words.now) Status.Done) }
    ensures err { IfErr result
        (EndsChecking (reading F.Files files.old files.new) query.now (check_texts words.now)) }
    ensures told { IfErr result (λ end. IsSome (common_text end)) }
    ensures quiet { ((role : ARole) → IsErrOf result (Status.ReadFault role) → ⊥)
        → F.read_count files.new ≡ F.read_count files.old }
    ensures others { (role : ARole) → role ≢ Role.Framework 1 → role ≢ Role.Answer → role ≢ Role.Certificate
        → F.read_count files.new role ≡ F.read_count files.old role }
    ensures same { F.holds files.new ≡ F.holds files.old }
    ensures writes { F.write_count files.new ≡ F.write_count files.old }
{
    match read_accepted(alloc, files, query, words) {
        Ok(read) => {
            // The run ends here, as above.
            forget(read);
            Ok(())
        }
        Err(end) => Err(end),
    }
}
