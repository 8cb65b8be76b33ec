//! The answer to a query on the framework in a file.

ghost use Rattle.std.specs.Prelude.{◌≡◌, IfErr, IfOk, IsErrOf, IsSome, map};
ghost use Rattle.std.specs.Option.{option_map};
ghost use Rattle.argue_outside.specs.Outside.{OtherCountsKept};
ghost use Rattle.edit_rules.specs.Kinds.{framework_of};
ghost use Rattle.argue_commands.specs.Inputs.{EndsReading, input, reading};
ghost use Rattle.argue_commands.specs.Replacing.{certificate_files, file_text};
ghost use Rattle.argue_commands.specs.Solves.{IsSessionOf, IsSessionOn, status_after};
ghost use Rattle.argue_commands.specs.Texts.{common_text};

use crate::ended::{KeptSession, Limit, Refusal, Status};
use crate::input::read_framework;
use crate::query::{LOG_LIMIT, Solving};
use crate::replacing::Written;
use argue_outside::{Files, Role};
use argue_words::SolveWords;
use certificate_claims::Certificate;
use certificate_text::write_certificate;
use edit_rules::Framework;
use lists::{Items, Memory};
use oracle_core::{AnswerStop, Engine};
use oracle_face::NoTrade;
use plain_lits::Budget;
use semantics::MAX_EXTENSIONS;
use std::alloc::Global;

/// The status of a run whose query has no answer for this reason.
pub fn status_of(stop: AnswerStop) -> Status
    ensures { result ≡ status_after stop }
{
    match stop {
        AnswerStop::Query(fault) => Status::InputRefused(Refusal::Query(fault)),
        AnswerStop::Spent(_) => Status::Unknown,
        AnswerStop::TooMany => Status::Limit(Limit::Extensions),
        AnswerStop::LogFull => Status::Limit(Limit::Log),
        AnswerStop::Memory => Status::WantOfMemory,
    }
}

/// The session of a query on a framework.
pub fn answer(alloc: Global, framework: Framework, solving: &Solving) -> Result<KeptSession, Memory>
    ensures { IfOk result (IsSessionOf (framework_of framework) solving.now) }
{
    let mut engine = Engine::new(alloc, 1, framework, LOG_LIMIT)?;
    let mut budget = Budget::new(solving.budget as u64);
    let reply = engine.answer(
        alloc,
        &solving.query,
        &mut budget,
        MAX_EXTENSIONS,
        &mut NoTrade,
    );
    Ok(KeptSession { reply, engine })
}

/// The file that a certificate is written to, where one is named.
pub fn certificate_file(
    alloc: Global,
    name: Option<&str>,
    certificate: &Certificate,
) -> Result<Items<Written>, Memory>
    ensures { IfOk result (λ files. map file_text files
        ≡ certificate_files (option_map (λ text. text.now) name.entry) certificate.now) }
{
    let mut files = Items::new(alloc);
    let Some(name) = name else {
        return Ok(files);
    };
    files.push(Written {
        name: String::from_str(alloc, name)?,
        bytes: write_certificate(alloc, certificate)?,
    })?;
    Ok(files)
}

/// The session of the query on the framework in a file, or the status of the run that stops before.
pub fn solve_file<F: Files>(
    alloc: Global,
    files: &mut F,
    solving: &Solving,
    words: &SolveWords<'_>,
) -> Result<KeptSession, Status>
    ensures ok { IfOk result (IsSessionOn (F.holds files.old words.now.file.now) solving.now) }
    ensures err { IfErr result
        (EndsReading (reading F.Files files.old files.new) (input (Role.Framework 1) words.now.file.now)) }
    ensures told { IfErr result (λ end. IsSome (common_text end)) }
    ensures quiet { (IsErrOf result (Status.ReadFault (Role.Framework 1)) → ⊥)
        → F.read_count files.new ≡ F.read_count files.old }
    ensures others { OtherCountsKept (Role.Framework 1) (F.read_count files.old) (F.read_count files.new) }
    ensures same { F.holds files.new ≡ F.holds files.old }
    ensures writes { F.write_count files.new ≡ F.write_count files.old }
{
    let framework = match read_framework(alloc, files, 1, words.file) {
        Ok(framework) => framework,
        Err(status) => return Err(status),
    };
    let session = answer(alloc, framework, solving)?;
    Ok(session)
}
