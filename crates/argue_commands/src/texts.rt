//! The texts that a run writes.

ghost use Rattle.std.specs.Prelude.{◌≡◌, ◌++◌, IfOk, IsErr, IsSome, Some, codes};
ghost use Rattle.std.specs.String.{string_bytes};
ghost use Rattle.edit_rules.specs.Fitting.{fault_name, fault_number};
ghost use Rattle.argue_commands.specs.Texts.{IsRefusal, cause_text, common_text, failure_line, failure_text, limit_text};
ghost use Rattle.argue_commands.specs.Texts.{query_line, refusal_text, rejection_text, role_text, text_bytes};

use crate::ended::{FaultCause, Limit, Refusal, Rejection, Status};
use argue_outside::Role;
use certificate_claims::Cause as Failure;
use edit_rules::QueryFault;
use lists::{Bytes, Memory};
use std::alloc::{AllocError, Global};

/// A text to be written. A fixed one takes no memory.
#[derive(Drop)]
pub enum Text {
    Fixed(&'static str),
    Made(String),
    Answer(Bytes),
}

impl Text {
    /// Its bytes.
    pub fn as_bytes(&self) -> &[u8]
        ensures { result.now ≡ text_bytes self.now }
    {
        match self {
            Text::Fixed(text) => text.as_bytes(),
            Text::Made(text) => text.as_bytes(),
            Text::Answer(bytes) => bytes.as_slice(),
        }
    }
}

/// The name of a role, as faults tell it.
fn role_name(role: Role) -> &'static str
    ensures { result.now ≡ role_text role }
{
    match role {
        Role::Framework(_) => "framework",
        Role::Script => "script",
        Role::Answer => "answer",
        Role::Certificate => "certificate",
        Role::List => "list",
        Role::Cnf => "cnf",
        Role::Lrat => "lrat",
    }
}

/// The name of the cause of a fault.
fn cause_name(cause: FaultCause) -> &'static str
    ensures { result.now ≡ cause_text cause }
{
    match cause {
        FaultCause::Framework(cause) => cause.name(),
        FaultCause::Script(cause) => cause.name(),
        FaultCause::Answer(cause) => cause.name(),
        FaultCause::Certificate(cause) => cause.name(),
        FaultCause::Name(cause) => cause.name(),
        FaultCause::Cnf(cause) => cause.name(),
        FaultCause::Lrat(cause) => cause.name(),
    }
}

/// The name of a check's failure.
fn failure_name(failure: Failure) -> &'static str
    ensures { result.now ≡ failure_text failure }
{
    match failure {
        Failure::AnswerShape => "AnswerShape",
        Failure::BadWitness => "BadWitness",
        Failure::SetCount => "SetCount",
        Failure::BadSet => "BadSet",
        Failure::RefutationCount => "RefutationCount",
        Failure::BadStep => "BadStep",
        Failure::OpenLiteral => "OpenLiteral",
    }
}

/// The line that tells a read fault in this role, its end included.
fn read_line(role: Role) -> &'static str
    ensures { result.now ≡ codes "error: read " ++ role_text role ++ codes "\n" }
{
    match role {
        Role::Framework(_) => "error: read framework\n",
        Role::Script => "error: read script\n",
        Role::Answer => "error: read answer\n",
        Role::Certificate => "error: read certificate\n",
        Role::List => "error: read list\n",
        Role::Cnf => "error: read cnf\n",
        Role::Lrat => "error: read lrat\n",
    }
}

/// The line that tells which bound was met, its end included.
fn limit_line(limit: Limit) -> &'static str
    ensures { result.now ≡ limit_text limit }
{
    match limit {
        Limit::Input => "error: limit input\n",
        Limit::Extensions => "error: limit extensions\n",
        Limit::Log => "error: limit log\n",
    }
}

/// The line that tells a query's fault, its end included.
fn query_fault_line(alloc: Global, fault: QueryFault) -> Result<String, Memory>
    ensures { IfOk result (λ text. string_bytes text ≡ query_line (fault_name fault) (fault_number fault)) }
{
    let name = fault.name();
    match fault.number() {
        None => Ok(format!(in alloc; "error: query {name}\n")?),
        Some(number) => Ok(format!(in alloc; "error: query {name} {number}\n")?),
    }
}

/// The line that tells a refusal, its end included: `error:`, the role, the number of the faulty line and
/// the name of the cause, or the fault of the query.
fn refusal_line(alloc: Global, refusal: Refusal) -> Result<String, Memory>
    ensures { IfOk result (λ text. string_bytes text ≡ refusal_text refusal) }
{
    match refusal {
        Refusal::Line(role, line, cause) => {
            let role = role_name(role);
            let cause = cause_name(cause);
            Ok(format!(in alloc; "error: {role} line {line} {cause}\n")?)
        }
        Refusal::Query(fault) => query_fault_line(alloc, fault),
        Refusal::UnknownName => Ok(String::from_str(alloc, "error: query UnknownName\n")?),
        Refusal::NoRefutation(number) => {
            Ok(format!(in alloc; "error: query NoRefutation {number}\n")?)
        }
    }
}

/// The line that tells that a certificate isn't accepted, its end included.
fn failure_line(
    alloc: Global,
    failure: Failure,
    refutation: usize,
    step: usize,
) -> Result<String, Memory>
    ensures { IfOk result (λ text. string_bytes text ≡ failure_line failure refutation step) }
{
    let name = failure_name(failure);
    Ok(format!(in alloc; "REJECTED {name} {refutation} {step}\n")?)
}

/// The line that tells a rejection, its end included.
fn rejection_line(alloc: Global, rejection: Rejection) -> Result<String, Memory>
    ensures { IfOk result (λ text. string_bytes text ≡ rejection_text rejection) }
{
    match rejection {
        Rejection::Certificate(failure, refutation, step) => {
            failure_line(alloc, failure, refutation, step)
        }
        Rejection::Step(id) => Ok(format!(in alloc; "REJECTED STEP {id}\n")?),
        Rejection::NoEmptyClause => Ok(String::from_str(alloc, "REJECTED NoEmptyClause\n")?),
    }
}

/// The text of a status that has one of its own. Memory is taken for a refusal and a rejection alone.
pub fn status_text(alloc: Global, status: Status) -> Result<Text, Memory>
    ensures memory { IsErr result → IsRefusal status }
    ensures text { IsSome (common_text status) → IfOk result (λ text. Some (text_bytes text) ≡ common_text status) }
{
    match status {
        Status::Usage => Ok(Text::Fixed("error: usage\n")),
        Status::InputRefused(refusal) => Ok(Text::Made(refusal_line(alloc, refusal)?)),
        Status::Rejected(rejection) => Ok(Text::Made(rejection_line(alloc, rejection)?)),
        Status::ReadFault(role) => Ok(Text::Fixed(read_line(role))),
        Status::Unknown => Ok(Text::Fixed("UNKNOWN\n")),
        Status::Limit(limit) => Ok(Text::Fixed(limit_line(limit))),
        Status::Done | Status::WriteFault | Status::WantOfMemory => Ok(Text::Fixed("")),
    }
}
