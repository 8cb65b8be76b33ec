//! What is counted of a transcript, but for the certificates.

ghost use Rattle.std.specs.Prelude.{◌≡◌, ◌<◌, ◌^◌, IfOk, count_by, length};
ghost use Rattle.semantics.specs.Framework.{Af};
ghost use Rattle.semantics.specs.Frameworks.{af};
ghost use Rattle.edit_rules.specs.Kinds.{framework_of};
ghost use Rattle.edit_history.specs.Entries.{entries_in, framework_after};
ghost use Rattle.bench_runs.specs.Summaries.{IsGroundedSize, is_told_query as is_query, queries_told};

use crate::replay::lead;
use edit_history::Change;
use edit_rules::Framework;
use lists::{Items, Memory};
use session_replies::{Body, Reply};
use std::alloc::Global;

/// Whether a reply is one to a query.
fn is_told_query(reply: &Reply) -> bool
    ensures { result ≡ is_query reply.now.body }
{
    match &reply.body {
        Body::Done(_) | Body::EditRefused(_, _) | Body::Full => false,
        _ => true,
    }
}

/// How many replies to queries there are among these.
fn queries_in(replies: &[Reply]) -> usize
    ensures { result ≡ count_by (λ reply. is_query reply.body) replies.now }
{
    replies.iter().filter(|reply| is_told_query(reply)).count()
}

/// How many replies to queries the sessions got.
pub(crate) fn queries_of(sessions: &[Items<Reply>]) -> usize
    requires { queries_told sessions.now < 2 ^ 32 }
    ensures { result ≡ queries_told sessions.now }
{
    let mut total = 0;
    for replies in sessions {
        total += queries_in(replies.as_slice());
    }
    total
}

/// How many arguments and attacks an abstract framework has.
pub(crate) fn sizes(framework: &Framework) -> (usize, usize)
    ensures arguments { (f : Af) → framework_of framework.now ≡ af f → result.0 ≡ length f.live }
    ensures attacks { (f : Af) → framework_of framework.now ≡ af f → result.1 ≡ length f.attacks }
{
    match framework {
        Framework::Af(plain) => (plain.live().len(), plain.attack_count()),
        Framework::Aba(_) => (0, 0),
    }
}

/// How many members a framework's grounded set has.
fn grounded_size(alloc: Global, framework: &Framework) -> Result<usize, Memory>
    ensures { IfOk result (IsGroundedSize (framework_of framework.now)) }
{
    match framework {
        Framework::Af(plain) => Ok(plain.grounded(alloc)?.set.len()),
        Framework::Aba(plain) => Ok(plain.grounded(alloc)?.len()),
    }
}

/// How many members the grounded set has of the framework behind a whole history.
pub(crate) fn last_grounded(
    alloc: Global,
    opening: &Framework,
    history: &[Change],
) -> Result<usize, Memory>
    ensures { IfOk result (IsGroundedSize
        (framework_after (framework_of opening.now) (entries_in history.now))) }
{
    let mut framework = opening.copy(alloc)?;
    lead(alloc, &mut framework, history, 0, history.len())?;
    grounded_size(alloc, &framework)
}
