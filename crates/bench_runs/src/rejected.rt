//! The check of the certificates of all answers.

ghost use Rattle.std.specs.Prelude.{◌≡◌, ◌∷◌, ℕ, ◌<◌, ◌≤◌, ◌^◌, List, All, IfOk, OnOk, length, map};
ghost use Rattle.std.specs.List.{sum_by};
ghost use Rattle.semantics.specs.Frameworks.{Framework as AnyFramework};
ghost use Rattle.edit_rules.specs.Kinds.{framework_of};
ghost use Rattle.edit_history.specs.Entries.{entries_in};
ghost use Rattle.script_text.specs.declared.script.ScriptLine.{ScriptLine as ALine};
ghost use Rattle.bench_runs.specs.Served.{FrontsRise};
ghost use Rattle.bench_runs.specs.Summaries.{AreRejected, AreRejections, IsRejection, rejections};
ghost use Rattle.bench_runs.specs.Checking.{IsCheckedTo, MayCheck};

use crate::replay::lead;
use crate::sorted::SortedLines;
use certificate_check::check;
use certificate_claims::Verdict;
use edit_history::Change;
use edit_rules::Framework;
use lists::{Items, Memory};
use script_text::{MAX_SESSIONS, ScriptCommand, ScriptLine};
use session_replies::{Body, Reply};
use std::alloc::Global;

/// One for a certificate that is rejected.
fn rejection(verdict: Verdict) -> usize
    ensures value { result ≡ rejections verdict }
    ensures one { result ≤ 1 }
{
    match verdict {
        Verdict::Accepted => 0,
        Verdict::Rejected(_, _, _) => 1,
    }
}

/// How many certificates of a reply are rejected on a framework.
fn check_reply(
    alloc: Global,
    framework: &Framework,
    command: &ScriptCommand,
    body: &Body,
) -> Result<usize, Memory>
    ensures is { IfOk result (IsRejection (framework_of framework.now) command.now body.now) }
    ensures one { IfOk result (λ count. count ≤ 1) }
{
    match (command, body) {
        (ScriptCommand::Ask(query), Body::Answered(answer, certificate)) => Ok(rejection(check(
            alloc,
            framework,
            query,
            answer,
            certificate,
        )?)),
        _ => Ok(0),
    }
}

/// A session whose replies are checked one by one: the framework at the front so far, how many replies are checked, and
/// how many certificates were rejected.
#[derive(Drop)]
struct Checking {
    framework: Framework,
    front: usize,
    checked: usize,
    rejected: usize,
}

impl Checking {
    /// Checks the reply to a line.
    fn take_line(
        &mut self,
        alloc: Global,
        history: &[Change],
        line: &ScriptLine,
        replies: &[Reply],
    ) -> Result<(), Memory>
        requires { MayCheck history.now replies.now self.old.front self.old.checked self.old.rejected }
        ensures { (f : AnyFramework) → (lines : List ALine) → (left : List ALine)
            → IsCheckedTo f history.now lines replies.now (line.now ∷ left)
            (framework_of self.old.framework) self.old.front self.old.checked self.old.rejected
            → OnOk result (IsCheckedTo f history.now lines replies.now left
            (framework_of self.new.framework) self.new.front self.new.checked self.new.rejected) }
    {
        let Some(reply) = replies.get(self.checked) else {
            return Ok(());
        };
        let front = reply.front as usize;
        lead(alloc, &mut self.framework, history, self.front, front)?;
        self.front = front;
        let count = check_reply(alloc, &self.framework, &line.command, &reply.body)?;
        self.checked += 1;
        self.rejected += count;
        Ok(())
    }
}

/// How many certificates of the replies to these lines are rejected, each on the framework behind the entries up to its
/// front.
fn rejected_of(
    alloc: Global,
    opening: &Framework,
    history: &[Change],
    lines: &[&ScriptLine],
    replies: &[Reply],
) -> Result<usize, Memory>
    requires { FrontsRise 0 replies.now (length history.now) }
    ensures counted { IfOk result (AreRejections (framework_of opening.now) (entries_in history.now)
        (map (λ line. line.now) lines.now) replies.now) }
    ensures few { IfOk result (λ count. count ≤ length replies.now) }
{
    let mut checking = Checking {
        framework: opening.copy(alloc)?,
        front: 0,
        checked: 0,
        rejected: 0,
    };
    for line in lines {
        checking.take_line(alloc, history, *line, replies)?;
    }
    Ok(checking.rejected)
}

/// How many certificates of all sessions' replies are rejected.
pub(crate) fn rejected_in(
    alloc: Global,
    opening: &Framework,
    history: &[Change],
    lines: &SortedLines<'_>,
    sessions: &[Items<Reply>],
) -> Result<usize, Memory>
    requires rise { All (λ replies. FrontsRise 0 replies (length history.now)) sessions.now }
    requires few { length sessions.now ≤ MAX_SESSIONS }
    requires short { sum_by length sessions.now < 2 ^ 32 }
    ensures { IfOk result (AreRejected (framework_of opening.now) (entries_in history.now) lines.now 1 sessions.now) }
{
    let mut session = 1;
    let mut total = 0;
    for replies in sessions {
        let own = lines.own(session);
        total += rejected_of(alloc, opening, history, own, replies.as_slice())?;
        session += 1;
    }
    Ok(total)
}
