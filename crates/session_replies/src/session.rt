//! The text of a session's replies, and the transcript of all sessions.

ghost use Rattle.std.specs.Prelude.{◌≡◌, ◌++◌, IfOk, OnOk};
ghost use Rattle.std.specs.List.{flat_map};
ghost use Rattle.session_replies.specs.Replies.{numbered, reply_text, session_of, transcript_of};

use crate::history::history_text;
use crate::reply::{Reply, push_reply};
use edit_history::Change;
use lists::{Bytes, Items, Memory};
use std::alloc::Global;

/// The text of a session: the line `session S`, and its replies in order. A reply is the line `at FRONT`, and the
/// lines of what is told. Every line ends with LF. Only tests call it: the transcript is written session by session
/// into one text.
pub fn session_text(alloc: Global, number: u32, replies: &[Reply]) -> Result<Bytes, Memory>
    ensures { IfOk result (λ text. text ≡ session_of number replies.now) }
{
    let mut text = Bytes::new(alloc);
    push_session(alloc, &mut text, number as usize, replies)?;
    Ok(text)
}

/// The transcript of a run: the text of each session, numbered from 1, and then the history's.
pub fn transcript_text(
    alloc: Global,
    sessions: &[Items<Reply>],
    history: &[Change],
) -> Result<Bytes, Memory>
    ensures { IfOk result (λ text. text ≡ transcript_of sessions.now history.now) }
{
    let mut text = Bytes::new(alloc);
    push_sessions(alloc, &mut text, sessions)?;
    let end = history_text(alloc, history)?;
    text.extend(end.as_slice())?;
    Ok(text)
}

/// Adds the text of each session, numbered from 1.
fn push_sessions(alloc: Global, text: &mut Bytes, sessions: &[Items<Reply>]) -> Result<(), Memory>
    ensures { OnOk result (text.new ≡ text.old ++ numbered session_of 1 sessions.now) }
{
    for (index, replies) in sessions.iter().enumerate() {
        push_session(alloc, text, index + 1, replies.as_slice())?;
    }
    Ok(())
}

/// Adds the text of the session of a number.
fn push_session(
    alloc: Global,
    text: &mut Bytes,
    number: usize,
    replies: &[Reply],
) -> Result<(), Memory>
    ensures { OnOk result (text.new ≡ text.old ++ session_of number replies.now) }
{
    let line = format!(in alloc; "session {number}\n")?;
    text.extend(line.as_bytes())?;
    push_replies(alloc, text, replies)
}

/// Adds the lines of replies, in order.
fn push_replies(alloc: Global, text: &mut Bytes, replies: &[Reply]) -> Result<(), Memory>
    ensures { OnOk result (text.new ≡ text.old ++ flat_map reply_text replies.now) }
{
    for reply in replies {
        push_reply(alloc, text, reply)?;
    }
    Ok(())
}
