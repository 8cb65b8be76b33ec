//! The certificates of all answers of a run, in one text.

ghost use Rattle.std.specs.Prelude.{◌≡◌, ◌++◌, IfOk, OnOk};
ghost use Rattle.session_replies.specs.Replies.{certificate_part, certificates_in, certificates_of, shown_part};

use crate::reply::{Body, Reply};
use certificate_claims::Certificate;
use certificate_text::write_certificate;
use lists::{Bytes, Items, Memory};
use std::alloc::Global;

/// The certificates of all answers, session by session in the order of the replies. Before each one stands a line
/// `# session S reply K front T`: it shows the answer that reply K of session S gives for the framework after T groups
/// of edits. Sessions and replies are counted from 1.
pub fn certificates_text(alloc: Global, sessions: &[Items<Reply>]) -> Result<Bytes, Memory>
    ensures { IfOk result (λ text. text ≡ certificates_of sessions.now) }
{
    let mut text = Bytes::new(alloc);
    for (index, replies) in sessions.iter().enumerate() {
        push_certificates(alloc, &mut text, index + 1, replies.as_slice())?;
    }
    Ok(text)
}

/// Adds the certificates of a session's answers.
fn push_certificates(
    alloc: Global,
    text: &mut Bytes,
    session: usize,
    replies: &[Reply],
) -> Result<(), Memory>
    ensures { OnOk result (text.new ≡ text.old ++ certificates_in session replies.now) }
{
    for (index, reply) in replies.iter().enumerate() {
        push_shown(alloc, text, session, index + 1, reply)?;
    }
    Ok(())
}

/// Adds the certificate of a reply that is an answer.
fn push_shown(
    alloc: Global,
    text: &mut Bytes,
    session: usize,
    number: usize,
    reply: &Reply,
) -> Result<(), Memory>
    ensures { OnOk result (text.new ≡ text.old ++ shown_part session number reply.now) }
{
    match &reply.body {
        Body::Answered(_, certificate) => {
            push_certificate(alloc, text, session, number, reply.front, certificate)
        }
        _ => Ok(()),
    }
}

/// Adds a certificate, and the line before it that says what it belongs to.
fn push_certificate(
    alloc: Global,
    text: &mut Bytes,
    session: usize,
    number: usize,
    front: u64,
    certificate: &Certificate,
) -> Result<(), Memory>
    ensures { OnOk result (text.new ≡ text.old ++ certificate_part session number front certificate.now) }
{
    let line = format!(in alloc; "# session {session} reply {number} front {front}\n")?;
    text.extend(line.as_bytes())?;
    let lines = write_certificate(alloc, certificate)?;
    text.extend(lines.as_slice())
}
