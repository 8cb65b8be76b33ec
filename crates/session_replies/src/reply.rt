//! What a session is told of one line of its script.

ghost use Rattle.std.specs.Prelude.{◌≡◌, ◌++◌, IfOk, OnOk};
ghost use Rattle.std.specs.String.{string_bytes};
ghost use Rattle.std.specs.List.{flat_map};
ghost use Rattle.iccma_tasks.specs.WrittenText.{text_of};
ghost use Rattle.session_replies.specs.Replies.{body_text, edit_refusal_line, front_line, place_words, refusal_line};
ghost use Rattle.session_replies.specs.Replies.{refusal_words, reply_text, rule_told, rule_words, taken_line};

use crate::edit_faults::{edit_fault_name, edit_fault_number};
use certificate_claims::Certificate;
use edit_rules::{Edit, EditFault, Effect, QueryFault};
use iccma_tasks::{Answer, answer_text};
use lists::{Bytes, Items, Memory};
use std::alloc::Global;

/// What a session is told of one line of its script.
#[derive(Drop)]
pub struct Reply {
    /// The number of entries of the history that the reply is made from. A group of edits that is taken counts itself.
    pub front: u64,
    /// What is told.
    pub body: Body,
}

/// What a reply says of edits or a query.
pub enum Body {
    /// The group of edits is taken, and did this, edit by edit.
    Done(Items<Effect>),
    /// The framework refuses an edit: its place in the group, counted from 1, or 0 for an edit that is written without
    /// a group; and why.
    EditRefused(u64, EditFault),
    /// The group isn't taken, since the history would have more edits than it may have.
    Full,
    /// The answer to the query, and the certificate that shows it.
    Answered(Answer, Certificate),
    /// The query doesn't fit the framework.
    QueryRefused(QueryFault),
    /// The query's budget was spent, on so many new clauses, and a further one was in hand.
    Unknown(u64),
    /// There are more extensions than may be listed.
    TooMany,
    /// The session's log had no room for a step.
    LogFull,
}

// By hand, so that a drop is one call (docs/PROVING.md).
impl Drop for Body {
    fn drop(self) {
        match self {
            Body::Done(_)
            | Body::EditRefused(_, _)
            | Body::Full
            | Body::Answered(_, _)
            | Body::QueryRefused(_)
            | Body::Unknown(_)
            | Body::TooMany
            | Body::LogFull => {}
        }
    }
}

/// Adds the lines of a reply. After `Memory` a part of them may have been added.
pub(crate) fn push_reply(alloc: Global, text: &mut Bytes, reply: &Reply) -> Result<(), Memory>
    ensures { OnOk result (text.new ≡ text.old ++ reply_text reply.now) }
{
    push_front(alloc, text, reply.front)?;
    push_body(alloc, text, &reply.body)
}

/// Adds the line that tells a front.
fn push_front(alloc: Global, text: &mut Bytes, front: u64) -> Result<(), Memory>
    ensures { OnOk result (text.new ≡ text.old ++ front_line front) }
{
    let line = format!(in alloc; "at {front}\n")?;
    text.extend(line.as_bytes())
}

/// Adds the lines of what a reply says.
fn push_body(alloc: Global, text: &mut Bytes, body: &Body) -> Result<(), Memory>
    ensures { OnOk result (text.new ≡ text.old ++ body_text body.now) }
{
    match body {
        Body::Done(effects) => push_taken(alloc, text, effects.as_slice()),
        Body::EditRefused(place, fault) => push_edit_refusal(alloc, text, *place, *fault),
        Body::Full => text.extend(b"LIMIT HistoryFull\n"),
        Body::Answered(answer, _) => push_answer(alloc, text, answer),
        Body::QueryRefused(fault) => push_refusal(alloc, text, fault.name(), fault.number()),
        Body::Unknown(_) => text.extend(b"UNKNOWN\n"),
        Body::TooMany => text.extend(b"LIMIT TooMany\n"),
        Body::LogFull => text.extend(b"LIMIT LogFull\n"),
    }
}

/// Adds the line of edits that are taken, with the numbers of the rules that they added.
fn push_taken(alloc: Global, text: &mut Bytes, effects: &[Effect]) -> Result<(), Memory>
    ensures { OnOk result (text.new ≡ text.old ++ taken_line effects.now) }
{
    text.extend(b"OK")?;
    push_rules(alloc, text, effects)?;
    text.extend(b"\n")
}

/// Adds the numbers of the rules that edits added.
fn push_rules(alloc: Global, text: &mut Bytes, effects: &[Effect]) -> Result<(), Memory>
    ensures { OnOk result (text.new ≡ text.old ++ flat_map rule_told effects.now) }
{
    for effect in effects {
        push_rule(alloc, text, &effect.edit, effect.rule)?;
    }
    Ok(())
}

/// Adds the number of a rule, if the edit added one.
fn push_rule(alloc: Global, text: &mut Bytes, edit: &Edit, rule: u32) -> Result<(), Memory>
    ensures { OnOk result (text.new ≡ text.old ++ rule_words edit.now rule) }
{
    match edit {
        Edit::RuleAdd(_, _) => {
            let words = format!(in alloc; " rule {rule}")?;
            text.extend(words.as_bytes())
        }
        _ => Ok(()),
    }
}

/// Adds the line of an edit that is refused, with its place in a group.
fn push_edit_refusal(
    alloc: Global,
    text: &mut Bytes,
    place: u64,
    fault: EditFault,
) -> Result<(), Memory>
    ensures { OnOk result (text.new ≡ text.old ++ edit_refusal_line place fault) }
{
    let words = refusal(alloc, edit_fault_name(fault), edit_fault_number(fault))?;
    text.extend(words.as_bytes())?;
    push_place(alloc, text, place)?;
    text.extend(b"\n")
}

/// Adds the place of an edit in a group.
fn push_place(alloc: Global, text: &mut Bytes, place: u64) -> Result<(), Memory>
    ensures { OnOk result (text.new ≡ text.old ++ place_words place) }
{
    if place == 0 {
        return Ok(());
    }
    let words = format!(in alloc; " edit {place}")?;
    text.extend(words.as_bytes())
}

/// Adds the line of a refusal: the fault's name, and its number where it carries one.
fn push_refusal(
    alloc: Global,
    text: &mut Bytes,
    name: &str,
    number: Option<u32>,
) -> Result<(), Memory>
    ensures { OnOk result (text.new ≡ text.old ++ refusal_line name.now number) }
{
    let words = refusal(alloc, name, number)?;
    text.extend(words.as_bytes())?;
    text.extend(b"\n")
}

/// The words of a refusal.
fn refusal(alloc: Global, name: &str, number: Option<u32>) -> Result<String, Memory>
    ensures { IfOk result (λ words. string_bytes words ≡ refusal_words name.now number) }
{
    match number {
        None => Ok(format!(in alloc; "REFUSED {name}")?),
        Some(number) => Ok(format!(in alloc; "REFUSED {name} {number}")?),
    }
}

/// Adds the lines of an answer.
fn push_answer(alloc: Global, text: &mut Bytes, answer: &Answer) -> Result<(), Memory>
    ensures { OnOk result (text.new ≡ text.old ++ text_of answer.now) }
{
    let lines = answer_text(alloc, answer)?;
    text.extend(lines.as_slice())
}
