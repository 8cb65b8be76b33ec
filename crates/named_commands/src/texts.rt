//! Writing an answer by the names of arguments.

ghost use Rattle.std.specs.Prelude.{◌≡◌, ◌∷◌, ◌++◌, IfOk, OnOk};
ghost use Rattle.std.specs.List.{flat_map};
ghost use Rattle.named_commands.specs.NamedTexts.{name_at, named_answer, named_line, named_reply, named_word};

use apx_tgf::Names;
use argue_commands::{AnswerStop, Answered};
use iccma_tasks::Answer;
use lists::{Bytes, Memory};
use set_lists::NumSet;
use std::alloc::Global;

// The name with a number, or no bytes where no argument has it.
fn name_with<'a>(names: &Names<'a>, number: u32) -> &'a [u8]
    ensures { result.now ≡ name_at names.now number }
{
    let number = number as usize;
    if number == 0 {
        return "".as_bytes();
    }
    if number > names.len() {
        return "".as_bytes();
    }
    names.name_of(number)
}

// Adds the name of a number behind a blank.
fn push_name(text: &mut Bytes, names: &Names<'_>, number: u32) -> Result<(), Memory>
    ensures { OnOk result (text.new ≡ text.old ++ (32 ∷ name_at names.now number)) }
{
    text.extend(" ".as_bytes())?;
    text.extend(name_with(names, number))
}

// Adds the line of a set.
fn push_set(text: &mut Bytes, names: &Names<'_>, set: &NumSet) -> Result<(), Memory>
    ensures { OnOk result (text.new ≡ text.old ++ named_line names.now set.now) }
{
    text.extend("w".as_bytes())?;
    for number in set.as_slice() {
        push_name(text, names, *number)?;
    }
    text.extend("\n".as_bytes())
}

// Adds a word, and the line of a set where there is one.
fn push_word(
    text: &mut Bytes,
    names: &Names<'_>,
    word: &str,
    set: &Option<NumSet>,
) -> Result<(), Memory>
    ensures { OnOk result (text.new ≡ text.old ++ named_word names.now word.now set.now) }
{
    text.extend(word.as_bytes())?;
    text.extend("\n".as_bytes())?;
    match set {
        Some(set) => push_set(text, names, set),
        None => Ok(()),
    }
}

// Adds the line of each set, in order.
fn push_sets(text: &mut Bytes, names: &Names<'_>, sets: &[NumSet]) -> Result<(), Memory>
    ensures { OnOk result (text.new ≡ text.old ++ flat_map (named_line names.now) sets.now) }
{
    for set in sets {
        push_set(text, names, set)?;
    }
    Ok(())
}

// Adds all lines of an answer.
fn push_answer(text: &mut Bytes, names: &Names<'_>, answer: &Answer) -> Result<(), Memory>
    ensures { OnOk result (text.new ≡ text.old ++ named_answer names.now answer.now) }
{
    match answer {
        Answer::Yes(set) => push_word(text, names, "YES", set),
        Answer::No(set) => push_word(text, names, "NO", set),
        Answer::Sets(sets) => push_sets(text, names, sets.as_slice()),
    }
}

/// The text of the answer of a reply by the names of arguments, or no bytes where the reply has no answer.
pub(crate) fn reply_text(
    alloc: Global,
    names: &Names<'_>,
    reply: &Result<Answered, AnswerStop>,
) -> Result<Bytes, Memory>
    ensures { IfOk result (λ text. text ≡ named_reply names.now reply.now) }
{
    let mut text = Bytes::new(alloc);
    match reply {
        Ok(reply) => push_answer(&mut text, names, &reply.answer)?,
        Err(_stop) => {}
    }
    Ok(text)
}
