//! Writing the text of an answer.

ghost use Rattle.std.specs.Prelude.{◌≡◌, ◌++◌, IfOk, IfSome, OnOk, All};
ghost use Rattle.std.specs.List.{flat_map};
ghost use Rattle.std.specs.List.Sorted.{IsStrictlyIncreasing};
ghost use Rattle.std.specs.String.{string_bytes};
ghost use Rattle.iccma_tasks.specs.WrittenText.{set_line, word_text, text_of, HasRisingSets, IsWritable};
ghost use Rattle.iccma_tasks.specs.AnswerText.{ReadsAs, filled_fields};

use crate::answer::Answer;
use lists::{Bytes, Memory};
use set_lists::NumSet;
use std::alloc::Global;
use std::fmt::Write;

/// Adds the line of a set at the end of a text: `w`, each number in decimal behind one blank, and LF. After
/// `Memory` a part of the line may have been added.
pub fn push_set(text: &mut String, set: &NumSet) -> Result<(), Memory>
    ensures text { OnOk result (string_bytes text.new ≡ string_bytes text.old ++ set_line set.now) }
    ensures rises { OnOk result (IsStrictlyIncreasing set.now) }
{
    text.push('w')?;
    for number in set.as_slice() {
        write!(text, " {number}")?;
    }
    text.push('\n')?;
    Ok(())
}

// Adds a word, and the line of a set where there is one.
fn push_word(text: &mut String, word: &str, set: &Option<NumSet>) -> Result<(), Memory>
    ensures text { OnOk result (string_bytes text.new ≡ string_bytes text.old ++ word_text word.now set.now) }
    ensures rises { OnOk result (IfSome set.now IsStrictlyIncreasing) }
{
    text.push_str(word)?;
    text.push('\n')?;
    match set {
        Some(set) => push_set(text, set),
        None => Ok(()),
    }
}

/// Adds the line of each set, in order. After `Memory` a part of the lines may have been added.
pub fn push_sets(text: &mut String, sets: &[NumSet]) -> Result<(), Memory>
    ensures text { OnOk result (string_bytes text.new ≡ string_bytes text.old ++ flat_map set_line sets.now) }
    ensures rises { OnOk result (All IsStrictlyIncreasing sets.now) }
{
    for set in sets {
        push_set(text, set)?;
    }
    Ok(())
}

// Adds all lines of an answer.
fn push_answer(text: &mut String, answer: &Answer) -> Result<(), Memory>
    ensures text { OnOk result (string_bytes text.new ≡ string_bytes text.old ++ text_of answer.now) }
    ensures rises { OnOk result (HasRisingSets answer.now) }
{
    match answer {
        Answer::Yes(set) => push_word(text, "YES", set),
        Answer::No(set) => push_word(text, "NO", set),
        Answer::Sets(sets) => push_sets(text, sets.as_slice()),
    }
}

/// The text of an answer: `YES` or `NO`, and the line of its set where it has one, or the line of each
/// set in order. The line of a set is `w` and the rising numbers, with one blank before each. Every line
/// ends with LF. Such a text reads as the answer again where the answer has one set at least where it is
/// sets, and has no number but from 1 to `semantics::MAX_ARGUMENT`.
pub fn answer_text(alloc: Global, answer: &Answer) -> Result<Bytes, Memory>
    ensures text { IfOk result (λ text. text ≡ text_of answer.now) }
    ensures reads { IfOk result (λ text. IsWritable answer.now → ReadsAs (filled_fields text) answer.now) }
{
    let mut text = String::new(alloc);
    push_answer(&mut text, answer)?;
    Ok(Bytes::from_vec(text.into_bytes()))
}
