//! Reading a certificate.

ghost use Rattle.std.specs.Prelude.{◌≡◌, ◌↔◌, ◌≤◌, [], ◌∷◌, codes, length, map, IfOk, IfErr, IsTrue};
ghost use Rattle.num_text.specs.Cuts.{field_texts};
ghost use Rattle.num_text.specs.declared.limit.TheConstants.{MAX_INPUT};
ghost use Rattle.iccma_tasks.specs.AnswerText.{behind_first};
ghost use Rattle.certificate_text.specs.declared.draft.Draft.TheVariants.{Nothing};
ghost use Rattle.certificate_text.specs.declared.word.Word.TheVariants.{Set as SetWord};
ghost use Rattle.certificate_text.specs.Lines.{FaultsAt, LeadsBy, LeadsFromSets, LeadsFromSteps, LeadsTo, Stands};
ghost use Rattle.certificate_text.specs.Lines.{StandsBehindSets, StandsBehindSteps, StandsBy, first_word};
ghost use Rattle.certificate_text.specs.Reading.{Ends, IsRead, end_of};

use crate::draft::Draft;
use crate::fault::{CertCause, CertFault};
use crate::step::{Room, fault, is_done, step_of};
use crate::word::{Word, word_of};
use certificate_claims::{Certificate, Refutation, Step};
use iccma_tasks::{AnswerCause, AnswerFault, set_of};
use lists::Items;
use num_text::{Fields, Line, fields, line_count, lines, next_kept};
use set_lists::NumSet;
use std::alloc::Global;

// The word of the first field, which is taken off.
fn next_word(rest: &mut Fields<'_>) -> Word
    ensures word { result ≡ first_word (map (λ f. f.text) rest.old) }
    ensures left { map (λ f. f.text) rest.new ≡ behind_first (map (λ f. f.text) rest.old) }
{
    match rest.next() {
        Some(field) => word_of(field.text),
        None => Word::Other,
    }
}

// The draft behind the header.
fn behind_nothing(
    alloc: Global,
    line: usize,
    word: Word,
    rest: Fields<'_>,
) -> Result<Draft, CertFault>
    ensures after { IfOk result (LeadsBy Nothing word (map (λ f. f.text) rest.entry)) }
    ensures fault { IfErr result (FaultsAt line (StandsBy Nothing word (map (λ f. f.text) rest.entry))) }
{
    match word {
        Word::Header => {
            if is_version(rest) {
                Ok(Draft::SetsRead(Items::new(alloc)))
            } else {
                Err(fault(line, CertCause::NoHeader))
            }
        }
        Word::Set
        | Word::Refutation
        | Word::Axiom
        | Word::Side
        | Word::Derived
        | Word::End
        | Word::Other => Err(fault(line, CertCause::NoHeader)),
    }
}

fn is_version(mut rest: Fields<'_>) -> bool
    ensures { IsTrue result ↔ (map (λ f. f.text) rest.entry ≡ codes "1" ∷ []) }
{
    let Some(field) = rest.next() else {
        return false;
    };
    if field.text != b"1".as_slice() {
        return false;
    }
    rest.next().is_none()
}

// The sets, and one more.
fn with_set(
    alloc: Global,
    line: usize,
    mut sets: Items<NumSet>,
    rest: Fields<'_>,
) -> Result<Draft, CertFault>
    ensures after { IfOk result (LeadsFromSets sets SetWord (map (λ f. f.text) rest.entry)) }
    ensures fault { IfErr result (FaultsAt line (StandsBehindSets SetWord (map (λ f. f.text) rest.entry))) }
{
    match set_of(alloc, line, rest) {
        Ok(set) => {
            sets.push(set)?;
            Ok(Draft::SetsRead(sets))
        }
        Err(
            AnswerFault::At {
                line: _,
                cause: AnswerCause::NotRising,
            },
        ) => Err(fault(line, CertCause::NotRising)),
        Err(AnswerFault::At { line: _, cause: _ }) => Err(fault(line, CertCause::BadNumber)),
        Err(AnswerFault::Memory) => Err(CertFault::Memory),
    }
}

// The draft behind sets and one line more.
fn behind_sets(
    alloc: Global,
    line: usize,
    sets: Items<NumSet>,
    word: Word,
    rest: Fields<'_>,
) -> Result<Draft, CertFault>
    ensures after { IfOk result (LeadsFromSets sets word (map (λ f. f.text) rest.entry)) }
    ensures fault { IfErr result (FaultsAt line (StandsBehindSets word (map (λ f. f.text) rest.entry))) }
{
    match word {
        Word::Set => with_set(alloc, line, sets, rest),
        Word::Refutation => {
            if is_done(rest) {
                Ok(Draft::StepsRead(sets, Items::new(alloc), Items::new(alloc)))
            } else {
                Err(fault(line, CertCause::BadLine))
            }
        }
        Word::End => {
            if is_done(rest) {
                let refutations = Items::new(alloc);
                Ok(Draft::AllRead(Certificate { sets, refutations }))
            } else {
                Err(fault(line, CertCause::BadLine))
            }
        }
        Word::Header | Word::Axiom | Word::Side | Word::Derived | Word::Other => {
            Err(fault(line, CertCause::BadLine))
        }
    }
}

// The draft behind steps and one line more.
fn behind_steps(
    alloc: Global,
    line: usize,
    draft: (Items<NumSet>, Items<Refutation>, Items<Step>),
    word: Word,
    rest: Fields<'_>,
    room: &mut Room,
) -> Result<Draft, CertFault>
    ensures after { IfOk result (LeadsFromSteps draft.0 draft.1 draft.2 word (map (λ f. f.text) rest.entry)) }
    ensures fault { IfErr result (FaultsAt line (StandsBehindSteps word (map (λ f. f.text) rest.entry))) }
{
    let (sets, mut whole, mut steps) = draft;
    match word {
        Word::Refutation => {
            if !is_done(rest) {
                return Err(fault(line, CertCause::BadLine));
            }
            whole.push(Refutation { steps })?;
            Ok(Draft::StepsRead(sets, whole, Items::new(alloc)))
        }
        Word::End => {
            if !is_done(rest) {
                return Err(fault(line, CertCause::BadLine));
            }
            whole.push(Refutation { steps })?;
            let refutations = whole;
            Ok(Draft::AllRead(Certificate { sets, refutations }))
        }
        Word::Header | Word::Set | Word::Axiom | Word::Side | Word::Derived | Word::Other => {
            let step = step_of(alloc, line, word, rest, room)?;
            steps.push(step)?;
            Ok(Draft::StepsRead(sets, whole, steps))
        }
    }
}

// The draft that goes on by a line.
fn with_line(
    alloc: Global,
    draft: Draft,
    line: &Line<'_>,
    room: &mut Room,
) -> Result<Draft, CertFault>
    ensures after { IfOk result (LeadsTo draft (field_texts line.now.text.now)) }
    ensures fault { IfErr result (FaultsAt line.now.number (Stands draft (field_texts line.now.text.now))) }
{
    let mut rest = fields(line);
    let word = next_word(&mut rest);
    match draft {
        Draft::Nothing => behind_nothing(alloc, line.number, word, rest),
        Draft::SetsRead(sets) => behind_sets(alloc, line.number, sets, word, rest),
        Draft::StepsRead(sets, whole, steps) => {
            behind_steps(alloc, line.number, (sets, whole, steps), word, rest, room)
        }
        Draft::AllRead(_) => Err(fault(line.number, CertCause::AfterEnd)),
    }
}

// The certificate, where all of it was read.
fn finish(draft: Draft, bytes: &[u8]) -> Result<Certificate, CertFault>
    requires { length bytes.now ≤ MAX_INPUT }
    ensures { Ends draft (end_of bytes.now) result }
{
    match draft {
        Draft::Nothing => Err(fault(line_count(bytes) + 1, CertCause::NoHeader)),
        Draft::SetsRead(_) | Draft::StepsRead(_, _, _) => {
            Err(fault(line_count(bytes) + 1, CertCause::NoEnd))
        }
        Draft::AllRead(certificate) => Ok(certificate),
    }
}

/// Reads the text of a certificate.
///
/// `At` tells the first line at which a cause stands, and of the causes that stand there the first in the order of
/// `CertCause`. `Memory` is want of memory, and says nothing of the text.
pub fn read_certificate(alloc: Global, bytes: &[u8]) -> Result<Certificate, CertFault>
    requires { length bytes.now ≤ MAX_INPUT }
    ensures read { IsRead bytes.now result }
{
    let mut left = lines(bytes);
    let mut draft = Draft::Nothing;
    let mut room = Room::new(alloc);
    while let Some(line) = next_kept(&mut left) {
        draft = match with_line(alloc, draft, &line, &mut room) {
            Ok(after) => after,
            Err(fault) => return Err(fault),
        };
    }
    finish(draft, bytes)
}
