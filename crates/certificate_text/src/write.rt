//! Writing a certificate.

ghost use Rattle.std.specs.Prelude.{◌≡◌, ◌++◌, ◌∷◌, IfOk, OnOk, Ok};
ghost use Rattle.std.specs.List.{flat_map};
ghost use Rattle.std.specs.String.{string_bytes};
ghost use Rattle.std.specs.Fmt.{decimal as decimal_text};
ghost use Rattle.meaning_atoms.specs.AtomText.{lit_text};
ghost use Rattle.certificate_text.specs.Reading.{ReadsAs};
ghost use Rattle.certificate_text.specs.Written.{IsWritable, certificate_text, refutation_text, step_line};

use certificate_claims::{Certificate, Refutation, Step};
use iccma_tasks::push_sets;
use lists::{Bytes, Memory};
use meaning_atoms::{AtomLit, push_axiom, push_lit};
use std::alloc::Global;
use std::fmt::Write;

// Adds each literal behind a blank.
fn push_literals(text: &mut String, literals: &[AtomLit]) -> Result<(), Memory>
    ensures { OnOk result (string_bytes text.new
        ≡ string_bytes text.old ++ flat_map (λ l. 32 ∷ lit_text l) literals.now) }
{
    for literal in literals {
        text.push(' ')?;
        push_lit(text, literal)?;
    }
    Ok(())
}

// Adds each number behind a blank.
fn push_numbers(text: &mut String, numbers: &[u32]) -> Result<(), Memory>
    ensures { OnOk result (string_bytes text.new
        ≡ string_bytes text.old ++ flat_map (λ n. 32 ∷ decimal_text n) numbers.now) }
{
    for number in numbers {
        write!(text, " {number}")?;
    }
    Ok(())
}

// Adds the line of a step.
fn push_step(text: &mut String, step: &Step) -> Result<(), Memory>
    ensures { OnOk result (string_bytes text.new ≡ string_bytes text.old ++ step_line step.now) }
{
    match step {
        Step::Axiom(axiom) => {
            text.push_str("a ")?;
            push_axiom(text, axiom)?;
        }
        Step::Side(number) => write!(text, "s {number}")?,
        Step::Derived(literals, hints) => {
            text.push('d')?;
            push_literals(text, literals.as_slice())?;
            text.push_str(" 0")?;
            push_numbers(text, hints.as_slice())?;
        }
    }
    text.push('\n')?;
    Ok(())
}

// Adds the lines of a refutation.
fn push_refutation(text: &mut String, refutation: &Refutation) -> Result<(), Memory>
    ensures { OnOk result (string_bytes text.new ≡ string_bytes text.old ++ refutation_text refutation.now) }
{
    text.push_str("r\n")?;
    for step in refutation.steps.as_slice() {
        push_step(text, step)?;
    }
    Ok(())
}

// Adds the lines of all refutations.
fn push_refutations(text: &mut String, refutations: &[Refutation]) -> Result<(), Memory>
    ensures { OnOk result (string_bytes text.new
        ≡ string_bytes text.old ++ flat_map refutation_text refutations.now) }
{
    for refutation in refutations {
        push_refutation(text, refutation)?;
    }
    Ok(())
}

/// The text of a certificate: each line with single blanks and LF behind it, and no line that is skipped. Where the
/// numbers of sets and steps are within their bounds, it reads as the certificate again.
pub fn write_certificate(alloc: Global, certificate: &Certificate) -> Result<Bytes, Memory>
    ensures text { IfOk result (λ text. text ≡ certificate_text certificate.now) }
    ensures reads { IfOk result (λ text. IsWritable certificate.now → ReadsAs text (Ok certificate.now)) }
{
    let mut text = String::new(alloc);
    text.push_str("cert 1\n")?;
    push_sets(&mut text, certificate.sets.as_slice())?;
    push_refutations(&mut text, certificate.refutations.as_slice())?;
    text.push_str("end\n")?;
    Ok(Bytes::from_vec(text.into_bytes()))
}
