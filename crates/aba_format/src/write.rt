//! Writing a framework.

ghost use Rattle.std.specs.Prelude.{◌≡◌, ◌++◌, ◌<◌, ◌≤◌, ◌∷◌, [], IfOk, OnOk, length, map};
ghost use Rattle.std.specs.List.{flat_map};
ghost use Rattle.std.specs.String.{string_bytes};
ghost use Rattle.semantics.specs.AbaFrameworks.{IsNumberedAba};
ghost use Rattle.aba_notions.specs.Solid.{IsSolid};
ghost use Rattle.aba_format.specs.AbaText.{ReadsAs, says_rule};
ghost use Rattle.aba_format.specs.Written.{aba_text, assumption_line, contrary_line, rule_line, said_line};

use crate::said::MAX_CONTRARY_LINES;
use aba_notions::AbaPlain;
use lists::{Bytes, Memory};
use std::alloc::Global;
use std::fmt::Write;

/// The text of a framework whose rules are numbered from 1 without a gap ([`AbaPlain::is_solid`] is the test): the
/// header, a line for each assumption, for each contrary by assumption and then by contrary, and for each rule, each in
/// rising order. Where it has at most `MAX_INPUT` bytes and 10,000,000 contraries, [`read_aba`](crate::read_aba) reads
/// it as the same framework. `Memory` says that an allocation was refused. No command writes a framework: the law that
/// it reads back, and tests, call this.
pub fn write_aba(alloc: Global, framework: &AbaPlain) -> Result<Bytes, Memory>
    requires { IsSolid framework.now }
    ensures text { IfOk result (λ text. text ≡ aba_text framework.now) }
    ensures back { length framework.now.contraries ≤ MAX_CONTRARY_LINES
        → IfOk result (λ text. ReadsAs text framework.now) }
{
    let text = text_of(alloc, framework)?;
    Ok(Bytes::from_vec(text.into_bytes()))
}

// The same text, as a string.
fn text_of(alloc: Global, framework: &AbaPlain) -> Result<String, Memory>
    requires { IsSolid framework.now }
    ensures text { IfOk result (λ text. string_bytes text ≡ aba_text framework.now) }
    ensures form { IsNumberedAba framework.now }
{
    let count = framework.atoms();
    let mut text = format!(in alloc; "p aba {count}\n")?;
    push_assumptions(&mut text, framework.assumptions().as_slice())?;
    push_contraries(&mut text, framework.contraries())?;
    push_rules(&mut text, framework)?;
    Ok(text)
}

// Adds the line of each assumption.
fn push_assumptions(text: &mut String, assumptions: &[u32]) -> Result<(), Memory>
    ensures { OnOk result (string_bytes text.new
        ≡ string_bytes text.old ++ flat_map assumption_line assumptions.now) }
{
    for assumption in assumptions {
        push_assumption(text, *assumption)?;
    }
    Ok(())
}

// Adds the line of an assumption.
fn push_assumption(text: &mut String, assumption: u32) -> Result<(), Memory>
    ensures { OnOk result (string_bytes text.new ≡ string_bytes text.old ++ assumption_line assumption) }
{
    write!(text, "a {assumption}\n")?;
    Ok(())
}

// Adds the line of each pair of an assumption and a contrary of it.
fn push_contraries(text: &mut String, pairs: &[(u32, u32)]) -> Result<(), Memory>
    ensures { OnOk result (string_bytes text.new ≡ string_bytes text.old ++ flat_map contrary_line pairs.now) }
{
    for pair in pairs {
        push_contrary(text, *pair)?;
    }
    Ok(())
}

// Adds the line of an assumption and a contrary of it.
fn push_contrary(text: &mut String, pair: (u32, u32)) -> Result<(), Memory>
    ensures { OnOk result (string_bytes text.new ≡ string_bytes text.old ++ contrary_line pair) }
{
    let (assumption, contrary) = pair;
    write!(text, "c {assumption} {contrary}\n")?;
    Ok(())
}

// Adds the line of each rule.
fn push_rules(text: &mut String, framework: &AbaPlain) -> Result<(), Memory>
    requires { IsSolid framework.now }
    ensures { OnOk result (string_bytes text.new
        ≡ string_bytes text.old ++ flat_map rule_line framework.now.rules) }
{
    for (index, head) in framework.rule_heads().iter().enumerate() {
        push_rule(text, *head, framework.body_of(index as u32))?;
    }
    Ok(())
}

// Adds the line of a rule, whose body stands in the pairs' second numbers.
fn push_rule(text: &mut String, head: u32, body: &[(u32, u32)]) -> Result<(), Memory>
    ensures { OnOk result (string_bytes text.new
        ≡ string_bytes text.old ++ said_line (says_rule head (map (λ p. p.1) body.now))) }
{
    write!(text, "r {head}")?;
    for (_, atom) in body {
        write!(text, " {atom}")?;
    }
    text.push('\n')?;
    Ok(())
}
