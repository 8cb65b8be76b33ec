//! The facts of an APX text.

ghost use Rattle.std.specs.Prelude.{◌≡◌, ◌∷◌, ◌++◌, [], ℕ, List, IfSome, IfNone, codes};
ghost use Rattle.apx_tgf.specs.Names.{IsName};
ghost use Rattle.apx_tgf.specs.Facts.{BeginWithFact, BeginWithNoFact};
ghost use Rattle.apx_tgf.specs.Views.{fact_of};

use crate::token::{Tokens, is_name_token};

/// A fact as it is read.
#[derive(Clone, Copy)]
pub enum ReadFact<'a> {
    /// `arg(a).`
    Argument(&'a [u8]),
    /// `att(a,b).`, attacker and target.
    Attack(&'a [u8], &'a [u8]),
}

/// The fact that begins with this token. The tokens behind it are left, or some of them where there is no such fact.
pub(crate) fn fact_from<'a>(first: &[u8], tokens: &mut Tokens<'a>) -> Option<ReadFact<'a>>
    ensures some { IfSome result (λ fact. BeginWithFact (first.now ∷ tokens.old) (fact_of fact) tokens.new) }
    ensures none { IfNone result (BeginWithNoFact (first.now ∷ tokens.old)) }
{
    if first == "arg".as_bytes() {
        return argument_from(tokens);
    }
    if first == "att".as_bytes() {
        return attack_from(tokens);
    }
    None
}

// The argument of `(a).`.
fn argument_from<'a>(tokens: &mut Tokens<'a>) -> Option<ReadFact<'a>>
    ensures some { IfSome result (λ fact. BeginWithFact (codes "arg" ∷ tokens.old) (fact_of fact) tokens.new) }
    ensures none { IfNone result (BeginWithNoFact (codes "arg" ∷ tokens.old)) }
{
    take(tokens, "(".as_bytes())?;
    let name = take_name(tokens)?;
    take(tokens, ")".as_bytes())?;
    take(tokens, ".".as_bytes())?;
    Some(ReadFact::Argument(name))
}

// The attack of `(a,b).`.
fn attack_from<'a>(tokens: &mut Tokens<'a>) -> Option<ReadFact<'a>>
    ensures some { IfSome result (λ fact. BeginWithFact (codes "att" ∷ tokens.old) (fact_of fact) tokens.new) }
    ensures none { IfNone result (BeginWithNoFact (codes "att" ∷ tokens.old)) }
{
    take(tokens, "(".as_bytes())?;
    let attacker = take_name(tokens)?;
    take(tokens, ",".as_bytes())?;
    let target = take_name(tokens)?;
    take(tokens, ")".as_bytes())?;
    take(tokens, ".".as_bytes())?;
    Some(ReadFact::Attack(attacker, target))
}

// Takes the next token, which has to be this one.
#[inline(always)]
fn take<'a>(tokens: &mut Tokens<'a>, token: &[u8]) -> Option<()>
    ensures some { IfSome result (λ _. tokens.old ≡ token.now ∷ tokens.new) }
    ensures none { IfNone result ((more : List (List ℕ)) → ¬ (tokens.old ≡ token.now ∷ more)) }
{
    let next = tokens.next()?;
    if next != token {
        return None;
    }
    Some(())
}

// Takes the next token, which has to be a name.
#[inline(always)]
fn take_name<'a>(tokens: &mut Tokens<'a>) -> Option<&'a [u8]>
    ensures some { IfSome result (λ name. tokens.old ≡ name.now ∷ tokens.new) }
    ensures name { IfSome result (λ name. IsName name.now) }
    ensures none { IfNone result ((name : List ℕ) → (more : List (List ℕ)) → tokens.old ≡ name ∷ more → ¬ IsName name) }
{
    let next = tokens.next()?;
    if !is_name_token(next) {
        return None;
    }
    Some(next)
}
