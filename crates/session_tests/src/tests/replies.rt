//! What a session is told, as it is printed, where no row has it.

use certificate_claims::{Certificate, Refutation, Step};
use edit_rules::{Edit, EditFault, Effect};
use iccma_tasks::Answer;
use lists::{Bytes, Items, Memory};
use session_replies::{Body, Reply, certificates_text, session_text};
use std::alloc::Global;
use std::test::Fail;

fn told(front: u64, body: Body) -> Reply {
    Reply { front, body }
}

/// The answer `NO`, with a certificate of one refutation, which has one step.
fn refuted(alloc: Global, front: u64) -> Result<Reply, Memory> {
    let steps = Items::from_vec(vec![in alloc; Step::Side(1)]?);
    let refutations = Items::from_vec(vec![in alloc; Refutation { steps }]?);
    let sets = Items::new(alloc);
    let certificate = Certificate { sets, refutations };
    Ok(told(front, Body::Answered(Answer::No(None), certificate)))
}

/// The certificates of one session that was told this.
fn certificates_of(alloc: Global, reply: Reply) -> Result<Bytes, Memory> {
    let replies = Items::from_vec(vec![in alloc; reply]?);
    certificates_text(alloc, &[replies])
}

/// Each answer's certificate stands behind a line with the session, the number of the reply and the front.
#[test]
fn certificates(rt: HostRuntime) -> Result<(), Fail> {
    let written = certificates_of(rt.alloc(), refuted(rt.alloc(), 7)?)?;
    let text = "# session 1 reply 1 front 7\ncert 1\nr\ns 1\nend\n";
    assert!(rt; written.as_slice() == text.as_bytes());
    Ok(())
}

#[test]
fn one_session(rt: HostRuntime) -> Result<(), Fail> {
    let refused = told(10, Body::EditRefused(0, EditFault::OutOfRange(0)));
    let written = session_text(rt.alloc(), 8, &[refused, told(10, Body::TooMany)])?;
    let text = "session 8\nat 10\nREFUSED OutOfRange 0\nat 10\nLIMIT TooMany\n";
    assert!(rt; written.as_slice() == text.as_bytes());
    Ok(())
}

/// The effect of a rule's coming, with its number.
fn rule_added(alloc: Global, number: u32) -> Effect {
    let mut effect = Effect::of_edit(alloc, Edit::RuleAdd(1, Items::new(alloc)));
    effect.rule = number;
    effect
}

/// A group's refusal tells the place of the edit, and a group that is taken the number of each rule in order.
#[test]
fn groups(rt: HostRuntime) -> Result<(), Fail> {
    let alloc = rt.alloc();
    let refused = told(0, Body::EditRefused(2, EditFault::NotFlat(2)));
    let flat = Effect::of_edit(alloc, Edit::AsmAdd(3, 0));
    let effects = vec![in alloc; rule_added(alloc, 4), flat, rule_added(alloc, 5)]?;
    let taken = told(1, Body::Done(Items::from_vec(effects)));
    let written = session_text(alloc, 1, &[refused, taken])?;
    let text = "session 1\nat 0\nREFUSED NotFlat 2 edit 2\nat 1\nOK rule 4 rule 5\n";
    assert!(rt; written.as_slice() == text.as_bytes());
    Ok(())
}
