//! Edits and queries of frameworks as values: what goes with an argument, copies, and the query that no words tell.

use dung_notions::AfPlain;
use edit_rules::{Edit, Framework, QueryFault, apply, query_fits};
use iccma_tasks::{Kind, Problem, Query, Semantics, Task};
use lists::{Items, Memory};
use std::alloc::Global;
use std::test::Fail;

/// 1 and 2 attack each other, and 2 attacks 3.
fn worked(alloc: Global) -> Result<Framework, Memory> {
    let plain = AfPlain::of_lists(alloc, &[1, 2, 3], &[(1, 2), (2, 1), (2, 3)])?;
    Ok(Framework::Af(plain))
}

/// Whether 2 goes, and all attacks with it.
fn drops_attacks(alloc: Global, framework: &mut Framework) -> bool {
    match apply(alloc, framework, &Edit::ArgDrop(2)) {
        Ok(effect) => {
            effect.edit == Edit::ArgDrop(2)
                && effect.dropped.as_slice() == [(1, 2), (2, 1), (2, 3)].as_slice()
        }
        Err(_) => false,
    }
}

#[test]
fn attacks_that_go(rt: HostRuntime) -> Result<(), Fail> {
    let mut framework = worked(rt.alloc())?;
    assert!(rt; drops_attacks(rt.alloc(), &mut framework));
    Ok(())
}

/// Whether the copy of an edit is the same.
fn is_copied(alloc: Global, edit: &Edit) -> Result<bool, Memory> {
    Ok(edit.copy(alloc)? == *edit)
}

#[test]
fn copies(rt: HostRuntime) -> Result<(), Fail> {
    let body = Items::from_vec(vec![in rt.alloc(); 1, 2]?);
    assert!(rt; is_copied(rt.alloc(), &Edit::RuleAdd(3, body))?);
    assert!(rt; is_copied(rt.alloc(), &Edit::ConSet(1, 2))?);
    assert!(rt; is_copied(rt.alloc(), &Edit::ConAdd(1, 2))?);
    assert!(rt; is_copied(rt.alloc(), &Edit::ConDrop(1, 2))?);
    Ok(())
}

/// What is told of a query for all extensions.
fn told_of_all(framework: &Framework, semantics: Semantics) -> Option<Result<(), QueryFault>> {
    let task = Task {
        problem: Problem::AllExtensions,
        semantics,
    };
    Some(query_fits(framework, &Query::new(task, None)?))
}

#[test]
fn queries(rt: HostRuntime) -> Result<(), Fail> {
    let framework = worked(rt.alloc())?.copy(rt.alloc())?;
    assert!(rt; framework.kind() == Kind::Af);
    assert!(rt; told_of_all(&framework, Semantics::Preferred) == Some(Ok(())));
    assert!(rt;
        told_of_all(&framework, Semantics::Grounded) == Some(Err(QueryFault::TaskNotForKind))
    );
    Ok(())
}
