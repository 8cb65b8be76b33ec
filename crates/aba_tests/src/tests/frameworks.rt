//! A framework with rules as one of either kind: its copy, and the query that no words tell.

use crate::tests::aba_text::framework_of;
use edit_rules::{Framework, QueryFault, query_fits};
use iccma_tasks::{Kind, Problem, Query, Semantics, Task};
use std::alloc::Global;
use std::test::Fail;

fn framework(alloc: Global) -> Option<Framework> {
    let plain = framework_of(alloc, "p aba 4\na 1\na 2\nc 1 3\nc 2 4\nr 3 2\nr 4 1\n")?;
    Framework::Aba(plain).copy(alloc).ok()
}

/// What is told of a query for all extensions.
fn told_of_all(framework: &Framework, semantics: Semantics) -> Option<Result<(), QueryFault>> {
    let task = Task {
        problem: Problem::AllExtensions,
        semantics,
    };
    Some(query_fits(framework, &Query::new(task, None)?))
}

#[test]
fn queries(rt: HostRuntime) -> Result<(), Fail> {
    let Some(framework) = framework(rt.alloc()) else {
        assert!(rt; false, "not made");
        return Ok(());
    };
    assert!(rt; framework.kind() == Kind::Aba);
    assert!(rt; told_of_all(&framework, Semantics::Complete) == Some(Ok(())));
    assert!(rt;
        told_of_all(&framework, Semantics::Grounded) == Some(Err(QueryFault::TaskNotForKind))
    );
    Ok(())
}
