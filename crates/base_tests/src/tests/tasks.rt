//! Names of tasks, and the kind of a text that the readers of both kinds refuse alike.

use iccma_tasks::{Kind, Problem, Semantics, Task, TaskFault, kind_of};
use std::test::Fail;

#[test]
fn names(rt: HostRuntime) {
    let task = Task {
        problem: Problem::Sceptical,
        semantics: Semantics::Stable,
    };
    assert!(rt; Task::read(b"DS-ST") == Ok(task));
    assert!(rt; task.name() == b"DS-ST".as_slice());
    assert!(rt; Task::read(b"DC-XX") == Err(TaskFault::UnknownTask));
    assert!(rt; TaskFault::UnknownTask.name() == "UnknownTask");
}

#[test]
fn kinds_of_tasks(rt: HostRuntime) {
    let task = Task {
        problem: Problem::AllExtensions,
        semantics: Semantics::SemiStable,
    };
    assert!(rt; task.is_for(Kind::Af) && !task.is_for(Kind::Aba));
}

/// Texts of the abstract kind.
const ABSTRACT: &[&str] = &[
    "x\np aba 1",
    "",
    "#\n\n",
    "p",
    "paba 1",
    "p abaf 1",
    "P aba 1",
    "p ABA 1",
    "aba p 1",
];

#[test]
fn kinds(rt: HostRuntime) -> Result<(), Fail> {
    assert!(rt; kind_of(b"p aba 2\na 1\n") == Kind::Aba);
    for text in ABSTRACT {
        assert!(rt; kind_of(text.as_bytes()) == Kind::Af, "of {text}");
    }
    Ok(())
}
