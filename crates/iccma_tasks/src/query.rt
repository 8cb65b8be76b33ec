//! Queries: a task, and the number that it asks about where it asks about one.

ghost use Rattle.std.specs.Prelude.{◌≡◌, ◌↔◌, IfSome, IsNone};
ghost use Rattle.iccma_tasks.specs.Tasks.{Asked, FitsTask};

use crate::task::{Problem, Task};
use std::marker::Model;

/// A task, with a number exactly where the task asks about one.
#[derive(Drop)]
pub struct Query {
    task: Task,
    number: Option<u32>,
}

impl Model for Query {
    ghost use Rattle.iccma_tasks.specs.Tasks.{Asked, FitsTask};

    ghost Value = { Asked };

    ghost view = { λ q. record { task = q.task; number = q.number } };

    ghost invariant = { λ q. FitsTask q.task.problem q.number };
}

impl Query {
    /// The query of a task and a number. `None` exactly where the task is a `DC` or a `DS` and there is
    /// no number, or it is an `SE` or an `EE` and there is one.
    pub fn new(task: Task, number: Option<u32>) -> Option<Query>
        ensures value { IfSome result (λ query. query ≡ record { task = task; number = number }) }
        ensures none { IsNone result ↔ ¬ FitsTask task.problem number }
    {
        match (task.problem, number) {
            (Problem::Credulous | Problem::Sceptical, Some(_))
            | (Problem::SomeExtension | Problem::AllExtensions, None) => {
                Some(Query { task, number })
            }
            _ => None,
        }
    }

    /// The task.
    pub fn task(&self) -> Task
        ensures { result ≡ self.now.task }
    {
        self.task
    }

    /// The number that is asked about, where there is one.
    pub fn number(&self) -> Option<u32>
        ensures number { result ≡ self.now.number }
        ensures fits { FitsTask self.now.task.problem self.now.number }
    {
        self.number
    }
}
