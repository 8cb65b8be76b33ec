//! The queries of words.

ghost use Rattle.std.specs.Prelude.{◌≡◌};
ghost use Rattle.std.specs.Option.{option_map};
ghost use Rattle.argue_words.specs.Words.{solve_texts};
ghost use Rattle.iccma_tasks.specs.Tasks.{all_tasks};
ghost use Rattle.argue_commands.specs.Queries.{asked_by, asked_with, budget_of, first_named, number_of, solving_by};

use argue_words::SolveWords;
use hinted_log::MAX_STEPS;
use iccma_tasks::{Query, Task};
use num_text::decimal;

/// The units of a budget where none is given.
pub const DEFAULT_BUDGET: u32 = 1_000_000;

/// How many steps the log of a search has at most.
pub const LOG_LIMIT: u64 = MAX_STEPS;

/// A query to be solved, and the budget of units for its answer.
#[derive(Drop)]
pub struct Solving {
    pub query: Query,
    pub budget: u32,
}

/// The task of a name.
pub fn task_named(name: &str) -> Option<Task>
    ensures { result ≡ first_named all_tasks name.now }
{
    match Task::read(name.as_bytes()) {
        Ok(task) => Some(task),
        Err(_fault) => None,
    }
}

/// The number that a text spells.
pub fn number_in(text: &str) -> Option<u32>
    ensures { result ≡ number_of text.now }
{
    decimal(text.as_bytes())
}

// The query of a task and a number, where the task wants what is given.
fn asked_with(task: Task, number: Option<u32>) -> Option<Query>
    ensures { result ≡ asked_with task number }
{
    Query::new(task, number)
}

/// The query that a task's name and the text of a number ask. `None` where there is no such task, the text is no
/// number, or the task wants a number and there is none, or wants none and there is one.
#[tactic(auto, unfolding(crate::specs::Queries::asked_by))]
pub fn query_of<'a>(task: &'a str, number: Option<&'a str>) -> Option<Query>
    ensures { result ≡ asked_by task.entry.now (option_map (λ text. text.now) number.entry) }
{
    let task = task_named(task)?;
    let Some(text) = number else {
        return asked_with(task, None);
    };
    let number = number_in(text)?;
    asked_with(task, Some(number))
}

/// The budget that a text spells, or the one where no text is given. `None` where the text is no number.
pub fn budget_in(text: Option<&str>) -> Option<u32>
    ensures { result ≡ budget_of (option_map (λ text. text.now) text.entry) }
{
    match text {
        None => Some(DEFAULT_BUDGET),
        Some(text) => number_in(text),
    }
}

/// The query of a query's words, with its budget. `None` where there is no such task, a text is no number, or the
/// task wants a number and there is none, or wants none and there is one.
#[tactic(auto, unfolding(crate::specs::Queries::solving_by))]
pub fn solving_of(words: &SolveWords<'_>) -> Option<Solving>
    ensures { result ≡ solving_by (solve_texts words.now) }
{
    let query = query_of(words.task, words.number)?;
    let budget = budget_in(words.budget)?;
    Some(Solving { query, budget })
}
