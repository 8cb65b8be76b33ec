//! The queries by names that words ask.

ghost use Rattle.std.specs.Prelude.{◌≡◌, IfSome, true};
ghost use Rattle.std.specs.Option.{option_map};
ghost use Rattle.argue_words.specs.Words.{names_texts};
ghost use Rattle.named_commands.specs.Namings.{fits_name, format_named, naming_by};

use apx_tgf::NameFormat;
use argue_commands::query::{budget_in, task_named};
use argue_words::NamesWords;
use iccma_tasks::{Problem, Task};

/// A query by names to be solved, beside the name that it asks about: the format of the framework's text, the task, and
/// the budget of units for its answer.
#[derive(Clone, Copy)]
pub struct Naming {
    pub format: NameFormat,
    pub task: Task,
    pub budget: u32,
}

/// The format of a name, `apx` or `tgf`.
pub fn format_named(name: &str) -> Option<NameFormat>
    ensures { result ≡ format_named name.now }
{
    if name == "apx" {
        return Some(NameFormat::Apx);
    }
    if name == "tgf" {
        return Some(NameFormat::Tgf);
    }
    None
}

// Whether the problem asks about an argument where one is given, and about none where none is.
fn fits_name(problem: Problem, name: Option<&str>) -> bool
    ensures { result ≡ fits_name problem (option_map (λ text. text.now) name.entry) }
{
    match (problem, name) {
        (Problem::Credulous | Problem::Sceptical, Some(_)) => true,
        (Problem::SomeExtension | Problem::AllExtensions, None) => true,
        _ => false,
    }
}

/// The query by names of its words. `None` where there is no such task or format, the budget is no number, or the task
/// wants a name and there is none, or wants none and there is one.
#[tactic(auto, unfolding(crate::specs::Namings::naming_by))]
pub fn naming_of(words: &NamesWords<'_>) -> Option<Naming>
    ensures is { result ≡ naming_by (names_texts words.now) }
    ensures fits { IfSome result (λ naming. fits_name naming.task.problem (names_texts words.now).name ≡ true) }
{
    let format = format_named(words.kind)?;
    let task = task_named(words.task)?;
    let budget = budget_in(words.budget)?;
    let fits = fits_name(task.problem, words.name);
    if !fits {
        return None;
    }
    Some(Naming {
        format,
        task,
        budget,
    })
}
