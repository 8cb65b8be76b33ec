//! The options of the commands, and the command lines as clap takes them.

ghost use Rattle.std.specs.Prelude.{◌≡◌, IfOk, false, map};
ghost use Rattle.clap.specs.Words.{app_of, rule_of, with_rule};
ghost use Rattle.argue_words.specs.Words.{bare_app, command_app, option_of, options_of};

use crate::words::CommandName;
use clap::{Arg, ArgAction, Command};
use std::alloc::{AllocError, Global};

/// An option of one value: its id, its letter, and whether it is needed.
type Row = (&'static str, char, bool);

const SOLVE: &[Row] = &[
    ("task", 'p', true),
    ("file", 'f', true),
    ("number", 'a', false),
    ("budget", 'b', false),
    ("certificate", 'c', false),
];

const CHECK: &[Row] = &[
    ("task", 'p', true),
    ("file", 'f', true),
    ("answer", 'r', true),
    ("certificate", 'c', true),
    ("number", 'a', false),
];

const LIVE: &[Row] = &[
    ("file", 'f', true),
    ("script", 's', true),
    ("budget", 'b', false),
    ("certificate", 'c', false),
];

const BENCH: &[Row] = &[("arguments", 'n', true), ("seed", 'x', true)];

const NAMES: &[Row] = &[
    ("task", 'p', true),
    ("file", 'f', true),
    ("kind", 'k', true),
    ("name", 'a', false),
    ("budget", 'b', false),
    ("certificate", 'c', false),
];

const AF: &[Row] = &[("file", 'f', true), ("kind", 'k', true)];

const LRAT: &[Row] = &[("cnf", 'd', true), ("lrat", 'l', true)];

const EXPORT: &[Row] = &[
    ("task", 'p', true),
    ("file", 'f', true),
    ("answer", 'r', true),
    ("certificate", 'c', true),
    ("number", 'a', false),
    ("refutation", 'i', true),
    ("output", 'o', true),
];

/// The options of a command, or of a query, which has no name.
#[tactic(auto, unfolding(crate::specs::Words::options_of))]
fn rows_of(name: Option<CommandName>) -> &'static [Row]
    ensures { map (λ row. option_of row.0.now row.1 row.2) result.now ≡ options_of name }
{
    match name {
        None => SOLVE,
        Some(CommandName::Check) => CHECK,
        Some(CommandName::Live) => LIVE,
        Some(CommandName::Bench) => BENCH,
        Some(CommandName::Names) => NAMES,
        Some(CommandName::Af) => AF,
        Some(CommandName::Lrat) => LRAT,
        Some(CommandName::Export) => EXPORT,
    }
}

/// An option of one value, written `-s VALUE`.
fn value_arg<'a>(alloc: Global, id: &'static str, short: char, required: bool) -> Arg<'a>
    ensures rule { rule_of result ≡ option_of id.entry.now short required }
    ensures local { result.global ≡ false }
{
    Arg::new(alloc, id)
        .short(short)
        .action(ArgAction::Set)
        .required(required)
}

fn with_arg<'a>(command: Command<'a>, arg: Arg<'a>) -> Result<Command<'a>, AllocError>
    requires { arg.global ≡ false }
    ensures { IfOk result (λ c. app_of c ≡ with_rule (app_of command.entry) (rule_of arg.entry)) }
{
    command.arg(arg)
}

fn bare_command<'a>(alloc: Global) -> Command<'a>
    ensures { app_of result ≡ bare_app }
{
    Command::new(alloc, "argue").no_binary_name(true)
}

/// The command of a name, or that of a query, whose words begin after the name.
pub(crate) fn command_of<'a>(
    alloc: Global,
    name: Option<CommandName>,
) -> Result<Command<'a>, AllocError>
    ensures { IfOk result (λ c. app_of c ≡ command_app name) }
{
    let rows = rows_of(name);
    let mut command = bare_command(alloc);
    for row in rows {
        command = with_arg(command, value_arg(alloc, row.0, row.1, row.2))?;
    }
    Ok(command)
}
