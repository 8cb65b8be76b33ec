//! What the words ask for.

ghost use Rattle.std.specs.Prelude.{◌≡◌, ◌≢◌, IfErr, IfOk, IsErr, IsSome, List, None, Some, [], ℕ, codes, map};
ghost use Rattle.std.specs.Prelude.{string_bytes, true};
ghost use Rattle.clap.specs.Words.{first_value, found_of, kind_of, takes};
ghost use Rattle.argue_words.specs.Words.{AreUnknown, RefusesOthers, asked, asked_by, command_app, named};
ghost use Rattle.argue_words.specs.Words.{other_requested};
ghost use Rattle.argue_words.specs.Words.{request_of, requested, solve_app, value_of, words_are_problems};

use crate::options::command_of;
use clap::ArgMatches;
use clap::error::ErrorKind;
use lists::Memory;
use std::alloc::Global;

/// A command that the first word names.
#[derive(Clone, Copy, PartialEq, Eq)]
pub enum CommandName {
    Check,
    Live,
    Bench,
    Names,
    Af,
    Lrat,
    Export,
}

/// What the words ask for.
#[derive(Clone, Copy, PartialEq, Eq)]
pub enum Command<'a> {
    /// No words: the program's name and version.
    Version,
    /// `--problems` alone: the list of tasks.
    Problems,
    /// An answer to a query.
    Solve(SolveWords<'a>),
    /// A check of an answer with its certificate.
    Check(CheckWords<'a>),
    /// A run of a script's sessions.
    Live(LiveWords<'a>),
    /// A run of a large input.
    Bench(BenchWords<'a>),
    /// An answer to a query on a framework whose arguments have names.
    Names(NamesWords<'a>),
    /// The text with numbers of a framework whose arguments have names.
    Af(AfWords<'a>),
    /// A check of a refutation of a CNF.
    Lrat(LratWords<'a>),
    /// The texts of a refutation of a certificate.
    Export(ExportWords<'a>),
    /// Words that clap refuses.
    Unknown,
}

/// The words of a query: the task's name, the name of the framework's file, the number that is asked about and the budget
/// where they are given, and the name of a file for the certificate where one is wanted. Whether there is such a task,
/// whether it wants the number, and whether the budget is one, is for the caller to see.
#[derive(Clone, Copy, PartialEq, Eq)]
pub struct SolveWords<'a> {
    pub task: &'a str,
    pub file: &'a str,
    pub number: Option<&'a str>,
    pub budget: Option<&'a str>,
    pub certificate: Option<&'a str>,
}

/// The words of a check: the task's name, the number that is asked about where one is given, and the names of the files
/// of the framework, the answer and the certificate. Whether there is such a task, and whether it wants the number, is
/// for the caller to see.
#[derive(Clone, Copy, PartialEq, Eq)]
pub struct CheckWords<'a> {
    pub task: &'a str,
    pub number: Option<&'a str>,
    pub file: &'a str,
    pub answer: &'a str,
    pub certificate: &'a str,
}

/// The words of a script's run: the names of the files of the framework and of the script, the budget where one is given,
/// and the name of a file for the certificates where one is wanted. Whether the budget is one is for the caller to see.
#[derive(Clone, Copy, PartialEq, Eq)]
pub struct LiveWords<'a> {
    pub file: &'a str,
    pub script: &'a str,
    pub budget: Option<&'a str>,
    pub certificate: Option<&'a str>,
}

/// The words of a large input's run: how many arguments it has, and a seed. Whether they are numbers, and whether an input
/// may have so many arguments, is for the caller to see.
#[derive(Clone, Copy, PartialEq, Eq)]
pub struct BenchWords<'a> {
    pub arguments: &'a str,
    pub seed: &'a str,
}

/// The words of a query by names: the task's name, the kind and the name of the framework's file, the name of the argument
/// that is asked about and the budget where they are given, and the name of a file for the certificate where one is
/// wanted. Whether there is such a task and such a kind, whether the task wants the argument, and whether the budget is
/// one, is for the caller to see.
#[derive(Clone, Copy, PartialEq, Eq)]
pub struct NamesWords<'a> {
    pub task: &'a str,
    pub kind: &'a str,
    pub file: &'a str,
    pub name: Option<&'a str>,
    pub budget: Option<&'a str>,
    pub certificate: Option<&'a str>,
}

/// The words for a text with numbers: the kind and the name of the file of a framework whose arguments have names. Whether
/// there is such a kind is for the caller to see.
#[derive(Clone, Copy, PartialEq, Eq)]
pub struct AfWords<'a> {
    pub kind: &'a str,
    pub file: &'a str,
}

/// The words for a check of a refutation: the names of the files of a CNF, as DIMACS writes it, and of its refutation, in
/// the format LRAT.
#[derive(Clone, Copy, PartialEq, Eq)]
pub struct LratWords<'a> {
    pub cnf: &'a str,
    pub lrat: &'a str,
}

/// The words for the texts of a refutation of a certificate: those of a check of the certificate, which refutation is
/// meant, and the name that the files of its texts have before their endings. Whether the refutation's words are a
/// number, and whether the certificate has that refutation, is for the caller to see.
#[derive(Clone, Copy, PartialEq, Eq)]
pub struct ExportWords<'a> {
    pub check: CheckWords<'a>,
    pub refutation: &'a str,
    pub output: &'a str,
}

/// Reads the words after the program's name. No words ask for the version, and `--problems` alone for the list of tasks.
/// Else the first word names the command (`CommandName`), or the command is to solve; clap reads the options of its
/// row in `options.rt`, each with one value, in any order. A command comes exactly where clap takes its options, and
/// `Unknown` for all other words, also for those that ask for help. `Memory` is want of memory and no fault of the
/// words; it comes only where there are words.
pub fn read_words<'a>(alloc: Global, words: &'a [String]) -> Result<Command<'a>, Memory>
    ensures request { IfOk result (λ c. request_of c ≡ requested (map string_bytes words.now)) }
    ensures unknown { IfOk result (λ c. c ≡ Command.Unknown → AreUnknown (map string_bytes words.now)) }
    ensures memory { IsErr result → map string_bytes words.now ≢ [] }
{
    let Some((first, rest)) = words.split_first() else {
        return Ok(Command::Version);
    };
    match named(first.as_str()) {
        Some(name) => read_by(alloc, Some(name), rest),
        None => read_other(alloc, words),
    }
}

// The command that a word names.
fn named(word: &str) -> Option<CommandName>
    ensures { result ≡ named word.now }
{
    if word == "check" {
        return Some(CommandName::Check);
    }
    if word == "live" {
        return Some(CommandName::Live);
    }
    if word == "bench" {
        return Some(CommandName::Bench);
    }
    if word == "names" {
        return Some(CommandName::Names);
    }
    if word == "af" {
        return Some(CommandName::Af);
    }
    if word == "lrat" {
        return Some(CommandName::Lrat);
    }
    if word == "export" {
        return Some(CommandName::Export);
    }
    None
}

// Whether the words are `--problems` alone.
fn is_problems(words: &[String]) -> bool
    ensures { result ≡ words_are_problems (map string_bytes words.now) }
{
    words.len() == 1 && words[0].as_str() == "--problems"
}

// What words that name no command ask for.
fn read_other<'a>(alloc: Global, words: &'a [String]) -> Result<Command<'a>, Memory>
    ensures request { IfOk result (λ c. request_of c ≡ other_requested (map string_bytes words.now)) }
    ensures unknown { IfOk result (λ c. c ≡ Command.Unknown → RefusesOthers (map string_bytes words.now)) }
{
    let listed = is_problems(words);
    if listed {
        return Ok(Command::Problems);
    }
    read_by(alloc, None, words)
}

// What the words behind a command's name ask for, or those of a query, which has no name.
fn read_by<'a>(
    alloc: Global,
    name: Option<CommandName>,
    words: &'a [String],
) -> Result<Command<'a>, Memory>
    ensures request { IfOk result (λ c. request_of c ≡ asked_by name (map string_bytes words.now)) }
    ensures unknown { IfOk result (λ c. c ≡ Command.Unknown → name ≡ None
        → takes solve_app (map string_bytes words.now) ≢ true) }
{
    match matches_by(alloc, name, words) {
        Ok(matches) => Ok(asked_of(name, &matches)),
        Err(error) => refusal(&error),
    }
}

// What clap matches on the words of a command.
fn matches_by<'a>(
    alloc: Global,
    name: Option<CommandName>,
    words: &'a [String],
) -> Result<ArgMatches<'a>, clap::Error>
    ensures taken { IfOk result (λ _. takes (command_app name) (map string_bytes words.now) ≡ true) }
    ensures values { IfOk result (λ m. (id : List ℕ)
        → first_value (found_of m) id ≡ value_of name (map string_bytes words.now) id) }
    ensures given { IfOk result (λ m. name ≡ None → IsSome (first_value (found_of m) (codes "task"))
        × IsSome (first_value (found_of m) (codes "file"))) }
    ensures refused { IfErr result (λ e. takes (command_app name) (map string_bytes words.now) ≡ true
        → kind_of e ≡ ErrorKind.OutOfMemory) }
{
    let command = command_of(alloc, name)?;
    command.try_get_matches_from(words)
}

// What a command's words ask for that clap takes.
fn asked_of<'a>(name: Option<CommandName>, matches: &ArgMatches<'a>) -> Command<'a>
    ensures { request_of result ≡ asked name (first_value (found_of matches.now)) }
{
    match name {
        None => solve_of(matches),
        Some(CommandName::Check) => check_of(matches),
        Some(CommandName::Live) => live_of(matches),
        Some(CommandName::Bench) => bench_of(matches),
        Some(CommandName::Names) => names_of(matches),
        Some(CommandName::Af) => af_of(matches),
        Some(CommandName::Lrat) => lrat_of(matches),
        Some(CommandName::Export) => export_of(matches),
    }
}

// The check of words that clap takes.
fn check_of<'a>(matches: &ArgMatches<'a>) -> Command<'a>
    ensures { request_of result ≡ asked (Some CommandName.Check) (first_value (found_of matches.now)) }
{
    let Some(task) = matches.get_str("task") else {
        return Command::Unknown;
    };
    let number = matches.get_str("number");
    let Some(file) = matches.get_str("file") else {
        return Command::Unknown;
    };
    let Some(answer) = matches.get_str("answer") else {
        return Command::Unknown;
    };
    let Some(certificate) = matches.get_str("certificate") else {
        return Command::Unknown;
    };
    Command::Check(CheckWords {
        task,
        number,
        file,
        answer,
        certificate,
    })
}

// The script's run of words that clap takes.
fn live_of<'a>(matches: &ArgMatches<'a>) -> Command<'a>
    ensures { request_of result ≡ asked (Some CommandName.Live) (first_value (found_of matches.now)) }
{
    let Some(file) = matches.get_str("file") else {
        return Command::Unknown;
    };
    let Some(script) = matches.get_str("script") else {
        return Command::Unknown;
    };
    let budget = matches.get_str("budget");
    let certificate = matches.get_str("certificate");
    Command::Live(LiveWords {
        file,
        script,
        budget,
        certificate,
    })
}

// The large input's run of words that clap takes.
fn bench_of<'a>(matches: &ArgMatches<'a>) -> Command<'a>
    ensures { request_of result ≡ asked (Some CommandName.Bench) (first_value (found_of matches.now)) }
{
    let Some(arguments) = matches.get_str("arguments") else {
        return Command::Unknown;
    };
    let Some(seed) = matches.get_str("seed") else {
        return Command::Unknown;
    };
    Command::Bench(BenchWords { arguments, seed })
}

// The query by names of words that clap takes.
fn names_of<'a>(matches: &ArgMatches<'a>) -> Command<'a>
    ensures { request_of result ≡ asked (Some CommandName.Names) (first_value (found_of matches.now)) }
{
    let Some(task) = matches.get_str("task") else {
        return Command::Unknown;
    };
    let Some(kind) = matches.get_str("kind") else {
        return Command::Unknown;
    };
    let Some(file) = matches.get_str("file") else {
        return Command::Unknown;
    };
    let name = matches.get_str("name");
    let units = matches.get_str("budget");
    let certificate = matches.get_str("certificate");
    Command::Names(NamesWords {
        task,
        kind,
        file,
        name,
        budget: units,
        certificate,
    })
}

// The text with numbers of words that clap takes.
fn af_of<'a>(matches: &ArgMatches<'a>) -> Command<'a>
    ensures { request_of result ≡ asked (Some CommandName.Af) (first_value (found_of matches.now)) }
{
    let Some(kind) = matches.get_str("kind") else {
        return Command::Unknown;
    };
    let Some(file) = matches.get_str("file") else {
        return Command::Unknown;
    };
    Command::Af(AfWords { kind, file })
}

// The check of a refutation of words that clap takes.
fn lrat_of<'a>(matches: &ArgMatches<'a>) -> Command<'a>
    ensures { request_of result ≡ asked (Some CommandName.Lrat) (first_value (found_of matches.now)) }
{
    let Some(cnf) = matches.get_str("cnf") else {
        return Command::Unknown;
    };
    let Some(lrat) = matches.get_str("lrat") else {
        return Command::Unknown;
    };
    Command::Lrat(LratWords { cnf, lrat })
}

// The texts of a refutation, of words that clap takes.
fn export_of<'a>(matches: &ArgMatches<'a>) -> Command<'a>
    ensures { request_of result ≡ asked (Some CommandName.Export) (first_value (found_of matches.now)) }
{
    let Some(task) = matches.get_str("task") else {
        return Command::Unknown;
    };
    let number = matches.get_str("number");
    let Some(file) = matches.get_str("file") else {
        return Command::Unknown;
    };
    let Some(answer) = matches.get_str("answer") else {
        return Command::Unknown;
    };
    let Some(certificate) = matches.get_str("certificate") else {
        return Command::Unknown;
    };
    let Some(refutation) = matches.get_str("refutation") else {
        return Command::Unknown;
    };
    let Some(output) = matches.get_str("output") else {
        return Command::Unknown;
    };
    let check = CheckWords {
        task,
        number,
        file,
        answer,
        certificate,
    };
    Command::Export(ExportWords {
        check,
        refutation,
        output,
    })
}

// The query of words that clap takes.
fn solve_of<'a>(matches: &ArgMatches<'a>) -> Command<'a>
    ensures { request_of result ≡ asked None (first_value (found_of matches.now)) }
{
    let Some(task) = matches.get_str("task") else {
        return Command::Unknown;
    };
    let Some(file) = matches.get_str("file") else {
        return Command::Unknown;
    };
    Command::Solve(SolveWords {
        task,
        file,
        number: matches.get_str("number"),
        budget: matches.get_str("budget"),
        certificate: matches.get_str("certificate"),
    })
}

// Why clap gave no matches: want of memory, or words that it refuses.
fn refusal<'a>(error: &clap::Error) -> Result<Command<'a>, Memory>
    ensures memory { IsErr result → kind_of error.now ≡ ErrorKind.OutOfMemory }
    ensures unknown { IfOk result (λ c. (c ≡ Command.Unknown)
        × (kind_of error.now ≢ ErrorKind.OutOfMemory)) }
{
    match error.kind() {
        ErrorKind::OutOfMemory => Err(Memory),
        _ => Ok(Command::Unknown),
    }
}
