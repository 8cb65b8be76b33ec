//! Lists of frameworks: the names of their files, one on each line that isn't skipped.

ghost use Rattle.std.specs.Prelude.{◌≡◌, ℕ, ◌+◌, ◌<◌, ◌≤◌, List, map, IfOk, IfErr, IfSome, IfNone, OnOk, length};
ghost use Rattle.std.specs.String.{string_bytes};
ghost use Rattle.num_text.specs.Lines.{kept};
ghost use Rattle.num_text.specs.Views.{line_text};
ghost use Rattle.script_text.specs.Lists.{IsList, IsListFaultless, IsListToldOf, IsNameLine, list_cause_name};
ghost use Rattle.script_text.specs.ListSteps.{AreNames, BreaksList, StopsList};

use crate::arguments::next_text;
use crate::read::number_behind;
use lists::{Items, Memory};
use num_text::{Line, Lines, fields, lines, next_kept};
use std::alloc::Global;
use std::str::from_utf8;
use thiserror::Error;

/// The most frameworks that a list may have.
pub const MAX_FRAMEWORKS: u32 = 16;

/// What is wrong with a list. Where several causes stand on one line, the first of these is told.
#[derive(Clone, Copy, Debug, PartialEq, Eq)]
pub enum ListCause {
    /// The list has no name. It is told at the number of lines plus one.
    Empty,
    /// The line is not exactly one field, or the field is no UTF-8.
    BadLine,
    /// A name more than a list may have.
    TooMany,
}

impl ListCause {
    /// The name of the cause, as it is printed.
    pub fn name(self) -> &'static str
        ensures { result.now ≡ list_cause_name self }
    {
        match self {
            ListCause::Empty => "Empty",
            ListCause::BadLine => "BadLine",
            ListCause::TooMany => "TooMany",
        }
    }
}

/// Why a text gave no list.
#[derive(Clone, Copy, Debug, PartialEq, Eq, Error)]
pub enum ListFault {
    /// The line of that number, counted from 1, is wrong.
    #[error("line {line} {}", .cause.name())]
    At {
        /// The line's number.
        line: usize,
        /// What is wrong with it.
        cause: ListCause,
    },
    /// An allocation was refused, which says nothing of the text.
    #[error("Memory")]
    Memory,
}

impl From<Memory> for ListFault {
    ghost use Rattle.script_text.specs.declared.list.ListFault.TheVariants.{Memory as want};

    ghost from_gives = { λ _ fault. fault ≡ want };

    fn from(_memory: Memory) -> ListFault {
        ListFault::Memory
    }
}

/// The names that the bytes list, in order.
///
/// `At` tells the first line at which a cause stands, and of the causes that stand there the first in the order of
/// [`ListCause`]. `Memory` says that an allocation was refused.
pub fn read_list(alloc: Global, bytes: &[u8]) -> Result<Items<String>, ListFault>
    ensures list { IfOk result (λ names. IsList bytes.now (map string_bytes names)) }
    ensures no_other { IfOk result (λ names.
        (other : List (List ℕ)) → IsList bytes.now other → other ≡ map string_bytes names) }
    ensures faultless { IfOk result (λ _. IsListFaultless bytes.now) }
    ensures fault { IfErr result (IsListToldOf bytes.now) }
{
    let names = read_names(alloc, lines(bytes))?;
    if names.is_empty() {
        return Err(ListFault::At {
            line: number_behind(bytes),
            cause: ListCause::Empty,
        });
    }
    Ok(names)
}

// The names of all lines that are left and not skipped, in their order.
fn read_names(alloc: Global, mut left: Lines<'_>) -> Result<Items<String>, ListFault>
    ensures names { IfOk result (λ names. AreNames (kept left.entry) (map string_bytes names)) }
    ensures fault { IfErr result (BreaksList (kept left.entry)) }
{
    let mut names = Items::new(alloc);
    'lines: while let Some(line) = next_kept(&mut left) {
        let name = name_behind(alloc, &line, names.len())?;
        names.push(name)?;
    }
    Ok(names)
}

// The name of a line behind so many others.
fn name_behind(alloc: Global, line: &Line<'_>, count: usize) -> Result<String, ListFault>
    requires { count ≤ MAX_FRAMEWORKS }
    ensures name { IfOk result (λ name. IsNameLine line.now.text.now (string_bytes name)) }
    ensures room { OnOk result (count < MAX_FRAMEWORKS) }
    ensures fault { IfErr result (StopsList count (line_text line.now)) }
{
    let Some(name) = name_in(line) else {
        return Err(ListFault::At {
            line: line.number,
            cause: ListCause::BadLine,
        });
    };
    if count >= MAX_FRAMEWORKS as usize {
        return Err(ListFault::At {
            line: line.number,
            cause: ListCause::TooMany,
        });
    }
    Ok(copied(alloc, name)?)
}

// The same name, as a text of its own.
fn copied(alloc: Global, name: &str) -> Result<String, Memory>
    ensures { IfOk result (λ text. string_bytes text ≡ name.now) }
{
    Ok(String::from_str(alloc, name)?)
}

// The only field of a line, where it is UTF-8.
fn name_in<'a>(line: &Line<'a>) -> Option<&'a str>
    ensures name { IfSome result (λ name. IsNameLine line.now.text.now name.now) }
    ensures none { IfNone result ((name : List ℕ) → ¬ IsNameLine line.now.text.now name) }
{
    let mut parts = fields(line);
    let text = next_text(&mut parts)?;
    if next_text(&mut parts).is_some() {
        return None;
    }
    match from_utf8(text) {
        Ok(name) => Some(name),
        Err(_) => None,
    }
}
