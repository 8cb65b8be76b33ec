//! What the lines before a row have given.

use crate::outcome::with_ends;
use std::alloc::{AllocError, Global};

/// The number of the call of the files that fails, that of the call of the output, and the most bytes that each call
/// moves.
#[derive(Clone, Copy)]
pub struct Faults {
    pub files: u32,
    pub output: u32,
    pub most: u32,
}

/// No call has the number 0.
pub const NO_FAULTS: Faults = Faults {
    files: 0,
    output: 0,
    most: 1_000_000,
};

/// The number that a word is, or 0.
fn number_of(word: Option<&str>) -> u32 {
    match word {
        Some(word) => word.parse::<u32>().unwrap_or(0),
        None => 0,
    }
}

/// How often a text stands for a `*`, and the text.
#[derive(Clone, Copy)]
pub struct Times<'a> {
    pub count: u32,
    pub text: &'a str,
}

/// A `*` stands for itself.
const ONCE: Times<'static> = Times {
    count: 1,
    text: "*",
};

/// The repetition that a number and a text name.
fn times_of(words: &str) -> Times<'_> {
    match words.split_once(' ') {
        Some((count, text)) => Times {
            count: number_of(Some(count)),
            text,
        },
        None => ONCE,
    }
}

/// The faults that three numbers name.
fn faults_of(words: &str) -> Faults {
    let mut words = words.split_whitespace();
    Faults {
        files: number_of(words.next()),
        output: number_of(words.next()),
        most: number_of(words.next()),
    }
}

/// The texts of the files, in which `;` is the end of a line, and what the next row changes.
#[derive(Drop)]
pub struct Given<'a> {
    pub framework: &'a str,
    pub answer: &'a str,
    pub certificate: &'a str,
    /// What stands in the next row's certificate in place of what.
    pub swap: Option<(&'a str, &'a str)>,
    /// Which calls of the next row fail.
    pub faults: Faults,
    /// What a `*` in the next row and its answer stands for.
    pub times: Times<'a>,
}

impl<'a> Given<'a> {
    pub fn new() -> Given<'a> {
        Given {
            framework: "",
            answer: "",
            certificate: "",
            swap: None,
            faults: NO_FAULTS,
            times: ONCE,
        }
    }

    /// Whether the line gives something or is skipped, and so is no row.
    pub fn takes(&mut self, line: &'a str) -> bool {
        let (key, rest) = line.split_once(' ').unwrap_or((line, ""));
        match key {
            "framework" => self.framework = rest,
            "answer" => self.answer = rest,
            "certificate" => self.certificate = rest,
            "swap" => self.swap = rest.split_once(" -> "),
            "drop" => self.swap = Some((rest, "")),
            "fail" => self.faults = faults_of(rest),
            "times" => self.times = times_of(rest),
            "#" => {}
            _ => return line.is_empty(),
        }
        true
    }

    /// Ends what holds of one row alone.
    pub fn end_row(&mut self) {
        self.swap = None;
        self.faults = NO_FAULTS;
        self.times = ONCE;
    }

    /// The text with what each `*` stands for.
    pub fn whole(&self, alloc: Global, text: &str) -> Result<String, AllocError> {
        let repeated = self.times.text.repeat(alloc, self.times.count as usize)?;
        text.replace(alloc, "*", repeated.as_str())
    }

    /// The next row's certificate.
    pub fn certificate(&self, alloc: Global) -> Result<String, AllocError> {
        match self.swap {
            Some((old, new)) => {
                let changed = self.certificate.replace(alloc, old, new)?;
                with_ends(alloc, changed.as_str())
            }
            None => with_ends(alloc, self.certificate),
        }
    }
}
