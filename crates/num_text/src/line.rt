//! The lines of bytes.

ghost use Rattle.std.specs.Prelude.{◌≡◌};
ghost use Rattle.std.specs.List.{position_or_len};
ghost use Rattle.num_text.specs.Cuts.{is_line_end, lines_of};

use crate::span::Span;
use memchr::memchr;
use std::marker::Model;

/// A line of a text.
#[derive(Clone, Copy)]
pub struct Line<'a> {
    /// The line's number. The first line has number 1.
    pub number: usize,
    /// Where the line stands in the bytes, without its LF.
    pub span: Span,
    /// The line's bytes, without its LF.
    pub text: &'a [u8],
}

/// The lines that are left to come, in order.
#[derive(Drop)]
pub struct Lines<'a> {
    bytes: &'a [u8],
    start: usize,
    number: usize,
}

impl<'a> Model for Lines<'a> {
    ghost use Rattle.std.specs.Prelude.{List, ◌+◌, ◌≤◌, length, drop};
    ghost use Rattle.num_text.specs.Cuts.{LineText, lines_from};

    ghost Value = { List LineText };

    ghost view = { λ l. lines_from l.number l.start (drop l.start l.bytes.now) };

    ghost invariant = { λ l. (l.number ≤ l.start + 1) × (l.start ≤ length l.bytes.now + 1) };
}

impl<'a> Lines<'a> {
    pub(crate) fn new(bytes: &'a [u8]) -> Lines<'a>
        ensures { result ≡ lines_of bytes.now }
    {
        Lines {
            bytes,
            start: 0,
            number: 1,
        }
    }
}

impl<'a> Iterator for Lines<'a> {
    ghost use Rattle.std.specs.Iterator.{YieldsFirstBy, item_count};
    ghost use Rattle.num_text.specs.Views.{line_text};

    type Item = Line<'a>;

    ghost next_gives = { YieldsFirstBy line_text (λ lines. lines) };

    ghost remaining = { item_count (λ lines. lines) };

    // There is one reader of lines: a second way for lines of two numbers made a whole run on 1,000,000 arguments and
    // 3,000,000 random attacks faster by a fortieth (bench/RESULTS.md has the times of such a run).
    #[inline(always)]
    fn next(&mut self) -> Option<Line<'a>> {
        if self.start >= self.bytes.len() {
            return None;
        }
        let rest = &self.bytes[self.start..];
        let length = line_length(rest);
        let line = Line {
            number: self.number,
            span: Span {
                start: self.start,
                end: self.start + length,
            },
            text: &rest[..length],
        };
        self.start += length + 1;
        self.number += 1;
        Some(line)
    }
}

// The number of bytes before the first LF, or of all bytes where there is none.
fn line_length(bytes: &[u8]) -> usize
    ensures { result ≡ position_or_len is_line_end bytes.now }
{
    memchr(b'\n', bytes).unwrap_or(bytes.len())
}
