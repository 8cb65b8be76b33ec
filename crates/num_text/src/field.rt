//! The fields of a line.

ghost use Rattle.std.specs.Prelude.{◌≡◌, ◌↔◌, ℕ, ◌≤◌, [], IfNone, IfSome, IsTrue, length, not};
ghost use Rattle.std.specs.List.{position, position_or_len};
ghost use Rattle.num_text.specs.Cuts.{is_blank, fields_of};
ghost use Rattle.num_text.specs.Numerals.{IsFieldEnd, IsReadNumber, TakesField};

use crate::number::{Numeral, decimal, leading_number};
use crate::span::Span;
use std::marker::Model;

/// A field of a line.
#[derive(Clone, Copy)]
pub struct Field<'a> {
    /// Where the field stands in its line's text.
    pub span: Span,
    /// The field's bytes.
    pub text: &'a [u8],
}

/// A field's bytes, and the number that they spell.
#[derive(Clone, Copy)]
pub struct NumberField<'a> {
    /// The field's bytes.
    pub text: &'a [u8],
    /// What [`decimal`] gives of them.
    pub number: Option<u32>,
}

/// The fields that are left to come, in order.
#[derive(Drop)]
pub struct Fields<'a> {
    text: &'a [u8],
    start: usize,
}

impl<'a> Model for Fields<'a> {
    ghost use Rattle.std.specs.Prelude.{List, ◌≤◌, length, drop};
    ghost use Rattle.num_text.specs.Cuts.{FieldText, fields_from};

    ghost Value = { List FieldText };

    ghost view = { λ f. fields_from f.start (drop f.start f.text.now) };

    ghost invariant = { λ f. f.start ≤ length f.text.now };
}

impl<'a> Fields<'a> {
    pub(crate) fn new(text: &'a [u8]) -> Fields<'a>
        ensures { result ≡ fields_of text.now }
    {
        Fields { text, start: 0 }
    }

    /// The next field, and the number that it spells. `None` comes after the last field.
    ///
    /// A field of digits alone is read in one pass over its bytes, which cuts it off too. A whole run on 3,000,000 random
    /// attacks takes a seventh fewer instructions so than where each field is cut off first and then read.
    #[inline(always)]
    pub fn next_number(&mut self) -> Option<NumberField<'a>>
        ensures some { IfSome result (λ f. TakesField self.old f.text.now self.new) }
        ensures none { IfNone result (self.old ≡ []) }
        ensures number { IfSome result (λ f. IsReadNumber f.text.now f.number) }
    {
        if let Some(field) = self.next_numeral() {
            return Some(field);
        }
        let field = self.next()?;
        Some(NumberField {
            text: field.text,
            number: decimal(field.text),
        })
    }

    /// The next field where it is a number; no field is taken otherwise.
    #[inline(always)]
    fn next_numeral(&mut self) -> Option<NumberField<'a>>
        ensures some { IfSome result (λ f. TakesField self.old f.text.now self.new) }
        ensures same { IfNone result (self.new ≡ self.old) }
        ensures number { IfSome result (λ f. IsReadNumber f.text.now f.number) }
    {
        let left = &self.text[self.start..];
        let start = self.start + blanks_length(left);
        let rest = &self.text[start..];
        let Numeral { value, length } = leading_number(rest)?;
        if !ends_at(rest, length) {
            return None;
        }
        self.start = start + length;
        Some(NumberField {
            text: &rest[..length],
            number: Some(value),
        })
    }
}

// Whether the bytes end at the index, or have a blank there.
#[inline(always)]
fn ends_at(bytes: &[u8], index: usize) -> bool
    requires { index ≤ length bytes.now }
    ensures { IsTrue result ↔ IsFieldEnd bytes.now index }
{
    index == bytes.len() || is_blank(bytes[index])
}

impl<'a> Iterator for Fields<'a> {
    ghost use Rattle.std.specs.Iterator.{YieldsFirstBy, item_count};
    ghost use Rattle.num_text.specs.Views.{field_text};

    type Item = Field<'a>;

    ghost next_gives = { YieldsFirstBy field_text (λ fields. fields) };

    ghost remaining = { item_count (λ fields. fields) };

    fn next(&mut self) -> Option<Field<'a>> {
        let left = &self.text[self.start..];
        let start = self.start + blanks_length(left);
        let rest = &self.text[start..];
        if rest.is_empty() {
            return None;
        }
        let length = field_length(rest);
        self.start = start + length;
        Some(Field {
            span: Span {
                start,
                end: self.start,
            },
            text: &rest[..length],
        })
    }
}

// The number of blanks that the bytes begin with.
pub(crate) fn blanks_length(bytes: &[u8]) -> usize
    ensures index { result ≡ position_or_len (λ byte. not (is_blank byte)) bytes.now }
    ensures within { result ≤ length bytes.now }
{
    field_start(bytes).unwrap_or(bytes.len())
}

// The number of bytes before the first blank, or of all bytes where there is none.
fn field_length(bytes: &[u8]) -> usize
    ensures index { result ≡ position_or_len is_blank bytes.now }
    ensures within { result ≤ length bytes.now }
{
    field_end(bytes).unwrap_or(bytes.len())
}

// The index of the first byte that is no blank.
fn field_start(bytes: &[u8]) -> Option<usize>
    ensures { result ≡ position (λ byte. not (is_blank byte)) bytes.now }
{
    bytes.iter().position(|byte| !is_blank(*byte))
}

// The index of the first blank.
fn field_end(bytes: &[u8]) -> Option<usize>
    ensures { result ≡ position is_blank bytes.now }
{
    bytes.iter().position(|byte| is_blank(*byte))
}

// Whether the byte is space, tab or CR.
fn is_blank(byte: u8) -> bool
    ensures { result ≡ is_blank byte }
{
    matches!(byte, b' ' | b'\t' | b'\r')
}
