//! Cutting bytes into lines, and a line into fields.

ghost use Rattle.std.specs.Prelude.{◌≡◌, ℕ, ◌+◌, ◌<◌, length, map, slice_index_or, All, AllPairs};
ghost use Rattle.num_text.specs.Cuts.{LineText, lines_of, line_texts, fields_of, field_texts, IsPartAt};

use crate::field::Fields;
use crate::line::{Line, Lines};

/// All lines of the bytes in order, numbered from 1. A line ends at LF; a last piece that isn't empty
/// is a line too.
pub fn lines(bytes: &[u8]) -> Lines<'_>
    ensures all { result ≡ lines_of bytes.now }
    ensures texts { map (λ l. l.text) result ≡ line_texts bytes.now }
    ensures numbers { (k : ℕ) (d : LineText) → k < length result → (slice_index_or result k d).number ≡ k + 1 }
    ensures spans { All (λ l. IsPartAt bytes.now l.span l.text) result }
    ensures rising { AllPairs (λ l m. l.span.end < m.span.start) result }
{
    Lines::new(bytes)
}

/// All fields of the line in order: the longest pieces of its text without space, tab or CR. A field's
/// span counts from the start of the line's text.
pub fn fields<'a>(line: &Line<'a>) -> Fields<'a>
    ensures all { result ≡ fields_of line.now.text.now }
    ensures texts { map (λ f. f.text) result ≡ field_texts line.now.text.now }
    ensures spans { All (λ f. IsPartAt line.now.text.now f.span f.text) result }
    ensures rising { AllPairs (λ f g. f.span.end < g.span.start) result }
{
    Fields::new(line.text)
}
