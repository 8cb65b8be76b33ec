//! The lines of a text that are not skipped.

ghost use Rattle.std.specs.Prelude.{◌≡◌, [], ◌∷◌, IfSome, IfNone};
ghost use Rattle.num_text.specs.Cuts.{field_texts};
ghost use Rattle.num_text.specs.Lines.{are_skipped, kept};
ghost use Rattle.num_text.specs.Views.{line_text};

use crate::field::blanks_length;
use crate::line::{Line, Lines};

/// The next line that is not skipped.
pub fn next_kept<'a>(lines: &mut Lines<'a>) -> Option<Line<'a>>
    ensures some { IfSome result (λ line. kept lines.old ≡ line_text line ∷ kept lines.new) }
    ensures none { IfNone result (kept lines.old ≡ []) }
    ensures end { IfNone result (lines.new ≡ []) }
{
    while let Some(line) = lines.next() {
        if !is_skipped(&line) {
            return Some(line);
        }
    }
    None
}

/// Whether a line is skipped: it has no field, or its first field begins with `#`. Its first byte that is no
/// blank says so, so that no field is cut off here.
pub fn is_skipped(line: &Line<'_>) -> bool
    ensures { result ≡ are_skipped (field_texts line.now.text.now) }
{
    let start = blanks_length(line.text);
    if start == line.text.len() {
        return true;
    }
    line.text[start] == b'#'
}
