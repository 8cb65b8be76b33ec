//! The lines that say something.

ghost use Rattle.std.specs.Prelude.{◌≡◌, [], ◌∷◌, IfSome, IfNone};
ghost use Rattle.num_text.specs.Cuts.{field_texts};
ghost use Rattle.num_text.specs.Views.{line_text};
ghost use Rattle.lrat_text.specs.Lines.{is_comment, is_no_step, cnf_kept, lrat_kept};

use num_text::{Line, Lines, fields};

// Whether a line has no fields, or a first one that begins with `c`.
fn is_comment(line: &Line<'_>) -> bool
    ensures { result ≡ is_comment (field_texts line.now.text.now) }
{
    match fields(line).next() {
        Some(first) => first.text.first() == Some(&b'c'),
        None => true,
    }
}

// Whether a line is a comment, or deletes clauses.
fn is_no_step(line: &Line<'_>) -> bool
    ensures { result ≡ is_no_step (field_texts line.now.text.now) }
{
    let mut parts = fields(line);
    let Some(first) = parts.next() else {
        return true;
    };
    if first.text.first() == Some(&b'c') {
        return true;
    }
    match parts.next() {
        Some(second) => second.text == b"d".as_slice(),
        None => false,
    }
}

/// The next line of a CNF that is not skipped.
pub(crate) fn next_cnf_line<'a>(lines: &mut Lines<'a>) -> Option<Line<'a>>
    ensures some { IfSome result (λ line. cnf_kept lines.old ≡ line_text line ∷ cnf_kept lines.new) }
    ensures none { IfNone result (cnf_kept lines.old ≡ []) }
    ensures end { IfNone result (lines.new ≡ []) }
{
    while let Some(line) = lines.next() {
        if !is_comment(&line) {
            return Some(line);
        }
    }
    None
}

/// The next line of an LRAT text that is not skipped.
pub(crate) fn next_lrat_line<'a>(lines: &mut Lines<'a>) -> Option<Line<'a>>
    ensures some { IfSome result (λ line. lrat_kept lines.old ≡ line_text line ∷ lrat_kept lines.new) }
    ensures none { IfNone result (lrat_kept lines.old ≡ []) }
    ensures end { IfNone result (lines.new ≡ []) }
{
    while let Some(line) = lines.next() {
        if !is_no_step(&line) {
            return Some(line);
        }
    }
    None
}
