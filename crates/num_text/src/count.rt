//! The number of lines of a text.

ghost use Rattle.std.specs.Prelude.{◌≡◌, length, ◌≤◌};
ghost use Rattle.num_text.specs.Cuts.{lines_of};
ghost use Rattle.num_text.specs.declared.limit.TheConstants.{MAX_INPUT};

use crate::cuts::lines;

/// The number of all lines, skipped ones included. A fault at the end of a text is told at this number plus one.
pub fn line_count(bytes: &[u8]) -> usize
    requires { length bytes.now ≤ MAX_INPUT }
    ensures count { result ≡ length (lines_of bytes.now) }
    ensures within { result ≤ 268435457 }
{
    let mut left = lines(bytes);
    let mut count = 0;
    while let Some(_line) = left.next() {
        count += 1;
    }
    count
}
