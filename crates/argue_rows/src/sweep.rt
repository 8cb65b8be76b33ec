//! Runs over every prefix of a certificate, and over every change of one byte.

use crate::given::Given;
use crate::outcome::run;
use std::alloc::{AllocError, Global};
use std::sync::Wait;
use std::thread::Threads;

const QUERY: &str = "check -p DS-PR -a 4 -f a -r b -c c";

/// Whether a proper prefix is refused, and where it ends with a line, for want of an end.
fn is_refused(alloc: Global, lines: u64, prefix: &[u8], found: &str) -> Result<bool, AllocError> {
    let refusal = if prefix.last() == Some(&b'\n') {
        format!(in alloc; "2 error: certificate line {lines} NoEnd;")?
    } else {
        String::from_str(alloc, "2 error: certificate line ")?
    };
    Ok(found.starts_with(refusal.as_str()))
}

/// Each prefix that lacks more than the last line's end, from the empty one on: the first run that doesn't refuse it, and
/// its length.
pub fn prefixes<R: Threads + Wait + Sync>(
    rt: &R,
    alloc: Global,
    given: &Given<'_>,
    certificate: &[u8],
) -> Result<String, AllocError> {
    let mut prefix = Vec::new(alloc);
    let mut lines = 1u64;
    let proper = certificate.strip_suffix(&[b'\n']).unwrap_or(certificate);
    for byte in proper {
        let found = run(rt, alloc, QUERY, given, given.answer, prefix.as_slice())?;
        if !is_refused(alloc, lines, prefix.as_slice(), found.as_str())? {
            return format!(in alloc; "{found} {}", prefix.len());
        }
        prefix.push(*byte)?;
        if *byte == b'\n' {
            lines = lines.saturating_add(1);
        }
    }
    String::from_str(alloc, "refused")
}

/// The bytes with others in place of the one at this index.
fn with_middle(
    alloc: Global,
    bytes: &[u8],
    index: usize,
    middle: &[u8],
) -> Result<Vec<u8>, AllocError> {
    let mut changed = Vec::new(alloc);
    for (at, byte) in bytes.iter().enumerate() {
        if at == index {
            changed.extend_from_slice(middle)?;
        } else {
            changed.push(*byte)?;
        }
    }
    Ok(changed)
}

/// Each byte dropped, doubled and changed: the first run that ends with another status than 0, 2 and 8.
pub fn bytes<R: Threads + Wait + Sync>(
    rt: &R,
    alloc: Global,
    given: &Given<'_>,
    certificate: &[u8],
) -> Result<String, AllocError> {
    for (index, byte) in certificate.iter().enumerate() {
        let middles: [&[u8]; 3] = [&[], &[*byte, *byte], &[*byte ^ 1]];
        for middle in middles {
            let changed = with_middle(alloc, certificate, index, middle)?;
            let found = run(rt, alloc, QUERY, given, given.answer, changed.as_slice())?;
            if !matches!(found.as_bytes().first(), Some(b'0' | b'2' | b'8')) {
                return format!(in alloc; "{found} {index}");
            }
        }
    }
    String::from_str(alloc, "judged")
}
