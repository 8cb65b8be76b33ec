//! Runs over files that have as much as a file may have, and more. What smaller runs end with, `argue_rows` lists.

use argue_outside::{MemFiles, MemSink, NoPace, append_all};
use argue_program::run;
use std::alloc::{AllocError, Global};
use std::mem::forget;
use std::sync::Wait;
use std::thread::Threads;

/// The words of a line.
fn words_of(alloc: Global, line: &str) -> Result<Vec<String>, AllocError> {
    let mut words = Vec::new(alloc);
    for word in line.split_whitespace() {
        words.push(String::from_str(alloc, word)?)?;
    }
    Ok(words)
}

/// The exit status of a run of a line's words. What the run keeps is left to the process's end.
fn status_of<R: Threads + Wait + Sync>(
    rt: &R,
    alloc: Global,
    line: &str,
    files: &mut MemFiles,
    out: &mut MemSink,
) -> Option<u8> {
    let words = words_of(alloc, line).ok()?;
    let ended = run(rt, alloc, words.as_slice(), files, out, &NoPace);
    let code = ended.status.code();
    forget(ended);
    Some(code)
}

/// Whether all of the numbers from 1 to 999,999 are told.
fn tells_all<R: Threads + Wait + Sync>(
    rt: &R,
    alloc: Global,
    files: &mut MemFiles,
    out: &mut MemSink,
) -> Option<bool> {
    append_all(files, "a", b"p af 1000000\n1000000 1000000\n").ok()?;
    let code = status_of(rt, alloc, "-p SE-GR -f a", files, out)?;
    // They have 5,888,889 digits.
    Some(code == 0 && out.bytes().len() == 1 + 999_999 + 5_888_889 + 1)
}

#[test]
fn greatest_framework(rt: HostRuntime) {
    let mut files = MemFiles::new(rt.alloc());
    let mut out = MemSink::new(rt.alloc());
    assert!(rt; tells_all(&rt, rt.alloc(), &mut files, &mut out) == Some(true));
}

/// Writes a file that has too many bytes.
fn append_long(alloc: Global, files: &mut MemFiles, name: &str) -> Option<()> {
    let bytes = vec![in alloc; 0u8; 268_435_457].ok()?;
    append_all(files, name, bytes.as_slice()).ok()
}

/// Whether a run tells that a file has too many bytes.
fn tells_limit<R: Threads + Wait + Sync>(
    rt: &R,
    alloc: Global,
    line: &str,
    long: &str,
    files: &mut MemFiles,
    out: &mut MemSink,
) -> Option<bool> {
    append_all(files, "b", b"p af 1\n").ok()?;
    append_long(alloc, files, long)?;
    let code = status_of(rt, alloc, line, files, out)?;
    Some(code == 7 && out.bytes() == b"error: limit input\n".as_slice())
}

/// The same over new files.
fn is_too_long<R: Threads + Wait + Sync>(rt: &R, alloc: Global, line: &str, long: &str) -> bool {
    let mut files = MemFiles::new(alloc);
    let mut out = MemSink::new(alloc);
    tells_limit(rt, alloc, line, long, &mut files, &mut out) == Some(true)
}

#[test]
fn too_long(rt: HostRuntime) {
    assert!(rt; is_too_long(&rt, rt.alloc(), "-p SE-GR -f a", "a"));
    assert!(rt; is_too_long(&rt, rt.alloc(), "live -f b -s s", "s"));
}
