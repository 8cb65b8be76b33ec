//! One run over files in memory, told as a line.

use crate::given::Given;
use argue_outside::{Files, MemFiles, MemSink, NoPace, Role, append_all, read_all};
use argue_program::run as run_program;
use lists::Items;
use std::alloc::{AllocError, Global};
use std::mem::forget;
use std::sync::Wait;
use std::thread::Threads;

/// More bytes than any file of a row has.
const MAX_BYTES: u64 = 1_000_000;

/// The text with ends of lines in place of `;`, and with the bytes that `\r` and `\0` stand for.
pub fn with_ends(alloc: Global, text: &str) -> Result<String, AllocError> {
    let lines = text.replace(alloc, ";", "\n")?;
    let returns = lines.as_str().replace(alloc, "\\r", "\r")?;
    returns.as_str().replace(alloc, "\\0", "\0")
}

/// The words of a check of this query: a task, and its argument where it has one.
pub fn words_of(alloc: Global, query: &str) -> Result<String, AllocError> {
    match query.split_once(' ') {
        Some((task, number)) => { format!(in alloc; "check -p {task} -a {number} -f a -r b -c c") }
        None => format!(in alloc; "check -p {query} -f a -r b -c c"),
    }
}

/// The list of one number.
fn only(alloc: Global, number: u32) -> Result<Items<u64>, AllocError> {
    Ok(Items::from_vec(vec![in alloc; number as u64]?))
}

/// Makes the file hold these bytes.
fn hold(files: &mut MemFiles, name: &str, bytes: &[u8]) -> Result<(), AllocError> {
    match files.clear(name) {
        Ok(()) => {}
        Err(_) => return Err(AllocError),
    }
    match append_all(files, name, bytes) {
        Ok(()) => Ok(()),
        Err(_) => Err(AllocError),
    }
}

/// The text of bytes, with `;` in place of the ends of lines.
fn with_semicolons(alloc: Global, bytes: &[u8]) -> Result<String, AllocError> {
    let text = String::from_utf8_lossy(alloc, bytes)?;
    text.as_str().replace(alloc, "\n", ";")
}

/// The exit status of a run of these words. What the run keeps is left to the process's end.
fn status_of<R: Threads + Wait + Sync>(
    rt: &R,
    alloc: Global,
    words: &[String],
    files: &mut MemFiles,
    out: &mut MemSink,
) -> u8 {
    let ended = run_program(rt, alloc, words, files, out, &NoPace);
    let code = ended.status.code();
    forget(ended);
    code
}

/// A name and the text of a file that only a run makes, where it did.
fn made(alloc: Global, files: &mut MemFiles, name: &str) -> Result<String, AllocError> {
    match read_all(alloc, files, Role::Certificate, name, MAX_BYTES) {
        Ok(bytes) => {
            let text = with_semicolons(alloc, bytes.as_slice())?;
            format!(in alloc; " {name}: {text}")
        }
        Err(_) => Ok(String::new(alloc)),
    }
}

/// The exit status of a run with the files a, b and c, and what it writes, with `;` for the end of a line; and behind
/// `c:`, `c.cnf:` and `c.lrat:` what it wrote to files of these names, where it did.
pub fn run<R: Threads + Wait + Sync>(
    rt: &R,
    alloc: Global,
    line: &str,
    given: &Given<'_>,
    answer: &str,
    certificate: &[u8],
) -> Result<String, AllocError> {
    let most = given.faults.most as usize;
    let mut files = MemFiles::failing(alloc, only(alloc, given.faults.files)?, most);
    hold(
        &mut files,
        "a",
        with_ends(alloc, given.framework)?.as_bytes(),
    )?;
    let answer = given.whole(alloc, answer)?;
    hold(
        &mut files,
        "b",
        with_ends(alloc, answer.as_str())?.as_bytes(),
    )?;
    hold(&mut files, "c", certificate)?;
    let mut words = Vec::new(alloc);
    for word in line.split_whitespace() {
        words.push(String::from_str(alloc, word)?)?;
    }
    let mut out = MemSink::failing(alloc, only(alloc, given.faults.output)?, most);
    let code = status_of(rt, alloc, words.as_slice(), &mut files, &mut out);
    let text = with_semicolons(alloc, out.bytes())?;
    let held = match read_all(alloc, &mut files, Role::Certificate, "c", MAX_BYTES) {
        Ok(bytes) => bytes,
        Err(_) => return Err(AllocError),
    };
    let cnf = made(alloc, &mut files, "c.cnf")?;
    let lrat = made(alloc, &mut files, "c.lrat")?;
    if held.as_slice() == certificate {
        return format!(in alloc; "{code} {text}{cnf}{lrat}");
    }
    let written = with_semicolons(alloc, held.as_slice())?;
    format!(in alloc; "{code} {text} c: {written}{cnf}{lrat}")
}
