//! What no clause says: that calls succeed where memory is there, and what real files hold.

ghost use Rattle.std.specs.Prelude.{◌≡◌, [], IsTrue};

use argue_outside::{
    Files, MemFiles, MemSink, NoPace, Pace, Planned, Point, ReadStop, RealFiles, Role, Sink,
    append_all, put_all, read_all,
};
use lists::{Bytes, Items};
use std::alloc::{AllocError, Global};

/// The name that acts are done with.
const NAME: &str = "argue_outside_test.tmp";

/// What is done with a file.
#[derive(Clone, Copy)]
enum Act {
    Clear,
    Append(&'static [u8]),
    /// Reads at most so many bytes, which are these.
    Read(u64, &'static [u8]),
    /// Reads at most so many bytes of a file that has more.
    ReadLess(u64),
    /// Reads where a call fails.
    ReadNone,
    /// Fetches three bytes from this position on, which are these.
    Fetch(u64, &'static [u8]),
}

/// Whether a read gave these bytes.
fn gives(read: Result<Bytes, ReadStop>, bytes: &[u8]) -> bool {
    matches!(&read, Ok(read) if read.as_slice() == bytes)
}

/// Whether a read told that the file is longer.
fn is_longer(read: Result<Bytes, ReadStop>) -> bool {
    matches!(&read, Err(ReadStop::TooLong))
}

/// Whether a read failed.
fn fails(read: Result<Bytes, ReadStop>) -> bool {
    matches!(&read, Err(ReadStop::Failed))
}

/// Whether these three bytes are fetched from there on.
fn fetches<F: Files>(files: &mut F, at: u64, bytes: &[u8]) -> bool {
    let mut piece = [0u8; 3];
    let count = files.fetch(Role::Framework(1), NAME, at, &mut piece);
    matches!(count, Ok(3)) && piece.as_slice() == bytes
}

/// Reads the file, at most so many bytes.
fn read<F: Files>(alloc: Global, files: &mut F, most: u64) -> Result<Bytes, ReadStop> {
    read_all(alloc, files, Role::Framework(1), NAME, most)
}

/// Whether an act ends as it says.
fn ends_so<F: Files>(alloc: Global, files: &mut F, act: Act) -> bool {
    match act {
        Act::Clear => files.clear(NAME).is_ok(),
        Act::Append(bytes) => append_all(files, NAME, bytes).is_ok(),
        Act::Read(most, bytes) => gives(read(alloc, files, most), bytes),
        Act::ReadLess(most) => is_longer(read(alloc, files, most)),
        Act::ReadNone => fails(read(alloc, files, 9)),
        Act::Fetch(at, bytes) => fetches(files, at, bytes),
    }
}

/// Whether all acts do, one after the other.
fn all_end_so<F: Files>(alloc: Global, files: &mut F, acts: &[Act]) -> bool {
    for act in acts {
        if !ends_so(alloc, files, *act) {
            return false;
        }
    }
    true
}

/// Reads a name unless it isn't there. That no read fails is proved.
fn reads_what_is_there(alloc: Global, files: &mut MemFiles, name: &str) -> bool
    requires { ⟦<MemFiles as Planned>⟧.to_fail files.old ≡ [] }
    ensures { IsTrue result }
{
    if files.bytes_of(name).is_none() {
        return true;
    }
    match read_all(alloc, files, Role::Script, name, 9) {
        Err(ReadStop::Failed) => false,
        _ => true,
    }
}

/// The list of one number.
fn only(alloc: Global, number: u64) -> Result<Items<u64>, AllocError> {
    Ok(Items::from_vec(vec![in alloc; number]?))
}

#[test]
fn limits_the_length(rt: HostRuntime) {
    let alloc = rt.alloc();
    let mut files = MemFiles::failing(alloc, Items::new(alloc), 2);
    assert!(rt; reads_what_is_there(alloc, &mut files, NAME));
    let acts = [
        Act::Append(b"12345"),
        Act::ReadLess(4),
        Act::Read(5, b"12345"),
    ];
    assert!(rt; all_end_so(alloc, &mut files, &acts));
    assert!(rt; files.read_faults(Role::Framework(1)) == 0);
}

/// The second call fails, and then a read of a name that isn't there.
#[test]
fn counts_faults_of_reading(rt: HostRuntime) -> Result<(), AllocError> {
    let alloc = rt.alloc();
    let mut files = MemFiles::failing(alloc, only(alloc, 2)?, usize::MAX);
    let acts = [Act::Clear, Act::ReadNone, Act::Read(9, b"")];
    assert!(rt; all_end_so(alloc, &mut files, &acts));
    assert!(rt; files.read_faults(Role::Framework(1)) == 1 && files.write_faults() == 0);
    assert!(rt; fails(read_all(alloc, &mut files, Role::Answer, "answer", 9)));
    assert!(rt; files.read_faults(Role::Answer) == 1);
    assert!(rt; files.bytes_of("answer").is_none());
    Ok(())
}

#[test]
fn keeps_a_prefix_where_a_put_fails(rt: HostRuntime) -> Result<(), AllocError> {
    let alloc = rt.alloc();
    let mut sink = MemSink::failing(alloc, only(alloc, 3)?, 1);
    assert!(rt; put_all(&mut sink, b"abc").is_err());
    assert!(rt; sink.bytes() == b"ab".as_slice() && sink.faults() == 1);
    assert!(rt; put_all(&mut sink, b"cd").is_ok());
    assert!(rt; sink.bytes() == b"abcd".as_slice());
    NoPace.at(1, Point::InAsk);
    Ok(())
}

/// What is done with a real file. After a read it is still open at its end: the next read goes back to its begin.
const REAL: &[Act] = &[
    Act::Clear,
    Act::Append(b"p af 2\n"),
    Act::Append(b"1 2\n"),
    Act::Read(99, b"p af 2\n1 2\n"),
    Act::Read(99, b"p af 2\n1 2\n"),
    Act::Fetch(7, b"1 2"),
    Act::Fetch(2, b"af "),
    Act::Append(b"2 1\n"),
    Act::Read(99, b"p af 2\n1 2\n2 1\n"),
    Act::Clear,
    Act::Read(99, b""),
    Act::Append(b"p af 1\n"),
    Act::Clear,
    Act::Append(b"p af 0\n"),
    Act::Read(99, b"p af 0\n"),
];

#[test]
fn writes_and_reads_real_files(rt: HostRuntime) -> Result<(), AllocError> {
    let alloc = rt.alloc();
    let mut files = RealFiles::new(alloc, rt.clone()?);
    assert!(rt; all_end_so(alloc, &mut files, REAL));
    assert!(rt; fails(read_all(alloc, &mut files, Role::Cnf, "no_such_file.tmp", 11)));
    assert!(rt; files.read_faults(Role::Cnf) == 1);
    let _ = std::fs::remove_file(&rt, NAME);
    Ok(())
}
