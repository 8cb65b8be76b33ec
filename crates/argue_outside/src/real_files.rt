//! The real files of a runtime, of whose contents nothing is known.

ghost use Rattle.std.specs.Prelude.{◌≡◌, ℕ, ◌<◌, ◌≤◌, length, IfOk, IfSome, None};
ghost use Rattle.argue_outside.specs.declared.Role.{Role as ARole};

use crate::counts::{Counts, raised};
use crate::real_out::write_some;
use crate::{Failed, Files, Role};
use std::alloc::Global;
use std::fs::OpenOptions;
use std::io::{ErrorKind, Read, Seek, SeekFrom};
use std::{fs, io, rt};

/// The real files of a runtime. The file that was read last and the one that was written last are kept
/// open, so that calls one after another don't open them again. A call that was interrupted is made
/// again; a write that takes nothing of a piece that has bytes is a fault.
#[derive(Drop)]
pub struct RealFiles<R: rt::Files + Drop> {
    rt: R,
    alloc: Global,
    reading: Option<Opened<R::File>>,
    writing: Option<Opened<R::File>>,
    counts: Counts,
    write_faults: u64,
}

/// An open file, with its name and the position of the next call.
#[derive(Drop)]
struct Opened<F> {
    name: String,
    file: F,
    at: u64,
}

impl<R: rt::Files + Drop> RealFiles<R> {
    /// The files of this runtime, with no fault yet.
    pub fn new(alloc: Global, rt: R) -> RealFiles<R>
        ensures reads { (role : ARole) → ⟦<RealFiles<R> as Files>⟧.read_count result role ≡ 0 }
        ensures writes { ⟦<RealFiles<R> as Files>⟧.write_count result ≡ 0 }
    {
        RealFiles {
            rt,
            alloc,
            reading: None,
            writing: None,
            counts: Counts::new(),
            write_faults: 0,
        }
    }
}

impl<R: rt::Files + Drop> Files for RealFiles<R> {
    ghost use Rattle.std.specs.Prelude.{None};
    ghost use Rattle.argue_outside.specs.Counted.{count_at};

    ghost holds = { λ s name. None };

    ghost serves = { λ s name. ⊥ };

    ghost accepts = { λ s name. ⊥ };

    ghost read_count = { λ s. count_at s.counts.counts };

    ghost write_count = { λ s. s.write_faults };

    fn fetch(&mut self, role: Role, name: &str, at: u64, buf: &mut [u8]) -> Result<usize, Failed> {
        self.writing = None;
        match read_at(&self.rt, self.alloc, &mut self.reading, name, at, buf) {
            Ok(count) => Ok(count),
            Err(_) => {
                self.counts.raise(role);
                Err(Failed)
            }
        }
    }

    fn clear(&mut self, name: &str) -> Result<(), Failed> {
        self.reading = None;
        self.writing = None;
        if fs::create(&self.rt, name).is_err() {
            self.write_faults = raised(self.write_faults);
            return Err(Failed);
        }
        Ok(())
    }

    fn append(&mut self, name: &str, bytes: &[u8]) -> Result<usize, Failed> {
        self.reading = None;
        match write_at_end(&self.rt, self.alloc, &mut self.writing, name, bytes) {
            Some(count) => Ok(count),
            None => {
                self.write_faults = raised(self.write_faults);
                Err(Failed)
            }
        }
    }

    fn read_faults(&self, role: Role) -> u64 {
        self.counts.of(role)
    }

    fn write_faults(&self) -> u64 {
        self.write_faults
    }
}

/// Reads from this position of the name, through the file that is open where it is the right one.
fn read_at<R: rt::Files>(
    rt: &R,
    alloc: Global,
    reading: &mut Option<Opened<R::File>>,
    name: &str,
    at: u64,
    buf: &mut [u8],
) -> io::Result<usize>
    ensures { IfOk result (λ n. n ≤ length buf.new) }
{
    let mut opened = match reading.take() {
        Some(opened) if opened.name.as_str() == name => opened,
        _ => Opened {
            name: String::from_str(alloc, name)?,
            file: fs::open(rt, name)?,
            at: 0,
        },
    };
    if opened.at != at {
        let _ = opened.file.seek(SeekFrom::Start(at))?;
    }
    let count = read_some(&mut opened.file, buf)?;
    opened.at = at.saturating_add(count as u64);
    *reading = Some(opened);
    Ok(count)
}

/// Reads once, and again after each interrupt.
fn read_some<F: Read>(file: &mut F, buf: &mut [u8]) -> io::Result<usize>
    ensures { IfOk result (λ n. n ≤ length buf.new) }
{
    for _ in 0..u64::MAX {
        match file.read(buf) {
            Ok(count) => return Ok(count),
            Err(error) => {
                if error.kind() != ErrorKind::Interrupted {
                    return Err(error);
                }
            }
        }
    }
    Err(io::Error::from(ErrorKind::Interrupted))
}

/// Writes at the end of the name, through the file that is open where it is the right one.
fn write_at_end<R: rt::Files>(
    rt: &R,
    alloc: Global,
    writing: &mut Option<Opened<R::File>>,
    name: &str,
    bytes: &[u8],
) -> Option<usize>
    ensures bound { IfSome result (λ n. n ≤ length bytes.now) }
    ensures some { IfSome result (λ n. 0 < length bytes.now → 0 < n) }
{
    let mut opened = match writing.take() {
        Some(opened) if opened.name.as_str() == name => opened,
        _ => open_at_end(rt, alloc, name).ok()?,
    };
    let count = write_some(&mut opened.file, bytes)?;
    *writing = Some(opened);
    Some(count)
}

/// Opens the name for writing at its end, and makes it where it isn't there.
fn open_at_end<R: rt::Files>(rt: &R, alloc: Global, name: &str) -> io::Result<Opened<R::File>> {
    Ok(Opened {
        name: String::from_str(alloc, name)?,
        file: OpenOptions::new().append(true).create(true).open(rt, name)?,
        at: 0,
    })
}
