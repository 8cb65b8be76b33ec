//! Standard output as a sink, of whose bytes nothing is known.

ghost use Rattle.std.specs.Prelude.{◌≡◌, ℕ, ◌<◌, ◌≤◌, length, None, IfSome};

use crate::counts::raised;
use crate::{Failed, Sink};
use std::io;
use std::io::{ErrorKind, Write};

/// Standard output of a runtime. A call that was interrupted is made again; one that takes nothing of
/// a piece that has bytes is a fault.
#[derive(Drop)]
pub struct RealOut<R: Print + Drop> {
    rt: R,
    faults: u64,
}

impl<R: Print + Drop> RealOut<R> {
    /// The standard output of this runtime, with no fault yet.
    pub fn new(rt: R) -> RealOut<R>
        ensures { ⟦<RealOut<R> as Sink>⟧.fault_count result ≡ 0 }
    {
        RealOut { rt, faults: 0 }
    }
}

impl<R: Print + Drop> Sink for RealOut<R> {
    ghost use Rattle.std.specs.Prelude.{None};

    ghost contents = { λ s. None };

    ghost fault_count = { λ s. s.faults };

    fn put(&mut self, bytes: &[u8]) -> Result<usize, Failed> {
        match write_some(&mut io::writer(&self.rt), bytes) {
            Some(count) => Ok(count),
            None => {
                self.faults = raised(self.faults);
                Err(Failed)
            }
        }
    }

    fn faults(&self) -> u64 {
        self.faults
    }
}

/// Writes some of the bytes, at least one where there is any, or says that this failed.
pub(crate) fn write_some<W: Write>(to: &mut W, bytes: &[u8]) -> Option<usize>
    ensures bound { IfSome result (λ n. n ≤ length bytes.now) }
    ensures some { IfSome result (λ n. 0 < length bytes.now → 0 < n) }
{
    for _ in 0..u64::MAX {
        match to.write(bytes) {
            Ok(0) if !bytes.is_empty() => return None,
            Ok(count) => return Some(count),
            Err(error) => {
                if error.kind() != ErrorKind::Interrupted {
                    return None;
                }
            }
        }
    }
    None
}
