//! A sink over memory, whose bytes are known, and of which a test names the puts that are to fail.

ghost use Rattle.std.specs.Prelude.{◌≡◌, ℕ, ◌+◌, ◌<◌, ◌≤◌, max, [], length, Contains, Some, IfOk, IsErr, OnOk, OnErr};
ghost use Rattle.std.specs.Io.KnownBytes.{WriteAppends};
ghost use Rattle.argue_outside.specs.Outside.{FaultCounted, next_call};

use crate::counts::{Plan, raised};
use crate::{Failed, Planned, Sink};
use lists::{Bytes, Items};
use std::alloc::Global;

/// A sink over memory. A put fails whose number is in the list of those that are to fail, counted
/// from 1, and otherwise only for want of memory.

pub struct MemSink {
    bytes: Bytes,
    faults: u64,
    plan: Plan,
    most: usize,
}

// By hand, so that a drop is one call (docs/PROVING.md).
impl Drop for MemSink {
    fn drop(self) {
        let MemSink {
            bytes: _,
            faults: _,
            plan: _,
            most: _,
        } = self;
    }
}

impl MemSink {
    /// An empty sink, of which no put is to fail.
    pub fn new(alloc: Global) -> MemSink
        ensures empty { ⟦<MemSink as Sink>⟧.contents result ≡ Some [] }
        ensures faults { ⟦<MemSink as Sink>⟧.fault_count result ≡ 0 }
        ensures to_fail { ⟦<MemSink as Planned>⟧.to_fail result ≡ [] }
        ensures calls { ⟦<MemSink as Planned>⟧.call_count result ≡ 0 }
        ensures most { ⟦<MemSink as Planned>⟧.most result ≡ usize.MAX }
    {
        MemSink::failing(alloc, Items::new(alloc), usize::MAX)
    }

    /// An empty sink. The puts with these numbers fail, and a put takes at most `most` bytes, and at
    /// least one where there is any.
    pub fn failing(alloc: Global, puts: Items<u64>, most: usize) -> MemSink
        ensures empty { ⟦<MemSink as Sink>⟧.contents result ≡ Some [] }
        ensures faults { ⟦<MemSink as Sink>⟧.fault_count result ≡ 0 }
        ensures to_fail { ⟦<MemSink as Planned>⟧.to_fail result ≡ puts }
        ensures calls { ⟦<MemSink as Planned>⟧.call_count result ≡ 0 }
        ensures most { ⟦<MemSink as Planned>⟧.most result ≡ most }
    {
        MemSink {
            bytes: Bytes::new(alloc),
            faults: 0,
            plan: Plan::new(puts),
            most,
        }
    }

    /// The bytes that were taken.
    pub fn bytes(&self) -> &[u8]
        ensures { ⟦<MemSink as Sink>⟧.contents self.now ≡ Some result.now }
    {
        self.bytes.as_slice()
    }
}

impl Sink for MemSink {
    ghost use Rattle.std.specs.Prelude.{Some};

    ghost contents = { λ s. Some s.bytes };

    ghost fault_count = { λ s. s.faults };

    /// Fails where this put is one of those that are to fail, and otherwise only for want of memory.
    fn put(&mut self, bytes: &[u8]) -> Result<usize, Failed>
        ensures bound { IfOk result (λ n. n ≤ length bytes.now) }
        ensures some { IfOk result (λ n. 0 < length bytes.now → 0 < n) }
        ensures bytes { WriteAppends (⟦<MemSink as Sink>⟧.contents self.old) (⟦<MemSink as Sink>⟧.contents self.new)
            result bytes.now }
        ensures later { ⟦<MemSink as Sink>⟧.fault_count self.old ≤ ⟦<MemSink as Sink>⟧.fault_count self.new }
        ensures quiet { OnOk result (⟦<MemSink as Sink>⟧.fault_count self.new
            ≡ ⟦<MemSink as Sink>⟧.fault_count self.old) }
        ensures failed { OnErr result (FaultCounted (⟦<MemSink as Sink>⟧.fault_count self.old)
            (⟦<MemSink as Sink>⟧.fault_count self.new)) }
        ensures piece { IfOk result (λ n. n ≤ max (⟦<MemSink as Planned>⟧.most self.old) 1) }
        ensures planned { Contains (⟦<MemSink as Planned>⟧.to_fail self.old)
            (next_call (⟦<MemSink as Planned>⟧.call_count self.old)) → IsErr result }
        ensures counted { ⟦<MemSink as Planned>⟧.call_count self.new
            ≡ next_call (⟦<MemSink as Planned>⟧.call_count self.old) }
        ensures to_fail { ⟦<MemSink as Planned>⟧.to_fail self.new ≡ ⟦<MemSink as Planned>⟧.to_fail self.old }
        ensures most { ⟦<MemSink as Planned>⟧.most self.new ≡ ⟦<MemSink as Planned>⟧.most self.old }
    {
        let count = bytes.len().min(self.most.max(1));
        if self.plan.fails() || self.bytes.extend(&bytes[..count]).is_err() {
            self.faults = raised(self.faults);
            return Err(Failed);
        }
        Ok(count)
    }

    fn faults(&self) -> u64 {
        self.faults
    }
}

impl Planned for MemSink {
    ghost to_fail = { λ s. s.plan.failing };

    ghost call_count = { λ s. s.plan.calls };

    ghost most = { λ s. s.most };

    fn calls(&self) -> u64 {
        self.plan.calls
    }
}
