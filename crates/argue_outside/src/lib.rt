//! The outside of Burgaouez as traits: files by name, a sink of bytes and a gate for tests. Contracts
//! speak of what a name holds, as far as that is known, of the names that are served, and of counts of
//! faults. Two implementations stand here, one over memory and one over the real files and standard
//! output.
#![tactic(auto)]

ghost use Rattle.std.specs.Prelude.{◌≡◌, ℕ, ◌+◌, ◌<◌, ◌≤◌, List, Option, length, take, IfOk, OnOk, OnErr};
ghost use Rattle.std.specs.Io.KnownBytes.{WriteAppends};
ghost use Rattle.argue_outside.specs.Outside.{IsRole, FaultCounted, OtherCountsKept, OtherFilesKept, HoldsStill, Fetches, Clears, Adds};

mod counts;
pub mod mem_files;
pub mod mem_sink;
pub mod real_files;
pub mod real_out;
pub mod whole;

use lists::Memory;
pub use mem_files::MemFiles;
pub use mem_sink::MemSink;
pub use real_files::RealFiles;
pub use real_out::RealOut;
use std::alloc::AllocError;
pub use whole::{append_all, put_all, read_all};

/// A call to the outside failed, and the fault was counted.
#[derive(Clone, Copy, Debug, PartialEq, Eq)]
pub struct Failed;

/// What a file is read for. Faults of reading are counted for each role apart.
#[derive(Clone, Copy)]
pub enum Role {
    /// The framework with this number, from 1 to 16.
    Framework(u32),
    /// A script of edits and queries.
    Script,
    /// An answer that is to be checked.
    Answer,
    /// A certificate that is to be checked.
    Certificate,
    /// A list of files.
    List,
    /// A formula in the DIMACS form.
    Cnf,
    /// A proof in the LRAT form.
    Lrat,
}

/// Why a whole file could not be read.
#[derive(Clone, Copy, Debug)]
pub enum ReadStop {
    /// A read failed, and the fault was counted in its role.
    Failed,
    /// The file has more bytes than the limit.
    TooLong,
    /// There was no memory for the bytes.
    Memory,
}

impl From<Failed> for ReadStop {
    ghost use Rattle.std.specs.Prelude.{◌≡◌};
    ghost use Rattle.argue_outside.specs.declared.ReadStop.TheVariants as stop;

    ghost from_gives = { λ _ e. e ≡ stop.Failed };

    fn from(_error: Failed) -> ReadStop {
        ReadStop::Failed
    }
}

impl From<Memory> for ReadStop {
    ghost use Rattle.std.specs.Prelude.{◌≡◌};
    ghost use Rattle.argue_outside.specs.declared.ReadStop.TheVariants as stop;

    ghost from_gives = { λ _ e. e ≡ stop.Memory };

    fn from(_error: Memory) -> ReadStop {
        ReadStop::Memory
    }
}

impl From<AllocError> for ReadStop {
    ghost use Rattle.std.specs.Prelude.{◌≡◌};
    ghost use Rattle.argue_outside.specs.declared.ReadStop.TheVariants as stop;

    ghost from_gives = { λ _ e. e ≡ stop.Memory };

    fn from(_error: AllocError) -> ReadStop {
        ReadStop::Memory
    }
}

/// A place in a session's life.
#[derive(Clone, Copy)]
pub enum Point {
    BeforeEdit,
    AfterEdit,
    BeforeAsk,
    InAsk,
    AfterAsk,
}

/// Contents by name, as far as they are known, and a count of faults for each role and for writing. A count
/// stands in a call that succeeds.
///
/// Two facts of a name say that its calls succeed, so that a fault has a cause besides its count. That a name
/// is served is known beforehand. Whether writes have room is not: a failed write shows that its name
/// wasn't accepted.
pub trait Files {
    ghost use Rattle.std.specs.Prelude.{◌≡◌, ℕ, List, Option};
    ghost use Rattle.argue_outside.specs.declared.Role.{Role};

    /// What is known of each name.
    ghost holds: { Self → List ℕ → Option (Option (List ℕ)) };

    /// Each fetch of this name succeeds, as far as that is known.
    ghost serves: { Self → List ℕ → Type 0 };

    /// Each clear and append of this name has succeeded, and will as far as that is known.
    ghost accepts: { Self → List ℕ → Type 0 };

    /// The faults of reading, for each role.
    ghost read_count: { Self → Role → ℕ };

    /// The faults of writing.
    ghost write_count: { Self → ℕ };

    /// Gives bytes of the name from position `at` on, and says how many; 0 for a buffer with room means
    /// the end. A name that isn't there is `Failed`, and one that is served never is. All contents stay.
    fn fetch(&mut self, role: Role, name: &str, at: u64, buf: &mut [u8]) -> Result<usize, Failed>
        requires { IsRole role }
        ensures bound { IfOk result (λ n. n ≤ length buf.new) }
        ensures bytes { IfOk result (λ n. Fetches (holds self.old name.now) at n buf.new) }
        ensures same { holds self.new ≡ holds self.old }
        ensures served { OnErr result (¬ serves self.old name.now) }
        ensures serving { HoldsStill (serves self.old) (serves self.new) }
        ensures accepting { HoldsStill (accepts self.old) (accepts self.new) }
        ensures refusing { HoldsStill (accepts self.new) (accepts self.old) }
        ensures later { read_count self.old role ≤ read_count self.new role }
        ensures quiet { OnOk result (read_count self.new ≡ read_count self.old) }
        ensures failed { OnErr result (FaultCounted (read_count self.old role) (read_count self.new role)) }
        ensures others { OtherCountsKept role (read_count self.old) (read_count self.new) }
        ensures writes { write_count self.new ≡ write_count self.old };

    /// Makes the name be there without bytes. After `Failed` all contents are as before, and the name isn't
    /// accepted.
    fn clear(&mut self, name: &str) -> Result<(), Failed>
        ensures cleared { OnOk result (Clears (holds self.old name.now) (holds self.new name.now)) }
        ensures others { OtherFilesKept name.now (holds self.old) (holds self.new) }
        ensures err { OnErr result (holds self.new ≡ holds self.old) }
        ensures serving { HoldsStill (serves self.old) (serves self.new) }
        ensures accepted { OnErr result (¬ accepts self.new name.now) }
        ensures accepting { OnOk result (HoldsStill (accepts self.old) (accepts self.new)) }
        ensures refusing { HoldsStill (accepts self.new) (accepts self.old) }
        ensures later { write_count self.old ≤ write_count self.new }
        ensures quiet { OnOk result (write_count self.new ≡ write_count self.old) }
        ensures failed { OnErr result (FaultCounted (write_count self.old) (write_count self.new)) }
        ensures reads { read_count self.new ≡ read_count self.old };

    /// Adds a prefix of the piece at the end of the name's bytes, and says how long it is: at least one
    /// byte where the piece has any. After `Failed` all contents are as before, and the name isn't accepted.
    fn append(&mut self, name: &str, bytes: &[u8]) -> Result<usize, Failed>
        ensures bound { IfOk result (λ n. n ≤ length bytes.now) }
        ensures some { IfOk result (λ n. 0 < length bytes.now → 0 < n) }
        ensures added { IfOk result (λ n. Adds (holds self.old name.now) (holds self.new name.now) (take n bytes.now)) }
        ensures others { OtherFilesKept name.now (holds self.old) (holds self.new) }
        ensures err { OnErr result (holds self.new ≡ holds self.old) }
        ensures serving { HoldsStill (serves self.old) (serves self.new) }
        ensures accepted { OnErr result (¬ accepts self.new name.now) }
        ensures accepting { OnOk result (HoldsStill (accepts self.old) (accepts self.new)) }
        ensures refusing { HoldsStill (accepts self.new) (accepts self.old) }
        ensures later { write_count self.old ≤ write_count self.new }
        ensures quiet { OnOk result (write_count self.new ≡ write_count self.old) }
        ensures failed { OnErr result (FaultCounted (write_count self.old) (write_count self.new)) }
        ensures reads { read_count self.new ≡ read_count self.old };

    /// The faults of reading in this role.
    fn read_faults(&self, role: Role) -> u64
        ensures { result ≡ read_count self.now role };

    /// The faults of writing.
    fn write_faults(&self) -> u64
        ensures { result ≡ write_count self.now };
}

/// Takes bytes in order, and counts its faults. The count stands in a call that succeeds.
pub trait Sink {
    /// The bytes that were taken, where they are known.
    ghost contents: { Self → Option (List ℕ) };

    /// The faults of writing.
    ghost fault_count: { Self → ℕ };

    /// Takes a prefix of the bytes and says how long it is: at least one byte where there is any.
    /// After `Failed` nothing was taken.
    fn put(&mut self, bytes: &[u8]) -> Result<usize, Failed>
        ensures bound { IfOk result (λ n. n ≤ length bytes.now) }
        ensures some { IfOk result (λ n. 0 < length bytes.now → 0 < n) }
        ensures bytes { WriteAppends (contents self.old) (contents self.new) result bytes.now }
        ensures later { fault_count self.old ≤ fault_count self.new }
        ensures quiet { OnOk result (fault_count self.new ≡ fault_count self.old) }
        ensures failed { OnErr result (FaultCounted (fault_count self.old) (fault_count self.new)) };

    /// The faults of writing.
    fn faults(&self) -> u64
        ensures { result ≡ fault_count self.now };
}

/// Files or a sink of which some calls are to fail, as a test asks it. Calls that move bytes move so many
/// at most, and at least one where there is any.
pub trait Planned {
    ghost use Rattle.std.specs.Prelude.{ℕ, List};

    /// The numbers of the calls that are to fail, counted from 1.
    ghost to_fail: { Self → List ℕ };

    /// How many calls there were.
    ghost call_count: { Self → ℕ };

    /// The most bytes that a call moves.
    ghost most: { Self → ℕ };

    /// How many calls there were.
    fn calls(&self) -> u64
        ensures { result ≡ call_count self.now };
}

/// A gate that a test passes to hold a session at a point. It has no answer and no fault.
pub trait Pace {
    /// The session with this number is at this point.
    fn at(&self, session: u32, point: Point);
}

/// A gate that holds nobody.
#[derive(Clone, Copy)]
pub struct NoPace;

impl Pace for NoPace {
    fn at(&self, _session: u32, _point: Point) {}
}
