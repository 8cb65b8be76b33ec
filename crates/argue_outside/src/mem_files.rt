//! Files over memory, whose contents are known, and of which a test names the calls that are to fail.

ghost use Rattle.std.specs.Prelude.{◌≡◌, ℕ, ◌+◌, ◌<◌, ◌≤◌, ◌⊎◌, max, [], ◌++◌, take, length, Contains, List, Option, None, Some, OnOk, OnErr, IfOk, IsErr, IsSome, MatchOption, string_bytes};
ghost use Rattle.std.specs.BTreeMap.{get_by_text};
ghost use Rattle.argue_outside.specs.Outside.{IsRole, FaultCounted, HoldsStill, IsPieceAt, KnownFile, Fetches, Clears, Adds, OtherCountsKept, OtherFilesKept, next_call};
ghost use Rattle.argue_outside.specs.declared.Role.{Role as ARole};
ghost use Rattle.argue_outside.specs.MemHeld.{held_by};

use crate::counts::{Counts, Plan, raised};
use crate::{Failed, Files, Planned, Role};
use lists::{Bytes, Items, Memory};
use std::alloc::Global;
use std::collections::BTreeMap;

/// Files over memory. A fetch fails for a name that isn't there, a clear or an append where memory is
/// refused to the files, and every call whose number is in the list of those that are to fail: fetches,
/// clears and appends are counted together, from 1.
pub struct MemFiles {
    alloc: Global,
    files: BTreeMap<String, Bytes>,
    counts: Counts,
    write_faults: u64,
    refusals: u64,
    plan: Plan,
    most: usize,
}

// By hand, so that a drop is one call (docs/PROVING.md).
impl Drop for MemFiles {
    fn drop(self) {
        let MemFiles {
            alloc: _,
            files: _,
            counts: _,
            write_faults: _,
            refusals: _,
            plan: _,
            most: _,
        } = self;
    }
}

impl MemFiles {
    /// No file, and no call that is to fail.
    pub fn new(alloc: Global) -> MemFiles
        ensures empty { (name : List ℕ) → ⟦<MemFiles as Files>⟧.holds result name ≡ Some None }
        ensures reads { (role : ARole) → ⟦<MemFiles as Files>⟧.read_count result role ≡ 0 }
        ensures writes { ⟦<MemFiles as Files>⟧.write_count result ≡ 0 }
        ensures to_fail { ⟦<MemFiles as Planned>⟧.to_fail result ≡ [] }
        ensures calls { ⟦<MemFiles as Planned>⟧.call_count result ≡ 0 }
        ensures most { ⟦<MemFiles as Planned>⟧.most result ≡ usize.MAX }
    {
        MemFiles::failing(alloc, Items::new(alloc), usize::MAX)
    }

    /// No file. The calls with these numbers fail, and a fetch or an append moves at most `most` bytes,
    /// and at least one where there is any.
    pub fn failing(alloc: Global, calls: Items<u64>, most: usize) -> MemFiles
        ensures empty { (name : List ℕ) → ⟦<MemFiles as Files>⟧.holds result name ≡ Some None }
        ensures reads { (role : ARole) → ⟦<MemFiles as Files>⟧.read_count result role ≡ 0 }
        ensures writes { ⟦<MemFiles as Files>⟧.write_count result ≡ 0 }
        ensures to_fail { ⟦<MemFiles as Planned>⟧.to_fail result ≡ calls }
        ensures calls { ⟦<MemFiles as Planned>⟧.call_count result ≡ 0 }
        ensures most { ⟦<MemFiles as Planned>⟧.most result ≡ most }
    {
        MemFiles {
            files: BTreeMap::new(alloc),
            alloc,
            counts: Counts::new(),
            write_faults: 0,
            refusals: 0,
            plan: Plan::new(calls),
            most,
        }
    }

    /// The bytes of a name, where it is there. With no call that is to fail, such a name is served. Only tests call it,
    /// to see what was written.
    pub fn bytes_of(&self, name: &str) -> Option<&[u8]>
        ensures served { IsSome result → ⟦<MemFiles as Planned>⟧.to_fail self.now ≡ []
            → ⟦<MemFiles as Files>⟧.serves self.now name.now }
        ensures bytes { MatchOption result (⟦<MemFiles as Files>⟧.holds self.now name.now ≡ Some None)
            (λ bytes. ⟦<MemFiles as Files>⟧.holds self.now name.now ≡ Some (Some bytes.now)) }
    {
        match self.files.get(name) {
            Some(bytes) => Some(bytes.as_slice()),
            None => None,
        }
    }

    /// How often memory was refused to the files. Where it never was and no call is to fail, every name
    /// is accepted. Nothing calls it: contracts name what it tells.
    pub fn refusals(&self) -> u64
        ensures { result ≡ 0 → ⟦<MemFiles as Planned>⟧.to_fail self.now ≡ [] → (name : List ℕ)
            → ⟦<MemFiles as Files>⟧.accepts self.now name }
    {
        self.refusals
    }
}

impl Files for MemFiles {
    ghost use Rattle.argue_outside.specs.MemHeld.{held_by, IsServed, IsAccepted};
    ghost use Rattle.argue_outside.specs.Counted.{count_at};

    ghost holds = { λ s. held_by s.files };

    ghost serves = { λ s name. IsServed s.plan.failing (held_by s.files name) };

    ghost accepts = { λ s name. IsAccepted s.plan.failing s.refusals };

    ghost read_count = { λ s. count_at s.counts.counts };

    ghost write_count = { λ s. s.write_faults };

    /// Fails exactly where this call is one of those that are to fail, or the name isn't there.
    fn fetch(&mut self, role: Role, name: &str, at: u64, buf: &mut [u8]) -> Result<usize, Failed>
        requires { IsRole role }
        ensures bound { IfOk result (λ n. n ≤ length buf.new) }
        ensures bytes { IfOk result (λ n. Fetches (⟦<MemFiles as Files>⟧.holds self.old name.now) at n buf.new) }
        ensures same { ⟦<MemFiles as Files>⟧.holds self.new ≡ ⟦<MemFiles as Files>⟧.holds self.old }
        ensures served { OnErr result (¬ ⟦<MemFiles as Files>⟧.serves self.old name.now) }
        ensures serving { HoldsStill (⟦<MemFiles as Files>⟧.serves self.old) (⟦<MemFiles as Files>⟧.serves self.new) }
        ensures accepting { HoldsStill (⟦<MemFiles as Files>⟧.accepts self.old) (⟦<MemFiles as Files>⟧.accepts self.new) }
        ensures refusing { HoldsStill (⟦<MemFiles as Files>⟧.accepts self.new) (⟦<MemFiles as Files>⟧.accepts self.old) }
        ensures later { ⟦<MemFiles as Files>⟧.read_count self.old role ≤ ⟦<MemFiles as Files>⟧.read_count self.new role }
        ensures quiet { OnOk result (⟦<MemFiles as Files>⟧.read_count self.new
            ≡ ⟦<MemFiles as Files>⟧.read_count self.old) }
        ensures failed { OnErr result (FaultCounted (⟦<MemFiles as Files>⟧.read_count self.old role)
            (⟦<MemFiles as Files>⟧.read_count self.new role)) }
        ensures others { OtherCountsKept role (⟦<MemFiles as Files>⟧.read_count self.old)
            (⟦<MemFiles as Files>⟧.read_count self.new) }
        ensures writes { ⟦<MemFiles as Files>⟧.write_count self.new ≡ ⟦<MemFiles as Files>⟧.write_count self.old }
        ensures piece { IfOk result (λ n. n ≤ max (⟦<MemFiles as Planned>⟧.most self.old) 1) }
        ensures planned { Contains (⟦<MemFiles as Planned>⟧.to_fail self.old)
            (next_call (⟦<MemFiles as Planned>⟧.call_count self.old)) → IsErr result }
        ensures unplanned { OnErr result (Contains (⟦<MemFiles as Planned>⟧.to_fail self.old)
            (next_call (⟦<MemFiles as Planned>⟧.call_count self.old)) ⊎ (⟦<MemFiles as Files>⟧.holds self.old name.now
            ≡ Some None)) }
        ensures counted { ⟦<MemFiles as Planned>⟧.call_count self.new
            ≡ next_call (⟦<MemFiles as Planned>⟧.call_count self.old) }
        ensures to_fail { ⟦<MemFiles as Planned>⟧.to_fail self.new ≡ ⟦<MemFiles as Planned>⟧.to_fail self.old }
        ensures most { ⟦<MemFiles as Planned>⟧.most self.new ≡ ⟦<MemFiles as Planned>⟧.most self.old }
    {
        if self.plan.fails() {
            self.counts.raise(role);
            return Err(Failed);
        }
        match self.files.get(name) {
            Some(bytes) => Ok(copy_piece(bytes.as_slice(), at, self.most, buf)),
            None => {
                self.counts.raise(role);
                Err(Failed)
            }
        }
    }

    /// Fails where this call is one of those that are to fail, and otherwise only for want of memory.
    fn clear(&mut self, name: &str) -> Result<(), Failed>
        ensures cleared { OnOk result (Clears (⟦<MemFiles as Files>⟧.holds self.old name.now)
            (⟦<MemFiles as Files>⟧.holds self.new name.now)) }
        ensures others { OtherFilesKept name.now (⟦<MemFiles as Files>⟧.holds self.old)
            (⟦<MemFiles as Files>⟧.holds self.new) }
        ensures err { OnErr result (⟦<MemFiles as Files>⟧.holds self.new ≡ ⟦<MemFiles as Files>⟧.holds self.old) }
        ensures serving { HoldsStill (⟦<MemFiles as Files>⟧.serves self.old) (⟦<MemFiles as Files>⟧.serves self.new) }
        ensures accepted { OnErr result (¬ ⟦<MemFiles as Files>⟧.accepts self.new name.now) }
        ensures accepting { OnOk result (HoldsStill (⟦<MemFiles as Files>⟧.accepts self.old)
            (⟦<MemFiles as Files>⟧.accepts self.new)) }
        ensures refusing { HoldsStill (⟦<MemFiles as Files>⟧.accepts self.new) (⟦<MemFiles as Files>⟧.accepts self.old) }
        ensures later { ⟦<MemFiles as Files>⟧.write_count self.old ≤ ⟦<MemFiles as Files>⟧.write_count self.new }
        ensures quiet { OnOk result (⟦<MemFiles as Files>⟧.write_count self.new
            ≡ ⟦<MemFiles as Files>⟧.write_count self.old) }
        ensures failed { OnErr result (FaultCounted (⟦<MemFiles as Files>⟧.write_count self.old)
            (⟦<MemFiles as Files>⟧.write_count self.new)) }
        ensures reads { ⟦<MemFiles as Files>⟧.read_count self.new ≡ ⟦<MemFiles as Files>⟧.read_count self.old }
        ensures planned { Contains (⟦<MemFiles as Planned>⟧.to_fail self.old)
            (next_call (⟦<MemFiles as Planned>⟧.call_count self.old)) → IsErr result }
        ensures counted { ⟦<MemFiles as Planned>⟧.call_count self.new
            ≡ next_call (⟦<MemFiles as Planned>⟧.call_count self.old) }
        ensures to_fail { ⟦<MemFiles as Planned>⟧.to_fail self.new ≡ ⟦<MemFiles as Planned>⟧.to_fail self.old }
        ensures most { ⟦<MemFiles as Planned>⟧.most self.new ≡ ⟦<MemFiles as Planned>⟧.most self.old }
    {
        if self.plan.fails() {
            self.write_faults = raised(self.write_faults);
            return Err(Failed);
        }
        match replace(self.alloc, &mut self.files, name, Bytes::new(self.alloc)) {
            Ok(()) => Ok(()),
            Err(Memory) => {
                self.refusals = raised(self.refusals);
                self.write_faults = raised(self.write_faults);
                Err(Failed)
            }
        }
    }

    /// Fails where this call is one of those that are to fail, and otherwise only for want of memory.
    fn append(&mut self, name: &str, bytes: &[u8]) -> Result<usize, Failed>
        ensures bound { IfOk result (λ n. n ≤ length bytes.now) }
        ensures some { IfOk result (λ n. 0 < length bytes.now → 0 < n) }
        ensures added { IfOk result (λ n. Adds (⟦<MemFiles as Files>⟧.holds self.old name.now)
            (⟦<MemFiles as Files>⟧.holds self.new name.now) (take n bytes.now)) }
        ensures others { OtherFilesKept name.now (⟦<MemFiles as Files>⟧.holds self.old)
            (⟦<MemFiles as Files>⟧.holds self.new) }
        ensures err { OnErr result (⟦<MemFiles as Files>⟧.holds self.new ≡ ⟦<MemFiles as Files>⟧.holds self.old) }
        ensures serving { HoldsStill (⟦<MemFiles as Files>⟧.serves self.old) (⟦<MemFiles as Files>⟧.serves self.new) }
        ensures accepted { OnErr result (¬ ⟦<MemFiles as Files>⟧.accepts self.new name.now) }
        ensures accepting { OnOk result (HoldsStill (⟦<MemFiles as Files>⟧.accepts self.old)
            (⟦<MemFiles as Files>⟧.accepts self.new)) }
        ensures refusing { HoldsStill (⟦<MemFiles as Files>⟧.accepts self.new) (⟦<MemFiles as Files>⟧.accepts self.old) }
        ensures later { ⟦<MemFiles as Files>⟧.write_count self.old ≤ ⟦<MemFiles as Files>⟧.write_count self.new }
        ensures quiet { OnOk result (⟦<MemFiles as Files>⟧.write_count self.new
            ≡ ⟦<MemFiles as Files>⟧.write_count self.old) }
        ensures failed { OnErr result (FaultCounted (⟦<MemFiles as Files>⟧.write_count self.old)
            (⟦<MemFiles as Files>⟧.write_count self.new)) }
        ensures reads { ⟦<MemFiles as Files>⟧.read_count self.new ≡ ⟦<MemFiles as Files>⟧.read_count self.old }
        ensures piece { IfOk result (λ n. n ≤ max (⟦<MemFiles as Planned>⟧.most self.old) 1) }
        ensures planned { Contains (⟦<MemFiles as Planned>⟧.to_fail self.old)
            (next_call (⟦<MemFiles as Planned>⟧.call_count self.old)) → IsErr result }
        ensures counted { ⟦<MemFiles as Planned>⟧.call_count self.new
            ≡ next_call (⟦<MemFiles as Planned>⟧.call_count self.old) }
        ensures to_fail { ⟦<MemFiles as Planned>⟧.to_fail self.new ≡ ⟦<MemFiles as Planned>⟧.to_fail self.old }
        ensures most { ⟦<MemFiles as Planned>⟧.most self.new ≡ ⟦<MemFiles as Planned>⟧.most self.old }
    {
        if self.plan.fails() {
            self.write_faults = raised(self.write_faults);
            return Err(Failed);
        }
        let count = bytes.len().min(self.most.max(1));
        match extend(self.alloc, &mut self.files, name, &bytes[..count]) {
            Ok(()) => Ok(count),
            Err(Memory) => {
                self.refusals = raised(self.refusals);
                self.write_faults = raised(self.write_faults);
                Err(Failed)
            }
        }
    }

    fn read_faults(&self, role: Role) -> u64 {
        self.counts.of(role)
    }

    fn write_faults(&self) -> u64 {
        self.write_faults
    }
}

impl Planned for MemFiles {
    ghost to_fail = { λ s. s.plan.failing };

    ghost call_count = { λ s. s.plan.calls };

    ghost most = { λ s. s.most };

    fn calls(&self) -> u64 {
        self.plan.calls
    }
}

/// Copies bytes from this position on to the buffer's front, at most `most` and at least one where there
/// is any and the buffer has room.
fn copy_piece(bytes: &[u8], at: u64, most: usize, buf: &mut [u8]) -> usize
    ensures bound { result ≤ length buf.new }
    ensures few { result ≤ max most 1 }
    ensures piece { IsPieceAt bytes.now at result buf.new }
{
    if at >= bytes.len() as u64 {
        return 0;
    }
    let rest = &bytes[at as usize..];
    let count = rest.len().min(buf.len()).min(most.max(1));
    buf[..count].copy_from_slice(&rest[..count]);
    count
}

/// Gives the name these bytes.
fn replace(
    alloc: Global,
    files: &mut BTreeMap<String, Bytes>,
    name: &str,
    bytes: Bytes,
) -> Result<(), Memory>
    ensures ok { OnOk result (held_by files.new name.now ≡ Some (Some bytes)) }
    ensures others { OtherFilesKept name.now (held_by files.old) (held_by files.new) }
    ensures err { OnErr result (held_by files.new ≡ held_by files.old) }
{
    let key = String::from_str(alloc, name)?;
    let Ok(_) = files.insert(key, bytes) else {
        return Err(Memory);
    };
    Ok(())
}

/// Adds a piece at the end of the name's bytes.
fn extend(
    alloc: Global,
    files: &mut BTreeMap<String, Bytes>,
    name: &str,
    piece: &[u8],
) -> Result<(), Memory>
    ensures ok { OnOk result (Adds (held_by files.old name.now) (held_by files.new name.now) piece.now) }
    ensures others { OtherFilesKept name.now (held_by files.old) (held_by files.new) }
    ensures err { OnErr result (held_by files.new ≡ held_by files.old) }
{
    if let Some(held) = files.get_mut(name) {
        held.extend(piece)?;
        return Ok(());
    }
    let mut bytes = Bytes::new(alloc);
    bytes.extend(piece)?;
    replace(alloc, files, name, bytes)
}
