//! Whole files and whole pieces, through calls that take a part at a time.

ghost use Rattle.std.specs.Prelude.{◌≡◌, ℕ, ◌<◌, ◌≤◌, length, IfOk, OnOk, OnErr, IsErrOf};
ghost use Rattle.std.specs.Io.KnownBytes.{Appends};
ghost use Rattle.argue_outside.specs.Outside.{IsRole, FaultCounted, OtherCountsKept, OtherFilesKept, HoldsStill, HoldsWhole, IsLonger, Adds, AddsPart, AppendsPart};

use crate::{Failed, Files, ReadStop, Role, Sink};
use lists::Bytes;
use std::alloc::Global;

/// How many bytes a read asks for at a time.
const CHUNK: usize = 262_144;

/// The whole bytes of a name, of which there are at most `limit`.
///
/// `Failed` comes where a read failed, as it does for a name that isn't there and never for one that is
/// served, `TooLong` where the name has more bytes than `limit`, and `Memory` where the bytes had no room.
/// All contents stay in every case, and no fault is counted but with `Failed`.
pub fn read_all<F: Files>(
    alloc: Global,
    files: &mut F,
    role: Role,
    name: &str,
    limit: u64,
) -> Result<Bytes, ReadStop>
    requires { IsRole role }
    ensures whole { IfOk result (λ bytes. HoldsWhole (F.holds files.old name.now) bytes) }
    ensures short { IfOk result (λ bytes. length bytes ≤ limit) }
    ensures too_long { IsErrOf result ReadStop.TooLong → IsLonger (F.holds files.old name.now) limit }
    ensures failed { IsErrOf result ReadStop.Failed → FaultCounted (F.read_count files.old role)
        (F.read_count files.new role) }
    ensures served { IsErrOf result ReadStop.Failed → ¬ F.serves files.old name.now }
    ensures serving { HoldsStill (F.serves files.old) (F.serves files.new) }
    ensures accepting { HoldsStill (F.accepts files.old) (F.accepts files.new) }
    ensures refusing { HoldsStill (F.accepts files.new) (F.accepts files.old) }
    ensures later { F.read_count files.old role ≤ F.read_count files.new role }
    ensures quiet { ¬ IsErrOf result ReadStop.Failed → F.read_count files.new ≡ F.read_count files.old }
    ensures others { OtherCountsKept role (F.read_count files.old) (F.read_count files.new) }
    ensures writes { F.write_count files.new ≡ F.write_count files.old }
    ensures same { F.holds files.new ≡ F.holds files.old }
{
    let mut chunk = vec![in alloc; 0u8; CHUNK]?;
    read_chunks(alloc, files, role, name, limit, chunk.as_mut_slice())
}

/// Reads a chunk at a time until the end, or until there are more bytes than the limit.
fn read_chunks<F: Files>(
    alloc: Global,
    files: &mut F,
    role: Role,
    name: &str,
    limit: u64,
    chunk: &mut [u8],
) -> Result<Bytes, ReadStop>
    requires role { IsRole role }
    requires room { 0 < length chunk.old }
    ensures whole { IfOk result (λ bytes. HoldsWhole (F.holds files.old name.now) bytes) }
    ensures short { IfOk result (λ bytes. length bytes ≤ limit) }
    ensures too_long { IsErrOf result ReadStop.TooLong → IsLonger (F.holds files.old name.now) limit }
    ensures failed { IsErrOf result ReadStop.Failed → FaultCounted (F.read_count files.old role)
        (F.read_count files.new role) }
    ensures served { IsErrOf result ReadStop.Failed → ¬ F.serves files.old name.now }
    ensures serving { HoldsStill (F.serves files.old) (F.serves files.new) }
    ensures accepting { HoldsStill (F.accepts files.old) (F.accepts files.new) }
    ensures refusing { HoldsStill (F.accepts files.new) (F.accepts files.old) }
    ensures later { F.read_count files.old role ≤ F.read_count files.new role }
    ensures quiet { ¬ IsErrOf result ReadStop.Failed → F.read_count files.new ≡ F.read_count files.old }
    ensures others { OtherCountsKept role (F.read_count files.old) (F.read_count files.new) }
    ensures writes { F.write_count files.new ≡ F.write_count files.old }
    ensures same { F.holds files.new ≡ F.holds files.old }
{
    let mut bytes = Bytes::new(alloc);
    while bytes.len() as u64 <= limit {
        let count = files.fetch(role, name, bytes.len() as u64, chunk)?;
        if count == 0 {
            return Ok(bytes);
        }
        bytes.extend(&chunk[..count])?;
    }
    Err(ReadStop::TooLong)
}

/// Puts all bytes into the sink. After `Failed` a prefix of them was taken.
pub fn put_all<O: Sink>(sink: &mut O, bytes: &[u8]) -> Result<(), Failed>
    ensures ok { OnOk result (Appends (O.contents sink.old) (O.contents sink.new) bytes.now) }
    ensures err { OnErr result (AppendsPart (O.contents sink.old) (O.contents sink.new) bytes.now) }
    ensures later { O.fault_count sink.old ≤ O.fault_count sink.new }
    ensures quiet { OnOk result (O.fault_count sink.new ≡ O.fault_count sink.old) }
    ensures failed { OnErr result (FaultCounted (O.fault_count sink.old) (O.fault_count sink.new)) }
{
    let mut taken = 0;
    while taken < bytes.len() {
        taken += sink.put(&bytes[taken..])?;
    }
    Ok(())
}

/// Adds all bytes at the end of the name's bytes. After `Failed` a prefix of them was taken, and the name isn't
/// accepted.
pub fn append_all<F: Files>(files: &mut F, name: &str, bytes: &[u8]) -> Result<(), Failed>
    ensures ok { OnOk result (Adds (F.holds files.old name.now) (F.holds files.new name.now) bytes.now) }
    ensures err { OnErr result (AddsPart (F.holds files.old name.now) (F.holds files.new name.now) bytes.now) }
    ensures others { OtherFilesKept name.now (F.holds files.old) (F.holds files.new) }
    ensures serving { HoldsStill (F.serves files.old) (F.serves files.new) }
    ensures accepted { OnErr result (¬ F.accepts files.new name.now) }
    ensures accepting { OnOk result (HoldsStill (F.accepts files.old) (F.accepts files.new)) }
    ensures refusing { HoldsStill (F.accepts files.new) (F.accepts files.old) }
    ensures later { F.write_count files.old ≤ F.write_count files.new }
    ensures quiet { OnOk result (F.write_count files.new ≡ F.write_count files.old) }
    ensures failed { OnErr result (FaultCounted (F.write_count files.old) (F.write_count files.new)) }
    ensures reads { F.read_count files.new ≡ F.read_count files.old }
{
    let mut taken = 0;
    while taken < bytes.len() {
        taken += files.append(name, &bytes[taken..])?;
    }
    Ok(())
}
