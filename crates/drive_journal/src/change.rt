ghost use Rattle.std.specs.Prelude.{◌≡◌, ◌+◌, ◌≤◌, ◌++◌, ◌&&◌, [], IfOk, IsTrue, OnErr, OnOk};
ghost use Rattle.std.specs.Prelude.{if◌then◌else◌, is_some, length, true, vec_capacity};
ghost use Rattle.std.specs.Io.KnownBytes.{Appends};
ghost use Rattle.disk_files.specs.Output.{AppendsFront};
ghost use Rattle.nvme_wire.specs.Entry.{decode_of};
ghost use Rattle.drive_port.specs.Step.{is_success};
ghost use Rattle.zone_drive.specs.Foreseen.{CanGive};
ghost use Rattle.drive_journal.specs.Change.{beside_bytes, change_bytes, changes, mark, next_sum, start, sum_bytes};
ghost use Rattle.drive_journal.specs.Change.{sum_over};

use crate::foreseeing::Foreseeing;
use crate::store::ChangeStore;
use byteorder::{ByteOrder, LittleEndian};
use disk_files::WriteFault;
use drive_port::Device;
use nvme_wire::{Command, Status};
use sqlite_wal::checksum_of;
use std::alloc::AllocError;

/// A running checksum: it covers all changes of a file up to some point.
pub type Sum = (u32, u32);

/// The sum before the first change of a file.
pub const START: Sum = (0, 0);

/// How a change begins.
pub(crate) const MARK: [u8; 8] = *b"ZNSCHG02";

/// How a change began in the version before.
pub(crate) const EARLIER_MARK: [u8; 8] = *b"ZNSCHG01";

/// The sum after some more bytes.
pub(crate) fn sum_over(sum: Sum, bytes: &[u8]) -> Sum
    ensures { result ≡ sum_over sum bytes.now }
{
    checksum_of(false, sum, bytes)
}

/// The sum before the next change. If the file was just written anew, it starts again.
pub(crate) fn sum_before(anew: bool, sum: Sum) -> Sum
    ensures { result ≡ (if anew then start else sum) }
{
    if anew { START } else { sum }
}

/// The bytes of a sum.
#[tactic(auto, unfolding(crate::specs::Change::sum_bytes))]
pub(crate) fn sum_bytes(sum: Sum) -> [u8; 8]
    ensures { result ≡ sum_bytes sum }
{
    let (first, second) = sum;
    let mut out = [0; 8];
    LittleEndian::write_u32(&mut out[0..4], first);
    LittleEndian::write_u32(&mut out[4..8], second);
    out
}

/// The data that a command writes. Commands that write none have no data.
#[inline(always)]
pub(crate) fn written_of<'a>(entry: &[u8; 64], bytes: &'a [u8]) -> &'a [u8]
    ensures { result.now ≡ beside_bytes (decode_of entry.now) bytes.now }
{
    match Command::decode(entry) {
        Ok(Command::Write { .. } | Command::Append { .. }) => bytes,
        _ => &[],
    }
}

/// Writes the change of an entry and its data to a store. `sum` is the sum before it, and the sum
/// after it is returned. The parts are written one after the other, so that the data need not be
/// copied. After a fault a beginning of the change is written.
pub(crate) fn write_change<D: Device, S: ChangeStore<D>>(
    store: &mut S,
    sum: Sum,
    entry: &[u8; 64],
    written: &[u8],
) -> Result<Sum, WriteFault>
    ensures ok { OnOk result (Appends (S.held store.old) (S.held store.new)
        (change_bytes sum (record { entry = entry.now; bytes = written.now }))) }
    ensures next { IfOk result (λ next. next ≡ next_sum sum (record { entry = entry.now; bytes = written.now })) }
    ensures err { OnErr result (AppendsFront (S.held store.old) (S.held store.new)
        (change_bytes sum (record { entry = entry.now; bytes = written.now }))) }
    ensures known { is_some (S.held store.new) ≡ is_some (S.held store.old) }
    ensures failed { OnErr result (S.failed store.new ≡ true) }
    ensures as_before { OnOk result (S.failed store.new ≡ S.failed store.old) }
{
    let middle = sum_over(sum, entry);
    let last = sum_over(middle, written);
    store.append(&MARK)?;
    store.append(entry)?;
    store.append(&sum_bytes(middle))?;
    store.append(written)?;
    store.append(&sum_bytes(last))?;
    Ok(last)
}

/// Whether the command of this entry changes what the device holds, if there is memory for it.
pub(crate) fn will_change<D: Foreseeing>(device: &D, entry: &[u8; 64], bytes: &[u8]) -> bool
    ensures value { result ≡ (changes (decode_of entry.now)
        && is_success (D.foreseen device.now entry.now bytes.now).status) }
    ensures can { IsTrue result → CanGive (D.drive device.now) (decode_of entry.now) bytes.now
        (D.foreseen device.now entry.now bytes.now) }
{
    match Command::decode(entry) {
        Ok(Command::Write { .. } | Command::Append { .. } | Command::Send { .. }) => {
            device.foresee(entry, bytes) == Status::Success
        }
        _ => false,
    }
}

/// Reserves all memory for a command: in the device, and in `room` for a copy of its entry and its
/// data.
pub(crate) fn make_ready<D: Foreseeing>(
    device: &mut D,
    room: &mut Vec<u8>,
    entry: &[u8; 64],
    bytes: &[u8],
) -> Result<(), AllocError>
    ensures device { device.new ≡ device.old }
    ensures empty { OnOk result (room.new.items ≡ []) }
    ensures room { OnOk result (64 + length (beside_bytes (decode_of entry.now) bytes.now) ≤ vec_capacity room.new) }
{
    room.clear();
    room.reserve(64 + written_of(entry, bytes).len())?;
    device.reserve(entry, bytes)
}

/// Copies an entry and its data to the room that was reserved for them.
pub(crate) fn keep(room: &mut Vec<u8>, entry: &[u8; 64], written: &[u8])
    requires empty { room.old.items ≡ [] }
    requires room { 64 + length written.now ≤ vec_capacity room.old }
    ensures { room.new.items ≡ entry.now ++ written.now }
{
    let _ = room.extend_from_slice(entry);
    let _ = room.extend_from_slice(written);
}
