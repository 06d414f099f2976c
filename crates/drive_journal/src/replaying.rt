ghost use Rattle.std.specs.Prelude.{◌≡◌, ◌≤◌, ◌==◌, IfErr, IfOk, IfSome, OnOk, if◌then◌else◌};
ghost use Rattle.zone_states.specs.Geometry.{IsInRange};
ghost use Rattle.zone_drive.specs.Stored.{zones_of};
ghost use Rattle.zone_drive.specs.Table.{sent_in};
ghost use Rattle.drive_journal.specs.FileFaults.{IsJournalFault};
ghost use Rattle.drive_journal.specs.Reading.{Replays};
ghost use Rattle.drive_journal.specs.Replay.{HaveWholeBlocks, at_rest, stored_changed, written_in};

use crate::change::{START, Sum};
use crate::fault::ReadFault;
use crate::found::Found;
use crate::read::read_change;
use crate::replayed::Replayed;
use drive_images::ImageFault;
use nvme_wire::{Action, Command, DecodeFault};
use std::alloc::{AllocError, Global};
use std::io::Read;
use zone_drive::apply_to_each;
use zone_states::{Geometry, Zone};

/// Writes bytes after those of the zone with this number, if there is such a zone.
fn write_in(
    geometry: &Geometry,
    zones: &mut [Zone],
    index: u64,
    bytes: &[u8],
) -> Result<(), AllocError>
    ensures { OnOk result (zones.new ≡ written_in geometry.now zones.old index bytes.now) }
{
    let index = index as usize;
    if index >= zones.len() {
        return Ok(());
    }
    zones[index].extend(geometry, bytes)
}

/// Does an action on the zone with this number, if there is such a zone.
fn send_in(zones: &mut [Zone], index: u64, action: Action)
    ensures { zones.new ≡ sent_in zones.old index action }
{
    let index = index as usize;
    if index >= zones.len() {
        return;
    }
    let _ = zones[index].apply(action);
}

/// Does a change again.
fn apply_change(
    geometry: &Geometry,
    zones: &mut [Zone],
    command: Result<Command, DecodeFault>,
    bytes: &[u8],
) -> Result<(), AllocError>
    requires { 1 ≤ geometry.now.size }
    ensures { OnOk result (zones.new ≡ stored_changed geometry.now zones.old command bytes.now) }
{
    let size = u64::from(geometry.size);
    match command {
        Ok(Command::Write { slba, .. }) => write_in(geometry, zones, slba / size, bytes),
        Ok(Command::Append { zslba, .. }) => write_in(geometry, zones, zslba / size, bytes),
        Ok(
            Command::Send {
                action,
                all: true,
                ..
            },
        ) => {
            apply_to_each(zones, action);
            Ok(())
        }
        Ok(
            Command::Send {
                slba,
                action,
                all: false,
            },
        ) => {
            send_in(zones, slba / size, action);
            Ok(())
        }
        _ => Ok(()),
    }
}

/// Closes all open zones.
pub(crate) fn close_zones(block: u32, zones: &mut [Zone])
    ensures zones { zones_of block zones.new ≡ at_rest (zones_of block zones.old) }
    ensures whole { HaveWholeBlocks block zones.old → HaveWholeBlocks block zones.new }
{
    apply_to_each(zones, Action::Close);
}

/// The fault of bytes at `at` that do not begin as a change does. Directly after the image, which
/// ends at `from`, it is `there`. Further on it is damage.
fn other_fault(from: u64, at: u64, there: ReadFault) -> ReadFault
    ensures { result ≡ (if at == from then there else ReadFault.Damaged at) }
{
    if at == from {
        there
    } else {
        ReadFault::Damaged(at)
    }
}

/// The whole changes end here, with this sum.
fn ends(whole: u64, sum: Sum, is_all: bool) -> Replayed
    ensures { result ≡ record { whole = whole; sum = sum; is_all = is_all } }
{
    Replayed { whole, sum, is_all }
}

/// Reads changes to the end of the reader, and does each of them again on these zones. Answers
/// where in the file the last whole change ends. `from` says where the first one begins.
///
/// If the last change was cut off, it is dropped. Of a change only the sums are checked, since its
/// command succeeded once. Whether a drive can have the zones that come of it, `Drive::from_zones`
/// says afterwards.
pub fn replay<R: Read>(
    alloc: Global,
    reader: &mut R,
    geometry: &Geometry,
    zones: &mut [Zone],
    from: u64,
) -> Result<Replayed, ReadFault>
    requires in_range { IsInRange geometry.now }
    requires whole { HaveWholeBlocks geometry.now.block zones.old }
    ensures ok { IfOk result (λ end. Replays geometry.now (R.remaining reader.old) from
        (zones_of geometry.now.block zones.old) end (zones_of geometry.now.block zones.new)) }
    ensures whole { OnOk result (HaveWholeBlocks geometry.now.block zones.new) }
    ensures err { IfErr result (λ fault. IfSome (R.remaining reader.old) (λ bytes.
        IsJournalFault geometry.now from bytes fault)) }
{
    let mut entry = [0; 64];
    let mut bytes = Vec::new(alloc);
    let (mut at, mut sum) = (from, START);
    for _ in 0..u64::MAX {
        match read_change(reader, geometry, sum, &mut entry, &mut bytes)? {
            Found::Change(next) => sum = next,
            Found::End => return Ok(ends(at, sum, true)),
            Found::CutOff => return Ok(ends(at, sum, false)),
            Found::Damaged => return Err(ReadFault::Damaged(at)),
            Found::Earlier => return Err(other_fault(from, at, ReadFault::Earlier(at))),
            Found::Other => return Err(other_fault(from, at, ReadFault::Long(at))),
        }
        apply_change(geometry, zones, Command::decode(&entry), &bytes)?;
        let Some(next) = at.checked_add(88 + bytes.len() as u64) else {
            return Err(ReadFault::Image(ImageFault::Input));
        };
        at = next;
    }
    Err(ReadFault::Image(ImageFault::Input))
}
