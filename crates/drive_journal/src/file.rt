ghost use Rattle.std.specs.Prelude.{◌≡◌, ◌==◌, ◌&&◌, ◌↔◌, IfErr, IfOk, IfSome, IsTrue, OnErr, if◌then◌else◌, not};
ghost use Rattle.std.specs.List.{list_all};
ghost use Rattle.zone_states.specs.Transition.{is_open};
ghost use Rattle.drive_port.specs.Run.{restarted};
ghost use Rattle.drive_images.specs.Image.{IsImage};
ghost use Rattle.zone_states.specs.Geometry.{IsInRange};
ghost use Rattle.zone_drive.specs.Stored.{unused, zones_of};
ghost use Rattle.drive_port.specs.Drive.{IsLawful};
ghost use Rattle.drive_journal.specs.File.{IsDriveFile};
ghost use Rattle.drive_journal.specs.FileFaults.{IsFileFault};
ghost use Rattle.drive_journal.specs.Replay.{HaveWholeBlocks, at_rest};

use crate::change::Sum;
use crate::fault::ReadFault;
use crate::replayed::Replayed;
use crate::replaying::{close_zones, replay};
use drive_images::{image_length, read_image_front};
use std::alloc::Global;
use std::io::Read;
use zone_drive::Drive;
use zone_states::{Geometry, Zone, is_open};

/// A drive that was read from a file.
#[derive(Drop)]
pub struct OpenedDrive {
    pub drive: Drive,
    /// How many bytes the image and the whole changes have. If the file has more bytes, these are
    /// a change that was cut off. They have to be removed before more is written.
    pub whole: u64,
    /// The sum before the next change.
    pub sum: Sum,
    /// Whether the file is just the image of the drive after a restart. So it has no change, not
    /// even one that was cut off, and no zone is open.
    pub is_image: bool,
}

/// Closes the open zones, if there were changes.
fn settle(zones: &mut [Zone], block: u32, has_changes: bool)
    ensures zones { zones_of block zones.new
        ≡ (if has_changes then at_rest (zones_of block zones.old) else zones_of block zones.old) }
    ensures whole { HaveWholeBlocks block zones.old → HaveWholeBlocks block zones.new }
{
    if has_changes {
        close_zones(block, zones);
    }
}

/// Whether no zone is open.
fn are_shut(zones: &[Zone]) -> bool
    ensures { result ≡ list_all (λ zone. not (is_open zone.state)) zones.now }
{
    zones.iter().all(|zone| !is_open(zone.state()))
}

/// Whether a file ends with its image, at `from`, and none of these zones is open.
fn is_rested_image(zones: &[Zone], from: u64, end: &Replayed) -> bool
    ensures { result ≡ ((end.now.is_all && (end.now.whole == from))
        && list_all (λ zone. not (is_open zone.state)) zones.now) }
{
    end.is_all && end.whole == from && are_shut(zones)
}

/// A drive with these zones, if a drive can have them.
fn make_drive(alloc: Global, geometry: Geometry, zones: Vec<Zone>) -> Result<Drive, ReadFault>
    requires in_range { IsInRange geometry }
    requires whole { HaveWholeBlocks geometry.block zones.items }
    ensures ok { IfOk result (λ drive. drive.state ≡ unused geometry (zones_of geometry.block zones.items)) }
    ensures err { IfErr result (λ fault. fault ≡ ReadFault.Zones) }
    ensures none { OnErr result (IsLawful (unused geometry (zones_of geometry.block zones.items)) → ⊥) }
{
    match Drive::from_zones(alloc, geometry, zones) {
        Ok(drive) => Ok(drive),
        Err(_) => Err(ReadFault::Zones),
    }
}

/// Reads the drive that a file holds: its image, and all changes after it. The drive has completed
/// no command. If there are changes, its open zones are closed, as after a restart. Else the zones
/// are as they were saved.
pub fn open_drive<R: Read>(alloc: Global, reader: &mut R) -> Result<OpenedDrive, ReadFault>
    ensures ok { IfOk result (λ opened. IfSome (R.remaining reader.old) (λ bytes.
        IsDriveFile bytes opened.drive.state opened.whole opened.sum)) }
    ensures image { IfOk result (λ opened. IfSome (R.remaining reader.old) (λ bytes.
        IsTrue opened.is_image ↔ IsImage bytes (restarted opened.drive.state))) }
    ensures err { IfErr result (λ fault. IfSome (R.remaining reader.old) (λ bytes. IsFileFault bytes fault)) }
{
    let saved = read_image_front(alloc, reader)?;
    let geometry = saved.geometry;
    let mut zones = saved.zones;
    let from = image_length(&geometry, &zones);
    let end = replay(alloc, reader, &geometry, &mut zones, from)?;
    settle(&mut zones, geometry.block, end.whole > from);
    let is_image = is_rested_image(&zones, from, &end);
    let drive = make_drive(alloc, geometry, zones)?;
    Ok(OpenedDrive {
        drive,
        whole: end.whole,
        sum: end.sum,
        is_image,
    })
}
