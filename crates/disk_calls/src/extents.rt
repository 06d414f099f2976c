// Which blocks have data, as runs of blocks that are alike.

ghost use Rattle.std.specs.Prelude.{◌≡◌, ◌+◌, ◌-◌, ◌<◌, ◌≤◌, IsTrue};
ghost use Rattle.zone_translator.specs.View.{disk_places};
ghost use Rattle.zone_translator.specs.declared.status.DiskStatus.TheVariants.{Serving};
ghost use Rattle.disk_calls.specs.Serves.{AnswersExtents, IsExtent, TellsExtents, is_data};
ghost use Rattle.disk_calls.specs.Talk.{IsFresh, OnlyPasses};

use crate::call::Extent;
use crate::host::Host;
use drive_port::Device;
use zone_translator::{AnyDisk, DiskFault, DiskStatus, Place};

/// Whether the newest record of a block says that it has data.
fn is_data(place: Place) -> bool
    ensures { result ≡ is_data place }
{
    match place {
        Place::At(_) => true,
        Place::Trimmed(_) | Place::None => false,
    }
}

/// The blocks from `first` on that are alike, as far as before `end`.
fn extent_from<D: Device + Drop>(disk: &AnyDisk<D>, first: u64, end: u64) -> Extent
    requires { first < end }
    ensures is { IsTrue disk.now.drive.clean → disk.now.status ≡ Serving
        → IsExtent (disk_places disk.now) first result }
    ensures some { 1 ≤ result.blocks }
    ensures within { first + result.blocks ≤ end }
{
    let has_data = is_data(disk.place_of(first));
    for block in first + 1..end {
        if is_data(disk.place_of(block)) != has_data {
            return Extent {
                blocks: block - first,
                has_data,
            };
        }
    }
    Extent {
        blocks: end - first,
        has_data,
    }
}

/// Tells a host the blocks from `first` to before `end`, until it wants to know no more.
fn tell_all<D: Device + Drop, H: Host<D>>(disk: &AnyDisk<D>, host: &mut H, first: u64, end: u64)
    requires some { first < end }
    requires fresh { IsFresh (H.talk host.old) }
    ensures tells { IsTrue disk.now.drive.clean → IsTrue (H.talk host.new).known → disk.now.status ≡ Serving
        → TellsExtents (disk_places disk.now) first (end - first) (H.talk host.new).passed }
    ensures talk { OnlyPasses (H.talk host.old) (H.talk host.new) }
{
    let mut at = first;
    while at < end {
        let extent = extent_from(disk, at, end);
        at += extent.blocks;
        if !host.tell(extent) {
            return;
        }
    }
}

/// Tells a host which of some blocks have data. No command is sent.
pub(crate) fn tell_extents<D: Device + Drop, H: Host<D>>(
    disk: &AnyDisk<D>,
    host: &mut H,
    first: u64,
    blocks: u64,
) -> Result<(), DiskFault>
    requires fresh { IsFresh (H.talk host.old) }
    ensures answers { IsTrue disk.now.drive.clean → IsTrue (H.talk host.new).known
        → AnswersExtents disk.now first blocks (H.talk host.new).passed result }
    ensures talk { OnlyPasses (H.talk host.old) (H.talk host.new) }
{
    if blocks == 0 {
        return Ok(());
    }
    let size = disk.blocks();
    if blocks > size || first > size - blocks {
        return Err(DiskFault::OutOfRange);
    }
    match disk.status() {
        DiskStatus::Serving => tell_all(disk, host, first, first + blocks),
        DiskStatus::Stopped => return Err(DiskFault::Stopped),
        DiskStatus::Unmounted => return Err(DiskFault::Unmounted),
    }
    Ok(())
}
