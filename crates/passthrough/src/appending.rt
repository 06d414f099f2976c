// Appends.

ghost use Rattle.std.specs.Prelude.{◌≡◌, ◌≢◌, ◌*◌, ◌≤◌, [], Err, IfSome, List, Some, length, true};
ghost use Rattle.nvme_wire.specs.Entry.{IsAdmitted};
ghost use Rattle.zone_states.specs.Geometry.{IsInRange};
ghost use Rattle.zone_states.specs.Zone.{Zone};
ghost use Rattle.passthrough.specs.Asking.{Asks, IsReady, Leads};
ghost use Rattle.passthrough.specs.Premise.{IsSentAppend, pointer_at};
ghost use Rattle.passthrough.specs.Seen.{AreSeen};

use crate::failing::failure;
use crate::passthrough::Passthrough;
use crate::seen_zone::SeenZone;
use crate::table::{set_zone, zone_at};
use drive_port::{Geometry, Halt};
use nvme_wire::Command;

/// Whether data are as many blocks as are said, and no more than one transfer.
fn are_blocks(geometry: Geometry, blocks: u32, bytes: &[u8]) -> bool
    ensures { result ≡ true → (blocks ≤ geometry.transfer) × (length bytes.now ≡ blocks * geometry.block) }
{
    blocks <= geometry.transfer
        && bytes.len() as u64 == u64::from(blocks) * u64::from(geometry.block)
}

/// The address at which an Append will write, if the zone has room for it and the data are whole blocks.
fn awaited(
    geometry: Geometry,
    seen: &[SeenZone],
    zslba: u64,
    blocks: u32,
    bytes: &[u8],
) -> Option<u64>
    requires { IsInRange geometry }
    ensures { IfSome result (λ next. (zones : List Zone) → length zones ≡ geometry.zones → AreSeen zones seen.now
        → IsSentAppend geometry zones zslba blocks bytes.now 0 × (pointer_at geometry zones zslba ≡ Some next)) }
{
    if zslba >= geometry.end() || !are_blocks(geometry, blocks, bytes) {
        return None;
    }
    let number = geometry.zone_of(zslba);
    if geometry.start_of(number) != zslba {
        return None;
    }
    let next = zone_at(seen, u64::from(number)).pointer(geometry, number)?;
    if next.saturating_add(u64::from(blocks)) > zslba + u64::from(geometry.capacity) {
        return None;
    }
    Some(next)
}

/// Appends blocks to the zone that starts at an address. Only the address at which the zone is written next is
/// believed. If the drive answers by an error, a report has to show that nothing was written: then the Append failed.
pub(crate) fn append<P: Passthrough>(
    way: &mut P,
    geometry: Geometry,
    seen: &mut [SeenZone],
    zslba: u64,
    blocks: u32,
    bytes: &[u8],
) -> Result<u64, Halt>
    requires ready { IsReady geometry (P.shape way.old) (P.zones way.old) seen.old }
    requires admitted { IsAdmitted (Command.Append zslba blocks) }
    ensures asks { Asks geometry (P.zones way.old) (Command.Append zslba blocks) bytes.now result [] (P.zones way.new) }
    ensures ready { result ≢ Err Halt.Stopped → IsReady geometry (P.shape way.new) (P.zones way.new) seen.new }
    ensures leads { Leads geometry (P.shape way.new) (P.zones way.new) }
{
    let Some(next) = awaited(geometry, seen, zslba, blocks, bytes) else {
        return Err(Halt::Stopped);
    };
    let mut value = 0;
    let status = way.submit(
        &Command::Append { zslba, blocks },
        bytes,
        0,
        &mut [],
        &mut value,
    );
    let number = geometry.zone_of(zslba);
    if status != 0 {
        return Err(failure(way, geometry, seen, number, status));
    }
    if value != next {
        return Err(Halt::Stopped);
    }
    let index = u64::from(number);
    let zone = zone_at(seen, index).appended(geometry, blocks);
    set_zone(seen, index, zone);
    Ok(value)
}
