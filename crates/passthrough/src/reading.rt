// Reads. The drive is asked only for blocks that are written: all others are zeros.

ghost use Rattle.std.specs.Prelude.{◌≡◌, ◌≢◌, ◌+◌, ◌*◌, ◌%◌, ◌<◌, ◌≤◌, [], Err, IfErr, IfOk, IfSome, List, Ok, OnErr};
ghost use Rattle.std.specs.Prelude.{length, replicate, true};
ghost use Rattle.zone_states.specs.Geometry.{IsInRange};
ghost use Rattle.zone_states.specs.Zone.{Zone};
ghost use Rattle.drive_port.specs.Drive.{IsClosing};
ghost use Rattle.drive_port.specs.Halting.{Adds};
ghost use Rattle.drive_port.specs.Step.{Effect, end_of};
ghost use Rattle.nvme_wire.specs.declared.status.Status.TheVariants.{Success};
ghost use Rattle.passthrough.specs.Asking.{Asks, IsReady, Leads};
ghost use Rattle.passthrough.specs.Premise.{AreLawful, IsSentRead};
ghost use Rattle.passthrough.specs.Reading.{IsAskedFor, ReadsFront};
ghost use Rattle.passthrough.specs.Seen.{AreSeen};

use crate::passthrough::Passthrough;
use crate::seen_zone::SeenZone;
use crate::table::zone_at;
use drive_port::{Geometry, Halt};
use nvme_wire::{Command, ZoneState};

/// Whether blocks are of one zone of the drive, and no more than one transfer.
fn is_one_transfer(geometry: Geometry, slba: u64, blocks: u32) -> bool
    requires { 1 ≤ geometry.size }
    ensures { result ≡ true → (blocks ≤ geometry.transfer) × (slba < end_of geometry)
        × (slba % geometry.size + blocks ≤ geometry.size) }
{
    if blocks > geometry.transfer || slba >= geometry.end() {
        return false;
    }
    slba % u64::from(geometry.size) + u64::from(blocks) <= u64::from(geometry.size)
}

/// How many blocks of a Read the drive is asked for, if it is not refused: all that are written, as far as is known.
/// With the address up to which the zone can be read.
fn asked_for(geometry: Geometry, seen: &[SeenZone], slba: u64, blocks: u32) -> Option<(u32, u64)>
    requires in_range { IsInRange geometry }
    requires some { 1 ≤ blocks }
    ensures { IfSome result (λ asked. (zones : List Zone) → AreLawful geometry zones → AreSeen zones seen.now
        → IsAskedFor geometry zones slba blocks asked.0 asked.1) }
{
    let zone = zone_at(seen, slba / u64::from(geometry.size));
    if !is_one_transfer(geometry, slba, blocks) || zone.state == ZoneState::Offline {
        return None;
    }
    let written = u64::from(zone.written.unwrap_or(geometry.capacity));
    let end = slba - slba % u64::from(geometry.size) + written;
    let count = end.saturating_sub(slba).min(u64::from(blocks));
    Some((count as u32, end))
}

/// Reads blocks into the front of a room. If there are none, the drive is not asked.
fn read_front<P: Passthrough>(
    way: &mut P,
    geometry: Geometry,
    slba: u64,
    asked: (u32, u64),
    room: &mut [u8],
) -> bool
    requires leads { Leads geometry (P.shape way.old) (P.zones way.old) }
    requires sent { 1 ≤ asked.0
        → IsSentRead geometry (P.zones way.old) slba asked.0 asked.1 (asked.0 * geometry.block) }
    requires fits { asked.0 * geometry.block ≤ length room.old }
    ensures done { result ≡ true
        → ReadsFront geometry (P.zones way.old) slba asked.0 room.old room.new (P.zones way.new) }
    ensures closes { IsClosing (P.zones way.old) (P.zones way.new) }
    ensures leads { Leads geometry (P.shape way.new) (P.zones way.new) }
    ensures flushed { P.flushed way.old ≡ true → P.flushed way.new ≡ true }
{
    let (count, end) = asked;
    if count == 0 {
        return true;
    }
    let size = count as usize * geometry.block as usize;
    let command = Command::Read {
        slba,
        blocks: count,
    };
    let mut value = 0;
    way.submit(&command, &[], end, &mut room[..size], &mut value) == 0
}

/// Reads blocks into a room of as many bytes, all zeros.
fn read_room<P: Passthrough>(
    way: &mut P,
    geometry: Geometry,
    seen: &[SeenZone],
    slba: u64,
    blocks: u32,
    room: &mut [u8],
) -> bool
    requires ready { IsReady geometry (P.shape way.old) (P.zones way.old) seen.now }
    requires some { 1 ≤ blocks }
    requires zeros { room.old ≡ replicate (blocks * geometry.block) 0 }
    ensures done { result ≡ true → Effect geometry (P.zones way.old) (Ok (Command.Read slba blocks)) [] Success 0
        room.new (P.zones way.new) }
    ensures closes { IsClosing (P.zones way.old) (P.zones way.new) }
    ensures leads { Leads geometry (P.shape way.new) (P.zones way.new) }
    ensures flushed { P.flushed way.old ≡ true → P.flushed way.new ≡ true }
{
    match asked_for(geometry, seen, slba, blocks) {
        Some(asked) => read_front(way, geometry, slba, asked, room),
        None => false,
    }
}

/// Reads blocks, and puts their bytes after those that `into` holds. A Read has no effect, so none stops the device.
pub(crate) fn read<P: Passthrough>(
    way: &mut P,
    geometry: Geometry,
    seen: &[SeenZone],
    slba: u64,
    blocks: u32,
    into: &mut Vec<u8>,
) -> Result<u64, Halt>
    requires ready { IsReady geometry (P.shape way.old) (P.zones way.old) seen.now }
    requires some { 1 ≤ blocks }
    ensures ok { IfOk result (λ value. (value ≡ 0) × Adds into.old.items (λ returned.
        Effect geometry (P.zones way.old) (Ok (Command.Read slba blocks)) [] Success 0 returned (P.zones way.new))
        into.new.items) }
    ensures err { IfErr result (λ halt. (halt ≡ Halt.Memory → P.zones way.new ≡ P.zones way.old)
        × IsClosing (P.zones way.old) (P.zones way.new)) }
    ensures closes { IsClosing (P.zones way.old) (P.zones way.new) }
    ensures going { result ≢ Err Halt.Stopped }
    ensures ready { IsReady geometry (P.shape way.new) (P.zones way.new) seen.now }
    ensures kept { OnErr result (into.new.items ≡ into.old.items) }
    ensures flushed { P.flushed way.old ≡ true → P.flushed way.new ≡ true }
{
    let held = into.len();
    let room = blocks as usize * geometry.block as usize;
    let Some(total) = held.checked_add(room) else {
        return Err(Halt::Memory);
    };
    if into.resize(total, 0).is_err() {
        return Err(Halt::Memory);
    }
    if read_room(way, geometry, seen, slba, blocks, &mut into[held..]) {
        Ok(0)
    } else {
        into.truncate(held);
        Err(Halt::Failed)
    }
}
