ghost use Rattle.std.specs.Prelude.{◌≡◌, ◌<◌, IfOk, IsErrOf, IsTrue, length};
ghost use Rattle.zone_states.specs.Geometry.{IsInRange};
ghost use Rattle.zone_drive.specs.Habits.{made};
ghost use Rattle.zone_drive.specs.Stored.{AreZones, unused, zones_of};
ghost use Rattle.zone_drive.specs.Table.{stored_at};

use drive_port::Halt;
use std::alloc::Global;
use zone_drive::{Drive, HeldZones};
use zone_states::{Geometry, Zone};

/// A zone in memory with the state and the written blocks of one that is held. It is read once, in one piece.
fn copy_zone<Z: HeldZones>(alloc: Global, held: &mut Z, index: usize) -> Result<Zone, Halt>
    requires { index < length (Z.stored held.old) }
    ensures ok { IfOk result (λ zone. zone ≡ stored_at (Z.stored held.old) index) }
    ensures kept { Z.stored held.new ≡ Z.stored held.old }
    ensures fails { IsErrOf result Halt.Failed → IsTrue Z.may_stop }
    ensures stops { IsErrOf result Halt.Stopped → IsTrue Z.may_stop }
{
    let state = held.state(index);
    let length = held.written(index);
    let mut written = Vec::new(alloc);
    held.read(index, 0, length, &mut written)?;
    Ok(Zone::from_parts(state, written))
}

/// The drive in memory of this shape with the zones that are held. It has completed no command, and its habit is
/// `Lazy`. Each zone is read once. The zones that are held stay.
pub fn copy_zones<Z: HeldZones>(
    alloc: Global,
    geometry: Geometry,
    held: &mut Z,
) -> Result<Drive, Halt>
    requires in_range { IsInRange geometry }
    requires zones { AreZones geometry (Z.stored held.old) }
    ensures ok { IfOk result (λ drive.
        drive ≡ made (unused geometry (zones_of geometry.block (Z.stored held.old)))) }
    ensures kept { Z.stored held.new ≡ Z.stored held.old }
    ensures fails { IsErrOf result Halt.Failed → IsTrue Z.may_stop }
    ensures stops { IsErrOf result Halt.Stopped → IsTrue Z.may_stop }
{
    let mut zones = Vec::new(alloc);
    for index in 0..geometry.zones as usize {
        let zone = copy_zone(alloc, held, index)?;
        if zones.push(zone).is_err() {
            return Err(Halt::Memory);
        }
    }
    match Drive::from_zones(alloc, geometry, zones) {
        Ok(drive) => Ok(drive),
        Err(_) => unreachable!(),
    }
}
