ghost use Rattle.std.specs.Prelude.{◌<◌, ◌^◌, OnErr, OnOk};
ghost use Rattle.std.specs.Io.KnownBytes.{Appends};
ghost use Rattle.zone_states.specs.Stored.{AreWholeBlocks, zone_stored};
ghost use Rattle.zone_states.specs.Zone.{IsLawfulZone};
ghost use Rattle.disk_files.specs.Output.{AppendsFront};
ghost use Rattle.drive_images.specs.Image.{image_bytes, zone_bytes};

use crate::head::head_bytes;
use crate::zone_head::ZoneHead;
use disk_files::{WriteFault, write_out};
use drive_port::Device;
use std::io::Write;
use zone_drive::Drive;
use zone_states::{Geometry, Zone};

fn write_zone<W: Write>(writer: &mut W, geometry: &Geometry, zone: &Zone) -> Result<(), WriteFault>
    requires small { geometry.now.capacity < 2 ^ 32 }
    requires whole { AreWholeBlocks geometry.now.block zone.now.bytes }
    requires lawful { IsLawfulZone geometry.now (zone_stored geometry.now.block zone.now) }
    ensures ok { OnOk result (Appends (W.contents writer.old) (W.contents writer.new)
        (zone_bytes (zone_stored geometry.now.block zone.now))) }
    ensures err { OnErr result (AppendsFront (W.contents writer.old) (W.contents writer.new)
        (zone_bytes (zone_stored geometry.now.block zone.now))) }
{
    let head = ZoneHead {
        state: zone.state(),
        written: zone.blocks(geometry) as u32,
    };
    write_out(writer, &head.encode())?;
    write_out(writer, zone.written())
}

/// Writes the image of a drive. After a fault a beginning of it is written.
pub fn write_image<W: Write>(drive: &Drive, writer: &mut W) -> Result<(), WriteFault>
    ensures ok { OnOk result (Appends (W.contents writer.old) (W.contents writer.new)
        (image_bytes drive.now.state.geometry drive.now.state.zones)) }
    ensures err { OnErr result (AppendsFront (W.contents writer.old) (W.contents writer.new)
        (image_bytes drive.now.state.geometry drive.now.state.zones)) }
{
    let geometry = drive.geometry();
    write_out(writer, &head_bytes(&geometry))?;
    for zone in drive.zones() {
        write_zone(writer, &geometry, zone)?;
    }
    Ok(())
}
