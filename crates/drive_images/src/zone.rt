ghost use Rattle.std.specs.Prelude.{◌≡◌, ◌+◌, ◌<◌, ◌^◌, false, IfErr, IfOk, IfSome, OnOk, length};
ghost use Rattle.std.specs.Io.KnownBytes.{Consumes};
ghost use Rattle.zone_states.specs.Geometry.{IsInRange};
ghost use Rattle.drive_images.specs.Reading.{TellsFirst, is_over_limit, short_of, zone_fault};
ghost use Rattle.drive_images.specs.Steps.{ReadsMore, ReadsStoredZone};

use crate::counts::ZoneCounts;
use crate::fault::ImageFault;
use crate::fill::fill;
use crate::zone_head::ZoneHead;
use std::alloc::Global;
use std::io::Read;
use zone_states::{Geometry, Zone};

/// How many bytes of a zone are read at a time, at most. They are set to zero before, and are still in the
/// processor's cache when the reader fills them.
const PIECE: usize = 1 << 18;

/// Reads that many bytes after those that `bytes` holds.
fn read_piece<R: Read>(reader: &mut R, bytes: &mut Vec<u8>, count: usize) -> Result<(), ImageFault>
    requires { length bytes.old.items + count < 2 ^ 64 }
    ensures ok { OnOk result (ReadsMore (R.remaining reader.old)
        (R.remaining reader.new) bytes.old.items bytes.new.items count) }
    ensures err { IfErr result (λ fault.
        IfSome (R.remaining reader.old) (λ rest. TellsFirst (short_of count rest) fault)) }
{
    let start = bytes.len();
    bytes.resize(start + count, 0)?;
    fill(reader, &mut bytes[start..])
}

/// Reads that many bytes.
fn read_bytes<R: Read>(alloc: Global, reader: &mut R, count: usize) -> Result<Vec<u8>, ImageFault>
    ensures ok { IfOk result
        (λ bytes. Consumes (R.remaining reader.old) (R.remaining reader.new) bytes.items) }
    ensures count { IfOk result (λ bytes. length bytes.items ≡ count) }
    ensures err { IfErr result (λ fault.
        IfSome (R.remaining reader.old) (λ rest. TellsFirst (short_of count rest) fault)) }
{
    let mut bytes = Vec::new(alloc);
    bytes.reserve_exact(count)?;
    while bytes.len() < count {
        let piece = PIECE.min(count - bytes.len());
        read_piece(reader, &mut bytes, piece)?;
    }
    Ok(bytes)
}

/// Reads the next zone, and counts it.
pub fn read_zone<R: Read>(
    alloc: Global,
    reader: &mut R,
    geometry: &Geometry,
    counts: &mut ZoneCounts,
) -> Result<Zone, ImageFault>
    requires in_range { IsInRange geometry.now }
    requires within { is_over_limit geometry.now counts.old ≡ false }
    ensures ok { IfOk result (λ zone.
        ReadsStoredZone geometry.now (R.remaining reader.old)
        (R.remaining reader.new) counts.old zone counts.new) }
    ensures err { IfErr result (λ fault.
        IfSome (R.remaining reader.old)
        (λ rest. TellsFirst (zone_fault geometry.now counts.old rest) fault)) }
{
    let mut bytes = [0; 8];
    fill(reader, &mut bytes)?;
    let head = ZoneHead::decode(&bytes)?;
    if !head.may_hold(geometry) {
        return Err(ImageFault::Written);
    }
    let Some(more) = counts.with(geometry, head.state) else {
        return Err(ImageFault::Limits);
    };
    let length = head.written as usize * geometry.block as usize;
    let written = read_bytes(alloc, reader, length)?;
    *counts = more;
    Ok(Zone::from_parts(head.state, written))
}
