ghost use Rattle.std.specs.Prelude.{◌≡◌, ◌≤◌, ◌+◌, false, IfErr, IfOk, OnOk, Some, None, OnErr};
ghost use Rattle.byteorder.specs.Endian.{little_from};
ghost use Rattle.nvme_wire.specs.Descriptor.{state_of};
ghost use Rattle.zone_states.specs.Checks.{first_failing};
ghost use Rattle.zone_states.specs.Geometry.{IsInRange};
ghost use Rattle.drive_images.specs.Image.{head_bytes, zone_head_bytes};
ghost use Rattle.drive_images.specs.Reading.{begins_with, geometry_in, head_checks, is_out_of_range};

use crate::fault::ImageFault;
use byteorder::{ByteOrder, LittleEndian};
use zone_states::Geometry;

/// How an image begins.
const MAGIC: [u8; 8] = *b"ZNSIMG01";

/// The first bytes of an image.
#[tactic(auto, unfolding(crate::specs::Image::head_bytes))]
pub fn head_bytes(geometry: &Geometry) -> [u8; 64]
    ensures { result ≡ head_bytes geometry.now }
{
    let mut head = [0; 64];
    head[..8].copy_from_slice(&MAGIC);
    LittleEndian::write_u32(&mut head[8..12], geometry.block);
    LittleEndian::write_u32(&mut head[12..16], geometry.zones);
    LittleEndian::write_u32(&mut head[16..20], geometry.size);
    LittleEndian::write_u32(&mut head[20..24], geometry.capacity);
    LittleEndian::write_u32(&mut head[24..28], geometry.transfer);
    LittleEndian::write_u32(&mut head[28..32], geometry.active);
    LittleEndian::write_u32(&mut head[32..36], geometry.open);
    head
}

fn u32_at(head: &[u8; 64], at: usize) -> u32
    requires { at + 4 ≤ 64 }
    ensures { result ≡ little_from at 4 head.now }
{
    LittleEndian::read_u32(&head[at..at + 4])
}

#[tactic(auto, unfolding(crate::specs::Reading::geometry_in))]
fn geometry_in(head: &[u8; 64]) -> Geometry
    ensures { result ≡ geometry_in head.now }
{
    Geometry {
        block: u32_at(head, 8),
        zones: u32_at(head, 12),
        size: u32_at(head, 16),
        capacity: u32_at(head, 20),
        transfer: u32_at(head, 24),
        active: u32_at(head, 28),
        open: u32_at(head, 32),
    }
}

/// Whether a part of it is out of range.
#[tactic(auto, unfolding(crate::specs::Reading::is_out_of_range))]
fn is_out_of_range(geometry: &Geometry) -> bool
    ensures value { result ≡ is_out_of_range geometry.now }
    ensures in_range { result ≡ false → IsInRange geometry.now }
{
    geometry.check().is_err()
}

/// Whether bytes begin with others.
#[tactic(auto, unfolding(crate::specs::Reading::begins_with))]
pub fn begins_with(bytes: &[u8], front: &[u8]) -> bool
    ensures { result ≡ begins_with bytes.now front.now }
{
    bytes.starts_with(front)
}

/// The geometry that the first bytes of an image tell.
pub fn read_head(head: &[u8; 64]) -> Result<Geometry, ImageFault>
    ensures ok { IfOk result (λ geometry. head.now ≡ head_bytes geometry) }
    ensures in_range { IfOk result IsInRange }
    ensures passes { OnOk result (first_failing (head_checks head.now) ≡ None) }
    ensures err { IfErr result (λ fault. first_failing (head_checks head.now) ≡ Some fault) }
{
    if !begins_with(head, &MAGIC) {
        return Err(ImageFault::Magic);
    }
    let geometry = geometry_in(head);
    if is_out_of_range(&geometry) {
        return Err(ImageFault::Geometry);
    }
    if !begins_with(head, &head_bytes(&geometry)) {
        return Err(ImageFault::RestNotZero);
    }
    Ok(geometry)
}
