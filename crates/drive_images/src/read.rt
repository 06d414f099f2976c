ghost use Rattle.std.specs.Prelude.{◌≡◌, [], IfErr, IfOk, IfSome, OnOk, length};
ghost use Rattle.std.specs.Io.KnownBytes.{IsAtEnd};
ghost use Rattle.zone_states.specs.Geometry.{IsInRange};
ghost use Rattle.drive_images.specs.Image.{IsImage};
ghost use Rattle.drive_images.specs.Reading.{FailsInZone, IsFrontFault, IsImageFault, TellsFirst, end_fault};
ghost use Rattle.drive_images.specs.Steps.{ReadsImage, ReadsStoredZones};

use crate::counts::ZoneCounts;
use crate::fault::ImageFault;
use crate::fill::fill;
use crate::head::read_head;
use crate::zone::read_zone;
use disk_files::read_again;
use std::alloc::Global;
use std::io::Read;
use zone_drive::Drive;
use zone_states::{Geometry, Zone};

/// What an image holds: the geometry of a drive, and its zones.
#[derive(Drop)]
pub struct SavedZones {
    pub geometry: Geometry,
    pub zones: Vec<Zone>,
}

/// Reads the zones of a drive.
fn read_zones<R: Read>(
    alloc: Global,
    reader: &mut R,
    geometry: &Geometry,
) -> Result<Vec<Zone>, ImageFault>
    requires { IsInRange geometry.now }
    ensures ok { IfOk result (λ zones.
        ReadsStoredZones geometry.now (R.remaining reader.old)
        (R.remaining reader.new) zones.items) }
    ensures count { IfOk result (λ zones. length zones.items ≡ geometry.now.zones) }
    ensures err { IfErr result (λ fault.
        IfSome (R.remaining reader.old) (λ bytes. FailsInZone geometry.now bytes fault)) }
{
    let mut zones = Vec::new(alloc);
    let mut counts = ZoneCounts::none();
    for _ in 0..geometry.zones {
        let zone = read_zone(alloc, reader, geometry, &mut counts)?;
        zones.push(zone)?;
    }
    Ok(zones)
}

/// Sees that the reader has ended.
fn expect_end<R: Read>(reader: &mut R) -> Result<(), ImageFault>
    ensures ok { OnOk result (IfSome (R.remaining reader.old) (λ bytes. bytes ≡ [])) }
    ensures end { OnOk result (IsAtEnd (R.remaining reader.new)) }
    ensures err { IfErr result (λ fault.
        IfSome (R.remaining reader.old) (λ bytes. TellsFirst (end_fault bytes) fault)) }
{
    let mut byte = [0; 1];
    match read_again(reader, &mut byte) {
        Ok(0) => Ok(()),
        Ok(_) => Err(ImageFault::Long),
        Err(_) => Err(ImageFault::Input),
    }
}

/// Reads the image of a drive, and leaves the reader behind it. Other bytes are refused by the first fault that is
/// met. Each zone is read straight into its place.
pub fn read_image_front<R: Read>(alloc: Global, reader: &mut R) -> Result<SavedZones, ImageFault>
    ensures ok { IfOk result (λ saved.
        ReadsImage saved.geometry (R.remaining reader.old)
        (R.remaining reader.new) saved.zones.items) }
    ensures err { IfErr result
        (λ fault. IfSome (R.remaining reader.old) (λ bytes. IsFrontFault bytes fault)) }
{
    let mut head = [0; 64];
    fill(reader, &mut head)?;
    let geometry = read_head(&head)?;
    let zones = read_zones(alloc, reader, &geometry)?;
    Ok(SavedZones { geometry, zones })
}

/// Reads the image of a drive, to the end of the reader. The drive has completed no command.
///
/// Other bytes are refused by the first fault that is met. Each zone is read straight into its place.
pub fn read_image<R: Read>(alloc: Global, reader: &mut R) -> Result<Drive, ImageFault>
    ensures ok { IfOk result
        (λ drive. IfSome (R.remaining reader.old) (λ bytes. IsImage bytes drive.state)) }
    ensures end { OnOk result (IsAtEnd (R.remaining reader.new)) }
    ensures err { IfErr result
        (λ fault. IfSome (R.remaining reader.old) (λ bytes. IsImageFault bytes fault)) }
{
    let saved = read_image_front(alloc, reader)?;
    expect_end(reader)?;
    let Ok(drive) = Drive::from_zones(alloc, saved.geometry, saved.zones) else {
        unreachable!();
    };
    Ok(drive)
}
