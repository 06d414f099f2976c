// The zones of the drive in a file as a picture, with the blocks that are live.

ghost use Rattle.std.specs.Prelude.{◌≡◌, IfErr, IfOk, IsTrue, OnOk};
ghost use Rattle.drive_survey.specs.Reported.{KeepsZones};
ghost use Rattle.tool_jobs.specs.Checks.{EndsLook};
ghost use Rattle.tool_jobs.specs.Pictures.{DrawsNone, FindsLive, FindsPicture, LooksNone, live_counts, written_counts};
ghost use Rattle.tool_jobs.specs.Telling.{TellsFound, TellsNothing};

use crate::checking::interrupted;
use crate::fault::ToolFault;
use crate::form::Form;
use crate::showing::{ZonesForm, zones_text};
use crate::telling::tell;
use drive_inspection::{Info, ZoneInfo, blocks_taken, inspect_drive};
use drive_port::{Device, Honest};
use drive_survey::MountFault;
use job_drives::saved_drive;
use std::alloc::{AllocError, Global};
use std::io::{Read, Write};
use zone_drive::Drive;

/// A drive whose zones are drawn.
#[derive(Drop)]
pub struct PicturedDrive {
    /// As it was saved.
    pub drive: Drive,
    /// How many blocks of each zone are live, and have data. Empty if the drive cannot be mounted.
    pub live: Vec<u32>,
}

/// A picture of zones, as SVG.
#[derive(Clone, Copy, Debug, PartialEq, Eq)]
pub struct Picture;

impl Form<PicturedDrive> for Picture {
    ghost use Rattle.std.specs.Prelude.{⊤};

    ghost shows = { λ _ _ _. ⊤ };

    fn text(&self, alloc: Global, pictured: &PicturedDrive) -> Result<String, AllocError> {
        let drive = &pictured.drive;
        zones_text(
            alloc,
            ZonesForm::Svg,
            drive,
            drive.geometry(),
            &pictured.live,
        )
    }
}

/// How many live blocks with data each zone has.
fn written_counts(alloc: Global, zones: &[ZoneInfo]) -> Result<Vec<u32>, AllocError>
    ensures { IfOk result (λ counts. counts.items ≡ written_counts zones.now) }
{
    let mut counts = Vec::new(alloc);
    for zone in zones {
        counts.push(zone.live.written)?;
    }
    Ok(counts)
}

/// The same of what was found of a drive; none if a mount is refused.
fn live_counts(alloc: Global, found: &Result<Info, MountFault>) -> Result<Vec<u32>, AllocError>
    ensures { IfOk result (λ counts. counts.items ≡ live_counts found.now) }
{
    match found {
        Ok(info) => written_counts(alloc, &info.holdings.zones),
        Err(_) => Ok(Vec::new(alloc)),
    }
}

/// How many live blocks with data each zone of a drive has; none if a mount is refused.
pub fn find_live<D: Device>(alloc: Global, device: &mut D) -> Result<Vec<u32>, ToolFault>
    // While the drive is clean, these are its live blocks. A fault has its cause.
    ensures ok { IsTrue (D.drive device.new).clean
        → IfOk result (λ live. FindsLive (D.drive device.old) (D.drive device.new) live.items) }
    ensures err { IsTrue (D.drive device.new).clean → IfErr result (LooksNone (D.drive device.new)) }
    // Whatever the Reads returned, a fault tells nothing of what the drive holds, and zones hold what they held.
    ensures kinds { IfErr result EndsLook }
    ensures kept { KeepsZones (D.drive device.old) (D.drive device.new) }
{
    let given = blocks_taken(&device.geometry());
    match inspect_drive(alloc, device, given) {
        Ok(info) => Ok(live_counts(alloc, &info.found)?),
        Err(fault) => Err(interrupted(fault)),
    }
}

/// The drive in a file as it was saved, and its live blocks.
fn find_picture<I: Read>(alloc: Global, bytes: &mut I) -> Result<PicturedDrive, ToolFault>
    ensures ok { IfOk result (FindsPicture (I.remaining bytes.old)) }
    ensures err { IfErr result (DrawsNone (I.remaining bytes.old)) }
{
    let mut drive = saved_drive(alloc, bytes)?;
    let looked = find_live(alloc, &mut drive);
    drive.vouch();
    match looked {
        Ok(live) => Ok(PicturedDrive { drive, live }),
        Err(fault) => Err(fault),
    }
}

/// Draws the zones of the drive in a file, as they were saved, with their live blocks if it can be mounted.
pub fn answer_picture<I: Read, F: Form<PicturedDrive>, W: Write>(
    alloc: Global,
    bytes: &mut I,
    form: &F,
    output: &mut W,
) -> Result<(), ToolFault>
    ensures ok { OnOk result (TellsFound (FindsPicture (I.remaining bytes.old)) (F.shows form.now)
        (W.contents output.old) (W.contents output.new)) }
    ensures err { IfErr result (λ fault. TellsNothing (DrawsNone (I.remaining bytes.old))
        (FindsPicture (I.remaining bytes.old)) (F.shows form.now) fault
        (W.contents output.old) (W.contents output.new)) }
{
    let pictured = find_picture(alloc, bytes)?;
    tell(alloc, form, &pictured, output)
}
