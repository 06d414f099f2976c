// What the headers of a drive say of its size.

ghost use Rattle.std.specs.Prelude.{◌≡◌, ◌↔◌, IfErr, IfOk, IsTrue, None};
ghost use Rattle.zone_states.specs.Geometry.{IsInRange};
ghost use Rattle.zone_states.specs.declared.geometry.Geometry.{Geometry};
ghost use Rattle.drive_array.specs.Reserve.{most_size};
ghost use Rattle.drive_port.specs.Drive.{DriveState};
ghost use Rattle.drive_survey.specs.Reported.{KeepsZones};
ghost use Rattle.drive_survey.specs.Scan.{FailsBy};
ghost use Rattle.drive_survey.specs.Survey.{SurveyFails};
ghost use Rattle.job_drives.specs.Mounted.{AreSaid, HaveNoBatch, TellsNoSize, TellsRoom};

use crate::mount_fault::NoDiskFault;
use drive_port::{Device, Geometry};
use drive_survey::{MountFault, ScannedZone, greatest_size, survey_drive};
use std::alloc::Global;
use zone_choice::most_blocks;

/// What the headers of a drive say.
#[derive(Clone, Copy)]
pub struct Said {
    /// The number of logical blocks that they say, if one does.
    pub size: Option<u32>,
    /// Whether there is no header.
    pub is_unwritten: bool,
    /// How many logical blocks the drive has room for.
    pub most: u64,
}

/// Whether none of these zones has a batch.
fn have_no_batch(scanned: &[ScannedZone]) -> bool
    ensures { IsTrue result ↔ HaveNoBatch scanned.now }
{
    scanned.iter().all(|zone| zone.heads.heads().is_empty())
}

/// Reads the headers of a drive. `given` is how many logical blocks it has if none says how many.
pub fn look<D: Device>(alloc: Global, device: &mut D, given: u64) -> Result<Said, MountFault>
    // While the drive is clean: done, the headers of all batches are known. A fault is the first that a survey meets,
    // unless the drive halts or memory runs out.
    ensures ok { IsTrue (D.drive device.new).clean → IfOk result (AreSaid (D.drive device.new)) }
    ensures err { IsTrue (D.drive device.new).clean
        → IfErr result (FailsBy (SurveyFails (D.drive device.old) given) (D.drive device.new)) }
    // Whatever the Reads returned, the room is that of the geometry.
    ensures most { IfOk result (λ said. said.most ≡ most_size (D.drive device.old).geometry) }
    // Whatever it answers, zones hold what they held.
    ensures kept { KeepsZones (D.drive device.old) (D.drive device.new) }
{
    let survey = survey_drive(alloc, device, given)?;
    Ok(Said {
        size: greatest_size(&survey.scanned),
        is_unwritten: have_no_batch(&survey.scanned),
        most: most_blocks(&device.geometry()),
    })
}

/// The fault of a drive whose headers say no size: nothing was written, or only headers without a size.
pub fn without_size(said: Said) -> NoDiskFault
    requires { said.size ≡ None }
    ensures tells { (drive : DriveState) → AreSaid drive said → TellsNoSize drive result }
    ensures room { (geometry : Geometry) → said.most ≡ most_size geometry → TellsRoom geometry result }
{
    if said.is_unwritten {
        return NoDiskFault::Unwritten { most: said.most };
    }
    NoDiskFault::NoSize { most: said.most }
}

/// How many logical blocks a drive of this geometry has room for, or 1 if the geometry is out of range.
pub fn room(geometry: &Geometry) -> u64
    ensures { IsInRange geometry.now → result ≡ most_size geometry.now }
{
    if geometry.check().is_err() {
        return 1;
    }
    most_blocks(geometry)
}
