// What a drive holds that a format of it would destroy.

ghost use Rattle.std.specs.Prelude.{◌≡◌, ◌⊎◌, IfErr, IfNone, IfOk, IfSome, IsTrue, count_by};
ghost use Rattle.zone_states.specs.Geometry.{IsInRange};
ghost use Rattle.drive_array.specs.Reserve.{most_size};
ghost use Rattle.drive_survey.specs.Reported.{KeepsZones};
ghost use Rattle.drive_survey.specs.Scan.{FailsBy};
ghost use Rattle.drive_inspection.specs.Found.{IsNoFinding};
ghost use Rattle.drive_inspection.specs.Written.{AreAllEmpty, CountsWritten, IsUnlookedAt, IsWritten, ShowsHolding};
ghost use Rattle.drive_inspection.specs.Written.{ShowsWritten, is_written};

use crate::info::{DriveInfo, Info};
use crate::inspecting::inspect_drive;
use drive_array::most_blocks;
use drive_port::Device;
use drive_survey::{MountFault, ReportedZone};
use nvme_wire::ZoneState;
use std::alloc::Global;
use std::fmt;
use zone_states::Geometry;

/// What is in the zones of a drive that are not Empty.
#[derive(Clone, Copy, Debug, PartialEq, Eq)]
pub enum Holding {
    /// A disk of that many logical blocks, which can be mounted.
    Disk(u32),
    /// What can be mounted. No header says a size.
    Unsized,
    /// What is not mounted as a disk, for this reason. It may be a disk that is damaged.
    Unmounted(MountFault),
}

impl fmt::Display for Holding {
    fn fmt<W: fmt::Write>(&self, f: &mut fmt::Formatter<W>) -> fmt::Result {
        match self {
            Holding::Disk(blocks) => write!(
                f,
                "a disk of {blocks} logical blocks, which can be mounted"
            ),
            Holding::Unsized => write!(
                f,
                "what can be mounted as a disk, in which no size is written"
            ),
            Holding::Unmounted(fault) => write!(
                f,
                "what cannot be mounted as a disk ({fault}; zonedisk check shows all faults)"
            ),
        }
    }
}

/// What a format of a drive destroys.
#[derive(Clone, Copy, Debug, PartialEq, Eq)]
pub struct Written {
    /// How many zones are not Empty.
    pub zones: usize,
    /// What they hold.
    pub holding: Holding,
}

impl fmt::Display for Written {
    fn fmt<W: fmt::Write>(&self, f: &mut fmt::Formatter<W>) -> fmt::Result {
        let Written { zones, holding } = self;
        write!(f, "it holds {holding}; zones that are not Empty: {zones}")
    }
}

/// How many logical blocks a drive is taken to have that does not say it: as many as it can serve.
pub fn blocks_taken(geometry: &Geometry) -> u64
    ensures { IsInRange geometry.now → result ≡ most_size geometry.now }
{
    if geometry.check().is_err() {
        return 1;
    }
    most_blocks(geometry)
}

/// Whether a zone is other than Empty.
pub fn is_written(zone: ReportedZone) -> bool
    ensures { result ≡ is_written zone }
{
    zone.state != ZoneState::Empty
}

/// How many zones are not Empty.
pub fn count_written(zones: &[ReportedZone]) -> usize
    ensures { result ≡ count_by is_written zones.now }
{
    let mut count = 0;
    for zone in zones {
        if is_written(*zone) {
            count += 1;
        }
    }
    count
}

/// What is told of a drive that was looked at.
pub fn holding_of(found: &Result<Info, MountFault>) -> Holding
    ensures { ShowsHolding found.now result }
{
    match found {
        Ok(held) => match held.holdings.said {
            Some(blocks) => Holding::Disk(blocks),
            None => Holding::Unsized,
        },
        Err(fault) => Holding::Unmounted(*fault),
    }
}

/// What a format destroys of a drive that was looked at, if a zone of it is not Empty.
fn written_of(info: &DriveInfo) -> Option<Written>
    ensures some { IfSome result (ShowsWritten info.now) }
    ensures none { IfNone result (count_by is_written info.now.zones.items ≡ 0) }
{
    let zones = count_written(&info.zones);
    if zones == 0 {
        return None;
    }
    Some(Written {
        zones,
        holding: holding_of(&info.found),
    })
}

/// What a format of a drive destroys, if a zone of it is not Empty. The fault is `Limits` (the geometry is out of
/// range), `Halted` (the drive has stopped), `Failed` (it failed at a command) or `OutOfMemory`; or `Damaged`, which
/// never comes while the drive is clean. After `Failed` the call can be made again.
pub fn find_written<D: Device>(alloc: Global, device: &mut D) -> Result<Option<Written>, MountFault>
    // While the drive is clean, this is what its zones hold. It fails only if the geometry is out of range, the drive
    // halts or memory runs out.
    ensures some { IsTrue (D.drive device.new).clean
        → IfOk result (λ found. IfSome found (IsWritten (D.drive device.old) (D.drive device.new))) }
    ensures err { IsTrue (D.drive device.new).clean
        → IfErr result (FailsBy (IsUnlookedAt (D.drive device.old)) (D.drive device.new)) }
    // Whatever the Reads returned, the zones that are not Empty are counted, and nothing is told where each is Empty.
    ensures counts { IfOk result (λ found. IfSome found (CountsWritten (D.drive device.old))) }
    ensures none { IfOk result (λ found. IfNone found (AreAllEmpty (D.drive device.old))) }
    // Whatever it answers, a failure tells nothing of what the drive holds but its geometry, and zones hold what they
    // held.
    ensures kinds { IfErr result (λ fault. IsNoFinding fault ⊎ IsUnlookedAt (D.drive device.old) fault) }
    ensures kept { KeepsZones (D.drive device.old) (D.drive device.new) }
{
    let geometry = device.geometry();
    let Ok(()) = geometry.check() else {
        return Err(MountFault::Limits);
    };
    let given = most_blocks(&geometry);
    let info = inspect_drive(alloc, device, given)?;
    Ok(written_of(&info))
}
