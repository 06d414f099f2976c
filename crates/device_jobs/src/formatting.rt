// A drive in which nothing is written, of the drive behind a device.

ghost use Rattle.std.specs.Prelude.{◌≡◌, ℕ, ◌*◌, ◌<◌, ◌^◌, false, length};
ghost use Rattle.std.specs.Prelude.{IfErr, IfNone, IfOk, IfSome, IsTrue, OnOk};
ghost use Rattle.drive_port.specs.Calls.{ResetZone};
ghost use Rattle.std.specs.Io.KnownBytes.{Appends};
ghost use Rattle.drive_port.specs.Drive.{IsLawful};
ghost use Rattle.drive_survey.specs.Reported.{KeepsZones};
ghost use Rattle.disk_files.specs.Reply.{ok_text};
ghost use Rattle.drive_inspection.specs.Written.{AreAllEmpty, IsHolding};
ghost use Rattle.device_jobs.specs.Formats.{AreUsages, HasFormatCause, IsOfLook, IsResetOf, IsUnformatted, IsUnlisted};
ghost use Rattle.device_jobs.specs.Formats.{IsUnlooked, IsUnreset, IsUnsaid, IsUnusable, IsUnusableAt, NoneIsUnusable};
ghost use Rattle.device_jobs.specs.Formats.{OnlyEmpties, SaysNoOk, is_unusable, unlooked, unreported};

use crate::format_fault::{FormatFault, NamedDrive};
use crate::looking::look;
use disk_files::{ok_reply, write_out};
use drive_inspection::{Holding, Written, count_written, holding_of, is_written};
use drive_port::{Device, reset};
use drive_survey::{MountFault, ReportedZone, report_zones};
use nvme_wire::ZoneState;
use std::alloc::Global;
use std::io::Write;
use tool_jobs::ToolFault;

/// Whether a zone is Read Only or Offline.
fn is_unusable(zone: ReportedZone) -> bool
    ensures { result ≡ is_unusable zone }
{
    matches!(zone.state, ZoneState::ReadOnly | ZoneState::Offline)
}

/// The lowest zone that is Read Only or Offline.
fn find_unusable(zones: &[ReportedZone]) -> Option<u32>
    requires { length zones.now < 2 ^ 32 }
    ensures some { IfSome result (IsUnusable zones.now) }
    ensures none { IfNone result (NoneIsUnusable zones.now) }
{
    for (number, zone) in zones.iter().enumerate() {
        if is_unusable(*zone) {
            return Some(number as u32);
        }
    }
    None
}

/// What the fault of a look is to a format.
fn unlooked(fault: ToolFault) -> FormatFault
    ensures { result ≡ unlooked fault }
{
    match fault {
        ToolFault::Memory => FormatFault::Memory,
        ToolFault::Failed => FormatFault::Failed,
        ToolFault::Damaged => FormatFault::Damaged,
        _ => FormatFault::Stopped,
    }
}

/// What is in the zones of a drive.
fn find_holding<D: Device>(alloc: Global, device: &mut D) -> Result<Holding, FormatFault>
    ensures ok { IsTrue (D.drive device.new).clean
        → IfOk result (IsHolding (D.drive device.old) (D.drive device.new)) }
    ensures err { IsTrue (D.drive device.new).clean → IfErr result (IsUnlooked (D.drive device.new)) }
    ensures kinds { IfErr result IsOfLook }
    ensures kept { KeepsZones (D.drive device.old) (D.drive device.new) }
{
    match look(alloc, device) {
        Ok(info) => Ok(holding_of(&info.found)),
        Err(fault) => Err(unlooked(fault)),
    }
}

/// Resets the zone of this number.
fn reset_zone<D: Device>(alloc: Global, device: &mut D, number: u32) -> Result<(), FormatFault>
    ensures ok { OnOk result (ResetZone (D.drive device.old) (D.drive device.new)
        (number * (D.drive device.old).geometry.size)) }
    ensures err { IfErr result (IsResetOf number) }
    ensures lawful { IsLawful (D.drive device.new) }
    ensures empties { OnlyEmpties (D.drive device.old) (D.drive device.new) }
{
    let start = device.geometry().start_of(number);
    match reset(alloc, device, start) {
        Ok(()) => Ok(()),
        Err(fault) => Err(FormatFault::Reset(number, fault)),
    }
}

/// Resets each zone that is not Empty, of those that were reported, from the lowest on.
fn reset_zones<D: Device>(
    alloc: Global,
    device: &mut D,
    zones: &[ReportedZone],
) -> Result<(), FormatFault>
    requires reported { AreUsages (D.drive device.old) zones.now }
    ensures ok { OnOk result (AreAllEmpty (D.drive device.new)) }
    ensures err { IfErr result (IsUnreset (D.drive device.new)) }
    ensures empties { OnlyEmpties (D.drive device.old) (D.drive device.new) }
{
    let count = device.geometry().zones;
    for number in 0..count {
        if is_written(zones[number as usize]) {
            reset_zone(alloc, device, number)?;
        }
    }
    Ok(())
}

/// What a report that failed is to a format.
fn unreported(fault: MountFault) -> FormatFault
    ensures { result ≡ unreported fault }
{
    match fault {
        MountFault::OutOfMemory => FormatFault::Memory,
        MountFault::Failed => FormatFault::Failed,
        _ => FormatFault::Stopped,
    }
}

/// Which zones a drive has, by one report.
fn zones_of<D: Device>(alloc: Global, device: &mut D) -> Result<Vec<ReportedZone>, FormatFault>
    ensures ok { IfOk result (λ zones. AreUsages (D.drive device.new) zones.items) }
    ensures err { IfErr result (IsUnlisted (D.drive device.old) (D.drive device.new)) }
    ensures kept { KeepsZones (D.drive device.old) (D.drive device.new) }
{
    let geometry = device.geometry();
    let Ok(()) = geometry.check() else {
        return Err(FormatFault::Limits);
    };
    match report_zones(alloc, device) {
        Ok(zones) => Ok(zones),
        Err(fault) => Err(unreported(fault)),
    }
}

/// Resets the zones of a drive that are not Empty, if they may be destroyed, and tells before what they hold.
fn empty_zones<D: Device, E: Eprint>(
    errors: &E,
    alloc: Global,
    named: NamedDrive<'_>,
    force: bool,
    device: &mut D,
    zones: &[ReportedZone],
) -> Result<(), FormatFault>
    requires reported { AreUsages (D.drive device.old) zones.now }
    ensures kept { force ≡ false → KeepsZones (D.drive device.old) (D.drive device.new) }
    ensures empties { OnlyEmpties (D.drive device.old) (D.drive device.new) }
    ensures ok { OnOk result (AreAllEmpty (D.drive device.new)) }
    ensures err { IfErr result (IsUnformatted force (D.drive device.old) (D.drive device.new)) }
    ensures cause { IsTrue (D.drive device.new).clean
        → IfErr result (HasFormatCause (D.drive device.old) (D.drive device.new)) }
{
    let count = count_written(zones);
    if count == 0 {
        return Ok(());
    }
    let written = Written {
        zones: count,
        holding: find_holding(alloc, device)?,
    };
    if !force {
        return Err(FormatFault::Written(written));
    }
    if eprintln!(errors; "zonedisk: {named}: {written}. That is destroyed now").is_err() {
        return Err(FormatFault::Untold);
    }
    reset_zones(alloc, device, zones)
}

/// The same, but a drive with a zone that is Read Only or Offline is left as it is.
fn empty_usable<D: Device, E: Eprint>(
    errors: &E,
    alloc: Global,
    named: NamedDrive<'_>,
    force: bool,
    device: &mut D,
) -> Result<(), FormatFault>
    ensures kept { force ≡ false → KeepsZones (D.drive device.old) (D.drive device.new) }
    ensures unusable { (zone : ℕ) → IsUnusableAt (D.drive device.old) zone
        → KeepsZones (D.drive device.old) (D.drive device.new) }
    ensures empties { OnlyEmpties (D.drive device.old) (D.drive device.new) }
    ensures ok { OnOk result (AreAllEmpty (D.drive device.new)) }
    ensures err { IfErr result (IsUnformatted force (D.drive device.old) (D.drive device.new)) }
    ensures cause { IsTrue (D.drive device.new).clean
        → IfErr result (HasFormatCause (D.drive device.old) (D.drive device.new)) }
{
    let zones = zones_of(alloc, device)?;
    if let Some(number) = find_unusable(&zones) {
        return Err(FormatFault::Unusable(number));
    }
    empty_zones(errors, alloc, named, force, device, &zones)
}

/// Says that it is done.
fn say_ok<W: Write>(alloc: Global, output: &mut W) -> Result<(), FormatFault>
    ensures ok { OnOk result (Appends (W.contents output.old) (W.contents output.new) ok_text) }
    ensures err { IfErr result IsUnsaid }
    ensures silent { IfErr result (λ fault. SaysNoOk fault (W.contents output.old) (W.contents output.new)) }
{
    let mut reply = Vec::new(alloc);
    if ok_reply(&mut reply).is_err() {
        return Err(FormatFault::Memory);
    }
    match write_out(output, &reply) {
        Ok(()) => Ok(()),
        Err(_) => Err(FormatFault::Output),
    }
}

/// Makes a drive in which nothing is written, and says `ok`. A drive whose zones are all Empty is left as it is.
/// Without `force` any other is refused. With it people are told which drive it is and what it holds. Then each zone
/// that is not Empty is reset. A drive with a zone that is Read Only or Offline is refused, and no zone of it is reset.
pub fn format_device<D: Device, E: Eprint, W: Write>(
    errors: &E,
    alloc: Global,
    named: NamedDrive<'_>,
    force: bool,
    device: &mut D,
    output: &mut W,
) -> Result<(), FormatFault>
    // Without force no zone is changed, nor where a zone is Read Only or Offline.
    ensures kept { force ≡ false → KeepsZones (D.drive device.old) (D.drive device.new) }
    ensures unusable { (zone : ℕ) → IsUnusableAt (D.drive device.old) zone
        → KeepsZones (D.drive device.old) (D.drive device.new) }
    // Whatever it answers, each zone holds what it held, or is Empty.
    ensures empties { OnlyEmpties (D.drive device.old) (D.drive device.new) }
    // Done, each zone is Empty.
    ensures ok { OnOk result (AreAllEmpty (D.drive device.new)) }
    ensures err { IfErr result (IsUnformatted force (D.drive device.old) (D.drive device.new)) }
    // While the drive is clean, it is told what it holds, and a stop or a failure has its cause.
    ensures cause { IsTrue (D.drive device.new).clean
        → IfErr result (HasFormatCause (D.drive device.old) (D.drive device.new)) }
    ensures silent { IfErr result (λ fault. SaysNoOk fault (W.contents output.old) (W.contents output.new)) }
    ensures says { OnOk result (Appends (W.contents output.old) (W.contents output.new) ok_text) }
{
    empty_usable(errors, alloc, named, force, device)?;
    say_ok(alloc, output)
}
