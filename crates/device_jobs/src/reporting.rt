// The zones of a drive, by a report of the drive itself.

ghost use Rattle.std.specs.Prelude.{◌≡◌, IfErr, IsTrue, OnOk};
ghost use Rattle.drive_port.specs.Calls.{OnlyCloses};
ghost use Rattle.device_jobs.specs.Reports.{IsUnreported, TellsReport, options_for, report_dwords};

use disk_files::write_out;
use drive_port::{Device, Geometry, PortFault, report};
use nvme_wire::{ReportingOptions, ZoneState};
use std::alloc::Global;
use std::io::Write;
use tool_jobs::ToolFault;
use zone_report::report_text;

/// Which zones are reported: those in a state, or all.
fn options_for(state: Option<ZoneState>) -> ReportingOptions
    ensures { result ≡ options_for state }
{
    match state {
        Some(state) => ReportingOptions::InState(state),
        None => ReportingOptions::AnyState,
    }
}

/// How many dwords a report of all zones has, but no more than a command can ask for.
fn report_dwords(geometry: &Geometry) -> u64
    ensures { result ≡ report_dwords geometry.now }
{
    (16 * (u64::from(geometry.zones) + 1)).min(1 << 32)
}

/// Shows the zones of a drive, all or those in a state, by one report. No zone is changed, but that the controller may
/// close some.
pub fn answer_report<D: Device, W: Write>(
    alloc: Global,
    device: &mut D,
    state: Option<ZoneState>,
    output: &mut W,
) -> Result<(), ToolFault>
    ensures ok { OnOk result (TellsReport (D.drive device.old) (options_for state) (D.drive device.new)
        (W.contents output.old) (W.contents output.new)) }
    ensures err { IfErr result (λ fault. IsUnreported (D.drive device.old) (options_for state) fault
        (D.drive device.new) (W.contents output.old) (W.contents output.new)) }
    ensures kept { OnlyCloses (D.drive device.old) (D.drive device.new) }
    ensures trusted { IsTrue (D.drive device.new).clean → IsTrue (D.drive device.old).clean }
{
    let dwords = report_dwords(&device.geometry());
    let mut bytes = Vec::new(alloc);
    match report(device, 0, options_for(state), false, dwords, &mut bytes) {
        Ok(()) => {}
        Err(PortFault::Memory) => return Err(ToolFault::Memory),
        Err(PortFault::Failed) => return Err(ToolFault::Failed),
        // No drive that has a zone refuses a report.
        Err(_) => return Err(ToolFault::Stopped),
    }
    let text = match report_text(alloc, &bytes) {
        Ok(text) => text,
        // What a drive reports is a report.
        Err(_) => return Err(ToolFault::Memory),
    };
    match write_out(output, text.as_bytes()) {
        Ok(()) => Ok(()),
        Err(_) => Err(ToolFault::Output),
    }
}
