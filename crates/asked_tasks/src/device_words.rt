// The jobs on a device, and the new drive that stays in its file.

ghost use Rattle.std.specs.Prelude.{◌≡◌, codes, true};
ghost use Rattle.clap.specs.Words.{found_of, rows_of};
ghost use Rattle.asked_tasks.specs.Values.{Finds, is_set};
ghost use Rattle.asked_tasks.specs.DeviceWords.{AsksForDevice, AsksForNew};

use crate::place::{Place, drive_path};
use crate::tool_words::{check_job, first_given, info_job, is_set, lacks_parts, zones_form};
use crate::words::{
    WordFault, export_job, geometry, habit_of, has_flag, image, import_job, nbd_job, number,
    repair_job, rescue_job, stop_of,
};
use clap::ArgMatches;
use device_jobs::{DeviceJob, DeviceRun};
use disk_runs::Taking;
use std::alloc::Global;
use tool_jobs::ZonesForm;

/// The new drive of `format --in-place`. It replaces nothing, so it is not forced.
pub fn new_drive(alloc: Global, matches: &ArgMatches<'_>) -> Result<DeviceJob, WordFault>
    requires { is_set (rows_of (found_of matches.now)) (codes "in-place") ≡ true }
    ensures { Finds (AsksForNew (rows_of (found_of matches.now))) result }
{
    if is_set(matches, "force") {
        return Err(WordFault::Both("in-place", "force"));
    }
    Ok(DeviceJob::Create {
        image: image(alloc, matches)?,
        geometry: geometry(matches)?,
    })
}

/// The job of `format`. A device has its shape, and is there.
fn format_job(alloc: Global, matches: &ArgMatches<'_>) -> Result<DeviceJob, WordFault>
    ensures { Finds (AsksForDevice (codes "format") (rows_of (found_of matches.now))) result }
{
    if is_set(matches, "in-place") {
        return Err(WordFault::Both("device", "in-place"));
    }
    if !lacks_parts(matches) {
        return Err(WordFault::Both("device", first_given(matches)));
    }
    Ok(DeviceJob::Format {
        device: drive_path(alloc, Place::Device, matches)?,
        force: has_flag(matches, "force"),
    })
}

/// The job of `run`.
fn run_job(alloc: Global, matches: &ArgMatches<'_>) -> Result<DeviceJob, WordFault>
    ensures { Finds (AsksForDevice (codes "run") (rows_of (found_of matches.now))) result }
{
    let blocks = number(matches, "blocks")?;
    let stop = stop_of(matches)?;
    Ok(DeviceJob::Run(DeviceRun {
        device: drive_path(alloc, Place::Device, matches)?,
        blocks,
        zones: has_flag(matches, "zones"),
        statistics: has_flag(matches, "statistics"),
        stop,
        habit: habit_of(matches),
        takes: Taking::All,
        progress: has_flag(matches, "progress"),
    }))
}

/// The job of `report`: all lines of it, or those of the zones in a state.
fn report_job(alloc: Global, matches: &ArgMatches<'_>) -> Result<DeviceJob, WordFault>
    ensures { Finds (AsksForDevice (codes "report") (rows_of (found_of matches.now))) result }
{
    let form = zones_form(matches)?;
    let device = drive_path(alloc, Place::Device, matches)?;
    match form {
        None => Ok(DeviceJob::Report {
            device,
            state: None,
        }),
        Some(ZonesForm::Lines(state)) => Ok(DeviceJob::Report {
            device,
            state: Some(state),
        }),
        Some(ZonesForm::Brief) => Err(WordFault::Both("device", "brief")),
        Some(ZonesForm::Json(_)) => Err(WordFault::Both("device", "json")),
        Some(ZonesForm::Svg) => Err(WordFault::Both("device", "svg")),
    }
}

/// The job of `nvme`.
fn nvme_job(alloc: Global, matches: &ArgMatches<'_>) -> Result<DeviceJob, WordFault>
    ensures { Finds (AsksForDevice (codes "nvme") (rows_of (found_of matches.now))) result }
{
    Ok(DeviceJob::Nvme {
        device: drive_path(alloc, Place::Device, matches)?,
        explain: has_flag(matches, "explain"),
        habit: habit_of(matches),
        sync: false,
    })
}

/// What a subcommand asks of a device.
pub fn device_job(
    alloc: Global,
    name: &str,
    matches: &ArgMatches<'_>,
) -> Result<DeviceJob, WordFault>
    ensures { Finds (AsksForDevice name.now (rows_of (found_of matches.now))) result }
{
    let place = Place::Device;
    match name {
        "format" => format_job(alloc, matches),
        "run" => run_job(alloc, matches),
        "report" => report_job(alloc, matches),
        "nvme" => nvme_job(alloc, matches),
        "nbd" => Ok(DeviceJob::Nbd(nbd_job(alloc, place, matches)?)),
        "check" => Ok(DeviceJob::Check(check_job(alloc, place, matches)?)),
        "info" => Ok(DeviceJob::Info(info_job(alloc, place, matches)?)),
        "export" => Ok(DeviceJob::Copy(export_job(alloc, place, matches)?)),
        "import" => Ok(DeviceJob::Copy(import_job(alloc, place, matches)?)),
        "rescue" => Ok(DeviceJob::Rescue(rescue_job(alloc, place, matches)?)),
        "repair" => Ok(DeviceJob::Repair(repair_job(alloc, place, matches)?)),
        _ => Err(WordFault::Missing),
    }
}
