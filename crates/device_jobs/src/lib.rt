//! Jobs on the drive behind a device, in the place of one in a file.
//!
//! ```text
//! let open = devices.open(alloc, path)?;
//! let mut drive = open.drive;
//! let well = check_device(alloc, job.blocks, &mut drive, &job.form, &mut output)?;
//! ```
//!
//! A [`DeviceJob`] is what the words of the command line ask for (`asked_tasks` reads them). [`Devices`] is the way
//! to the drives; a program that has none has [`NoDevices`]. What is done with an open drive is generic: each job
//! works over every `Device` of `drive_port`, also one whose Reads lie, and so over a drive in memory.
//!
//! A drive that stays in its file is opened by such a way, too. It alone can be made: [`DeviceJob::Create`] is done by
//! the way itself. And it alone can be read without a change: what only reads opens it by [`Devices::open_reader`].
//! A report, and what tells what a drive holds, open it by [`Devices::open_beside`]: such a drive is shown also if
//! another program has it. A rescue opens any drive by [`Devices::open_source`].
//!
//! No drive is restarted before a job, and none is saved after it: the drive itself keeps what is done.
//!
//! # What is promised
//!
//! Over every device, medium, reader and writer. What speaks of the bytes of blocks is promised while the drive is
//! clean: as long as each Read returned what the drive holds. What else is promised, holds whatever the Reads returned.
//!
//! * [`run_device`] mounts the drive, and answers the lines of a trace as `disk_runs` promises: all, or those that
//!   read, or all with a Flush after each that changes the drive (`specs/Runs.antt`). Then the zones of the drive are
//!   shown by a report of it, if they are asked for. In any case each line takes no more commands than it may, and each
//!   reply has its form (`RunsAnyway`).
//! * [`serve_device`] serves the drive as `nbd_session` promises, read only where that is asked for. Each sync of the
//!   session is one of the medium, or a Flush of the drive that the medium counts. [`serve_hardened`] also makes
//!   durable at the end what the drive has completed. Whether the drive had stopped by itself is told. In any case each
//!   message has a reply of its own kind, or the session ends by a fault (`while_clean`).
//! * [`export_device`] exports the blocks of the disk (`specs/Copies.antt`). The array stays. `import_mounted` of
//!   `disk_copies` imports them. In any case the drive keeps its shape, and nothing is written of one that is not
//!   mounted.
//! * [`check_device`] finds all faults of the drive, and [`inform_device`] what it holds (`specs/Looks.antt`).
//!   [`answer_report`] shows its zones (`specs/Reports.antt`), also after a run. No zone is changed, but that a
//!   controller may close some. [`show_zones`] shows them in other forms (`specs/Shown.antt`). [`plan_device`] plans a
//!   drive of its shape, as `tool_jobs` does. In any case what reports tell is true. What does not fit together is told
//!   by its name, `Damaged`, and as nothing else (`EndsLook`).
//! * [`format_device`] leaves a drive whose zones are all Empty, if it answers `Ok`. Without `force` it changes no
//!   zone, nor where a zone is Read Only or Offline. Whatever it answers, and whatever the Reads returned, each zone
//!   holds what it held, or is Empty (`specs/Formats.antt`).
//! * A format that is not done says why: how many zones hold something, which zone cannot be used, or which zone was
//!   not reset. It then writes no `ok`, or a front of it where the output failed. Out of memory all zones are as they
//!   were, or all are empty (`IsUnformatted`, `SaysNoOk`). While the drive is clean, it also holds what is told; it has
//!   stopped, or failed, where that is said (`HasFormatCause`).
//! * [`harden`] flushes the drive where a sync of its medium is that, and syncs the medium (`specs/Durable.antt`).
//! * Each device is refused by [`DeviceFault::NoWay`] in a program that has [`NoDevices`], and so is a new drive. It
//!   makes, stores and loads none (`HasNoWay`).
//!
//! # What is not proved
//!
//! * [`send_lines`], which sends entries as they are and believes no answer, and [`serve_client`], which is
//!   [`serve_hardened`] between buffers.
//! * What a format tells on standard error before the first Reset, that it ends where that cannot be told, and which
//!   zone is named where several cannot be used.
//! * Which drive a way opens or makes, and that it does so.
//! * The texts are tested.
//!
//! Tests: the rows of `tool_rows`.
#![tactic(auto)]

mod copying;
mod devices;
mod explanation;
mod fault;
mod format_fault;
mod formatting;
mod hardening;
mod job;
mod looking;
mod no_devices;
mod raw;
mod reporting;
mod running;
mod serving;
mod showing;

pub use copying::export_device;
pub use devices::{Devices, DriveName, OpenDevice, RawDrive, RawFault};
pub use explanation::{explain_run, explain_sent};
pub use fault::{DeviceFault, StartCommand, write_device_fault};
pub use format_fault::{FormatFault, NamedDrive};
pub use formatting::format_device;
pub use hardening::{HardenFault, harden};
pub use job::{ConvertJob, DeviceJob, DeviceRun};
pub use looking::{check_device, inform_device, plan_device};
pub use no_devices::{NoDevices, NoRawDrive, NoSource};
pub use raw::{SendFault, send_lines};
pub use reporting::answer_report;
pub use running::{run_device, run_fault};
pub use serving::{Hardened, Served, serve_client, serve_device, serve_hardened};
pub use showing::{ShownDrive, show_zones};
