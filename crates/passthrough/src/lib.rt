//! A zoned drive behind a way that takes single commands, as an operating system passes them through to a drive; and
//! its shape, by Identify.
//!
//! ```text
//! // `way` leads to a drive of this geometry. `report` is its first report, of all zones.
//! let seen = zones_shown(alloc, geometry, &report)?;
//! let drive = PassthroughDrive::new(alloc, ReadAhead::new(alloc, way), seen)?;
//! let disk = Disk::mount(alloc, drive, 1000)?;
//! ```
//!
//! A [`Passthrough`] is such a way. Its contract is all that is known of the drive (`specs/Premise.antt`). What a Read
//! returns is believed. A Success was done, if the address of an Append is the zone's pointer, and a report shows the
//! zones that are there. Any other answer, or none, says only that the zones are left as by a stop inside the command.
//! But if an Append or an action is answered by an error, and the next report shows its zone as it was before, that
//! report is believed: the command had no effect. After a Flush that succeeds all that was appended is flushed, until
//! the next Append.
//!
//! [`PassthroughDrive`] makes a device of a way. [`ReadAhead`] is a way above a way. [`Through`] is a way to any
//! device, so the contract of a way can be met, and all of this can be tried over a drive in memory.
//!
//! What the drive says of itself by Identify gives its geometry, or why a disk does not work on it. Read are four
//! pages of 4,096 bytes, and the capacity of the first zone of a report. `specs/Fields.antt` names each field with its
//! standard: Base 2.0, NVM 1.0 or ZNS 1.1, as `docs/zones.md` calls them.
//!
//! ```text
//! let geometry = geometry_of(&pages, 4000, 126 * 4096)?;
//! assert_eq!(geometry.zones, 32);
//! let identity = Identity::of(alloc, &pages, &geometry)?;
//! assert_eq!(identity.model.as_str(), "QEMU NVMe Ctrl");
//! ```
//!
//! # What is promised
//!
//! * A [`PassthroughDrive`] keeps the contract of a device, whatever the drive answers. It keeps a table of what was
//!   seen of each zone (`specs/Seen.antt`), and that table is true as long as the device has not stopped.
//! * What a first report shows of each zone is true of the zones that it shows ([`zones_shown`]); or the report has
//!   another length, or a descriptor of another zone.
//! * A Read that is not answered by Success is `Failed`, and so is a report: they change nothing, and the device goes
//!   on. By contract no Read stops it.
//! * If an Append, a Close, a Finish or a Reset is answered by an error status, the device asks for one report of its
//!   zone. If that shows the zone in the state and at the pointer that the table says, the command is `Failed`: it had
//!   no effect, and the device goes on. Else the device stops.
//! * It stops for ever at a Flush that is not answered by Success, at an Append or an action that is not answered at
//!   all, at an Append with another address than the table says, and at a report with a zone in another state, at
//!   another pointer, or of another shape (`specs/Showing.antt`). Then it sends nothing.
//! * It counts the entries that were completed, and nothing that it sends by itself: no report after a command or a
//!   Flush, and no Flush before a Reset.
//! * [`PassthroughDrive::try_read`] tells whether the drive returned the blocks. A rescue reads so.
//! * It sends only what the contract of a way asks for: Reads of written blocks, Appends and actions that fit the
//!   table, and reports of no more than one transfer. A block that is not written is zeros, whatever the drive says.
//! * A Flush looks before it is answered. Once the drive has done it, the device asks for a report of each zone that is
//!   active, and of each that was written, closed, finished or reset since the last Flush (`FlushLooked` in
//!   `specs/Showing.antt`). One report shows as many neighbours as one transfer holds. What does not fit stops the
//!   device.
//! * Before a Reset it sends a Flush, if anything was appended since the last one, or may have been before the device
//!   began. So blocks that were moved out of a zone are durable before the zone is emptied. The contract of a way asks
//!   for it: a Reset is sent only while all that was appended is flushed (`IsSafe` in `specs/Premise.antt`).
//! * It sends no Write, no Open, no Offline and no action to all zones. These stop the device. A disk needs none of
//!   them, and a real drive may do half of some.
//! * [`ReadAhead`] answers a Read by what the zones hold, and never reads past the end that it is given.
//! * The geometry of [`geometry_of`] is in range, and is what the pages say (`specs/Shape.antt`). Its blocks have no
//!   metadata and no protection information, and read as zeros until they are written. The capacity of its zones does
//!   not vary, only the host makes them Full, and their descriptors have no extension. Else the first test that fails
//!   is named with its number, in the order of [`IdentifyFault`] (`specs/Faults.antt`); none exactly if all pass.
//! * [`check_writable`] refuses a namespace exactly if bit 0 of its NSATTR says that it is write protected.
//! * An [`Identity`] has the model and serial number of the drive, without white space at their ends, and the bytes of
//!   the namespace. A byte that is not printable ASCII is shown as `?` (`specs/Identity.antt`).
//! * [`Pages::has_write_cache`] tells whether the drive has a volatile write cache, and [`Pages::can_save_features`]
//!   whether it can save such a setting. [`Pages::is_write_protected`] tells whether the namespace is write protected.
//!
//! # What is assumed of Identify
//!
//! * MDTS and ZASL count in the smallest memory pages of the controller (CAP.MPSMIN), which Identify does not say.
//!   They are taken to have 4 KiB, the least that the standard allows. A drive with larger ones may move more.
//! * All zones have the capacity of the first one. ZOC only says that it does not vary; a report says it of each zone.
//! * Bits 6:5 of FLBAS are read always, as Linux does. A drive with 16 formats or fewer has zeros there.
//!
//! # What is not proved
//!
//! * That the device asks for a report of a zone after a Finish and a Reset, and how many commands are sent with
//!   [`ReadAhead`]: `call_tests` counts them.
//! * That the device goes on wherever it could: by contract it may stop at any command but a Read. `call_tests` shows
//!   where it goes on.
//! * Which fault of a first report is named.
//! * That [`PassthroughDrive::try_read`] tells a Read as not done only if the drive did not do it.
//! * A Flush that a drive refused, and that a way told as done, is refused by no contract: a drive of this profile has
//!   no volatile write cache.
//! * What a loss of power leaves of the drive. Of a way it is only known that all that was appended is flushed. The
//!   device's `durable` is empty: by the contract of a device only its own Flush changes what may be left. Here the
//!   Flush before a Reset does so, too, and so does each Append, of which a real drive may keep any part.
//! * A look after a Flush guards against drives that break the premise: an Append that was answered and not done, and a
//!   Reset by another program. Under the premise each such report fits.
//! * That the fields of Identify are where drives have them. It is tested over pages of QEMU's drives.
//! * The texts of the faults are tested.
//!
//! Tests: `call_tests`, and the rows of `tool_rows`, over the pages of QEMU's drives.
#![tactic(auto)]

mod acting;
mod appending;
mod asking;
mod drive;
mod failing;
mod first_report;
mod flushing;
mod identify_fault;
mod identity;
mod kept;
mod limits;
mod looking;
mod number;
mod pages;
mod passthrough;
mod read_ahead;
mod reading;
mod reporting;
mod run;
mod seen_zone;
mod shape;
mod showing;
mod table;
mod through;

pub use drive::PassthroughDrive;
pub use first_report::{ShownFault, zones_shown};
pub use identify_fault::IdentifyFault;
pub use identity::Identity;
pub use pages::Pages;
pub use passthrough::Passthrough;
pub use read_ahead::ReadAhead;
pub use seen_zone::SeenZone;
pub use shape::{check_writable, geometry_of};
pub use through::Through;
