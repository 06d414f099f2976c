//! How many logical blocks to give a drive: what each number is expected to cost.
//!
//! ```text
//! let rows = plan(alloc, &geometry, Aim::Shares)?;    // 50 to 99 percent, and the greatest number
//! let text = plan_text(alloc, &geometry, &rows)?;     // a table
//! let text = plan_json(alloc, &geometry, &rows)?;     // the same as JSON
//! let text = plan_svg(alloc, &geometry)?;             // write amplification by share, as a plot
//! let geometry = drive_for(256 << 20);                // Some: the least drive for 256 MiB
//! let text = size_advice(alloc, &geometry, blocks)?;  // Some where random writes to so many blocks are slow
//! ```
//!
//! Nothing here sends a command.
//!
//! # What is promised
//!
//! * A plan has the rows that were asked for (`AreAimed` in specs/Rows). Each is of a number of blocks that the drive
//!   can serve. It tells exactly their bytes, their percent of the greatest number, the memory of the tables, and the
//!   Reads that a mount sends at least (`IsRow`).
//! * Without a plan: the geometry is out of range, with its first fault; the drive cannot serve that many blocks, with
//!   the greatest number; or the share is no percentage. `Amplification` comes only if it was asked for
//!   (`IsPlanFault`).
//! * For each number of bytes up to 2^42 there is a drive that holds them in 80 percent of its logical blocks. It is
//!   the least one: of the drives that may be planned no other that holds them has smaller zones, or fewer of the same
//!   size. These have zones of 2^8, 2^10 and so on to 2^20 blocks, 8 at least, and at most 1,024 unless they are the
//!   largest (`IsDriveFor` in specs/Drives).
//!
//! # What is not proved
//!
//! * The write amplification and the Reads of a drive that is full. They are estimates, for random writes of 1, 4,
//!   16 and 64 blocks together, long after the drive was filled. `docs/placement.md` says where they come from;
//!   `bench/plan` compares them with runs.
//! * That no greater number keeps a write amplification.
//! * What the tables, the JSON, the plot and the advice on a size say is tested.
//!
//! Tests: the rows of `tool_rows`; the advice in `job_tests`.
#![tactic(auto)]

mod advice;
mod aims;
mod drive;
mod estimate;
mod fault;
mod json;
mod plot;
mod row;
mod text;

pub use advice::{memory_advice, size_advice};
pub use aims::{Aim, SHARES, plan};
pub use drive::{PLANNED_SHARE, drive_for};
pub use estimate::{Estimate, WRITES, expected};
pub use fault::PlanFault;
pub use json::{geometry_json, plan_json};
pub use plot::plan_svg;
pub use row::{Row, row_of, share_of};
pub use text::{format_words, plan_text};
