//! Shows what the tools say of examples: plans of drives, checks of drives, zones in other forms than a report's
//! lines, and what drives hold. Then it copies blocks out of disks and into them, and shows what became of each.
//!
//! The lines of standard input up to `jobs` are for what zoned drives say of themselves by Identify:
//!
//! - `drive NAME ..` begins a drive, whose pages are zeros.
//! - `PAGE AT HEX` puts bytes on a page, from byte `AT` on. A page is `controller`, `namespace`, `zoned_namespace` or
//!   `zoned_controller`.
//! - `shape CAPACITY LIMIT` shows the geometry of the drive, with zones of that capacity and commands of at most
//!   `LIMIT` bytes, or why there is none. After it may come `PAGE AT HEX`, which are changed for this line only, and
//!   last `unzoned`, where the drive refuses Identify for the Zoned Namespace Command Set.
//! - An empty line, and one that begins with `#`, says nothing.
//!
//! Shown are the lines `drive` and `shape`, each of the latter with its answer.
//!
//! Below `jobs` are jobs on devices, over drives in memory in the place of real ones. A line that begins with
//! `zonedisk` is words of the program. Of lines that a job takes those before it are given to it: a trace, raw lines,
//! what a client sends, or blocks to import. Shown are the words, what the job writes, and how it ended; of words that
//! are refused the first line of the reason. Then the reasons why a device is not used are shown, and what a program
//! without a way to devices does. At the end are tasks on files that begin as a drive does which stays in its file:
//! without a way to such drives, and with one.
//!
//! # What is promised
//!
//! Nothing beyond safety. What it prints is compared with `stdout`.
#![tactic(auto)]

mod checks;
mod device_faults;
mod device_words;
mod drives;
mod drives_in_files;
mod identified;
mod infos;
mod jobs_on_devices;
mod memory_devices;
mod pieces;
mod plans;
mod rows_fault;
mod sizes;
mod streams;
mod told_drive;
mod told_shape;

use crate::identified::show_rows;
use crate::jobs_on_devices::show_jobs;
use std::io;
use std::process::ExitCode;
use std::test::Fail;

/// The rows that need no input.
fn show_examples(rt: &HostRuntime) -> Result<(), Fail> {
    plans::show_plans(rt)?;
    checks::show_checks(rt)?;
    infos::show_infos(rt)?;
    pieces::show_pieces(rt)?;
    sizes::show_sizes(rt)
}

/// What divides the rows of drives from the jobs on devices.
const JOBS: &str = "\njobs\n";

fn main(rt: HostRuntime) -> Result<ExitCode, Fail> {
    show_examples(&rt)?;
    let text = io::read_to_string(rt.alloc(), rt.reader())?;
    let (rows, jobs) = text.split_once(JOBS).unwrap_or((&text, ""));
    let mut out = String::new(rt.alloc());
    let ended = show_rows(rt.alloc(), rows, &mut out);
    print!(rt; "{out}")?;
    if let Err(fault) = ended {
        eprintln!(rt; "the rows end here: {fault}")?;
        return Ok(ExitCode::FAILURE);
    }
    show_jobs(&rt, rt.alloc(), jobs)?;
    Ok(ExitCode::SUCCESS)
}
