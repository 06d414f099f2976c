//! Runs a script of worked examples, and writes down what the drive and the disk do.
//!
//! The script comes on standard input. Each of its lines is repeated on standard output, with what it did below it,
//! four spaces further in. `crates/worked_runs/README.md` describes the lines.
//!
//! ```text
//! drive wide
//! trace 9
//! > fill 0 2 aa
//!     sent Append of 3 blocks at 0
//!     ok
//! ```
//!
//! Some lines repeat a trace, a mount or an image, with a stop, a tear, a failed allocation or a changed byte at each
//! place. What came of them is compared: what was right is counted, and the first that is wrong ends the script.
//!
//! # What is promised
//!
//! Nothing beyond safety. What it prints is compared with `stdout`.
#![tactic(auto)]

mod batches;
mod bench;
mod calls;
mod fault;
mod flat;
mod grammar;
mod images;
mod logs;
mod mounted_images;
mod mounts;
mod questions;
mod requests;
mod runs;
mod script;
mod show;
mod stops;
mod survey;
mod sweeps;
mod words;
mod world;

use std::io;
use std::process::ExitCode;

fn main(rt: HostRuntime) -> io::Result<ExitCode> {
    let text = io::read_to_string(rt.alloc(), rt.reader())?;
    let mut out = String::new(rt.alloc());
    let ended = script::run_script(rt.alloc(), &text, &mut out);
    print!(rt; "{out}")?;
    match ended {
        Ok(()) => Ok(ExitCode::SUCCESS),
        Err(fault) => {
            eprintln!(rt; "the script ends here: {fault}")?;
            Ok(ExitCode::FAILURE)
        }
    }
}
