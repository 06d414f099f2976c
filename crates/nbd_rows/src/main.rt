//! Runs recorded sessions of the Network Block Device protocol, and writes down what the server sends.
//!
//! Each session is served from a fresh drive in memory, as 9 logical blocks. The lines of standard input:
//!
//! - `session NAME ..` begins one. After the name may come `wide` (blocks of 4,096 bytes, else of 512), `stop K` (the
//!   drive stops after `K` commands, with the commands of the mount), `worn` (the medium fails in each sync), and
//!   `seed S` and `odds P` (the medium fails in P of 100 calls, as the seed chooses).
//! - A line of words is what the client sends: hexadecimal digits, or `BB*N` for a byte that is repeated.
//! - `end` runs the session. `cuts` runs it cut after each of its bytes, and with an output that fails after each
//!   byte.
//! - `kept N` runs the session over the drive of a file, with N logical blocks, and cleans between requests; the file
//!   keeps what it wrote. `again` runs it over the same file, and says no number. The first file has a fresh drive.
//!   `reading` does what `again` does, read only. `counted N` runs it over a new file, and shows what was written,
//!   moved and cleaned.
//! - `forgets N SEED ODDS` runs the session over the same file, with N logical blocks and a disk that forgets. With one
//!   number more the power is cut after so many requests.
//! - `fails SEED ODDS` does what `again` does, with a medium that fails in ODDS of 100 requests. With two numbers more,
//!   a seed and odds, the disk forgets, too. `fails_reading SEED ODDS` does the same read only.
//! - `fresh` makes a new file. `old N` makes one whose drive has a header of version 1, which says no size: block N
//!   was written.
//! - An empty line, and one that begins with `#`, says nothing.
//!
//! Shown are the lines `session`, a line for each reply, and how the session ended.
//!
//! # What is promised
//!
//! Nothing beyond safety. What it prints is compared with `stdout`.
#![tactic(auto)]

mod fault;
mod kept;
mod old;
mod run;
mod show;
mod words;

use crate::fault::RowsFault;
use crate::kept::{fresh_file, job_of, show_kept, show_read_only};
use crate::old::old_file;
use crate::run::{Setting, show_cuts, show_session};
use crate::words::{fail_of, forget_of, number_of, put_bytes, setting_of};
use nbd_jobs::NbdJob;
use std::alloc::Global;
use std::io;
use std::process::ExitCode;

/// A session that is read.
#[derive(Drop)]
struct Recorded {
    setting: Setting,
    input: Vec<u8>,
    /// What the file of a drive holds.
    file: Vec<u8>,
}

impl Recorded {
    /// Reads one line. What the line shows goes after `out`.
    fn take(&mut self, alloc: Global, line: &str, out: &mut String) -> Result<(), RowsFault> {
        if line.is_empty() || line.starts_with('#') {
            return Ok(());
        }
        match line {
            "end" => show_session(alloc, self.setting, &self.input, out),
            "cuts" => show_cuts(alloc, self.setting, &self.input, out),
            "again" => self.serve(alloc, None, false, out),
            "reading" => {
                let job = job_of(alloc, None, false);
                show_read_only(alloc, &job, &self.input, &self.file, out)
            }
            "fresh" => {
                self.file = fresh_file(alloc, self.setting)?;
                Ok(())
            }
            _ if line.starts_with("old ") => {
                self.file = old_file(alloc, self.setting, number_of(line)?)?;
                Ok(())
            }
            _ if line.starts_with("forgets ") => self.serve_forgetting(alloc, line, out),
            _ if line.starts_with("fails ") => self.serve_failing(alloc, line, out),
            _ if line.starts_with("fails_reading ") => self.read_failing(alloc, line, out),
            _ if line.starts_with("kept ") => self.serve(alloc, Some(number_of(line)?), false, out),
            _ if line.starts_with("counted ") => {
                self.file = fresh_file(alloc, self.setting)?;
                self.serve(alloc, Some(number_of(line)?), true, out)
            }
            _ => self.take_words(alloc, line, out),
        }
    }

    /// Serves the drive in the file.
    fn serve(
        &mut self,
        alloc: Global,
        blocks: Option<u64>,
        counted: bool,
        out: &mut String,
    ) -> Result<(), RowsFault> {
        let job = job_of(alloc, blocks, counted);
        show_kept(alloc, &job, &self.input, &mut self.file, out)
    }

    /// Serves the drive in the file, by a disk that forgets.
    fn serve_forgetting(
        &mut self,
        alloc: Global,
        line: &str,
        out: &mut String,
    ) -> Result<(), RowsFault> {
        let (blocks, forget) = forget_of(alloc, line)?;
        let job = NbdJob {
            forget: Some(forget),
            ..job_of(alloc, Some(blocks), false)
        };
        show_kept(alloc, &job, &self.input, &mut self.file, out)
    }

    /// Serves the drive in the file, whose medium fails. The disk may forget, too.
    fn serve_failing(
        &mut self,
        alloc: Global,
        line: &str,
        out: &mut String,
    ) -> Result<(), RowsFault> {
        let (fail, forget) = fail_of(alloc, line)?;
        let job = NbdJob {
            fail: Some(fail),
            forget,
            ..job_of(alloc, None, false)
        };
        show_kept(alloc, &job, &self.input, &mut self.file, out)
    }

    /// Serves the drive in the file read only, whose medium fails.
    fn read_failing(
        &mut self,
        alloc: Global,
        line: &str,
        out: &mut String,
    ) -> Result<(), RowsFault> {
        let (fail, _) = fail_of(alloc, line)?;
        let job = NbdJob {
            fail: Some(fail),
            ..job_of(alloc, None, false)
        };
        show_read_only(alloc, &job, &self.input, &self.file, out)
    }

    /// Reads a line that begins a session, or the bytes of one.
    fn take_words(&mut self, alloc: Global, line: &str, out: &mut String) -> Result<(), RowsFault> {
        let Some(words) = line.strip_prefix("session ") else {
            return put_bytes(alloc, line, &mut self.input);
        };
        self.setting = setting_of(words)?;
        self.input.clear();
        out.push_str(line)?;
        out.push('\n')?;
        Ok(())
    }
}

/// Runs the sessions of a text, and shows them.
fn run_rows(alloc: Global, text: &str, out: &mut String) -> Result<(), RowsFault> {
    let mut recorded = Recorded {
        setting: Setting::plain(),
        input: Vec::new(alloc),
        file: fresh_file(alloc, Setting::plain())?,
    };
    for line in text.lines() {
        recorded.take(alloc, line, out)?;
    }
    Ok(())
}

fn main(rt: HostRuntime) -> io::Result<ExitCode> {
    let text = io::read_to_string(rt.alloc(), rt.reader())?;
    let mut out = String::new(rt.alloc());
    let ended = run_rows(rt.alloc(), &text, &mut out);
    print!(rt; "{out}")?;
    match ended {
        Ok(()) => Ok(ExitCode::SUCCESS),
        Err(fault) => {
            eprintln!(rt; "the sessions end here: {fault}")?;
            Ok(ExitCode::FAILURE)
        }
    }
}
