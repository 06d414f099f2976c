//! Runs of a session over a fresh drive.

use crate::fault::RowsFault;
use crate::show::show_replies;
use disk_files::FailAfter;
use drive_port::{Geometry, StopAfter};
use nbd_session::{
    FailingStore, Medium, MediumFault, ServeOptions, ServedDisk, SessionFault, SyncCount, serve,
};
use std::alloc::Global;
use std::io::Write;
use zone_drive::Drive;
use zone_translator::Disk;

/// How many logical blocks the disk has.
const BLOCKS: u64 = 9;

/// What a session is served from.
#[derive(Clone, Copy)]
pub struct Setting {
    /// How many bytes a block has.
    pub block: u32,
    /// After how many commands the drive stops.
    pub stop_after: u64,
    /// Whether the medium fails in each sync.
    pub is_worn: bool,
    /// What chooses the calls in which the medium fails.
    pub seed: u64,
    /// In how many of 100 calls it fails.
    pub odds: u32,
}

impl Setting {
    /// Blocks of 512 bytes, a drive that continues, and a medium that does not fail.
    pub fn plain() -> Setting {
        Setting {
            block: 512,
            stop_after: u64::MAX,
            is_worn: false,
            seed: 0,
            odds: 0,
        }
    }

    /// Four zones of 6 blocks, in steps of 8 addresses.
    pub fn geometry(self) -> Geometry {
        Geometry {
            block: self.block,
            zones: 4,
            size: 8,
            capacity: 6,
            transfer: 4,
            active: 2,
            open: 2,
        }
    }
}

/// Counts its syncs, or fails in each.
#[derive(Drop)]
struct Counting {
    syncs: SyncCount,
    is_worn: bool,
}

impl Medium for Counting {
    ghost use Rattle.std.specs.Prelude.{false};

    ghost syncs = { λ m. m.syncs };

    ghost flushes = { λ m. false };

    fn flushes(&self) -> bool {
        false
    }

    fn sync(&mut self) -> Result<(), MediumFault> {
        if self.is_worn {
            return Err(MediumFault);
        }
        self.syncs.add_one()
    }
}

/// How a session ended.
#[derive(Clone, Copy)]
struct Ended {
    result: Result<(), SessionFault>,
    /// How many bytes of the input are left.
    left: usize,
    syncs: u64,
}

/// Serves a session.
fn run_session<W: Write>(
    alloc: Global,
    setting: Setting,
    input: &[u8],
    output: &mut W,
) -> Result<Ended, RowsFault> {
    let Ok(drive) = Drive::new(alloc, setting.geometry()) else {
        return Err(RowsFault::Drive);
    };
    let Ok(disk) = Disk::mount(alloc, StopAfter::new(drive, setting.stop_after), BLOCKS) else {
        return Err(RowsFault::Drive);
    };
    let medium = Counting {
        syncs: SyncCount::new(),
        is_worn: setting.is_worn,
    };
    let served = ServedDisk::new(disk, medium, ServeOptions::PLAIN);
    let mut store = FailingStore::new(served, setting.seed, setting.odds);
    let mut reader = input;
    let result = serve(alloc, &mut reader, output, &mut store);
    let (_disk, medium) = store.into_store().into_parts();
    Ok(Ended {
        result,
        left: reader.len(),
        syncs: medium.syncs.get(),
    })
}

/// Runs a session, and shows what the server sent and how it ended.
pub fn show_session(
    alloc: Global,
    setting: Setting,
    input: &[u8],
    out: &mut String,
) -> Result<(), RowsFault> {
    let mut sent = Vec::new(alloc);
    let ended = run_session(alloc, setting, input, &mut sent)?;
    show_replies(&sent, out)?;
    match ended.result {
        Ok(()) => write!(out, "ended")?,
        Err(fault) => write!(out, "fault: {fault}")?,
    }
    write!(
        out,
        ", {} bytes left, {} syncs\n\n",
        ended.left, ended.syncs
    )?;
    Ok(())
}

/// How often cut sessions ended well, and by which fault.
#[derive(Clone, Copy)]
struct Tally {
    ended: u64,
    input: u64,
    others: u64,
}

impl Tally {
    /// With one more.
    fn and(self, ended: Result<(), SessionFault>) -> Tally {
        match ended {
            Ok(()) => Tally {
                ended: self.ended.saturating_add(1),
                ..self
            },
            Err(SessionFault::Input) => Tally {
                input: self.input.saturating_add(1),
                ..self
            },
            Err(_) => Tally {
                others: self.others.saturating_add(1),
                ..self
            },
        }
    }
}

/// Cuts the input after each of its bytes. Each session sends a beginning of what the whole one sends.
fn cut_input(
    alloc: Global,
    setting: Setting,
    input: &[u8],
    whole: &[u8],
) -> Result<Tally, RowsFault> {
    let mut tally = Tally {
        ended: 0,
        input: 0,
        others: 0,
    };
    for end in 0..input.len() {
        let mut sent = Vec::new(alloc);
        let ended = run_session(alloc, setting, &input[..end], &mut sent)?;
        if !whole.starts_with(&sent) {
            return Err(RowsFault::Cut);
        }
        tally = tally.and(ended.result);
    }
    Ok(tally)
}

/// Lets the output fail after each byte. What was sent before is what the whole session sends first.
fn cut_output(
    alloc: Global,
    setting: Setting,
    input: &[u8],
    whole: &[u8],
) -> Result<u64, RowsFault> {
    let mut faults: u64 = 0;
    for end in 0..whole.len() {
        let mut sent = FailAfter::new(Vec::new(alloc), end);
        let ended = run_session(alloc, setting, input, &mut sent)?;
        if sent.inner.as_slice() != &whole[..end] {
            return Err(RowsFault::Cut);
        }
        if ended.result == Err(SessionFault::Output) {
            faults = faults.saturating_add(1);
        }
    }
    Ok(faults)
}

/// Cuts a session at each byte of its input, and then of its output, and shows how often each end came.
pub fn show_cuts(
    alloc: Global,
    setting: Setting,
    input: &[u8],
    out: &mut String,
) -> Result<(), RowsFault> {
    let mut whole = Vec::new(alloc);
    run_session(alloc, setting, input, &mut whole)?;
    let tally = cut_input(alloc, setting, input, &whole)?;
    let faults = cut_output(alloc, setting, input, &whole)?;
    writeln!(
        out,
        "input of {} bytes cut: {} ended, {} within a message, {} otherwise",
        input.len(),
        tally.ended,
        tally.input,
        tally.others
    )?;
    writeln!(
        out,
        "output of {} bytes cut: {faults} faults of the output\n",
        whole.len()
    )?;
    Ok(())
}
