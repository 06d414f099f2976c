//! A trace with a stop after each number of commands, or inside each Append, or out of memory there,
//! against a flat array.

use crate::bench::Setting;
use crate::fault::ScriptFault;
use crate::flat::Flat;
use crate::runs::{Lines, Ran, run};
use crate::show::show_line;
use crate::words::meant;
use crate::world::World;
use disk_runs::RunFault;
use nvme_wire::Command;
use std::alloc::{AllocError, Global};
use zone_translator::{DiskFault, MountFault};

/// What happens at each command of a trace in turn.
#[derive(Clone, Copy)]
pub enum Halts {
    /// The device has stopped.
    Stop,
    /// The device stops inside it, if it is an Append: after each number of its blocks.
    Tear,
    /// The device is out of memory, once.
    Memory,
}

impl Halts {
    /// The halt after that many commands, and for a tear after that many blocks of the Append then.
    pub fn setting(self, commands: u64, tear: u32) -> Setting {
        match self {
            Halts::Stop | Halts::Tear => Setting {
                stop_after: Some(commands),
                tear,
                ..Setting::PLAIN
            },
            Halts::Memory => Setting {
                no_memory_after: Some(commands),
                ..Setting::PLAIN
            },
        }
    }
}

/// Whether a run was ended by a stop of the device: in a call, or where it was to be mounted again.
fn is_stop(ended: Result<(), RunFault>) -> bool {
    ended == Err(RunFault::Disk(DiskFault::Stopped))
        || ended == Err(RunFault::Mount(MountFault::Halted))
}

/// Whether these blocks are the flat array with a front of a line. Only a stop leaves a growth done.
fn has_front(
    mut flat: Flat,
    line: Option<&[u8]>,
    is_stopped: bool,
    blocks: &[Vec<u8>],
) -> Result<bool, ScriptFault> {
    if flat.is_encoded(blocks) {
        return Ok(true);
    }
    let Some(line) = line else {
        return Ok(false);
    };
    if line.starts_with(b"grow") && !is_stopped {
        return Ok(false);
    }
    for number in 0..flat.steps(line)? {
        flat.step(line, number)?;
        if flat.is_encoded(blocks) {
            return Ok(true);
        }
    }
    Ok(false)
}

/// How many blocks a command writes, if it is an Append.
fn append_blocks(entry: &[u8; 64]) -> u32 {
    match Command::decode(entry) {
        Ok(Command::Append { blocks, .. }) => blocks,
        _ => 0,
    }
}

fn push_settings(
    halts: Halts,
    commands: u64,
    blocks: u32,
    settings: &mut Vec<Setting>,
) -> Result<(), AllocError> {
    if let Halts::Tear = halts {
        for tear in 1..=blocks {
            settings.push(halts.setting(commands, tear))?;
        }
        return Ok(());
    }
    settings.push(halts.setting(commands, 0))?;
    Ok(())
}

/// How a run with these entries is halted at each of its commands.
pub fn settings(
    alloc: Global,
    halts: Halts,
    entries: &[[u8; 64]],
) -> Result<Vec<Setting>, AllocError> {
    let mut settings = Vec::new(alloc);
    for (commands, entry) in entries.iter().enumerate() {
        push_settings(halts, commands as u64, append_blocks(entry), &mut settings)?;
    }
    Ok(settings)
}

/// Where a run was halted.
fn show_place(name: &str, setting: Setting, out: &mut String) -> Result<(), AllocError> {
    let commands = setting.stop_after.or(setting.no_memory_after).unwrap_or(0);
    let tear = setting.tear;
    writeln!(
        out,
        "    ended: {name} after {commands} commands, {tear} blocks into the next"
    )
}

/// Passes on what a check of a run in this setting found, and says which run it was if the sweep ends there.
pub fn checked(
    name: &str,
    setting: Setting,
    answer: Result<(), ScriptFault>,
    out: &mut String,
) -> Result<(), ScriptFault> {
    if answer.is_err() {
        show_place(name, setting, out)?;
    }
    answer
}

/// The text of lines, each ended by a line feed.
pub fn text_of(alloc: Global, lines: &[Vec<u8>]) -> Result<Vec<u8>, AllocError> {
    let mut text = Vec::new(alloc);
    for line in lines {
        text.extend_from_slice(line)?;
        text.push(b'\n')?;
    }
    Ok(text)
}

/// The lines of a trace, and the text of them.
#[derive(Drop)]
pub struct Trace {
    pub lines: Vec<Vec<u8>>,
    text: Vec<u8>,
}

fn meant_lines(
    alloc: Global,
    lines: &[&str],
    out: &mut String,
) -> Result<Vec<Vec<u8>>, ScriptFault> {
    let mut all = Vec::new(alloc);
    for line in lines {
        show_line(line, out)?;
        all.push(meant(alloc, line)?)?;
    }
    Ok(all)
}

impl Trace {
    /// The lines that are meant by lines of a script, each of which is shown.
    pub fn new(alloc: Global, lines: &[&str], out: &mut String) -> Result<Trace, ScriptFault> {
        let lines = meant_lines(alloc, lines, out)?;
        let text = text_of(alloc, &lines)?;
        Ok(Trace { lines, text })
    }
}

/// A trace over a drive, that is run again and again.
#[derive(Clone, Copy)]
pub struct Trial<'a> {
    pub world: &'a World,
    pub n: u32,
    pub trace: &'a Trace,
}

impl<'a> Trial<'a> {
    /// Runs the trace in this setting.
    pub fn run(&self, alloc: Global, setting: Setting) -> Result<Ran, ScriptFault> {
        let lines = Lines::Trace(u64::from(self.n));
        run(alloc, self.world, setting, lines, &self.trace.text)
    }

    /// How many of the lines these replies answer, and the flat array that they lead to.
    pub fn answered(&self, alloc: Global, replies: &[u8]) -> Result<(usize, Flat), ScriptFault> {
        let mut flat = Flat::new(alloc, &self.world.geometry, u64::from(self.n))?;
        let number = flat.answer_up_to(&self.trace.lines, replies)?;
        Ok((number, flat))
    }

    /// Checks the replies of a run, and that the drive can be mounted then and holds the array with a front of
    /// the next line.
    pub fn check_ran(&self, alloc: Global, ran: &Ran, is_stopped: bool) -> Result<(), ScriptFault> {
        let (number, flat) = self.answered(alloc, &ran.replies)?;
        let next = self.trace.lines.get(number).map(|line| line.as_slice());
        let array = ran.left.world.mounted_array(alloc, self.n)?;
        if !has_front(flat, next, is_stopped, &array)? {
            return Err(ScriptFault::Array);
        }
        Ok(())
    }

    /// Checks a run that is made so.
    fn check(&self, alloc: Global, setting: Setting) -> Result<(), ScriptFault> {
        let ran = self.run(alloc, setting)?;
        let is_stopped = is_stop(ran.result);
        if setting.tear > 0 && !is_stopped {
            return Err(ScriptFault::NotStopped);
        }
        self.check_ran(alloc, &ran, is_stopped)
    }

    /// How the trace is halted: at each of its commands, and after all of them if not inside one.
    fn settings(&self, alloc: Global, halts: Halts) -> Result<Vec<Setting>, ScriptFault> {
        let whole = self.run(alloc, Setting::PLAIN)?;
        let mut settings = settings(alloc, halts, &whole.left.entries)?;
        push_settings(halts, whole.left.entries.len() as u64, 0, &mut settings)?;
        Ok(settings)
    }

    /// Runs the trace once with each halt, and checks that each time the lines before it are answered, and the drive
    /// can be mounted and holds their array with a front of the next.
    pub fn show_halts(
        &self,
        alloc: Global,
        halts: Halts,
        out: &mut String,
    ) -> Result<(), ScriptFault> {
        let settings = self.settings(alloc, halts)?;
        for setting in &settings {
            checked("trace", *setting, self.check(alloc, *setting), out)?;
        }
        show_right(halts, settings.len(), out)?;
        Ok(())
    }
}

fn show_count(halts: Halts, count: usize, out: &mut String) -> Result<(), AllocError> {
    match halts {
        Halts::Tear => write!(out, "    at {count} torn blocks: "),
        Halts::Stop | Halts::Memory => {
            let commands = count.saturating_sub(1);
            write!(out, "    after 0 to {commands} commands: ")
        }
    }
}

fn show_right(halts: Halts, count: usize, out: &mut String) -> Result<(), AllocError> {
    show_count(halts, count, out)?;
    writeln!(
        out,
        "the lines before are answered, the drive can be mounted,"
    )?;
    writeln!(
        out,
        "    and it holds the array with a front of the next line"
    )
}
