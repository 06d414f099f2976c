//! A trace that stops everywhere, and after each of its stops a mount that stops everywhere, against a flat array.

use crate::bench::Setting;
use crate::fault::ScriptFault;
use crate::flat::Flat;
use crate::mounts::mount_over;
use crate::runs::{Lines, Ran, run};
use crate::stops::{Halts, Trace, Trial, checked, settings, text_of};
use crate::world::World;
use remount::MountFault;
use std::alloc::{AllocError, Global};

/// How often something stopped: between two commands, and inside an Append.
#[derive(Clone, Copy)]
struct Stops {
    between: u64,
    inside: u64,
}

impl Stops {
    const NONE: Stops = Stops {
        between: 0,
        inside: 0,
    };

    /// With one more, that is made so.
    fn with(self, setting: Setting) -> Stops {
        let Stops { between, inside } = self;
        if setting.tear > 0 {
            return Stops {
                between,
                inside: inside.saturating_add(1),
            };
        }
        Stops {
            between: between.saturating_add(1),
            inside,
        }
    }
}

/// The stops of a run with these entries: after each number of its commands but all, and then inside each Append after
/// each number of its blocks.
fn all_stops(alloc: Global, entries: &[[u8; 64]]) -> Result<Vec<Setting>, AllocError> {
    let mut stops = settings(alloc, Halts::Stop, entries)?;
    for setting in &settings(alloc, Halts::Tear, entries)? {
        stops.push(*setting)?;
    }
    Ok(stops)
}

/// The lines that a trace did not come to before a stop, what a flat array answers to them, and that array after them.
#[derive(Drop)]
struct Rest {
    text: Vec<u8>,
    replies: String,
    flat: Flat,
}

fn rest_of(alloc: Global, trial: Trial, replies: &[u8]) -> Result<Rest, ScriptFault> {
    let (number, mut flat) = trial.answered(alloc, replies)?;
    let lines = trial.trace.lines.get(number..).unwrap_or(&[]);
    Ok(Rest {
        text: text_of(alloc, lines)?,
        replies: flat.answers(lines)?,
        flat,
    })
}

/// A drive that is to be mounted after a stop: what it holds, its array, and the lines that are left.
#[derive(Drop)]
struct Stopped {
    world: World,
    n: u32,
    array: Vec<Vec<u8>>,
    rest: Rest,
}

impl Stopped {
    /// The drive that a stopped run left.
    fn after(alloc: Global, trial: Trial, ran: &Ran) -> Result<Stopped, ScriptFault> {
        Ok(Stopped {
            world: ran.left.world.restarted(alloc)?,
            n: trial.n,
            array: ran.left.world.mounted_array(alloc, trial.n)?,
            rest: rest_of(alloc, trial, &ran.replies)?,
        })
    }

    /// Checks what a drive holds after all lines.
    fn check_end(&self, alloc: Global, last: &World) -> Result<(), ScriptFault> {
        let array = last.mounted_array(alloc, self.n)?;
        if !self.rest.flat.is_encoded(&array) {
            return Err(ScriptFault::Array);
        }
        Ok(())
    }

    /// Restarts the drive, runs the lines that are left, and checks their replies and what the drive holds then.
    fn check_rest(&self, alloc: Global, left: &World) -> Result<(), ScriptFault> {
        let lines = Lines::Trace(u64::from(self.n));
        let world = left.restarted(alloc)?;
        let ran = run(alloc, &world, Setting::PLAIN, lines, &self.rest.text)?;
        if ran.result.is_err() || ran.replies.as_slice() != self.rest.replies.as_bytes() {
            return Err(ScriptFault::Replies);
        }
        self.check_end(alloc, &ran.left.world)
    }

    /// Checks what a mount that stops so leaves, and then the lines that are left.
    fn check_stop(&self, alloc: Global, setting: Setting) -> Result<(), ScriptFault> {
        let halted = mount_over(alloc, &self.world, setting, self.n)?;
        let Err(MountFault::Halted) = halted.answer else {
            return Err(ScriptFault::NotStopped);
        };
        halted.left.world.check_array(alloc, self.n, &self.array)?;
        self.check_rest(alloc, &halted.left.world)
    }

    /// The stops of a mount.
    fn stops(&self, alloc: Global) -> Result<Vec<Setting>, ScriptFault> {
        let whole = mount_over(alloc, &self.world, Setting::PLAIN, self.n)?;
        if whole.answer.is_err() {
            return Err(ScriptFault::NotMounted);
        }
        Ok(all_stops(alloc, &whole.left.entries)?)
    }

    /// Mounts the drive with each stop, and at last with none, and counts the stops.
    fn sweep(
        &self,
        alloc: Global,
        counts: &mut Stops,
        out: &mut String,
    ) -> Result<(), ScriptFault> {
        for setting in &self.stops(alloc)? {
            checked("mount", *setting, self.check_stop(alloc, *setting), out)?;
            *counts = counts.with(*setting);
        }
        self.check_rest(alloc, &self.world)
    }
}

/// Runs the trace with a stop, and then the mounts after it.
fn sweep_stop(
    alloc: Global,
    trial: Trial,
    setting: Setting,
    counts: &mut Stops,
    out: &mut String,
) -> Result<(), ScriptFault> {
    let ran = trial.run(alloc, setting)?;
    trial.check_ran(alloc, &ran, true)?;
    Stopped::after(alloc, trial, &ran)?.sweep(alloc, counts, out)
}

fn show_right(trace: Stops, mounts: Stops, out: &mut String) -> Result<(), AllocError> {
    let Stops { between, inside } = trace;
    writeln!(out, "    trace: {between} stops, {inside} torn blocks")?;
    let Stops { between, inside } = mounts;
    writeln!(out, "    mounts: {between} stops, {inside} torn blocks")?;
    writeln!(
        out,
        "    each time the drive can be mounted, and holds the array with a front of the next line,"
    )?;
    writeln!(
        out,
        "    and after the next mount the lines that are left are answered"
    )
}

/// The stops of the trace, of which the last is after all of its commands.
fn trace_stops(alloc: Global, trial: Trial) -> Result<Vec<Setting>, ScriptFault> {
    let whole = trial.run(alloc, Setting::PLAIN)?;
    let mut stops = all_stops(alloc, &whole.left.entries)?;
    stops.push(Halts::Stop.setting(whole.left.entries.len() as u64, 0))?;
    Ok(stops)
}

/// Runs the trace with each of its stops, and says how many stops there were.
fn show_sweep(alloc: Global, trial: Trial, out: &mut String) -> Result<(), ScriptFault> {
    let mut trace = Stops::NONE;
    let mut mounts = Stops::NONE;
    for setting in &trace_stops(alloc, trial)? {
        let answer = sweep_stop(alloc, trial, *setting, &mut mounts, out);
        checked("trace", *setting, answer, out)?;
        trace = trace.with(*setting);
    }
    show_right(trace, mounts, out)?;
    Ok(())
}

/// Runs a trace with each stop, and mounts the drive after each of them with each stop. Checks that each time the
/// drive can be mounted and holds the array with a front of the next line, and that the lines that are left are
/// answered then as by a flat array.
pub fn show_all_stops(
    alloc: Global,
    world: &World,
    blocks: u64,
    lines: &[&str],
    out: &mut String,
) -> Result<(), ScriptFault> {
    let n = u32::try_from(blocks).or(Err(ScriptFault::Words))?;
    let trace = Trace::new(alloc, lines, out)?;
    let trial = Trial {
        world,
        n,
        trace: &trace,
    };
    show_sweep(alloc, trial, out)
}
