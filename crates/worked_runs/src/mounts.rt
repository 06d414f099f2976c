//! Mounts of the drive: which commands are sent, and what is known of the disk then.

use crate::bench::{AfterRun, Bench, Setting, bench_of, left_by, world_after};
use crate::fault::ScriptFault;
use crate::show::show_sent;
use crate::stops::{Halts, checked, settings};
use crate::world::World;
use logical_map::Place;
use remount::{MountFault, mount};
use std::alloc::{AllocError, Global};
use zone_choice::{Filling, Second, Tables};

fn show_filling(name: &str, filling: Option<Filling>, out: &mut String) -> Result<(), AllocError> {
    let Some(filling) = filling else {
        return Ok(());
    };
    let Filling {
        zone,
        written,
        may_open,
    } = filling;
    let state = if may_open { ", may be open" } else { "" };
    writeln!(
        out,
        "    {name} zone {zone}, {written} blocks written{state}"
    )
}

fn show_place(place: Place, out: &mut String) -> Result<(), AllocError> {
    match place {
        Place::None => write!(out, " -"),
        Place::At(address) => write!(out, " {address}"),
        Place::Trimmed(address) => write!(out, " trim by {address}"),
    }
}

fn show_places(tables: &Tables, out: &mut String) -> Result<(), AllocError> {
    write!(out, "    places")?;
    for block in 0..tables.blocks() {
        show_place(tables.place_of(block), out)?;
    }
    out.push('\n')
}

fn next_zone(second: Option<Second>) -> Option<Filling> {
    match second {
        Some(Second::Next(filling)) => Some(filling),
        _ => None,
    }
}

fn show_tables(tables: &Tables, out: &mut String) -> Result<(), AllocError> {
    let size = tables.blocks();
    let next = tables.next();
    let empty = tables.empty_count();
    writeln!(
        out,
        "    {size} blocks, next sequence {next}, empty zones: {empty}"
    )?;
    show_filling("host", tables.host(), out)?;
    show_filling("next", next_zone(tables.second()), out)?;
    show_places(tables, out)
}

fn show_answer(answer: Result<Tables, MountFault>, out: &mut String) -> Result<(), AllocError> {
    match answer {
        Ok(tables) => show_tables(&tables, out),
        Err(fault) => writeln!(out, "    refused: {fault}"),
    }
}

/// Shows the commands of a mount, and what it knows of the disk or why it refuses the drive. Answers what the
/// drive holds then.
pub fn show_mount(
    alloc: Global,
    world: &World,
    setting: Setting,
    n: u64,
    out: &mut String,
) -> Result<World, ScriptFault> {
    let mut bench = bench_of(alloc, world, setting)?;
    let shown = show_mounted(alloc, &mut bench, setting, n, out);
    world_after(alloc, world.geometry, bench, shown)
}

fn show_mounted(
    alloc: Global,
    bench: &mut Bench,
    setting: Setting,
    n: u64,
    out: &mut String,
) -> Result<(), ScriptFault> {
    let answer = mount(alloc, bench, n);
    show_sent(alloc, bench.entries(), setting.shows_entries, out)?;
    show_answer(answer, out)?;
    Ok(())
}

/// What a mount answered, and what it left.
#[derive(Drop)]
pub struct Mounted {
    pub answer: Result<(), MountFault>,
    pub left: AfterRun,
}

fn mount_answer(alloc: Global, bench: &mut Bench, n: u32) -> Result<(), MountFault> {
    mount(alloc, bench, u64::from(n))?;
    Ok(())
}

/// Mounts a drive that holds what `world` says as `n` blocks.
pub fn mount_over(
    alloc: Global,
    world: &World,
    setting: Setting,
    n: u32,
) -> Result<Mounted, ScriptFault> {
    let mut bench = bench_of(alloc, world, setting)?;
    Ok(Mounted {
        answer: mount_answer(alloc, &mut bench, n),
        left: left_by(alloc, world.geometry, bench)?,
    })
}

/// A drive that is mounted again and again, and the array that it holds.
#[derive(Clone, Copy)]
struct Trial<'a> {
    world: &'a World,
    n: u32,
    array: &'a [Vec<u8>],
}

impl<'a> Trial<'a> {
    /// Checks the drive after the next mount.
    fn check_next(&self, alloc: Global, left: &World) -> Result<(), ScriptFault> {
        let next = mount_over(alloc, &left.restarted(alloc)?, Setting::PLAIN, self.n)?;
        if next.answer.is_err() {
            return Err(ScriptFault::NotMounted);
        }
        next.left.world.check_array(alloc, self.n, self.array)
    }

    /// Checks what a mount that is made so leaves, and then the next one.
    fn check(&self, alloc: Global, setting: Setting) -> Result<(), ScriptFault> {
        let halted = mount_over(alloc, self.world, setting, self.n)?;
        halted.left.world.check_array(alloc, self.n, self.array)?;
        self.check_next(alloc, &halted.left.world)
    }

    /// How a mount is halted at each of its commands.
    fn settings(&self, alloc: Global, halts: Halts) -> Result<Vec<Setting>, ScriptFault> {
        let whole = mount_over(alloc, self.world, Setting::PLAIN, self.n)?;
        Ok(settings(alloc, halts, &whole.left.entries)?)
    }

    /// Checks a mount with each halt.
    fn show_halts(&self, alloc: Global, halts: Halts, out: &mut String) -> Result<(), ScriptFault> {
        let settings = self.settings(alloc, halts)?;
        for setting in &settings {
            checked("mount", *setting, self.check(alloc, *setting), out)?;
        }
        show_right(settings.len(), out)?;
        Ok(())
    }
}

fn show_right(count: usize, out: &mut String) -> Result<(), AllocError> {
    writeln!(
        out,
        "    {count} times: the drive can be mounted, then and after the next mount, and holds the same array"
    )
}

/// Mounts a drive once with each halt, and checks that each time it can be mounted and holds its array, and so
/// after the next mount.
pub fn show_mount_halts(
    alloc: Global,
    world: &World,
    halts: Halts,
    n: u64,
    out: &mut String,
) -> Result<(), ScriptFault> {
    let n = u32::try_from(n).or(Err(ScriptFault::Words))?;
    let array = world.array(alloc, n)?.ok_or(ScriptFault::Words)?;
    let trial = Trial {
        world,
        n,
        array: &array,
    };
    trial.show_halts(alloc, halts, out)
}
