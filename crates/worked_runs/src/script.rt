//! The lines of a script, and what each of them does.

use crate::batches::parse_batch;
use crate::bench::{Setting, Stage};
use crate::calls::{show_calls, show_disk};
use crate::fault::ScriptFault;
use crate::grammar::{show_raw_lines, show_trace_lines};
use crate::images::{show_all_changes, show_changed_images, show_image, show_random_images};
use crate::logs::show_logs;
use crate::mounted_images::show_mounted_changes;
use crate::mounts::{show_mount, show_mount_halts};
use crate::questions::{
    show_array, show_contents, show_drive_fault, show_moves, show_reserve, show_room, show_zones,
};
use crate::runs::{Lines, show_run};
use crate::show::show_answer_bytes;
use crate::stops::{Halts, Trace, Trial};
use crate::survey::show_survey;
use crate::sweeps::show_all_stops;
use crate::words::{byte, bytes, habit, meant, number, part, shape, state};
use crate::world::World;
use std::alloc::Global;
use zone_drive::Drive;
use zone_states::Geometry;

/// A line of a script, and the lines after it that begin with `>`, which belong to it.
#[derive(Drop)]
struct Step<'a> {
    line: &'a str,
    lines: Vec<&'a str>,
}

/// The text of a line that belongs to the one before, or none.
fn inner_of(line: &str) -> Option<&str> {
    if line == ">" {
        return Some("");
    }
    line.strip_prefix("> ")
}

fn add_inner<'a>(steps: &mut [Step<'a>], inner: &'a str) -> Result<(), ScriptFault> {
    match steps.last_mut() {
        Some(step) => Ok(step.lines.push(inner)?),
        None => Err(ScriptFault::Words),
    }
}

fn steps<'a>(alloc: Global, text: &'a str) -> Result<Vec<Step<'a>>, ScriptFault> {
    let mut steps: Vec<Step> = Vec::new(alloc);
    for line in text.lines() {
        match inner_of(line) {
            Some(inner) => add_inner(&mut steps, inner)?,
            None => steps.push(Step {
                line,
                lines: Vec::new(alloc),
            })?,
        }
    }
    Ok(steps)
}

/// How many blocks of an Append are written before a stop, if these words say so.
fn tear(words: &[&str]) -> Result<u32, ScriptFault> {
    match words {
        [] => Ok(0),
        [blocks, _, "into", "an", "Append"] => part(blocks),
        _ => Err(ScriptFault::Words),
    }
}

/// How the next run is made again and again.
#[derive(Clone, Copy)]
enum Sweep {
    // With this at each of its commands.
    Each(Halts),
    // With a stop everywhere, and after each of them a mount with a stop everywhere.
    Mounts,
}

fn sweep_of(words: &[&str]) -> Result<Sweep, ScriptFault> {
    match words {
        ["stop"] => Ok(Sweep::Each(Halts::Stop)),
        ["torn", "block"] => Ok(Sweep::Each(Halts::Tear)),
        ["halt", "for", "memory"] => Ok(Sweep::Each(Halts::Memory)),
        ["stop,", "mounts", "included"] => Ok(Sweep::Mounts),
        _ => Err(ScriptFault::Words),
    }
}

/// That a line was done, or the fault that it met.
fn done(answer: Result<(), ScriptFault>) -> Result<bool, ScriptFault> {
    answer?;
    Ok(true)
}

/// What the steps so far have made.
#[derive(Drop)]
struct Session<'a> {
    alloc: Global,
    shapes: Vec<(&'a str, Geometry)>,
    world: World,
    // The zone to which batches and blocks are added.
    zone: u64,
    // Only for the next run.
    setting: Setting,
    sweep: Option<Sweep>,
}

impl<'a> Session<'a> {
    fn shape(&self, name: &str) -> Result<Geometry, ScriptFault> {
        for (known, geometry) in &self.shapes {
            if *known == name {
                return Ok(*geometry);
            }
        }
        Err(ScriptFault::Words)
    }

    fn name_shape(&mut self, words: &[&'a str]) -> Result<(), ScriptFault> {
        let [name, parts @ ..] = words else {
            return Err(ScriptFault::Words);
        };
        self.shapes.push((*name, shape(parts)?))?;
        Ok(())
    }

    fn fresh(&mut self, words: &[&str], out: &mut String) -> Result<(), ScriptFault> {
        let [name] = words else {
            return Err(ScriptFault::Words);
        };
        let geometry = self.shape(name)?;
        match Drive::new(self.alloc, geometry) {
            Ok(drive) => {
                self.world = World::of(self.alloc, geometry, &drive)?;
                Ok(())
            }
            Err(fault) => show_drive_fault(self.alloc, fault, out),
        }
    }

    /// Begins a zone anew, to which blocks are added then.
    fn begin_zone(&mut self, words: &[&str]) -> Result<(), ScriptFault> {
        let [place, name] = words else {
            return Err(ScriptFault::Words);
        };
        self.zone = number(place)?;
        self.world.set_zone(self.alloc, self.zone, state(name)?)
    }

    fn keep(&mut self, words: &[&str]) -> Result<(), ScriptFault> {
        let [zones, "zones"] = words else {
            return Err(ScriptFault::Words);
        };
        self.world.zones.truncate(number(zones)? as usize);
        Ok(())
    }

    /// Puts a block of one byte after the zone's.
    fn push_block(&mut self, byte: u8) -> Result<(), ScriptFault> {
        let block = vec![in self.alloc; byte; self.world.geometry.block as usize]?;
        self.world.push_block(self.zone, block)
    }

    fn push_batch(&mut self, words: &[&str]) -> Result<(), ScriptFault> {
        let batch = parse_batch(self.alloc, words)?;
        self.world.push_block(self.zone, batch.front(self.alloc)?)?;
        for byte in &batch.data(self.alloc)? {
            self.push_block(*byte)?;
        }
        Ok(())
    }

    fn push_bytes(&mut self, words: &[&str]) -> Result<(), ScriptFault> {
        let mut block = Vec::new(self.alloc);
        for word in words {
            bytes(&meant(self.alloc, word)?, &mut block)?;
        }
        self.world.push_block(self.zone, block)
    }

    fn push_byte(&mut self, words: &[&str]) -> Result<(), ScriptFault> {
        let [data] = words else {
            return Err(ScriptFault::Words);
        };
        self.push_block(byte(data.as_bytes())?)
    }

    /// Lines that make a drive. They show nothing, except for a drive that cannot be.
    fn make(
        &mut self,
        name: &str,
        words: &[&'a str],
        out: &mut String,
    ) -> Result<bool, ScriptFault> {
        match name {
            "shape" => done(self.name_shape(words)),
            "drive" => done(self.fresh(words, out)),
            "zone" => done(self.begin_zone(words)),
            "batch" => done(self.push_batch(words)),
            "block" => done(self.push_byte(words)),
            "bytes" => done(self.push_bytes(words)),
            "keep" => done(self.keep(words)),
            _ => Ok(false),
        }
    }

    fn set_stop(&mut self, words: &[&str]) -> Result<(), ScriptFault> {
        let ["after", commands, _, rest @ ..] = words else {
            return Err(ScriptFault::Words);
        };
        self.setting.stop_after = Some(number(commands)?);
        self.setting.tear = tear(rest)?;
        Ok(())
    }

    fn set_no_memory(&mut self, words: &[&str]) -> Result<(), ScriptFault> {
        let ["of", "memory", "after", commands, _] = words else {
            return Err(ScriptFault::Words);
        };
        self.setting.no_memory_after = Some(number(commands)?);
        Ok(())
    }

    fn set_entries(&mut self, words: &[&str]) -> Result<(), ScriptFault> {
        let ["entries"] = words else {
            return Err(ScriptFault::Words);
        };
        self.setting.shows_entries = true;
        Ok(())
    }

    fn set_habit(&mut self, words: &[&str]) -> Result<(), ScriptFault> {
        let [name] = words else {
            return Err(ScriptFault::Words);
        };
        self.setting.habit = habit(name)?;
        Ok(())
    }

    fn set_sweep(&mut self, words: &[&str]) -> Result<(), ScriptFault> {
        let ["every", words @ ..] = words else {
            return Err(ScriptFault::Words);
        };
        self.sweep = Some(sweep_of(words)?);
        Ok(())
    }

    /// Lines that say how the next run is made.
    fn set(&mut self, name: &str, words: &[&str]) -> Result<bool, ScriptFault> {
        match name {
            "stop" => done(self.set_stop(words)),
            "out" => done(self.set_no_memory(words)),
            "with" => done(self.set_entries(words)),
            "habit" => done(self.set_habit(words)),
            "at" => done(self.set_sweep(words)),
            _ => Ok(false),
        }
    }

    fn restart(&mut self, out: &mut String) -> Result<(), ScriptFault> {
        match self.world.drive(self.alloc)? {
            Ok(mut drive) => {
                drive.restart();
                self.world = World::of(self.alloc, self.world.geometry, &drive)?;
                Ok(())
            }
            Err(fault) => show_drive_fault(self.alloc, fault, out),
        }
    }

    fn zones(&self, out: &mut String) -> Result<(), ScriptFault> {
        match self.world.drive(self.alloc)? {
            Ok(mut drive) => show_zones(self.alloc, &mut drive, out),
            Err(fault) => show_drive_fault(self.alloc, fault, out),
        }
    }

    fn header(&self, words: &[&str], out: &mut String) -> Result<(), ScriptFault> {
        let block = parse_batch(self.alloc, words)?.header_block(self.alloc)?;
        show_answer_bytes("", &block, out)?;
        Ok(())
    }

    fn array(&self, words: &[&str], out: &mut String) -> Result<(), ScriptFault> {
        let [n] = words else {
            return Err(ScriptFault::Words);
        };
        show_array(self.alloc, &self.world, part(n)?, out)
    }

    fn survey(&self, words: &[&str], out: &mut String) -> Result<(), ScriptFault> {
        let [n] = words else {
            return Err(ScriptFault::Words);
        };
        show_survey(self.alloc, &self.world, number(n)?, out)
    }

    /// Lines of one word that ask something of the drive, or restart it.
    fn ask(&mut self, name: &str, out: &mut String) -> Result<bool, ScriptFault> {
        match name {
            "restart" => done(self.restart(out)),
            "zones" => done(self.zones(out)),
            "contents" => done(show_contents(&self.world, out)),
            "image" => done(show_image(self.alloc, &self.world, out)),
            "logs" => done(show_logs(self.alloc, &self.world, out)),
            "reserve" => done(show_reserve(&self.world.geometry, out)),
            _ => Ok(false),
        }
    }

    /// Images of random drives of the same shape.
    fn random_images(&self, words: &[&str], out: &mut String) -> Result<(), ScriptFault> {
        let ["of", count, "random", "drives"] = words else {
            return Err(ScriptFault::Words);
        };
        show_random_images(self.alloc, self.world.geometry, number(count)?, out)
    }

    /// The image of the drive, changed at each place: what is read, or what comes of a mount too.
    fn changed_image(&self, words: &[&str], out: &mut String) -> Result<(), ScriptFault> {
        if words.len() == 4 {
            return show_all_changes(self.alloc, &self.world, words, out);
        }
        show_mounted_changes(self.alloc, &self.world, words, out)
    }

    /// Lines of more words that ask something.
    fn ask_of(&self, name: &str, words: &[&str], out: &mut String) -> Result<bool, ScriptFault> {
        match name {
            "array" => done(self.array(words, out)),
            "survey" => done(self.survey(words, out)),
            "room" => done(show_room(&self.world.geometry, words, out)),
            "moves" => done(show_moves(&self.world.geometry, words, out)),
            "header" => done(self.header(words, out)),
            "image" => done(self.changed_image(words, out)),
            "images" => done(self.random_images(words, out)),
            _ => Ok(false),
        }
    }

    /// What the drive holds after the lines of a run.
    fn world_after(
        &self,
        words: &[&str],
        setting: Setting,
        lines: &[&str],
        out: &mut String,
    ) -> Result<World, ScriptFault> {
        let world = &self.world;
        let stage = Stage {
            alloc: self.alloc,
            world,
            setting,
        };
        match words {
            ["raw"] => show_run(stage, Lines::Raw, lines, out),
            ["commands"] => show_run(stage, Lines::Commands, lines, out),
            ["calls"] => show_calls(self.alloc, world, setting, lines, out),
            ["trace", n] => show_run(stage, Lines::Trace(number(n)?), lines, out),
            ["disk", n] => show_disk(stage, number(n)?, lines, out),
            ["mount", n] => show_mount(self.alloc, world, setting, number(n)?, out),
            _ => Err(ScriptFault::Words),
        }
    }

    /// Says of each line whether it is in a grammar.
    fn judge(&self, name: &str, lines: &[&str], out: &mut String) -> Result<(), ScriptFault> {
        match name {
            "trace" => show_trace_lines(self.alloc, lines, out),
            "raw" => show_raw_lines(self.alloc, lines, out),
            _ => Err(ScriptFault::Words),
        }
    }

    /// Runs a trace once with each halt.
    fn run_halts(
        &self,
        halts: Halts,
        blocks: &str,
        lines: &[&str],
        out: &mut String,
    ) -> Result<(), ScriptFault> {
        let n = u32::try_from(number(blocks)?).or(Err(ScriptFault::Words))?;
        let trace = Trace::new(self.alloc, lines, out)?;
        let trial = Trial {
            world: &self.world,
            n,
            trace: &trace,
        };
        trial.show_halts(self.alloc, halts, out)
    }

    /// Runs a trace, or mounts the drive, again and again.
    fn run_sweep(
        &self,
        words: &[&str],
        sweep: Sweep,
        lines: &[&str],
        out: &mut String,
    ) -> Result<(), ScriptFault> {
        let alloc = self.alloc;
        let world = &self.world;
        match (words, sweep) {
            (["trace", n], Sweep::Each(halts)) => self.run_halts(halts, n, lines, out),
            (["trace", n], Sweep::Mounts) => show_all_stops(alloc, world, number(n)?, lines, out),
            (["mount", n], Sweep::Each(halts)) => {
                show_mount_halts(alloc, world, halts, number(n)?, out)
            }
            _ => Err(ScriptFault::Words),
        }
    }

    /// Lines that run the lines that belong to them.
    fn run(&mut self, words: &[&str], lines: &[&str], out: &mut String) -> Result<(), ScriptFault> {
        let setting = self.setting;
        let sweep = self.sweep;
        self.setting = Setting::PLAIN;
        self.sweep = None;
        if let ["changed", "images"] = words {
            return show_changed_images(self.alloc, &self.world, lines, out);
        }
        if let [name, "lines"] = words {
            return self.judge(name, lines, out);
        }
        if let Some(sweep) = sweep {
            return self.run_sweep(words, sweep, lines, out);
        }
        self.world = self.world_after(words, setting, lines, out)?;
        Ok(())
    }

    /// Does a line to which no others belong, if it is one.
    fn is_done(&mut self, words: &[&'a str], out: &mut String) -> Result<bool, ScriptFault> {
        let [name, rest @ ..] = words else {
            return Ok(false);
        };
        if rest.is_empty() {
            return self.ask(name, out);
        }
        if self.make(name, rest, out)? {
            return Ok(true);
        }
        if self.set(name, rest)? {
            return Ok(true);
        }
        self.ask_of(name, rest, out)
    }

    fn step(&mut self, step: &Step<'a>, out: &mut String) -> Result<(), ScriptFault> {
        let line = step.line;
        writeln!(out, "{line}")?;
        if line.is_empty() || line.starts_with('#') || line.starts_with('=') {
            return Ok(());
        }
        let words = line.split(' ').collect::<Vec<&'a str>>(self.alloc)?;
        let has_lines = !step.lines.is_empty();
        let is_done = self.is_done(&words, out)?;
        match (is_done, has_lines) {
            (true, false) => Ok(()),
            (true, true) => Err(ScriptFault::Words),
            (false, _) => self.run(&words, &step.lines, out),
        }
    }
}

/// Does the steps of a script in order, up to one that it cannot do.
pub fn run_script(alloc: Global, text: &str, out: &mut String) -> Result<(), ScriptFault> {
    let mut session = Session {
        alloc,
        shapes: Vec::new(alloc),
        world: World::none(alloc),
        zone: 0,
        setting: Setting::PLAIN,
        sweep: None,
    };
    for step in &steps(alloc, text)? {
        session.step(step, out)?;
    }
    Ok(())
}
