//! The image of a drive, cut or changed at each place, read and then mounted: what comes of it, and how often.

use crate::fault::ScriptFault;
use crate::images::image_of_world;
use crate::words::{byte, number};
use crate::world::World;
use disk_runs::{RunFault, write_fault};
use drive_images::{image_fault_line, read_image};
use remount::{MountFault, mount};
use std::alloc::{AllocError, Global};
use zone_drive::Drive;

/// Lines, and how often each of them came, in the order in which they came first.
#[derive(Drop)]
struct Tally {
    counts: Vec<(Vec<u8>, u64)>,
}

impl Tally {
    fn place_of(&self, line: &[u8]) -> Option<usize> {
        for (place, (known, _)) in self.counts.iter().enumerate() {
            if known.as_slice() == line {
                return Some(place);
            }
        }
        None
    }

    fn add(&mut self, line: Vec<u8>) -> Result<(), AllocError> {
        let Some(place) = self.place_of(&line) else {
            self.counts.push((line, 1))?;
            return Ok(());
        };
        if let Some((_, count)) = self.counts.get_mut(place) {
            *count = count.saturating_add(1);
        }
        Ok(())
    }

    fn show(&self, out: &mut String) -> Result<(), ScriptFault> {
        for (line, count) in &self.counts {
            let text = std::str::from_utf8(line).or(Err(ScriptFault::Words))?;
            write!(out, "    {count} times {text}")?;
        }
        Ok(())
    }
}

/// The line of a mount's refusal.
fn refusal_line(alloc: Global, fault: MountFault) -> Result<Vec<u8>, ScriptFault> {
    let mut line = Vec::new(alloc);
    match write_fault(alloc, RunFault::Mount(fault), &mut line) {
        Ok(()) => Ok(line),
        Err(_) => Err(ScriptFault::Memory),
    }
}

/// What comes of the mount of a drive that was read, as `n` blocks.
fn mounted_line(alloc: Global, drive: &mut Drive, n: u64) -> Result<Vec<u8>, ScriptFault> {
    drive.restart();
    match mount(alloc, drive, n) {
        Ok(tables) => {
            let blocks = tables.blocks();
            Ok(format!(in alloc; "mounted, {blocks} blocks\n")?.into_bytes())
        }
        Err(MountFault::OutOfMemory) => Err(ScriptFault::Memory),
        Err(fault) => refusal_line(alloc, fault),
    }
}

/// What comes of an image: the line of its fault, or what its drive is mounted as.
fn image_line(alloc: Global, image: &[u8], n: u64) -> Result<Vec<u8>, ScriptFault> {
    let mut rest = image;
    match read_image(alloc, &mut rest) {
        Ok(mut drive) => mounted_line(alloc, &mut drive, n),
        Err(fault) => Ok(image_fault_line(alloc, fault)?),
    }
}

/// What comes of each beginning of an image.
fn tally_fronts(alloc: Global, image: &[u8], n: u64, tally: &mut Tally) -> Result<(), ScriptFault> {
    for count in 0..image.len() {
        tally.add(image_line(alloc, &image[..count], n)?)?;
    }
    Ok(())
}

/// What comes of an image with this byte in place of each of its bytes in turn.
fn tally_bytes(
    alloc: Global,
    image: &mut [u8],
    byte: u8,
    n: u64,
    tally: &mut Tally,
) -> Result<(), ScriptFault> {
    for place in 0..image.len() {
        let before = image[place];
        image[place] = byte;
        tally.add(image_line(alloc, image, n)?)?;
        image[place] = before;
    }
    Ok(())
}

/// Reads the image of a drive, cut at each place or with a byte in each place as the words say, and mounts each drive
/// that is read. Shows each line that comes of it, and how often it comes.
pub fn show_mounted_changes(
    alloc: Global,
    world: &World,
    words: &[&str],
    out: &mut String,
) -> Result<(), ScriptFault> {
    let [change, "at", "each", "byte,", "mounted", "as", blocks] = words else {
        return Err(ScriptFault::Words);
    };
    let n = number(blocks)?;
    let mut image = image_of_world(alloc, world)?;
    let mut tally = Tally {
        counts: Vec::new(alloc),
    };
    if *change == "cut" {
        tally_fronts(alloc, &image, n, &mut tally)?;
    } else {
        tally_bytes(alloc, &mut image, byte(change.as_bytes())?, n, &mut tally)?;
    }
    tally.show(out)
}
