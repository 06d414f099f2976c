//! Images of the drive of a script, and of random drives: what is written, and what is read again.

use crate::fault::ScriptFault;
use crate::show::{show_answer_bytes, show_line};
use crate::words::{byte, bytes, meant, number};
use crate::world::World;
use drive_images::{ImageFault, read_image, write_image};
use nvme_wire::ZoneState;
use std::alloc::{AllocError, Global};
use zone_drive::Drive;
use zone_states::{Geometry, Zone, is_active, is_open};

fn image_of(alloc: Global, drive: &Drive) -> Result<Vec<u8>, ScriptFault> {
    let mut image = Vec::new(alloc);
    write_image(drive, &mut image).or(Err(ScriptFault::Memory))?;
    Ok(image)
}

/// The image of the drive of a script.
pub fn image_of_world(alloc: Global, world: &World) -> Result<Vec<u8>, ScriptFault> {
    match world.drive(alloc)? {
        Ok(drive) => image_of(alloc, &drive),
        Err(_) => Err(ScriptFault::Words),
    }
}

/// Shows the image of a drive, and how long it is.
pub fn show_image(alloc: Global, world: &World, out: &mut String) -> Result<(), ScriptFault> {
    let image = image_of_world(alloc, world)?;
    writeln!(out, "    {} bytes", image.len())?;
    show_answer_bytes("", &image, out)?;
    Ok(())
}

/// What bytes are read as.
#[derive(Clone, Copy, PartialEq, Eq)]
enum Reading {
    // A drive whose image they are.
    Drive,
    // A drive that is written as other bytes.
    Other,
    Refused(ImageFault),
}

/// What there may be, in the order in which it is shown.
const READINGS: [Reading; 10] = [
    Reading::Drive,
    Reading::Other,
    Reading::Refused(ImageFault::Magic),
    Reading::Refused(ImageFault::Geometry),
    Reading::Refused(ImageFault::State),
    Reading::Refused(ImageFault::Written),
    Reading::Refused(ImageFault::RestNotZero),
    Reading::Refused(ImageFault::Limits),
    Reading::Refused(ImageFault::Short),
    Reading::Refused(ImageFault::Long),
];

fn read_as(alloc: Global, image: &[u8]) -> Result<Reading, ScriptFault> {
    let mut rest = image;
    match read_image(alloc, &mut rest) {
        Ok(drive) if image_of(alloc, &drive)?.as_slice() == image => Ok(Reading::Drive),
        Ok(_) => Ok(Reading::Other),
        Err(ImageFault::OutOfMemory) => Err(ScriptFault::Memory),
        Err(fault) => Ok(Reading::Refused(fault)),
    }
}

fn show_reading(reading: Reading, out: &mut String) -> Result<(), AllocError> {
    match reading {
        Reading::Drive => write!(out, "a drive"),
        Reading::Other => write!(out, "a drive with another image"),
        Reading::Refused(fault) => write!(out, "refused {fault:?}"),
    }
}

/// Puts bytes in the place of those from a number on.
fn put(image: &mut [u8], first: usize, bytes: &[u8]) {
    for (byte, place) in bytes.iter().zip(image.iter_mut().skip(first)) {
        *place = *byte;
    }
}

fn cut(count: &str, image: &mut Vec<u8>) -> Result<(), ScriptFault> {
    image.truncate(number(count)? as usize);
    Ok(())
}

fn overwrite(
    alloc: Global,
    digits: &str,
    place: &str,
    image: &mut [u8],
) -> Result<(), ScriptFault> {
    let mut data = Vec::new(alloc);
    bytes(&meant(alloc, digits)?, &mut data)?;
    put(image, number(place)? as usize, &data);
    Ok(())
}

/// Changes an image as the words of a line say.
fn change(alloc: Global, words: &[&str], image: &mut Vec<u8>) -> Result<(), ScriptFault> {
    match words {
        ["whole"] => Ok(()),
        ["first", count, "bytes"] => cut(count, image),
        ["and", digits] => bytes(&meant(alloc, digits)?, image),
        [digits, "at", place] => overwrite(alloc, digits, place, image),
        _ => Err(ScriptFault::Words),
    }
}

/// What the image of a drive is read as when it is changed as a line says.
fn changed_reading(alloc: Global, world: &World, line: &str) -> Result<Reading, ScriptFault> {
    let mut image = image_of_world(alloc, world)?;
    change(
        alloc,
        &line.split(' ').collect::<Vec<&str>>(alloc)?,
        &mut image,
    )?;
    read_as(alloc, &image)
}

/// Changes the image of a drive as each of the lines says, and shows what is read then.
pub fn show_changed_images(
    alloc: Global,
    world: &World,
    lines: &[&str],
    out: &mut String,
) -> Result<(), ScriptFault> {
    for line in lines {
        show_line(line, out)?;
        let reading = changed_reading(alloc, world, line)?;
        write!(out, "    ")?;
        show_reading(reading, out)?;
        writeln!(out)?;
    }
    Ok(())
}

/// Shows how often there is each of the readings.
fn show_counts(readings: &[Reading], out: &mut String) -> Result<(), AllocError> {
    for each in &READINGS {
        let count = readings.iter().filter(|reading| *reading == each).count();
        if count > 0 {
            write!(out, "    {count} times ")?;
            show_reading(*each, out)?;
            writeln!(out)?;
        }
    }
    Ok(())
}

/// What each beginning of an image is read as.
fn readings_of_fronts(alloc: Global, image: &[u8]) -> Result<Vec<Reading>, ScriptFault> {
    let mut readings = Vec::new(alloc);
    for count in 0..image.len() {
        readings.push(read_as(alloc, &image[..count])?)?;
    }
    Ok(readings)
}

/// What an image is read as if one of its bytes is changed, for each of them.
fn readings_with(alloc: Global, image: &mut [u8], byte: u8) -> Result<Vec<Reading>, ScriptFault> {
    let mut readings = Vec::new(alloc);
    for place in 0..image.len() {
        let before = image[place];
        image[place] = byte;
        readings.push(read_as(alloc, image)?)?;
        image[place] = before;
    }
    Ok(readings)
}

/// What an image is read as, changed at each place as a word says.
fn readings_of_changes(
    alloc: Global,
    image: &mut [u8],
    change: &str,
) -> Result<Vec<Reading>, ScriptFault> {
    if change == "cut" {
        return readings_of_fronts(alloc, image);
    }
    readings_with(alloc, image, byte(change.as_bytes())?)
}

/// Shows what the image of a drive is read as, cut at each place or with a byte in each place.
pub fn show_all_changes(
    alloc: Global,
    world: &World,
    words: &[&str],
    out: &mut String,
) -> Result<(), ScriptFault> {
    let [change, "at", "each", "byte"] = words else {
        return Err(ScriptFault::Words);
    };
    let readings = readings_of_changes(alloc, &mut image_of_world(alloc, world)?, change)?;
    Ok(show_counts(&readings, out)?)
}

/// Numbers that look like chance, and are the same in each run.
#[derive(Drop)]
struct Chance {
    state: u64,
}

impl Chance {
    /// A number below 2^31.
    fn next(&mut self) -> u64 {
        self.state = self
            .state
            .wrapping_mul(6_364_136_223_846_793_005)
            .wrapping_add(1_442_695_040_888_963_407);
        self.state >> 33
    }
}

fn random_state(chance: &mut Chance) -> ZoneState {
    match chance.next() % 7 {
        0 => ZoneState::Empty,
        1 => ZoneState::ImplicitlyOpened,
        2 => ZoneState::ExplicitlyOpened,
        3 => ZoneState::Closed,
        4 => ZoneState::Full,
        5 => ZoneState::ReadOnly,
        _ => ZoneState::Offline,
    }
}

/// Bytes of at most that many blocks.
fn random_blocks(
    alloc: Global,
    chance: &mut Chance,
    block: u32,
    most: u32,
) -> Result<Vec<u8>, AllocError> {
    let blocks = chance.next() % (u64::from(most) + 1);
    let mut bytes = Vec::new(alloc);
    for _ in 0..blocks {
        let byte = (chance.next() % 256) as u8;
        for _ in 0..block {
            bytes.push(byte)?;
        }
    }
    Ok(bytes)
}

fn random_zone(
    alloc: Global,
    chance: &mut Chance,
    geometry: &Geometry,
    state: ZoneState,
) -> Result<Zone, AllocError> {
    let most = match state {
        ZoneState::Empty => 0,
        ZoneState::Full | ZoneState::ReadOnly | ZoneState::Offline => geometry.capacity,
        _ => geometry.capacity.saturating_sub(1),
    };
    let bytes = random_blocks(alloc, chance, geometry.block, most)?;
    Ok(Zone::from_parts(state, bytes))
}

/// A drive with random zones, as many of them active and open as may be.
fn random_drive(
    alloc: Global,
    chance: &mut Chance,
    geometry: Geometry,
) -> Result<Drive, ScriptFault> {
    let mut zones = Vec::new(alloc);
    let mut active = geometry.active;
    let mut open = geometry.open;
    for _ in 0..geometry.zones {
        let mut state = random_state(chance);
        if (is_active(state) && active == 0) || (is_open(state) && open == 0) {
            state = ZoneState::Full;
        }
        active = active.saturating_sub(u32::from(is_active(state)));
        open = open.saturating_sub(u32::from(is_open(state)));
        zones.push(random_zone(alloc, chance, &geometry, state)?)?;
    }
    Drive::from_zones(alloc, geometry, zones).or(Err(ScriptFault::Words))
}

fn random_reading(
    alloc: Global,
    chance: &mut Chance,
    geometry: Geometry,
) -> Result<Reading, ScriptFault> {
    let drive = random_drive(alloc, chance, geometry)?;
    read_as(alloc, &image_of(alloc, &drive)?)
}

/// Writes the images of random drives, reads them and writes them again, and shows how many of them are read as
/// drives with the same image.
pub fn show_random_images(
    alloc: Global,
    geometry: Geometry,
    count: u64,
    out: &mut String,
) -> Result<(), ScriptFault> {
    let mut chance = Chance { state: 1 };
    let mut readings = Vec::new(alloc);
    for _ in 0..count {
        readings.push(random_reading(alloc, &mut chance, geometry)?)?;
    }
    Ok(show_counts(&readings, out)?)
}
