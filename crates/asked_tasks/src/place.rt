// Where a drive is that words name.

ghost use Rattle.std.specs.Prelude.{string_bytes};
ghost use Rattle.clap.specs.Words.{found_of, rows_of};
ghost use Rattle.asked_tasks.specs.Values.{Finds, HasDevice, HasDrive};

use crate::tool_words::is_set;
use crate::words::{WordFault, given, image};
use clap::ArgMatches;
use std::alloc::Global;

/// Where a drive is.
#[derive(Clone, Copy, Debug, PartialEq, Eq)]
pub enum Place {
    /// In a file, as its image.
    File,
    /// Behind a device.
    Device,
}

/// The path of a device. What only a drive in a file can be asked for is refused.
fn device(alloc: Global, matches: &ArgMatches<'_>) -> Result<String, WordFault>
    ensures { Finds (λ path. HasDevice (rows_of (found_of matches.now)) (string_bytes path)) result }
{
    let Some(path) = given(matches, "device") else {
        return Err(WordFault::NoDrive);
    };
    if given(matches, "image").is_some() {
        return Err(WordFault::Both("image", "device"));
    }
    if given(matches, "habit").is_some() {
        return Err(WordFault::Both("device", "habit"));
    }
    if is_set(matches, "sync") {
        return Err(WordFault::Both("device", "sync"));
    }
    if is_set(matches, "read-only") {
        return Err(WordFault::Both("device", "read-only"));
    }
    Ok(String::from_str(alloc, path)?)
}

/// The path of a drive in this place.
pub fn drive_path(
    alloc: Global,
    place: Place,
    matches: &ArgMatches<'_>,
) -> Result<String, WordFault>
    ensures { Finds (λ path. HasDrive place (rows_of (found_of matches.now)) (string_bytes path)) result }
{
    match place {
        Place::File => image(alloc, matches),
        Place::Device => device(alloc, matches),
    }
}
