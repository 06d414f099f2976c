//! The live records of a zone.

ghost use Rattle.std.specs.Prelude.{◌≡◌};
ghost use Rattle.std.specs.Option.{option_map};
ghost use Rattle.drive_array.specs.Repair.{live_records, live_data};
ghost use Rattle.yardsticks.specs.Zones.{is_data_in, is_said_in, held_logs, saying_of};

use crate::array::{Said, newest};
use crate::batches::Batch;

fn is_said_in(said: Option<Said>, zone: usize) -> bool
    ensures { result ≡ is_said_in zone (option_map saying_of said.entry) }
{
    match said {
        Some(said) => said.zone == zone,
        None => false,
    }
}

fn is_data_in(said: Option<Said>, zone: usize) -> bool
    ensures { result ≡ is_data_in zone (option_map saying_of said.entry) }
{
    match said {
        Some(said) => said.zone == zone && said.content.is_some(),
        None => false,
    }
}

/// Of the blocks below a size, how many have their newest record in a zone.
pub(crate) fn live(size: u32, logs: &[Vec<Batch>], zone: usize) -> u32
    ensures { result ≡ live_records size (held_logs logs.now) zone }
{
    let mut count = 0;
    for block in 0..size {
        if is_said_in(newest(logs, None, block as u64), zone) {
            count += 1;
        }
    }
    count
}

/// And how many of these records are data.
pub(crate) fn live_data(size: u32, logs: &[Vec<Batch>], zone: usize) -> u32
    ensures { result ≡ live_data size (held_logs logs.now) zone }
{
    let mut count = 0;
    for block in 0..size {
        if is_data_in(newest(logs, None, block as u64), zone) {
            count += 1;
        }
    }
    count
}
