//! The sequences of batches.

ghost use Rattle.std.specs.Prelude.{◌≡◌, ◌↔◌, ◌<◌, ◌++◌, nat_eq, IfOk, IsTrue, OnOk};
ghost use Rattle.std.specs.List.{AllByRecursion, IsDistinct};
ghost use Rattle.drive_array.specs.ZoneLogs.{log_sequences, sequences};
ghost use Rattle.yardsticks.specs.Zones.{held_log, held_logs};

use crate::batches::Batch;
use std::alloc::{AllocError, Global};

/// Puts the sequences of a log after these numbers.
fn add_sequences(numbers: &mut Vec<u64>, log: &[Batch]) -> Result<(), AllocError>
    ensures { OnOk result
        (numbers.new.items ≡ numbers.old.items ++ log_sequences (held_log log.now)) }
{
    for batch in log {
        numbers.push(batch.header.sequence)?;
    }
    Ok(())
}

pub(crate) fn sequences(alloc: Global, logs: &[Vec<Batch>]) -> Result<Vec<u64>, AllocError>
    ensures { IfOk result (λ numbers. numbers.items ≡ sequences (held_logs logs.now)) }
{
    let mut numbers = Vec::new(alloc);
    for log in logs {
        add_sequences(&mut numbers, log)?;
    }
    Ok(numbers)
}

pub(crate) fn are_distinct(numbers: &[u64]) -> bool
    ensures { IsTrue result ↔ IsDistinct nat_eq numbers.now }
{
    for (i, number) in numbers.iter().enumerate() {
        if numbers[i + 1..].contains(number) {
            return false;
        }
    }
    true
}

pub(crate) fn are_below(numbers: &[u64], limit: u64) -> bool
    ensures { IsTrue result ↔ AllByRecursion (λ number. number < limit) numbers.now }
{
    numbers.iter().all(|number| *number < limit)
}
