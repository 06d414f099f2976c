// What is told of a rescued disk.

ghost use Rattle.std.specs.Prelude.{◌≡◌};
ghost use Rattle.rescue_jobs.specs.Jobs.{is_whole};

use drive_rescue::{BlockRange, Rescued};
use serde_json::{Value, json};
use std::alloc::{AllocError, Global};

/// Adds a line for each range.
fn write_ranges(text: &mut String, what: &str, ranges: &[BlockRange]) -> Result<(), AllocError> {
    for range in ranges {
        let first = range.first;
        if range.count == 1 {
            writeln!(text, "{what}: block {first}")?;
        } else {
            let last = first.saturating_add(range.count.saturating_sub(1));
            writeln!(text, "{what}: blocks {first} to {last}")?;
        }
    }
    Ok(())
}

/// The lists of a rescued disk as lines: how many blocks it has, and by ranges those that are lost, and those that may
/// be older than they should be.
pub fn lists_text(alloc: Global, rescued: &Rescued) -> Result<String, AllocError> {
    let mut text = String::new(alloc);
    writeln!(text, "{} blocks were given", rescued.blocks)?;
    write_ranges(&mut text, "lost, given as zeros", &rescued.lost)?;
    write_ranges(&mut text, "perhaps older than it should be", &rescued.older)?;
    Ok(text)
}

/// Ranges as a list of objects with `first` and `count`.
fn ranges_json(alloc: Global, ranges: &[BlockRange]) -> Result<Value, AllocError> {
    let mut list = Vec::new(alloc);
    for range in ranges {
        list.push(json!(in alloc; {
            "first": u64::from(range.first),
            "count": u64::from(range.count),
        })?)?;
    }
    Ok(Value::Array(list))
}

/// The lists of a rescued disk as JSON: an object with `blocks`, `lost` and `older`.
pub fn lists_json(alloc: Global, rescued: &Rescued) -> Result<String, AllocError> {
    let lost = ranges_json(alloc, &rescued.lost)?;
    let older = ranges_json(alloc, &rescued.older)?;
    let all = json!(in alloc; {
        "blocks": u64::from(rescued.blocks),
        "lost": lost,
        "older": older,
    })?;
    all.to_string_pretty(alloc)
}

/// Whether nothing of a disk is missing: no block is lost, and none may be older than it should be.
pub fn is_whole(rescued: &Rescued) -> bool
    ensures { result ≡ is_whole rescued.now }
{
    rescued.lost.is_empty() && rescued.older.is_empty()
}
