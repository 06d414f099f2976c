//! The size that the headers of logs say.

ghost use Rattle.std.specs.Prelude.{◌≡◌, ◌<◌, length};
ghost use Rattle.drive_array.specs.Sizes.{encoded_size, greatest, larger, log_greatest};
ghost use Rattle.drive_array.specs.ZoneLogs.{log_at};
ghost use Rattle.yardsticks.specs.Zones.{held_log, logs_but, held_logs};

use crate::batches::Batch;

/// The log of a zone, or none if it is the one that is left out.
pub(crate) fn log_but<'a>(
    logs: &'a [Vec<Batch>],
    left_out: Option<usize>,
    zone: usize,
) -> &'a [Batch]
    requires { zone < length logs.now }
    ensures { held_log result.now ≡ log_at (logs_but left_out (held_logs logs.now)) zone }
{
    if left_out == Some(zone) {
        return &[];
    }
    &logs[zone]
}

fn larger(size: Option<u32>, other: Option<u32>) -> Option<u32>
    ensures { result ≡ larger size other }
{
    match (size, other) {
        (None, other) => other,
        (Some(size), None) => Some(size),
        (Some(size), Some(other)) => Some(size.max(other)),
    }
}

/// The greatest size in the headers of a log.
fn log_greatest(log: &[Batch]) -> Option<u32>
    ensures { result ≡ log_greatest (held_log log.now) }
{
    let mut found = None;
    for batch in log {
        found = larger(found, batch.header.size);
    }
    found
}

/// The greatest size in the headers of all logs, where those of one zone may be left out.
fn greatest(logs: &[Vec<Batch>], left_out: Option<usize>) -> Option<u32>
    ensures { result ≡ greatest (logs_but left_out (held_logs logs.now)) }
{
    let mut found = None;
    for zone in 0..logs.len() {
        found = larger(found, log_greatest(log_but(logs, left_out, zone)));
    }
    found
}

/// The number of blocks that the logs encode, where the batches of one zone may be left out: n if no
/// header has a size.
pub(crate) fn encoded_size(n: u32, logs: &[Vec<Batch>], left_out: Option<usize>) -> u32
    ensures { result ≡ encoded_size n (logs_but left_out (held_logs logs.now)) }
{
    match greatest(logs, left_out) {
        Some(size) => size,
        None => n,
    }
}
