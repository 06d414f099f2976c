ghost use Rattle.std.specs.Prelude.{◌≡◌, ◌<◌};
ghost use Rattle.disk_runs.specs.Taken.{flushes, is_read, takes_call, unsynced};

use crate::requests::is_request;
use disk_files::TraceLine;

/// Which lines of a trace are taken, and how.
#[derive(Clone, Copy, Debug, PartialEq, Eq)]
pub enum Taking {
    /// All lines.
    All,
    /// Only those that read. Any other call is not done, and ends the run as a line that is not in the grammar does.
    Reads,
    /// All lines. After each that does not read the disk is flushed, and its reply waits for that.
    Synced,
}

/// Whether a line reads.
fn is_read(line: TraceLine) -> bool
    ensures { result ≡ is_read line }
{
    match line {
        TraceLine::Read { .. } => true,
        _ => false,
    }
}

impl Taking {
    /// What a run takes that is not synced: all lines, or only those that read.
    pub fn unsynced(only_reads: bool) -> Taking
        ensures { result ≡ unsynced only_reads }
    {
        if only_reads {
            Taking::Reads
        } else {
            Taking::All
        }
    }

    /// Whether a line with this data is taken, of a disk whose blocks have `block_bytes` bytes.
    pub(crate) fn takes(self, line: TraceLine, bytes: &[u8], block_bytes: usize) -> bool
        requires { 0 < block_bytes }
        ensures { result ≡ takes_call self block_bytes line bytes.now }
    {
        match self {
            Taking::All | Taking::Synced => is_request(line, bytes, block_bytes),
            Taking::Reads => is_read(line),
        }
    }

    /// Whether the disk is flushed after a line.
    pub(crate) fn flushes(self, line: TraceLine) -> bool
        ensures { result ≡ flushes self line }
    {
        match self {
            Taking::All | Taking::Reads => false,
            Taking::Synced => !is_read(line),
        }
    }
}
