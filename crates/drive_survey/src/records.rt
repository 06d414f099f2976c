ghost use Rattle.std.specs.Prelude.{◌≡◌, ◌<◌, ◌^◌, ℕ};
ghost use Rattle.drive_survey.specs.KeptRecords.{block_of_kept, entry_record, is_kept_trim};

use crate::heads::Head;

/// A record as the kept headers tell it: all but its data.
#[derive(Clone, Copy, Debug, PartialEq, Eq)]
pub struct KeptRecord {
    pub block: u32,
    pub sequence: u64,
    pub zone: u32,
    /// The block of the zone where its data is or, of a trim, its header, counted from 0.
    pub offset: u64,
    pub trim: bool,
}

/// The bit of a kept entry that is set for a trim.
const TRIM: u32 = 1 << 31;

pub fn is_trim(entry: u32) -> bool
    ensures { result ≡ is_kept_trim entry }
{
    entry >= TRIM
}

/// The block that a kept entry names.
pub(crate) fn block_in(entry: u32) -> u32
    ensures { result ≡ block_of_kept entry }
{
    if entry >= TRIM {
        return entry - TRIM;
    }
    entry
}

/// The record of an entry. `before` is how many data blocks of the batch belong to the entries before it.
pub fn entry_record(zone: u32, head: &Head, before: usize, entry: u32) -> KeptRecord
    requires { before < 2 ^ 63 }
    ensures { result ≡ entry_record head.now.sequence zone head.now.offset before entry }
{
    let header = head.offset as u64;
    if is_trim(entry) {
        return KeptRecord {
            block: block_in(entry),
            sequence: head.sequence,
            zone,
            offset: header,
            trim: true,
        };
    }
    KeptRecord {
        block: block_in(entry),
        sequence: head.sequence,
        zone,
        offset: header + 1 + before as u64,
        trim: false,
    }
}
