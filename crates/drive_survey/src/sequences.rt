ghost use Rattle.std.specs.Prelude.{◌≡◌, max};
ghost use Rattle.drive_survey.specs.Heads.{greatest_sequence, head_sequences, sequences_in};
ghost use Rattle.drive_survey.specs.Scan.{heads_in};

use crate::heads::Head;
use crate::scan::ScannedZone;

/// The greatest of a number and the sequences of a zone's batches.
fn greatest_of(greatest: u64, heads: &[Head]) -> u64
    ensures { result ≡ max greatest (greatest_sequence (head_sequences heads.now)) }
{
    let mut greatest = greatest;
    for head in heads {
        greatest = greatest.max(head.sequence);
    }
    greatest
}

/// The greatest sequence of the batches whose headers are kept, 0 if none.
pub fn greatest_sequence(scanned: &[ScannedZone]) -> u64
    ensures { result ≡ greatest_sequence (sequences_in (heads_in scanned.now)) }
{
    let mut greatest = 0;
    for zone in scanned {
        greatest = greatest_of(greatest, zone.heads.heads());
    }
    greatest
}
