ghost use Rattle.std.specs.Prelude.{◌≡◌, ◌<◌, ◌^◌, ℕ, List, count_by, length, IfNone, IfSome};
ghost use Rattle.batch_log.specs.Log.{Batch};
ghost use Rattle.drive_port.specs.Drive.{DriveState};
ghost use Rattle.drive_array.specs.Records.{without};
ghost use Rattle.drive_array.specs.Sizes.{encoded_size};
ghost use Rattle.drive_survey.specs.Clearing.{Tells, without_heads};
ghost use Rattle.drive_survey.specs.Known.{Knows};
ghost use Rattle.drive_survey.specs.Scan.{heads_in};
ghost use Rattle.drive_survey.specs.SizeCounts.{IsSized, says_size, says_some, size_counts};
ghost use Rattle.drive_survey.specs.Waiting.{TellsSize};

use crate::scan::ScannedZone;
use crate::survey::Survey;

/// How many zones say a size in their headers.
#[derive(Clone, Copy, Debug, PartialEq, Eq)]
pub struct SizeCounts {
    /// Zones that say one.
    pub any: usize,
    /// Zones that say the size of the disk, which is the greatest one.
    pub greatest: usize,
}

/// How many zones say a size.
fn count_sized(scanned: &[ScannedZone]) -> usize
    ensures { result ≡ count_by says_some (heads_in scanned.now) }
{
    let mut count = 0;
    for zone in scanned {
        if zone.heads.size().is_some() {
            count += 1;
        }
    }
    count
}

/// How many zones say this size.
fn count_saying(scanned: &[ScannedZone], size: u32) -> usize
    ensures { result ≡ count_by (says_size size) (heads_in scanned.now) }
{
    let mut count = 0;
    for zone in scanned {
        if zone.heads.size() == Some(size) {
            count += 1;
        }
    }
    count
}

impl SizeCounts {
    /// Counts all zones.
    pub(crate) fn new(survey: &Survey) -> SizeCounts
        ensures { result ≡ size_counts survey.now.size (heads_in survey.now.scanned.items) }
    {
        SizeCounts {
            any: count_sized(&survey.scanned),
            greatest: count_saying(&survey.scanned, survey.size),
        }
    }

    /// The counts without a zone.
    pub(crate) fn without(self, survey: &Survey, zone: u32) -> SizeCounts
        ensures { self ≡ size_counts survey.now.size (heads_in survey.now.scanned.items)
            → result ≡ size_counts survey.now.size (without_heads (heads_in survey.now.scanned.items) zone) }
    {
        let Some(found) = survey.scanned.get(zone as usize) else {
            return self;
        };
        let Some(size) = found.heads.size() else {
            return self;
        };
        let any = self.any.saturating_sub(1);
        if size != survey.size {
            return SizeCounts {
                any,
                greatest: self.greatest,
            };
        }
        SizeCounts {
            any,
            greatest: self.greatest.saturating_sub(1),
        }
    }

    /// Whether the disk has the same size without a zone.
    pub(crate) fn keep_size(self, survey: &Survey, zone: u32) -> bool
        ensures { TellsSize survey.now.given survey.now self zone result }
    {
        let left = self.without(survey, zone);
        if left.greatest != 0 {
            return true;
        }
        if left.any != 0 {
            return false;
        }
        survey.given == survey.size
    }
}

/// The lowest zone that says a size.
pub(crate) fn lowest_sized(scanned: &[ScannedZone]) -> Option<u32>
    requires few { length scanned.now < 2 ^ 32 }
    ensures some { IfSome result (IsSized (heads_in scanned.now)) }
    ensures none { IfNone result ((zone : ℕ) → IsSized (heads_in scanned.now) zone → ⊥) }
{
    for (number, zone) in scanned.iter().enumerate() {
        if zone.heads.size().is_some() {
            return Some(number as u32);
        }
    }
    None
}
