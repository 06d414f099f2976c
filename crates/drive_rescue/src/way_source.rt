ghost use Rattle.std.specs.Prelude.{◌≡◌};
ghost use Rattle.drive_rescue.specs.Sources.{damaged_anywhere};

use crate::device_source::report_of;
use crate::source::{Reading, Source};
use drive_port::{Device, Halt};
use drive_survey::ReportedZone;
use passthrough::{Passthrough, PassthroughDrive};
use std::alloc::Global;
use zone_states::Geometry;

/// A drive behind a way as a source. Any of its blocks may be unreadable: a Read that the drive does not answer by
/// Success is told as such, and the drive is asked on.
#[derive(Drop)]
pub struct WaySource<P: Passthrough + Drop> {
    drive: PassthroughDrive<P>,
}

impl<P: Passthrough + Drop> WaySource<P> {
    /// The drive is only read.
    pub fn new(drive: PassthroughDrive<P>) -> Self
        ensures { ⟦<WaySource<P> as Source>⟧.view result ≡ damaged_anywhere drive }
    {
        WaySource { drive }
    }
}

impl<P: Passthrough + Drop> Source for WaySource<P> {
    ghost view = { λ s. damaged_anywhere s.drive };

    fn geometry(&self) -> Geometry {
        self.drive.geometry()
    }

    fn report(&mut self, alloc: Global) -> Result<Vec<ReportedZone>, Halt> {
        report_of(alloc, &mut self.drive)
    }

    fn read(&mut self, number: u32, offset: u32, into: &mut Vec<u8>) -> Result<Reading, Halt> {
        let address = self.drive.geometry().start_of(number) + offset as u64;
        into.clear();
        if self.drive.try_read(address, 1, into)? {
            return Ok(Reading::Held);
        }
        Ok(Reading::Unreadable)
    }
}
