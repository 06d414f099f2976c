ghost use Rattle.rescue_rows.specs.Flaky.{flaky};

use drive_port::Halt;
use drive_rescue::{Reading, Source};
use drive_survey::ReportedZone;
use std::alloc::Global;
use zone_states::Geometry;

/// A source of which each Read is told as unreadable, and done when it is asked for again.
#[derive(Drop)]
pub struct Flaky<S: Source + Drop> {
    source: S,
    asked: bool,
}

impl<S: Source + Drop> Flaky<S> {
    pub fn new(source: S) -> Self {
        Flaky {
            source,
            asked: false,
        }
    }
}

impl<S: Source + Drop> Source for Flaky<S> {
    ghost view = { λ f. flaky (S.view f.source) };

    fn geometry(&self) -> Geometry {
        self.source.geometry()
    }

    fn report(&mut self, alloc: Global) -> Result<Vec<ReportedZone>, Halt> {
        self.source.report(alloc)
    }

    fn read(&mut self, number: u32, offset: u32, into: &mut Vec<u8>) -> Result<Reading, Halt> {
        let _geometry = self.source.geometry();
        self.asked = !self.asked;
        if self.asked {
            return Ok(Reading::Unreadable);
        }
        self.source.read(number, offset, into)
    }
}
