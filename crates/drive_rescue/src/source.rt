ghost use Rattle.std.specs.Prelude.{◌≡◌, ◌<◌, length, slice_index_or, IfOk};
ghost use Rattle.drive_port.specs.Drive.{IsLawful};
ghost use Rattle.drive_rescue.specs.Rescue.{KeepsSource, ReadSays, SourceView};
ghost use Rattle.drive_rescue.specs.Zones.{TellsAll, read_zones, zone_with};
ghost use Rattle.drive_survey.specs.Reported.{KeepsZones};
ghost use Rattle.zone_states.specs.Geometry.{IsInRange};

use drive_port::Halt;
use drive_survey::ReportedZone;
use std::alloc::Global;
use zone_states::Geometry;

/// What a Read of one block told.
#[derive(Clone, Copy, Debug, PartialEq, Eq)]
pub enum Reading {
    /// The block is there.
    Held,
    /// The drive could not read it. Nothing is told of it.
    Unreadable,
}

/// A drive that is only read, of which some blocks may be unreadable.
pub trait Source {
    /// The drive, and which of its blocks may be unreadable.
    ghost view: { Self → SourceView };

    /// The shape of the drive.
    fn geometry(&self) -> Geometry
        ensures value { result ≡ (view self.now).drive.geometry }
        ensures lawful { IsLawful (view self.now).drive };

    /// The states of all zones, and how many blocks of each are written as far as a report tells. It fails only if
    /// the drive stops, fails at the report, or memory runs out. Nothing is changed.
    fn report(&mut self, alloc: Global) -> Result<Vec<ReportedZone>, Halt>
        requires range { IsInRange (view self.old).drive.geometry }
        requires lawful { IsLawful (view self.old).drive }
        ensures ok { IfOk result (λ reported. TellsAll (view self.old).drive.geometry.capacity
            (read_zones (view self.old).drive) reported.items) }
        ensures kept { KeepsZones (view self.old).drive (view self.new).drive };

    /// Reads one block of a zone. It fails only if the drive stops or memory runs out; a block that the drive cannot
    /// read is told as such. Nothing is changed.
    fn read(&mut self, number: u32, offset: u32, into: &mut Vec<u8>) -> Result<Reading, Halt>
        requires range { IsInRange (view self.old).drive.geometry }
        requires there { offset < length (zone_with (read_zones (view self.old).drive) number).blocks }
        ensures says { ReadSays (view self.new) number offset result into.new.items }
        ensures kept { KeepsSource (view self.old) (view self.new) };
}

/// Reads one block of a zone, once more if it was unreadable.
pub(crate) fn read_again<S: Source>(
    source: &mut S,
    number: u32,
    offset: u32,
    into: &mut Vec<u8>,
) -> Result<Reading, Halt>
    requires range { IsInRange (S.view source.old).drive.geometry }
    requires there { offset < length (zone_with (read_zones (S.view source.old).drive) number).blocks }
    ensures says { ReadSays (S.view source.new) number offset result into.new.items }
    ensures kept { KeepsSource (S.view source.old) (S.view source.new) }
{
    match source.read(number, offset, into)? {
        Reading::Held => Ok(Reading::Held),
        Reading::Unreadable => source.read(number, offset, into),
    }
}
