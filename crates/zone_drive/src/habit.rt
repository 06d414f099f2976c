ghost use Rattle.std.specs.Prelude.{◌≡◌, true, IfNone, IfSome};
ghost use Rattle.zone_drive.specs.Choice.{IsLowestOpened, close_lowest};
ghost use Rattle.zone_drive.specs.Habits.{makes_room, settled, with_zones};

use crate::held::HeldZones;
use crate::zone_drive::ZoneDrive;

/// Which zones a drive closes by itself. They are only ever Implicitly Opened zones.
#[derive(Clone, Copy, Debug, PartialEq, Eq)]
pub enum Habit {
    /// Where a command needs an open resource and none is left, the drive closes the lowest Implicitly
    /// Opened zone. It closes no other zone.
    Lazy,
    /// As `Lazy`, and after each completed command, also a refused one, the drive closes all Implicitly
    /// Opened zones.
    Closing,
    /// The drive closes no zone: if no open resource is left, a command that needs one is refused.
    Strict,
}

impl<Z: HeldZones + Drop> ZoneDrive<Z> {
    /// The zone to close where an open resource is missing: the lowest implicitly opened one. A strict
    /// drive closes none.
    pub(crate) fn zone_to_close(&self) -> Option<usize>
        ensures makes { IfSome result (λ low. makes_room self.now.drive.habit ≡ true) }
        ensures lowest { IfSome result (λ low. IsLowestOpened self.now.drive.state.zones low) }
        ensures none { makes_room self.now.drive.habit ≡ true →
            IfNone result (close_lowest self.now.drive.state.zones ≡ self.now.drive.state.zones) }
    {
        if self.habit == Habit::Strict {
            return None;
        }
        self.zones.lowest_implicit()
    }

    /// Closes what the drive closes by itself after a command.
    pub(crate) fn settle(&mut self)
        ensures settled { self.new.drive
            ≡ with_zones self.old.drive (settled self.old.drive.habit self.old.drive.state.zones) }
        ensures halted { self.new.halted ≡ self.old.halted }
    {
        if self.habit == Habit::Closing {
            self.zones.close_implicit();
        }
    }
}
