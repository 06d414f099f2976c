ghost use Rattle.std.specs.Prelude.{◌≡◌, ◌+◌, ◌≤◌, ℕ, List, false, length, true};
ghost use Rattle.zone_states.specs.Transition.{state_after};
ghost use Rattle.zone_states.specs.Zone.{Zone, cut_blocks, opened_by_write, written_zone};
ghost use Rattle.drive_port.specs.Step.{is_refusal, zone_after};
ghost use Rattle.passthrough.specs.Premise.{is_sent, pointer};
ghost use Rattle.passthrough.specs.Seen.{IsSeen, has_pointer, is_due};

use nvme_wire::{Action, ZoneState};
use zone_states::{Geometry, is_active};

/// What was seen of a zone.
#[derive(Clone, Copy, Debug, PartialEq, Eq)]
pub struct SeenZone {
    /// Its state, but for an implicitly opened zone that the controller has closed since.
    pub state: ZoneState,
    /// How many of its blocks are written. It is not known of a zone that was Full, Read Only or Offline when it was
    /// seen first.
    pub written: Option<u32>,
    /// Whether it was written or acted on since the last Flush.
    pub changed: bool,
}

/// A state after a write that does not fill the zone.
fn opened(state: ZoneState) -> ZoneState
    ensures { result ≡ opened_by_write state }
{
    match state {
        ZoneState::Empty | ZoneState::Closed => ZoneState::ImplicitlyOpened,
        state => state,
    }
}

impl SeenZone {
    /// The address at which the zone with a number is written next, if its state has one.
    pub(crate) fn pointer(&self, geometry: Geometry, number: u32) -> Option<u64>
        ensures { (zone : Zone) → IsSeen zone self.now → pointer geometry number zone ≡ result }
    {
        match self.state {
            ZoneState::Full | ZoneState::ReadOnly | ZoneState::Offline => None,
            _ => {
                let start = geometry.start_of(number);
                Some(start + u64::from(self.written.unwrap_or(0)))
            }
        }
    }

    /// The zone after blocks were appended to it.
    pub(crate) fn appended(&self, geometry: Geometry, blocks: u32) -> SeenZone
        ensures seen { (zone : Zone) (bytes : List ℕ) → IsSeen zone self.now → has_pointer zone.state ≡ true
            → length zone.blocks + blocks ≤ geometry.capacity
            → IsSeen (written_zone geometry.capacity zone (cut_blocks geometry.block blocks bytes)) result }
        ensures changed { result.changed ≡ true }
    {
        let written = self.written.unwrap_or(0).saturating_add(blocks);
        let state = if written == geometry.capacity {
            ZoneState::Full
        } else {
            opened(self.state)
        };
        SeenZone {
            state,
            written: Some(written),
            changed: true,
        }
    }

    /// The zone after an action that is sent.
    pub(crate) fn acted(&self, action: Action) -> SeenZone
        ensures seen { (zone : Zone) → IsSeen zone self.now → is_sent action ≡ true
            → is_refusal (state_after zone.state action) ≡ false
            → IsSeen (zone_after action zone (state_after zone.state action)) result }
        ensures changed { result.changed ≡ true }
    {
        let (state, written) = match action {
            Action::Close => (ZoneState::Closed, self.written),
            Action::Finish => (ZoneState::Full, self.written),
            Action::Reset => (ZoneState::Empty, Some(0)),
            Action::Open | Action::Offline => (self.state, self.written),
        };
        SeenZone {
            state,
            written,
            changed: true,
        }
    }

    /// Whether a Flush looks at it: it is active, or was changed since the last Flush.
    pub(crate) fn is_due(&self) -> bool
        ensures { result ≡ is_due self.now }
    {
        is_active(self.state) || self.changed
    }

    /// Whether an action is one that is sent, and admitted in the state of the zone.
    pub(crate) fn admits(&self, action: Action) -> bool
        ensures { result ≡ true → (is_sent action ≡ true) × ((zone : Zone) → IsSeen zone self.now
            → is_refusal (state_after zone.state action) ≡ false) }
    {
        match (action, self.state) {
            (_, ZoneState::ReadOnly | ZoneState::Offline) => false,
            (Action::Close, ZoneState::Empty | ZoneState::Full) => false,
            (Action::Close | Action::Finish | Action::Reset, _) => true,
            _ => false,
        }
    }
}
