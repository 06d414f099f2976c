ghost use Rattle.std.specs.Prelude.{◌≡◌};
ghost use Rattle.zone_states.specs.Transition.{is_active, is_open, state_after};

use nvme_wire::{Action, Status, ZoneState};

/// Whether a zone in this state holds one of the drive's active resources (Zoned Namespace Command Set
/// 1.1, section 2.1.1).
pub fn is_active(state: ZoneState) -> bool
    ensures { result ≡ is_active state }
{
    match state {
        ZoneState::ImplicitlyOpened | ZoneState::ExplicitlyOpened | ZoneState::Closed => true,
        _ => false,
    }
}

/// Whether a zone in this state holds one of the drive's open resources (Zoned Namespace Command Set
/// 1.1, section 2.1.1).
pub fn is_open(state: ZoneState) -> bool
    ensures { result ≡ is_open state }
{
    match state {
        ZoneState::ImplicitlyOpened | ZoneState::ExplicitlyOpened => true,
        _ => false,
    }
}

/// The state that an action leads to, or `InvalidZoneStateTransition` (Zoned Namespace Command Set 1.1,
/// section 3.4.3). The limits on active and open zones are not looked at: they are the drive's.
pub fn next_state(state: ZoneState, action: Action) -> Result<ZoneState, Status>
    ensures { result ≡ state_after state action }
{
    match state {
        ZoneState::Full => match action {
            Action::Finish => Ok(ZoneState::Full),
            Action::Reset => Ok(ZoneState::Empty),
            _ => Err(Status::InvalidZoneStateTransition),
        },
        ZoneState::ReadOnly | ZoneState::Offline => match action {
            Action::Offline => Ok(ZoneState::Offline),
            _ => Err(Status::InvalidZoneStateTransition),
        },
        ZoneState::Empty => match action {
            Action::Open => Ok(ZoneState::ExplicitlyOpened),
            Action::Finish => Ok(ZoneState::Full),
            Action::Reset => Ok(ZoneState::Empty),
            _ => Err(Status::InvalidZoneStateTransition),
        },
        ZoneState::ImplicitlyOpened | ZoneState::ExplicitlyOpened | ZoneState::Closed => {
            match action {
                Action::Open => Ok(ZoneState::ExplicitlyOpened),
                Action::Close => Ok(ZoneState::Closed),
                Action::Finish => Ok(ZoneState::Full),
                Action::Reset => Ok(ZoneState::Empty),
                Action::Offline => Err(Status::InvalidZoneStateTransition),
            }
        }
    }
}
