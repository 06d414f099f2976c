ghost use Rattle.std.specs.Prelude.{◌≡◌, ◌<◌, ◌≤◌, length, count_by, true, false, IfNone, IfSome};
ghost use Rattle.nvme_wire.specs.declared.zone_state.ZoneState.{ZoneState};
ghost use Rattle.tool_forms.specs.Counts.{is_in, one_where};
ghost use Rattle.tool_forms.specs.Named.{NamesNone, is_name_of};

use nvme_wire::ZoneState;
use zone_report::{ReportedZones, state_text};

/// All states, in the order of their codes.
pub const STATES: [ZoneState; 7] = [
    ZoneState::Empty,
    ZoneState::ImplicitlyOpened,
    ZoneState::ExplicitlyOpened,
    ZoneState::Closed,
    ZoneState::ReadOnly,
    ZoneState::Full,
    ZoneState::Offline,
];

/// Whether a word is the name of a state, in any case of its letters.
fn is_name_of(word: &str, state: ZoneState) -> bool
    ensures { result ≡ is_name_of word.now state }
{
    state_text(state).eq_ignore_ascii_case(word)
}

/// The first of these states with that name.
fn named_in(states: &[ZoneState], word: &str) -> Option<ZoneState>
    ensures some { IfSome result (λ state. is_name_of word.now state ≡ true) }
    ensures none { IfNone result (NamesNone word.now states.now) }
{
    for state in states {
        if is_name_of(word, *state) {
            return Some(*state);
        }
    }
    None
}

/// The state with that name, in any case of its letters.
pub fn state_named(word: &str) -> Option<ZoneState>
    ensures some { IfSome result (λ state. is_name_of word.now state ≡ true) }
    ensures none { IfNone result ((state : ZoneState) → is_name_of word.now state ≡ false) }
{
    named_in(&STATES, word)
}

/// Whether a zone is in a state.
pub(crate) fn is_in(state: ZoneState, zone: ZoneState) -> bool
    ensures { result ≡ is_in state zone }
{
    state.code() == zone.code()
}

/// One for what is so, and none for what is not.
fn one_where(is_so: bool) -> u32
    ensures { result ≡ one_where is_so }
{
    if is_so { 1 } else { 0 }
}

/// How many zones are in a state.
pub fn count_zones<Z: ReportedZones>(zones: &Z, count: u32, state: ZoneState) -> u32
    requires { length (Z.zones zones.now) ≡ count }
    ensures { result ≡ count_by (λ zone. is_in state zone.state) (Z.zones zones.now) }
{
    let mut found = 0;
    for number in 0..count {
        found += one_where(is_in(state, zones.status(number).state));
    }
    found
}
