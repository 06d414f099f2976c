ghost use Rattle.std.specs.Prelude.{◌≡◌, ◌+◌, ◌-◌, ◌^◌, ◌<◌, ◌≤◌, length, nat_lt, position, slice_set};
ghost use Rattle.nvme_wire.specs.declared.zone_state.ZoneState.{ZoneState as States};
ghost use Rattle.zone_states.specs.Transition.{is_state};
ghost use Rattle.drive_port.specs.Step.{one_if};
ghost use Rattle.zone_drive.specs.Groups.{IsCounted, IsGrouped};

use zone_states::{Zone, ZoneState, is_active, is_open};

/// How many zones a group has: the zone with a number is in the group of the number by this.
const GROUP: usize = 256;

/// A zone that shows its state.
pub trait HasState {
    /// The state of the zone.
    ghost state: { Self → States };

    /// The state of the zone.
    fn state(&self) -> ZoneState
        ensures { result ≡ state self.now };
}

impl HasState for Zone {
    ghost state = { λ z. z.state };

    fn state(&self) -> ZoneState {
        Zone::state(self)
    }
}

/// What a drive knows of its zones without looking at each: how many are active and open, and how many
/// of each group of 256 are implicitly opened.
#[derive(Clone, Copy)]
pub struct Resources {
    pub active_zones: u32,
    pub open_zones: u32,
    pub implicit: [u32; 256],
}

impl Resources {
    /// Those of these zones.
    pub fn of<S: HasState>(zones: &[S]) -> Resources
        requires { length zones.now ≤ 65536 }
        ensures { IsCounted S.state zones.now result }
    {
        let active_zones = zones.iter().filter(|zone| is_active(zone.state()));
        let open_zones = zones.iter().filter(|zone| is_open(zone.state()));
        Resources {
            active_zones: active_zones.count() as u32,
            open_zones: open_zones.count() as u32,
            implicit: implicit_counts(zones),
        }
    }

    /// Accounts for a zone that was in another state before.
    pub fn follow<S: HasState>(&mut self, zones: &[S], index: usize, before: ZoneState)
        requires in_range { index < length zones.now }
        requires counted { (was : S) × (S.state was ≡ before)
            × IsCounted S.state (slice_set zones.now index was) self.old }
        ensures { IsCounted S.state zones.now self.new }
    {
        let after = zones[index].state();
        self.active_zones = moved(self.active_zones, is_active(before), is_active(after));
        self.open_zones = moved(self.open_zones, is_open(before), is_open(after));
        let group = index / GROUP;
        self.implicit[group] = moved(
            self.implicit[group],
            is_implicit(before),
            is_implicit(after),
        );
    }

    /// The number of the lowest implicitly opened zone. It looks at the counts of the groups, and at the
    /// zones of one group.
    pub fn lowest_implicit<S: HasState>(&self, zones: &[S]) -> Option<usize>
        requires { IsGrouped (λ zone. is_state ZoneState.ImplicitlyOpened (S.state zone)) zones.now self.now.implicit }
        ensures { result ≡ position (λ zone. is_state ZoneState.ImplicitlyOpened (S.state zone)) zones.now }
    {
        let Some(group) = first_counted(&self.implicit) else {
            return None;
        };
        let start = GROUP * group;
        let Some(within) = first_implicit(&zones[start..]) else {
            return None;
        };
        Some(start + within)
    }
}

/// How many zones are counted once one of them has changed, by whether it was counted and is now.
fn moved(count: u32, before: bool, after: bool) -> u32
    requires held { one_if before ≤ count }
    requires small { count + 1 < 2 ^ 32 }
    ensures { result ≡ count + one_if after - one_if before }
{
    count + u32::from(after) - u32::from(before)
}

/// The first count that is not 0.
fn first_counted(counts: &[u32]) -> Option<usize>
    ensures { result ≡ position (λ count. nat_lt 0 count) counts.now }
{
    counts.iter().position(|count| *count > 0)
}

/// The first implicitly opened zone.
fn first_implicit<S: HasState>(zones: &[S]) -> Option<usize>
    ensures { result ≡ position (λ zone. is_state ZoneState.ImplicitlyOpened (S.state zone)) zones.now }
{
    zones.iter().position(|zone| is_implicit(zone.state()))
}

fn is_implicit(state: ZoneState) -> bool
    ensures { result ≡ is_state ZoneState.ImplicitlyOpened state }
{
    state == ZoneState::ImplicitlyOpened
}

/// How many zones of each group are implicitly opened.
fn implicit_counts<S: HasState>(zones: &[S]) -> [u32; 256]
    requires { length zones.now ≤ 65536 }
    ensures { IsGrouped (λ zone. is_state ZoneState.ImplicitlyOpened (S.state zone)) zones.now result }
{
    let mut counts = [0; 256];
    for (index, zone) in zones.iter().enumerate() {
        counts[index / GROUP] += u32::from(is_implicit(zone.state()));
    }
    counts
}
