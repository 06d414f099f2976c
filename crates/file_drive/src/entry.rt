ghost use Rattle.std.specs.Prelude.{◌≡◌, ◌+◌, ◌^◌, ◌<◌, Some, length};
ghost use Rattle.drive_port.specs.Run.{restarted_state};
ghost use Rattle.drive_port.specs.Step.{one_if};
ghost use Rattle.file_drive.specs.InFile.{is_apart};
ghost use Rattle.file_drive.specs.Sums.{has_moved, kept_blocks};
ghost use Rattle.file_drive.specs.Tables.{acted, appended, entry_of, next_entries, next_entry, place_of, second_after};
ghost use Rattle.file_drive.specs.Tables.{state_from, table_code, word_of};

use zone_drive::selects;
use zone_states::{Action, Geometry, ZoneState, next_state, opened_by_write};

/// What a table says of a zone: its state, how many of its blocks are written, whether it is in its second place, and
/// the sum of its blocks, of 27 bits.
#[derive(Clone, Copy, Debug, PartialEq, Eq)]
pub struct Entry {
    pub state: ZoneState,
    pub written: u32,
    pub second: bool,
    pub sum: u32,
}

/// The state after a restart: a zone that was open is Closed.
fn restarted(state: ZoneState) -> ZoneState
    ensures { result ≡ restarted_state state }
{
    match state {
        ZoneState::ImplicitlyOpened | ZoneState::ExplicitlyOpened => ZoneState::Closed,
        state => state,
    }
}

/// The number of a state in a table. It is that of the standard, except that Empty has 0. So in a
/// table of zeros all zones are Empty.
fn table_code(state: ZoneState) -> u8
    ensures { result ≡ table_code state }
{
    if state == ZoneState::Empty {
        return 0;
    }
    state.code()
}

/// The state that a number in a table means. A number that means none gives Offline.
fn state_from(code: u64) -> ZoneState
    ensures { result ≡ state_from code }
{
    if code == 0 {
        return ZoneState::Empty;
    }
    match u8::try_from(code) {
        Ok(code) => ZoneState::from_code(code).unwrap_or(ZoneState::Offline),
        Err(_) => ZoneState::Offline,
    }
}

fn one_if(holds: bool) -> u32
    ensures { result ≡ one_if holds }
{
    if holds {
        return 1;
    }
    0
}

impl Entry {
    /// The word of the zone in a table.
    pub fn word(self) -> u64
        ensures { result ≡ word_of self }
    {
        let sum = u64::from(self.sum % (1 << 27));
        let code = u64::from(table_code(restarted(self.state)));
        let high = (sum * 16 + code) * 2 + u64::from(one_if(self.second));
        high * (1 << 32) + u64::from(self.written)
    }

    /// What a word says.
    pub fn of_word(word: u64) -> Entry
        ensures { result ≡ entry_of word }
    {
        Entry {
            state: state_from(word / (1 << 33) % 16),
            written: (word % (1 << 32)) as u32,
            second: word / (1 << 32) % 2 == 1,
            sum: (word / (1 << 37) % (1 << 27)) as u32,
        }
    }

    /// The number of the place that the zone is in. The zone with the number n has the places 2n
    /// and 2n + 1.
    pub fn place(self, number: u32) -> u32
        requires { number < 2 ^ 30 }
        ensures { result ≡ place_of number self }
    {
        2 * number + one_if(self.second)
    }

    /// Whether the zone is in another place than at the last flush.
    fn has_moved(self, flushed: Entry) -> bool
        ensures { result ≡ has_moved flushed self }
    {
        if flushed.second {
            !self.second
        } else {
            self.second
        }
    }

    /// Whether all blocks that the last flush has of the zone are still there: the zone is in its
    /// other place, or has at least as many blocks in the same one.
    pub fn is_apart(self, flushed: Entry) -> bool
        ensures { result ≡ is_apart flushed self }
    {
        self.has_moved(flushed) || flushed.written <= self.written
    }

    /// How many blocks of the last flush are in the place of the zone. The blocks behind them were written since.
    pub fn kept_blocks(self, flushed: Entry) -> u32
        ensures { result ≡ kept_blocks flushed self }
    {
        if self.has_moved(flushed) {
            return 0;
        }
        flushed.written
    }

    /// Whether the zone is in its second place after an action. If the last flush has blocks of the
    /// zone, a Reset takes the other place than the one of these blocks.
    fn second_after(self, action: Action, flushed: Entry) -> bool
        ensures { result ≡ second_after action flushed self }
    {
        if action == Action::Reset && flushed.written != 0 {
            return !flushed.second;
        }
        self.second
    }

    /// The zone after an action. If its state does not admit the action, it is unchanged.
    /// `flushed` is what the last flush says of the zone.
    pub fn acted(self, action: Action, flushed: Entry) -> Entry
        ensures { result ≡ acted action flushed self }
    {
        let Ok(state) = next_state(self.state, action) else {
            return self;
        };
        let (written, sum) = if action == Action::Reset {
            (0, flushed.sum)
        } else {
            (self.written, self.sum)
        };
        let second = self.second_after(action, flushed);
        Entry {
            state,
            written,
            second,
            sum,
        }
    }

    /// The zone after an action on all zones. Without an action it is unchanged.
    pub fn next(self, action: Option<Action>, flushed: Entry) -> Entry
        ensures { result ≡ next_entry action flushed self }
    {
        match action {
            Some(action) if selects(action, self.state) => self.acted(action, flushed),
            _ => self,
        }
    }

    /// The zone after so many more blocks were written, with the sum that it has then.
    pub fn appended(self, geometry: &Geometry, blocks: u32, sum: u32) -> Entry
        requires { self.written + blocks < 2 ^ 32 }
        ensures { result ≡ appended geometry.now self blocks sum }
    {
        let written = self.written + blocks;
        let state = if written == geometry.capacity {
            ZoneState::Full
        } else {
            opened_by_write(self.state)
        };
        Entry {
            state,
            written,
            second: self.second,
            sum,
        }
    }
}

/// Does an action on each zone whose state admits it. `flushed` has the words of the zones at the
/// last flush.
pub fn send_to_each(entries: &mut Vec<Entry>, flushed: &[u64], action: Action)
    requires { length flushed.now ≡ length entries.old.items }
    ensures { entries.new.items ≡ next_entries (Some action) flushed.now entries.old.items }
{
    for index in 0..flushed.len() {
        entries[index] = entries[index].next(Some(action), Entry::of_word(flushed[index]));
    }
}
