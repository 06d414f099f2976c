ghost use Rattle.std.specs.Prelude.{◌≡◌, ℕ};
ghost use Rattle.file_drive.specs.Freed.{IsNoted};

use indexmap::IndexSet;
use std::alloc::Global;
use zone_states::Action;

/// The zones from which a Reset took blocks since the last flush. Each is noted once.
#[derive(Drop)]
pub struct Freed {
    zones: IndexSet<usize>,
    /// Whether all zones are noted.
    all: bool,
}

impl Freed {
    /// No zone is noted.
    pub fn new(alloc: Global) -> Freed {
        Freed {
            zones: IndexSet::new(alloc),
            all: false,
        }
    }

    /// Notes a zone. Where memory for that is missing, all are noted.
    pub fn note(&mut self, index: usize)
        ensures noted { IsNoted self.new index }
        ensures kept { (other : ℕ) → IsNoted self.old other → IsNoted self.new other }
    {
        if self.zones.insert(index).is_err() {
            self.all = true;
        }
    }

    /// Notes all zones after a Reset of all.
    pub fn note_after(&mut self, action: Action)
        ensures noted { action ≡ Action.Reset → (index : ℕ) → IsNoted self.new index }
        ensures kept { (other : ℕ) → IsNoted self.old other → IsNoted self.new other }
    {
        if action == Action::Reset {
            self.all = true;
        }
    }

    /// Whether all zones were noted. No zone is then.
    pub fn take_all(&mut self) -> bool
        ensures { result ≡ self.old.all }
    {
        let all = self.all;
        if all {
            self.zones.clear();
            self.all = false;
        }
        all
    }

    /// How many zones are noted one by one.
    pub fn len(&self) -> usize {
        self.zones.len()
    }

    /// Takes one of them.
    pub fn take(&mut self) -> Option<usize> {
        self.zones.pop()
    }
}
