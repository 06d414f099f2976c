ghost use Rattle.std.specs.Prelude.{◌≡◌, ◌<◌, ◌≤◌, ◌^◌, IfNone, IfOk, IfSome, count_by, false};
ghost use Rattle.std.specs.Prelude.{length, replicate, slice_index_or, slice_set, true};
ghost use Rattle.zone_choice.specs.Roles.{IsLowestIn};

use std::alloc::{AllocError, Global};
use std::marker::Model;

/// Which zones are empty.
#[derive(Drop)]
pub struct EmptyZones {
    marks: Vec<bool>,
    /// How many are marked.
    count: u32,
    /// No zone below is marked.
    lowest: u32,
}

impl Model for EmptyZones {
    ghost use Rattle.std.specs.Prelude.{Bool, List};
    ghost use Rattle.zone_choice.specs.Roles.{AreCounted};

    ghost Value = { List Bool };

    ghost view = { λ e. e.marks.items };

    ghost invariant = { λ e. AreCounted e.marks.items e.count e.lowest };
}

impl EmptyZones {
    /// All zones are empty.
    pub fn new(alloc: Global, zones: u32) -> Result<EmptyZones, AllocError>
        ensures { IfOk result (λ empty. empty ≡ replicate zones true) }
    {
        Ok(EmptyZones {
            marks: vec![in alloc; true; zones as usize]?,
            count: zones,
            lowest: 0,
        })
    }

    /// The zones that are marked are empty.
    pub fn marked(marks: Vec<bool>) -> EmptyZones
        requires { length marks.items < 2 ^ 32 }
        ensures { result ≡ marks.items }
    {
        let mut count = 0;
        for mark in &marks {
            if *mark {
                count += 1;
            }
        }
        EmptyZones {
            marks,
            count,
            lowest: 0,
        }
    }

    /// How many zones are empty.
    pub fn count(&self) -> u32
        ensures { result ≡ count_by (λ b. b) self.now }
    {
        self.count
    }

    /// Takes the lowest empty zone.
    pub fn take_lowest(&mut self) -> Option<u32>
        ensures some { IfSome result
            (λ zone. IsLowestIn self.old zone × (self.new ≡ slice_set self.old zone false)) }
        ensures none { IfNone result ((count_by (λ b. b) self.old ≡ 0) × (self.new ≡ self.old)) }
    {
        let Some(zone) = self.lowest() else {
            return None;
        };
        self.marks[zone as usize] = false;
        self.count -= 1;
        self.lowest = zone + 1;
        Some(zone)
    }

    /// Gives back a zone that is not empty.
    pub fn give_back(&mut self, zone: u32)
        requires in_range { zone < length self.old }
        requires not_empty { slice_index_or self.old zone false ≡ false }
        ensures { self.new ≡ slice_set self.old zone true }
    {
        self.marks[zone as usize] = true;
        self.count += 1;
        self.lowest = self.lowest.min(zone);
    }

    fn lowest(&self) -> Option<u32>
        ensures some { IfSome result (IsLowestIn self.now) }
        ensures none { IfNone result (count_by (λ b. b) self.now ≡ 0) }
    {
        for zone in self.lowest..self.marks.len() as u32 {
            if self.marks[zone as usize] {
                return Some(zone);
            }
        }
        None
    }
}
