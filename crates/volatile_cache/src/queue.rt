ghost use Rattle.std.specs.Prelude.{◌≡◌, ◌++◌, ◌∷◌, ◌-◌, ◌==◌, [], IfNone, IfSome, OnErr, OnOk, drop, length};
ghost use Rattle.std.specs.Prelude.{slice_get, take};
ghost use Rattle.std.specs.Option.{option_copied};
ghost use Rattle.volatile_cache.specs.Queue.{HasNone, IsFirstPlace, IsGreatest, IsLeast, newest_of, oldest_of};
ghost use Rattle.volatile_cache.specs.Queue.{without_oldest};

use crate::kept::Kept;
use std::alloc::{AllocError, Global};
use std::collections::{BTreeMap, BTreeSet};
use std::marker::Model;

/// Blocks that are pending, oldest first, and an index by which those of a place are found.
#[derive(Drop)]
pub struct WriteQueue {
    /// Each by its number. A newer one has a greater number.
    order: BTreeMap<u64, Kept>,
    /// The place and the number of each.
    places: BTreeSet<(u64, u64)>,
    /// The number of the next one.
    next: u64,
}

impl Model for WriteQueue {
    ghost use Rattle.std.specs.Prelude.{List};
    ghost use Rattle.std.specs.BTreeMap.{values};
    ghost use Rattle.volatile_cache.specs.declared.kept.Kept.{Kept};
    ghost use Rattle.volatile_cache.specs.Queue.{AreNumbered};

    ghost Value = { List Kept };

    ghost view = { λ q. values q.order };

    ghost invariant = { λ q. AreNumbered q.places q.order q.next };
}

/// The number of the oldest block of a place.
fn oldest_number(places: &BTreeSet<(u64, u64)>, place: u64) -> Option<u64>
    ensures some { IfSome result (IsLeast places.now place) }
    ensures none { IfNone result (HasNone places.now place) }
{
    let (found, number) = places.range((place, 0)..).next()?;
    if *found != place {
        return None;
    }
    Some(*number)
}

/// The number of the newest block of a place.
fn newest_number(places: &BTreeSet<(u64, u64)>, place: u64) -> Option<u64>
    ensures some { IfSome result (IsGreatest places.now place) }
    ensures none { IfNone result (HasNone places.now place) }
{
    let (found, number) = places.range(..=(place, u64::MAX)).next_back()?;
    if *found != place {
        return None;
    }
    Some(*number)
}

impl WriteQueue {
    /// A queue in which nothing is pending.
    pub fn new(alloc: Global) -> WriteQueue
        ensures { result ≡ [] }
    {
        WriteQueue {
            order: BTreeMap::new(alloc),
            places: BTreeSet::new(alloc),
            next: 0,
        }
    }

    /// How many blocks are pending.
    pub fn len(&self) -> usize
        ensures { result ≡ length self.now }
    {
        self.order.len()
    }

    /// Whether no block is pending.
    pub fn is_empty(&self) -> bool
        ensures { result ≡ (length self.now == 0) }
    {
        self.order.is_empty()
    }

    /// The oldest one.
    pub fn oldest(&self) -> Option<&Kept>
        ensures { option_copied result ≡ slice_get self.now 0 }
    {
        let (_, kept) = self.order.first_key_value()?;
        Some(kept)
    }

    /// The oldest one of a place, which is written first.
    pub fn oldest_of(&self, place: u64) -> Option<&Kept>
        ensures { option_copied result ≡ oldest_of place self.now }
    {
        let number = oldest_number(&self.places, place)?;
        self.order.get(&number)
    }

    /// The newest one of a place, which a read shows.
    pub fn newest_of(&self, place: u64) -> Option<&Kept>
        ensures { option_copied result ≡ newest_of place self.now }
    {
        let number = newest_number(&self.places, place)?;
        self.order.get(&number)
    }

    /// The first place from `from` on at which a block is pending.
    pub fn place_from(&self, from: u64) -> Option<u64>
        ensures { IsFirstPlace from self.now result }
    {
        let (place, _) = self.places.range((from, 0)..).next()?;
        Some(*place)
    }

    /// Adds one, which is the newest. If there is no memory, nothing is added.
    pub fn push(&mut self, kept: Kept) -> Result<(), AllocError>
        ensures ok { OnOk result (self.new ≡ self.old ++ kept ∷ []) }
        ensures err { OnErr result (self.new ≡ self.old) }
    {
        let number = self.next;
        let Some(next) = number.checked_add(1) else {
            return Err(AllocError);
        };
        let place = kept.place;
        if self.places.insert((place, number)).is_err() {
            return Err(AllocError);
        }
        if self.order.insert(number, kept).is_err() {
            self.places.remove(&(place, number));
            return Err(AllocError);
        }
        self.next = next;
        Ok(())
    }

    /// Takes out the oldest one of a place.
    pub fn pop_oldest_of(&mut self, place: u64)
        ensures { self.new ≡ without_oldest place self.old }
    {
        let Some(number) = oldest_number(&self.places, place) else {
            return;
        };
        self.order.remove(&number);
        self.places.remove(&(place, number));
    }

    /// Takes out the oldest one.
    pub fn pop_oldest(&mut self)
        ensures { self.new ≡ drop 1 self.old }
    {
        if let Some((number, kept)) = self.order.pop_first() {
            self.places.remove(&(kept.place, number));
        }
    }

    /// Takes out the newest one.
    fn pop_newest(&mut self)
        ensures { self.new ≡ take (length self.old - 1) self.old }
    {
        if let Some((number, kept)) = self.order.pop_last() {
            self.places.remove(&(kept.place, number));
        }
    }

    /// Takes out the newest ones, so that so many are left at most.
    pub fn truncate(&mut self, count: usize)
        ensures { self.new ≡ take count self.old }
    {
        while self.len() > count {
            self.pop_newest();
        }
    }
}
