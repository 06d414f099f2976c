ghost use Rattle.std.specs.Prelude.{◌≡◌, ◌≢◌, ◌≤◌, ◌<◌, ◌+◌, ◌^◌, ◌++◌, [], ◌∷◌, ℕ, IfNone, IfOk, IfSome, false, length};
ghost use Rattle.std.specs.Prelude.{None, OnErr, OnOk, Some, slice_index, slice_index_or, slice_set, true};
ghost use Rattle.std.specs.List.{AllByRecursion};
ghost use Rattle.logical_map.specs.Counts.{lowered, raised};
ghost use Rattle.logical_map.specs.Live.{first_record, lies_in, live};
ghost use Rattle.logical_map.specs.Places.{ArePlacedReady, IsReady, Reserves, place_address};
ghost use Rattle.logical_map.specs.declared.place.Place.TheVariants as places;
ghost use Rattle.zone_choice.specs.Roles.{AreApart, IsLowestEmpty, clean_ended, clean_undone, closed_beside, empty_count, fillings};
ghost use Rattle.zone_choice.specs.Roles.{is_sealed_at, next_of, open_beside, promoted, sealed, taken};
ghost use Rattle.zone_choice.specs.Roles.{with_destination, wrote};
ghost use Rattle.zone_choice.specs.Tables.{AreOfEmptyDrive, AreReserved, GrowsTo, IsLeastSealed, SameButReady};
ghost use Rattle.zone_choice.specs.Tables.{FindsLeastSealed, can_be_cleaned, has_fewer, is_left_out, lesser, size_of, with_places};

use crate::roles::{Filling, Roles, Second};
use crate::unreadable::Unreadable;
use batch_log::Entry;
use live_index::LiveIndex;
use logical_map::{Map, Place};
use std::alloc::{AllocError, Global};
use std::marker::Model;

/// What a mounted disk knows of its drive: where the newest record of each logical block is, what the
/// zones are for, the sequence of the next batch, the number of logical blocks that the mount was given, and which data
/// could not be read since.
#[derive(Drop)]
pub struct Tables {
    map: Map,
    /// How many live records each zone has.
    index: LiveIndex,
    roles: Roles,
    next: u64,
    given: u32,
    unreadable: Vec<Unreadable>,
}

impl Model for Tables {
    ghost use Rattle.zone_choice.specs.Tables.{AreLive, AreOfBlocks, AreOfOneDrive, TablesView};

    ghost Value = { TablesView };

    ghost view = { λ t. record {
      map = t.map;
      roles = t.roles;
      next = t.next;
      given = t.given;
      unreadable = t.unreadable.items;
    } };

    ghost invariant = { λ t. AreOfOneDrive t.map t.roles × AreLive t.map t.index
        × AreOfBlocks t.map t.unreadable.items };
}

impl Tables {
    /// The tables of a drive of `zones` empty zones, with `zone_size` addresses each, and of `blocks` logical
    /// blocks, none of which is written. `given` is the number of logical blocks that the mount was given.
    pub fn new(
        alloc: Global,
        zones: u32,
        zone_size: u32,
        blocks: u32,
        given: u32,
    ) -> Result<Tables, AllocError>
        ensures { IfOk result (AreOfEmptyDrive zones zone_size blocks given) }
    {
        let index = LiveIndex::new(alloc, zones)?;
        let roles = Roles::new(alloc, zones)?;
        Ok(Tables {
            map: Map::new(alloc, blocks, zones, zone_size),
            index,
            roles,
            next: 1,
            given,
            unreadable: Vec::new(alloc),
        })
    }

    /// Sets what the zones are for, and the sequence of the next batch.
    pub fn begin(&mut self, roles: Roles, next: u64)
        requires { length roles.empty ≡ self.old.map.zones }
        ensures { self.new ≡ record self.old { roles = roles; next = next } }
    {
        self.roles = roles;
        self.next = next;
    }

    /// How many logical blocks there are.
    pub fn blocks(&self) -> u32
        ensures { result ≡ size_of self.now }
    {
        self.map.len()
    }

    /// Where the newest record of a block is.
    pub fn place_of(&self, block: u32) -> Place
        requires { block < size_of self.now }
        ensures { result ≡ slice_index_or self.now.map.places block places.None }
    {
        self.map.get(block)
    }

    /// How many blocks have their newest record in a zone of the drive.
    pub fn live(&self, zone: u32) -> u32
        ensures { zone < self.now.map.zones → result ≡ live self.now.map zone }
    {
        self.map.live(zone)
    }

    /// The sealed zone with the fewest live records, the lowest of equals. A zone that is left out does not count. None
    /// if there is no other.
    pub fn least_sealed(&self) -> Option<u32>
        ensures some { IfSome result (IsLeastSealed self.now) }
        ensures none { IfNone result ((zone : ℕ) → can_be_cleaned self.now zone ≡ false) }
    {
        if self.unreadable.is_empty() {
            return self.index.least(self.roles.sealed());
        }
        self.least_readable()
    }

    /// The same, found by a walk over all zones.
    fn least_readable(&self) -> Option<u32>
        ensures { FindsLeastSealed self.now self.now.map.zones result }
    {
        let mut least = None;
        for zone in 0..self.map.zones() {
            least = self.lesser(least, zone);
        }
        least
    }

    /// A zone, if it can be cleaned and has fewer live records than another one, and else that one.
    fn lesser(&self, other: Option<u32>, zone: u32) -> Option<u32>
        requires zone { zone < self.now.map.zones }
        requires other { IfSome other (λ other. other < self.now.map.zones) }
        ensures { result ≡ lesser self.now other zone }
    {
        if self.can_be_cleaned(zone) && self.has_fewer(zone, other) {
            return Some(zone);
        }
        other
    }

    /// Whether a zone is sealed, and not left out.
    fn can_be_cleaned(&self, zone: u32) -> bool
        ensures { result ≡ can_be_cleaned self.now zone }
    {
        self.is_sealed(zone) && !self.is_left_out(zone)
    }

    /// Whether a zone has fewer live records than another one, if there is one.
    fn has_fewer(&self, zone: u32, other: Option<u32>) -> bool
        requires zone { zone < self.now.map.zones }
        requires other { IfSome other (λ other. other < self.now.map.zones) }
        ensures { result ≡ has_fewer self.now.map zone other }
    {
        match other {
            None => true,
            Some(other) => self.map.live(zone) < self.map.live(other),
        }
    }

    /// Whether a zone is left out: data in it, which is still that of its block, could not be read.
    pub fn is_left_out(&self, zone: u32) -> bool
        ensures { result ≡ is_left_out self.now zone }
    {
        for lost in &self.unreadable {
            if lost.is_lost_in(&self.map, zone) {
                return true;
            }
        }
        false
    }

    /// The data that could not be read, in the order in which that was noted. Some of it may be out of date by now.
    pub fn unreadable(&self) -> &[Unreadable]
        ensures { result.now ≡ self.now.unreadable }
    {
        self.unreadable.as_slice()
    }

    /// Notes that the data of a block, at this address, could not be read. Its zone is left out from now on, until the
    /// block has other data. Where the allocation fails, nothing changes.
    pub fn leave_out(&mut self, block: u32, address: u64) -> Result<(), AllocError>
        requires { block < size_of self.old }
        ensures ok { OnOk result (self.new ≡ record self.old {
          unreadable = self.old.unreadable ++ record { block = block; address = address } ∷ [];
        }) }
        ensures err { OnErr result (self.new ≡ self.old) }
    {
        self.unreadable.push(Unreadable { block, address })?;
        Ok(())
    }

    /// Forgets which data could not be read, so that no zone is left out any more.
    pub fn leave_none_out(&mut self)
        ensures { self.new ≡ record self.old { unreadable = [] } }
    {
        self.unreadable.clear();
    }

    /// Whether the newest record of a block is in a zone.
    pub fn is_in(&self, block: u32, zone: u32) -> bool
        requires { block < size_of self.now }
        ensures there { result ≡ lies_in self.now.map.zone_size zone
            (slice_index_or self.now.map.places block places.None) }
        // If so, the block is ready to be placed again.
        ensures ready { result ≡ true → IsReady self.now.map block }
    {
        self.map.is_in(self.map.get(block), zone)
    }

    /// Whether a zone is sealed.
    pub fn is_sealed(&self, zone: u32) -> bool
        ensures { result ≡ is_sealed_at self.now.roles zone }
    {
        match self.roles.sealed().get(zone as usize) {
            Some(mark) => *mark,
            None => false,
        }
    }

    /// The first of the blocks from `from` on that are in a zone, with its place.
    pub fn first_record(&mut self, zone: u32, from: u32) -> Option<(u32, Place)>
        requires { zone < self.old.map.zones }
        ensures first { result ≡ first_record self.old.map zone from }
        ensures kept { self.new ≡ self.old }
    {
        self.map.first_record(zone, from)
    }

    /// How many logical blocks the mount was given: there are as many if no header has a size.
    pub fn given(&self) -> u32
        ensures { result ≡ self.now.given }
    {
        self.given
    }

    /// The sequence of the next batch, 2^63 at most.
    pub fn next(&self) -> u64
        ensures { result ≡ self.now.next }
    {
        self.next
    }

    /// The host zone.
    pub fn host(&self) -> Option<Filling>
        ensures { result ≡ self.now.roles.host }
    {
        self.roles.host()
    }

    /// The next zone or the destination.
    pub fn second(&self) -> Option<Second>
        ensures { result ≡ self.now.roles.second }
    {
        self.roles.second()
    }

    /// The destination, if there is one. It is not the host zone.
    pub fn destination(&self) -> Option<Filling>
        ensures some { IfSome result (λ filling. self.now.roles.second ≡ Some (Second.Destination filling)) }
        ensures none { IfNone result ((filling : Filling)
            → self.now.roles.second ≡ Some (Second.Destination filling) → ⊥) }
        ensures apart { AreApart self.now.roles }
    {
        match self.roles.second() {
            Some(Second::Destination(filling)) => Some(filling),
            _ => None,
        }
    }

    /// How many zones are empty.
    pub fn empty_count(&self) -> u32
        ensures { result ≡ empty_count self.now.roles }
    {
        self.roles.empty_count()
    }

    /// Makes room for the places of `count` blocks from `first` on, and to note them in a zone. Where an
    /// allocation fails, there is room for some of them.
    pub fn reserve(&mut self, zone: u32, first: u32, count: u32) -> Result<(), AllocError>
        // The blocks are the disk's, and their numbers fit in 32 bits.
        requires in_range { first + count ≤ size_of self.old }
        requires few { first + count < 2 ^ 32 }
        // Done, each is ready to be placed. Whatever it answers, nothing changes except which blocks are ready.
        ensures ok { OnOk result (AreReserved self.new.map first count) }
        ensures kept { SameButReady self.old self.new }
    {
        self.map.reserve_in(zone, count)?;
        for block in first..first + count {
            self.map.reserve_for(block)?;
        }
        Ok(())
    }

    /// Makes room for the places of these blocks, and to note them in a zone. Where an allocation fails, there is room
    /// for some of them.
    pub fn reserve_all(&mut self, zone: u32, entries: &[Entry]) -> Result<(), AllocError>
        // The blocks are the disk's, and their numbers fit in 32 bits.
        requires in_range { AllByRecursion (λ e. e.block < size_of self.old) entries.now }
        requires few { size_of self.old ≤ 2 ^ 31 }
        requires entries { length entries.now < 2 ^ 32 }
        // Done, each is ready to be placed. Whatever it answers, nothing changes except which blocks are ready.
        ensures ok { OnOk result
            (AllByRecursion (λ e. IsReady self.new.map e.block) entries.now) }
        ensures kept { SameButReady self.old self.new }
    {
        self.map.reserve_in(zone, entries.len() as u32)?;
        for entry in entries {
            self.map.reserve_for(entry.block as u32)?;
        }
        Ok(())
    }

    /// Makes room to note `count` blocks more in a zone. Blocks that are somewhere already need no more to be
    /// placed there.
    pub fn reserve_moves(&mut self, zone: u32, count: u32) -> Result<(), AllocError>
        ensures kept { self.new ≡ self.old }
        ensures ready { ArePlacedReady self.old.map }
    {
        self.map.reserve_in(zone, count)
    }

    /// Makes the lowest empty zone the host zone, unless it is the last empty one.
    pub fn take_empty(&mut self) -> Option<u32>
        ensures some { IfSome result (λ zone. IsLowestEmpty self.old.roles zone
            × (2 ≤ empty_count self.old.roles)
            × (self.new ≡ record self.old { roles = taken self.old.roles zone })) }
        ensures none { IfNone result ((empty_count self.old.roles < 2) × (self.new ≡ self.old)) }
    {
        self.roles.take_empty()
    }

    /// Makes the lowest empty zone the destination, where there is no second zone.
    pub fn take_destination(&mut self) -> Option<u32>
        requires { self.old.roles.second ≡ None }
        ensures some { IfSome result (λ zone. IsLowestEmpty self.old.roles zone
            × (self.new ≡ record self.old { roles = with_destination self.old.roles zone })) }
        ensures none { IfNone result ((empty_count self.old.roles ≡ 0) × (self.new ≡ self.old)) }
    {
        self.roles.take_destination()
    }

    /// Makes the victim of a clean, a sealed zone, an empty one, and the destination the next zone.
    pub fn end_clean(&mut self, victim: u32)
        requires { is_sealed_at self.old.roles victim ≡ true }
        ensures { self.new ≡ record self.old { roles = clean_ended self.old.roles victim } }
    {
        self.roles.end_clean(victim);
    }

    /// Makes the destination of a clean that is given up, if there is one, an empty zone again.
    pub fn undo_clean(&mut self)
        ensures { self.new ≡ record self.old { roles = clean_undone self.old.roles } }
    {
        self.roles.undo_clean();
    }

    /// Makes the next zone the host zone, if there is none. Nothing changes if there is no next zone.
    pub fn promote(&mut self) -> Option<Filling>
        requires { self.old.roles.host ≡ None }
        ensures next { result ≡ next_of self.old.roles.second }
        ensures promoted { self.new ≡ record self.old { roles = promoted self.old.roles } }
    {
        self.roles.promote()
    }

    /// Seals the host zone, if any.
    pub fn seal(&mut self)
        ensures { self.new ≡ record self.old { roles = sealed self.old.roles } }
    {
        self.roles.seal();
    }

    /// The zone that is being filled beside this one, if the drive may hold it open.
    pub(crate) fn open_beside(&self, zone: u32) -> Option<Filling>
        ensures { result ≡ open_beside self.now.roles zone }
    {
        self.roles.open_beside(zone)
    }

    /// Notes that the zones that are being filled beside this one were closed.
    pub(crate) fn closed_beside(&mut self, zone: u32)
        ensures { self.new ≡ record self.old { roles = closed_beside self.old.roles zone } }
    {
        self.roles.closed_beside(zone);
    }

    /// Makes them the tables of a disk of that many blocks, of which the new ones are not written. It
    /// allocates nothing.
    pub(crate) fn grow(&mut self, blocks: u32)
        requires { size_of self.old ≤ blocks }
        ensures { GrowsTo self.old blocks self.new }
    {
        self.map.grow(blocks);
    }

    /// Places a block that room was made for.
    pub fn place(&mut self, block: u32, place: Place)
        // The block is the disk's and is ready to be placed, and all numbers are in range.
        requires in_range { block < size_of self.old }
        requires ready { IsReady self.old.map block }
        requires fits { place_address place + 1 < 2 ^ 63 }
        requires few { size_of self.old ≤ 2 ^ 31 }
        // Then this is its place, and nothing else has changed.
        ensures { self.new ≡ with_places self.old (slice_set self.old.map.places block place) }
    {
        let moved = self.map.set(block, place);
        lower(&mut self.index, moved.from);
        raise(&mut self.index, moved.to);
    }

    /// Counts a batch of `blocks` blocks that was appended to a zone.
    pub(crate) fn appended(&mut self, zone: u32, blocks: u32)
        requires fits { AllByRecursion (λ filling. filling.written + blocks < 2 ^ 32)
            (fillings self.old.roles) }
        requires next { self.old.next < 2 ^ 63 }
        ensures { self.new ≡
            record self.old { roles = wrote self.old.roles zone blocks; next = self.old.next + 1 } }
    {
        self.roles.wrote(zone, blocks);
        self.next += 1;
    }
}

/// One live record less in a zone, if there is a zone.
fn lower(index: &mut LiveIndex, zone: Option<u32>)
    requires { IfSome zone (λ zone. (zone < length index.old) × (0 < slice_index index.old zone)) }
    ensures { index.new ≡ lowered zone index.old }
{
    if let Some(zone) = zone {
        index.remove(zone);
    }
}

/// One live record more in a zone, if there is a zone.
fn raise(index: &mut LiveIndex, zone: Option<u32>)
    requires { IfSome zone
        (λ zone. (zone < length index.old) × (slice_index index.old zone < 2 ^ 31)) }
    ensures { index.new ≡ raised zone index.old }
{
    if let Some(zone) = zone {
        index.add(zone);
    }
}
