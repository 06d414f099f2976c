ghost use Rattle.std.specs.Prelude.{◌≡◌, ◌≤◌, ◌<◌, ◌+◌, ◌^◌, ℕ, IfOk, IfSome, IfNone, None};
ghost use Rattle.std.specs.Prelude.{Some, false, length, replicate, slice_index_or, true};
ghost use Rattle.std.specs.List.{AllByRecursion};
ghost use Rattle.zone_choice.specs.Roles.{AreApart, AreMarked, IsLowestEmpty, clean_ended, clean_undone, closed_beside};
ghost use Rattle.zone_choice.specs.Roles.{closed_unless, empty_count, filling_of, fillings, grown, is_open_beside};
ghost use Rattle.zone_choice.specs.Roles.{is_sealed_at, filling_list, marked, mounted_as, ended, next_of, open_beside};
ghost use Rattle.zone_choice.specs.Roles.{promoted, sealed, second_with, taken, unmarked, unused_roles};
ghost use Rattle.zone_choice.specs.Roles.{with_destination, wrote};
ghost use Rattle.std.specs.Option.{option_map};

use crate::empties::EmptyZones;
use std::alloc::{AllocError, Global};
use std::marker::Model;

/// A zone that batches go to.
#[derive(Clone, Copy, Debug, PartialEq, Eq)]
pub struct Filling {
    /// The number of the zone.
    pub zone: u32,
    /// How many of its blocks are written.
    pub written: u32,
    /// Whether the drive may hold the zone open.
    pub may_open: bool,
}

/// The second zone that batches go to, besides the host zone.
#[derive(Clone, Copy, Debug, PartialEq, Eq)]
pub enum Second {
    /// The zone that becomes the host zone after the one that there is.
    Next(Filling),
    /// The zone that live records are moved to.
    Destination(Filling),
}

/// What each zone of a drive is for: it is *empty*, or one of the two that are being filled, the *host*
/// zone, to which the host's batches go, and a *second* one, or *sealed*.
#[derive(Drop)]
pub struct Roles {
    empty: EmptyZones,
    /// Which zones are sealed.
    sealed: Vec<bool>,
    host: Option<Filling>,
    second: Option<Second>,
}

impl Model for Roles {
    ghost use Rattle.zone_choice.specs.Roles.{AreApart, AreMarked, RolesView};

    ghost Value = { RolesView };

    ghost view = { λ r. record { empty = r.empty; host = r.host; second = r.second } };

    ghost invariant = { λ r. AreApart (record { empty = r.empty; host = r.host; second = r.second })
        × AreMarked (record { empty = r.empty; host = r.host; second = r.second }) r.sealed.items };
}

impl Filling {
    /// A zone to which nothing is written yet.
    fn new(zone: u32) -> Filling
        ensures { result ≡ record { zone = zone; written = 0; may_open = false } }
    {
        Filling {
            zone,
            written: 0,
            may_open: false,
        }
    }

    /// Counts blocks that were written to the zone with this number, if it is this one.
    fn wrote(&mut self, zone: u32, blocks: u32)
        requires { self.old.written + blocks < 2 ^ 32 }
        ensures { self.new ≡ grown zone blocks self.old }
    {
        if self.zone == zone {
            self.written += blocks;
            self.may_open = true;
        }
    }

    /// Notes that the drive does not hold it open, unless it is the zone with this number.
    fn closed_unless(&mut self, zone: u32)
        ensures { self.new ≡ closed_unless zone self.old }
    {
        if self.zone != zone {
            self.may_open = false;
        }
    }

    /// Whether it is another zone than this one, and the drive may hold it open.
    fn is_open_beside(&self, zone: u32) -> bool
        ensures { result ≡ is_open_beside zone self.now }
    {
        self.zone != zone && self.may_open
    }
}

impl Second {
    fn filling(self) -> Filling
        ensures { result ≡ filling_of self }
    {
        match self {
            Second::Next(filling) => filling,
            Second::Destination(filling) => filling,
        }
    }
}

impl Roles {
    /// All zones are empty, and none is being filled.
    pub fn new(alloc: Global, zones: u32) -> Result<Roles, AllocError>
        ensures { IfOk result (λ r. r ≡ unused_roles zones) }
    {
        Ok(Roles {
            empty: EmptyZones::new(alloc, zones)?,
            sealed: vec![in alloc; false; zones as usize]?,
            host: None,
            second: None,
        })
    }

    /// The zones that are marked are empty, one or two are being filled, and all others are sealed.
    pub fn mounted(
        alloc: Global,
        empty: Vec<bool>,
        host: Option<Filling>,
        next: Option<Filling>,
    ) -> Result<Roles, AllocError>
        requires few { length empty.items < 2 ^ 32 }
        requires apart { AreApart (mounted_as empty.items host next) }
        ensures { IfOk result (λ r. r ≡ mounted_as empty.items host next) }
    {
        let mut sealed = Vec::new(alloc);
        for mark in &empty {
            sealed.push(!*mark)?;
        }
        unmark(&mut sealed, host);
        unmark(&mut sealed, next);
        Ok(Roles {
            empty: EmptyZones::marked(empty),
            sealed,
            host,
            second: next_zone(next),
        })
    }

    /// How many zones are empty.
    pub fn empty_count(&self) -> u32
        ensures { result ≡ empty_count self.now }
    {
        self.empty.count()
    }

    /// Which zones are sealed.
    pub fn sealed(&self) -> &[bool]
        ensures { AreMarked self.now result.now }
    {
        self.sealed.as_slice()
    }

    /// The host zone.
    pub fn host(&self) -> Option<Filling>
        ensures { result ≡ self.now.host }
    {
        self.host
    }

    /// The next zone or the destination. It is not the host zone.
    pub fn second(&self) -> Option<Second>
        ensures second { result ≡ self.now.second }
        ensures apart { AreApart self.now }
    {
        self.second
    }

    /// Makes the lowest empty zone the host zone, unless it is the last empty one.
    pub fn take_empty(&mut self) -> Option<u32>
        ensures some { IfSome result
            (λ zone. IsLowestEmpty self.old zone × (2 ≤ empty_count self.old)
            × (self.new ≡ taken self.old zone)) }
        ensures none { IfNone result ((empty_count self.old < 2) × (self.new ≡ self.old)) }
    {
        if self.empty.count() < 2 {
            return None;
        }
        let Some(zone) = self.empty.take_lowest() else {
            return None;
        };
        mark(&mut self.sealed, self.host);
        self.host = Some(Filling::new(zone));
        Some(zone)
    }

    /// Makes the lowest empty zone the destination, where there is no second zone.
    pub fn take_destination(&mut self) -> Option<u32>
        requires { self.old.second ≡ None }
        ensures some { IfSome result (λ zone. IsLowestEmpty self.old zone
            × (self.new ≡ with_destination self.old zone)) }
        ensures none { IfNone result ((empty_count self.old ≡ 0) × (self.new ≡ self.old)) }
    {
        let Some(zone) = self.empty.take_lowest() else {
            return None;
        };
        self.second = Some(Second::Destination(Filling::new(zone)));
        Some(zone)
    }

    /// Makes the victim of a clean, a sealed zone, an empty one, and the destination the next zone.
    pub fn end_clean(&mut self, victim: u32)
        requires { is_sealed_at self.old victim ≡ true }
        ensures { self.new ≡ clean_ended self.old victim }
    {
        self.empty.give_back(victim);
        self.sealed[victim as usize] = false;
        make_next(&mut self.second);
    }

    /// Makes the destination, if there is one, an empty zone again.
    pub fn undo_clean(&mut self)
        ensures { self.new ≡ clean_undone self.old }
    {
        if let Some(Second::Destination(filling)) = self.second {
            self.second = None;
            self.empty.give_back(filling.zone);
        }
    }

    /// Makes the next zone the host zone, if there is none. Nothing changes if there is no next zone.
    pub fn promote(&mut self) -> Option<Filling>
        requires { self.old.host ≡ None }
        ensures next { result ≡ next_of self.old.second }
        ensures promoted { self.new ≡ promoted self.old }
    {
        let Some(Second::Next(filling)) = self.second else {
            return None;
        };
        self.second = None;
        self.host = Some(filling);
        Some(filling)
    }

    /// Seals the host zone, if any.
    pub fn seal(&mut self)
        ensures { self.new ≡ sealed self.old }
    {
        mark(&mut self.sealed, self.host);
        self.host = None;
    }

    /// Counts blocks that were written to a zone that is being filled.
    pub fn wrote(&mut self, zone: u32, blocks: u32)
        requires { AllByRecursion (λ filling. filling.written + blocks < 2 ^ 32)
            (fillings self.old) }
        ensures { self.new ≡ wrote self.old zone blocks }
    {
        grow(&mut self.host, zone, blocks);
        grow_second(&mut self.second, zone, blocks);
    }

    /// The zone that is being filled beside this one, if the drive may hold it open.
    pub fn open_beside(&self, zone: u32) -> Option<Filling>
        ensures { result ≡ open_beside self.now zone }
    {
        if let Some(host) = self.host {
            if host.is_open_beside(zone) {
                return Some(host);
            }
        }
        let second = self.second?.filling();
        if second.is_open_beside(zone) {
            return Some(second);
        }
        None
    }

    /// Notes that the zones that are being filled beside this one were closed.
    pub fn closed_beside(&mut self, zone: u32)
        ensures { self.new ≡ closed_beside self.old zone }
    {
        close_unless(&mut self.host, zone);
        close_second_unless(&mut self.second, zone);
    }
}

/// Marks a zone as sealed, if any.
fn mark(marks: &mut Vec<bool>, filling: Option<Filling>)
    requires { IfSome filling (λ filling. filling.zone < length marks.old.items) }
    ensures { marks.new.items ≡ marked marks.old.items filling }
{
    if let Some(filling) = filling {
        marks[filling.zone as usize] = true;
    }
}

/// Marks a zone as not sealed, if any.
fn unmark(marks: &mut Vec<bool>, filling: Option<Filling>)
    requires { IfSome filling (λ filling. filling.zone < length marks.old.items) }
    ensures { marks.new.items ≡ unmarked marks.old.items filling }
{
    if let Some(filling) = filling {
        marks[filling.zone as usize] = false;
    }
}

/// The next zone, if any.
fn next_zone(filling: Option<Filling>) -> Option<Second>
    ensures { result ≡ option_map Second.Next filling }
{
    match filling {
        Some(filling) => Some(Second::Next(filling)),
        None => None,
    }
}

/// Makes a destination the next zone.
fn make_next(second: &mut Option<Second>)
    ensures { second.new ≡ option_map ended second.old }
{
    if let Some(Second::Destination(filling)) = *second {
        *second = Some(Second::Next(filling));
    }
}

fn grow(filling: &mut Option<Filling>, zone: u32, blocks: u32)
    requires { AllByRecursion (λ filling. filling.written + blocks < 2 ^ 32)
        (filling_list filling.old) }
    ensures { filling.new ≡ option_map (grown zone blocks) filling.old }
{
    if let Some(filling) = filling {
        filling.wrote(zone, blocks);
    }
}

fn grow_second(second: &mut Option<Second>, zone: u32, blocks: u32)
    requires { AllByRecursion (λ filling. filling.written + blocks < 2 ^ 32)
        (filling_list (option_map filling_of second.old)) }
    ensures { second.new ≡ option_map (second_with (grown zone blocks)) second.old }
{
    match second {
        Some(Second::Next(filling)) => filling.wrote(zone, blocks),
        Some(Second::Destination(filling)) => filling.wrote(zone, blocks),
        None => {}
    }
}

fn close_unless(filling: &mut Option<Filling>, zone: u32)
    ensures { filling.new ≡ option_map (closed_unless zone) filling.old }
{
    if let Some(filling) = filling {
        filling.closed_unless(zone);
    }
}

fn close_second_unless(second: &mut Option<Second>, zone: u32)
    ensures { second.new ≡ option_map (second_with (closed_unless zone)) second.old }
{
    match second {
        Some(Second::Next(filling)) => filling.closed_unless(zone),
        Some(Second::Destination(filling)) => filling.closed_unless(zone),
        None => {}
    }
}
