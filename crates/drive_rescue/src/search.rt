ghost use Rattle.std.specs.Prelude.{◌≡◌, ◌+◌, ◌<◌, ◌≤◌, ◌^◌, ◌||◌, ℕ, Some, IfOk, OnOk, length, nat_le};
ghost use Rattle.batch_log.specs.Causes.{is_zero};
ghost use Rattle.batch_log.specs.Header.{head_size};
ghost use Rattle.batch_log.specs.Log.{data_count};
ghost use Rattle.drive_port.specs.Drive.{IsLawful};
ghost use Rattle.drive_rescue.specs.Holding.{GetsIn, Holds, HoldsFinding, HoldsZone, IsSmall, IsSought, IsSoughtIn};
ghost use Rattle.drive_rescue.specs.Holding.{SaysZero};
ghost use Rattle.drive_rescue.specs.Rescue.{KeepsSource};
ghost use Rattle.drive_rescue.specs.Searching.{Finding, Place, EndsAt, Searched, after_header, after_other};
ghost use Rattle.drive_rescue.specs.Searching.{after_reading, begun, doubt_before, ended, is_lost, is_whole};
ghost use Rattle.drive_rescue.specs.Searching.{nothing_found, short_of};
ghost use Rattle.drive_rescue.specs.Searching.{tail_doubt, with_batch, with_gap, with_tail, with_zeros};
ghost use Rattle.drive_rescue.specs.Zones.{ReadZone, TellsAll, TellsZone, blocks_told, cut, is_offline, is_open_ended};
ghost use Rattle.drive_rescue.specs.Zones.{is_padded};
ghost use Rattle.drive_rescue.specs.Zones.{read_zones, zone_with};
ghost use Rattle.zone_states.specs.Geometry.{IsInRange};

use crate::source::{Reading, Source, read_again};
use crate::table::{HeaderPlace, Slot, note_batch};
use batch_log::{HeaderView, read_header};
use drive_port::Halt;
use drive_survey::{ReportedZone, larger};
use nvme_wire::ZoneState;
use std::alloc::{AllocError, Global};

/// What is between the last batch of a zone, or its start, and where it is searched.
#[derive(Clone, Copy, Debug, PartialEq, Eq)]
pub(crate) enum Trail {
    /// Nothing.
    Whole,
    /// Zero blocks, which are padding if nothing else follows.
    Zeros,
    /// Something that was lost.
    Lost,
}

/// A zone that is searched.
#[derive(Clone, Copy, Debug, PartialEq, Eq)]
pub(crate) struct SoughtZone {
    pub(crate) number: u32,
    pub(crate) offline: bool,
    /// Whether it ends in zeros.
    pub(crate) padded: bool,
    /// Whether nothing tells where its written blocks end.
    pub(crate) open_ended: bool,
    /// How many blocks of it can be read.
    pub(crate) blocks: u32,
}

/// A search of the zones of a drive, one after the other.
#[derive(Drop)]
pub(crate) struct Search {
    /// The block of the zone that is looked at next.
    pub(crate) offset: u32,
    pub(crate) trail: Trail,
    /// A sequence above those that were met in the zone.
    pub(crate) floor: u64,
    /// The sequence from which on no batch can be missing.
    pub(crate) doubt: u64,
    /// The greatest size that the headers say.
    pub(crate) size: Option<u32>,
    /// The newest record of each block.
    pub(crate) table: Vec<Option<Slot>>,
}

/// No sequence of a disk is as great.
const UNBOUNDED: u64 = 1 << 63;

fn is_zero(bytes: &[u8]) -> bool
    ensures { result ≡ is_zero bytes.now }
{
    bytes.iter().all(|byte| *byte == 0)
}

fn is_padded(state: ZoneState) -> bool
    ensures { result ≡ is_padded state }
{
    match state {
        ZoneState::Full | ZoneState::ReadOnly => true,
        _ => false,
    }
}

fn is_open_ended(state: ZoneState) -> bool
    ensures { result ≡ is_open_ended state }
{
    match state {
        ZoneState::ReadOnly => true,
        _ => false,
    }
}

fn is_offline(state: ZoneState) -> bool
    ensures { result ≡ is_offline state }
{
    match state {
        ZoneState::Offline => true,
        _ => false,
    }
}

fn blocks_told(reported: ReportedZone, capacity: u32) -> u32
    ensures { result ≡ blocks_told capacity reported }
{
    if is_offline(reported.state) {
        return 0;
    }
    if is_padded(reported.state) {
        return capacity;
    }
    reported.blocks
}

/// A zone as a report tells it.
fn sought(number: u32, reported: ReportedZone, capacity: u32) -> SoughtZone
    ensures is { (zone : ReadZone) → TellsZone capacity zone reported → IsSought result zone }
    ensures number { result.number ≡ number }
{
    SoughtZone {
        number,
        offline: is_offline(reported.state),
        padded: is_padded(reported.state),
        open_ended: is_open_ended(reported.state),
        blocks: blocks_told(reported, capacity),
    }
}

impl Trail {
    fn is_whole(self) -> bool
        ensures { result ≡ is_whole self }
    {
        match self {
            Trail::Whole => true,
            _ => false,
        }
    }

    fn is_lost(self) -> bool
        ensures { result ≡ is_lost self }
    {
        match self {
            Trail::Lost => true,
            _ => false,
        }
    }
}

impl Search {
    /// Nothing is found yet.
    fn new(alloc: Global) -> Search
        ensures { HoldsFinding result nothing_found }
    {
        Search {
            offset: 0,
            trail: Trail::Whole,
            floor: 0,
            doubt: 0,
            size: None,
            table: Vec::new(alloc),
        }
    }

    /// The search of a zone begins. An Offline one is one gap.
    fn begin(&mut self, zone: SoughtZone)
        ensures { (read : ReadZone) (finding : Finding) → IsSought zone read → HoldsFinding self.old finding
            → Holds self.new (begun read finding) }
    {
        self.offset = 0;
        self.floor = 0;
        self.trail = if zone.offline {
            Trail::Lost
        } else {
            Trail::Whole
        };
    }

    /// The search of a zone ends.
    fn end(&mut self)
        ensures { (place : Place) → Holds self.old place → HoldsFinding self.new (ended place) }
    {
        if self.trail.is_lost() {
            self.doubt = UNBOUNDED;
        }
    }

    /// Whether a header counts: after a gap, only if its sequence is above those that were met in the zone.
    fn follows(&self, sequence: u64) -> bool
        ensures { result ≡ (is_whole self.now.trail || nat_le self.now.floor sequence) }
    {
        self.trail.is_whole() || self.floor <= sequence
    }

    /// Passes a block that is lost.
    fn pass(&mut self)
        requires { self.old.offset + 1 < 2 ^ 32 }
        ensures holds { (place : Place) → Holds self.old place → Holds self.new (with_gap place) }
        ensures onward { self.old.offset < self.new.offset }
    {
        self.offset += 1;
        self.trail = Trail::Lost;
    }

    /// Passes a zero block.
    fn pass_zeros(&mut self)
        requires { self.old.offset + 1 < 2 ^ 32 }
        ensures holds { (place : Place) → Holds self.old place → Holds self.new (with_zeros place) }
        ensures onward { self.old.offset < self.new.offset }
    {
        self.offset += 1;
        if !self.trail.is_lost() {
            self.trail = Trail::Zeros;
        }
    }

    /// What can be missing after a torn tail.
    fn tail_doubt(&self, zone: SoughtZone, header: &HeaderView<'_>) -> u64
        ensures { (read : ReadZone) → IsSought zone read → result ≡ tail_doubt read self.now.doubt header.now }
    {
        if zone.open_ended {
            return self.doubt.max(header.sequence());
        }
        self.doubt
    }

    /// Passes what is left of a zone: a torn tail.
    fn pass_tail(&mut self, zone: SoughtZone, header: &HeaderView<'_>)
        requires { self.old.offset < zone.blocks }
        ensures holds { (read : ReadZone) (place : Place) → IsSought zone read → Holds self.old place
            → Holds self.new (with_tail read place header.now) }
        ensures onward { self.old.offset < self.new.offset }
    {
        self.doubt = self.tail_doubt(zone, header);
        self.offset = zone.blocks;
        if !self.trail.is_whole() {
            self.trail = Trail::Lost;
        }
    }

    /// Passes a header that counts, whose data do not fit.
    fn pass_short(&mut self, zone: SoughtZone, header: &HeaderView<'_>)
        requires in_range { self.old.offset < zone.blocks }
        requires small { zone.blocks < 2 ^ 32 }
        ensures holds { (read : ReadZone) (place : Place) → IsSought zone read → Holds self.old place
            → Holds self.new (short_of read place header.now) }
        ensures onward { self.old.offset < self.new.offset }
    {
        if zone.padded {
            self.pass();
            return;
        }
        self.pass_tail(zone, header);
    }

    /// Passes a block that is no header.
    fn pass_other(&mut self, zone: SoughtZone, is_zero: bool)
        requires in_range { self.old.offset < zone.blocks }
        requires small { zone.blocks < 2 ^ 32 }
        ensures holds { (read : ReadZone) (place : Place) → IsSought zone read → Holds self.old place
            → Holds self.new (after_other read place is_zero) }
        ensures onward { self.old.offset < self.new.offset }
    {
        if zone.padded && is_zero {
            self.pass_zeros();
            return;
        }
        self.pass();
    }

    /// What can be missing before a batch that is found.
    fn doubt_before(&self, sequence: u64) -> u64
        ensures { result ≡ doubt_before self.now.trail self.now.doubt sequence }
    {
        if self.trail.is_whole() {
            return self.doubt;
        }
        self.doubt.max(sequence)
    }

    /// Takes a batch, and goes on after it.
    fn take(&mut self, zone: SoughtZone, header: &HeaderView<'_>) -> Result<(), AllocError>
        requires fits { self.old.offset + 1 + data_count header.now.entries ≤ zone.blocks }
        requires small { zone.blocks < 2 ^ 32 }
        requires sequence { header.now.sequence < 2 ^ 63 }
        requires size { IsSmall header.now.size }
        ensures holds { OnOk result ((read : ReadZone) (place : Place) → Holds self.old place
            → Holds self.new (with_batch read zone.number place header.now)) }
        ensures onward { OnOk result (self.old.offset < self.new.offset) }
    {
        let place = HeaderPlace {
            zone: zone.number,
            offset: self.offset,
        };
        note_batch(&mut self.table, place, header)?;
        let sequence = header.sequence();
        self.size = larger(self.size, header.size());
        self.doubt = self.doubt_before(sequence);
        self.floor = self.floor.max(sequence + 1);
        self.offset = self.offset + 1 + header.data_blocks() as u32;
        self.trail = Trail::Whole;
        Ok(())
    }

    /// Looks at a header block.
    fn look_at_header(
        &mut self,
        zone: SoughtZone,
        header: &HeaderView<'_>,
    ) -> Result<(), AllocError>
        requires in_range { self.old.offset < zone.blocks }
        requires small { zone.blocks < 2 ^ 32 }
        requires size { IsSmall header.now.size }
        ensures holds { OnOk result ((read : ReadZone) (place : Place) → IsSought zone read → Holds self.old place
            → Holds self.new (after_header read zone.number place header.now)) }
        ensures onward { OnOk result (self.old.offset < self.new.offset) }
    {
        if !self.follows(header.sequence()) {
            self.pass();
            return Ok(());
        }
        if header.data_blocks() >= (zone.blocks - self.offset) as usize {
            self.pass_short(zone, header);
            return Ok(());
        }
        if header.sequence() >= UNBOUNDED {
            self.pass();
            return Ok(());
        }
        self.take(zone, header)
    }

    /// Looks at a block that was read.
    fn look_at(&mut self, zone: SoughtZone, block: &[u8]) -> Result<(), AllocError>
        requires in_range { self.old.offset < zone.blocks }
        requires small { zone.blocks < 2 ^ 32 }
        requires whole { head_size ≤ length block.now }
        requires short { length block.now < 2 ^ 32 }
        ensures holds { OnOk result ((read : ReadZone) (place : Place) → IsSought zone read → Holds self.old place
            → Holds self.new (after_reading read zone.number place (Some block.now))) }
        ensures onward { OnOk result (self.old.offset < self.new.offset) }
    {
        match read_header(block) {
            Ok(header) => self.look_at_header(zone, &header),
            Err(_) => {
                self.pass_other(zone, is_zero(block));
                Ok(())
            }
        }
    }
}

/// Reads the next block of a zone, and looks at it.
fn look<S: Source>(
    source: &mut S,
    zone: SoughtZone,
    search: &mut Search,
    block: &mut Vec<u8>,
) -> Result<(), Halt>
    requires range { IsInRange (S.view source.old).drive.geometry }
    requires zone { IsSoughtIn (S.view source.old) zone }
    requires in_range { search.old.offset < zone.blocks }
    ensures ok { OnOk result ((finding : Finding) (end : ℕ)
        → IsSought zone (cut (zone_with (read_zones (S.view source.new).drive) zone.number) end)
        → GetsIn (S.view source.new) zone.number end finding search.old
        → GetsIn (S.view source.new) zone.number end finding search.new) }
    ensures onward { OnOk result (search.old.offset < search.new.offset) }
    ensures kept { KeepsSource (S.view source.old) (S.view source.new) }
{
    match read_again(source, zone.number, search.offset, block)? {
        Reading::Held => search.look_at(zone, block)?,
        Reading::Unreadable => search.pass(),
    }
    Ok(())
}

/// Whether a block of a zone can be read, and is zeros.
fn reads_zeros<S: Source>(
    source: &mut S,
    number: u32,
    offset: u32,
    block: &mut Vec<u8>,
) -> Result<bool, Halt>
    requires range { IsInRange (S.view source.old).drive.geometry }
    requires there { offset < length (zone_with (read_zones (S.view source.old).drive) number).blocks }
    ensures ok { IfOk result (SaysZero (S.view source.new) number offset) }
    ensures kept { KeepsSource (S.view source.old) (S.view source.new) }
{
    match read_again(source, number, offset, block)? {
        Reading::Held => Ok(is_zero(block)),
        Reading::Unreadable => Ok(false),
    }
}

/// Where an open-ended zone ends: after its last block that is not zeros, or that cannot be read.
fn written_end<S: Source>(
    source: &mut S,
    zone: SoughtZone,
    block: &mut Vec<u8>,
) -> Result<u32, Halt>
    requires range { IsInRange (S.view source.old).drive.geometry }
    requires lawful { IsLawful (S.view source.old).drive }
    requires zone { IsSought zone (zone_with (read_zones (S.view source.old).drive) zone.number) }
    ensures ok { IfOk result (EndsAt (S.view source.new).damaged
        (zone_with (read_zones (S.view source.new).drive) zone.number) zone.number) }
    ensures kept { KeepsSource (S.view source.old) (S.view source.new) }
{
    let mut end = zone.blocks;
    while end > 0 {
        if !reads_zeros(source, zone.number, end - 1, block)? {
            return Ok(end);
        }
        end -= 1;
    }
    Ok(0)
}

/// A zone up to where it ends.
fn cut<S: Source>(source: &mut S, zone: SoughtZone, block: &mut Vec<u8>) -> Result<SoughtZone, Halt>
    requires range { IsInRange (S.view source.old).drive.geometry }
    requires lawful { IsLawful (S.view source.old).drive }
    requires zone { IsSought zone (zone_with (read_zones (S.view source.old).drive) zone.number) }
    ensures ok { IfOk result (IsSoughtIn (S.view source.new)) }
    ensures number { IfOk result (λ sought. sought.number ≡ zone.number) }
    ensures kept { KeepsSource (S.view source.old) (S.view source.new) }
{
    if !zone.open_ended {
        return Ok(zone);
    }
    let end = written_end(source, zone, block)?;
    Ok(SoughtZone {
        number: zone.number,
        offline: zone.offline,
        padded: false,
        open_ended: true,
        blocks: end,
    })
}

/// Searches a zone for batches, from its first block to its end.
fn search_zone<S: Source>(
    source: &mut S,
    zone: SoughtZone,
    search: &mut Search,
    block: &mut Vec<u8>,
) -> Result<(), Halt>
    requires range { IsInRange (S.view source.old).drive.geometry }
    requires lawful { IsLawful (S.view source.old).drive }
    requires zone { IsSoughtIn (S.view source.old) zone }
    ensures ok { OnOk result ((finding : Finding) → HoldsFinding search.old finding
        → HoldsZone (S.view source.new) zone.number finding search.new) }
    ensures kept { KeepsSource (S.view source.old) (S.view source.new) }
{
    search.begin(zone);
    while search.offset < zone.blocks {
        look(source, zone, search, block)?;
    }
    search.end();
    Ok(())
}

/// Searches all zones, in ascending order.
pub(crate) fn search_zones<S: Source>(
    alloc: Global,
    source: &mut S,
    zones: &[ReportedZone],
) -> Result<Search, Halt>
    requires range { IsInRange (S.view source.old).drive.geometry }
    requires zones { TellsAll (S.view source.old).drive.geometry.capacity (read_zones (S.view source.old).drive)
        zones.now }
    ensures ok { IfOk result (λ search. (finding : Finding) × Searched (S.view source.new).damaged
        (read_zones (S.view source.new).drive) (length zones.now) finding × HoldsFinding search finding) }
    ensures kept { KeepsSource (S.view source.old) (S.view source.new) }
{
    let capacity = source.geometry().capacity;
    let mut block = Vec::new(alloc);
    let mut search = Search::new(alloc);
    for (number, reported) in zones.iter().enumerate() {
        let zone = cut(
            source,
            sought(number as u32, *reported, capacity),
            &mut block,
        )?;
        search_zone(source, zone, &mut search, &mut block)?;
    }
    Ok(search)
}
