ghost use Rattle.std.specs.Prelude.{◌≡◌, ◌<◌, ◌≤◌, IfErr, OnErr, OnOk, length, slice_set, true};
ghost use Rattle.file_drive.specs.Layout.{SamePlaces};
ghost use Rattle.file_drive.specs.InFile.{flushed_at, is_apart, is_summed};

use crate::boot::{Boot, System};
use crate::entry::Entry;
use crate::freed::Freed;
use crate::layout::at_table;
use crate::words::put_word;
use drive_port::Halt;
use file_bytes::FileBytes;
use std::marker::Model;
use zone_drive::{HasState, Resources};
use zone_states::{Geometry, ZoneState};

impl HasState for Entry {
    ghost state = { λ e. e.state };

    fn state(&self) -> ZoneState {
        self.state
    }
}

/// The zones of a drive in a file. Memory grows with the zones, not with their blocks.
#[derive(Drop)]
pub struct FileZones<F: FileBytes + Drop, S: System + Drop> {
    pub(crate) file: F,
    pub(crate) system: S,
    pub(crate) geometry: Geometry,
    /// What is known of each zone.
    pub(crate) entries: Vec<Entry>,
    pub(crate) resources: Resources,
    /// The boot that the head names: this one, until a sync fails.
    pub(crate) named: Boot,
    /// The live table that is picked: 0 or 1.
    pub(crate) live: u64,
    /// The words of the other live table.
    pub(crate) spare: Vec<u64>,
    /// The flushed table that is picked: 2 or 3.
    pub(crate) flushed: u64,
    /// The words of that table, and of the other flushed one.
    pub(crate) safe: Vec<u64>,
    pub(crate) other: Vec<u64>,
    /// Whether a call on the file has failed. Then the file is used no more.
    pub(crate) failed: bool,
    /// Whether it failed while a flush picked its table. Then a loss of power may leave either
    /// flushed table picked.
    pub(crate) unsure: bool,
    /// Zones from which a Reset took blocks. The next flush gives their room back to the file
    /// system.
    pub(crate) freed: Freed,
}

impl<F: FileBytes + Drop, S: System + Drop> Model for FileZones<F, S> {
    ghost use Rattle.std.specs.Prelude.{◌≡◌, ◌≤◌, false, length, IsTrue};
    ghost use Rattle.zone_states.specs.Geometry.{IsInRange};
    ghost use Rattle.zone_drive.specs.Groups.{IsCounted};
    ghost use Rattle.file_drive.specs.InFile.{AllDurable, AreApart, AreWithin, AreWords, FiledZones, IsOwned};
    ghost use Rattle.file_drive.specs.InFile.{IsServed};
    ghost use Rattle.file_drive.specs.InFile.{KeepsPromise, durable_zones};

    ghost Value = { FiledZones F };

    ghost view = { λ z. record {
      shape = z.geometry;
      file = z.file;
      entries = z.entries.items;
      safe = z.safe.items;
      durable = durable_zones z.geometry (F.seen z.file) z.safe.items z.other.items z.unsure;
    } };

    ghost invariant = { λ z. IsInRange z.geometry × (length z.entries.items ≡ z.geometry.zones)
        × AreWithin z.geometry z.entries.items
        × IsCounted (λ entry. entry.state) z.entries.items z.resources
        × IsServed z.geometry z.named (F.seen z.file) z.entries.items z.live z.flushed
        (record { spare = z.spare.items; safe = z.safe.items; other = z.other.items })
        × AreWords z.geometry z.safe.items
        × (z.failed ≡ false → IsTrue (F.is_usable z.file)
        × KeepsPromise F.seen F.may_leave z.geometry z.file z.flushed z.safe.items)
        × AllDurable F.may_leave z.geometry z.file
        (durable_zones z.geometry (F.seen z.file) z.safe.items z.other.items z.unsure)
        × AreApart z.safe.items z.entries.items
        × (z.failed ≡ false → z.unsure ≡ false)
        × IsOwned F.may_show F.is_usable F.is_stuck z.geometry S.boot z.named
        (durable_zones z.geometry (F.seen z.file) z.safe.items z.other.items z.unsure) z.file };
}

impl<F: FileBytes + Drop, S: System + Drop> FileZones<F, S> {
    /// Notes that a call on the file has failed, so that the file is used no more.
    fn fail(&mut self) -> Halt
        ensures halt { result ≡ Halt.Stopped }
        ensures same { self.new ≡ self.old }
    {
        self.failed = true;
        Halt::Stopped
    }

    /// Replaces the entry of a zone, and writes its word to the live table if the word changes.
    pub(crate) fn put(&mut self, index: usize, entry: Entry) -> Result<(), Halt>
        requires in_range { index < length self.old.entries }
        requires within { entry.written ≤ self.old.shape.capacity }
        requires apart { is_apart (flushed_at self.old.safe index) entry ≡ true }
        requires summed { is_summed self.old.shape (F.seen self.old.file) index (flushed_at self.old.safe index) entry
            ≡ true }
        ensures shape { self.new.shape ≡ self.old.shape }
        ensures ok { OnOk result (self.new.entries ≡ slice_set self.old.entries index entry) }
        ensures err { OnErr result (self.new.entries ≡ self.old.entries) }
        ensures only { IfErr result (λ halt. halt ≡ Halt.Stopped) }
        ensures zones { SamePlaces self.old.shape (F.seen self.old.file) (F.seen self.new.file) }
        ensures durable { self.new.durable ≡ self.old.durable }
    {
        if self.failed {
            return Err(Halt::Stopped);
        }
        let before = self.entries[index];
        let at = at_table(&self.geometry, self.live) + 8 * index as u64;
        if put_word(&mut self.file, at, before.word(), entry.word()).is_err() {
            return Err(self.fail());
        }
        self.entries[index] = entry;
        self.resources.follow(&self.entries, index, before.state);
        Ok(())
    }
}
