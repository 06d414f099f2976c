ghost use Rattle.std.specs.Prelude.{◌≡◌};
ghost use Rattle.file_drive.specs.InFile.{filed};

use crate::boot::System;
use crate::entry::Entry;
use crate::layout::at_place;
use crate::zones::FileZones;
use file_bytes::FileBytes;
use zone_states::ZoneState;

impl<F: FileBytes + Drop, S: System + Drop> FileZones<F, S> {
    /// Notes a zone from which a Reset took blocks.
    pub(crate) fn note_freed(&mut self, index: usize, is_freed: bool)
        ensures { self.new ≡ self.old }
    {
        if is_freed {
            self.freed.note(index);
        }
    }

    /// Gives the room of one of the two places of a zone back to the file system. It does nothing
    /// if the zone or the last flush has a block there.
    fn release_place(&mut self, index: usize, second: bool)
        ensures shape { self.new.shape ≡ self.old.shape }
        ensures zones { filed F.seen self.new ≡ filed F.seen self.old }
        ensures durable { self.new.durable ≡ self.old.durable }
    {
        if self.failed || index >= self.entries.len() {
            return;
        }
        let free = Entry {
            state: ZoneState::Empty,
            written: 0,
            second,
            sum: 0,
        };
        let flushed = Entry::of_word(self.safe[index]);
        let entry = self.entries[index];
        if !free.is_apart(entry) || !free.is_apart(flushed) {
            return;
        }
        let at = at_place(&self.geometry, free.place(index as u32));
        let room = u64::from(self.geometry.capacity) * u64::from(self.geometry.block);
        self.file.release(at, room);
    }

    /// The same of both places.
    fn release_zone(&mut self, index: usize)
        ensures shape { self.new.shape ≡ self.old.shape }
        ensures zones { filed F.seen self.new ≡ filed F.seen self.old }
        ensures durable { self.new.durable ≡ self.old.durable }
    {
        self.release_place(index, false);
        self.release_place(index, true);
    }

    /// The same of all zones.
    fn release_all(&mut self)
        ensures shape { self.new.shape ≡ self.old.shape }
        ensures zones { filed F.seen self.new ≡ filed F.seen self.old }
        ensures durable { self.new.durable ≡ self.old.durable }
    {
        for index in 0..self.geometry.zones as usize {
            self.release_zone(index);
        }
    }

    /// Gives the room of the noted zones back, wherever neither the zone nor the last flush has a
    /// block.
    pub(crate) fn release_freed(&mut self)
        ensures shape { self.new.shape ≡ self.old.shape }
        ensures zones { filed F.seen self.new ≡ filed F.seen self.old }
        ensures durable { self.new.durable ≡ self.old.durable }
    {
        if self.freed.take_all() {
            self.release_all();
            return;
        }
        for _ in 0..self.freed.len() {
            let Some(index) = self.freed.take() else {
                return;
            };
            self.release_zone(index);
        }
    }
}
