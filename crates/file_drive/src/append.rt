ghost use Rattle.std.specs.Prelude.{◌≡◌, ◌+◌, ◌*◌, ◌<◌, ◌≤◌, IfErr, OnOk, length};
ghost use Rattle.file_drive.specs.InFile.{KeepsOthers, entry_at};
ghost use Rattle.file_drive.specs.Layout.{at_place, part};
ghost use Rattle.file_drive.specs.Tables.{place_of};

use crate::boot::System;
use crate::layout::at_place;
use crate::zones::FileZones;
use drive_port::Halt;
use file_bytes::FileBytes;

impl<F: FileBytes + Drop, S: System + Drop> FileZones<F, S> {
    /// Writes bytes behind the written ones of a zone, in its place. No table counts them yet, nor did the last flush.
    pub(crate) fn write_data(&mut self, index: usize, bytes: &[u8]) -> Result<(), Halt>
        requires in_range { index < length self.old.entries }
        requires room { (entry_at self.old.entries index).written * self.old.shape.block + length bytes.now
            ≤ self.old.shape.capacity * self.old.shape.block }
        ensures shape { self.new.shape ≡ self.old.shape }
        ensures entries { self.new.entries ≡ self.old.entries }
        ensures only { IfErr result (λ halt. halt ≡ Halt.Stopped) }
        ensures data { let entry = entry_at self.old.entries index in
            OnOk result (part (F.seen self.new.file) (at_place self.old.shape (place_of index entry)
            + entry.written * self.old.shape.block) (length bytes.now) ≡ bytes.now) }
        ensures others { let entry = entry_at self.old.entries index in
            KeepsOthers self.old.shape (place_of index entry) entry.written (F.seen self.old.file)
            (F.seen self.new.file) }
        ensures safe { self.new.safe ≡ self.old.safe }
        ensures durable { self.new.durable ≡ self.old.durable }
    {
        if self.failed {
            return Err(Halt::Stopped);
        }
        let entry = self.entries[index];
        let place = entry.place(index as u32);
        let written = u64::from(entry.written);
        let at = at_place(&self.geometry, place) + written * u64::from(self.geometry.block);
        if self.file.write(at, bytes).is_err() {
            self.failed = true;
            return Err(Halt::Stopped);
        }
        Ok(())
    }
}
