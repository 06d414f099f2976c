ghost use Rattle.std.specs.Prelude.{◌≡◌, ◌<◌, ◌≤◌, IfErr, None, OnErr, OnOk, length, slice_set};
ghost use Rattle.zone_states.specs.Checks.{first_failing};
ghost use Rattle.zone_states.specs.Stored.{stored_write, zone_stored};
ghost use Rattle.zone_states.specs.Writing.{append_bytes_checks};
ghost use Rattle.zone_drive.specs.Table.{sent_in, stored_at};
ghost use Rattle.file_drive.specs.InFile.{filed};

use crate::boot::System;
use crate::entry::Entry;
use crate::sums::sum_of;
use crate::zones::FileZones;
use drive_port::Halt;
use file_bytes::FileBytes;
use zone_states::Action;

impl<F: FileBytes + Drop, S: System + Drop> FileZones<F, S> {
    /// Writes bytes after a zone's, as a Write or an Append does that passed its checks.
    pub(crate) fn append(&mut self, index: usize, bytes: &[u8]) -> Result<(), Halt>
        requires in_range { index < length (filed F.seen self.old) }
        requires checks { None ≡ first_failing (append_bytes_checks self.old.shape
            (zone_stored self.old.shape.block (stored_at (filed F.seen self.old) index)) bytes.now) }
        ensures shape { self.new.shape ≡ self.old.shape }
        ensures ok { OnOk result (filed F.seen self.new ≡ slice_set (filed F.seen self.old) index
            (stored_write self.old.shape (stored_at (filed F.seen self.old) index) bytes.now)) }
        ensures err { OnErr result (filed F.seen self.new ≡ filed F.seen self.old) }
        ensures only { IfErr result (λ halt. halt ≡ Halt.Stopped) }
        ensures durable { self.new.durable ≡ self.old.durable }
    {
        let block = self.geometry.block as usize;
        let blocks = bytes.len() / block;
        let before = self.entries[index];
        let sum = sum_of(block, blocks, before.sum, bytes);
        let entry = before.appended(&self.geometry, blocks as u32, sum);
        self.write_data(index, bytes)?;
        self.put(index, entry)?;
        Ok(())
    }

    /// Does an action on one zone. A Reset moves it out of a place where the last flush has blocks of it. The room of
    /// the blocks that it takes comes back at a flush.
    pub(crate) fn act(&mut self, index: usize, action: Action) -> Result<(), Halt>
        requires { index < length (filed F.seen self.old) }
        ensures shape { self.new.shape ≡ self.old.shape }
        ensures ok { OnOk result (filed F.seen self.new ≡ sent_in (filed F.seen self.old) index action) }
        ensures err { OnErr result (filed F.seen self.new ≡ filed F.seen self.old) }
        ensures only { IfErr result (λ halt. halt ≡ Halt.Stopped) }
        ensures durable { self.new.durable ≡ self.old.durable }
    {
        let flushed = Entry::of_word(self.safe[index]);
        let before = self.entries[index];
        let entry = before.acted(action, flushed);
        self.put(index, entry)?;
        self.note_freed(index, entry.written < before.written);
        Ok(())
    }

    /// Closes a zone, as a restart does, so that its word stays. A zone that is not open stays as it is.
    pub(crate) fn close_one(&mut self, index: usize)
        requires { index < length (filed F.seen self.old) }
        ensures shape { self.new.shape ≡ self.old.shape }
        ensures closed { filed F.seen self.new ≡ sent_in (filed F.seen self.old) index Action.Close }
        ensures durable { self.new.durable ≡ self.old.durable }
    {
        let before = self.entries[index];
        self.entries[index] = before.acted(Action::Close, Entry::of_word(self.safe[index]));
        self.resources.follow(&self.entries, index, before.state);
    }
}
