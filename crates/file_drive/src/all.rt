ghost use Rattle.std.specs.Prelude.{◌≡◌, IfErr, OnErr, OnOk, Some, map};
ghost use Rattle.zone_drive.specs.Table.{sent_stored};
ghost use Rattle.file_drive.specs.InFile.{IsSpared, filed};
ghost use Rattle.file_drive.specs.Tables.{next_entries};
ghost use Rattle.file_drive.specs.Layout.{SamePlaces};

use crate::boot::System;
use crate::entry::send_to_each;
use crate::layout::{AT_LIVE, at_table};
use crate::words::{note_words, write_words};
use crate::zones::FileZones;
use drive_port::Halt;
use file_bytes::FileBytes;
use zone_drive::Resources;
use zone_states::Action;

impl<F: FileBytes + Drop, S: System + Drop> FileZones<F, S> {
    /// Writes the words that the zones have after an action on all of them or, without one, now, in the live table that
    /// is not picked.
    pub(crate) fn write_spare(&mut self, action: Option<Action>) -> Result<(), Halt>
        ensures shape { self.new.shape ≡ self.old.shape }
        ensures entries { self.new.entries ≡ self.old.entries }
        ensures only { IfErr result (λ halt. halt ≡ Halt.Stopped) }
        ensures zones { SamePlaces self.old.shape (F.seen self.old.file) (F.seen self.new.file) }
        ensures safe { self.new.safe ≡ self.old.safe }
        ensures spared { OnOk result (IsSpared F.seen action self.new) }
        ensures durable { self.new.durable ≡ self.old.durable }
    {
        if self.failed {
            return Err(Halt::Stopped);
        }
        let at = at_table(&self.geometry, 1 - self.live);
        let written = write_words(
            &mut self.file,
            at,
            &mut self.spare,
            &self.entries,
            &self.safe,
            action,
        );
        if written.is_err() {
            self.failed = true;
            return Err(Halt::Stopped);
        }
        Ok(())
    }

    /// Picks that table.
    fn pick_spare(&mut self, action: Action) -> Result<(), Halt>
        requires { IsSpared F.seen (Some action) self.old }
        ensures shape { self.new.shape ≡ self.old.shape }
        ensures ok { OnOk result (self.new.entries
            ≡ next_entries (Some action) self.old.safe self.old.entries) }
        ensures err { OnErr result (self.new.entries ≡ self.old.entries) }
        ensures only { IfErr result (λ halt. halt ≡ Halt.Stopped) }
        ensures zones { SamePlaces self.old.shape (F.seen self.old.file) (F.seen self.new.file) }
        ensures durable { self.new.durable ≡ self.old.durable }
    {
        if self.failed {
            return Err(Halt::Stopped);
        }
        if self.file.write_word(AT_LIVE, 1 - self.live).is_err() {
            self.failed = true;
            return Err(Halt::Stopped);
        }
        note_words(&mut self.spare, &self.entries);
        send_to_each(&mut self.entries, &self.safe, action);
        self.live = 1 - self.live;
        self.resources = Resources::of(&self.entries);
        self.freed.note_after(action);
        Ok(())
    }

    /// Does an action on all zones, or on none.
    pub(crate) fn act_on_all(&mut self, action: Action) -> Result<(), Halt>
        ensures shape { self.new.shape ≡ self.old.shape }
        ensures ok { OnOk result (filed F.seen self.new ≡ map (sent_stored action) (filed F.seen self.old)) }
        ensures err { OnErr result (filed F.seen self.new ≡ filed F.seen self.old) }
        ensures only { IfErr result (λ halt. halt ≡ Halt.Stopped) }
        ensures durable { self.new.durable ≡ self.old.durable }
    {
        let _ = &self.file;
        self.write_spare(Some(action))?;
        self.pick_spare(action)?;
        Ok(())
    }
}
