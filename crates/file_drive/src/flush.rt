ghost use Rattle.std.specs.Prelude.{◌≡◌, IfErr, OnOk};
ghost use Rattle.zone_drive.specs.Held.{DurableJust, DurableOrNow};
ghost use Rattle.file_drive.specs.InFile.{IsReady, filed};
ghost use Rattle.file_drive.specs.Layout.{SamePlaces};

use crate::boot::System;
use crate::layout::{AT_FLUSHED, at_table};
use crate::syncing::sync_file;
use crate::words::write_words;
use crate::zones::FileZones;
use drive_port::Halt;
use file_bytes::FileBytes;
use std::mem::swap;

impl<F: FileBytes + Drop, S: System + Drop> FileZones<F, S> {
    /// Writes the words of the zones to the flushed table that is not picked, and syncs the file.
    fn write_other(&mut self) -> Result<(), Halt>
        ensures shape { self.new.shape ≡ self.old.shape }
        ensures entries { self.new.entries ≡ self.old.entries }
        ensures only { IfErr result (λ halt. halt ≡ Halt.Stopped) }
        ensures zones { SamePlaces self.old.shape (F.seen self.old.file) (F.seen self.new.file) }
        ensures ready { OnOk result (IsReady F.seen F.may_leave self.new) }
        ensures durable { self.new.durable ≡ self.old.durable }
    {
        if self.failed {
            return Err(Halt::Stopped);
        }
        let at = at_table(&self.geometry, 5 - self.flushed);
        let written = write_words(
            &mut self.file,
            at,
            &mut self.other,
            &self.entries,
            &self.safe,
            None,
        );
        if written.is_err() {
            self.failed = true;
            return Err(Halt::Stopped);
        }
        match sync_file(&mut self.file, &mut self.named) {
            Ok(()) => Ok(()),
            Err(_) => {
                self.failed = true;
                Err(Halt::Stopped)
            }
        }
    }

    /// Writes the words of the zones to both tables that are not picked, and syncs the file. So no word of a live table
    /// is older than the flush.
    fn write_both(&mut self) -> Result<(), Halt>
        ensures shape { self.new.shape ≡ self.old.shape }
        ensures entries { self.new.entries ≡ self.old.entries }
        ensures only { IfErr result (λ halt. halt ≡ Halt.Stopped) }
        ensures zones { SamePlaces self.old.shape (F.seen self.old.file) (F.seen self.new.file) }
        ensures ready { OnOk result (IsReady F.seen F.may_leave self.new) }
        ensures durable { self.new.durable ≡ self.old.durable }
    {
        let _ = &self.file;
        self.write_spare(None)?;
        self.write_other()?;
        Ok(())
    }

    /// Picks that table, and syncs the file. If that fails, a loss of power may leave either table picked.
    fn pick_other(&mut self) -> Result<(), Halt>
        requires { IsReady F.seen F.may_leave self.old }
        ensures shape { self.new.shape ≡ self.old.shape }
        ensures entries { self.new.entries ≡ self.old.entries }
        ensures only { IfErr result (λ halt. halt ≡ Halt.Stopped) }
        ensures zones { SamePlaces self.old.shape (F.seen self.old.file) (F.seen self.new.file) }
        ensures just { OnOk result (DurableJust (filed F.seen self.old) self.new.durable) }
        ensures durable { DurableOrNow (filed F.seen self.old) self.old.durable self.new.durable }
    {
        if self.failed {
            return Err(Halt::Stopped);
        }
        let other = 5 - self.flushed;
        if self.file.write_word(AT_FLUSHED, other - 2).is_err() {
            self.failed = true;
            self.unsure = true;
            return Err(Halt::Stopped);
        }
        swap(&mut self.safe, &mut self.other);
        self.flushed = other;
        match sync_file(&mut self.file, &mut self.named) {
            Ok(()) => Ok(()),
            Err(_) => {
                self.failed = true;
                self.unsure = true;
                Err(Halt::Stopped)
            }
        }
    }

    /// Makes sure that an open after a loss of power finds the zones as they are.
    pub(crate) fn flush_all(&mut self) -> Result<(), Halt>
        ensures shape { self.new.shape ≡ self.old.shape }
        ensures entries { self.new.entries ≡ self.old.entries }
        ensures only { IfErr result (λ halt. halt ≡ Halt.Stopped) }
        ensures zones { SamePlaces self.old.shape (F.seen self.old.file) (F.seen self.new.file) }
        ensures same { filed F.seen self.new ≡ filed F.seen self.old }
        ensures just { OnOk result (DurableJust (filed F.seen self.old) self.new.durable) }
        ensures durable { DurableOrNow (filed F.seen self.old) self.old.durable self.new.durable }
    {
        let _ = &self.file;
        self.write_both()?;
        self.pick_other()?;
        Ok(())
    }
}
