use crate::boot::System;
use crate::zones::FileZones;
use drive_port::Halt;
use file_bytes::FileBytes;
use std::alloc::AllocError;
use zone_drive::HeldZones;
use zone_states::{Action, ZoneState};

impl<F: FileBytes + Drop, S: System + Drop> HeldZones for FileZones<F, S> {
    ghost use Rattle.std.specs.Prelude.{true};
    ghost use Rattle.file_drive.specs.InFile.{filed};

    ghost shape = { λ z. z.shape };

    ghost stored = { λ z. filed F.seen z };

    ghost durable = { λ z. z.durable };

    ghost may_stop = { true };

    fn state(&self, index: usize) -> ZoneState {
        self.entries[index].state
    }

    fn written(&self, index: usize) -> usize {
        self.length_of(index)
    }

    fn active_zones(&self) -> u32 {
        self.resources.active_zones
    }

    fn open_zones(&self) -> u32 {
        self.resources.open_zones
    }

    fn lowest_implicit(&self) -> Option<usize> {
        self.resources.lowest_implicit(&self.entries)
    }

    fn read(
        &mut self,
        index: usize,
        from: usize,
        len: usize,
        into: &mut Vec<u8>,
    ) -> Result<(), Halt> {
        self.read_zone(index, from, len, into)
    }

    /// The file has room for all blocks.
    fn reserve(&mut self, _index: usize, _bytes: usize) -> Result<(), AllocError> {
        Ok(())
    }

    fn write(&mut self, index: usize, bytes: &[u8]) -> Result<(), Halt> {
        self.append(index, bytes)
    }

    fn apply(&mut self, index: usize, action: Action) -> Result<(), Halt> {
        self.act(index, action)
    }

    fn apply_to_all(&mut self, action: Action) -> Result<(), Halt> {
        self.act_on_all(action)
    }

    fn close(&mut self, closing: Option<usize>) {
        if let Some(low) = closing {
            self.close_one(low);
        }
    }

    /// It looks at the counts of the groups, and at the zones of the groups that have such a zone.
    fn close_implicit(&mut self) {
        while let Some(low) = self.lowest_implicit() {
            self.close_one(low);
        }
    }

    fn flush(&mut self) -> Result<(), Halt> {
        self.flush_all()?;
        self.release_freed();
        Ok(())
    }
}
