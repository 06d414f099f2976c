ghost use Rattle.std.specs.Prelude.{◌≡◌, ◌+◌, ◌*◌, ◌<◌, ◌≤◌, ◌++◌, List, ℕ, IsErrOf, OnErr, OnOk, drop, length};
ghost use Rattle.zone_drive.specs.Stored.{with_zeros};
ghost use Rattle.zone_drive.specs.Table.{stored_at};
ghost use Rattle.file_drive.specs.InFile.{filed};
ghost use Rattle.file_drive.specs.Layout.{part};

use crate::boot::System;
use crate::layout::at_place;
use crate::zones::FileZones;
use drive_port::Halt;
use file_bytes::FileBytes;

/// Puts bytes of the file after what `into` holds, and zeros where there are fewer than asked for. Where memory is
/// missing the file is not called. Where the file cannot be read, it has failed.
fn read_with_zeros<F: FileBytes>(
    file: &mut F,
    at: u64,
    count: usize,
    len: usize,
    into: &mut Vec<u8>,
) -> Result<(), Halt>
    requires within { at + count ≤ length (F.FileBytes.seen file.old) }
    requires few { count ≤ len }
    ensures ok { OnOk result (into.new.items
        ≡ into.old.items ++ with_zeros len (part (F.FileBytes.seen file.old) at count)) }
    ensures err { OnErr result (into.new.items ≡ into.old.items) }
    ensures memory { IsErrOf result Halt.Memory → file.new ≡ file.old }
    ensures goes_on { IsErrOf result Halt.Stopped → ⊥ }
    ensures seen { F.FileBytes.seen file.new ≡ F.FileBytes.seen file.old }
    ensures leaves { (c : List ℕ) → F.FileBytes.may_leave file.new c → F.FileBytes.may_leave file.old c }
    ensures shows { (c : List ℕ) → F.FileBytes.may_show file.new c → F.FileBytes.may_show file.old c }
    ensures usable { F.FileBytes.is_usable file.new ≡ F.FileBytes.is_usable file.old }
    ensures stuck { F.FileBytes.is_stuck file.new ≡ F.FileBytes.is_stuck file.old }
{
    let held = into.len();
    let Some(total) = held.checked_add(len) else {
        return Err(Halt::Memory);
    };
    into.resize(total, 0)?;
    if file.read(at, &mut into[held..held + count]).is_err() {
        into.truncate(held);
        return Err(Halt::Failed);
    }
    Ok(())
}

impl<F: FileBytes + Drop, S: System + Drop> FileZones<F, S> {
    /// How many bytes of a zone are written.
    pub(crate) fn length_of(&self, index: usize) -> usize
        requires { index < length (filed F.seen self.now) }
        ensures { result ≡ length (stored_at (filed F.seen self.now) index).bytes }
    {
        self.entries[index].written as usize * self.geometry.block as usize
    }

    /// Puts that many bytes of a zone, from an offset in it on, after what `into` holds: zeros where nothing is
    /// written.
    pub(crate) fn read_zone(
        &mut self,
        index: usize,
        from: usize,
        len: usize,
        into: &mut Vec<u8>,
    ) -> Result<(), Halt>
        requires { index < length (filed F.seen self.old) }
        ensures shape { self.new.shape ≡ self.old.shape }
        ensures zones { filed F.seen self.new ≡ filed F.seen self.old }
        ensures ok { OnOk result (into.new.items
            ≡ into.old.items ++ with_zeros len (drop from (stored_at (filed F.seen self.old) index).bytes)) }
        ensures err { OnErr result (into.new.items ≡ into.old.items) }
        ensures memory { IsErrOf result Halt.Memory → self.new ≡ self.old }
        ensures goes_on { IsErrOf result Halt.Stopped → ⊥ }
        ensures durable { self.new.durable ≡ self.old.durable }
    {
        let written = self.length_of(index);
        let from = from.min(written);
        let count = len.min(written - from);
        let place = self.entries[index].place(index as u32);
        let at = at_place(&self.geometry, place) + from as u64;
        read_with_zeros(&mut self.file, at, count, len, into)?;
        Ok(())
    }
}
