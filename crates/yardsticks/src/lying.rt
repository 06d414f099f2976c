//! A device that lies at one Read.

ghost use Rattle.std.specs.Prelude.{◌≡◌, ◌≤◌, false, length, take, true};
ghost use Rattle.nvme_wire.specs.Entry.{decode_of};
ghost use Rattle.drive_port.specs.Step.{is_read};
ghost use Rattle.yardsticks.specs.Lying.{told_by};

use drive_port::{Device, Geometry, Halt, Honest};
use nvme_wire::Command;

/// Returns bytes of its own at one Read, in the place of those that the device within holds. All else is as the device
/// within has it.
#[derive(Drop)]
pub struct LyingDevice<D: Device + Honest + Drop> {
    device: D,
    /// How many Reads are answered before that one.
    before: u64,
    /// What it returns there, if as many bytes were asked for.
    instead: Vec<u8>,
    /// Whether other bytes were returned than are held.
    lied: bool,
}

/// Whether an entry is that of a Read.
fn reads(entry: &[u8; 64]) -> bool
    ensures { result ≡ is_read (decode_of entry.now) }
{
    match Command::decode(entry) {
        Ok(Command::Read { .. }) => true,
        _ => false,
    }
}

impl<D: Device + Honest + Drop> LyingDevice<D> {
    /// A device that returns `instead` at the Read that comes after so many.
    pub fn new(device: D, before: u64, instead: Vec<u8>) -> Self
        ensures within { result.device ≡ device }
        ensures true_so_far { result.lied ≡ false }
    {
        LyingDevice {
            device,
            before,
            instead,
            lied: false,
        }
    }

    /// Whether it has lied.
    pub fn has_lied(&self) -> bool
        ensures { result ≡ self.now.lied }
    {
        self.lied
    }

    /// The device within.
    pub fn into_inner(self) -> D
        ensures { result ≡ self.device }
    {
        self.device
    }

    /// Returns these bytes of a Read, or others.
    fn tell(&mut self, bytes: &mut [u8])
        ensures device { self.new.device ≡ self.old.device }
        ensures long { length bytes.new ≡ length bytes.old }
        // It has lied exactly where the bytes are others.
        ensures told { self.new.lied ≡ false → bytes.new ≡ bytes.old }
        ensures before { self.new.lied ≡ false → self.old.lied ≡ false }
        ensures fair { bytes.new ≡ bytes.old → self.new.lied ≡ self.old.lied }
    {
        if self.before > 0 {
            self.before -= 1;
            return;
        }
        self.before = u64::MAX;
        if bytes.len() != self.instead.len() || *bytes == *self.instead {
            return;
        }
        bytes.copy_from_slice(&self.instead);
        self.lied = true;
    }

    /// The same of the bytes after the first ones that a buffer holds.
    fn tell_after(&mut self, into: &mut Vec<u8>, held: usize)
        requires held { held ≤ length into.old.items }
        ensures device { self.new.device ≡ self.old.device }
        ensures long { length into.new.items ≡ length into.old.items }
        ensures kept { take held into.new.items ≡ take held into.old.items }
        ensures told { self.new.lied ≡ false → into.new.items ≡ into.old.items }
        ensures before { self.new.lied ≡ false → self.old.lied ≡ false }
        ensures fair { into.new.items ≡ into.old.items → self.new.lied ≡ self.old.lied }
    {
        let (_, told) = into.split_at_mut(held);
        self.tell(told);
    }
}

impl<D: Device + Honest + Drop> Device for LyingDevice<D> {
    ghost drive = { λ l. told_by (D.drive l.device) l.lied };

    fn geometry(&self) -> Geometry {
        self.device.geometry()
    }

    fn completed(&self) -> u64 {
        self.device.completed()
    }

    fn stopped(&self) -> bool {
        self.device.stopped()
    }

    fn submit(
        &mut self,
        entry: &[u8; 64],
        bytes: &[u8],
        into: &mut Vec<u8>,
    ) -> Result<[u8; 16], Halt> {
        let completion = self.device.submit(entry, bytes, into)?;
        self.device.vouch();
        if reads(entry) {
            self.tell_after(into, 0);
        }
        Ok(completion)
    }

    fn submit_extending(&mut self, entry: &[u8; 64], into: &mut Vec<u8>) -> Result<[u8; 16], Halt> {
        let held = into.len();
        let completion = self.device.submit_extending(entry, into)?;
        self.device.vouch();
        if reads(entry) {
            self.tell_after(into, held);
        }
        Ok(completion)
    }
}
