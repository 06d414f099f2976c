ghost use Rattle.std.specs.Prelude.{◌≡◌, Bool, List, IfOk, IfSome, IsTrue, OnErr, OnOk, Option, Some, None, false};
ghost use Rattle.std.specs.Prelude.{is_some, true, ℕ};
ghost use Rattle.drive_journal.specs.Cut.{front_of};
ghost use Rattle.std.specs.Io.KnownBytes.{Appends};
ghost use Rattle.disk_files.specs.Output.{AppendsFront};
ghost use Rattle.drive_journal.specs.Change.{Sum, start};
ghost use Rattle.drive_journal.specs.File.{IsStoredWhole};

use disk_files::{WriteFault, write_out};
use drive_images::laws::image_again;
use drive_images::write_image;
use drive_port::Device;
use std::alloc::Global;
use std::io::Write;
use zone_drive::Drive;

/// Where the changes of a device are written to: bytes in memory, or a file. Of the bytes of a
/// file contracts say nothing.
pub trait ChangeStore<D: Device> {
    /// The bytes that it holds, if they are known.
    ghost held: { Self → Option (List ℕ) };

    /// Whether it refused bytes, or has a change that the device could not make.
    ghost failed: { Self → Bool };

    /// Whether it refused bytes, or has a change that the device could not make.
    fn has_failed(&self) -> bool
        ensures { result ≡ failed self.now };

    /// Appends bytes. After a fault a beginning of them is written.
    fn append(&mut self, bytes: &[u8]) -> Result<(), WriteFault>
        ensures ok { OnOk result (Appends (held self.old) (held self.new) bytes.now) }
        ensures err { OnErr result (AppendsFront (held self.old) (held self.new) bytes.now) }
        ensures known { is_some (held self.new) ≡ is_some (held self.old) }
        ensures failed { OnErr result (failed self.new ≡ true) }
        ensures as_before { OnOk result (failed self.new ≡ failed self.old) };

    /// Notes that the device cannot make the change that was written last.
    fn fail(&mut self)
        ensures held { held self.new ≡ held self.old }
        ensures failed { failed self.new ≡ true };

    /// May replace its bytes by others that store the same drive, such as the image of the drive.
    /// Answers whether it did. Then the sum starts again. It is called before a change is written.
    /// If the new bytes cannot be written, the old ones stay.
    fn renew(&mut self, device: &D) -> bool
        requires { (sum : Sum) × IfSome (held self.old) (λ bytes. IsStoredWhole bytes (D.drive device.now) sum) }
        ensures anew { IsTrue result → IfSome (held self.new) (λ bytes.
            IsStoredWhole bytes (D.drive device.now) start) }
        ensures same { result ≡ false → held self.new ≡ held self.old }
        ensures known { is_some (held self.new) ≡ is_some (held self.old) }
        ensures failed { failed self.new ≡ failed self.old };

    /// Drops all bytes after the first `whole`. A store that cannot do it at once does it before it appends more.
    fn cut(&mut self, whole: u64)
        ensures held { held self.new ≡ front_of whole (held self.old) }
        ensures failed { failed self.new ≡ failed self.old };
}

/// A writer, such as a file, of whose bytes contracts say nothing. It never replaces its bytes.
#[derive(Drop)]
pub struct Unknown<W: Write + Drop> {
    writer: W,
    failed: bool,
}

impl<W: Write + Drop> Unknown<W> {
    /// This writer.
    pub fn new(writer: W) -> Self {
        Unknown {
            writer,
            failed: false,
        }
    }

    /// The writer within.
    pub fn into_inner(self) -> W {
        self.writer
    }
}

impl<W: Write + Drop, D: Device> ChangeStore<D> for Unknown<W> {
    ghost held = { λ _. None };

    ghost failed = { λ u. u.failed };

    fn has_failed(&self) -> bool {
        self.failed
    }

    fn append(&mut self, bytes: &[u8]) -> Result<(), WriteFault> {
        let written = write_out(&mut self.writer, bytes);
        if written.is_err() {
            self.failed = true;
        }
        written
    }

    fn fail(&mut self) {
        self.failed = true;
    }

    fn renew(&mut self, _device: &D) -> bool {
        false
    }

    /// Whoever made the writer has to cut its bytes.
    fn cut(&mut self, _whole: u64) {}
}

/// Bytes in memory. When they are longer than a limit, they are replaced by the image of the
/// drive. The limit is then raised to twice the image at least, so that this seldom happens.
#[derive(Drop)]
pub struct Held {
    alloc: Global,
    bytes: Vec<u8>,
    limit: usize,
    failed: bool,
}

impl Held {
    ghost use Rattle.drive_journal.specs.Held.{held_bytes};

    /// A store of these bytes, with this limit.
    pub fn new(alloc: Global, bytes: Vec<u8>, limit: usize) -> Self
        ensures { held_bytes result ≡ bytes.items }
    {
        Held {
            alloc,
            bytes,
            limit,
            failed: false,
        }
    }

    /// A store of the image of this drive, with this limit.
    pub fn of_drive(alloc: Global, drive: &Drive, limit: usize) -> Result<Self, WriteFault>
        ensures { IfOk result (λ held. IsStoredWhole (held_bytes held) drive.now.state start) }
    {
        Ok(Held::new(alloc, image_of(alloc, drive)?, limit))
    }

    /// The bytes.
    pub fn bytes(&self) -> &[u8]
        ensures { result.now ≡ held_bytes self.now }
    {
        &self.bytes
    }
}

/// The image of a drive.
fn image_of(alloc: Global, drive: &Drive) -> Result<Vec<u8>, WriteFault>
    ensures { IfOk result (λ image. IsStoredWhole image.items drive.now.state start) }
{
    image_again(drive);
    let mut image = Vec::new(alloc);
    write_image(drive, &mut image)?;
    Ok(image)
}

impl ChangeStore<Drive> for Held {
    ghost held = { λ h. Some h.bytes.items };

    ghost failed = { λ h. h.failed };

    fn has_failed(&self) -> bool {
        self.failed
    }

    fn append(&mut self, bytes: &[u8]) -> Result<(), WriteFault> {
        let written = write_out(&mut self.bytes, bytes);
        if written.is_err() {
            self.failed = true;
        }
        written
    }

    fn fail(&mut self) {
        self.failed = true;
    }

    fn renew(&mut self, drive: &Drive) -> bool {
        if self.bytes.len() <= self.limit {
            return false;
        }
        let Ok(image) = image_of(self.alloc, drive) else {
            return false;
        };
        self.limit = self.limit.max(image.len().saturating_mul(2));
        self.bytes = image;
        true
    }

    fn cut(&mut self, whole: u64) {
        self.bytes.truncate(whole as usize);
    }
}
