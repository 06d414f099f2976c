ghost use Rattle.std.specs.Prelude.{◌≡◌, ◌*◌, ◌≤◌, IsTrue, [], Ok, length, true};
ghost use Rattle.nvme_wire.specs.Entry.{IsAdmitted};
ghost use Rattle.nvme_wire.specs.declared.status.Status.TheVariants.{Success};
ghost use Rattle.drive_port.specs.Drive.{IsClosing};
ghost use Rattle.drive_port.specs.Step.{Effect};
ghost use Rattle.passthrough.specs.Premise.{Answers, AreLawful, IsSafe, IsSent, IsSentRead, KeepsFlushed, Recalls};
ghost use Rattle.passthrough.specs.Kept.{AreKept, CanFill};

use crate::kept::Kept;
use crate::passthrough::Passthrough;
use nvme_wire::Command;
use std::alloc::Global;
use std::marker::Model;
use zone_states::Geometry;

/// The most blocks that an entry can name.
const MOST: u32 = 1 << 16;

/// Reads ahead into what is kept. If the Read does not succeed, nothing is kept any more.
fn fill<P: Passthrough>(way: &mut P, kept: &mut Kept, address: u64, blocks: u32, end: u64) -> bool
    requires shape { kept.old.geometry ≡ P.shape way.old }
    requires can { CanFill kept.old address blocks end }
    requires some { 1 ≤ blocks }
    requires most { blocks ≤ 65536 }
    requires sent { IsSentRead (P.shape way.old) (P.zones way.old) address blocks end
        (blocks * (P.shape way.old).block) }
    ensures closing { IsClosing (P.zones way.old) (P.zones way.new) }
    ensures flushed { P.flushed way.old ≡ true → P.flushed way.new ≡ true }
    ensures shape { P.shape way.new ≡ P.shape way.old }
    ensures lawful { AreLawful (P.shape way.new) (P.zones way.new) }
    ensures kept { AreKept (P.shape way.old) (P.zones way.new) kept.new }
    ensures filled { IsTrue result → (kept.new.start ≡ address) × (kept.new.blocks ≡ blocks) }
{
    kept.blocks = 0;
    let command = Command::Read {
        slba: address,
        blocks,
    };
    let size = blocks as usize * kept.geometry.block as usize;
    let mut value = 0;
    let (room, _) = kept.bytes.split_at_mut(size);
    let status = way.submit(&command, &[], end, room, &mut value);
    if status != 0 {
        kept.forget();
        return false;
    }
    kept.start = address;
    kept.blocks = blocks;
    true
}

/// Passes a command down. What it may change is kept no longer, and nothing is if it does not succeed.
fn pass<P: Passthrough>(
    way: &mut P,
    kept: &mut Kept,
    command: &Command,
    bytes: &[u8],
    end: u64,
    room: &mut [u8],
    value: &mut u64,
) -> u16
    requires admitted { IsAdmitted command.now }
    requires sent { IsSent (P.shape way.old) (P.zones way.old) command.now bytes.now end
        (length room.old) }
    requires safe { IsSafe command.now (P.flushed way.old) }
    requires kept { AreKept (P.shape way.old) (P.zones way.old) kept.old }
    ensures answers { Answers (P.shape way.old) (P.zones way.old) command.now bytes.now
        result value.new room.new (P.zones way.new) }
    ensures flushed { KeepsFlushed command.now result (P.flushed way.old) (P.flushed way.new) }
    ensures recalls { Recalls (P.shape way.old) (P.zones way.old) (P.before way.old) command.now
        result room.new (P.zones way.new) (P.before way.new) }
    ensures shape { P.shape way.new ≡ P.shape way.old }
    ensures lawful { AreLawful (P.shape way.new) (P.zones way.new) }
    ensures kept { AreKept (P.shape way.old) (P.zones way.new) kept.new }
{
    kept.forget_changed(command);
    let status = way.submit(command, bytes, end, room, value);
    if status != 0 {
        kept.forget();
        return status;
    }
    0
}

/// Reads ahead where that is of use, and takes the blocks that were asked from it. Or no block was read.
fn read_wide<P: Passthrough>(
    way: &mut P,
    kept: &mut Kept,
    address: u64,
    blocks: u32,
    end: u64,
    room: &mut [u8],
) -> bool
    requires some { 1 ≤ blocks }
    requires sent { IsSentRead (P.shape way.old) (P.zones way.old) address blocks end (length room.old) }
    requires kept { AreKept (P.shape way.old) (P.zones way.old) kept.old }
    requires lawful { AreLawful (P.shape way.old) (P.zones way.old) }
    ensures read { IsTrue result → Effect (P.shape way.old) (P.zones way.old) (Ok (Command.Read address blocks)) []
        Success 0 room.new (P.zones way.new) }
    ensures closing { IsClosing (P.zones way.old) (P.zones way.new) }
    ensures flushed { P.flushed way.old ≡ true → P.flushed way.new ≡ true }
    ensures shape { P.shape way.new ≡ P.shape way.old }
    ensures lawful { AreLawful (P.shape way.new) (P.zones way.new) }
    ensures kept { AreKept (P.shape way.old) (P.zones way.new) kept.new }
{
    let ahead = kept.ahead(address, blocks, end);
    if ahead == 0 || ahead > MOST {
        return false;
    }
    if !fill(way, kept, address, ahead, end) {
        return false;
    }
    kept.copy(address, room);
    kept.remember(address, blocks, ahead);
    true
}

/// A Read: it is answered from what is kept, or by reading ahead, or passed down as it is.
fn read<P: Passthrough>(
    way: &mut P,
    kept: &mut Kept,
    address: u64,
    blocks: u32,
    end: u64,
    room: &mut [u8],
    value: &mut u64,
) -> u16
    requires some { 1 ≤ blocks }
    requires most { blocks ≤ 65536 }
    requires sent { IsSentRead (P.shape way.old) (P.zones way.old) address blocks end (length room.old) }
    requires kept { AreKept (P.shape way.old) (P.zones way.old) kept.old }
    requires lawful { AreLawful (P.shape way.old) (P.zones way.old) }
    ensures answers { Answers (P.shape way.old) (P.zones way.old) (Command.Read address blocks) []
        result value.new room.new (P.zones way.new) }
    ensures flushed { P.flushed way.old ≡ true → P.flushed way.new ≡ true }
    ensures shape { P.shape way.new ≡ P.shape way.old }
    ensures lawful { AreLawful (P.shape way.new) (P.zones way.new) }
    ensures kept { AreKept (P.shape way.old) (P.zones way.new) kept.new }
{
    if kept.has(address, blocks) {
        kept.copy(address, room);
        return 0;
    }
    if read_wide(way, kept, address, blocks, end, room) {
        return 0;
    }
    let command = Command::Read {
        slba: address,
        blocks,
    };
    let status = pass(way, kept, &command, &[], end, room, value);
    if status != 0 {
        return status;
    }
    kept.remember(address, blocks, blocks);
    0
}

/// A way above another that reads ahead.
///
/// A Read that begins near the end of the last one is widened: first to 16 times as many blocks, then to one transfer.
/// No Read goes on past the address up to which the zone can be read. What was read ahead answers later Reads, until a
/// command goes to its zone or any command fails.
#[derive(Drop)]
pub struct ReadAhead<P: Passthrough + Drop> {
    way: P,
    kept: Kept,
}

impl<P: Passthrough + Drop> Model for ReadAhead<P> {
    ghost use Rattle.passthrough.specs.Premise.{AreLawful};
    ghost use Rattle.passthrough.specs.Kept.{AreKept, WayState};

    ghost Value = { WayState };

    ghost view = { λ r. record {
      shape = P.shape r.way;
      zones = P.zones r.way;
      flushed = P.flushed r.way;
      before = P.before r.way;
    } };

    ghost invariant = { λ r. AreLawful (P.shape r.way) (P.zones r.way)
        × AreKept (P.shape r.way) (P.zones r.way) r.kept };
}

impl<P: Passthrough + Drop> ReadAhead<P> {
    /// Reads ahead above this way. Nothing is kept yet.
    pub fn new(alloc: Global, way: P) -> Self
        ensures { result ≡ record {
          shape = P.shape way;
          zones = P.zones way;
          flushed = P.flushed way;
          before = P.before way;
        } }
    {
        let kept = Kept::new(alloc, way.geometry());
        ReadAhead { way, kept }
    }

    /// The way below.
    pub fn way(&self) -> &P
        ensures shape { P.shape result.now ≡ self.now.shape }
        ensures zones { P.zones result.now ≡ self.now.zones }
    {
        &self.way
    }

    /// The way below, taken out.
    pub fn into_inner(self) -> P
        ensures shape { P.shape result ≡ self.shape }
        ensures zones { P.zones result ≡ self.zones }
    {
        self.way
    }
}

impl<P: Passthrough + Drop> Passthrough for ReadAhead<P> {
    ghost shape = { λ r. r.shape };

    ghost zones = { λ r. r.zones };

    ghost flushed = { λ r. r.flushed };

    ghost before = { λ r. r.before };

    fn geometry(&self) -> Geometry {
        self.way.geometry()
    }

    fn submit(
        &mut self,
        command: &Command,
        bytes: &[u8],
        end: u64,
        room: &mut [u8],
        value: &mut u64,
    ) -> u16 {
        let (way, kept) = (&mut self.way, &mut self.kept);
        match *command {
            Command::Read { slba, blocks } => read(way, kept, slba, blocks, end, room, value),
            _ => pass(way, kept, command, bytes, end, room, value),
        }
    }
}
