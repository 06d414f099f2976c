ghost use Rattle.std.specs.Prelude.{not};
ghost use Rattle.disk_calls.specs.Talk.{Becomes, Talk, WantsMore, given_more, looked_at, shown_more, told_extent, turned};

use crate::call::{Asked, CallFault, Extent};
use drive_port::Device;
use zone_translator::AnyDisk;

/// Whoever asks a disk for one call after another.
pub trait Host<D: Device + Drop> {
    /// What was said so far, while it is known.
    ghost talk: { Self → Talk };

    /// Takes the answer to the last call, and asks for the next one, or for none. The first answer belongs to no call.
    fn next(&mut self, told: Result<(), CallFault>) -> Option<Asked>
        ensures { Becomes (talk self.old) (turned (talk self.old) told result) (talk self.new) };

    /// Takes the bytes of a read.
    fn show(&mut self, bytes: &[u8])
        ensures { Becomes (talk self.old) (shown_more (talk self.old) bytes.now) (talk self.new) };

    /// Puts the bytes of a write into `room`.
    fn give(&mut self, room: &mut [u8])
        ensures { Becomes (talk self.old) (given_more (talk self.old) room.new) (talk self.new) };

    /// Takes the next blocks that are alike, and says whether it wants to know more.
    fn tell(&mut self, extent: Extent) -> bool
        requires { WantsMore (talk self.old) }
        ensures { Becomes (talk self.old) (told_extent (talk self.old) extent (not result)) (talk self.new) };

    /// Looks at the disk.
    fn look(&mut self, disk: &AnyDisk<D>)
        ensures { Becomes (talk self.old) (looked_at (talk self.old) disk.now) (talk self.new) };
}
