ghost use Rattle.std.specs.Prelude.{◌≡◌, ◌++◌, is_ok, if◌then◌else◌, replicate};
ghost use Rattle.volatile_cache.specs.Queue.{bytes_of};

use std::alloc::AllocError;

/// What a block is to hold that is pending.
#[derive(Drop)]
pub enum Content {
    /// These bytes.
    Bytes(Vec<u8>),
    /// So many bytes of zeros, which take room as other data do.
    Zeros(u32),
    /// So many bytes of zeros, which take no room.
    Trimmed(u32),
}

impl Content {
    /// Appends the bytes of the block. If there is no memory, nothing is appended.
    pub fn show(&self, into: &mut Vec<u8>) -> Result<(), AllocError>
        ensures { into.new.items ≡ (if is_ok result then into.old.items ++ bytes_of self.now else into.old.items) }
    {
        match self {
            Content::Bytes(bytes) => into.extend_from_slice(bytes),
            Content::Zeros(count) => append_zeros(into, *count),
            Content::Trimmed(count) => append_zeros(into, *count),
        }
    }
}

/// Appends so many zeros. If there is no memory, nothing is appended.
fn append_zeros(into: &mut Vec<u8>, count: u32) -> Result<(), AllocError>
    ensures { into.new.items ≡ (if is_ok result then into.old.items ++ replicate count 0 else into.old.items) }
{
    let Some(length) = into.len().checked_add(count as usize) else {
        return Err(AllocError);
    };
    into.resize(length, 0)
}

/// A block that is written and is not yet on the disk below.
#[derive(Drop)]
pub struct Kept {
    /// Which block of the disk it is.
    pub place: u64,
    pub content: Content,
}
