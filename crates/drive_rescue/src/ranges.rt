ghost use Rattle.std.specs.Prelude.{◌≡◌, ◌+◌, ◌<◌, ◌^◌, ◌++◌, ◌∷◌, [], OnOk};
ghost use Rattle.drive_rescue.specs.Ranges.{blocks_in};

use std::alloc::AllocError;

/// Blocks of the disk that follow one another.
#[derive(Clone, Copy, Debug, PartialEq, Eq)]
pub struct BlockRange {
    /// The lowest of them.
    pub first: u32,
    /// How many they are.
    pub count: u32,
}

/// Adds a block to ranges, to the last one if it follows that.
pub(crate) fn push_block(ranges: &mut Vec<BlockRange>, block: u32) -> Result<(), AllocError>
    requires { block < 2 ^ 31 }
    ensures { OnOk result (blocks_in ranges.new.items ≡ blocks_in ranges.old.items ++ block ∷ []) }
{
    if let Some(last) = ranges.pop() {
        if last.first < block && last.count == block - last.first {
            ranges.push(BlockRange {
                first: last.first,
                count: last.count + 1,
            })?;
            return Ok(());
        }
        ranges.push(last)?;
    }
    ranges.push(BlockRange {
        first: block,
        count: 1,
    })?;
    Ok(())
}
