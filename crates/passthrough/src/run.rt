/// By how much the next Read of a run is wider.
const GROWTH: u32 = 16;

/// The last Read that was sent. Those that go on with it are a run, and each is wider than the one before.
#[derive(Clone, Copy)]
pub struct Run {
    /// The address of its first block.
    start: u64,
    /// The first address after its last block.
    end: u64,
    /// How many blocks the next one reads.
    width: u32,
}

impl Run {
    /// The run, after a Read that was meant to have a width and has read these blocks.
    pub fn after(address: u64, blocks: u32, width: u32, transfer: u32) -> Run {
        Run {
            start: address,
            end: address.saturating_add(u64::from(blocks)),
            width: width.saturating_mul(GROWTH).min(transfer),
        }
    }

    /// Whether a Read from an address on goes on with the run, in zones of a size. It begins in the blocks of the last
    /// one, or after them with no larger gap than the next one is wide.
    fn goes_on(&self, address: u64, size: u32) -> bool {
        let zone = self.start.checked_div(u64::from(size));
        self.start <= address
            && address.saturating_sub(self.end) <= u64::from(self.width)
            && address.checked_div(u64::from(size)) == zone
    }
}

/// How many blocks a Read is wide that asks for that many from an address on: as many, or those of its run.
pub fn width(run: Option<Run>, address: u64, blocks: u32, size: u32) -> u32 {
    match run {
        Some(run) if run.goes_on(address, size) => run.width,
        _ => blocks,
    }
}
