/// How many bytes the second read of a run reads.
const FIRST: usize = 1 << 14;

/// How many bytes a read of a run reads at most. More would leave the caches of the processor before it is taken.
const WIDEST: usize = 1 << 18;

/// A read of more bytes than these does not read ahead.
const SMALL: usize = 1 << 15;

/// How far after the end of the last read the next one of a run may begin.
const GAP: u64 = 1 << 16;

/// A run: reads that follow each other closely. Each call of the file reads twice as much as the one before.
#[derive(Clone, Copy)]
pub struct Run {
    /// Where the last read ended.
    end: u64,
    /// How many bytes the next call of the file reads; 0: no more than it is asked.
    width: usize,
}

impl Run {
    /// No read was done yet.
    pub fn new() -> Run {
        Run { end: 0, width: 0 }
    }

    /// Whether a read from an offset on goes on with the run: it begins where the last one ended, or a little later.
    fn goes_on(self, at: u64) -> bool {
        self.end <= at && at - self.end <= GAP
    }

    /// How many bytes a read of that many from an offset on reads of the file.
    pub fn width(self, at: u64, count: usize) -> usize {
        if count <= SMALL && self.goes_on(at) {
            return self.width.max(count);
        }
        count
    }

    /// The run after a read that called the file.
    pub fn called(self, at: u64, count: usize) -> Run {
        let width = if self.goes_on(at) {
            self.width.saturating_mul(2)
        } else {
            0
        };
        Run {
            end: at.saturating_add(count as u64),
            width: width.max(FIRST).min(WIDEST),
        }
    }

    /// The run after a read that did not.
    pub fn spared(self, at: u64, count: usize) -> Run {
        Run {
            end: at.saturating_add(count as u64),
            width: self.width,
        }
    }
}
