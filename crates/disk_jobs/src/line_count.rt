// How many lines a reader gave, so that one that was read can be told by its number.

use std::cell::Cell;
use std::io;
use std::io::Read;

/// How many lines were given, of a reader that may have ended.
#[derive(Drop)]
pub struct LineCount {
    /// How many line feeds there were.
    feeds: Cell<u64>,
    /// Whether a line has begun after the last of them.
    is_begun: Cell<bool>,
    /// Whether the reader has ended.
    has_ended: Cell<bool>,
}

impl LineCount {
    /// Of a reader that gave nothing yet.
    pub fn new() -> LineCount {
        LineCount {
            feeds: Cell::new(0),
            is_begun: Cell::new(false),
            has_ended: Cell::new(false),
        }
    }

    /// How many lines ended by a line feed.
    pub(crate) fn feeds(&self) -> u64 {
        self.feeds.get()
    }

    /// Whether the last line ended without a line feed.
    pub(crate) fn ends_without_feed(&self) -> bool {
        self.has_ended.get() && self.is_begun.get()
    }

    /// Counts what was given.
    fn note(&self, bytes: &[u8]) {
        let more = bytes.iter().filter(|byte| **byte == b'\n').count();
        self.feeds.set(self.feeds.get().saturating_add(more as u64));
        if let Some(last) = bytes.last() {
            self.is_begun.set(*last != b'\n');
        }
    }
}

/// A reader whose lines are counted.
#[derive(Drop)]
pub struct CountedLines<'c, R: Read + Drop> {
    pub(crate) count: &'c LineCount,
    pub(crate) reader: R,
}

impl<R: Read + Drop> Read for CountedLines<'_, R> {
    fn read(&mut self, buffer: &mut [u8]) -> io::Result<usize> {
        let count = self.reader.read(buffer)?;
        if count == 0 && !buffer.is_empty() {
            self.count.has_ended.set(true);
        }
        self.count.note(&buffer[..count]);
        Ok(count)
    }
}
