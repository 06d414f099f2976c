use crate::line_count::{CountedLines, LineCount};
use disk_files::LineReader;
use job_drives::{Gate, GatedInput};
use std::alloc::Global;
use std::io::Read;

/// The lines that a job answers. They are read no further once the file of the job has failed.
#[derive(Drop)]
pub struct JobInput<'g, R: Read + Drop> {
    pub(crate) gate: &'g Gate,
    pub(crate) lines: LineReader<GatedInput<'g, CountedLines<'g, R>>>,
    count: &'g LineCount,
}

impl<'g, R: Read + Drop> JobInput<'g, R> {
    /// Reads the lines of this reader, while the gate is open. They are counted.
    pub fn new(alloc: Global, gate: &'g Gate, count: &'g LineCount, reader: R) -> Self {
        let counted = CountedLines { count, reader };
        JobInput {
            gate,
            lines: LineReader::new(alloc, GatedInput::new(gate, counted)),
            count,
        }
    }

    /// The reader of the lines.
    pub fn reader(&mut self) -> &mut LineReader<GatedInput<'g, CountedLines<'g, R>>> {
        &mut self.lines
    }

    /// The line that was read last.
    pub fn line(&self) -> &[u8] {
        self.lines.line()
    }

    /// The number of the line that was read last, counted from 1 with those that are skipped. The lines that were read
    /// ahead of it are gone then.
    pub fn number(&mut self) -> u64 {
        let mut ahead: u64 = 0;
        for _ in 0..u64::MAX {
            if !self.lines.has_line() {
                break;
            }
            let _ = self.lines.next_line();
            ahead = ahead.saturating_add(1);
        }
        let whole = self.count.feeds().saturating_sub(ahead);
        // The last line lacks a line feed: it is the one, unless it is still to be read.
        if self.count.ends_without_feed() && self.lines.next_line() != Ok(true) {
            return whole.saturating_add(1);
        }
        whole
    }
}
