// Writers over memory: one that notes when it is flushed, and one that takes no byte.

use std::io;
use std::io::Write;

/// Takes all bytes, and notes how many there were at each flush.
#[derive(Drop)]
pub struct FlushedWriter {
    pub bytes: usize,
    pub flushes: Vec<usize>,
}

impl Write for FlushedWriter {
    fn write(&mut self, buf: &[u8]) -> io::Result<usize> {
        self.bytes = self.bytes.saturating_add(buf.len());
        Ok(buf.len())
    }

    fn flush(&mut self) -> io::Result<()> {
        self.flushes.push(self.bytes)?;
        Ok(())
    }
}

/// Takes no byte, and does not fail.
#[derive(Drop)]
pub struct FullWriter {}

impl Write for FullWriter {
    fn write(&mut self, _buf: &[u8]) -> io::Result<usize> {
        Ok(0)
    }

    fn flush(&mut self) -> io::Result<()> {
        Ok(())
    }
}
