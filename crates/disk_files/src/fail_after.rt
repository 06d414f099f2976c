ghost use Rattle.std.specs.Prelude.{◌≡◌, ◌+◌, ◌≤◌, ◌<◌, IfOk, IsErr, OnErr};
ghost use Rattle.std.specs.Io.{ReadsAtMost, WritesAtMost};
ghost use Rattle.std.specs.Io.KnownBytes.{ReadConsumes, WriteAppends};

use std::io;
use std::io::{ErrorKind, Read, Write};

/// Passes bytes from a reader or to a writer, and fails after a number of them. It is for tests of what a fault of the
/// input or the output leaves.
///
/// ```text
/// let mut reader = LineReader::new(alloc, FailAfter::new(b"read 0 1\n".as_slice(), 4));
/// let mut writer = FailAfter::in_steps(Vec::new(alloc), 100, 7);
/// ```
///
/// While bytes may pass, a call does what the reader or the writer within does with them. Then each call fails, also
/// if no byte is left to read, and what is within is not called. `flush` never counts.
#[derive(Drop)]
pub struct FailAfter<S: Drop> {
    /// The reader or the writer within.
    pub inner: S,
    /// How many bytes may still pass.
    pub left: usize,
    /// How many bytes pass in one call at most. 0 is taken as 1.
    pub step: usize,
}

impl<S: Drop> FailAfter<S> {
    /// Lets `left` bytes pass.
    pub fn new(inner: S, left: usize) -> Self
        ensures inner { result.inner ≡ inner }
        ensures left { result.left ≡ left }
    {
        FailAfter::in_steps(inner, left, usize::MAX)
    }

    /// Lets `left` bytes pass, at most `step` in one call.
    pub fn in_steps(inner: S, left: usize, step: usize) -> Self
        ensures inner { result.inner ≡ inner }
        ensures left { result.left ≡ left }
    {
        FailAfter { inner, left, step }
    }

    /// How many of these bytes pass in the next call.
    fn most(&self, len: usize) -> usize
        ensures left { result ≤ self.now.left }
        ensures len { result ≤ len }
        ensures some { 0 < self.now.left → 0 < len → 0 < result }
    {
        self.left.min(self.step.max(1)).min(len)
    }
}

impl<R: Read + Drop> Read for FailAfter<R> {
    ghost remaining = { λ s. R.remaining s.inner };

    fn read(&mut self, buf: &mut [u8]) -> io::Result<usize>
        ensures bound { ReadsAtMost result buf.new }
        ensures bytes { ReadConsumes (R.remaining self.old.inner)
            (R.remaining self.new.inner) result buf.new }
        ensures passed { IfOk result (λ n. self.new.left + n ≡ self.old.left) }
        ensures failed { OnErr result (self.new.left ≡ self.old.left) }
        ensures over { self.old.left ≡ 0 → IsErr result }
    {
        if self.left == 0 {
            return Err(io::Error::from(ErrorKind::Other));
        }
        let most = self.most(buf.len());
        let n = self.inner.read(&mut buf[..most])?;
        self.left -= n;
        Ok(n)
    }
}

impl<W: Write + Drop> Write for FailAfter<W> {
    ghost contents = { λ s. W.contents s.inner };

    fn write(&mut self, buf: &[u8]) -> io::Result<usize>
        ensures bound { WritesAtMost result buf.now }
        ensures bytes { WriteAppends (W.contents self.old.inner)
            (W.contents self.new.inner) result buf.now }
        ensures passed { IfOk result (λ n. self.new.left + n ≡ self.old.left) }
        ensures failed { OnErr result (self.new.left ≡ self.old.left) }
        ensures over { self.old.left ≡ 0 → IsErr result }
    {
        if self.left == 0 {
            return Err(io::Error::from(ErrorKind::Other));
        }
        let most = self.most(buf.len());
        let n = self.inner.write(&buf[..most])?;
        self.left -= n;
        Ok(n)
    }

    fn flush(&mut self) -> io::Result<()> {
        self.inner.flush()
    }
}
