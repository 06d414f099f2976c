ghost use Rattle.std.specs.Prelude.{◌≡◌, ◌≢◌, ◌==◌, ◌≤◌, ◌+◌, true, [], Ok, OnOk, IfErr, IfOk};
ghost use Rattle.std.specs.Prelude.{is_some, length, position, slice_range, take};
ghost use Rattle.std.specs.Io.KnownBytes.{Consumes, IsAtEnd, Keeps};
ghost use Rattle.disk_files.specs.Ahead.{ReadsPart, Refills};
ghost use Rattle.disk_files.specs.Line.{is_feed};

use crate::again::read_again;
use crate::bytes::first_place;
use crate::line_reader::LineFault;
use std::alloc::{AllocError, Global};
use std::io::Read;
use std::marker::Model;

/// What was taken of a line.
#[derive(Clone, Copy)]
pub enum Part {
    /// Bytes of the line, which continues.
    Front,
    /// Bytes of the line, to its line feed.
    Line,
    /// Nothing, since no byte was read ahead.
    End,
}

/// How many bytes are read at a time at most.
const PIECE: usize = 65_536;

/// A line, and the bytes that were read ahead of it. They stand one after the other, where they were read to, so
/// that no byte of a line is copied but those that were read with the line before.
#[derive(Drop)]
pub struct Ahead {
    bytes: Vec<u8>,
    /// The line is `bytes[first..last]`.
    first: usize,
    last: usize,
    /// What is ahead of it is `bytes[start..end]`.
    start: usize,
    end: usize,
}

impl Model for Ahead {
    ghost use Rattle.std.specs.Prelude.{◌≤◌, ◌==◌, length, slice_range};
    ghost use Rattle.disk_files.specs.Ahead.{AheadView};

    ghost Value = { AheadView };

    ghost view = { λ a. record {
      line = slice_range a.bytes.items a.first a.last;
      is_open = a.last == a.start;
      bytes = slice_range a.bytes.items a.start a.end;
    } };

    ghost invariant = { λ a. (a.first ≤ a.last) × (a.last ≤ a.start) × (a.start ≤ a.end)
        × (a.end ≤ length a.bytes.items) };
}

/// Makes room for a read after the first `end` bytes.
fn make_room(bytes: &mut Vec<u8>, end: usize) -> Result<(), AllocError>
    requires { end ≤ length bytes.old.items }
    ensures room { OnOk result (end + PIECE ≤ length bytes.new.items) }
    ensures within { end ≤ length bytes.new.items }
    ensures front { take end bytes.new.items ≡ take end bytes.old.items }
{
    if bytes.len() - end >= PIECE {
        return Ok(());
    }
    bytes.resize(end + PIECE, 0)
}

/// Reads once, after the first `end` bytes.
fn read_to<R: Read>(reader: &mut R, bytes: &mut [u8], end: usize) -> Result<usize, LineFault>
    requires { end + PIECE ≤ length bytes.old }
    ensures front { take end bytes.new ≡ take end bytes.old }
    ensures length { length bytes.new ≡ length bytes.old }
    ensures ok { IfOk result
        (λ n. (end + n ≤ length bytes.new)
        × Consumes (R.remaining reader.old) (R.remaining reader.new)
        (slice_range bytes.new end (end + n)) × (n ≡ 0 → IsAtEnd (R.remaining reader.new))) }
    ensures err { IfErr result (λ fault. Keeps (R.remaining reader.old) (R.remaining reader.new)
        × (fault ≡ LineFault.Input)) }
{
    match read_again(reader, &mut bytes[end..end + PIECE]) {
        Ok(n) => Ok(n),
        Err(_) => Err(LineFault::Input),
    }
}

/// Reads once, after the first `end` bytes, for which room is made.
fn read_after<R: Read>(reader: &mut R, bytes: &mut Vec<u8>, end: usize) -> Result<usize, LineFault>
    requires { end ≤ length bytes.old.items }
    ensures within { end ≤ length bytes.new.items }
    ensures front { take end bytes.new.items ≡ take end bytes.old.items }
    ensures ok { IfOk result
        (λ n. (end + n ≤ length bytes.new.items)
        × Consumes (R.remaining reader.old) (R.remaining reader.new)
        (slice_range bytes.new.items end (end + n)) × (n ≡ 0 → IsAtEnd (R.remaining reader.new))) }
    ensures err { IfErr result (λ fault. Keeps (R.remaining reader.old) (R.remaining reader.new)
        × (fault ≢ LineFault.Long)) }
{
    make_room(bytes, end)?;
    read_to(reader, bytes, end)
}

impl Ahead {
    /// No byte yet. It allocates nothing.
    pub fn new(alloc: Global) -> Ahead
        ensures { result ≡ record { line = []; is_open = true; bytes = [] } }
    {
        Ahead {
            bytes: Vec::new(alloc),
            first: 0,
            last: 0,
            start: 0,
            end: 0,
        }
    }

    /// Whether no byte is ahead.
    pub fn is_empty(&self) -> bool
        ensures { result ≡ (length self.now.bytes == 0) }
    {
        self.start == self.end
    }

    /// Whether a whole line, with its line feed, is ahead.
    pub fn has_line(&self) -> bool
        ensures { result ≡ is_some (position is_feed self.now.bytes) }
    {
        first_place(&self.bytes[self.start..self.end], b'\n').is_some()
    }

    /// What was taken of the line, without its line feed.
    pub fn line(&self) -> &[u8]
        ensures { result.now ≡ self.now.line }
    {
        &self.bytes[self.first..self.last]
    }

    /// Begins a line, of which nothing was taken yet.
    pub fn begin(&mut self)
        ensures { self.new ≡ record { line = []; is_open = true; bytes = self.old.bytes } }
    {
        self.first = self.start;
        self.last = self.start;
    }

    /// Moves the line to the front, where nothing is ahead of it.
    fn move_line(&mut self)
        requires empty { self.old.bytes ≡ [] }
        requires goes_on { self.old.is_open ≡ true }
        ensures { self.new ≡ self.old }
    {
        if self.first == 0 {
            return;
        }
        let count = self.last - self.first;
        self.bytes.copy_within(self.first..self.last, 0);
        self.first = 0;
        self.last = count;
        self.start = count;
        self.end = count;
    }

    /// Reads once, after the line. No byte is ahead then only if the reader has ended.
    pub fn refill<R: Read>(&mut self, reader: &mut R) -> Result<(), LineFault>
        requires empty { self.old.bytes ≡ [] }
        requires goes_on { self.old.is_open ≡ true }
        ensures bytes { Refills (R.remaining reader.old)
            (R.remaining reader.new) result self.new.bytes }
        ensures line { self.new.line ≡ self.old.line }
        ensures goes_on { self.new.is_open ≡ true }
    {
        self.move_line();
        match read_after(reader, &mut self.bytes, self.end) {
            Ok(count) => {
                self.end += count;
                Ok(())
            }
            Err(fault) => Err(fault),
        }
    }

    /// Takes bytes of the line, at most `room` with its line feed.
    pub fn take(&mut self, room: usize) -> Part
        requires some { 1 ≤ room }
        requires goes_on { self.old.is_open ≡ true }
        ensures takes { ReadsPart (Some self.old.bytes)
            (Some self.new.bytes) room self.old.line self.new.line (Ok result) }
        ensures goes_on { result ≢ Part.Line → self.new.is_open ≡ true }
    {
        let ahead = &self.bytes[self.start..self.end];
        let ahead = &ahead[..room.min(ahead.len())];
        match first_place(ahead, b'\n') {
            Some(place) => {
                self.last = self.start + place;
                self.start += place + 1;
                Part::Line
            }
            None if ahead.is_empty() => Part::End,
            None => {
                self.start += ahead.len();
                self.last = self.start;
                Part::Front
            }
        }
    }
}
