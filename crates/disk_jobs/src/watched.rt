// How far a job is, on standard error.

use std::cell::Cell;
use std::fs::File;
use std::io::{IsTerminal, Read, Write};
use std::os::unix::fs::FileTypeExt;
use std::rt::Files;
use std::time::{Clock, Duration};
use std::{fs, io};

/// What is counted of a stream.
#[derive(Clone, Copy, Debug, PartialEq, Eq)]
pub enum Counted {
    /// Units of 1,048,576 bytes.
    Mebibytes,
    /// Line feeds.
    Lines,
}

impl Counted {
    fn name(self) -> &'static str {
        match self {
            Counted::Mebibytes => "MiB",
            Counted::Lines => "lines",
        }
    }
}

/// Whether a standard stream is a terminal, by the path of its device.
pub fn is_terminal<F: Files<File = File>>(files: &F, path: &str) -> bool {
    // Opening a pipe waits for its other end.
    match fs::metadata(files, path) {
        Ok(metadata) if metadata.file_type().is_char_device() => {}
        _ => return false,
    }
    match fs::open(files, path) {
        Ok(stream) => stream.is_terminal(),
        Err(_) => false,
    }
}

/// How many bytes standard input has, if it is a file.
fn input_bytes<F: Files<File = File>>(files: &F) -> Option<u64> {
    match fs::metadata(files, "/dev/stdin") {
        Ok(metadata) if metadata.is_file() => Some(metadata.len()),
        _ => None,
    }
}

/// What went through a stream so far.
#[derive(Clone, Copy, Drop)]
struct Progress {
    counted: Counted,
    bytes: u64,
    lines: u64,
    /// How many bytes there are in all, if that is known.
    total: Option<u64>,
    /// When it began, and when it was shown last.
    begun: Duration,
    shown: Duration,
    /// Whether what is shown next takes the place of this.
    is_terminal: bool,
}

impl Progress {
    /// Counts bytes.
    fn count(&mut self, bytes: &[u8]) {
        let lines = bytes.iter().filter(|byte| **byte == b'\n').count();
        self.bytes = self.bytes.saturating_add(bytes.len() as u64);
        self.lines = self.lines.saturating_add(lines as u64);
    }

    /// How much there was.
    fn amount(self) -> u64 {
        match self.counted {
            Counted::Mebibytes => self.bytes >> 20,
            Counted::Lines => self.lines,
        }
    }

    /// How much there was in each of so many seconds, and in which unit: a rate below one MiB is in KiB.
    fn rate(self, seconds: u64) -> (u64, &'static str) {
        let bytes = self.bytes / seconds.max(1);
        match self.counted {
            Counted::Lines => (self.lines / seconds.max(1), "lines"),
            Counted::Mebibytes if bytes < 1 << 20 => (bytes >> 10, "KiB"),
            Counted::Mebibytes => (bytes >> 20, "MiB"),
        }
    }

    /// Of 100 bytes how many there were, if it is known how many there are.
    fn percent(self) -> Option<u64> {
        let total = self.total?;
        if total == 0 {
            return None;
        }
        let percent = u128::from(self.bytes) * 100 / u128::from(total);
        Some(percent.min(100) as u64)
    }

    /// Shows how much there was until this moment.
    fn show<E: Eprint>(self, errors: &E, now: Duration, end: &str) {
        let (amount, name) = (self.amount(), self.counted.name());
        let seconds = now.saturating_sub(self.begun).as_secs().max(1);
        let (rate, unit) = self.rate(seconds);
        let _ = match self.percent() {
            Some(percent) => {
                eprint!(errors; "{amount} {name}, {percent} percent, {rate} {unit}/s{end}")
            }
            None => eprint!(errors; "{amount} {name}, {rate} {unit}/s{end}"),
        };
    }
}

/// A stream of which standard error shows how much went through it: at most once a second, and last at its end or at a
/// flush. On a terminal this is one line, and elsewhere a line each time.
#[derive(Drop)]
pub struct Watched<'r, S: Drop, E: Eprint + Clock> {
    stream: S,
    errors: &'r E,
    /// None if nothing is shown.
    progress: Option<Progress>,
    /// Where it is told how many bytes there are in all.
    total: Option<&'r Cell<Option<u64>>>,
}

impl<'r, S: Drop, E: Eprint + Clock + Files<File = File>> Watched<'r, S, E> {
    /// A stream of which nothing was taken yet.
    pub fn new(stream: S, errors: &'r E, counted: Option<Counted>) -> Self {
        let now = errors.monotonic().unwrap_or(Duration::ZERO);
        let progress = counted.map(|counted| Progress {
            counted,
            bytes: 0,
            lines: 0,
            total: None,
            begun: now,
            shown: now,
            is_terminal: is_terminal(errors, "/dev/stderr"),
        });
        Watched {
            stream,
            errors,
            progress,
            total: None,
        }
    }

    /// The same of a stream that is written. How many bytes there are in all is told meanwhile.
    pub fn output(
        stream: S,
        errors: &'r E,
        counted: Option<Counted>,
        total: &'r Cell<Option<u64>>,
    ) -> Self {
        let mut watched = Watched::new(stream, errors, counted);
        watched.total = Some(total);
        watched
    }

    /// The same of standard input, whose length is known if it is a file.
    pub fn input(stream: S, errors: &'r E, counted: Option<Counted>) -> Self {
        let mut watched = Watched::new(stream, errors, counted);
        if let Some(progress) = &mut watched.progress {
            progress.total = input_bytes(errors);
        }
        watched
    }
}

impl<S: Drop, E: Eprint + Clock> Watched<'_, S, E> {
    /// How many bytes there are in all, if that was told.
    fn told(&self) -> Option<u64> {
        self.total?.get()
    }

    /// Counts bytes, and shows how much there was if a second has gone since that was shown.
    fn note(&mut self, bytes: &[u8]) {
        let told = self.told();
        let Some(progress) = &mut self.progress else {
            return;
        };
        progress.count(bytes);
        progress.total = progress.total.or(told);
        let Ok(now) = self.errors.monotonic() else {
            return;
        };
        if now.saturating_sub(progress.shown).as_secs() >= 1 {
            progress.shown = now;
            let end = if progress.is_terminal { "\r" } else { "\n" };
            progress.show(self.errors, now, end);
        }
    }

    /// Shows how much there was in all.
    fn end(&mut self) {
        if let Some(progress) = self.progress {
            let now = self.errors.monotonic().unwrap_or(progress.shown);
            progress.show(self.errors, now, "\n");
        }
    }
}

impl<S: Read + Drop, E: Eprint + Clock> Read for Watched<'_, S, E> {
    fn read(&mut self, buffer: &mut [u8]) -> io::Result<usize> {
        let count = self.stream.read(buffer)?;
        if count == 0 && !buffer.is_empty() {
            self.end();
        }
        self.note(&buffer[..count]);
        Ok(count)
    }
}

impl<S: Write + Drop, E: Eprint + Clock> Write for Watched<'_, S, E> {
    fn write(&mut self, bytes: &[u8]) -> io::Result<usize> {
        let count = self.stream.write(bytes)?;
        self.note(&bytes[..count]);
        Ok(count)
    }

    fn flush(&mut self) -> io::Result<()> {
        self.end();
        self.stream.flush()
    }
}
