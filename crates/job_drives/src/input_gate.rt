// An input that is read no further once the file of a drive has failed.

use std::cell::Cell;
use std::io;
use std::io::{ErrorKind, Read};

/// Whether an input may still be read.
#[derive(Drop)]
pub struct Gate {
    is_shut: Cell<bool>,
}

impl Gate {
    /// A gate that is open.
    pub fn open() -> Gate {
        Gate {
            is_shut: Cell::new(false),
        }
    }

    /// Shuts it for good.
    pub fn shut(&self) {
        self.is_shut.set(true);
    }

    /// Whether it is shut.
    pub fn is_shut(&self) -> bool {
        self.is_shut.get()
    }
}

/// Reads from a reader while a gate is open. Once it is shut, each read fails.
#[derive(Drop)]
pub struct GatedInput<'g, R: Read + Drop> {
    gate: &'g Gate,
    reader: R,
}

impl<'g, R: Read + Drop> GatedInput<'g, R> {
    /// An input that is read while this gate is open.
    pub fn new(gate: &'g Gate, reader: R) -> Self {
        GatedInput { gate, reader }
    }
}

impl<R: Read + Drop> Read for GatedInput<'_, R> {
    fn read(&mut self, buffer: &mut [u8]) -> io::Result<usize> {
        if self.gate.is_shut() {
            return Err(io::Error::from(ErrorKind::Other));
        }
        self.reader.read(buffer)
    }
}
