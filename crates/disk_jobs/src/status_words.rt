// An output of raw replies whose statuses are told to people.

use hex::FromHex;
use nvme_wire::Completion;
use std::io;
use std::io::Write;

/// How many digits a completion has.
const DIGITS: usize = 32;

/// The completions at the beginnings of lines, as they are written.
#[derive(Drop)]
struct Completions {
    /// The first digits of the line that is written.
    digits: [u8; DIGITS],
    /// How many of them were written.
    held: usize,
    /// How many completions were told.
    told: u64,
}

/// The name of a status code type (Base Specification 2.0, section 3.3.3.2.1).
fn type_name(code: u16) -> &'static str {
    match code >> 9 {
        0 => "Generic Command Status",
        1 => "Command Specific Status",
        _ => "another status code type",
    }
}

impl Completions {
    /// Says what the status of the completion is whose digits were written.
    fn tell<R: Eprint>(&mut self, rt: &R) {
        let Ok(bytes) = <[u8; 16]>::from_hex(self.digits.as_slice()) else {
            return;
        };
        let Ok(completion) = Completion::decode(&bytes) else {
            return;
        };
        self.told = self.told.saturating_add(1);
        let Completion { id, status, .. } = completion;
        let code = status.code();
        let (name, value) = (type_name(code), (code >> 1) & 0xff);
        let told = self.told;
        let _ = eprintln!(rt;
            "completion {told}, identifier {id}: {status} ({name}, {value:02X}h)"
        );
    }

    /// Takes note of a byte that was written.
    fn note<R: Eprint>(&mut self, rt: &R, byte: u8) {
        if byte == b'\n' {
            self.held = 0;
            return;
        }
        if self.held < DIGITS {
            self.digits[self.held] = byte;
            self.held += 1;
            if self.held == DIGITS {
                self.tell(rt);
            }
        }
    }

    /// Takes note of bytes that were written.
    fn note_all<R: Eprint>(&mut self, rt: &R, bytes: &[u8]) {
        for byte in bytes {
            self.note(rt, *byte);
        }
    }
}

/// Passes the replies of raw lines to an output, and says on standard error what the status of each completion is.
#[derive(Drop)]
pub struct Explained<'r, 'o, R: Eprint, W: Write> {
    rt: &'r R,
    output: &'o mut W,
    completions: Completions,
}

impl<'r, 'o, R: Eprint, W: Write> Explained<'r, 'o, R, W> {
    /// Passes the replies to this output.
    pub fn new(rt: &'r R, output: &'o mut W) -> Self {
        Explained {
            rt,
            output,
            completions: Completions {
                digits: [0; DIGITS],
                held: 0,
                told: 0,
            },
        }
    }
}

impl<R: Eprint, W: Write> Write for Explained<'_, '_, R, W> {
    ghost contents = { λ e. W.contents e.output.now };

    fn write(&mut self, bytes: &[u8]) -> io::Result<usize> {
        let taken = self.output.write(bytes)?;
        self.completions.note_all(self.rt, &bytes[..taken]);
        Ok(taken)
    }

    fn flush(&mut self) -> io::Result<()> {
        self.output.flush()
    }
}
