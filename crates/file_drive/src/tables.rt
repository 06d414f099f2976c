ghost use Rattle.std.specs.Prelude.{◌≡◌, ◌+◌, ◌*◌, ◌/◌, ◌≤◌, List, ℕ, IfErr, IfOk, length};
ghost use Rattle.file_drive.specs.Faults.{IsReadFault};
ghost use Rattle.file_drive.specs.Layout.{file_length, word_in};
ghost use Rattle.file_drive.specs.Tables.{words_in};
ghost use Rattle.file_drive.specs.Found.{AreTables};
ghost use Rattle.zone_states.specs.Geometry.{IsInRange};

use crate::fault::OpenFault;
use crate::layout::{AT_FLUSHED, AT_LIVE, at_table};
use file_bytes::FileBytes;
use std::alloc::{AllocError, Global};
use zone_states::Geometry;

/// The tables of a file: which are picked, and the words of all four.
#[derive(Drop)]
pub struct Tables {
    /// The live table that is picked: 0 or 1.
    pub live: u64,
    /// The flushed table that is picked: 2 or 3.
    pub flushed: u64,
    /// The words of the live table that is picked, and of the other.
    pub current: Vec<u64>,
    pub spare: Vec<u64>,
    /// The words of the flushed table that is picked, and of the other.
    pub safe: Vec<u64>,
    pub other: Vec<u64>,
}

/// The word at an offset, the lowest byte first.
fn word_at(bytes: &[u8], at: usize) -> u64
    requires { at + 8 ≤ length bytes.now }
    ensures { result ≡ word_in bytes.now at }
{
    let mut word = [0; 8];
    word.copy_from_slice(&bytes[at..at + 8]);
    u64::from_le_bytes(word)
}

/// The words that these bytes are.
fn words_of(alloc: Global, bytes: &[u8]) -> Result<Vec<u64>, AllocError>
    ensures { IfOk result (λ words. words.items ≡ words_in bytes.now 0 (length bytes.now / 8)) }
{
    let mut words = Vec::new(alloc);
    for index in 0..bytes.len() / 8 {
        words.push(word_at(bytes, 8 * index))?;
    }
    Ok(words)
}

/// Reads words of a file, from an offset on.
pub fn read_words<F: FileBytes>(
    alloc: Global,
    file: &mut F,
    at: u64,
    count: usize,
) -> Result<Vec<u64>, OpenFault>
    requires within { at + 8 * count ≤ length (F.FileBytes.seen file.old) }
    requires few { count ≤ 65536 }
    ensures ok { IfOk result (λ words. words.items ≡ words_in (F.FileBytes.seen file.old) at count) }
    ensures err { IfErr result IsReadFault }
    ensures seen { F.FileBytes.seen file.new ≡ F.FileBytes.seen file.old }
    ensures leaves { (c : List ℕ) → F.FileBytes.may_leave file.new c → F.FileBytes.may_leave file.old c }
    ensures usable { F.FileBytes.is_usable file.new ≡ F.FileBytes.is_usable file.old }
{
    let mut bytes = Vec::new(alloc);
    bytes.resize(8 * count, 0)?;
    file.read(at, &mut bytes)?;
    Ok(words_of(alloc, &bytes)?)
}

/// Reads one word.
pub fn read_word<F: FileBytes>(alloc: Global, file: &mut F, at: u64) -> Result<u64, OpenFault>
    requires { at + 8 ≤ length (F.FileBytes.seen file.old) }
    ensures ok { IfOk result (λ word. word ≡ word_in (F.FileBytes.seen file.old) at) }
    ensures err { IfErr result IsReadFault }
    ensures seen { F.FileBytes.seen file.new ≡ F.FileBytes.seen file.old }
    ensures leaves { (c : List ℕ) → F.FileBytes.may_leave file.new c → F.FileBytes.may_leave file.old c }
    ensures usable { F.FileBytes.is_usable file.new ≡ F.FileBytes.is_usable file.old }
{
    let words = read_words(alloc, file, at, 1)?;
    Ok(words[0])
}

/// Reads the tables of a file of this shape.
pub fn read_tables<F: FileBytes>(
    alloc: Global,
    file: &mut F,
    geometry: &Geometry,
) -> Result<Tables, OpenFault>
    requires in_range { IsInRange geometry.now }
    requires long { length (F.FileBytes.seen file.old) ≡ file_length geometry.now }
    ensures ok { IfOk result (AreTables geometry.now (F.FileBytes.seen file.old)) }
    ensures err { IfErr result IsReadFault }
    ensures seen { F.FileBytes.seen file.new ≡ F.FileBytes.seen file.old }
    ensures leaves { (c : List ℕ) → F.FileBytes.may_leave file.new c → F.FileBytes.may_leave file.old c }
    ensures usable { F.FileBytes.is_usable file.new ≡ F.FileBytes.is_usable file.old }
{
    let count = geometry.zones as usize;
    let live = read_word(alloc, file, AT_LIVE)? % 2;
    let flushed = 2 + read_word(alloc, file, AT_FLUSHED)? % 2;
    Ok(Tables {
        live,
        flushed,
        current: read_words(alloc, file, at_table(geometry, live), count)?,
        spare: read_words(alloc, file, at_table(geometry, 1 - live), count)?,
        safe: read_words(alloc, file, at_table(geometry, flushed), count)?,
        other: read_words(alloc, file, at_table(geometry, 5 - flushed), count)?,
    })
}
