ghost use Rattle.std.specs.Prelude.{◌≡◌, List, ℕ, IfErr, IfOk, OnOk, length};
ghost use Rattle.file_drive.specs.Faults.{IsHeadFault, IsLengthFault, IsMagicFault, narrow, shape_said};
ghost use Rattle.file_drive.specs.Found.{IsHead};
ghost use Rattle.file_drive.specs.Head.{magic};
ghost use Rattle.file_drive.specs.Layout.{file_length};
ghost use Rattle.zone_states.specs.Geometry.{IsInRange};

use crate::boot::Boot;
use crate::fault::OpenFault;
use crate::layout::file_length;
use crate::tables::read_words;
use file_bytes::FileBytes;
use std::alloc::Global;
use zone_states::Geometry;

/// The eight bytes that a drive in a file begins with, ZNSDRV01, as a word.
pub const MAGIC: u64 = 0x3130_5652_4453_4e5a;

/// The words of the head that say the shape of the drive, and the first word of the boot.
pub const HEAD_WORDS: usize = 10;

/// Where the head has the two words of the boot.
pub const AT_FIRST: u64 = 64;

pub const AT_SECOND: u64 = 72;

/// The head of a file that is a drive's.
#[derive(Clone, Copy)]
pub struct Head {
    pub geometry: Geometry,
    /// The boot of the system that served it last.
    pub boot: Boot,
}

/// Refuses a file that does not begin as a drive in a file does.
fn check_magic(word: u64) -> Result<(), OpenFault>
    ensures ok { OnOk result (word ≡ magic) }
    ensures err { IfErr result (IsMagicFault word) }
{
    if word == MAGIC {
        return Ok(());
    }
    if word << 16 == MAGIC << 16 {
        return Err(OpenFault::Version);
    }
    Err(OpenFault::NotADrive)
}

/// A word as a number of 32 bits: the largest of them where it is larger.
fn narrow(word: u64) -> u32
    ensures { result ≡ narrow word }
{
    word.min(u64::from(u32::MAX)) as u32
}

/// The shape that the words of a head say.
fn shape_of(words: &[u64]) -> Geometry
    requires { length words.now ≡ 10 }
    ensures { result ≡ shape_said words.now }
{
    Geometry {
        block: narrow(words[1]),
        zones: narrow(words[2]),
        size: narrow(words[3]),
        capacity: narrow(words[4]),
        transfer: narrow(words[5]),
        active: narrow(words[6]),
        open: narrow(words[7]),
    }
}

/// Refuses a length that is not the one that a drive of this shape has in a file.
fn check_length(geometry: &Geometry, length: u64) -> Result<(), OpenFault>
    requires { IsInRange geometry.now }
    ensures ok { OnOk result (length ≡ file_length geometry.now) }
    ensures err { IfErr result (IsLengthFault geometry.now length) }
{
    let wanted = file_length(geometry);
    if length < wanted {
        return Err(OpenFault::Short(wanted));
    }
    if length > wanted {
        return Err(OpenFault::Long(wanted));
    }
    Ok(())
}

/// Reads the head of a file.
pub fn read_head<F: FileBytes>(alloc: Global, file: &mut F) -> Result<Head, OpenFault>
    ensures ok { IfOk result (IsHead (F.FileBytes.seen file.old)) }
    ensures err { IfErr result (IsHeadFault (F.FileBytes.seen file.old)) }
    ensures seen { F.FileBytes.seen file.new ≡ F.FileBytes.seen file.old }
    ensures leaves { (c : List ℕ) → F.FileBytes.may_leave file.new c → F.FileBytes.may_leave file.old c }
    ensures usable { F.FileBytes.is_usable file.new ≡ F.FileBytes.is_usable file.old }
{
    let length = file.len();
    if length < 8 * HEAD_WORDS as u64 {
        return Err(OpenFault::NotADrive);
    }
    let words = read_words(alloc, file, 0, HEAD_WORDS)?;
    check_magic(words[0])?;
    let geometry = shape_of(&words);
    geometry.check().map_err(OpenFault::Geometry)?;
    check_length(&geometry, length)?;
    let boot = Boot {
        first: words[8],
        second: words[9],
    };
    Ok(Head { geometry, boot })
}
