ghost use Rattle.std.specs.Prelude.{◌≡◌, ◌⊎◌, ◌↔◌, ◌<◌, ◌≤◌, false, true};
ghost use Rattle.std.specs.Prelude.{IfErr, IfNone, IfOk, IfSome, IsTrue, OnOk, length, nat_eq, take};
ghost use Rattle.std.specs.List.{starts_with};
ghost use Rattle.std.specs.Io.KnownBytes.{Consumes, IsAtEnd};
ghost use Rattle.zone_states.specs.Geometry.{IsInRange};
ghost use Rattle.drive_images.specs.Meaning.{is_of_bytes};
ghost use Rattle.drive_journal.specs.Change.{beside_blocks, changes, data_length, mark, sum_bytes};
ghost use Rattle.drive_journal.specs.Reading.{FindsBody, FindsChange, FindsEnd, IsOther, IsSealedEntry};

use crate::change::{EARLIER_MARK, MARK, Sum, sum_bytes, sum_over};
use crate::found::Found;
use disk_files::fill;
use drive_images::ImageFault;
use nvme_wire::{Command, DecodeFault};
use std::io::Read;
use zone_states::Geometry;

/// Replaces the contents of `bytes` by `count` bytes of the reader, and answers how many it had.
/// If it had fewer, zeros follow.
fn fill_bytes<R: Read>(
    reader: &mut R,
    bytes: &mut Vec<u8>,
    count: usize,
) -> Result<usize, ImageFault>
    ensures read { IfOk result (λ n.
        Consumes (R.remaining reader.old) (R.remaining reader.new) (take n bytes.new.items)) }
    ensures bound { IfOk result (λ n. n ≤ count) }
    ensures ended { IfOk result (λ n. n < count → IsAtEnd (R.remaining reader.new)) }
    ensures length { OnOk result (length bytes.new.items ≡ count) }
    ensures err { IfErr result (λ fault. is_of_bytes fault ≡ false) }
{
    bytes.clear();
    bytes.resize(count, 0)?;
    Ok(fill(reader, bytes)?)
}

/// How many blocks of data a command has that changes a drive of this shape. Any other command has
/// `None`.
fn data_blocks(geometry: &Geometry, command: Result<Command, DecodeFault>) -> Option<u32>
    ensures changes { IfSome result (λ blocks. changes command ≡ true) }
    ensures blocks { IfSome result (λ blocks. blocks ≡ beside_blocks command) }
    ensures few { IfSome result (λ blocks. blocks ≤ geometry.now.transfer) }
    ensures none { IfNone result ((changes command ≡ false) ⊎ (geometry.now.transfer < beside_blocks command)) }
{
    let blocks = match command {
        Ok(Command::Write { blocks, .. } | Command::Append { blocks, .. }) => blocks,
        Ok(Command::Send { .. }) => 0,
        _ => return None,
    };
    if blocks > geometry.transfer {
        return None;
    }
    Some(blocks)
}

/// Whether these are the bytes of a sum.
fn is_sum(bytes: &[u8; 8], sum: Sum) -> bool
    ensures { IsTrue result ↔ (bytes.now ≡ sum_bytes sum) }
{
    *bytes == sum_bytes(sum)
}

/// How many bytes of data the change of this entry has. `None` if the entry and the bytes after
/// it, which should be the sum, are no head of a change.
fn data_length(geometry: &Geometry, sum: Sum, entry: &[u8; 64], sealed: &[u8; 8]) -> Option<usize>
    requires { IsInRange geometry.now }
    ensures some { IfSome result (λ count. IsSealedEntry geometry.now sum entry.now sealed.now) }
    ensures count { IfSome result (λ count. count ≡ data_length geometry.now entry.now) }
    ensures none { IfNone result (IsSealedEntry geometry.now sum entry.now sealed.now → ⊥) }
{
    let blocks = data_blocks(geometry, Command::decode(entry))?;
    if !is_sum(sealed, sum_over(sum, entry)) {
        return None;
    }
    Some(blocks as usize * geometry.block as usize)
}

/// Judges a change that has its full length and a wrong last sum. If nothing follows, it was cut
/// off. Else it is damaged.
fn find_end<R: Read>(reader: &mut R) -> Result<Found, ImageFault>
    ensures ok { IfOk result (λ found. FindsEnd (R.remaining reader.old) found) }
    ensures err { IfErr result (λ fault. is_of_bytes fault ≡ false) }
{
    let mut next = [0];
    if fill(reader, &mut next)? == 0 {
        return Ok(Found::CutOff);
    }
    Ok(Found::Damaged)
}

/// Reads what follows the mark of a change: its entry, its data, and the sums after both.
fn read_body<R: Read>(
    reader: &mut R,
    geometry: &Geometry,
    sum: Sum,
    entry: &mut [u8; 64],
    bytes: &mut Vec<u8>,
) -> Result<Found, ImageFault>
    requires { IsInRange geometry.now }
    ensures ok { IfOk result (λ found. FindsBody geometry.now sum (R.remaining reader.old) (R.remaining reader.new)
        (record { entry = entry.new; bytes = bytes.new.items }) found) }
    ensures err { IfErr result (λ fault. is_of_bytes fault ≡ false) }
{
    let mut sealed = [0; 8];
    if fill(reader, entry)? < 64 {
        return Ok(Found::CutOff);
    }
    if fill(reader, &mut sealed)? < 8 {
        return Ok(Found::CutOff);
    }
    let Some(count) = data_length(geometry, sum, entry, &sealed) else {
        return Ok(Found::Damaged);
    };
    if fill_bytes(reader, bytes, count)? < count {
        return Ok(Found::CutOff);
    }
    let mut last = [0; 8];
    if fill(reader, &mut last)? < 8 {
        return Ok(Found::CutOff);
    }
    let next = sum_over(sum_over(sum, entry), bytes);
    if !is_sum(&last, next) {
        return find_end(reader);
    }
    Ok(Found::Change(next))
}

/// Whether these bytes are the mark or a beginning of it.
fn is_front_of_mark(bytes: &[u8]) -> bool
    ensures { result ≡ starts_with nat_eq mark bytes.now }
{
    MARK.starts_with(bytes)
}

/// Judges bytes that are neither the mark nor a beginning of it.
fn find_other(bytes: &[u8]) -> Found
    ensures { IsOther bytes.now result }
{
    if bytes == EARLIER_MARK.as_slice() {
        return Found::Earlier;
    }
    Found::Other
}

/// Reads the next change: its entry and its data. `sum` is the sum before it.
pub(crate) fn read_change<R: Read>(
    reader: &mut R,
    geometry: &Geometry,
    sum: Sum,
    entry: &mut [u8; 64],
    bytes: &mut Vec<u8>,
) -> Result<Found, ImageFault>
    requires { IsInRange geometry.now }
    ensures ok { IfOk result (λ found. FindsChange geometry.now sum (R.remaining reader.old) (R.remaining reader.new)
        (record { entry = entry.new; bytes = bytes.new.items }) found) }
    ensures err { IfErr result (λ fault. is_of_bytes fault ≡ false) }
{
    let mut mark = [0; 8];
    let count = fill(reader, &mut mark)?;
    if count == 0 {
        return Ok(Found::End);
    }
    if !is_front_of_mark(&mark[..count]) {
        return Ok(find_other(&mark[..count]));
    }
    if count < 8 {
        return Ok(Found::CutOff);
    }
    read_body(reader, geometry, sum, entry, bytes)
}
