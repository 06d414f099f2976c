ghost use Rattle.std.specs.Prelude.{◌≡◌, ◌+◌, ◌*◌, ◌<◌, ◌≤◌, false, true, IfErr, IfNone, IfOk, IfSome, List, ℕ, length, map};
ghost use Rattle.zone_states.specs.Geometry.{IsInRange};
ghost use Rattle.file_drive.specs.Faults.{IsReadFault};
ghost use Rattle.file_drive.specs.Found.{AreTables};
ghost use Rattle.file_drive.specs.InFile.{is_summed};
ghost use Rattle.file_drive.specs.Layout.{file_length};
ghost use Rattle.file_drive.specs.Opening.{are_proved, is_proved, proves_live};
ghost use Rattle.file_drive.specs.Sums.{kept_blocks};
ghost use Rattle.file_drive.specs.Tables.{entry_of};

use crate::entries::{are_few, entries_of, is_word};
use crate::entry::Entry;
use crate::fault::OpenFault;
use crate::layout::at_place;
use crate::sums::read_sum;
use crate::tables::Tables;
use file_bytes::FileBytes;
use std::alloc::Global;
use std::io;
use zone_drive::may_hold;
use zone_states::Geometry;

/// Whether a zone has the sum of the blocks that the file shows. Only those behind the blocks of the last flush are
/// read. `room` is as long as a block.
fn is_summed<F: FileBytes>(
    file: &mut F,
    geometry: &Geometry,
    index: usize,
    flushed: Entry,
    entry: Entry,
    room: &mut [u8],
) -> io::Result<bool>
    requires in_range { IsInRange geometry.now }
    requires long { length (F.FileBytes.seen file.old) ≡ file_length geometry.now }
    requires zone { index < geometry.now.zones }
    requires within { entry.written ≤ geometry.now.capacity }
    requires kept { kept_blocks flushed entry ≤ entry.written }
    requires room { length room.old ≡ geometry.now.block }
    ensures ok { IfOk result (λ summed.
        summed ≡ is_summed geometry.now (F.FileBytes.seen file.old) index flushed entry) }
    ensures room { length room.new ≡ length room.old }
    ensures seen { F.FileBytes.seen file.new ≡ F.FileBytes.seen file.old }
    ensures leaves { (c : List ℕ) → F.FileBytes.may_leave file.new c → F.FileBytes.may_leave file.old c }
    ensures usable { F.FileBytes.is_usable file.new ≡ F.FileBytes.is_usable file.old }
{
    let kept = entry.kept_blocks(flushed);
    let place = at_place(geometry, entry.place(index as u32));
    let at = place + u64::from(kept) * u64::from(geometry.block);
    let sum = read_sum(file, at, entry.written - kept, flushed.sum, room)?;
    Ok(sum == entry.sum)
}

/// Whether the file proves the word of a zone in the live table. `flushed` is the word of the last flush.
fn is_proved<F: FileBytes>(
    file: &mut F,
    geometry: &Geometry,
    index: usize,
    flushed: u64,
    word: u64,
    room: &mut [u8],
) -> io::Result<bool>
    requires in_range { IsInRange geometry.now }
    requires long { length (F.FileBytes.seen file.old) ≡ file_length geometry.now }
    requires zone { index < geometry.now.zones }
    requires room { length room.old ≡ geometry.now.block }
    ensures ok { IfOk result (λ proved.
        proved ≡ is_proved geometry.now (F.FileBytes.seen file.old) index flushed word) }
    ensures room { length room.new ≡ length room.old }
    ensures seen { F.FileBytes.seen file.new ≡ F.FileBytes.seen file.old }
    ensures leaves { (c : List ℕ) → F.FileBytes.may_leave file.new c → F.FileBytes.may_leave file.old c }
    ensures usable { F.FileBytes.is_usable file.new ≡ F.FileBytes.is_usable file.old }
{
    let entry = Entry::of_word(word);
    let last = Entry::of_word(flushed);
    if !is_word(geometry, word) {
        return Ok(false);
    }
    if !may_hold(entry.state, geometry.capacity, entry.written as usize) {
        return Ok(false);
    }
    if !entry.is_apart(last) {
        return Ok(false);
    }
    is_summed(file, geometry, index, last, entry, room)
}

/// Whether the file proves each word of the live table. `flushed` are the words of the last flush.
fn are_proved<F: FileBytes>(
    file: &mut F,
    geometry: &Geometry,
    flushed: &[u64],
    words: &[u64],
    room: &mut [u8],
) -> io::Result<bool>
    requires in_range { IsInRange geometry.now }
    requires long { length (F.FileBytes.seen file.old) ≡ file_length geometry.now }
    requires flushed { length flushed.now ≡ geometry.now.zones }
    requires words { length words.now ≡ geometry.now.zones }
    requires room { length room.old ≡ geometry.now.block }
    ensures ok { IfOk result (λ proved.
        proved ≡ are_proved geometry.now (F.FileBytes.seen file.old) 0 flushed.now words.now) }
    ensures seen { F.FileBytes.seen file.new ≡ F.FileBytes.seen file.old }
    ensures leaves { (c : List ℕ) → F.FileBytes.may_leave file.new c → F.FileBytes.may_leave file.old c }
    ensures usable { F.FileBytes.is_usable file.new ≡ F.FileBytes.is_usable file.old }
{
    for index in 0..words.len() {
        if !is_proved(file, geometry, index, flushed[index], words[index], room)? {
            return Ok(false);
        }
    }
    Ok(true)
}

/// The zones by the live table, if the file proves it. The blocks that were written since the last flush are read.
pub fn live_entries<F: FileBytes>(
    alloc: Global,
    file: &mut F,
    geometry: &Geometry,
    tables: &Tables,
) -> Result<Option<Vec<Entry>>, OpenFault>
    requires in_range { IsInRange geometry.now }
    requires long { length (F.FileBytes.seen file.old) ≡ file_length geometry.now }
    requires tables { AreTables geometry.now (F.FileBytes.seen file.old) tables.now }
    ensures proved { IfOk result (λ live.
        IfSome live (λ entries. proves_live geometry.now (F.FileBytes.seen file.old) ≡ true)) }
    ensures entries { IfOk result (λ live.
        IfSome live (λ entries. entries.items ≡ map entry_of tables.now.current.items)) }
    ensures unproved { IfOk result (λ live.
        IfNone live (proves_live geometry.now (F.FileBytes.seen file.old) ≡ false)) }
    ensures err { IfErr result IsReadFault }
    ensures seen { F.FileBytes.seen file.new ≡ F.FileBytes.seen file.old }
    ensures leaves { (c : List ℕ) → F.FileBytes.may_leave file.new c → F.FileBytes.may_leave file.old c }
    ensures usable { F.FileBytes.is_usable file.new ≡ F.FileBytes.is_usable file.old }
{
    let mut room = Vec::new(alloc);
    room.resize(geometry.block as usize, 0)?;
    if !are_proved(file, geometry, &tables.safe, &tables.current, &mut room)? {
        return Ok(None);
    }
    let entries = entries_of(alloc, &tables.current)?;
    if !are_few(geometry, &entries) {
        return Ok(None);
    }
    Ok(Some(entries))
}
