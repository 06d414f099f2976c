ghost use Rattle.std.specs.Prelude.{◌≡◌, ◌+◌, ◌*◌, ◌%◌, ◌^◌, ◌<◌, ◌≤◌, Some, drop, length, refl, take, true, IfOk, OnErr, OnOk};
ghost use Rattle.std.specs.List.{splice};
ghost use Rattle.sqlite_disk.specs.Disk.{Holds};
ghost use Rattle.file_bytes.specs.Overlay.{IsPage, IsShown, WritesMore, overlaid, place_of};

use crate::file::FileBytes;
use crate::memory::no_memory;
use indexmap::IndexSet;
use std::alloc::Global;
use std::io;
use std::marker::Model;

/// How many bytes a page has.
const PAGE: usize = 4096;

/// A file that is only read. What is written to it is kept in memory, by pages, and is forgotten with this value.
#[derive(Drop)]
pub struct ReadOnlyFile<F: FileBytes + Drop> {
    inner: F,
    /// Its length in bytes.
    size: u64,
    /// The numbers of the pages that were written.
    pages: IndexSet<u64>,
    /// Their bytes, one page after the other.
    kept: Vec<u8>,
}

impl<F: FileBytes + Drop> Model for ReadOnlyFile<F> {
    ghost use Rattle.file_bytes.specs.Overlay.{IsKept, Overlay};

    ghost Value = { Overlay F };

    ghost view = { λ f. record {
      inner = f.inner;
      pages = f.pages.keys;
      kept = f.kept.items;
    } };

    ghost invariant = { λ f. IsKept (F.seen f.inner) f.size f.pages.keys f.kept.items };
}

/// The bytes of a page of a file, with zeros past the end of the file.
fn page_of<F: FileBytes>(alloc: Global, inner: &mut F, number: u64) -> io::Result<Vec<u8>>
    requires { 4096 * number < length (F.FileBytes.seen inner.old) }
    ensures page { IfOk result (λ page. IsPage (F.FileBytes.seen inner.old) number page.items) }
    ensures seen { F.FileBytes.seen inner.new ≡ F.FileBytes.seen inner.old }
{
    let size = inner.len();
    let at = number * PAGE as u64;
    let count = (PAGE as u64).min(size - at) as usize;
    let mut page = Vec::new(alloc);
    page.resize(count, 0).map_err(|_| no_memory())?;
    inner.read(at, &mut page)?;
    page.resize(PAGE, 0).map_err(|_| no_memory())?;
    Ok(page)
}

/// Puts a part of other bytes in the place of the bytes from an offset on.
fn put(bytes: &mut [u8], at: usize, others: &[u8], from: usize, count: usize)
    requires room { at + count ≤ length bytes.old }
    requires part { from + count ≤ length others.now }
    ensures { bytes.new ≡ splice bytes.old at (at + count) (take count (drop from others.now)) }
{
    bytes[at..at + count].copy_from_slice(&others[from..from + count]);
}

/// The same in a vector, which stays as long as it is.
fn put_in(bytes: &mut Vec<u8>, at: usize, others: &[u8], from: usize, count: usize)
    requires room { at + count ≤ length bytes.old.items }
    requires part { from + count ≤ length others.now }
    ensures { bytes.new.items ≡ splice bytes.old.items at (at + count) (take count (drop from others.now)) }
{
    put(bytes, at, others, from, count);
}

/// How many of the bytes from an offset on are in its page.
fn count_in_page(at: u64, left: usize) -> usize
    requires { 1 ≤ left }
    ensures some { 1 ≤ result }
    ensures few { result ≤ left }
    ensures one { at % 4096 + result ≤ 4096 }
{
    (PAGE - (at % PAGE as u64) as usize).min(left)
}

impl<F: FileBytes + Drop> ReadOnlyFile<F> {
    /// The same file, of which no write reaches the one within.
    pub fn new(alloc: Global, inner: F) -> ReadOnlyFile<F>
        ensures inner { result.inner ≡ inner }
        ensures shown { overlaid F.FileBytes.seen result ≡ F.FileBytes.seen inner }
    {
        let size = inner.len();
        ReadOnlyFile {
            inner,
            size,
            pages: IndexSet::new(alloc),
            kept: Vec::new(alloc),
        }
    }

    /// The file within.
    pub fn into_inner(self) -> F
        ensures { result ≡ self.inner }
    {
        self.inner
    }

    /// Where the bytes of a page begin, if it is kept.
    fn place_of(&self, number: u64) -> Option<usize>
        ensures { result ≡ place_of self.now.pages number }
    {
        let slot = self.pages.get_index_of(&number)?;
        Some(PAGE * slot)
    }

    /// Keeps a page. It is shown as before.
    fn keep_page(&mut self, number: u64) -> io::Result<usize>
        requires { 4096 * number < length (F.FileBytes.seen self.old.inner) }
        ensures inner { F.FileBytes.seen self.new.inner ≡ F.FileBytes.seen self.old.inner }
        ensures place { IfOk result (λ place. place_of self.new.pages number ≡ Some place) }
        ensures shown { overlaid F.FileBytes.seen self.new ≡ overlaid F.FileBytes.seen self.old }
    {
        if let Some(place) = self.place_of(number) {
            return Ok(place);
        }
        let place = self.kept.len();
        let page = page_of(*self.kept.allocator(), &mut self.inner, number)?;
        if let Err(_full) = self.kept.extend_from_slice(&page) {
            return Err(no_memory());
        }
        if let Err(_refused) = self.pages.insert(number) {
            self.kept.truncate(place);
            return Err(no_memory());
        }
        Ok(place)
    }

    /// Shows more bytes of a room, which are in one page.
    fn show_more(&self, at: u64, room: &mut [u8], done: usize, count: usize)
        requires small { length (F.FileBytes.seen self.now.inner) < 2 ^ 64 }
        requires one { (at + done) % 4096 + count ≤ 4096 }
        requires within { done + count ≤ length room.old }
        requires shown { IsShown (F.FileBytes.seen self.now.inner) (overlaid F.FileBytes.seen self.now) at done
            room.old }
        ensures long { length room.new ≡ length room.old }
        ensures shown { IsShown (F.FileBytes.seen self.now.inner) (overlaid F.FileBytes.seen self.now) at (done + count)
            room.new }
    {
        let first = at + done as u64;
        if let Some(place) = self.place_of(first / PAGE as u64) {
            let from = place + (first % PAGE as u64) as usize;
            put(room, done, &self.kept, from, count);
        }
    }

    /// Puts what is kept over the bytes of the file within.
    fn show(&self, at: u64, room: &mut [u8])
        requires small { length (F.FileBytes.seen self.now.inner) < 2 ^ 64 }
        requires read { Holds (F.FileBytes.seen self.now.inner) at room.old }
        ensures { Holds (overlaid F.FileBytes.seen self.now) at room.new }
    {
        let mut done = 0;
        while done < room.len() {
            let count = count_in_page(at + done as u64, room.len() - done);
            self.show_more(at, room, done, count);
            done += count;
        }
    }

    /// Writes more of these bytes, which are in one page.
    fn write_more(&mut self, at: u64, bytes: &[u8], done: usize, count: usize) -> io::Result<()>
        requires small { length (F.FileBytes.seen self.old.inner) < 2 ^ 64 }
        requires some { 1 ≤ count }
        requires one { (at + done) % 4096 + count ≤ 4096 }
        requires few { done + count ≤ length bytes.now }
        requires within { at + length bytes.now ≤ length (F.FileBytes.seen self.old.inner) }
        ensures inner { F.FileBytes.seen self.new.inner ≡ F.FileBytes.seen self.old.inner }
        ensures ok { OnOk result (WritesMore (overlaid F.FileBytes.seen self.old) (overlaid F.FileBytes.seen self.new)
            (at + done) (take count (drop done bytes.now))) }
        ensures err { OnErr result (overlaid F.FileBytes.seen self.new ≡ overlaid F.FileBytes.seen self.old) }
    {
        let first = at + done as u64;
        let place = self.keep_page(first / PAGE as u64)?;
        let from = place + (first % PAGE as u64) as usize;
        put_in(&mut self.kept, from, bytes, done, count);
        Ok(())
    }
}

impl<F: FileBytes + Drop> FileBytes for ReadOnlyFile<F> {
    ghost seen = { λ f. overlaid F.FileBytes.seen f };

    ghost may_leave = { λ f left. left ≡ overlaid F.FileBytes.seen f };

    ghost may_show = { λ f shown. shown ≡ overlaid F.FileBytes.seen f };

    ghost is_usable = { λ _. true };

    // No sync fails, so it is of no use to anybody.
    ghost is_stuck = { λ _. true };

    ghost seen_may_stay = { λ _. refl };

    ghost seen_is_shown = { λ f usable shown is. is };

    fn len(&self) -> u64 {
        self.size
    }

    fn read(&mut self, at: u64, room: &mut [u8]) -> io::Result<()> {
        self.inner.read(at, room)?;
        self.show(at, room);
        Ok(())
    }

    fn write(&mut self, at: u64, bytes: &[u8]) -> io::Result<()> {
        // The proof has to know how long the file is.
        let _ = &self.inner;
        let mut done = 0;
        while done < bytes.len() {
            let count = count_in_page(at + done as u64, bytes.len() - done);
            self.write_more(at, bytes, done, count)?;
            done += count;
        }
        Ok(())
    }

    fn write_word(&mut self, at: u64, word: u64) -> io::Result<()> {
        // As in `write`.
        let _ = &self.inner;
        self.write_more(at, &word.to_le_bytes(), 0, 8)
    }

    /// Nothing of it takes room on the disk.
    fn release(&mut self, _at: u64, _count: u64) {}

    /// A loss of power leaves nothing of what is in memory, and the file within is as it was.
    fn sync(&mut self) -> io::Result<()> {
        Ok(())
    }
}
