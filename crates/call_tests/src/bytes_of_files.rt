ghost use Rattle.std.specs.Prelude.{refl};
ghost use Rattle.std.proofs.Common.{inl};
ghost use Rattle.file_bytes.specs.Pending.{MayLeave, MayShow};

use file_bytes::{FileBytes, MemoryFile, ReadAheadFile, ReadOnlyFile, StoppingFile};
use std::alloc::Global;
use std::io;
use std::test::Fail;

#[test]
fn a_loss_of_power_takes_what_was_not_synced(rt: HostRuntime) -> Result<(), Fail> {
    let mut file = MemoryFile::new(rt.alloc(), 4)?;
    file.write(0, b"ab")?;
    file.sync()?;
    file.write(1, b"cd")?;
    assert_eq!(rt; file.bytes(), b"acd\0".as_slice());
    assert!(rt; !file.may_leave(b"xcd\0"));
    assert!(rt; !file.may_leave(b"acd"));
    assert!(rt; file.lose_power(b"axd\0")?);
    assert_eq!(rt; file.bytes(), b"axd\0".as_slice());
    assert!(rt; !file.may_leave(b"acd\0"));
    Ok(())
}

/// A sync fails, and then a word is written: whether older bytes may be read later, but not another word.
#[test]
fn a_failed_sync_may_show_what_was_not_synced(rt: HostRuntime) -> Result<(), Fail> {
    let mut file = MemoryFile::new(rt.alloc(), 16)?;
    file.write(0, b"abcd")?;
    assert!(rt; !file.may_show(b"axcd\0\0\0\0\0\0\0\0\0\0\0\0"));
    file.sync()?;
    file.write(1, b"ef")?;
    file.write_word(8, 1)?;
    file.fail_sync(0);
    assert!(rt; file.sync().is_err());
    assert!(rt; file.may_show(b"abxd\0\0\0\0\0\0\0\0\0\0\0\0"));
    assert!(rt; !file.may_show(b"xbcd\0\0\0\0\0\0\0\0\0\0\0\0"));
    file.write_word(8, 3)?;
    assert!(rt; !file.open_again(b"abcd\0\0\0\0\x01\0\0\0\0\0\0\0")?);
    assert!(rt; file.open_again(b"abcd\0\0\0\0\x03\0\0\0\0\0\0\0")?);
    assert_eq!(rt; file.bytes(), b"abcd\0\0\0\0\x03\0\0\0\0\0\0\0".as_slice());
    assert!(rt; file.may_leave(b"aefd\0\0\0\0\0\0\0\0\0\0\0\0"));
    Ok(())
}

#[test]
fn a_stopping_file_tears_the_next_range(rt: HostRuntime) -> Result<(), Fail> {
    let file = MemoryFile::new(rt.alloc(), 4)?;
    let mut file = StoppingFile::new(file, 2, 1);
    file.write(0, b"ab")?;
    file.sync()?;
    assert!(rt; file.write(0, b"cd").is_err());
    assert!(rt; file.sync().is_err());
    assert!(rt; file.write(0, b"ef").is_err());
    assert_eq!(rt; file.into_inner().bytes(), b"cb\0\0".as_slice());
    Ok(())
}

/// A file in memory that counts the reads that it is asked.
#[derive(Drop)]
struct CountingFile {
    file: MemoryFile,
    reads: u64,
}

impl FileBytes for CountingFile {
    ghost seen = { λ f. f.file.bytes };

    ghost may_leave = { λ f. MayLeave f.file };

    ghost may_show = { λ f. MayShow f.file };

    ghost is_usable = { λ f. f.file.usable };

    ghost is_stuck = { λ f. f.file.stuck };

    ghost seen_may_stay = { λ f. inl refl };

    ghost seen_is_shown = { λ f usable shown may. may.seen usable };

    fn len(&self) -> u64 {
        self.file.len()
    }

    fn read(&mut self, at: u64, room: &mut [u8]) -> io::Result<()> {
        self.reads = self.reads.saturating_add(1);
        self.file.read(at, room)
    }

    fn write(&mut self, at: u64, bytes: &[u8]) -> io::Result<()> {
        self.file.write(at, bytes)
    }

    fn write_word(&mut self, at: u64, word: u64) -> io::Result<()> {
        self.file.write_word(at, word)
    }

    fn sync(&mut self) -> io::Result<()> {
        self.file.sync()
    }

    fn release(&mut self, at: u64, count: u64) {
        self.file.release(at, count);
    }
}

/// A file of that many bytes that counts its reads, and reads ahead.
fn counted(alloc: Global, len: usize) -> Option<ReadAheadFile<CountingFile>> {
    let file = MemoryFile::new(alloc, len).ok()?;
    Some(ReadAheadFile::new(alloc, CountingFile { file, reads: 0 }))
}

/// Writes one byte, if the file has it.
fn put(file: &mut ReadAheadFile<CountingFile>, at: u64, byte: u8) -> Option<()> {
    if at >= file.len() {
        return None;
    }
    file.write(at, &[byte]).ok()
}

/// The first of 4096 bytes that are read, if the file has them.
fn first_of(file: &mut ReadAheadFile<CountingFile>, at: u64) -> Option<u8> {
    let mut room = [0; 4096];
    if file.len() < 4096 || at > file.len() - 4096 {
        return None;
    }
    file.read(at, &mut room).ok()?;
    Some(room[0])
}

/// Reads 1024 headers, every other block of a file: how many calls that takes. Each has to have its own number.
fn calls_for_headers(alloc: Global) -> Option<u64> {
    let mut file = counted(alloc, 1 << 23)?;
    for number in 0..1024 {
        put(&mut file, number * 8192, (number % 251) as u8)?;
    }
    for number in 0..1024 {
        if first_of(&mut file, number * 8192)? != (number % 251) as u8 {
            return None;
        }
    }
    Some(file.into_inner().reads)
}

/// The first call reads one header, the next ones 2, 4, 8, 16 and then 32 of them. The last one reads one more.
#[test]
fn headers_are_read_together(rt: HostRuntime) -> Result<(), Fail> {
    assert_eq!(rt; calls_for_headers(rt.alloc()), Some(37));
    Ok(())
}

/// Reads that jump: how many calls they take.
fn calls_for_jumps(alloc: Global) -> Option<u64> {
    let mut file = counted(alloc, 1 << 20)?;
    for at in [0, 500000, 100000, 700000, 300000] {
        first_of(&mut file, at)?;
    }
    Some(file.into_inner().reads)
}

#[test]
fn a_jump_reads_what_it_is_asked(rt: HostRuntime) -> Result<(), Fail> {
    assert_eq!(rt; calls_for_jumps(rt.alloc()), Some(5));
    Ok(())
}

#[test]
fn a_change_is_read_at_once(rt: HostRuntime) -> Result<(), Fail> {
    let alloc = rt.alloc();
    let mut file = ReadAheadFile::new(alloc, MemoryFile::new(alloc, 65536)?);
    let mut room = [9; 4];
    file.read(0, &mut room)?;
    file.read(4, &mut room)?;
    assert_eq!(rt; room, [0; 4]);
    file.write(10, b"ab")?;
    file.read(8, &mut room)?;
    assert_eq!(rt; room, [0, 0, 97, 98]);
    file.read(12, &mut room)?;
    file.write_word(16, 0x0807_0605_0403_0201)?;
    file.read(16, &mut room)?;
    assert_eq!(rt; room, [1, 2, 3, 4]);
    file.sync()?;
    file.release(17, 2);
    file.read(16, &mut room)?;
    assert_eq!(rt; room, [1, 0, 0, 4]);
    file.read(65532, &mut room)?;
    assert_eq!(rt; room, [0; 4]);
    Ok(())
}

#[test]
fn a_loss_of_power_may_take_a_release_back(rt: HostRuntime) -> Result<(), Fail> {
    let mut file = MemoryFile::new(rt.alloc(), 4)?;
    file.write(0, b"abcd")?;
    file.sync()?;
    file.release(1, 2);
    assert_eq!(rt; file.bytes(), b"a\0\0d".as_slice());
    assert!(rt; file.may_leave(b"abcd"));
    assert!(rt; !file.may_leave(b"a\0\0x"));
    file.sync()?;
    assert!(rt; !file.may_leave(b"abcd"));
    Ok(())
}

/// What a file that is only read shows after writes in three of its pages, and what the file within has.
fn shown_over(alloc: Global) -> Option<bool> {
    let mut file = ReadOnlyFile::new(alloc, MemoryFile::new(alloc, 12_300).ok()?);
    if file.len() < 12_300 {
        return None;
    }
    file.write(4_095, &[7; 4_098]).ok()?;
    if file.len() < 12_300 {
        return None;
    }
    file.write_word(12_288, 0x0101_0101_0101_0101).ok()?;
    if file.len() < 12_300 {
        return None;
    }
    let mut room = [0; 12_300];
    file.read(0, &mut room).ok()?;
    let is_shown = (0..12_300).all(|at| {
        let byte = if at >= 4_095 && at < 8_193 {
            7
        } else if at >= 12_288 && at < 12_296 {
            1
        } else {
            0
        };
        room[at] == byte
    });
    Some(is_shown && file.into_inner().bytes().iter().all(|byte| *byte == 0))
}

#[test]
fn a_file_that_is_only_read_stays(rt: HostRuntime) -> Result<(), Fail> {
    assert_eq!(rt; shown_over(rt.alloc()), Some(true));
    Ok(())
}
