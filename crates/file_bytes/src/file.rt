ghost use Rattle.std.specs.Prelude.{◌≡◌, ◌+◌, ◌%◌, ◌^◌, ◌<◌, ◌≤◌, ◌↔◌, ℕ, Bool, List, length, IsTrue, OnErr, OnOk, is_ok};
ghost use Rattle.std.specs.Int.{to_le_bytes, w64};
ghost use Rattle.sqlite_disk.specs.Disk.{Follows, Holds, Only};
ghost use Rattle.file_bytes.specs.Changes.{SameBeside};

use std::io;

/// The bytes of one file, whose length never changes. Offsets and lengths are in bytes.
pub trait FileBytes {
    /// The bytes that a read returns.
    ghost seen: { Self → List ℕ };

    /// The bytes that the file may hold after a loss of power at this moment.
    ghost may_leave: { Self → List ℕ → Type 0 };

    /// The bytes that whoever opens the file later may read, if the system stays up and this program does nothing more.
    ghost may_show: { Self → List ℕ → Type 0 };

    /// No sync has failed.
    ghost is_usable: { Self → Bool };

    /// A word could not be written.
    ghost is_stuck: { Self → Bool };

    /// A loss of power may also leave just what a read returns.
    ghost seen_may_stay: { (file : Self) → may_leave file (seen file) };

    /// While no sync has failed, whoever opens the file later reads what a read returns.
    ghost seen_is_shown: { (file : Self) → IsTrue (is_usable file) → Only (seen file) (may_show file) };

    /// The length of the file, in bytes.
    fn len(&self) -> u64
        ensures { result ≡ length (seen self.now) };

    /// Fills `room` with the bytes from an offset on. After an error it holds any bytes. Nothing else changes.
    fn read(&mut self, at: u64, room: &mut [u8]) -> io::Result<()>
        requires within { at + length room.old ≤ length (seen self.old) }
        ensures read { OnOk result (Holds (seen self.old) at room.new) }
        ensures seen { seen self.new ≡ seen self.old }
        ensures leaves { (c : List ℕ) → may_leave self.new c ↔ may_leave self.old c }
        ensures shows { (c : List ℕ) → may_show self.new c ↔ may_show self.old c }
        ensures usable { is_usable self.new ≡ is_usable self.old }
        ensures stuck { is_stuck self.new ≡ is_stuck self.old };

    /// Writes these bytes from an offset on. After an error any part of the range may have changed.
    fn write(&mut self, at: u64, bytes: &[u8]) -> io::Result<()>
        requires within { at + length bytes.now ≤ length (seen self.old) }
        ensures written { OnOk result (Holds (seen self.new) at bytes.now) }
        ensures others { SameBeside at (length bytes.now) (seen self.old) (seen self.new) }
        ensures leaves { Follows (SameBeside at (length bytes.now)) (may_leave self.old) (may_leave self.new) }
        ensures usable { is_usable self.new ≡ is_usable self.old }
        ensures stuck { is_stuck self.new ≡ is_stuck self.old };

    /// Writes a word of 8 bytes, the lowest first, at a multiple of 8. After an error a read returns what was there
    /// before: a kill does not tear a word. A loss of power may. Also after a sync that failed a word can be written:
    /// whoever opens the file later reads it.
    fn write_word(&mut self, at: u64, word: u64) -> io::Result<()>
        requires within { at + 8 ≤ length (seen self.old) }
        requires aligned { at % 8 ≡ 0 }
        ensures written { OnOk result (Holds (seen self.new) at (to_le_bytes w64 word)) }
        ensures kept { OnErr result (seen self.new ≡ seen self.old) }
        ensures others { SameBeside at 8 (seen self.old) (seen self.new) }
        ensures leaves { Follows (SameBeside at 8) (may_leave self.old) (may_leave self.new) }
        ensures shows { Follows (SameBeside at 8) (may_show self.old) (may_show self.new) }
        ensures shown { OnOk result ((c : List ℕ) → may_show self.new c → Holds c at (to_le_bytes w64 word)) }
        ensures usable { is_usable self.new ≡ is_usable self.old }
        ensures stuck { OnOk result (is_stuck self.new ≡ is_stuck self.old) }
        ensures sticks { OnErr result (IsTrue (is_stuck self.new)) };

    /// Makes sure that a loss of power leaves just what a read returns. After an error what might be left before may
    /// still be left, and whoever opens the file later may read any of that. `sync` may not be called again.
    fn sync(&mut self) -> io::Result<()>
        requires { IsTrue (is_usable self.old) }
        ensures durable { OnOk result (Only (seen self.old) (may_leave self.new)) }
        ensures seen { seen self.new ≡ seen self.old }
        ensures usable { is_usable self.new ≡ is_ok result }
        ensures leaves { (c : List ℕ) → may_leave self.new c → may_leave self.old c }
        ensures shows { OnErr result ((c : List ℕ) → may_show self.new c → may_leave self.old c) }
        ensures stuck { is_stuck self.new ≡ is_stuck self.old };

    /// Gives the room of a range back to the system. Then a read of the range returns any bytes. A file that cannot do
    /// that stays as it is.
    fn release(&mut self, at: u64, count: u64)
        requires { at + count ≤ length (seen self.old) }
        ensures others { SameBeside at count (seen self.old) (seen self.new) }
        ensures leaves { Follows (SameBeside at count) (may_leave self.old) (may_leave self.new) }
        ensures usable { is_usable self.new ≡ is_usable self.old }
        ensures stuck { is_stuck self.new ≡ is_stuck self.old };
}
