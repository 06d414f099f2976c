//! What holds of all files of drives. Each function carries one law as its contract, and changes nothing.

ghost use Rattle.std.specs.Prelude.{◌≡◌, ◌++◌, ◌≤◌, [], false, List, Some, take, true, ℕ};
ghost use Rattle.std.specs.List.{AllByRecursion};
ghost use Rattle.zone_states.specs.declared.geometry.Geometry.{Geometry};
ghost use Rattle.drive_port.specs.Drive.{DriveState, IsLawful};
ghost use Rattle.drive_port.specs.Run.{restarted};
ghost use Rattle.drive_images.specs.Image.{IsImage};
ghost use Rattle.drive_journal.specs.Change.{Change, HasNoChange, IsChange, IsSum, Sum, change_bytes};
ghost use Rattle.drive_journal.specs.Change.{cut_rest, journal_bytes, last_sum, start, whole_in};
ghost use Rattle.drive_journal.specs.DamagedFile.{IsDamagedFile, damaged_at};
ghost use Rattle.drive_journal.specs.File.{IsDriveFile, IsStored, IsStoredWhole, whole_length};
ghost use Rattle.drive_journal.specs.FileFaults.{IsFileFault, is_of_file};
ghost use Rattle.drive_journal.specs.Journaling.{IsInStep, Journaled};
ghost use Rattle.drive_journal.specs.Moments.{IsOfAMoment, RunsSince};
ghost use Rattle.drive_journal.specs.Tail.{IsCutOff};
ghost use Rattle.drive_journal.specs.declared.fault.ReadFault.{ReadFault};
ghost use Rattle.drive_journal.specs.declared.fault.ReadFault.TheVariants.{Damaged};

/// Bytes are read as one list of changes at most, and what is left after it.
pub fn one_reading()
    ensures { (geometry : Geometry) (sum : Sum) (a b : List Change) (x y : List ℕ) →
        AllByRecursion (IsChange geometry) a → AllByRecursion (IsChange geometry) b →
        HasNoChange geometry (last_sum sum a) x → HasNoChange geometry (last_sum sum b) y →
        journal_bytes sum a ++ x ≡ journal_bytes sum b ++ y → (a ≡ b) × (x ≡ y) }
{}

/// A change is read only after the changes that it was written after: after others, whose sum differs, it is none.
pub fn changes_are_chained()
    ensures { (geometry : Geometry) (sum other : Sum) (change : Change) (rest : List ℕ) →
        IsSum sum → IsSum other → (sum ≡ other → ⊥) → IsChange geometry change →
        HasNoChange geometry sum (change_bytes other change ++ rest) }
{}

/// Changes of one run, and then the rest of those of another run, which were written after other sums: what is read
/// are the changes of the one run, and no change of the other comes back.
pub fn no_change_comes_back()
    ensures { (geometry : Geometry) (sum other : Sum) (changes later found : List Change) (rest : List ℕ) →
        IsSum sum → IsSum other → (last_sum sum changes ≡ other → ⊥) →
        AllByRecursion (IsChange geometry) changes → AllByRecursion (IsChange geometry) later →
        AllByRecursion (IsChange geometry) found → HasNoChange geometry (last_sum sum found) rest →
        journal_bytes sum found ++ rest ≡ journal_bytes sum changes ++ journal_bytes other later →
        (found ≡ changes) × (rest ≡ journal_bytes other later) }
{}

/// Changes that were cut off anywhere are the whole ones, and then one that was cut off, or nothing.
pub fn cut_anywhere()
    ensures text { (sum : Sum) (changes : List Change) (n : ℕ) →
        take n (journal_bytes sum changes)
        ≡ journal_bytes sum (take (whole_in sum n changes) changes) ++ cut_rest sum n changes }
    ensures cut_off { (geometry : Geometry) (sum : Sum) (changes : List Change) (n : ℕ) →
        AllByRecursion (IsChange geometry) changes →
        IsCutOff geometry (last_sum sum (take (whole_in sum n changes) changes)) (cut_rest sum n changes) }
{}

/// Damage is not taken for a cut: where a change of its whole length has a wrong sum, and bytes follow it, the file is
/// refused by `Damaged` at the byte where the change begins, unless the reader fails or memory runs out.
pub fn damage_is_refused()
    ensures unread { (bytes : List ℕ) (drive : DriveState) (whole : ℕ) (sum : Sum) →
        IsDamagedFile bytes → IsDriveFile bytes drive whole sum → ⊥ }
    ensures fault { (bytes : List ℕ) (fault : ReadFault) → (damaged : IsDamagedFile bytes) →
        IsFileFault bytes fault → is_of_file fault ≡ true → fault ≡ Damaged (damaged_at damaged) }
{}

/// The image of a drive stores it.
pub fn image_is_stored()
    ensures { (bytes : List ℕ) (drive : DriveState) → IsImage bytes drive → IsStoredWhole bytes drive start }
{}

/// Bytes that store a drive store it when it is restarted.
pub fn restart_is_stored()
    ensures { (bytes : List ℕ) (drive : DriveState) → IsStored bytes drive → IsStored bytes (restarted drive) }
{}

/// The whole bytes of a file store the drive that was read in it, so more changes may be written after them.
pub fn opened_is_stored()
    ensures { (bytes : List ℕ) (drive : DriveState) (whole : ℕ) (sum : Sum) →
        IsDriveFile bytes drive whole sum → IsStoredWhole (take whole bytes) drive sum }
{}

/// What a file stores is read in it: the drive that is read is the stored one, up to a restart of both, and says
/// nothing of a loss of power. No byte after the whole ones is taken for a change.
pub fn stored_is_read()
    ensures drive { (bytes : List ℕ) (drive opened : DriveState) (whole : ℕ) (sum : Sum) →
        IsStored bytes drive → IsDriveFile bytes opened whole sum →
        restarted opened ≡ record (restarted drive) { durable = []; clean = true; unfailing = true } }
    ensures whole { (bytes : List ℕ) (drive opened : DriveState) (whole : ℕ) (sum : Sum) →
        (stored : IsStored bytes drive) → IsDriveFile bytes opened whole sum → whole ≡ whole_length stored.parts }
{}

/// A run that is killed: however the file is cut after what it held when the run began, or when it was last written
/// anew, it stores the drive of a moment of the run. So it does where it is cut after what it held when a reply was
/// sent: the run after that reply is a run too.
pub fn cut_at_a_moment()
    ensures { (first last : Journaled) (bytes : List ℕ) (since n : ℕ) → IsInStep first →
        RunsSince first since last → last.contents ≡ Some bytes → since ≤ n → IsOfAMoment first last (take n bytes) }
{}

/// What stores a drive is never refused: a drive is read in it, unless the reader fails or memory runs out.
pub fn stored_has_no_fault()
    ensures { (bytes : List ℕ) (drive : DriveState) (fault : ReadFault) → IsStored bytes drive → IsLawful drive →
        IsFileFault bytes fault → is_of_file fault ≡ false }
{}
