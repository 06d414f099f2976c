ghost use Rattle.std.specs.Prelude.{◌≡◌, IfErr, IfOk, IfSome, false};
ghost use Rattle.drive_journal.specs.Cut.{front_of};
ghost use Rattle.drive_journal.specs.File.{IsStoredWhole};
ghost use Rattle.drive_journal.specs.FileFaults.{IsFileFault};
ghost use Rattle.job_drives.specs.Kept.{IsReadIn, IsRestarted};

use drive_journal::{ChangeStore, Journaling, ReadFault, START, Sum, open_drive};
use std::alloc::Global;
use std::io::Read;
use zone_drive::{Drive, Habit};

/// The file of a drive: what it holds, and the store that writes after that.
#[derive(Drop)]
pub struct DriveFile<I: Read + Drop, S: ChangeStore<Drive> + Drop> {
    pub bytes: I,
    pub store: S,
}

/// The drive that a run begins with.
#[derive(Drop)]
pub struct Begun {
    pub drive: Drive,
    /// How many bytes of its file are the image and whole changes; 0 if no file has it.
    pub whole: u64,
    /// The sum from which the next change goes on; `START` if no file has it.
    pub sum: Sum,
    /// Whether its file is the image of the drive at rest, and nothing more; `false` if no file has it.
    pub is_image: bool,
}

impl Begun {
    /// A drive that no file has.
    pub fn fresh(drive: Drive) -> Begun
        ensures drive { result.drive ≡ drive }
        ensures image { result.is_image ≡ false }
    {
        Begun {
            drive,
            whole: 0,
            sum: START,
            is_image: false,
        }
    }
}

/// Reads the drive in a file, restarts it, and gives it a habit.
pub fn restarted_drive<I: Read>(
    alloc: Global,
    file: &mut I,
    habit: Habit,
) -> Result<Begun, ReadFault>
    ensures ok { IfOk result (λ begun. IsRestarted (I.remaining file.old) habit begun) }
    ensures err { IfErr result (λ fault. IfSome (I.remaining file.old) (λ bytes. IsFileFault bytes fault)) }
{
    let opened = open_drive(alloc, file)?;
    let mut drive = opened.drive;
    drive.restart();
    drive.set_habit(habit);
    Ok(Begun {
        drive,
        whole: opened.whole,
        sum: opened.sum,
        is_image: opened.is_image,
    })
}

/// Reads the drive in a file, as it was saved.
pub fn saved_drive<I: Read>(alloc: Global, file: &mut I) -> Result<Drive, ReadFault>
    ensures ok { IfOk result (λ drive. IsReadIn (I.remaining file.old) drive.state) }
    ensures err { IfErr result (λ fault. IfSome (I.remaining file.old) (λ bytes. IsFileFault bytes fault)) }
{
    Ok(open_drive(alloc, file)?.drive)
}

/// A drive whose changes go to a store, after the bytes of the store that are the image and whole changes.
pub fn keep<S: ChangeStore<Drive> + Drop>(
    alloc: Global,
    begun: Begun,
    store: S,
) -> Journaling<Drive, S>
    requires { IfSome (front_of begun.whole (S.held store)) (λ bytes. IsStoredWhole bytes begun.drive.state begun.sum) }
    ensures { result ≡ record {
      drive = begun.drive.state;
      lost = false;
      contents = front_of begun.whole (S.held store);
      sum = begun.sum;
    } }
{
    let mut store = store;
    store.cut(begun.whole);
    Journaling::new(alloc, begun.drive, store, begun.sum)
}
