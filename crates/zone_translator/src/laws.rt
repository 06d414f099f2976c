//! What holds of the flat disk, whose answers every call of `Disk` gives, and of a disk whose drive stops. Each
//! function carries laws as its contract, and changes nothing.

ghost use Rattle.zone_translator.specs.Laws.{CalledCan, CallsAreSteps, LeftIsFound, ListIsFound, ListIsItsWrites};
ghost use Rattle.zone_translator.specs.Laws.{LossIsFound, MountedCan, RemountedCan, WriteKeepsOthers};
ghost use Rattle.zone_translator.specs.Laws.{WrittenReadsBack};
ghost use Rattle.zone_translator.specs.View.{flat_of};

use crate::honest::Disk;
use drive_port::{Device, Honest};

/// Blocks that are written to this disk read back.
pub fn written_reads_back<D: Device + Honest + Drop>(disk: &Disk<D>)
    ensures { WrittenReadsBack (flat_of disk.now) }
{
    disk.blocks();
}

/// A write changes no block but those that it names.
pub fn write_keeps_others()
    ensures { WriteKeepsOthers }
{}

/// A list leaves the array that its writes and trims leave one by one, in any order.
pub fn list_is_its_writes()
    ensures { ListIsItsWrites }
{}

/// What was answered is found again. Whatever is called of a disk, and whatever ends it, its drive can be mounted again
/// once it is restarted. The disk that is mounted then has the array that was left: `answers` of each call says which.
pub fn answered_is_found()
    // The drive can be mounted again: after a mount, and after each call and remount, whatever they answer.
    ensures mounted { MountedCan }
    ensures called { CalledCan }
    ensures remounted { RemountedCan }
    // Once restarted, it can be mounted, and each mount finds the array that was left. Only a stop or a failed
    // allocation refuses such a mount.
    ensures found { LeftIsFound }
{}

/// The same of whole lists of calls: each answer is a flat array's, no command is refused by the drive, and what the
/// list left is found again once the drive is restarted.
pub fn lists_are_found()
    // A list has these steps: each call of a disk with its answer, and each remount with its result.
    ensures steps { CallsAreSteps }
    ensures found { ListIsFound }
{}

/// After a loss of power the array of the last flush is found again: the last one that was done, or one after it that
/// was refused. That is said of a drive that says what a loss of power leaves.
pub fn flushed_is_found()
    ensures { LossIsFound }
{}
