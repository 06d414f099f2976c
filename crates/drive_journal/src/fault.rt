ghost use Rattle.std.specs.Prelude.{◌≡◌};
ghost use Rattle.drive_images.specs.declared.fault.ImageFault.TheVariants.{OutOfMemory};
ghost use Rattle.drive_journal.specs.declared.fault.ReadFault.TheVariants.{Image};

use drive_images::ImageFault;
use std::alloc::AllocError;
use thiserror::Error;

/// Why no drive is read in a file: the first fault that is met.
#[derive(Clone, Copy, Debug, PartialEq, Eq, Error)]
pub enum ReadFault {
    /// The file does not begin with an image.
    #[error("{0}")]
    Image(ImageFault),
    /// Other bytes than changes follow the image, which ends at this byte of the file.
    #[error("bytes follow the last zone, which ends at byte {0}: `truncate -s {0}` removes them")]
    Long(u64),
    /// Changes of the version before follow the image, which ends at this byte of the file.
    #[error("the changes from byte {0} on are of the version before, which reads them")]
    Earlier(u64),
    /// The change at this byte of the file is damaged, and it is not one that was cut off.
    #[error("the change at byte {0} is damaged: `truncate -s {0}` removes it and all later changes")]
    Damaged(u64),
    /// The changes make zones that no drive has.
    #[error("no drive has the zones that the changes make")]
    Zones,
}

impl From<ImageFault> for ReadFault {
    ghost from_gives = { λ fault file_fault. file_fault ≡ Image fault };

    fn from(fault: ImageFault) -> ReadFault {
        ReadFault::Image(fault)
    }
}

impl From<AllocError> for ReadFault {
    ghost from_gives = { λ _ fault. fault ≡ Image OutOfMemory };

    fn from(_error: AllocError) -> ReadFault {
        ReadFault::Image(ImageFault::OutOfMemory)
    }
}
