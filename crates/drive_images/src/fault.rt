ghost use Rattle.std.specs.Prelude.{◌≡◌};
ghost use Rattle.drive_images.specs.declared.fault.ImageFault.TheVariants.{Input, OutOfMemory};

use disk_files::FillFault;
use std::alloc::{AllocError, AllocFailed};
use thiserror::Error;

/// Why bytes are not read as the image of a drive: the first fault that is met. A zone is checked in the order
/// `Short` of its 8 bytes, `State`, `RestNotZero`, `Written`, `Limits`, and then `Short` of its blocks; the head
/// in the order `Short`, `Magic`, `Geometry`, `RestNotZero`.
#[derive(Clone, Copy, Debug, PartialEq, Eq, Error)]
pub enum ImageFault {
    #[error("the file does not begin as an image")]
    Magic,
    #[error("the geometry is out of range")]
    Geometry,
    #[error("a zone has a state that does not exist")]
    State,
    #[error("a zone has more written blocks than its state allows")]
    Written,
    #[error("a byte that has to be zero is not")]
    RestNotZero,
    #[error("more zones are active or open than the limits allow")]
    Limits,
    #[error("the image ends too early")]
    Short,
    #[error("bytes follow the last zone")]
    Long,
    #[error("the image cannot be read")]
    Input,
    #[error("out of memory")]
    OutOfMemory,
}

impl From<AllocError> for ImageFault {
    ghost from_gives = { λ _ fault. fault ≡ OutOfMemory };

    fn from(_error: AllocError) -> ImageFault {
        ImageFault::OutOfMemory
    }
}

impl<T: Drop> From<AllocFailed<T>> for ImageFault {
    ghost from_gives = { λ _ fault. fault ≡ OutOfMemory };

    fn from(_error: AllocFailed<T>) -> ImageFault {
        ImageFault::OutOfMemory
    }
}

impl From<FillFault> for ImageFault {
    ghost from_gives = { λ _ fault. fault ≡ Input };

    fn from(_fault: FillFault) -> ImageFault {
        ImageFault::Input
    }
}
