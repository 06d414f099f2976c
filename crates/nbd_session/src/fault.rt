ghost use Rattle.nbd_session.specs.declared.fault.SessionFault.TheVariants.{Input, Output};

use disk_files::{FillFault, WriteFault};
use thiserror::Error;
use zone_translator::DiskFault;

/// Why a session stopped before the client ended it.
#[derive(Clone, Copy, Debug, PartialEq, Eq, Error)]
pub enum SessionFault {
    /// The input failed, or ended within a message. Nothing came of the message.
    #[error("the input failed, or ended within a message")]
    Input,
    /// A message began otherwise than the protocol says. Nothing came of it.
    #[error("a message of another protocol came")]
    Magic,
    /// The output failed. The last message was done, and of its reply a beginning is written.
    #[error("the output failed")]
    Output,
    /// The output failed to pass on a reply that was written. All messages were done.
    #[error("the output did not pass on a reply")]
    Unsent,
    /// 2^64 - 1 messages were answered.
    #[error("too many messages came")]
    TooMany,
}

impl From<FillFault> for SessionFault {
    ghost use Rattle.std.specs.Prelude.{◌≡◌};

    ghost from_gives = { λ _ fault. fault ≡ Input };

    fn from(_error: FillFault) -> SessionFault {
        SessionFault::Input
    }
}

impl From<WriteFault> for SessionFault {
    ghost use Rattle.std.specs.Prelude.{◌≡◌};

    ghost from_gives = { λ _ fault. fault ≡ Output };

    fn from(_error: WriteFault) -> SessionFault {
        SessionFault::Output
    }
}

/// Why a store did not do a request.
#[derive(Clone, Copy, Debug, PartialEq, Eq, Error)]
pub enum StoreFault {
    /// The disk refused it.
    #[error("the disk refused a request: {0}")]
    Disk(DiskFault),
    /// The medium failed. After a sync, what was written before may not be durable. After any other call nothing was
    /// done.
    #[error("the medium failed")]
    Medium,
}

impl From<DiskFault> for StoreFault {
    ghost use Rattle.std.specs.Prelude.{◌≡◌};
    ghost use Rattle.nbd_session.specs.declared.fault.StoreFault.TheVariants.{Disk};

    ghost from_gives = { λ error fault. fault ≡ Disk error };

    fn from(error: DiskFault) -> StoreFault {
        StoreFault::Disk(error)
    }
}

/// A medium failed to keep what was written.
#[derive(Clone, Copy, Debug, PartialEq, Eq, Error)]
#[error("what was written could not be made durable")]
pub struct MediumFault;
