ghost use Rattle.std.specs.Prelude.{◌≡◌};
ghost use Rattle.zone_report.specs.declared.fault.ReportFault.TheVariants.{Field, OutOfMemory};

use nvme_wire::DecodeFault;
use std::alloc::AllocError;
use thiserror::Error;

/// Why there is no report, or no text of one.
#[derive(Clone, Copy, Debug, PartialEq, Eq, Error)]
pub enum ReportFault {
    /// The buffer is too short for a report's head, or the bytes are not a report.
    #[error("the buffer has less than 64 bytes, or the bytes are no report")]
    Field,
    /// The address is in no zone.
    #[error("no zone has this address")]
    Range,
    /// An allocation failed.
    #[error("out of memory")]
    OutOfMemory,
}

impl From<AllocError> for ReportFault {
    ghost from_gives = { λ _ fault. fault ≡ OutOfMemory };

    fn from(_error: AllocError) -> ReportFault {
        ReportFault::OutOfMemory
    }
}

impl From<DecodeFault> for ReportFault {
    ghost from_gives = { λ _ fault. fault ≡ Field };

    fn from(_fault: DecodeFault) -> ReportFault {
        ReportFault::Field
    }
}
