use drive_port::Halt;
use std::alloc::AllocError;
use thiserror::Error;

/// Why a rescue gives no more blocks.
#[derive(Clone, Copy, Debug, PartialEq, Eq, Error)]
pub enum RescueFault {
    /// The geometry is out of range, or the given number of blocks is above 2^31. Nothing was read.
    #[error("the geometry of the drive or the number of blocks is out of range")]
    Limits,
    /// The source stopped or failed at a report, or memory ran out. The first blocks may be written.
    #[error("{0}")]
    Halted(Halt),
    /// The writer failed. A beginning of the first blocks is written.
    #[error("the output failed")]
    Output,
}

impl From<Halt> for RescueFault {
    ghost use Rattle.std.specs.Prelude.{◌≡◌};
    ghost use Rattle.drive_rescue.specs.declared.fault.RescueFault.TheVariants.{Halted};

    ghost from_gives = { λ halt fault. fault ≡ Halted halt };

    fn from(halt: Halt) -> RescueFault {
        RescueFault::Halted(halt)
    }
}

impl From<AllocError> for RescueFault {
    ghost use Rattle.std.specs.Prelude.{◌≡◌};
    ghost use Rattle.drive_port.specs.declared.device.Halt.TheVariants.{Memory};
    ghost use Rattle.drive_rescue.specs.declared.fault.RescueFault.TheVariants.{Halted};

    ghost from_gives = { λ _ fault. fault ≡ Halted Memory };

    fn from(_error: AllocError) -> RescueFault {
        RescueFault::Halted(Halt::Memory)
    }
}
