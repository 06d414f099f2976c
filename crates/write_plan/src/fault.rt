use std::alloc::AllocError;
use thiserror::Error;
use zone_states::GeometryFault;

/// Why there is no plan.
#[derive(Clone, Copy, Debug, PartialEq, Eq, Error)]
pub enum PlanFault {
    /// The geometry is out of range.
    #[error("{0}")]
    Limits(GeometryFault),
    /// The drive cannot serve that many logical blocks.
    #[error("the drive can serve 1 to {0} logical blocks")]
    Reserve(u64),
    /// A share is no percentage.
    #[error("a share is 1 to 100 percent")]
    Share,
    /// Fewer blocks do not help.
    #[error("no number of logical blocks keeps this write amplification")]
    Amplification,
    /// An allocation failed.
    #[error("out of memory")]
    OutOfMemory,
}

impl From<AllocError> for PlanFault {
    ghost use Rattle.std.specs.Prelude.{◌≡◌};
    ghost use Rattle.write_plan.specs.declared.fault.PlanFault.TheVariants.{OutOfMemory};

    ghost from_gives = { λ _ fault. fault ≡ OutOfMemory };

    fn from(_error: AllocError) -> PlanFault {
        PlanFault::OutOfMemory
    }
}
