ghost use Rattle.std.specs.Prelude.{◌≡◌};
ghost use Rattle.drive_survey.specs.Scan.{mount_fault};
ghost use Rattle.zone_choice.specs.Changes.{IsHalt};

use drive_port::PortFault;
use drive_survey::MountFault;

/// What a fault of a command is to a mount. A device that returns what it holds
/// refuses no command of a mount.
pub(crate) fn fault_or_damaged(fault: PortFault) -> MountFault
    ensures { IsHalt fault → result ≡ mount_fault fault }
{
    match fault {
        PortFault::Memory => MountFault::OutOfMemory,
        PortFault::Failed => MountFault::Failed,
        PortFault::Stopped => MountFault::Halted,
        PortFault::Refused(_) => MountFault::Damaged,
    }
}
