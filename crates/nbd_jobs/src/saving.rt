ghost use Rattle.std.specs.Prelude.{◌≡◌};
ghost use Rattle.job_drives.specs.declared.keep_fault.KeepFault.TheVariants as keeps;
ghost use Rattle.nbd_jobs.specs.declared.fault.NbdFault.TheVariants as nbd;
ghost use Rattle.nbd_jobs.specs.Serving.{sent_end};

use crate::fault::NbdFault;
use job_drives::{FileFault, KeepFault};
use nbd_session::SessionFault;

/// How a session ended, once what was written for the client was sent, if it could be.
pub fn sent_end(ended: Result<(), NbdFault>, sent: bool) -> Result<(), NbdFault>
    ensures { result ≡ sent_end ended sent }
{
    match ended {
        Ok(()) if !sent => Err(NbdFault::Session(SessionFault::Unsent)),
        ended => ended,
    }
}

/// How a fault of the file during a session is told: a change could not be written to it, or brought to the disk.
pub(crate) fn told_in_session(fault: FileFault) -> NbdFault
    ensures { result ≡ nbd.File (keeps.File fault) }
{
    NbdFault::File(KeepFault::File(fault))
}
