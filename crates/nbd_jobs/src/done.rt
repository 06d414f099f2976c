ghost use Rattle.std.specs.Prelude.{◌≡◌, Err, None, Ok, false, is_some};

use crate::fault::NbdFault;
use crate::forgetting::Forgotten;
use job_drives::{DiskSize, Saved};

/// What is told of a session that has ended.
#[derive(Debug, PartialEq, Eq, Drop)]
pub struct SessionTold {
    /// How it ended.
    pub result: Result<(), NbdFault>,
    /// What was written and moved, as text, if it was asked for.
    pub statistics: Option<String>,
    /// The disk that was served, if it was mounted.
    pub disk: Option<DiskSize>,
    /// What was forgotten, if the disk forgets and was served.
    pub forgotten: Option<Forgotten>,
    /// How many requests failed by chance, if some were to and the disk was served.
    pub failed: Option<u64>,
}

impl SessionTold {
    /// Of a session that did not begin.
    pub fn unserved(fault: NbdFault) -> SessionTold
        ensures fault { result.result ≡ Err fault }
        ensures statistics { is_some result.statistics ≡ false }
        ensures disk { result.disk ≡ None }
        ensures forgotten { result.forgotten ≡ None }
        ensures failed { result.failed ≡ None }
    {
        SessionTold {
            result: Err(fault),
            statistics: None,
            disk: None,
            forgotten: None,
            failed: None,
        }
    }
}

/// What is told of a session, and how its drive was saved. Both can fail.
#[derive(Debug, PartialEq, Eq, Drop)]
pub struct SessionDone {
    /// Of the session, with all replies that it sent.
    pub told: SessionTold,
    /// Of the drive. It is `Ok` if there is none to save.
    pub saved: Result<Saved, NbdFault>,
}

impl SessionDone {
    /// A drive that is not served.
    pub(crate) fn unserved(fault: NbdFault) -> SessionDone
        ensures fault { result.told.result ≡ Err fault }
        ensures saved { result.saved ≡ Ok (record { is_restored = false }) }
        ensures forgotten { result.told.forgotten ≡ None }
    {
        SessionDone {
            told: SessionTold::unserved(fault),
            saved: Ok(Saved::IN_PLACE),
        }
    }
}
