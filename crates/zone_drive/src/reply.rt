ghost use Rattle.std.specs.Prelude.{◌≡◌};

use nvme_wire::Status;

/// How a command ended.
#[derive(Clone, Copy)]
pub struct Reply {
    pub status: Status,
    /// The assigned address after an Append that succeeded, else 0.
    pub value: u64,
}

impl Reply {
    /// The command succeeded with this result.
    pub fn done(value: u64) -> Reply
        ensures { result ≡ record { status = Status.Success; value = value } }
    {
        Reply {
            status: Status::Success,
            value,
        }
    }

    /// The command was refused: it has no effect and no result.
    pub fn refused(status: Status) -> Reply
        ensures { result ≡ record { status = status; value = 0 } }
    {
        Reply { status, value: 0 }
    }
}
