ghost use Rattle.std.specs.Prelude.{◌≡◌};
ghost use Rattle.nbd_session.specs.Turns.{end_in};

use crate::phase::Phase;

/// How a session ended that no fault stopped.
#[derive(Clone, Copy, Debug, PartialEq, Eq)]
pub enum SessionEnd {
    /// The client has said that it ends.
    Disconnected,
    /// The client has gone between two messages.
    InputEnded,
    /// As many requests were answered as were to be. The next one is not read.
    LimitReached,
}

impl SessionEnd {
    /// How a session ends in this phase, where no message follows.
    pub(crate) fn in_phase(phase: Phase) -> SessionEnd
        ensures { result ≡ end_in phase }
    {
        match phase {
            Phase::Ended => SessionEnd::Disconnected,
            _ => SessionEnd::InputEnded,
        }
    }
}
