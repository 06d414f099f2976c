ghost use Rattle.std.specs.Prelude.{◌≡◌};
ghost use Rattle.nbd_session.specs.Session.{phase_after};

use nbd_wire::OptionKind;

/// How far a session has come.
#[derive(Clone, Copy, Debug, PartialEq, Eq)]
pub enum Phase {
    /// The server greets.
    Greeting,
    /// The client tells its flags.
    Flags,
    /// The client sends options.
    Options {
        /// Whether the zeroes after the reply to `EXPORT_NAME` are left out.
        no_zeroes: bool,
    },
    /// The client sends requests.
    Transmission,
    /// The client has said that it ends.
    Ended,
}

impl Phase {
    /// The phase after an option.
    pub fn after(no_zeroes: bool, kind: Option<OptionKind>) -> Phase
        ensures { result ≡ phase_after no_zeroes kind }
    {
        match kind {
            Some(OptionKind::ExportName | OptionKind::Go) => Phase::Transmission,
            Some(OptionKind::Abort) => Phase::Ended,
            _ => Phase::Options { no_zeroes },
        }
    }
}
