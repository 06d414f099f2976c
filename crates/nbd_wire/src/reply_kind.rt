ghost use Rattle.std.specs.Prelude.{◌≡◌};
ghost use Rattle.nbd_wire.specs.Handshake.{reply_code};

/// The kinds of replies to options ("Option reply types").
#[derive(Clone, Copy, Debug, PartialEq, Eq)]
pub enum ReplyKind {
    /// `NBD_REP_ACK`: the option is done.
    Acknowledge,
    /// `NBD_REP_SERVER`: the name of an export.
    Server,
    /// `NBD_REP_INFO`: a piece of information on an export.
    Info,
    /// `NBD_REP_ERR_UNSUP`: the option is not known.
    Unsupported,
    /// `NBD_REP_ERR_INVALID`: the option's data are not what it takes.
    Invalid,
}

impl ReplyKind {
    /// The number of the kind.
    pub fn code(self) -> u32
        ensures { result ≡ reply_code self }
    {
        match self {
            ReplyKind::Acknowledge => 1,
            ReplyKind::Server => 2,
            ReplyKind::Info => 3,
            ReplyKind::Unsupported => 0x8000_0001,
            ReplyKind::Invalid => 0x8000_0003,
        }
    }
}
