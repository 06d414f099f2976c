ghost use Rattle.std.specs.Prelude.{◌≡◌};
ghost use Rattle.nbd_wire.specs.Handshake.{option_of};

/// The options that every server knows, or that tell of an export ("Option types").
#[derive(Clone, Copy, Debug, PartialEq, Eq)]
pub enum OptionKind {
    /// `NBD_OPT_EXPORT_NAME`: continue to the transmission phase, by a reply that has no head.
    ExportName,
    /// `NBD_OPT_ABORT`: end the session.
    Abort,
    /// `NBD_OPT_LIST`: name the exports.
    ListExports,
    /// `NBD_OPT_INFO`: tell what there is to know of an export.
    Info,
    /// `NBD_OPT_GO`: tell the same, and continue to the transmission phase.
    Go,
}

impl OptionKind {
    /// The option of this number, if it is one of these.
    pub fn from_code(code: u32) -> Option<OptionKind>
        ensures { result ≡ option_of code }
    {
        match code {
            1 => Some(OptionKind::ExportName),
            2 => Some(OptionKind::Abort),
            3 => Some(OptionKind::ListExports),
            6 => Some(OptionKind::Info),
            7 => Some(OptionKind::Go),
            _ => None,
        }
    }
}
