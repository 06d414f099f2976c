ghost use Rattle.std.specs.Prelude.{◌≡◌};
ghost use Rattle.nbd_wire.specs.Transmission.{error_code};

/// How a request ended ("Error values").
#[derive(Clone, Copy, Debug, PartialEq, Eq)]
pub enum ErrorCode {
    /// It is done.
    Success,
    /// `NBD_EPERM`
    NotPermitted,
    /// `NBD_EIO`
    Io,
    /// `NBD_ENOMEM`
    NoMemory,
    /// `NBD_EINVAL`
    Invalid,
    /// `NBD_ENOSPC`
    NoSpace,
    /// `NBD_EOVERFLOW`
    Overflow,
    /// `NBD_ENOTSUP`
    NotSupported,
    /// `NBD_ESHUTDOWN`
    Shutdown,
}

impl ErrorCode {
    /// The number of the error.
    pub fn code(self) -> u32
        ensures { result ≡ error_code self }
    {
        match self {
            ErrorCode::Success => 0,
            ErrorCode::NotPermitted => 1,
            ErrorCode::Io => 5,
            ErrorCode::NoMemory => 12,
            ErrorCode::Invalid => 22,
            ErrorCode::NoSpace => 28,
            ErrorCode::Overflow => 75,
            ErrorCode::NotSupported => 95,
            ErrorCode::Shutdown => 108,
        }
    }
}
