ghost use Rattle.std.specs.Prelude.{◌≡◌, ◌<◌, IfOk};
ghost use Rattle.nbd_session.specs.Requests.{Carries, asked_of, asked_with, changes_disk, code_of, data_length};
ghost use Rattle.nbd_session.specs.Requests.{error_of, is_disconnect, is_forced, is_unaligned, most_flags};

use crate::fault::StoreFault;
use nbd_wire::{Command, ErrorCode, Request};
use zone_translator::DiskFault;

/// How many bytes a READ or a WRITE has at most: 32 MiB, as clients take for granted that are told nothing.
pub const MOST_BYTES: u32 = 33_554_432;

/// What a request asks of a disk.
#[derive(Clone, Copy, Debug, PartialEq, Eq)]
pub enum Asked {
    /// These blocks.
    Read {
        first: u64,
        blocks: u64,
    },
    /// The data of the request, from this block on.
    Write {
        first: u64,
    },
    /// These blocks need no more than read as zeros.
    Trim {
        first: u64,
        blocks: u64,
    },
    /// Zeros in these blocks.
    WriteZeroes {
        first: u64,
        blocks: u64,
        /// Whether they may take no room, as after a TRIM.
        hole: bool,
    },
    /// That the array is durable.
    Flush,
}

/// How many bytes of data follow the head of a request.
pub fn data_length(request: &Request) -> u32
    ensures { result ≡ data_length request.now }
{
    match Command::from_code(request.code) {
        Some(Command::Write) => request.length,
        _ => 0,
    }
}

/// Whether a request is a DISC.
pub fn is_disconnect(request: &Request) -> bool
    ensures { result ≡ is_disconnect request.now }
{
    matches!(Command::from_code(request.code), Some(Command::Disconnect))
}

/// The greatest number that the flags of a command make.
fn most_flags(command: Option<Command>) -> u16
    ensures { result ≡ most_flags command }
{
    match command {
        Some(Command::WriteZeroes) => 3,
        _ => 1,
    }
}

/// Whether a request begins or ends within a block.
fn is_unaligned(request: &Request, block_bytes: u32) -> bool
    requires { 0 < block_bytes }
    ensures { result ≡ is_unaligned block_bytes request.now }
{
    request.offset % u64::from(block_bytes) != 0 || request.length % block_bytes != 0
}

/// What a request asks for that is aligned and has no unknown flag.
fn asked_with(
    request: &Request,
    command: Option<Command>,
    block_bytes: u32,
) -> Result<Asked, ErrorCode>
    requires { 0 < block_bytes }
    ensures { result ≡ asked_with block_bytes command request.now }
{
    let first = request.offset / u64::from(block_bytes);
    let blocks = u64::from(request.length / block_bytes);
    match command {
        Some(Command::Read | Command::Write) if request.length > MOST_BYTES => Err(
            ErrorCode::Invalid,
        ),
        Some(Command::Read) => Ok(Asked::Read { first, blocks }),
        Some(Command::Write) => Ok(Asked::Write { first }),
        Some(Command::Trim) => Ok(Asked::Trim { first, blocks }),
        Some(Command::WriteZeroes) => Ok(Asked::WriteZeroes {
            first,
            blocks,
            hole: request.flags < 2,
        }),
        Some(Command::Flush) if request.offset != 0 || request.length != 0 => Err(
            ErrorCode::Invalid,
        ),
        Some(Command::Flush) => Ok(Asked::Flush),
        _ => Err(ErrorCode::Invalid),
    }
}

/// The error of a request that the disk refused.
fn error_of(wanted: Asked, fault: DiskFault) -> ErrorCode
    ensures { result ≡ error_of wanted fault }
{
    match (fault, wanted) {
        (DiskFault::OutOfRange, Asked::Write { .. }) => ErrorCode::NoSpace,
        (DiskFault::OutOfRange, Asked::WriteZeroes { .. }) => ErrorCode::NoSpace,
        (DiskFault::OutOfRange, _) => ErrorCode::Invalid,
        (DiskFault::OutOfMemory, _) => ErrorCode::NoMemory,
        (DiskFault::Failed, _) => ErrorCode::Io,
        (DiskFault::Stopped, _) => ErrorCode::Shutdown,
        (DiskFault::Unmounted, _) => ErrorCode::Shutdown,
        (DiskFault::Spent, _) => ErrorCode::NoSpace,
        (DiskFault::Smaller, _) => ErrorCode::Invalid,
        (DiskFault::Reserve, _) => ErrorCode::Invalid,
        (DiskFault::Damaged, _) => ErrorCode::Shutdown,
    }
}

impl Asked {
    /// What a request asks of a disk, or the error that it is refused by.
    pub fn of(request: &Request, block_bytes: u32) -> Result<Asked, ErrorCode>
        requires { 0 < block_bytes }
        ensures value { result ≡ asked_of block_bytes request.now }
        ensures carries { IfOk result (λ wanted. Carries block_bytes wanted (data_length request.now)) }
    {
        let command = Command::from_code(request.code);
        if request.flags > most_flags(command) {
            return Err(ErrorCode::Invalid);
        }
        if is_unaligned(request, block_bytes) {
            return Err(ErrorCode::Invalid);
        }
        asked_with(request, command, block_bytes)
    }

    /// Whether it changes the disk.
    pub fn changes_disk(self) -> bool
        ensures { result ≡ changes_disk self }
    {
        match self {
            Asked::Read { .. } => false,
            Asked::Write { .. } => true,
            Asked::Trim { .. } => true,
            Asked::WriteZeroes { .. } => true,
            Asked::Flush => false,
        }
    }

    /// Whether the array has to be durable before the reply: after a FLUSH, and after a write with FUA.
    pub fn is_forced(self, request: &Request) -> bool
        ensures { result ≡ is_forced self request.now }
    {
        match self {
            Asked::Read { .. } => false,
            Asked::Write { .. } => request.flags % 2 == 1,
            Asked::Trim { .. } => request.flags % 2 == 1,
            Asked::WriteZeroes { .. } => request.flags % 2 == 1,
            Asked::Flush => true,
        }
    }

    /// The error of the reply.
    pub fn code(self, done: Result<(), StoreFault>) -> ErrorCode
        ensures { result ≡ code_of self done }
    {
        match done {
            Ok(()) => ErrorCode::Success,
            Err(StoreFault::Disk(fault)) => error_of(self, fault),
            Err(StoreFault::Medium) => ErrorCode::Io,
        }
    }
}
