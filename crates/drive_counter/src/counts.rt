ghost use Rattle.std.specs.Prelude.{◌≡◌};
ghost use Rattle.drive_counter.specs.Counting.{kind_said, more, no_counts, with_action, counting_batch};
ghost use Rattle.drive_counter.specs.Counting.{with_command, counting_data};

use batch_log::Kind;
use byteorder::{ByteOrder, LittleEndian};
use nvme_wire::{Action, Command, DecodeFault};

/// Where the kind is in the header of a batch, and where it ends.
const KIND_PLACE: usize = 10;

const KIND_END: usize = 12;

/// How many commands of each kind a device completed, also those that it refused, and how many blocks the Appends
/// wrote that it did not refuse.
#[derive(Clone, Copy, Debug, PartialEq, Eq)]
pub struct Counts {
    /// Zone Appends.
    pub appends: u64,
    /// Reads.
    pub reads: u64,
    /// Zone Management Sends that close a zone.
    pub closes: u64,
    /// Those that finish a zone.
    pub finishes: u64,
    /// Those that reset a zone.
    pub resets: u64,
    /// Zone Management Receives.
    pub reports: u64,
    /// Commands of other kinds, and entries that are no command.
    pub others: u64,
    /// Blocks that were appended.
    pub blocks: u64,
    /// Of these the data blocks of batches of the host.
    pub host_blocks: u64,
    /// The data blocks of Moves.
    pub moved_blocks: u64,
}

/// A count that rises.
fn more(count: u64, by: u32) -> u64
    ensures { result ≡ more count by }
{
    count.saturating_add(by as u64)
}

/// The kind of batch that these bytes say they are, if they are a header and what follows it. The header is not
/// checked.
fn kind_said(bytes: &[u8]) -> Option<Kind>
    ensures { result ≡ kind_said bytes.now }
{
    if bytes.len() < KIND_END {
        return None;
    }
    match LittleEndian::read_u16(&bytes[KIND_PLACE..]) {
        1 => Some(Kind::Host),
        2 => Some(Kind::Move),
        _ => None,
    }
}

impl Counts {
    /// Nothing is counted.
    pub(crate) fn none() -> Counts
        ensures { result ≡ no_counts }
    {
        Counts {
            appends: 0,
            reads: 0,
            closes: 0,
            finishes: 0,
            resets: 0,
            reports: 0,
            others: 0,
            blocks: 0,
            host_blocks: 0,
            moved_blocks: 0,
        }
    }

    /// One command more of its kind.
    pub(crate) fn add_command(&mut self, command: Result<Command, DecodeFault>)
        ensures { self.new ≡ with_command self.old command }
    {
        match command {
            Ok(Command::Append { .. }) => self.appends = more(self.appends, 1),
            Ok(Command::Read { .. }) => self.reads = more(self.reads, 1),
            Ok(Command::Receive { .. }) => self.reports = more(self.reports, 1),
            Ok(Command::Send { action, .. }) => self.add_action(action),
            _ => self.others = more(self.others, 1),
        }
    }

    /// One Zone Management Send more of its kind.
    fn add_action(&mut self, action: Action)
        ensures { self.new ≡ with_action self.old action }
    {
        match action {
            Action::Close => self.closes = more(self.closes, 1),
            Action::Finish => self.finishes = more(self.finishes, 1),
            Action::Reset => self.resets = more(self.resets, 1),
            _ => self.others = more(self.others, 1),
        }
    }

    /// The blocks of a command that was not refused, if it is an Append.
    pub(crate) fn add_data(&mut self, command: Result<Command, DecodeFault>, bytes: &[u8])
        ensures { self.new ≡ counting_data self.old command bytes.now }
    {
        if let Ok(Command::Append { blocks, .. }) = command {
            self.add_batch(blocks, kind_said(bytes));
        }
    }

    /// The blocks of an Append.
    fn add_batch(&mut self, blocks: u32, kind: Option<Kind>)
        ensures { self.new ≡ counting_batch self.old blocks kind }
    {
        self.blocks = more(self.blocks, blocks);
        let data = blocks.saturating_sub(1);
        match kind {
            Some(Kind::Host) => self.host_blocks = more(self.host_blocks, data),
            Some(Kind::Move) => self.moved_blocks = more(self.moved_blocks, data),
            None => {}
        }
    }
}
