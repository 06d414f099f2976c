ghost use Rattle.std.specs.Prelude.{◌≡◌, ◌≢◌, IfNone, IfSome};
ghost use Rattle.tool_forms.specs.Entries.{fits, name_text, takes_all, takes_blocks, takes_data};
ghost use Rattle.tool_forms.specs.Entries.{takes_report, takes_start};

use nvme_wire::ZoneState;

/// The commands of the profile. A Zone Management Send has a name for each action.
#[derive(Clone, Copy, Debug, PartialEq, Eq)]
pub enum EntryName {
    Flush,
    Read,
    Write,
    Append,
    Close,
    Finish,
    Open,
    Reset,
    Offline,
    Report,
}

/// The words of an entry: the name of a command, and the values of the options that were given.
#[derive(Debug, PartialEq, Eq, Drop)]
pub struct EntryWords {
    pub name: EntryName,
    /// The address in the entry: the first block, or the lowest address of the zone; 0 without it.
    pub start: Option<u64>,
    /// How many blocks a Read, a Write or an Append has; 1 without it.
    pub blocks: Option<u64>,
    /// How many dwords the buffer of a report has; 1,024 without it.
    pub dwords: Option<u64>,
    /// The command identifier; 0 without it.
    pub id: Option<u64>,
    /// Whether an action is for all zones.
    pub all: bool,
    /// Whether the head of a report counts only the descriptors that follow.
    pub partial: bool,
    /// The state of the zones in a report, if not all are reported.
    pub state: Option<ZoneState>,
    /// The data of a Write or an Append.
    pub beside: Vec<u8>,
}

/// The command with this name.
pub fn command_named(name: &str) -> Option<EntryName>
    ensures some { IfSome result (λ command. name.now ≡ name_text command) }
    ensures none { IfNone result ((command : EntryName) → name.now ≢ name_text command) }
{
    match name {
        "flush" => Some(EntryName::Flush),
        "read" => Some(EntryName::Read),
        "write" => Some(EntryName::Write),
        "append" => Some(EntryName::Append),
        "close" => Some(EntryName::Close),
        "finish" => Some(EntryName::Finish),
        "open" => Some(EntryName::Open),
        "reset" => Some(EntryName::Reset),
        "offline" => Some(EntryName::Offline),
        "report" => Some(EntryName::Report),
        _ => None,
    }
}

/// The options that a command takes.
struct Options {
    start: bool,
    blocks: bool,
    all: bool,
    report: bool,
    beside: bool,
}

impl EntryName {
    /// The options that the command takes.
    fn options(self) -> Options
        ensures start { result.start ≡ takes_start self }
        ensures blocks { result.blocks ≡ takes_blocks self }
        ensures all { result.all ≡ takes_all self }
        ensures report { result.report ≡ takes_report self }
        ensures beside { result.beside ≡ takes_data self }
    {
        let moves_data = matches!(self, EntryName::Write | EntryName::Append);
        Options {
            start: self != EntryName::Flush,
            blocks: moves_data || self == EntryName::Read,
            all: matches!(
                self,
                EntryName::Close | EntryName::Finish | EntryName::Reset | EntryName::Offline
            ),
            report: self == EntryName::Report,
            beside: moves_data,
        }
    }
}

impl EntryWords {
    /// Whether the command takes each option that was given.
    pub(crate) fn fits(&self) -> bool
        ensures { result ≡ fits self.now }
    {
        let Options {
            start,
            blocks,
            all,
            report,
            beside,
        } = self.name.options();
        let for_report = self.dwords.is_some() || self.partial || self.state.is_some();
        (start || self.start.is_none())
            && (blocks || self.blocks.is_none())
            && (all || !self.all)
            && (report || !for_report)
            && (beside || self.beside.is_empty())
    }
}
