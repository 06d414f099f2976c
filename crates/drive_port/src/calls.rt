ghost use Rattle.std.specs.Prelude.{◌≡◌, ◌≤◌, ◌^◌, false, []};
ghost use Rattle.nvme_wire.specs.Completion.{IsEncodable, completion_bytes};
ghost use Rattle.nvme_wire.specs.Entry.{IsAdmitted};
ghost use Rattle.drive_port.specs.Drive.{IsLawful};
ghost use Rattle.drive_port.specs.Durable.{is_flush};
ghost use Rattle.drive_port.specs.Halting.{Adds};
ghost use Rattle.drive_port.specs.Calls.{CallGives, FlushGives, IsCompletion, IsWholeBlocks, Obeys};
ghost use Rattle.drive_port.specs.Calls.{SendGives, answer_of, fault_of};
ghost use Rattle.drive_port.specs.Answering.{AppendAnswers, CloseAnswers, CountAnswers, FinishAnswers, FlushAnswers};
ghost use Rattle.drive_port.specs.Answering.{ReadAnswers, ReadExtends, ReportAnswers, ResetAnswers};

use crate::device::{Device, Halt};
use nvme_wire::{Action, Command, Completion, ReportHead, ReportingOptions, Status, ZoneState};
use std::alloc::Global;
use thiserror::Error;

/// Why a typed call has no result.
#[derive(Clone, Copy, Debug, PartialEq, Eq, Error)]
pub enum PortFault {
    /// The drive completed the command with this status, which is not `Success`.
    #[error("the drive refused the command: {0}")]
    Refused(Status),
    /// An allocation failed. Nothing changed.
    #[error("out of memory")]
    Memory,
    /// The drive failed at the command, which had no effect.
    #[error("the drive failed at the command")]
    Failed,
    /// The device has stopped, before this command or inside it: the command may be done, and of an Append
    /// a front may be written.
    #[error("the device has stopped")]
    Stopped,
}

impl From<Halt> for PortFault {
    ghost from_gives = { λ halt fault. fault ≡ fault_of halt };

    fn from(halt: Halt) -> PortFault {
        match halt {
            Halt::Memory => PortFault::Memory,
            Halt::Failed => PortFault::Failed,
            Halt::Stopped => PortFault::Stopped,
        }
    }
}

/// What a call answers whose command was completed.
#[inline(always)]
fn answer_of(completion: &[u8; 16]) -> Result<u64, PortFault>
    requires { IsCompletion completion.now }
    ensures { (c : _) → IsEncodable c → completion.now ≡ completion_bytes c → result ≡ answer_of c }
{
    match Completion::decode(completion) {
        Ok(completion) => match completion.status {
            Status::Success => Ok(completion.result),
            status => Err(PortFault::Refused(status)),
        },
        Err(_) => unreachable!(),
    }
}

/// One submit of this command, with command identifier 0.
#[inline(always)]
fn submit<D: Device>(
    device: &mut D,
    command: &Command,
    bytes: &[u8],
    into: &mut Vec<u8>,
) -> Result<u64, PortFault>
    requires { IsAdmitted command.now }
    ensures gives { CallGives (D.drive device.old) command.now bytes.now result into.new.items
        (D.drive device.new) }
    ensures was_lawful { IsLawful (D.drive device.old) }
    ensures lawful { IsLawful (D.drive device.new) }
{
    let entry = command.encode(0);
    let completion = device.submit(&entry, bytes, into)?;
    answer_of(&completion)
}

/// One submit of a command that is no Flush.
pub(crate) fn call<D: Device>(
    device: &mut D,
    command: &Command,
    bytes: &[u8],
    into: &mut Vec<u8>,
) -> Result<u64, PortFault>
    requires admitted { IsAdmitted command.now }
    requires other { is_flush command.now ≡ false }
    ensures gives { CallGives (D.drive device.old) command.now bytes.now result into.new.items
        (D.drive device.new) }
    ensures obeys { Obeys (D.drive device.old) result (D.drive device.new) }
{
    submit(device, command, bytes, into)
}

/// The same without data, with what is returned after what `into` holds.
#[inline(always)]
fn call_extending<D: Device>(
    device: &mut D,
    command: &Command,
    into: &mut Vec<u8>,
) -> Result<u64, PortFault>
    requires admitted { IsAdmitted command.now }
    requires other { is_flush command.now ≡ false }
    ensures gives { Adds into.old.items (λ returned. CallGives
        (D.drive device.old) command.now [] result returned (D.drive device.new)) into.new.items }
    ensures obeys { Obeys (D.drive device.old) result (D.drive device.new) }
{
    let entry = command.encode(0);
    let completion = device.submit_extending(&entry, into)?;
    answer_of(&completion)
}

/// Appends 1 to 65,536 whole blocks to the zone that starts at `zone_start`, and answers the address of
/// the first of them (Zoned Namespace Command Set 1.1, section 3.4.1).
pub fn append<D: Device>(
    alloc: Global,
    device: &mut D,
    zone_start: u64,
    bytes: &[u8],
) -> Result<u64, PortFault>
    requires whole { IsWholeBlocks (D.drive device.old).geometry.block bytes.now }
    ensures { AppendAnswers (D.drive device.old) zone_start bytes.now result (D.drive device.new) }
{
    let blocks = bytes.len() / device.geometry().block as usize;
    let command = Command::Append {
        zslba: zone_start,
        blocks: blocks as u32,
    };
    let mut into = Vec::new(alloc);
    call(device, &command, bytes, &mut into)
}

/// Reads 1 to 65,536 blocks from the address `slba` on (NVM Command Set 1.0, section 3.2.4). Afterwards
/// `into` holds their bytes, zeros for blocks that are not written; after a fault it is empty.
pub fn read<D: Device>(
    device: &mut D,
    slba: u64,
    blocks: u32,
    into: &mut Vec<u8>,
) -> Result<(), PortFault>
    requires some { 1 ≤ blocks }
    requires few { blocks ≤ 65536 }
    ensures { ReadAnswers (D.drive device.old) slba blocks result into.new.items
        (D.drive device.new) }
{
    into.clear();
    read_extending(device, slba, blocks, into)
}

/// Reads as `read` does, and puts the bytes after those that `into` holds. After a fault `into` is as it
/// was.
#[inline]
pub fn read_extending<D: Device>(
    device: &mut D,
    slba: u64,
    blocks: u32,
    into: &mut Vec<u8>,
) -> Result<(), PortFault>
    requires some { 1 ≤ blocks }
    requires few { blocks ≤ 65536 }
    ensures { ReadExtends (D.drive device.old) slba blocks into.old.items result into.new.items
        (D.drive device.new) }
{
    call_extending(device, &Command::Read { slba, blocks }, into)?;
    Ok(())
}

/// One Zone Management Send to the zone that starts there.
fn send<D: Device>(
    alloc: Global,
    device: &mut D,
    zone_start: u64,
    action: Action,
) -> Result<(), PortFault>
    requires { IsAdmitted (Command.Send zone_start action false) }
    ensures gives { SendGives (D.drive device.old) zone_start action result (D.drive device.new) }
    ensures obeys { Obeys (D.drive device.old) result (D.drive device.new) }
{
    let command = Command::Send {
        slba: zone_start,
        action,
        all: false,
    };
    let mut into = Vec::new(alloc);
    call(device, &command, &[], &mut into)?;
    Ok(())
}

/// Makes the zone that starts at `zone_start` Full, with the blocks that it has (Zoned Namespace Command
/// Set 1.1, section 3.4.3).
pub fn finish<D: Device>(alloc: Global, device: &mut D, zone_start: u64) -> Result<(), PortFault>
    ensures { FinishAnswers (D.drive device.old) zone_start result (D.drive device.new) }
{
    send(alloc, device, zone_start, Action::Finish)
}

/// Closes the zone that starts at `zone_start`, which is opened or Closed (Zoned Namespace Command Set
/// 1.1, section 3.4.3).
pub fn close<D: Device>(alloc: Global, device: &mut D, zone_start: u64) -> Result<(), PortFault>
    ensures { CloseAnswers (D.drive device.old) zone_start result (D.drive device.new) }
{
    send(alloc, device, zone_start, Action::Close)
}

/// Makes the zone that starts at `zone_start` Empty (Zoned Namespace Command Set 1.1, section 3.4.3).
pub fn reset<D: Device>(alloc: Global, device: &mut D, zone_start: u64) -> Result<(), PortFault>
    ensures { ResetAnswers (D.drive device.old) zone_start result (D.drive device.new) }
{
    send(alloc, device, zone_start, Action::Reset)
}

/// One Flush.
fn send_flush<D: Device>(alloc: Global, device: &mut D) -> Result<(), PortFault>
    ensures gives { FlushGives (D.drive device.old) result (D.drive device.new) }
    ensures lawful { IsLawful (D.drive device.new) }
{
    let mut into = Vec::new(alloc);
    submit(device, &Command::Flush, &[], &mut into)?;
    Ok(())
}

/// Makes what the drive holds durable, as far as the drive says what a loss of power leaves (Base Specification 2.0,
/// section 7.1).
pub fn flush<D: Device>(alloc: Global, device: &mut D) -> Result<(), PortFault>
    ensures { FlushAnswers (D.drive device.old) result (D.drive device.new) }
{
    send_flush(alloc, device)
}

/// Reports the chosen zones from the one that holds the address `slba` on, in a buffer of `dwords`
/// dwords, 16 to 2^32 (Zoned Namespace Command Set 1.1, section 3.4.2). Afterwards `into` holds the
/// report; after a fault it is empty.
pub fn report<D: Device>(
    device: &mut D,
    slba: u64,
    options: ReportingOptions,
    partial: bool,
    dwords: u64,
    into: &mut Vec<u8>,
) -> Result<(), PortFault>
    requires head { 16 ≤ dwords }
    requires few { dwords ≤ 2 ^ 32 }
    ensures { ReportAnswers (D.drive device.old) slba options partial dwords result into.new.items
        (D.drive device.new) }
{
    let command = Command::Receive {
        slba,
        dwords,
        options,
        partial,
    };
    call(device, &command, &[], into)?;
    Ok(())
}

/// How many zones are chosen, by a report of all zones with room only for its head, which `into` holds
/// afterwards; after a fault it is empty.
pub fn count_zones<D: Device>(
    device: &mut D,
    options: ReportingOptions,
    into: &mut Vec<u8>,
) -> Result<u64, PortFault>
    ensures { CountAnswers (D.drive device.old) options result into.new.items (D.drive device.new) }
{
    report(device, 0, options, false, 16, into)?;
    let mut bytes = [0; 64];
    bytes.copy_from_slice(into);
    match ReportHead::decode(&bytes) {
        Ok(head) => Ok(head.zones),
        Err(_) => unreachable!(),
    }
}
