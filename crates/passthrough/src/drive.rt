// The device.

ghost use Rattle.std.specs.Prelude.{◌≡◌, ◌≢◌, ◌≤◌, [], Err, Ok, Some, false, true, IfErr, IfOk, OnErr, OnOk};
ghost use Rattle.nvme_wire.specs.declared.status.Status.TheVariants.{Success};
ghost use Rattle.nvme_wire.specs.Entry.{decode_of};
ghost use Rattle.zone_states.specs.Checks.{first_failing};
ghost use Rattle.zone_states.specs.Geometry.{geometry_checks};
ghost use Rattle.drive_port.specs.Drive.{IsClosing, IsLawful};
ghost use Rattle.drive_port.specs.Halting.{Adds, Halts, SubmitAdds, SubmitGives};
ghost use Rattle.drive_port.specs.Step.{Effect, decode_status, is_read};
ghost use Rattle.passthrough.specs.Asking.{counted};
ghost use Rattle.passthrough.specs.Seen.{AreSeen};

use crate::asking::ask;
use crate::passthrough::Passthrough;
use crate::reading::read;
use crate::seen_zone::SeenZone;
use drive_port::{Device, Geometry, Halt, Honest};
use nvme_wire::{Command, Completion, DecodeFault, Status, entry_id};
use std::alloc::Global;
use std::marker::Model;
use zone_states::GeometryFault;

/// A drive behind a way that takes single commands. It takes the commands that a disk sends, and believes of their
/// answers only what agrees with all that was seen before. A command that had no effect has failed, and the next one
/// may succeed: a Read that the drive did not do, or an Append after which a report shows the zone as before. At
/// anything else that does not agree it stops.
#[derive(Drop)]
pub struct PassthroughDrive<P: Passthrough + Drop> {
    alloc: Global,
    way: P,
    geometry: Geometry,
    /// What was seen of each zone.
    seen: Vec<SeenZone>,
    /// Whether anything may have been written since the last Flush, by this device or before it.
    unflushed: bool,
    completed: u64,
    /// How many of the completed commands were refused.
    refused: u64,
    /// How many of them are Appends that succeeded.
    appended: u64,
    stopped: bool,
    /// Whether a command failed.
    failed: bool,
}

impl<P: Passthrough + Drop> Model for PassthroughDrive<P> {
    ghost use Rattle.std.specs.Prelude.{◌≡◌, ◌≤◌, ◌^◌, [], false, not, true};
    ghost use Rattle.drive_port.specs.Drive.{DriveState};
    ghost use Rattle.passthrough.specs.Asking.{Leads};
    ghost use Rattle.passthrough.specs.Seen.{AreSeen};

    ghost Value = { DriveState };

    ghost view = { λ d. record {
      geometry = d.geometry;
      zones = P.zones d.way;
      durable = [];
      completed = d.completed;
      refused = d.refused;
      appended = d.appended;
      stopped = d.stopped;
      clean = true;
      unfailing = not d.failed;
    } };

    // While the drive is served, what was seen of its zones is true.
    ghost invariant = { λ d. Leads d.geometry (P.shape d.way) (P.zones d.way)
        × (d.stopped ≡ false → AreSeen (P.zones d.way) d.seen.items)
        × (d.completed ≤ 2 ^ 63) × (d.refused ≤ d.completed) × (d.appended ≤ d.completed)
        × (d.completed ≡ 2 ^ 63 → d.stopped ≡ true)
        × (d.unflushed ≡ false → P.flushed d.way ≡ true) };
}

/// The status of an entry that holds no command.
fn fault_status(fault: DecodeFault) -> Status
    ensures { result ≡ decode_status fault }
{
    match fault {
        DecodeFault::Opcode => Status::InvalidCommandOpcode,
        DecodeFault::Namespace => Status::InvalidNamespace,
        DecodeFault::Field => Status::InvalidField,
    }
}

/// How a command ended.
#[derive(Clone, Copy)]
struct Reply {
    status: Status,
    /// The assigned address after an Append, else 0.
    value: u64,
}

impl<P: Passthrough + Drop> PassthroughDrive<P> {
    /// The drive that a way leads to, with what was seen of each of its zones. It has completed no command. The fault
    /// is the first part of its geometry that is out of range.
    pub fn new(
        alloc: Global,
        way: P,
        seen: Vec<SeenZone>,
    ) -> Result<PassthroughDrive<P>, GeometryFault>
        requires seen { AreSeen (P.zones way) seen.items }
        ensures err { IfErr result (λ fault. first_failing (geometry_checks (P.shape way)) ≡ Some fault) }
        ensures drive { IfOk result (λ drive. drive ≡ record {
          geometry = P.shape way;
          zones = P.zones way;
          durable = [];
          completed = 0;
          refused = 0;
          appended = 0;
          stopped = false;
          clean = true;
          unfailing = true;
        }) }
    {
        let geometry = way.geometry();
        geometry.check()?;
        Ok(PassthroughDrive {
            alloc,
            way,
            geometry,
            seen,
            unflushed: true,
            completed: 0,
            refused: 0,
            appended: 0,
            stopped: false,
            failed: false,
        })
    }

    /// The way to the drive.
    pub fn way(&self) -> &P
        ensures shape { P.shape result.now ≡ self.now.geometry }
        ensures zones { P.zones result.now ≡ self.now.zones }
    {
        &self.way
    }

    /// Reads blocks, puts their bytes after those that `into` holds, and tells whether the drive returned them. It
    /// stops at nothing that the drive answers: after a Read that is not done, the next one can be. Such Reads are not
    /// counted.
    pub fn try_read(&mut self, slba: u64, blocks: u32, into: &mut Vec<u8>) -> Result<bool, Halt>
        requires some { 1 ≤ blocks }
        ensures read { IfOk result (λ done. done ≡ true → Adds into.old.items (λ returned.
            Effect self.old.geometry self.old.zones (Ok (Command.Read slba blocks)) [] Success 0 returned
            self.new.zones) into.new.items) }
        ensures closes { IsClosing self.old.zones self.new.zones }
        ensures others { self.new ≡ record self.old { zones = self.new.zones } }
        ensures lawful { IsLawful self.new }
    {
        if self.stopped {
            return Err(Halt::Stopped);
        }
        match read(&mut self.way, self.geometry, &self.seen, slba, blocks, into) {
            Ok(_) => Ok(true),
            Err(Halt::Failed | Halt::Stopped) => Ok(false),
            Err(Halt::Memory) => Err(Halt::Memory),
        }
    }

    /// Does the command of an entry. What it returns goes after what `into` holds.
    fn perform(&mut self, entry: &[u8; 64], bytes: &[u8], into: &mut Vec<u8>) -> Result<Reply, Halt>
        requires going { self.old.stopped ≡ false }
        ensures ok { IfOk result (λ reply. Adds into.old.items
            (λ returned. Effect self.old.geometry self.old.zones (decode_of entry.now) bytes.now
            reply.status reply.value returned self.new.zones) into.new.items) }
        ensures others { OnOk result (self.new ≡ record self.old { zones = self.new.zones }) }
        ensures lawful { IsLawful self.new }
        ensures err { IfErr result (λ halt.
            Halts self.old (decode_of entry.now) bytes.now halt self.new) }
        ensures reads { is_read (decode_of entry.now) ≡ true → result ≢ Err Halt.Stopped }
        ensures kept { OnErr result (into.new.items ≡ into.old.items) }
    {
        let geometry = self.geometry;
        let command = match Command::decode(entry) {
            Ok(command) => command,
            Err(fault) => {
                return Ok(Reply {
                    status: fault_status(fault),
                    value: 0,
                });
            }
        };
        let way = &mut self.way;
        match ask(
            self.alloc,
            way,
            geometry,
            &mut self.seen,
            &mut self.unflushed,
            &command,
            bytes,
            into,
        ) {
            Ok(value) => Ok(Reply {
                status: Status::Success,
                value,
            }),
            Err(Halt::Memory) => Err(Halt::Memory),
            Err(Halt::Failed) => {
                self.failed = true;
                Err(Halt::Failed)
            }
            Err(Halt::Stopped) => {
                self.stopped = true;
                Err(Halt::Stopped)
            }
        }
    }

    /// Counts a command that was completed.
    fn count(&mut self, command: Result<Command, DecodeFault>, status: Status)
        requires { self.old.stopped ≡ false }
        ensures counted { self.new ≡ counted self.old command status }
        ensures lawful { IsLawful self.new }
    {
        self.completed += 1;
        if self.completed == 1 << 63 {
            self.stopped = true;
        }
        if status != Status::Success {
            self.refused += 1;
            return;
        }
        if let Ok(Command::Append { .. }) = command {
            self.appended += 1;
        }
    }

    /// Answers an entry as `submit_extending` does, with data. No Read stops the device.
    fn answer(
        &mut self,
        entry: &[u8; 64],
        bytes: &[u8],
        into: &mut Vec<u8>,
    ) -> Result<[u8; 16], Halt>
        ensures gives { SubmitAdds self.old entry.now bytes.now into.old.items result
            into.new.items self.new }
        ensures reads { is_read (decode_of entry.now) ≡ true → self.old.stopped ≡ false → result ≢ Err Halt.Stopped }
        ensures was_lawful { IsLawful self.old }
        ensures lawful { IsLawful self.new }
    {
        if self.stopped {
            return Err(Halt::Stopped);
        }
        let reply = self.perform(entry, bytes, into)?;
        self.count(Command::decode(entry), reply.status);
        let completion = Completion {
            result: reply.value,
            id: entry_id(entry),
            status: reply.status,
        };
        Ok(completion.encode())
    }
}

impl<P: Passthrough + Drop> Device for PassthroughDrive<P> {
    ghost drive = { λ d. d };

    fn geometry(&self) -> Geometry {
        self.geometry
    }

    fn completed(&self) -> u64 {
        self.completed
    }

    fn stopped(&self) -> bool {
        self.stopped
    }

    fn submit(
        &mut self,
        entry: &[u8; 64],
        bytes: &[u8],
        into: &mut Vec<u8>,
    ) -> Result<[u8; 16], Halt>
        ensures gives { SubmitGives self.old entry.now bytes.now result into.new.items self.new }
        ensures reads { is_read (decode_of entry.now) ≡ true → self.old.stopped ≡ false → result ≢ Err Halt.Stopped }
        ensures was_lawful { IsLawful self.old }
        ensures lawful { IsLawful self.new }
    {
        into.clear();
        self.answer(entry, bytes, into)
    }

    fn submit_extending(&mut self, entry: &[u8; 64], into: &mut Vec<u8>) -> Result<[u8; 16], Halt>
        ensures gives { SubmitAdds self.old entry.now [] into.old.items result into.new.items self.new }
        ensures reads { is_read (decode_of entry.now) ≡ true → self.old.stopped ≡ false → result ≢ Err Halt.Stopped }
        ensures was_lawful { IsLawful self.old }
        ensures lawful { IsLawful self.new }
    {
        self.answer(entry, &[], into)
    }
}

impl<P: Passthrough + Drop> Honest for PassthroughDrive<P> {
    fn vouch(&self) {
        let _completed = self.completed;
    }
}
