ghost use Rattle.std.specs.Prelude.{◌≡◌, ◌⊎◌, ◌<◌, ◌||◌, ◌^◌, [], false, true, IfErr, IfOk, IsErrOf, IsTrue};
ghost use Rattle.std.specs.Prelude.{OnErr, OnOk, Ok, nat_le, List, ℕ};
ghost use Rattle.nvme_wire.specs.Entry.{IsAdmitted, decode_of};
ghost use Rattle.drive_port.specs.Drive.{IsLawful};
ghost use Rattle.drive_port.specs.Halting.{Adds, SubmitAdds, SubmitGives};
ghost use Rattle.drive_port.specs.Step.{decode_status};
ghost use Rattle.zone_drive.specs.Choice.{AnswersByChoice, Gives, Keeps};
ghost use Rattle.zone_drive.specs.Memory.{may_allocate};
ghost use Rattle.zone_drive.specs.Counts.{counted};

use crate::held::HeldZones;
use crate::reply::Reply;
use crate::zone_drive::ZoneDrive;
use drive_port::{Device, Geometry, Halt, Honest};
use nvme_wire::{Command, Completion, DecodeFault, Status, entry_id};

pub(crate) fn fault_status(fault: DecodeFault) -> Status
    ensures { result ≡ decode_status fault }
{
    match fault {
        DecodeFault::Opcode => Status::InvalidCommandOpcode,
        DecodeFault::Namespace => Status::InvalidNamespace,
        DecodeFault::Field => Status::InvalidField,
    }
}

impl<Z: HeldZones + Drop> ZoneDrive<Z> {
    /// A Flush.
    fn flush(&mut self) -> Result<Reply, Halt>
        ensures ok { (bytes : List ℕ) → IfOk result (λ reply.
            Gives self.old.drive (Ok Command.Flush) bytes reply [] self.new.drive) }
        ensures kept { OnErr result (Keeps self.old.drive (Ok Command.Flush) self.new.drive) }
        ensures only { IfErr result (λ halt. halt ≡ Halt.Stopped) }
        ensures stops { OnErr result (IsTrue Z.may_stop) }
        ensures halted { self.new.halted ≡ self.old.halted }
    {
        self.zones.flush()?;
        Ok(Reply::done(0))
    }

    /// Does a command. What it returns goes after what `into` holds.
    #[inline(always)]
    fn execute(&mut self, command: Command, bytes: &[u8], into: &mut Vec<u8>) -> Result<Reply, Halt>
        requires admitted { IsAdmitted command }
        ensures ok { IfOk result (λ reply. Adds into.old.items
            (λ returned. Gives self.old.drive (Ok command) bytes.now reply returned self.new.drive)
            into.new.items) }
        ensures allocates { IsErrOf result Halt.Memory → may_allocate (Ok command) ≡ true }
        ensures returned { OnErr result (into.new.items ≡ into.old.items) }
        ensures kept { OnErr result (Keeps self.old.drive (Ok command) self.new.drive) }
        ensures memory { IsErrOf result Halt.Memory → self.new ≡ self.old }
        ensures failed { IsErrOf result Halt.Failed → self.new.drive ≡ self.old.drive }
        ensures fails { IsErrOf result Halt.Failed → IsTrue Z.may_stop }
        ensures stops { IsErrOf result Halt.Stopped → IsTrue Z.may_stop }
        ensures halted { self.new.halted ≡ self.old.halted }
    {
        match command {
            Command::Flush => Ok(self.flush()?),
            Command::Read { slba, blocks } => self.read(slba, blocks, into),
            Command::Write { slba, blocks } => self.write(slba, blocks, bytes),
            Command::Append { zslba, blocks } => self.append(zslba, blocks, bytes),
            Command::Send { slba, action, all } => Ok(self.send(slba, action, all)?),
            Command::Receive {
                slba,
                dwords,
                options,
                partial,
            } => self.receive(slba, dwords, options, partial, into),
        }
    }

    /// Does the command of an entry, or refuses an entry that has none.
    #[inline(always)]
    fn perform(
        &mut self,
        command: Result<Command, DecodeFault>,
        bytes: &[u8],
        into: &mut Vec<u8>,
    ) -> Result<Reply, Halt>
        requires admitted { IfOk command IsAdmitted }
        ensures ok { IfOk result (λ reply. Adds into.old.items
            (λ returned. Gives self.old.drive command bytes.now reply returned self.new.drive)
            into.new.items) }
        ensures allocates { IsErrOf result Halt.Memory → may_allocate command ≡ true }
        ensures returned { OnErr result (into.new.items ≡ into.old.items) }
        ensures kept { OnErr result (Keeps self.old.drive command self.new.drive) }
        ensures memory { IsErrOf result Halt.Memory → self.new ≡ self.old }
        ensures failed { IsErrOf result Halt.Failed → self.new.drive ≡ self.old.drive }
        ensures fails { IsErrOf result Halt.Failed → IsTrue Z.may_stop }
        ensures stops { IsErrOf result Halt.Stopped → IsTrue Z.may_stop }
        ensures halted { self.new.halted ≡ self.old.halted }
    {
        match command {
            Ok(command) => self.execute(command, bytes, into),
            Err(fault) => Ok(Reply::refused(fault_status(fault))),
        }
    }

    /// Counts a command that was completed.
    fn count(&mut self, command: Result<Command, DecodeFault>, status: Status)
        requires few { self.old.drive.state.completed < 2 ^ 63 }
        requires going { self.old.halted ≡ false }
        ensures counted { self.new ≡ record self.old {
          drive =
              record self.old.drive { state = counted self.old.drive.state command status };
        } }
        ensures lawful { IsLawful self.new.drive.state }
    {
        self.completed += 1;
        if status != Status::Success {
            self.refused += 1;
            return;
        }
        if let Ok(Command::Append { .. }) = command {
            self.appended += 1;
        }
    }

    /// Notes that what holds the zones has stopped, or that a read of it failed.
    fn note(&mut self, halt: Halt) -> Halt
        requires stops { halt ≡ Halt.Stopped → IsTrue Z.may_stop }
        requires fails { halt ≡ Halt.Failed → IsTrue Z.may_stop }
        ensures same { result ≡ halt }
        ensures memory { halt ≡ Halt.Memory → self.new ≡ self.old }
        ensures stopped { halt ≡ Halt.Stopped → self.new ≡ record self.old {
          halted = true;
          drive = record self.old.drive { state = record self.old.drive.state { stopped = true } };
        } }
        ensures failed { halt ≡ Halt.Failed → self.new ≡ record self.old {
          drive = record self.old.drive { state = record self.old.drive.state { unfailing = false } };
        } }
    {
        match halt {
            Halt::Stopped => self.halted = true,
            Halt::Failed => self.failed = true,
            Halt::Memory => {}
        }
        halt
    }

    /// Answers an entry as `submit` does, and extends what `into` holds as `submit_extending` does.
    ///
    /// It is inlined: where LLVM sees an entry encoded and then decoded, or a completion, it does neither.
    #[inline(always)]
    pub fn answer(
        &mut self,
        entry: &[u8; 64],
        bytes: &[u8],
        into: &mut Vec<u8>,
    ) -> Result<[u8; 16], Halt>
        ensures gives { SubmitAdds self.old.drive.state entry.now bytes.now into.old.items result
            into.new.items self.new.drive.state }
        ensures was_lawful { IsLawful self.old.drive.state }
        ensures lawful { IsLawful self.new.drive.state }
        ensures memory { IsErrOf result Halt.Memory → may_allocate (decode_of entry.now) ≡ true }
        ensures choice { IfOk result (λ completion. Adds into.old.items
            (λ returned. AnswersByChoice self.old.drive entry.now bytes.now completion returned
            self.new.drive) into.new.items) }
        ensures stops { self.new.drive.state.stopped
            ≡ self.new.halted || nat_le (2 ^ 63) self.new.drive.state.completed }
        ensures halts { IsTrue self.new.halted → IsTrue Z.may_stop }
        ensures kept { OnErr result ((self.new ≡ self.old) ⊎ IsTrue Z.may_stop) }
    {
        if self.stopped() {
            return Err(Halt::Stopped);
        }
        let command = Command::decode(entry);
        let reply = match self.perform(command, bytes, into) {
            Ok(reply) => reply,
            Err(halt) => return Err(self.note(halt)),
        };
        self.settle();
        self.count(command, reply.status);
        let completion = Completion {
            result: reply.value,
            id: entry_id(entry),
            status: reply.status,
        };
        Ok(completion.encode())
    }
}

impl<Z: HeldZones + Drop> Device for ZoneDrive<Z> {
    ghost drive = { λ d. d.drive.state };

    fn geometry(&self) -> Geometry {
        self.geometry
    }

    fn completed(&self) -> u64 {
        self.completed
    }

    fn stopped(&self) -> bool
        ensures value { result ≡ self.now.drive.state.stopped }
        ensures lawful { IsLawful self.now.drive.state }
        ensures by_count { self.now.drive.state.stopped
            ≡ self.now.halted || nat_le (2 ^ 63) self.now.drive.state.completed }
        ensures halts { IsTrue self.now.halted → IsTrue Z.may_stop }
    {
        self.halted || self.completed >= 1 << 63
    }

    #[inline(always)]
    fn submit(
        &mut self,
        entry: &[u8; 64],
        bytes: &[u8],
        into: &mut Vec<u8>,
    ) -> Result<[u8; 16], Halt>
        ensures gives { SubmitGives self.old.drive.state entry.now bytes.now result into.new.items
            self.new.drive.state }
        ensures was_lawful { IsLawful self.old.drive.state }
        ensures lawful { IsLawful self.new.drive.state }
    {
        into.clear();
        self.answer(entry, bytes, into)
    }

    #[inline(always)]
    fn submit_extending(&mut self, entry: &[u8; 64], into: &mut Vec<u8>) -> Result<[u8; 16], Halt>
        ensures gives { SubmitAdds self.old.drive.state entry.now [] into.old.items result into.new.items
            self.new.drive.state }
        ensures was_lawful { IsLawful self.old.drive.state }
        ensures lawful { IsLawful self.new.drive.state }
    {
        self.answer(entry, &[], into)
    }
}

impl<Z: HeldZones + Drop> Honest for ZoneDrive<Z> {
    fn vouch(&self) {
        let _completed = self.completed;
    }
}
