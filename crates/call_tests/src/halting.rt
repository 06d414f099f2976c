// Ways that do not answer one of the commands, or answer it by a status that is not to be believed.

ghost use Rattle.std.specs.Prelude.{◌≡◌, ◌≤◌};
ghost use Rattle.passthrough.specs.Premise.{AreLawful};

use crate::first_looks::first_seen;
use crate::small_drives::{
    APPEND, CLOSE, COMMANDS, FINISH, FLUSH, READ, REPORT, RESET, does, drive, halt_at, holds,
};
use drive_port::{Device, Halt};
use nvme_wire::Command;
use passthrough::{Passthrough, PassthroughDrive, ReadAhead, Through};
use std::alloc::Global;
use std::process::Abort;
use zone_drive::Drive;
use zone_states::Geometry;

/// What is done at the command that is not answered as it should be.
#[derive(Clone, Copy, Debug, PartialEq, Eq)]
pub enum Fault {
    /// It is not done.
    Undone,
    /// It is done.
    Done,
}

/// Which commands are answered in another way, and how.
#[derive(Clone, Copy, Debug)]
pub struct Halts {
    /// How many commands are answered before them.
    before: u32,
    /// How many there are.
    count: u32,
    fault: Fault,
    /// Their status.
    status: u16,
}

/// A way to a drive, with some commands that are answered in another way.
#[derive(Drop)]
pub struct Halting {
    way: Through<Drive>,
    halts: Halts,
    /// How many commands were sent.
    sent: u32,
}

impl Halting {
    pub fn new(way: Through<Drive>, halts: Halts) -> Halting
        ensures { result.way ≡ way }
    {
        Halting {
            way,
            halts,
            sent: 0,
        }
    }

    /// Whether the next command is answered in another way.
    fn is_chosen(&self) -> bool {
        let halts = self.halts;
        self.sent >= halts.before && self.sent < halts.before.saturating_add(halts.count)
    }

    /// The drive.
    pub fn drive(&self) -> &Drive {
        self.way.device()
    }

    /// The status, which is never that of a Success.
    fn status(&self) -> u16
        ensures some { 1 ≤ result }
        ensures lawful { AreLawful self.now.way.geometry self.now.way.zones }
    {
        // The drive is asked for its shape, since its answer says that it is lawful.
        let _ = self.way.geometry();
        self.halts.status.max(1)
    }
}

impl Passthrough for Halting {
    ghost use Rattle.std.specs.Prelude.{None, true};

    ghost shape = { λ h. h.way.geometry };

    ghost zones = { λ h. h.way.zones };

    ghost flushed = { λ h. true };

    ghost before = { λ h. None };

    fn geometry(&self) -> Geometry {
        self.way.geometry()
    }

    fn submit(
        &mut self,
        command: &Command,
        bytes: &[u8],
        end: u64,
        room: &mut [u8],
        value: &mut u64,
    ) -> u16 {
        let chosen = self.is_chosen();
        self.sent = self.sent.saturating_add(1);
        if chosen && self.halts.fault == Fault::Undone {
            return self.status();
        }
        let status = self.way.submit(command, bytes, end, room, value);
        if chosen && self.halts.fault == Fault::Done {
            return self.status();
        }
        status
    }
}

/// What stands for no answer.
const SILENT: u16 = 0xffff;

/// Zone Invalid Write, Namespace Not Ready and Write Fault.
const STATUSES: [u16; 3] = [0x1bc, 0x82, 0x280];

type HaltingDrive = PassthroughDrive<ReadAhead<Halting>>;

/// A device over such a way to the small drive.
fn device(alloc: Global, halts: Halts) -> Option<HaltingDrive> {
    let mut drive = drive(alloc)?;
    let seen = first_seen(alloc, &mut drive)?;
    let way = Halting::new(Through::new(alloc, drive), halts);
    PassthroughDrive::new(alloc, ReadAhead::new(alloc, way), seen).ok()
}

/// Whether a command fails, and the device goes on. A Read and a report change nothing, so these always do. Of an
/// Append or an action a report has to show that it was not done; a Close does no more than the drive may by itself.
fn is_failure(number: u32, halts: Halts) -> bool {
    let answered = halts.status != SILENT && halts.count == 1;
    let undone = halts.fault == Fault::Undone;
    match (number, halts.before) {
        (READ | REPORT, 0) | (FLUSH, 1) => true,
        (APPEND | FINISH, 0) | (RESET, 1) => answered && undone,
        (CLOSE, 0) => answered,
        _ => false,
    }
}

/// A device stops at a command, sends nothing more, and has lost nothing.
fn check_stopped(rt: &impl Abort, alloc: Global, device: &mut HaltingDrive, number: u32) {
    assert!(rt; device.stopped(), "after command {number}");
    let sent = device.way().way().sent;
    for later in 0..COMMANDS {
        assert!(rt; !does(alloc, device, later), "{later} after {number}");
    }
    assert_eq!(rt; device.way().way().sent, sent);
    assert!(rt; holds(alloc, device.way().way().drive(), number != RESET));
}

/// A device goes on after a command that failed, and counts those alone that it completes.
fn check_going(rt: &impl Abort, alloc: Global, device: &mut HaltingDrive, number: u32) {
    assert!(rt;
        !device.stopped() && device.completed() == 0,
        "after command {number}"
    );
    for later in 0..COMMANDS {
        assert!(rt; does(alloc, device, later), "{later} after {number}");
    }
    assert_eq!(rt; device.completed(), u64::from(COMMANDS));
    assert!(rt; holds(alloc, device.way().way().drive(), false));
}

/// A command is answered in another way: the device stops at it, or goes on where nothing was done.
fn check(rt: &impl Abort, alloc: Global, number: u32, halts: Halts) {
    let mut device = device(alloc, halts).expect(rt, "a device");
    let Some(halt) = halt_at(alloc, &mut device, number) else {
        // The command was answered before the one that is not.
        assert!(rt; device.way().way().sent <= halts.before);
        return;
    };
    if is_failure(number, halts) {
        assert!(rt; halt == Halt::Failed, "at command {number}");
        check_going(rt, alloc, &mut device, number);
    } else {
        assert!(rt; halt == Halt::Stopped, "at command {number}");
        check_stopped(rt, alloc, &mut device, number);
    }
}

/// One or two commands are answered by a status, done or not.
fn check_both(rt: &impl Abort, alloc: Global, number: u32, before: u32, count: u32, status: u16) {
    for fault in [Fault::Undone, Fault::Done] {
        let halts = Halts {
            before,
            count,
            fault,
            status,
        };
        check(rt, alloc, number, halts);
    }
}

#[test]
fn no_answer_stops_the_device_unless_nothing_can_be_done(rt: HostRuntime) {
    for number in 0..COMMANDS {
        for before in 0..3 {
            check_both(&rt, rt.alloc(), number, before, 1, SILENT);
        }
    }
}

#[test]
fn each_status_stops_the_device_unless_nothing_was_done(rt: HostRuntime) {
    for number in 0..COMMANDS {
        for status in STATUSES {
            for before in 0..3 {
                check_both(&rt, rt.alloc(), number, before, 1, status);
            }
        }
    }
}

/// The report after a command that failed is answered by the same status.
#[test]
fn a_report_that_fails_too_stops_the_device(rt: HostRuntime) {
    for (number, before) in [(APPEND, 0), (CLOSE, 0), (FINISH, 0), (RESET, 1)] {
        for status in STATUSES {
            check_both(&rt, rt.alloc(), number, before, 2, status);
        }
    }
}

/// A command that failed is followed by one report, and by no more.
#[test]
fn one_report_follows_a_command_that_failed(rt: HostRuntime) {
    let alloc = rt.alloc();
    for (number, before, reports) in [(READ, 0, 0), (APPEND, 0, 1), (FINISH, 0, 1), (RESET, 1, 1)] {
        let halts = Halts {
            before,
            count: 1,
            fault: Fault::Undone,
            status: 0x280,
        };
        let mut device = device(alloc, halts).expect(&rt, "a device");
        assert!(rt; halt_at(alloc, &mut device, number) == Some(Halt::Failed));
        let sent = before.saturating_add(1).saturating_add(reports);
        assert_eq!(rt; device.way().way().sent, sent);
    }
}
