// Commands that are not sent, Reads of what is not written, and what follows a Finish and a Reset.

ghost use Rattle.nvme_wire.specs.Entry.{IsAdmitted};

use crate::first_looks::first_seen;
use crate::small_drives::{APPEND, COMMANDS, FINISH, FLUSH, RESET, action, does, drive, reads};
use crate::watched_ways::Watch;
use drive_port::{Device, Halt};
use nvme_wire::{Action, Command, ReportingOptions};
use passthrough::{PassthroughDrive, ReadAhead, Through};
use std::alloc::Global;
use std::process::Abort;

/// A device over a way that counts what is sent to the small drive.
type Watched = PassthroughDrive<ReadAhead<Watch>>;

fn watched(alloc: Global) -> Option<Watched> {
    let mut drive = drive(alloc)?;
    let seen = first_seen(alloc, &mut drive)?;
    let way = Watch::new(Through::new(alloc, drive));
    PassthroughDrive::new(alloc, ReadAhead::new(alloc, way), seen).ok()
}

/// A command with data stops a new device, which sends nothing: not this one, and none after it.
fn check(rt: &impl Abort, alloc: Global, command: Command, bytes: &[u8])
    requires { IsAdmitted command }
{
    let mut device = watched(alloc).expect(rt, "a device");
    let mut into = Vec::new(alloc);
    let answer = device.submit(&command.encode(0), bytes, &mut into);
    assert!(rt; answer == Err(Halt::Stopped));
    assert!(rt; device.stopped() && into.is_empty());
    for later in 0..COMMANDS {
        assert!(rt; !does(alloc, &mut device, later), "{later}");
    }
    assert_eq!(rt; device.way().way().sent(), 0);
}

/// A Reset of all zones.
const RESET_ALL: Command = Command::Send {
    slba: 0,
    action: Action::Reset,
    all: true,
};

/// A Finish of all zones.
const FINISH_ALL: Command = Command::Send {
    slba: 0,
    action: Action::Finish,
    all: true,
};

/// A Close of all zones.
const CLOSE_ALL: Command = Command::Send {
    slba: 0,
    action: Action::Close,
    all: true,
};

#[test]
fn no_write_is_sent(rt: HostRuntime) {
    check(
        &rt,
        rt.alloc(),
        Command::Write { slba: 3, blocks: 1 },
        &[0; 512],
    );
}

#[test]
fn no_action_on_all_zones_is_sent(rt: HostRuntime) {
    check(&rt, rt.alloc(), CLOSE_ALL, &[]);
    check(&rt, rt.alloc(), FINISH_ALL, &[]);
    check(&rt, rt.alloc(), RESET_ALL, &[]);
}

#[test]
fn no_open_and_no_offline_is_sent(rt: HostRuntime) {
    check(&rt, rt.alloc(), action(0, Action::Open), &[]);
    check(&rt, rt.alloc(), action(0, Action::Offline), &[]);
}

/// Not at the start of a zone, past the end, and a Close of a zone that is not open.
#[test]
fn no_action_that_is_refused_is_sent(rt: HostRuntime) {
    check(&rt, rt.alloc(), action(1, Action::Reset), &[]);
    check(&rt, rt.alloc(), action(24, Action::Reset), &[]);
    check(&rt, rt.alloc(), action(8, Action::Close), &[]);
    check(&rt, rt.alloc(), action(16, Action::Close), &[]);
}

/// No room, no start of a zone, past the end, data of another length, and too many blocks.
#[test]
fn no_append_that_is_refused_is_sent(rt: HostRuntime) {
    let bytes = [0; 5 * 512];
    for (zslba, blocks, length) in [
        (8, 1, 512),
        (0, 4, 4 * 512),
        (1, 1, 512),
        (24, 1, 512),
        (16, 1, 1024),
        (16, 1, 511),
        (16, 1, 0),
        (16, 5, 5 * 512),
    ] {
        assert!(rt; length <= bytes.len());
        let command = Command::Append { zslba, blocks };
        check(&rt, rt.alloc(), command, &bytes[..length]);
    }
}

/// Over the end of a zone, past the end of the drive, and too many blocks: such a Read fails, and the device goes on.
#[test]
fn no_read_that_is_refused_is_sent(rt: HostRuntime) {
    let alloc = rt.alloc();
    for (slba, blocks) in [(6, 4), (23, 2), (24, 1), (u64::MAX, 1), (0, 5)] {
        let mut device = watched(alloc).expect(&rt, "a device");
        let mut into = Vec::new(alloc);
        let entry = Command::Read { slba, blocks }.encode(0);
        assert!(rt; device.submit(&entry, &[], &mut into) == Err(Halt::Failed));
        assert!(rt; into.is_empty() && !device.stopped());
        assert_eq!(rt; device.way().way().sent(), 0);
        assert!(rt; does(alloc, &mut device, APPEND));
    }
}

#[test]
fn no_report_past_the_end_is_sent(rt: HostRuntime) {
    let command = Command::Receive {
        slba: 24,
        dwords: 64,
        options: ReportingOptions::AnyState,
        partial: true,
    };
    check(&rt, rt.alloc(), command, &[]);
}

/// An entry without a command is refused, and the device goes on.
#[test]
fn an_entry_without_a_command_is_refused(rt: HostRuntime) {
    let mut device = watched(rt.alloc()).expect(&rt, "a device");
    let mut into = Vec::new(rt.alloc());
    assert!(rt; device.submit(&[0xff; 64], &[], &mut into).is_ok());
    assert!(rt; !device.stopped() && device.completed() == 1);
    assert_eq!(rt; device.way().way().sent(), 0);
    assert!(rt; does(rt.alloc(), &mut device, 0));
}

/// What is not written reads as zeros, and the drive is not asked for it: also after a Finish.
#[test]
fn what_is_not_written_is_zeros(rt: HostRuntime) {
    let alloc = rt.alloc();
    let mut device = watched(alloc).expect(&rt, "a device");
    for _ in 0..2 {
        assert!(rt; reads(alloc, &mut device, 3, 4, 0));
        assert!(rt; reads(alloc, &mut device, 6, 2, 0));
        assert!(rt; reads(alloc, &mut device, 16, 4, 0));
        assert!(rt; reads(alloc, &mut device, 0, 3, 0x11));
        assert!(rt; does(alloc, &mut device, FINISH));
    }
    assert_eq!(rt; device.way().way().past(), 0);
}

/// A Read of written blocks and others asks for the written ones.
#[test]
fn no_read_goes_past_what_is_written(rt: HostRuntime) {
    let alloc = rt.alloc();
    let mut device = watched(alloc).expect(&rt, "a device");
    for address in 0..8 {
        let mut into = Vec::new(alloc);
        let command = Command::Read {
            slba: address,
            blocks: 1,
        };
        assert!(rt; device.submit(&command.encode(0), &[], &mut into).is_ok());
        let byte = if address < 3 { 0x11 } else { 0 };
        assert!(rt; into.as_slice() == [byte; 512].as_slice());
    }
    assert_eq!(rt; device.way().way().past(), 0);
    assert!(rt; device.way().way().sent() <= 3);
}

/// After a Finish and a Reset the zone is looked at by a report, so that one which was not done is found.
#[test]
fn a_finish_and_a_reset_are_looked_at(rt: HostRuntime) {
    let alloc = rt.alloc();
    for (number, reports, flushes) in [(APPEND, 0, 0), (FINISH, 1, 0), (RESET, 1, 1)] {
        let mut device = watched(alloc).expect(&rt, "a device");
        assert!(rt; does(alloc, &mut device, number));
        assert_eq!(rt; device.way().way().reports(), reports);
        assert_eq!(rt; device.way().way().flushes(), flushes);
        assert_eq!(rt; device.way().way().sent(), 1 + reports + flushes);
    }
}

/// A Flush looks at the first zone while it is open, and once more after it is finished. Then no zone is due.
#[test]
fn a_flush_looks_at_what_may_be_written(rt: HostRuntime) {
    let alloc = rt.alloc();
    let mut device = watched(alloc).expect(&rt, "a device");
    let mut reports: u32 = 0;
    for (number, looks) in [(FLUSH, 1), (FLUSH, 1), (FINISH, 1), (FLUSH, 1), (FLUSH, 0)] {
        assert!(rt; does(alloc, &mut device, number));
        reports = reports.saturating_add(looks);
        assert_eq!(rt; device.way().way().reports(), reports);
    }
    assert_eq!(rt; device.way().way().flushes(), 4);
    assert_eq!(rt; device.way().way().sent(), reports.saturating_add(5));
}

/// Zones at both ends are looked at by one report, since one transfer holds them all.
#[test]
fn one_report_shows_all_that_was_changed(rt: HostRuntime) {
    let alloc = rt.alloc();
    let mut device = watched(alloc).expect(&rt, "a device");
    assert!(rt; does(alloc, &mut device, APPEND));
    assert!(rt; does(alloc, &mut device, FLUSH));
    assert_eq!(rt; device.way().way().reports(), 1);
    assert_eq!(rt; device.way().way().sent(), 3);
}

/// The first Reset waits for a Flush, since blocks may have been written before the device began. Later ones wait for
/// one only after an Append.
#[test]
fn a_reset_waits_for_a_flush(rt: HostRuntime) {
    let alloc = rt.alloc();
    let mut device = watched(alloc).expect(&rt, "a device");
    let mut flushes: u32 = 0;
    for (number, sent) in [
        (RESET, 1),
        (RESET, 0),
        (APPEND, 0),
        (RESET, 1),
        (RESET, 0),
        (FINISH, 0),
        (RESET, 0),
        (APPEND, 0),
        (FLUSH, 1),
        (RESET, 0),
    ] {
        assert!(rt; does(alloc, &mut device, number), "{number}");
        flushes = flushes.saturating_add(sent);
        assert_eq!(rt; device.way().way().flushes(), flushes, "{number}");
    }
}
