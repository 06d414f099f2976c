// One command to the drive.

ghost use Rattle.std.specs.Prelude.{◌≡◌, ◌≢◌, [], Err, IfErr, IfOk, Ok, OnErr, OnOk, false, true};
ghost use Rattle.nvme_wire.specs.Entry.{IsAdmitted};
ghost use Rattle.nvme_wire.specs.declared.status.Status.TheVariants.{Success};
ghost use Rattle.drive_port.specs.Halting.{Adds};
ghost use Rattle.drive_port.specs.Step.{Effect, is_read};
ghost use Rattle.passthrough.specs.Asking.{HaltsSo, IsReady, Leads};
ghost use Rattle.passthrough.specs.Showing.{FlushLooked};

use crate::acting::act_seen;
use crate::appending::append;
use crate::flushing::flush;
use crate::passthrough::Passthrough;
use crate::reading::read;
use crate::reporting::{ReportAsked, report};
use crate::seen_zone::SeenZone;
use drive_port::{Geometry, Halt};
use nvme_wire::Command;
use std::alloc::Global;

/// Sends a command that a disk needs: a Flush, a Read, an Append, a report, or a Close, Finish or Reset of one zone.
/// What it returns goes after what `into` holds. No other command is sent: it stops the device.
pub(crate) fn ask<P: Passthrough>(
    alloc: Global,
    way: &mut P,
    geometry: Geometry,
    seen: &mut [SeenZone],
    unflushed: &mut bool,
    command: &Command,
    bytes: &[u8],
    into: &mut Vec<u8>,
) -> Result<u64, Halt>
    requires ready { IsReady geometry (P.shape way.old) (P.zones way.old) seen.old }
    requires admitted { IsAdmitted command.now }
    requires known { unflushed.old ≡ false → P.flushed way.old ≡ true }
    ensures ok { IfOk result (λ value. Adds into.old.items (λ returned. Effect geometry (P.zones way.old)
        (Ok command.now) bytes.now Success value returned (P.zones way.new)) into.new.items) }
    ensures err { IfErr result (λ halt. HaltsSo halt geometry (P.zones way.old) (Ok command.now) bytes.now
        (P.zones way.new)) }
    ensures reads { is_read (Ok command.now) ≡ true → result ≢ Err Halt.Stopped }
    ensures ready { result ≢ Err Halt.Stopped → IsReady geometry (P.shape way.new) (P.zones way.new) seen.new }
    ensures leads { Leads geometry (P.shape way.new) (P.zones way.new) }
    ensures kept { OnErr result (into.new.items ≡ into.old.items) }
    ensures looked { command.now ≡ Command.Flush → OnOk result (FlushLooked geometry (P.zones way.old) seen.old seen.new
        (P.zones way.new)) }
    ensures known { unflushed.new ≡ false → P.flushed way.new ≡ true }
{
    match *command {
        Command::Flush => flush(alloc, way, geometry, seen, unflushed),
        Command::Read { slba, blocks } => read(way, geometry, seen, slba, blocks, into),
        Command::Append { zslba, blocks } => {
            *unflushed = true;
            append(way, geometry, seen, zslba, blocks, bytes)
        }
        Command::Send {
            slba,
            action,
            all: false,
        } => act_seen(way, geometry, seen, unflushed, slba, action),
        Command::Receive {
            slba,
            dwords,
            options,
            partial,
        } => {
            let asked = ReportAsked {
                slba,
                dwords,
                options,
                partial,
            };
            report(alloc, way, geometry, seen, asked, into)
        }
        Command::Write { .. } | Command::Send { .. } => Err(Halt::Stopped),
    }
}
