// A way that watches what is sent.

ghost use Rattle.std.specs.Prelude.{◌≡◌};

use drive_port::Device;
use nvme_wire::Command;
use passthrough::{Passthrough, Through};
use zone_drive::Drive;
use zone_states::Geometry;

/// A way to a drive that counts what is sent.
#[derive(Drop)]
pub struct Watch {
    way: Through<Drive>,
    /// How many commands were sent.
    sent: u32,
    /// How many of them ask for a report.
    reports: u32,
    /// How many of them are Flushes.
    flushes: u32,
    /// How many Reads could go on past what is written.
    past: u32,
}

impl Watch {
    pub fn new(way: Through<Drive>) -> Watch
        ensures { result.way ≡ way }
    {
        Watch {
            way,
            sent: 0,
            reports: 0,
            flushes: 0,
            past: 0,
        }
    }

    /// How many commands were sent.
    pub fn sent(&self) -> u32 {
        self.sent
    }

    /// How many of them ask for a report.
    pub fn reports(&self) -> u32 {
        self.reports
    }

    /// How many of them are Flushes.
    pub fn flushes(&self) -> u32 {
        self.flushes
    }

    /// How many Reads could go on past what is written.
    pub fn past(&self) -> u32 {
        self.past
    }

    /// The drive.
    pub fn drive(&self) -> &Drive {
        self.way.device()
    }

    /// The address after the last written block of the zone that holds an address.
    fn written_to(&self, address: u64) -> u64 {
        let geometry = self.way.device().geometry();
        let size = u64::from(geometry.size);
        let Some(number) = address.checked_div(size) else {
            return 0;
        };
        let Some(zone) = self.drive().zone(number as usize) else {
            return 0;
        };
        let blocks = zone.blocks(&geometry) as u64;
        number.wrapping_mul(size).wrapping_add(blocks)
    }

    /// Counts a command.
    fn watch(&mut self, command: &Command, end: u64)
        ensures { self.new.way ≡ self.old.way }
    {
        self.sent = self.sent.saturating_add(1);
        if let Command::Receive { .. } = *command {
            self.reports = self.reports.saturating_add(1);
        }
        if let Command::Flush = *command {
            self.flushes = self.flushes.saturating_add(1);
        }
        if let Command::Read { slba, blocks } = *command {
            let written = self.written_to(slba);
            if end > written || slba.saturating_add(u64::from(blocks)) > end {
                self.past = self.past.saturating_add(1);
            }
        }
    }
}

impl Passthrough for Watch {
    ghost use Rattle.std.specs.Prelude.{None, true};

    ghost shape = { λ w. w.way.geometry };

    ghost zones = { λ w. w.way.zones };

    ghost flushed = { λ w. true };

    ghost before = { λ w. None };

    fn geometry(&self) -> Geometry {
        self.way.geometry()
    }

    fn submit(
        &mut self,
        command: &Command,
        bytes: &[u8],
        end: u64,
        room: &mut [u8],
        value: &mut u64,
    ) -> u16 {
        self.watch(command, end);
        self.way.submit(command, bytes, end, room, value)
    }
}
