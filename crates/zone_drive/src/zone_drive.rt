ghost use Rattle.std.specs.Prelude.{◌≡◌, false, IsTrue, OnErr, OnOk, map};
ghost use Rattle.zone_states.specs.Geometry.{IsInRange};
ghost use Rattle.drive_port.specs.Run.{restarted};
ghost use Rattle.zone_drive.specs.Held.{AreDurable};
ghost use Rattle.zone_drive.specs.Stored.{AreZones, unused, zones_of};
ghost use Rattle.zone_drive.specs.Habits.{made};

use crate::habit::Habit;
use crate::held::HeldZones;
use drive_port::Halt;
use std::alloc::Global;
use std::marker::Model;
use zone_states::{Action, Geometry};

/// A zoned drive over what holds its zones. It decides which command is refused and with which status, which zone is
/// closed for another, and what a report says. Its habit says which zones it closes by itself.
#[derive(Drop)]
pub struct ZoneDrive<Z: HeldZones + Drop> {
    pub(crate) geometry: Geometry,
    pub(crate) zones: Z,
    pub(crate) completed: u64,
    // Of the completed commands, those that were refused, and the Appends that succeeded.
    pub(crate) refused: u64,
    pub(crate) appended: u64,
    // What holds the zones has stopped.
    pub(crate) halted: bool,
    // A read of them has failed.
    pub(crate) failed: bool,
    pub(crate) habit: Habit,
    pub(crate) alloc: Global,
}

impl<Z: HeldZones + Drop> Model for ZoneDrive<Z> {
    ghost use Rattle.std.specs.Prelude.{◌≡◌, ◌||◌, nat_le, not, ◌^◌, ◌≤◌, IsTrue, map, true};
    ghost use Rattle.zone_drive.specs.Held.{AreDurable, HeldDrive};

    ghost Value = { HeldDrive Z };

    ghost use Rattle.zone_states.specs.Geometry.{IsInRange};
    ghost use Rattle.zone_drive.specs.Stored.{AreZones, zones_of};

    ghost view = { λ d. record {
      drive = record {
        state = record {
          geometry = d.geometry;
          zones = zones_of d.geometry.block (Z.stored d.zones);
          durable = map (zones_of d.geometry.block) (Z.durable d.zones);
          completed = d.completed;
          refused = d.refused;
          appended = d.appended;
          stopped = d.halted || nat_le (2 ^ 63) d.completed;
          clean = true;
          unfailing = not d.failed;
        };
        habit = d.habit;
      };
      held = d.zones;
      halted = d.halted;
    } };

    ghost invariant = { λ d. IsInRange d.geometry × AreZones d.geometry (Z.stored d.zones)
        × (Z.shape d.zones ≡ d.geometry) × (IsTrue d.halted → IsTrue Z.may_stop)
        × (d.completed ≤ 2 ^ 63) × (d.refused ≤ d.completed) × (d.appended ≤ d.completed)
        × AreDurable d.geometry (Z.durable d.zones) × (IsTrue d.failed → IsTrue Z.may_stop) };
}

impl<Z: HeldZones + Drop> ZoneDrive<Z> {
    /// A drive of this shape over these zones, which has completed no command. Its habit is `Lazy`. It allocates
    /// nothing.
    pub fn new(alloc: Global, geometry: Geometry, zones: Z) -> ZoneDrive<Z>
        requires in_range { IsInRange geometry }
        requires zones { AreZones geometry (Z.stored zones) }
        requires shape { Z.shape zones ≡ geometry }
        requires durable { AreDurable geometry (Z.durable zones) }
        ensures { result ≡ record {
          drive = made (record (unused geometry (zones_of geometry.block (Z.stored zones))) {
            durable = map (zones_of geometry.block) (Z.durable zones);
          });
          held = zones;
          halted = false;
        } }
    {
        ZoneDrive {
            geometry,
            zones,
            completed: 0,
            refused: 0,
            appended: 0,
            halted: false,
            failed: false,
            habit: Habit::Lazy,
            alloc,
        }
    }

    /// Makes open zones Closed, and begins all counts again. The habit stays. It allocates nothing.
    pub fn restart(&mut self) -> Result<(), Halt>
        requires { self.old.halted ≡ false }
        ensures ok { OnOk result (self.new.drive ≡ record self.old.drive { state = restarted self.old.drive.state }) }
        ensures stops { OnErr result (IsTrue Z.may_stop) }
        ensures halted { self.new.halted ≡ false }
    {
        self.send_to_all(Action::Close)?;
        self.completed = 0;
        self.refused = 0;
        self.appended = 0;
        Ok(())
    }

    /// What holds the zones.
    pub fn into_zones(self) -> Z
        ensures held { result ≡ self.held }
        ensures zones { AreZones self.drive.state.geometry (Z.stored result) }
        ensures stored { zones_of self.drive.state.geometry.block (Z.stored result) ≡ self.drive.state.zones }
        ensures shape { Z.shape result ≡ self.drive.state.geometry }
        ensures durable { map (zones_of self.drive.state.geometry.block) (Z.durable result)
            ≡ self.drive.state.durable }
        ensures left { AreDurable self.drive.state.geometry (Z.durable result) }
    {
        self.zones
    }

    /// Which zones the drive closes by itself.
    pub fn habit(&self) -> Habit
        ensures { result ≡ self.now.drive.habit }
    {
        self.habit
    }

    /// Changes which zones the drive closes by itself, from the next command on. It allocates nothing.
    pub fn set_habit(&mut self, habit: Habit)
        ensures { self.new ≡ record self.old { drive = record self.old.drive { habit = habit } } }
    {
        self.habit = habit;
    }
}
