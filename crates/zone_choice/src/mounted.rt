ghost use Rattle.std.specs.Prelude.{◌≡◌};
ghost use Rattle.zone_choice.specs.Agreement.{mounted};

use crate::tables::Tables;
use drive_port::{Device, Geometry};
use std::alloc::Global;
use std::marker::Model;

/// A mounted disk: the drive, and what is known of it. A contract sees the two together, as one value.
#[derive(Drop)]
pub struct Mounted<D: Device> {
    pub device: D,
    pub tables: Tables,
    /// What the commands of the drive allocate from.
    pub alloc: Global,
}

impl<D: Device> Model for Mounted<D> {
    ghost use Rattle.zone_choice.specs.Agreement.{MountedView};

    ghost Value = { MountedView };

    ghost view = { λ m. record { drive = D.drive m.device; tables = m.tables } };
}

impl<D: Device> Mounted<D> {
    /// A drive with its tables.
    pub fn new(alloc: Global, device: D, tables: Tables) -> Mounted<D>
        ensures { result ≡ mounted (D.drive device) tables }
    {
        Mounted {
            device,
            tables,
            alloc,
        }
    }

    /// The shape of the drive.
    pub fn geometry(&self) -> Geometry
        ensures { result ≡ self.now.drive.geometry }
    {
        self.device.geometry()
    }
}
