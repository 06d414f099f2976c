ghost use Rattle.std.specs.Prelude.{◌≡◌, ◌∷◌, Contains, [], false, map, true, IsTrue, List, ℕ};
ghost use Rattle.zone_states.specs.Stored.{StoredZone};
ghost use Rattle.zone_drive.specs.Habits.{made};
ghost use Rattle.zone_drive.specs.Held.{AreDurable, restarted_stored};
ghost use Rattle.zone_drive.specs.Stored.{AreZones, unused, zones_of};
ghost use Rattle.file_drive.specs.Finds.{Finds};
ghost use Rattle.file_drive.specs.Head.{is_known, is_of_boot};
ghost use Rattle.file_drive.specs.InFile.{filed, promised_zones};
ghost use Rattle.file_drive.specs.Opened.{IsOpened, served_zones};
ghost use Rattle.file_drive.specs.Opening.{opened_zones, proves_live};
ghost use Rattle.file_drive.specs.Tables.{zones_in};
ghost use Rattle.file_drive.specs.declared.boot.Boot.{Boot};

use crate::boot::System;
use crate::found::Found;
use crate::freed::Freed;
use crate::zones::FileZones;
use file_bytes::FileBytes;
use std::alloc::Global;
use zone_drive::{Resources, ZoneDrive};

/// A drive over a file that was opened. It has completed no command, and its habit is `Lazy`.
pub fn serve<F: FileBytes + Drop, S: System + Drop>(
    alloc: Global,
    file: F,
    system: S,
    found: Found,
) -> ZoneDrive<FileZones<F, S>>
    requires { IsOpened F.FileBytes.seen F.FileBytes.may_leave F.FileBytes.is_usable S.System.boot file found }
    ensures { result ≡ record {
      drive = made (record (unused found.head.geometry (zones_of found.head.geometry.block
          (zones_in found.head.geometry (F.FileBytes.seen file) 0 found.entries.items))) {
            durable = zones_of found.head.geometry.block
                (promised_zones found.head.geometry (F.FileBytes.seen file) found.tables.safe.items) ∷ [];
          });
      held = served_zones F.FileBytes.seen file found;
      halted = false;
    } }
{
    let geometry = found.head.geometry;
    ZoneDrive::new(alloc, geometry, FileZones::new(file, system, found))
}

impl<F: FileBytes + Drop, S: System + Drop> FileZones<F, S> {
    /// The zones of a file that was opened.
    pub fn new(file: F, system: S, found: Found) -> FileZones<F, S>
        requires { IsOpened F.seen F.may_leave F.is_usable S.boot file found }
        ensures { result ≡ served_zones F.seen file found }
    {
        let named = system.boot();
        let resources = Resources::of(&found.entries);
        let freed = Freed::new(*found.entries.allocator());
        let tables = found.tables;
        FileZones {
            file,
            system,
            geometry: found.head.geometry,
            entries: found.entries,
            resources,
            named,
            live: tables.live,
            spare: tables.spare,
            flushed: tables.flushed,
            safe: tables.safe,
            other: tables.other,
            failed: false,
            unsure: false,
            freed,
        }
    }

    /// The file. It is what a kill at this moment leaves. If no sync has failed, a system that is still in the same
    /// boot, and knows it, finds the zones as they are. So it does if the kill is inside of a call of the file, which
    /// was not done (`cut`). If a sync has failed, and the head could be told, a system in any boot finds zones that
    /// are durable (`lost`). After a loss of power a system in another boot finds such zones, too. One in any boot
    /// opens what it left, and finds such zones or those of a live table that the file proves (`here`).
    pub fn into_file(self) -> F
        ensures file { result ≡ self.file }
        ensures kill { is_known S.boot ≡ true → IsTrue (F.is_usable self.file)
            → AreZones self.shape (filed F.seen self) → AreDurable self.shape self.durable
            → (bytes : List ℕ) → F.may_show self.file bytes
            → Finds self.shape S.boot bytes (map restarted_stored (filed F.seen self)) }
        ensures cut { is_of_boot S.boot (F.seen self.file) ≡ true → AreZones self.shape (filed F.seen self)
            → AreDurable self.shape self.durable
            → Finds self.shape S.boot (F.seen self.file) (map restarted_stored (filed F.seen self)) }
        ensures lost { F.is_usable self.file ≡ false → F.is_stuck self.file ≡ false
            → AreDurable self.shape self.durable → (bytes : List ℕ) (boot : Boot) → F.may_show self.file bytes
            → (zones : List StoredZone) × Contains self.durable zones × Finds self.shape boot bytes zones }
        ensures power { AreDurable self.shape self.durable → (bytes : List ℕ) (boot : Boot)
            → F.may_leave self.file bytes → is_of_boot boot bytes ≡ false
            → (zones : List StoredZone) × Contains self.durable zones × Finds self.shape boot bytes zones }
        ensures here { AreDurable self.shape self.durable → (bytes : List ℕ) (boot : Boot)
            → F.may_leave self.file bytes → Finds self.shape boot bytes (opened_zones self.shape boot bytes)
            × (proves_live self.shape bytes ≡ false
            → Contains self.durable (opened_zones self.shape boot bytes)) }
    {
        self.file
    }
}
