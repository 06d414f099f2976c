ghost use Rattle.std.specs.Prelude.{◌≡◌, ◌<◌, ◌++◌, Bool, IfErr, IfSome, IsErrOf, IsTrue, List, None, OnErr};
ghost use Rattle.std.specs.Prelude.{OnOk, count_by, drop, length, map, position, slice_set};
ghost use Rattle.zone_states.specs.declared.geometry.Geometry.{Geometry};
ghost use Rattle.zone_states.specs.Checks.{first_failing};
ghost use Rattle.zone_states.specs.Stored.{StoredZone, stored_write, zone_stored};
ghost use Rattle.zone_states.specs.Transition.{is_active, is_open};
ghost use Rattle.zone_states.specs.Writing.{append_bytes_checks};
ghost use Rattle.zone_drive.specs.Groups.{is_implicit};
ghost use Rattle.zone_drive.specs.Held.{DurableJust, DurableOrNow};
ghost use Rattle.zone_drive.specs.Stored.{with_zeros};
ghost use Rattle.zone_drive.specs.Table.{closed_in, closed_stored, sent_in, sent_stored, stored_at};

use drive_port::Halt;
use std::alloc::AllocError;
use zone_states::{Action, Geometry, ZoneState};

/// What holds the zones of a drive: their states, and the bytes of their written blocks. It decides nothing: the drive
/// asks only what its rules admit. An answer `Stopped` means that the zones are as they were, and that nothing more may
/// be asked; where `Memory` is answered nothing changed. A read may answer `Failed`: what it asked for cannot be read
/// now, and nothing changed.
pub trait HeldZones {
    /// The shape of the drive, which never changes.
    ghost shape: { Self → Geometry };

    /// The zones, as they are stored.
    ghost stored: { Self → List StoredZone };

    /// The zones that an open may find after a loss of power at this moment, as a restart leaves them. There is one
    /// list for each way that it may end. There is none where nothing is said of a loss of power.
    ghost durable: { Self → List (List StoredZone) };

    /// Whether it may answer `Stopped`, and to a read `Failed`.
    ghost may_stop: { Bool };

    /// The state of a zone.
    fn state(&self, index: usize) -> ZoneState
        requires { index < length (stored self.now) }
        ensures { result ≡ (stored_at (stored self.now) index).state };

    /// How many bytes of a zone are written.
    fn written(&self, index: usize) -> usize
        requires { index < length (stored self.now) }
        ensures { result ≡ length (stored_at (stored self.now) index).bytes };

    /// How many zones are active.
    fn active_zones(&self) -> u32
        ensures { result ≡ count_by (λ zone. is_active zone.state) (stored self.now) };

    /// How many zones are open.
    fn open_zones(&self) -> u32
        ensures { result ≡ count_by (λ zone. is_open zone.state) (stored self.now) };

    /// The number of the lowest implicitly opened zone.
    fn lowest_implicit(&self) -> Option<usize>
        ensures { result ≡ position is_implicit (stored self.now) };

    /// Puts that many bytes of a zone, from an offset in it on, after what `into` holds: zeros where nothing is
    /// written. No zone changes.
    fn read(
        &mut self,
        index: usize,
        from: usize,
        len: usize,
        into: &mut Vec<u8>,
    ) -> Result<(), Halt>
        requires { index < length (stored self.old) }
        ensures shape { shape self.new ≡ shape self.old }
        ensures stored { stored self.new ≡ stored self.old }
        ensures ok { OnOk result (into.new.items
            ≡ into.old.items ++ with_zeros len (drop from (stored_at (stored self.old) index).bytes)) }
        ensures err { OnErr result (into.new.items ≡ into.old.items) }
        ensures memory { IsErrOf result Halt.Memory → self.new ≡ self.old }
        ensures fails { IsErrOf result Halt.Failed → IsTrue may_stop }
        ensures stops { IsErrOf result Halt.Stopped → IsTrue may_stop }
        ensures durable { durable self.new ≡ durable self.old };

    /// Takes the memory for that many more bytes of a zone, if any with this number.
    fn reserve(&mut self, index: usize, bytes: usize) -> Result<(), AllocError>
        ensures { self.new ≡ self.old };

    /// Writes bytes after a zone's, as a Write or an Append does that passed its checks.
    fn write(&mut self, index: usize, bytes: &[u8]) -> Result<(), Halt>
        requires in_range { index < length (stored self.old) }
        requires checks { None ≡ first_failing (append_bytes_checks (shape self.old)
            (zone_stored (shape self.old).block (stored_at (stored self.old) index)) bytes.now) }
        ensures shape { shape self.new ≡ shape self.old }
        ensures ok { OnOk result (stored self.new ≡ slice_set (stored self.old) index
            (stored_write (shape self.old) (stored_at (stored self.old) index) bytes.now)) }
        ensures err { OnErr result (stored self.new ≡ stored self.old) }
        ensures memory { IsErrOf result Halt.Memory → self.new ≡ self.old }
        ensures unfailing { IsErrOf result Halt.Failed → ⊥ }
        ensures stops { IsErrOf result Halt.Stopped → IsTrue may_stop }
        ensures durable { durable self.new ≡ durable self.old };

    /// Does an action of a Zone Management Send to one zone. Nothing changes where it is refused.
    fn apply(&mut self, index: usize, action: Action) -> Result<(), Halt>
        requires { index < length (stored self.old) }
        ensures shape { shape self.new ≡ shape self.old }
        ensures ok { OnOk result (stored self.new ≡ sent_in (stored self.old) index action) }
        ensures err { OnErr result (stored self.new ≡ stored self.old) }
        ensures only { IfErr result (λ halt. halt ≡ Halt.Stopped) }
        ensures stops { OnErr result (IsTrue may_stop) }
        ensures durable { durable self.new ≡ durable self.old };

    /// Does an action of a Zone Management Send to all zones that it selects, or to none.
    fn apply_to_all(&mut self, action: Action) -> Result<(), Halt>
        ensures shape { shape self.new ≡ shape self.old }
        ensures ok { OnOk result (stored self.new ≡ map (sent_stored action) (stored self.old)) }
        ensures err { OnErr result (stored self.new ≡ stored self.old) }
        ensures only { IfErr result (λ halt. halt ≡ Halt.Stopped) }
        ensures stops { OnErr result (IsTrue may_stop) }
        ensures durable { durable self.new ≡ durable self.old };

    /// Closes an implicitly opened zone, if one is named, as the controller does by itself.
    fn close(&mut self, closing: Option<usize>)
        requires { IfSome closing (λ low. low < length (stored self.old)) }
        ensures shape { shape self.new ≡ shape self.old }
        ensures closed { stored self.new ≡ closed_in (stored self.old) closing }
        ensures durable { durable self.new ≡ durable self.old };

    /// Closes all implicitly opened zones, as the controller does by itself.
    fn close_implicit(&mut self)
        ensures shape { shape self.new ≡ shape self.old }
        ensures closed { stored self.new ≡ map closed_stored (stored self.old) }
        ensures durable { durable self.new ≡ durable self.old };

    /// Makes sure that an open after a loss of power finds the zones as they are. No other call changes what it finds.
    fn flush(&mut self) -> Result<(), Halt>
        ensures shape { shape self.new ≡ shape self.old }
        ensures stored { stored self.new ≡ stored self.old }
        ensures only { IfErr result (λ halt. halt ≡ Halt.Stopped) }
        ensures stops { OnErr result (IsTrue may_stop) }
        ensures just { OnOk result (DurableJust (stored self.old) (durable self.new)) }
        ensures durable { DurableOrNow (stored self.old) (durable self.old) (durable self.new) };
}
