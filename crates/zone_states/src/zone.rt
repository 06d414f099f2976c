ghost use Rattle.std.specs.Prelude.{◌≡◌, ◌/◌, [], length, Ok, Err, Some, None, IfErr, OnOk};
ghost use Rattle.std.specs.Prelude.{OnErr, IfSome, OnSome, is_some, if◌then◌else◌};
ghost use Rattle.zone_states.specs.Checks.{first_failing};
ghost use Rattle.zone_states.specs.Sending.{zone_after};
ghost use Rattle.zone_states.specs.Stored.{AreWholeBlocks, WrittenAfter, apply_result, refusal_of};
ghost use Rattle.zone_states.specs.Stored.{stored_after, stored_write, zone_stored};
ghost use Rattle.zone_states.specs.Transition.{state_after};
ghost use Rattle.zone_states.specs.Writing.{append_bytes_checks, data_checks};
ghost use Rattle.zone_states.specs.Writing.{zone_append_checks, zone_write_checks, write_bytes_checks};
ghost use Rattle.zone_states.specs.Zone.{opened_by_write};
ghost use Rattle.zone_states.specs.declared.zone.ZoneFault.TheVariants.{OutOfMemory};

use crate::geometry::Geometry;
use crate::pieces::extend_in_pieces;
use crate::refusal::{append_refusal, write_refusal};
use crate::transition::next_state;
use nvme_wire::{Action, Status, ZoneState};
use std::alloc::{AllocError, Global};
use std::marker::Model;
use thiserror::Error;

/// Why a zone was not changed.
#[derive(Clone, Copy, Debug, PartialEq, Eq, Error)]
pub enum ZoneFault {
    /// The status of the first check that failed.
    #[error("{0}")]
    Refused(Status),
    /// An allocation failed.
    #[error("out of memory")]
    OutOfMemory,
}

impl From<AllocError> for ZoneFault {
    ghost from_gives = { λ _ fault. fault ≡ OutOfMemory };

    fn from(_error: AllocError) -> ZoneFault {
        ZoneFault::OutOfMemory
    }
}

/// One zone: its state and its written blocks. The write pointer is after the last of them.
#[derive(Drop)]
pub struct Zone {
    state: ZoneState,
    written: Vec<u8>,
}

impl Model for Zone {
    ghost use Rattle.zone_states.specs.Stored.{StoredZone};

    ghost Value = { StoredZone };

    ghost view = { λ z. record { state = z.state; bytes = z.written.items } };
}

/// How many whole blocks there are in that many bytes.
fn blocks_in(geometry: &Geometry, bytes: usize) -> usize
    ensures { result ≡ bytes / geometry.now.block }
{
    bytes.checked_div(geometry.block as usize).unwrap_or(0)
}

/// How many blocks these bytes are, if they are whole blocks and no more than one transfer moves.
fn block_count(geometry: &Geometry, bytes: &[u8]) -> Option<usize>
    ensures some { IfSome result (λ blocks. blocks ≡ length bytes.now / geometry.now.block) }
    ensures whole { OnSome result (AreWholeBlocks geometry.now.block bytes.now) }
    ensures checks { (if is_some result then None else Some Status.InvalidField) ≡ first_failing
        (data_checks geometry.now (length bytes.now / geometry.now.block) bytes.now) }
{
    let blocks = blocks_in(geometry, bytes.len());
    if blocks > geometry.transfer as usize {
        return None;
    }
    if bytes.len() != blocks * geometry.block as usize {
        return None;
    }
    Some(blocks)
}

/// The state after a Write or an Append that does not reach the capacity, from a state that takes it.
pub fn opened_by_write(state: ZoneState) -> ZoneState
    ensures { result ≡ opened_by_write state }
{
    match state {
        ZoneState::Empty | ZoneState::Closed => ZoneState::ImplicitlyOpened,
        state => state,
    }
}

impl Zone {
    /// An Empty zone.
    pub fn new(alloc: Global) -> Zone
        ensures { result ≡ record { state = ZoneState.Empty; bytes = [] } }
    {
        Zone {
            state: ZoneState::Empty,
            written: Vec::new(alloc),
        }
    }

    /// A zone in this state with these written blocks. Neither is checked.
    pub fn from_parts(state: ZoneState, written: Vec<u8>) -> Zone
        ensures { result ≡ record { state = state; bytes = written.items } }
    {
        Zone { state, written }
    }

    /// The state of the zone.
    pub fn state(&self) -> ZoneState
        ensures { result ≡ self.now.state }
    {
        self.state
    }

    /// The bytes of the written blocks, in order.
    pub fn written(&self) -> &[u8]
        ensures { result.now ≡ self.now.bytes }
    {
        self.written.as_slice()
    }

    /// How many whole blocks are written.
    pub fn blocks(&self, geometry: &Geometry) -> usize
        ensures value { result ≡ length (zone_stored geometry.now.block self.now).blocks }
        ensures by_bytes { result ≡ length self.now.bytes / geometry.now.block }
    {
        blocks_in(geometry, self.written.len())
    }

    /// The status of the first check on this zone that an Append of that many blocks fails. The limits
    /// on active and open zones are not looked at.
    pub fn append_refusal(&self, geometry: &Geometry, blocks: u64) -> Option<Status>
        ensures { result ≡ first_failing
            (zone_append_checks geometry.now (zone_stored geometry.now.block self.now) blocks) }
    {
        append_refusal(geometry, self.state, self.blocks(geometry) as u64, blocks)
    }

    /// The status of the first check on this zone that a Write of that many blocks fails, from an
    /// offset in blocks on. The limits on active and open zones are not looked at.
    pub fn write_refusal(&self, geometry: &Geometry, offset: u64, blocks: u64) -> Option<Status>
        ensures { result ≡ first_failing
            (zone_write_checks geometry.now
            (zone_stored geometry.now.block self.now) offset blocks) }
    {
        write_refusal(
            geometry,
            self.state,
            self.blocks(geometry) as u64,
            offset,
            blocks,
        )
    }

    /// Takes the memory for that many more bytes, so that they can be added without another allocation.
    pub fn reserve(&mut self, bytes: usize) -> Result<(), AllocError>
        ensures { self.new ≡ self.old }
    {
        self.written.reserve(bytes)
    }

    /// Adds these bytes after the others, as a Write or an Append does that passed its checks: nothing is
    /// checked here. The zone's bytes grow once.
    pub fn extend(&mut self, geometry: &Geometry, bytes: &[u8]) -> Result<(), AllocError>
        ensures ok { OnOk result (self.new ≡ stored_write geometry.now self.old bytes.now) }
        ensures in_blocks { AreWholeBlocks geometry.now.block self.old.bytes
            → AreWholeBlocks geometry.now.block bytes.now
            → OnOk result (WrittenAfter geometry.now self.old bytes.now self.new) }
        ensures kept { OnErr result (self.new ≡ self.old) }
    {
        extend_in_pieces(&mut self.written, bytes)?;
        if self.blocks(geometry) == geometry.capacity as usize {
            self.state = ZoneState::Full;
        } else {
            self.state = opened_by_write(self.state);
        }
        Ok(())
    }

    /// Appends these bytes: whole blocks, no more than one transfer moves. The zone's bytes grow once.
    pub fn append(&mut self, geometry: &Geometry, bytes: &[u8]) -> Result<(), ZoneFault>
        ensures checks { refusal_of result ≡ first_failing
            (append_bytes_checks geometry.now (zone_stored geometry.now.block self.old) bytes.now) }
        ensures ok { OnOk result (self.new ≡ stored_write geometry.now self.old bytes.now) }
        ensures in_blocks { AreWholeBlocks geometry.now.block self.old.bytes
            → OnOk result (WrittenAfter geometry.now self.old bytes.now self.new) }
        ensures err { OnErr result (self.new ≡ self.old) }
    {
        let Some(blocks) = block_count(geometry, bytes) else {
            return Err(ZoneFault::Refused(Status::InvalidField));
        };
        if let Some(status) = self.append_refusal(geometry, blocks as u64) {
            return Err(ZoneFault::Refused(status));
        }
        self.extend(geometry, bytes)?;
        Ok(())
    }

    /// Writes these bytes from an offset in blocks on, which has to be that of the write pointer: whole
    /// blocks, no more than one transfer moves. The zone's bytes grow once.
    pub fn write_at(
        &mut self,
        geometry: &Geometry,
        offset: u64,
        bytes: &[u8],
    ) -> Result<(), ZoneFault>
        ensures checks { refusal_of result ≡ first_failing
            (write_bytes_checks geometry.now
            (zone_stored geometry.now.block self.old) offset bytes.now) }
        ensures ok { OnOk result (self.new ≡ stored_write geometry.now self.old bytes.now) }
        ensures in_blocks { AreWholeBlocks geometry.now.block self.old.bytes
            → OnOk result (WrittenAfter geometry.now self.old bytes.now self.new) }
        ensures err { OnErr result (self.new ≡ self.old) }
    {
        let Some(blocks) = block_count(geometry, bytes) else {
            return Err(ZoneFault::Refused(Status::InvalidField));
        };
        if let Some(status) = self.write_refusal(geometry, offset, blocks as u64) {
            return Err(ZoneFault::Refused(status));
        }
        self.extend(geometry, bytes)?;
        Ok(())
    }

    /// Does the action of a Zone Management Send to the zone (Zoned Namespace Command Set 1.1, section
    /// 3.4.3). It allocates nothing. The limits on active and open zones are not looked at.
    pub fn apply(&mut self, action: Action) -> Result<(), ZoneFault>
        ensures checks { result ≡ apply_result (state_after self.old.state action) }
        ensures stored { self.new ≡ stored_after action self.old
            (state_after self.old.state action) }
        ensures in_blocks { (block : _) → zone_stored block self.new
            ≡ zone_after action (zone_stored block self.old) (state_after self.old.state action) }
    {
        match next_state(self.state, action) {
            Ok(state) => self.state = state,
            Err(status) => return Err(ZoneFault::Refused(status)),
        }
        if action == Action::Reset {
            self.written.clear();
        }
        Ok(())
    }
}
