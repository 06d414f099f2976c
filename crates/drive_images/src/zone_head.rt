ghost use Rattle.std.specs.Prelude.{◌≡◌, Err, IfErr, IfOk, Ok};
ghost use Rattle.zone_drive.specs.Stored.{may_hold};
ghost use Rattle.drive_images.specs.Image.{zone_head_bytes};
ghost use Rattle.drive_images.specs.Reading.{told_head};

use crate::fault::ImageFault;
use crate::head::begins_with;
use byteorder::{ByteOrder, LittleEndian};
use zone_states::{Geometry, ZoneState};

/// What is before the written blocks of a zone.
#[derive(Clone, Copy)]
pub struct ZoneHead {
    pub state: ZoneState,
    /// How many blocks are written.
    pub written: u32,
}

impl ZoneHead {
    #[tactic(auto, unfolding(crate::specs::Image::zone_head_bytes))]
    pub fn encode(self) -> [u8; 8]
        ensures { result ≡ zone_head_bytes self.state self.written }
    {
        let mut head = [0; 8];
        head[0] = self.state.code();
        LittleEndian::write_u32(&mut head[4..8], self.written);
        head
    }

    /// What these bytes tell.
    #[tactic(auto, unfolding(crate::specs::Reading::told_head))]
    pub fn decode(bytes: &[u8; 8]) -> Result<ZoneHead, ImageFault>
        ensures ok { IfOk result (λ head. bytes.now ≡ zone_head_bytes head.state head.written) }
        ensures told { IfOk result (λ head. told_head bytes.now ≡ Ok head) }
        ensures err { IfErr result (λ fault. told_head bytes.now ≡ Err fault) }
    {
        let Some(state) = ZoneState::from_code(bytes[0]) else {
            return Err(ImageFault::State);
        };
        let head = ZoneHead {
            state,
            written: LittleEndian::read_u32(&bytes[4..8]),
        };
        if !begins_with(bytes, &head.encode()) {
            return Err(ImageFault::RestNotZero);
        }
        Ok(head)
    }

    /// Whether a zone of a drive of this geometry can have that many written blocks in this state.
    pub fn may_hold(self, geometry: &Geometry) -> bool
        ensures { result ≡ may_hold self.state geometry.now.capacity self.written }
    {
        match self.state {
            ZoneState::Empty => self.written == 0,
            ZoneState::ImplicitlyOpened | ZoneState::ExplicitlyOpened | ZoneState::Closed => {
                self.written < geometry.capacity
            }
            ZoneState::Full | ZoneState::ReadOnly | ZoneState::Offline => {
                self.written <= geometry.capacity
            }
        }
    }
}
