ghost use Rattle.std.specs.Prelude.{◌≡◌, ◌*◌, ◌/◌, ◌<◌, IfErr, OnOk, Some};
ghost use Rattle.zone_states.specs.Geometry.{IsInRange, geometry_checks};
ghost use Rattle.zone_states.specs.Checks.{first_failing};

use thiserror::Error;

/// The shape of a drive whose zones are all alike. Zone `z` has `size` addresses, from `z * size` on,
/// and the blocks at its first `capacity` addresses can be written.
#[derive(Clone, Copy, Debug, PartialEq, Eq)]
pub struct Geometry {
    /// Bytes of a block: 512 or 4,096.
    pub block: u32,
    /// How many zones there are: 3 to 65,536.
    pub zones: u32,
    /// Blocks from the start of a zone to that of the next: 1 to 2^20.
    pub size: u32,
    /// Blocks of a zone that can be written: 4 to `size`.
    pub capacity: u32,
    /// Blocks that one command moves at most: 2 to 256.
    pub transfer: u32,
    /// Zones that may be active at a time: 2 to 65,536.
    pub active: u32,
    /// Zones that may be open at a time: 1 to `active`.
    pub open: u32,
}

/// The part of a geometry that is out of range.
#[derive(Clone, Copy, Debug, PartialEq, Eq, Error)]
pub enum GeometryFault {
    #[error("the block size is neither 512 nor 4096 bytes")]
    Block,
    #[error("the number of zones is not 3 to 65536")]
    Zones,
    #[error("the zone size is not 1 to 1048576 blocks")]
    Size,
    #[error("the zone capacity is not 4 blocks to the zone size")]
    Capacity,
    #[error("the largest transfer is not 2 to 256 blocks")]
    Transfer,
    #[error("the limit on active zones is not 2 to 65536")]
    Active,
    #[error("the limit on open zones is not 1 to the limit on active zones")]
    Open,
}

impl Geometry {
    /// The lowest address of the zone with this number.
    pub fn start_of(self, zone: u32) -> u64
        ensures { result ≡ zone * self.size }
    {
        u64::from(zone) * u64::from(self.size)
    }

    /// The number of the zone that holds an address of the drive.
    pub fn zone_of(self, address: u64) -> u32
        requires { address < self.zones * self.size }
        ensures value { result ≡ address / self.size }
        ensures in_range { result < self.zones }
    {
        (address / u64::from(self.size)) as u32
    }

    /// The first address after the drive's.
    pub fn end(self) -> u64
        ensures { result ≡ self.zones * self.size }
    {
        u64::from(self.zones) * u64::from(self.size)
    }

    /// Refuses a geometry by the first part that is out of range, in the order of `GeometryFault`.
    pub fn check(&self) -> Result<(), GeometryFault>
        ensures ok { OnOk result (IsInRange self.now) }
        ensures err { IfErr result
            (λ fault. first_failing (geometry_checks self.now) ≡ Some fault) }
    {
        if self.block != 512 && self.block != 4096 {
            return Err(GeometryFault::Block);
        }
        if self.zones < 3 || self.zones > 65536 {
            return Err(GeometryFault::Zones);
        }
        if self.size == 0 || self.size > 1 << 20 {
            return Err(GeometryFault::Size);
        }
        if self.capacity < 4 || self.capacity > self.size {
            return Err(GeometryFault::Capacity);
        }
        if self.transfer < 2 || self.transfer > 256 {
            return Err(GeometryFault::Transfer);
        }
        if self.active < 2 || self.active > 65536 {
            return Err(GeometryFault::Active);
        }
        if self.open < 1 || self.open > self.active {
            return Err(GeometryFault::Open);
        }
        Ok(())
    }
}
