use nvme_wire::ZoneState;

/// What a report says of a zone.
#[derive(Clone, Copy, Debug, PartialEq, Eq)]
pub struct ZoneStatus {
    /// The state of the zone.
    pub state: ZoneState,
    /// How many blocks are written.
    pub written: u32,
}
