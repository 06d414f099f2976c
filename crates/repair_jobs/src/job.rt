/// A drive of which zones end in something foreign.
#[derive(Debug, PartialEq, Eq, Drop)]
pub struct RepairJob {
    /// The path of the file with the drive or its image, or of its device.
    pub image: String,
    /// Whether the drive is repaired. Else it is only read, and told which zones a repair is for.
    pub force: bool,
}
