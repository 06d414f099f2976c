/// Whether a disk serves calls.
#[derive(Clone, Copy, Debug, PartialEq, Eq)]
pub enum DiskStatus {
    /// The disk serves calls.
    Serving,
    /// The disk has answered `Stopped`, and answers it to every call that needs the drive.
    Stopped,
    /// A remount was refused. Until one is done the disk answers `Unmounted` to every call that needs the drive.
    Unmounted,
}
