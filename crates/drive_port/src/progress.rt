/// Where a device that stops stands.
#[derive(Clone, Copy, Debug, PartialEq, Eq)]
pub enum Progress {
    /// It has not met the command that stops.
    Going,
    /// It has stopped, and nothing was completed for it.
    Over,
    /// It has stopped, and the torn Append succeeded.
    OverAppended,
    /// It has stopped, and the torn Append was refused.
    OverRefused,
}
