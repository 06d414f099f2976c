/// What is known of the file of a drive when its job has ended.
#[derive(Clone, Copy, Debug, PartialEq, Eq)]
pub struct FileEnd {
    /// Whether a change was appended to it, or one was refused.
    pub is_changed: bool,
    /// Whether it takes no more changes: it refused one, and has all before that one; or it cannot be written.
    pub takes_none: bool,
}
