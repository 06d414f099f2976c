/// Blocks of the drive in a file that are written out. `image` is the path of the file, here and below.
#[derive(Debug, PartialEq, Eq, Drop)]
pub struct ExportJob {
    pub image: String,
    /// The first block.
    pub first: u64,
    /// How many blocks; if it is not given, all from the first one on.
    pub count: Option<u64>,
    /// Whether it is shown how far it is.
    pub progress: bool,
}

/// Blocks that are read, and written to the drive in a file.
#[derive(Debug, PartialEq, Eq, Drop)]
pub struct ImportJob {
    pub image: String,
    /// How many logical blocks the disk has if its drive does not say how many. A drive that was written says it.
    pub blocks: Option<u64>,
    /// The block that the first one is written to.
    pub first: u64,
    /// Whether blocks of zeros are trimmed.
    pub sparse: bool,
    /// Whether it is shown how far it is.
    pub progress: bool,
}

/// A copy of blocks that is asked for.
#[derive(Debug, PartialEq, Eq, Drop)]
pub enum CopyJob {
    /// Out of a drive.
    Export(ExportJob),
    /// Into a drive.
    Import(ImportJob),
}

impl CopyJob {
    /// The path of the file.
    pub fn image(&self) -> &str {
        match self {
            CopyJob::Export(job) => job.image.as_str(),
            CopyJob::Import(job) => job.image.as_str(),
        }
    }
}
