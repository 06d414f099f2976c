ghost use Rattle.std.specs.Prelude.{◌≡◌};
ghost use Rattle.rescue_jobs.specs.Jobs.{given_blocks};

/// A drive whose disk is rescued, however broken the drive is.
#[derive(Debug, PartialEq, Eq, Drop)]
pub struct RescueJob {
    /// The path of the file with the drive or its image, or of its device. It is only read.
    pub image: String,
    /// How many logical blocks the disk has if no header that is found says how many.
    pub blocks: Option<u64>,
    /// The path of a new drive to which the blocks are written. Without it they go to standard output.
    pub to: Option<String>,
    /// The path of a new file for the lists of lost and older blocks, as JSON.
    pub json: Option<String>,
    /// Whether it is shown how far it is.
    pub progress: bool,
}

/// How many blocks a disk has if no header says how many: none if no number was given. A number that no disk has stays
/// one.
pub fn given_blocks(blocks: Option<u64>) -> u32
    ensures { result ≡ given_blocks blocks }
{
    match blocks {
        Some(blocks) => blocks.min(u64::from(u32::MAX)) as u32,
        None => 0,
    }
}
