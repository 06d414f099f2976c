ghost use Rattle.std.specs.Prelude.{◌≡◌, ◌<◌, ◌+◌, ◌^◌};
ghost use Rattle.logical_map.specs.Pages.{place_of};
ghost use Rattle.logical_map.specs.Places.{place_address};

/// Where the newest record of a logical block is on the drive.
#[derive(Clone, Copy, Debug, PartialEq, Eq)]
pub enum Place {
    /// No batch names the block.
    None,
    /// The block was trimmed, by the batch whose header is at this address.
    Trimmed(u64),
    /// The block's data is at this address.
    At(u64),
}

impl Place {
    /// The word that a page holds: 0 for no place, 2a + 1 for data at the address a, 2a + 2 for a trim by
    /// the batch at a.
    pub(crate) fn word(self) -> u64
        requires { place_address self + 1 < 2 ^ 63 }
        ensures { place_of result ≡ self }
    {
        match self {
            Place::None => 0,
            Place::At(address) => 2 * address + 1,
            Place::Trimmed(address) => 2 * address + 2,
        }
    }

    /// The place that a word stands for.
    pub(crate) fn from_word(word: u64) -> Place
        ensures { result ≡ place_of word }
    {
        if word == 0 {
            return Place::None;
        }
        if word % 2 == 1 {
            return Place::At(word / 2);
        }
        Place::Trimmed(word / 2 - 1)
    }
}
