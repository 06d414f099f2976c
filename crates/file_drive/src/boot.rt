ghost use Rattle.std.specs.Prelude.{◌≡◌};

/// Tells one boot of a system from another: the two halves of its identifier. A boot is not known where the second half
/// is 0.
#[derive(Clone, Copy, Debug, PartialEq, Eq)]
pub struct Boot {
    pub first: u64,
    pub second: u64,
}

/// The system that a program runs on.
pub trait System {
    ghost use Rattle.file_drive.specs.declared.boot.Boot.{Boot as Boots};

    /// The boot that the system is in. It stays the same while the program runs.
    ghost boot: { Boots };

    /// The boot that the system is in.
    fn boot(&self) -> Boot
        ensures { result ≡ boot };
}
