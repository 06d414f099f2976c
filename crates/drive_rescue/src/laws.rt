//! What holds of all rescues. The function carries its law as its contract, and does nothing.

ghost use Rattle.drive_rescue.specs.Laws.{MountableIsGiven};

/// Of a drive that can be mounted, each block of which can be read, a rescue gives exactly the disk: nothing is lost,
/// and nothing may be older.
pub fn mountable_is_given()
    ensures { MountableIsGiven }
{}
