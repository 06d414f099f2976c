//! What the reserve gives a cleaner. The function carries its laws as its contract, and does nothing.

ghost use Rattle.zone_choice.specs.Victim.{HasSealed, LeastCanMove};

/// While one zone is empty, all others are sealed and all data could be read, there is a zone to clean: the sealed zone
/// with the fewest live records has so few that they can be moved to the empty one, with two of its blocks left.
pub fn a_zone_can_be_cleaned()
    ensures sealed { HasSealed }
    ensures least { LeastCanMove }
{}
