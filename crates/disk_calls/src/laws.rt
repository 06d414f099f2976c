//! What holds of every disk. Each function carries a law as its contract, and changes nothing.

ghost use Rattle.std.specs.Prelude.{◌≡◌, ◌<◌, [], false, ℕ, length, slice_index_or};
ghost use Rattle.batch_log.specs.Log.{zero_block};
ghost use Rattle.zone_translator.specs.View.{DiskView, disk_array, disk_places};
ghost use Rattle.disk_calls.specs.Serves.{has_data};

/// A block without data is zeros.
pub fn holes_are_zeros()
    ensures { (disk : DiskView) (block : ℕ) → block < length (disk_array disk) →
        has_data (disk_places disk) block ≡ false →
        slice_index_or (disk_array disk) block [] ≡ zero_block disk.drive.geometry.block }
{}
