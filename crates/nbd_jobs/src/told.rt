// What is told of a served disk over any device.

ghost use Rattle.std.specs.Prelude.{◌≡◌, false, is_some};

use crate::job::NbdJob;
use drive_counter::Counter;
use drive_port::Device;
use job_drives::statistics_of;
use std::alloc::Global;
use zone_translator::AnyDisk;

/// What was written and moved, if the job asks for it and there is memory for the text.
pub(crate) fn shown_statistics<D: Device + Drop>(
    alloc: Global,
    job: &NbdJob,
    disk: &AnyDisk<Counter<D>>,
) -> Option<String>
    ensures { job.now.statistics ≡ false → is_some result ≡ false }
{
    if !job.statistics {
        return None;
    }
    statistics_of(alloc, disk).ok()
}
