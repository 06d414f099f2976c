//! The program, without any way to a device, or to a drive that stays in its file.
//!
//! ```text
//! $ zonedisk format --image my.drive --block 512 --zones 4 --size 8 --capacity 6 --transfer 4 --active 2 --open 2
//! ok
//! $ printf 'fill 0 2 aa\nread 1 1\n' | zonedisk run --image my.drive --blocks 9
//! ok
//! 1 aa*512
//! ok
//! $ zonedisk report --device /dev/ng0n1
//! fault device
//! ```
//!
//! The lines are `read`, `fill`, `write`, `trim`, `idle`, `grow` and `remount`, as `docs/formats.md` describes them.
//! `zonedisk_program` has all that the program does, and what is promised of it. Here it is run with [`NoDevices`]:
//! each job on a device or on a drive that stays in its file is refused, and standard error says which program has a
//! way.
//!
//! # What is promised
//!
//! Nothing beyond safety.
//!
//! # What is not proved
//!
//! A stored run shows its output, and the exit status 0.
#![tactic(auto)]

use std::io;
use std::process::ExitCode;
use zonedisk_program::{NoDevices, run_program};

fn main(rt: HostRuntime) -> io::Result<ExitCode> {
    run_program(&rt, &NoDevices, &NoDevices)
}
