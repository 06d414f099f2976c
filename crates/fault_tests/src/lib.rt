//! Tests of disks above a drive that lies or fails. At one Read it returns other bytes than it holds, or it fails at
//! each Read of one block. Calls by chance, mounts and traces are run again for each such lie, and for each such block.
//!
//! They are apart from `call_tests`, since the tests of a crate are proved in one thread. Here are only tests, and what
//! they need.
//!
//! # What is promised
//!
//! Nothing beyond safety.
#![tactic(auto)]

#[cfg(test)]
mod checked_runs;
#[cfg(test)]
mod kept_reads;
#[cfg(test)]
mod lied_rows;
#[cfg(test)]
mod lies;
#[cfg(test)]
mod lying_disks;
#[cfg(test)]
mod other_zones;
#[cfg(test)]
mod random_calls;
#[cfg(test)]
mod told_lies;
#[cfg(test)]
mod unreadable_blocks;
