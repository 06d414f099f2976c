//! Tests of what only a call can show: stores that fail, files that stop and lose power, devices above a way, repairs,
//! counts and places. `fault_tests` has those of drives that lie or fail at a Read, `job_tests` those of the program's
//! jobs. The rows of `worked_runs`, `nbd_rows` and `tool_rows` show the rest.
//!
//! They are in a crate of their own, since a crate with tests is proved twice: each library is proved once, and its
//! tests load it. Here is nothing but tests, and what they need.
//!
//! # What is promised
//!
//! Nothing beyond safety.
#![tactic(auto)]

#[cfg(test)]
mod boots;
#[cfg(test)]
mod bytes_of_files;
#[cfg(test)]
mod called_disks;
#[cfg(test)]
mod copied_files;
#[cfg(test)]
mod counts;
#[cfg(test)]
mod drive_benches;
#[cfg(test)]
mod drive_copying;
#[cfg(test)]
mod drives_in_files;
#[cfg(test)]
mod failing;
#[cfg(test)]
mod first_looks;
#[cfg(test)]
mod halting;
#[cfg(test)]
mod journal;
#[cfg(test)]
mod mended_zones;
#[cfg(test)]
mod places;
#[cfg(test)]
mod reads_ahead;
#[cfg(test)]
mod shown_zones;
#[cfg(test)]
mod small_drives;
#[cfg(test)]
mod unsent;
#[cfg(test)]
mod watched_ways;
