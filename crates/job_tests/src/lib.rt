//! Tests of the program's jobs, of what only a call can show: which words of the command line are refused, what command
//! lines write and tell, and the files that they leave; readers and writers that fail below them.
//!
//! `call_tests` and `fault_tests` have the crates below the jobs, and can be proved before them. The rows of
//! `worked_runs`, `nbd_rows` and `tool_rows` show the rest.
//!
//! # What is promised
//!
//! Nothing beyond safety.
#![tactic(auto)]

#[cfg(test)]
mod command_lines;
#[cfg(test)]
mod fakes;
#[cfg(test)]
mod file_jobs;
#[cfg(test)]
mod images;
#[cfg(test)]
mod jobs;
#[cfg(test)]
mod repairs;
#[cfg(test)]
mod rescues;
#[cfg(test)]
mod runs;
#[cfg(test)]
mod texts;
#[cfg(test)]
mod tools;
#[cfg(test)]
mod words;
