//! What a mount reads of a drive before it changes anything.

use crate::bench::{Setting, bench_of};
use crate::fault::ScriptFault;
use crate::show::show_sent;
use crate::world::World;
use remount::{MountFault, Survey, survey_drive};
use std::alloc::{AllocError, Global};

fn show_answer(answer: Result<Survey, MountFault>, out: &mut String) -> Result<(), AllocError> {
    match answer {
        Ok(survey) => writeln!(out, "    {} blocks", survey.size),
        Err(fault) => writeln!(out, "    refused: {fault}"),
    }
}

fn show_surveyed(
    alloc: Global,
    entries: &[[u8; 64]],
    answer: Result<Survey, MountFault>,
    out: &mut String,
) -> Result<(), ScriptFault> {
    show_sent(alloc, entries, false, out)?;
    Ok(show_answer(answer, out)?)
}

/// Shows the commands of a survey, and the size of the disk or why the drive is refused.
pub fn show_survey(
    alloc: Global,
    world: &World,
    n: u64,
    out: &mut String,
) -> Result<(), ScriptFault> {
    let mut bench = bench_of(alloc, world, Setting::PLAIN)?;
    let answer = survey_drive(alloc, &mut bench, n);
    show_surveyed(alloc, bench.entries(), answer, out)
}
