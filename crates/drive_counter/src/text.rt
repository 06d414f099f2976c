ghost use Rattle.std.specs.Prelude.{◌≡◌, ◌++◌, IfOk, OnOk, string_bytes};
ghost use Rattle.drive_counter.specs.StatisticsText.{amplification_line, block_lines, command_lines};
ghost use Rattle.drive_counter.specs.StatisticsText.{left_out_lines, line, live_lines, statistics_lines};

use crate::counts::Counts;
use crate::spread::Spread;
use std::alloc::{AllocError, Global};

/// Adds a line with a name and a number.
#[tactic(auto, unfolding(crate::specs::StatisticsText::line))]
fn write_line(text: &mut String, name: &str, number: u64) -> Result<(), AllocError>
    ensures { OnOk result (string_bytes text.new ≡ string_bytes text.old ++ line name.now number) }
{
    writeln!(text, "{name} {number}")
}

/// Adds the lines of the blocks and the cleans.
#[tactic(auto, unfolding(crate::specs::StatisticsText::block_lines))]
fn write_blocks(text: &mut String, counts: &Counts) -> Result<(), AllocError>
    ensures { OnOk result
        (string_bytes text.new ≡ string_bytes text.old ++ block_lines counts.now) }
{
    write_line(text, "host blocks", counts.host_blocks)?;
    write_line(text, "all blocks", counts.blocks)?;
    write_line(text, "moved blocks", counts.moved_blocks)?;
    write_line(text, "cleans", counts.resets)?;
    Ok(())
}

/// Adds the line of how many blocks were appended for each that the host wrote, in hundredths, rounded down.
#[tactic(auto, unfolding(crate::specs::StatisticsText::amplification_line))]
fn write_amplification(text: &mut String, blocks: u64, host_blocks: u64) -> Result<(), AllocError>
    ensures { OnOk result
        (string_bytes text.new ≡ string_bytes text.old ++ amplification_line blocks host_blocks) }
{
    if host_blocks == 0 {
        return writeln!(text, "write amplification -");
    }
    let whole = blocks / host_blocks;
    let hundredths = (blocks % host_blocks) as u128 * 100 / host_blocks as u128;
    let tens = hundredths / 10;
    let ones = hundredths % 10;
    writeln!(text, "write amplification {whole}.{tens}{ones}")
}

/// Adds the lines of the commands.
#[tactic(auto, unfolding(crate::specs::StatisticsText::command_lines))]
fn write_commands(text: &mut String, counts: &Counts) -> Result<(), AllocError>
    ensures { OnOk result
        (string_bytes text.new ≡ string_bytes text.old ++ command_lines counts.now) }
{
    write_line(text, "appends", counts.appends)?;
    write_line(text, "reads", counts.reads)?;
    write_line(text, "closes", counts.closes)?;
    write_line(text, "finishes", counts.finishes)?;
    write_line(text, "resets", counts.resets)?;
    write_line(text, "reports", counts.reports)?;
    write_line(text, "other commands", counts.others)?;
    Ok(())
}

/// Adds the lines of the live blocks.
#[tactic(auto, unfolding(crate::specs::StatisticsText::live_lines))]
fn write_live(text: &mut String, live: &Spread) -> Result<(), AllocError>
    ensures { OnOk result (string_bytes text.new ≡ string_bytes text.old ++ live_lines live.now) }
{
    write_line(text, "least live", live.least as u64)?;
    write_line(text, "median live", live.median as u64)?;
    write_line(text, "most live", live.most as u64)
}

/// Adds the line of the zones that no clean takes, if there are any.
#[tactic(auto, unfolding(crate::specs::StatisticsText::left_out_lines))]
fn write_left_out(text: &mut String, zones: usize) -> Result<(), AllocError>
    ensures { OnOk result (string_bytes text.new ≡ string_bytes text.old ++ left_out_lines zones) }
{
    if zones == 0 {
        return Ok(());
    }
    write_line(text, "zones left out", zones as u64)
}

/// What was counted of a device, how many blocks are live in its zones, and how many zones no clean takes, in lines
/// that `docs/formats.md` describes.
pub fn statistics_text(
    alloc: Global,
    counts: &Counts,
    live: &Spread,
    left_out: usize,
) -> Result<String, AllocError>
    ensures { IfOk result (λ text. string_bytes text ≡ statistics_lines counts.now live.now left_out) }
{
    let mut text = String::new(alloc);
    write_blocks(&mut text, counts)?;
    write_amplification(&mut text, counts.blocks, counts.host_blocks)?;
    write_commands(&mut text, counts)?;
    write_live(&mut text, live)?;
    write_left_out(&mut text, left_out)?;
    Ok(text)
}
