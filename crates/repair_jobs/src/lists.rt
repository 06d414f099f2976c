// What is told of zones that end in something foreign, and of those that were repaired.

use std::alloc::{AllocError, Global};
use tail_repair::{ForeignTail, MovedZone};
use tool_jobs::Form;

/// A number of blocks, with their word.
fn blocks_text(alloc: Global, blocks: u32) -> Result<String, AllocError> {
    match blocks {
        1 => String::from_str(alloc, "1 block of batches"),
        blocks => format!(in alloc; "{blocks} blocks of batches"),
    }
}

/// What a zone holds that ends in something foreign.
fn tail_text(alloc: Global, tail: ForeignTail) -> Result<String, AllocError> {
    let zone = tail.zone;
    if tail.blocks == 0 {
        return format!(in alloc; "zone {zone}: no batch, and something foreign");
    }
    let blocks = blocks_text(alloc, tail.blocks)?;
    format!(in alloc; "zone {zone}: {blocks}, then something foreign")
}

/// Zones that end in something foreign as lines, one for each.
#[derive(Clone, Copy, Debug)]
pub struct TailLines;

impl Form<Vec<ForeignTail>> for TailLines {
    ghost use Rattle.std.specs.Prelude.{⊤};

    ghost shows = { λ _ _ _. ⊤ };

    fn text(&self, alloc: Global, tails: &Vec<ForeignTail>) -> Result<String, AllocError> {
        if tails.is_empty() {
            return String::from_str(alloc, "nothing to repair\n");
        }
        let mut text = String::new(alloc);
        for tail in tails.as_slice() {
            let line = tail_text(alloc, *tail)?;
            writeln!(text, "{line}")?;
        }
        Ok(text)
    }
}

/// What became of a zone that was repaired: one line for people, without a line feed.
pub fn moved_text(alloc: Global, moved: MovedZone) -> Result<String, AllocError> {
    let zone = moved.zone;
    let Some(into) = moved.into else {
        return match moved.blocks {
            0 => format!(in alloc; "zone {zone}: there was no batch, and the zone was reset"),
            _ => format!(in alloc;
                "zone {zone}: only zeros were foreign, and the zone was finished"
            ),
        };
    };
    let blocks = blocks_text(alloc, moved.blocks)?;
    let were = if moved.blocks == 1 { "was" } else { "were" };
    format!(in alloc; "zone {zone}: {blocks} {were} moved to zone {into}, and the zone was reset")
}
