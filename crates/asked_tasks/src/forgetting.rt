// Whether a disk that is served forgets.

ghost use Rattle.std.specs.Prelude.{◌≡◌, None, Some, codes};
ghost use Rattle.clap.specs.Words.{first_of, found_of, rows_of};
ghost use Rattle.asked_tasks.specs.DriveWords.{HasForget, HasForgetting};
ghost use Rattle.asked_tasks.specs.Values.{Finds};

use crate::tool_words::is_set;
use crate::words::{WordFault, given, number, number_if_given, number_or};
use clap::ArgMatches;
use nbd_jobs::Forget;

/// How many of 100 pending blocks are lost about, if that is not said.
const ODDS: u64 = 50;

/// How a disk forgets. One that is read only does not.
fn forgetting(matches: &ArgMatches<'_>) -> Result<Forget, WordFault>
    ensures { Finds (HasForgetting (rows_of (found_of matches.now))) result }
{
    if is_set(matches, "read-only") {
        return Err(WordFault::Both("forget", "read-only"));
    }
    let seed = number(matches, "forget")?;
    let odds = number_or(matches, "odds", ODDS)?;
    let cut_after = number_if_given(matches, "cut-after")?;
    Ok(Forget {
        seed,
        odds: odds.min(100) as u32,
        cut_after,
    })
}

/// That no disk forgets. Then it is not said how.
fn no_forgetting(matches: &ArgMatches<'_>) -> Result<Option<Forget>, WordFault>
    requires { first_of (codes "forget") (rows_of (found_of matches.now)) ≡ None }
    ensures { Finds (HasForget (rows_of (found_of matches.now))) result }
{
    if given(matches, "odds").is_some() {
        return Err(WordFault::Needs("odds", "forget"));
    }
    if given(matches, "cut-after").is_some() {
        return Err(WordFault::Needs("cut-after", "forget"));
    }
    Ok(None)
}

/// Whether the disk forgets, and how.
pub fn forget_of(matches: &ArgMatches<'_>) -> Result<Option<Forget>, WordFault>
    ensures { Finds (HasForget (rows_of (found_of matches.now))) result }
{
    if given(matches, "forget").is_none() {
        return no_forgetting(matches);
    }
    Ok(Some(forgetting(matches)?))
}
