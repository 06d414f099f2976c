// Whether the medium of a disk that is served fails by chance.

ghost use Rattle.std.specs.Prelude.{◌≡◌, None, Some, codes};
ghost use Rattle.clap.specs.Words.{first_of, found_of, rows_of};
ghost use Rattle.asked_tasks.specs.DriveWords.{HasFail, HasFailing};
ghost use Rattle.asked_tasks.specs.Values.{Finds};

use crate::words::{WordFault, given, number};
use clap::ArgMatches;
use nbd_jobs::Fail;

/// By which chance a medium fails.
fn failing(matches: &ArgMatches<'_>) -> Result<Fail, WordFault>
    ensures { Finds (HasFailing (rows_of (found_of matches.now))) result }
{
    if given(matches, "fail-odds").is_none() {
        return Err(WordFault::Needs("fail", "fail-odds"));
    }
    let seed = number(matches, "fail")?;
    let odds = number(matches, "fail-odds")?;
    Ok(Fail {
        seed,
        odds: odds.min(100) as u32,
    })
}

/// That no medium fails. Then it is not said how often.
fn no_failing(matches: &ArgMatches<'_>) -> Result<Option<Fail>, WordFault>
    requires { first_of (codes "fail") (rows_of (found_of matches.now)) ≡ None }
    ensures { Finds (HasFail (rows_of (found_of matches.now))) result }
{
    if given(matches, "fail-odds").is_some() {
        return Err(WordFault::Needs("fail-odds", "fail"));
    }
    Ok(None)
}

/// Whether the medium fails, and by which chance.
pub fn fail_of(matches: &ArgMatches<'_>) -> Result<Option<Fail>, WordFault>
    ensures { Finds (HasFail (rows_of (found_of matches.now))) result }
{
    if given(matches, "fail").is_none() {
        return no_failing(matches);
    }
    Ok(Some(failing(matches)?))
}
