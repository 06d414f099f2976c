// The jobs of the tools.

ghost use Rattle.std.specs.Prelude.{◌≡◌, ◌≢◌, ◌<◌, ◌++◌, ◌∷◌, [], ℕ, List, IfNone, IfSome, MatchOption, Some};
ghost use Rattle.std.specs.Prelude.{None, codes};
ghost use Rattle.clap.specs.Words.{first_of, found_of, rows_of};
ghost use Rattle.asked_tasks.specs.Values.{Finds, is_missing, is_set, lacks_all};
ghost use Rattle.asked_tasks.specs.ToolWords.{AsksForCheck, AsksForFormat, AsksForInfo, AsksForPlan, HasAim};
ghost use Rattle.asked_tasks.specs.ToolWords.{HasPlanForm, HasPlannedDrive, HasStateIf};
ghost use Rattle.asked_tasks.specs.ToolWords.{HasZonesForm, SaysBytes, SaysBytesIn, part_names, plan_names};
ghost use Rattle.asked_tasks.specs.Words.{AsksForTool};

use crate::place::{Place, drive_path};
use crate::words::{WordFault, geometry, given, image, number_if_given, number_in, number_or};
use clap::ArgMatches;
use nvme_wire::ZoneState;
use std::alloc::Global;
use tool_forms::state_named;
use tool_jobs::{
    CheckForm, CheckJob, InfoForm, InfoJob, PlanForm, PlanJob, PlannedDrive, ToolJob, ZonesForm,
};
use write_plan::Aim;

/// Whether an option without a value was given.
pub fn is_set(matches: &ArgMatches<'_>, name: &str) -> bool
    ensures { result ≡ is_set (rows_of (found_of matches.now)) name.now }
{
    match given(matches, name) {
        Some(text) => text == "true",
        None => false,
    }
}

/// Whether an option was not given.
pub fn is_missing(matches: &ArgMatches<'_>, name: &str) -> bool
    ensures { result ≡ is_missing (rows_of (found_of matches.now)) name.now }
{
    given(matches, name).is_none()
}

/// Whether no part of a geometry was given.
pub fn lacks_parts(matches: &ArgMatches<'_>) -> bool
    ensures { result ≡ lacks_all (rows_of (found_of matches.now)) part_names }
{
    is_missing(matches, "block")
        && is_missing(matches, "zones")
        && is_missing(matches, "size")
        && is_missing(matches, "capacity")
        && is_missing(matches, "transfer")
        && is_missing(matches, "active")
        && is_missing(matches, "open")
}

/// Whether no option of a plan was given that has a value, but for `--bytes`.
fn lacks_plan(matches: &ArgMatches<'_>) -> bool
    ensures { result ≡ lacks_all (rows_of (found_of matches.now)) plan_names }
{
    is_missing(matches, "image")
        && is_missing(matches, "blocks")
        && is_missing(matches, "share")
        && is_missing(matches, "amplification")
        && lacks_parts(matches)
}

/// The job of `check`.
pub fn check_job(
    alloc: Global,
    place: Place,
    matches: &ArgMatches<'_>,
) -> Result<CheckJob, WordFault>
    ensures { Finds (AsksForCheck place (rows_of (found_of matches.now))) result }
{
    let blocks = number_or(matches, "blocks", 1)?;
    let form = if is_set(matches, "json") {
        CheckForm::Json
    } else {
        CheckForm::Lines
    };
    Ok(CheckJob {
        image: drive_path(alloc, place, matches)?,
        blocks,
        form,
    })
}

/// The job of `info`.
pub fn info_job(alloc: Global, place: Place, matches: &ArgMatches<'_>) -> Result<InfoJob, WordFault>
    ensures { Finds (AsksForInfo place (rows_of (found_of matches.now))) result }
{
    let form = if is_set(matches, "json") {
        InfoForm::Json
    } else {
        InfoForm::Lines
    };
    Ok(InfoJob {
        image: drive_path(alloc, place, matches)?,
        form,
    })
}

/// The state that zones are shown in, if one was given.
pub fn state_if_given(matches: &ArgMatches<'_>) -> Result<Option<ZoneState>, WordFault>
    ensures { Finds (HasStateIf (rows_of (found_of matches.now))) result }
{
    let Some(name) = given(matches, "state") else {
        return Ok(None);
    };
    match state_named(name) {
        Some(state) => Ok(Some(state)),
        None => Err(WordFault::State),
    }
}

/// Which two options of a report are not taken together, of these and, where they are, of `--state`.
fn two_forms(brief: bool, json: bool, svg: bool) -> WordFault {
    match (brief, json, svg) {
        (true, true, _) => WordFault::Both("brief", "json"),
        (true, false, true) => WordFault::Both("brief", "svg"),
        (true, false, false) => WordFault::Both("brief", "state"),
        (false, true, _) => WordFault::Both("json", "svg"),
        (false, false, _) => WordFault::Both("svg", "state"),
    }
}

/// How zones are shown, if not by all lines of a report.
pub fn zones_form(matches: &ArgMatches<'_>) -> Result<Option<ZonesForm>, WordFault>
    ensures { Finds (HasZonesForm (rows_of (found_of matches.now))) result }
{
    let state = state_if_given(matches)?;
    let (brief, json, svg) = (
        is_set(matches, "brief"),
        is_set(matches, "json"),
        is_set(matches, "svg"),
    );
    match (brief, json, svg, state) {
        (false, false, false, None) => Ok(None),
        (false, false, false, Some(state)) => Ok(Some(ZonesForm::Lines(state))),
        (true, false, false, None) => Ok(Some(ZonesForm::Brief)),
        (false, true, false, state) => Ok(Some(ZonesForm::Json(state))),
        (false, false, true, None) => Ok(Some(ZonesForm::Svg)),
        _ => Err(two_forms(brief, json, svg)),
    }
}

/// The options of a plan that have a value, but for `--bytes`: those of its drive first.
const PLAN_OPTIONS: [&str; 11] = [
    "block",
    "zones",
    "size",
    "capacity",
    "transfer",
    "active",
    "open",
    "image",
    "blocks",
    "share",
    "amplification",
];

/// The first of these options that was given, or the last one.
pub fn first_given(matches: &ArgMatches<'_>) -> &'static str {
    for name in PLAN_OPTIONS {
        if !is_missing(matches, name) {
            return name;
        }
    }
    "amplification"
}

/// The drive that a plan is for.
fn planned_drive(alloc: Global, matches: &ArgMatches<'_>) -> Result<PlannedDrive, WordFault>
    ensures { Finds (HasPlannedDrive (rows_of (found_of matches.now))) result }
{
    if given(matches, "image").is_none() {
        return Ok(PlannedDrive::Shape(geometry(matches)?));
    }
    if !lacks_parts(matches) {
        return Err(WordFault::Both("image", first_given(matches)));
    }
    Ok(PlannedDrive::Image(image(alloc, matches)?))
}

/// What a plan is about. A share or an amplification that is too great for it is taken as the greatest.
fn aim(matches: &ArgMatches<'_>) -> Result<Aim, WordFault>
    ensures { Finds (HasAim (rows_of (found_of matches.now))) result }
{
    let blocks = number_if_given(matches, "blocks")?;
    let share = number_if_given(matches, "share")?;
    let amplification = number_if_given(matches, "amplification")?;
    match (blocks, share, amplification) {
        (None, None, None) => Ok(Aim::Shares),
        (Some(blocks), None, None) => Ok(Aim::Blocks(blocks)),
        (None, Some(share), None) => Ok(Aim::Share(u32::try_from(share).unwrap_or(u32::MAX))),
        (None, None, Some(whole)) => {
            let hundredths = whole.saturating_mul(100);
            Ok(Aim::Amplification(u32::try_from(hundredths).unwrap_or(u32::MAX)))
        }
        (Some(_), Some(_), _) => Err(WordFault::Both("blocks", "share")),
        (Some(_), None, Some(_)) => Err(WordFault::Both("blocks", "amplification")),
        (None, Some(_), Some(_)) => Err(WordFault::Both("share", "amplification")),
    }
}

/// How a plan is shown.
fn plan_form(matches: &ArgMatches<'_>) -> Result<PlanForm, WordFault>
    ensures { Finds (HasPlanForm (rows_of (found_of matches.now))) result }
{
    match (is_set(matches, "json"), is_set(matches, "svg")) {
        (false, false) => Ok(PlanForm::Table),
        (true, false) => Ok(PlanForm::Json),
        (false, true) => Ok(PlanForm::Svg),
        (true, true) => Err(WordFault::Both("json", "svg")),
    }
}

/// The plan that is asked for without `--bytes`.
fn plan_job(alloc: Global, matches: &ArgMatches<'_>) -> Result<PlanJob, WordFault>
    requires { first_of (codes "bytes") (rows_of (found_of matches.now)) ≡ None }
    ensures { Finds (AsksForPlan (rows_of (found_of matches.now))) result }
{
    let aim = aim(matches)?;
    let form = plan_form(matches)?;
    Ok(PlanJob {
        drive: planned_drive(alloc, matches)?,
        aim,
        form,
    })
}

/// What a number in digits comes to, in bytes of this unit. None if it is no number, or needs more than 64 bits.
fn in_bytes(digits: &str, unit: u64) -> Option<u64>
    ensures some { IfSome result (SaysBytesIn unit digits.now) }
    ensures none { IfNone result ((bytes : ℕ) → SaysBytesIn unit digits.now bytes → ⊥) }
{
    number_in(digits)?.checked_mul(unit)
}

/// What is before a letter at the end of a text.
fn before_letter(text: &str, letter: char) -> Option<&str>
    requires { letter < 128 }
    ensures { MatchOption result ((front : List ℕ) → text.now ≢ front ++ letter ∷ [])
        (λ front. text.now ≡ front.now ++ letter ∷ []) }
{
    text.strip_suffix(letter)
}

/// The bytes that a text says: a number in digits, and K, M, G or T after it, or none of them.
fn size_in(text: &str) -> Option<u64>
    ensures some { IfSome result (SaysBytes text.now) }
    ensures none { IfNone result ((bytes : ℕ) → SaysBytes text.now bytes → ⊥) }
{
    if let Some(digits) = before_letter(text, 'K') {
        return in_bytes(digits, 1 << 10);
    }
    if let Some(digits) = before_letter(text, 'M') {
        return in_bytes(digits, 1 << 20);
    }
    if let Some(digits) = before_letter(text, 'G') {
        return in_bytes(digits, 1 << 30);
    }
    if let Some(digits) = before_letter(text, 'T') {
        return in_bytes(digits, 1 << 40);
    }
    in_bytes(text, 1)
}

/// The bytes of `plan --bytes`, which takes no other option.
fn format_bytes(matches: &ArgMatches<'_>, text: &str) -> Result<u64, WordFault>
    requires { first_of (codes "bytes") (rows_of (found_of matches.now)) ≡ Some text.now }
    ensures { Finds (AsksForFormat (rows_of (found_of matches.now))) result }
{
    if is_set(matches, "json") {
        return Err(WordFault::Both("bytes", "json"));
    }
    if is_set(matches, "svg") {
        return Err(WordFault::Both("bytes", "svg"));
    }
    if !lacks_plan(matches) {
        return Err(WordFault::Both("bytes", first_given(matches)));
    }
    match size_in(text) {
        Some(bytes) => Ok(bytes),
        None => Err(WordFault::Size),
    }
}

/// What `plan` asks for.
pub fn plan_tool(alloc: Global, matches: &ArgMatches<'_>) -> Result<ToolJob, WordFault>
    ensures { Finds (AsksForTool (codes "plan") (rows_of (found_of matches.now))) result }
{
    match given(matches, "bytes") {
        Some(text) => Ok(ToolJob::Format {
            bytes: format_bytes(matches, text)?,
        }),
        None => Ok(ToolJob::Plan(plan_job(alloc, matches)?)),
    }
}
