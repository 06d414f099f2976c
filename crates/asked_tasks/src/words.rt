ghost use Rattle.std.specs.Prelude.{◌≡◌, ◌≢◌, ℕ, false, IfNone, IfOk, IfSome, IsSomeAnd, codes, map, option_map};
ghost use Rattle.std.specs.Prelude.{string_bytes};
ghost use Rattle.std.specs.List.{list_all};
ghost use Rattle.std.specs.Char.{is_ascii_digit};
ghost use Rattle.clap.specs.Words.{first_of, found_of, rows_of, subcommand_rows_of};
ghost use Rattle.asked_tasks.specs.Values.{Finds, HasFlag, HasGeometry, HasHabit, HasImage, HasNumber};
ghost use Rattle.asked_tasks.specs.Values.{HasNumberIf, HasNumberOr, HasStop, HasTextIf, IsNumber, is_set};
ghost use Rattle.asked_tasks.specs.Values.{named_habit};
ghost use Rattle.asked_tasks.specs.DriveWords.{AsksForConvert, AsksForCopy, AsksForNbd, AsksForRepair, AsksForRescue};
ghost use Rattle.asked_tasks.specs.Words.{AsksFor, AsksForFile, AsksForJob, IsAnswerTo};
ghost use Rattle.asked_tasks.specs.declared.words.WordFault.TheVariants.{Memory};

use crate::device_words::{device_job, new_drive};
use crate::failing::fail_of;
use crate::forgetting::forget_of;
use crate::place::{Place, drive_path};
use crate::raw_words::entry_words;
use crate::refusal::{in_own_words, refusal};
use crate::task::Task;
use crate::tool_words::{check_job, info_job, is_missing, is_set, plan_tool, zones_form};
use clap::{ArgMatches, Error};
use command_line::{HABITS, program};
use device_jobs::ConvertJob;
use disk_copies::{CopyJob, ExportJob, ImportJob};
use disk_jobs::{Habit, Job, Stop};
use nbd_jobs::NbdJob;
use repair_jobs::RepairJob;
use rescue_jobs::RescueJob;
use std::alloc::{AllocError, Global};
use tool_jobs::{ToolJob, ZonesJob};
use zone_states::Geometry;

/// Why words that the program takes are no task.
#[derive(Clone, Copy)]
pub enum WordFault {
    /// They lack a subcommand or a word of it. The parser refuses such words before.
    Missing,
    /// They name no drive, neither in a file nor behind a device.
    NoDrive,
    /// They lack the option with this name. The parser refuses such words before, but for a format and a plan, which
    /// may take others.
    Lacks(&'static str),
    /// The value of the option with this name is not in decimal digits, or needs too many bits.
    Digits(&'static str),
    /// The number of bytes of a plan is no number, or has another unit.
    Size,
    /// The state of zones has no such name.
    State,
    /// No command has this name.
    Command,
    /// The data is not in pairs of hexadecimal digits.
    Bytes,
    /// These two options were given, which are not taken together.
    Both(&'static str, &'static str),
    /// The first option was given without the second, which it belongs to.
    Needs(&'static str, &'static str),
    /// An allocation failed.
    Memory,
}

impl From<AllocError> for WordFault {
    ghost from_gives = { λ _ fault. fault ≡ Memory };

    fn from(_error: AllocError) -> WordFault {
        WordFault::Memory
    }
}

/// The value that an option was given, if it was.
pub fn given<'a>(matches: &ArgMatches<'a>, name: &str) -> Option<&'a str>
    ensures { option_map (λ text. text.now) result ≡ first_of name.now (rows_of (found_of matches.now)) }
{
    matches.get_str(name)
}

/// Whether a flag was given.
pub fn has_flag(matches: &ArgMatches<'_>, name: &str) -> bool
    ensures { HasFlag (rows_of (found_of matches.now)) name.now result }
{
    matches.get_flag(name)
}

/// Whether a text has only digits.
fn is_decimal(text: &str) -> bool
    ensures { result ≡ list_all is_ascii_digit text.now }
{
    text.as_bytes().iter().all(|byte| byte.is_ascii_digit())
}

/// The number that a text spells in decimal digits alone, in 64 bits at most.
pub fn number_in(text: &str) -> Option<u64>
    ensures some { IfSome result (IsNumber 64 text.now) }
    ensures none { IfNone result ((n : ℕ) → IsNumber 64 text.now n → ⊥) }
{
    if !is_decimal(text) {
        return None;
    }
    match text.parse() {
        Ok(number) => Some(number),
        Err(_) => None,
    }
}

/// The number that an option was given. It is refused where it is not spelled only in decimal digits, or needs more
/// than 64 bits.
pub fn number(matches: &ArgMatches<'_>, name: &'static str) -> Result<u64, WordFault>
    ensures { Finds (HasNumber 64 (rows_of (found_of matches.now)) name.entry.now) result }
{
    let Some(digits) = given(matches, name) else {
        return Err(WordFault::Lacks(name));
    };
    match number_in(digits) {
        Some(number) => Ok(number),
        None => Err(WordFault::Digits(name)),
    }
}

/// A number below 2^32.
fn part_of(matches: &ArgMatches<'_>, name: &'static str) -> Result<u32, WordFault>
    ensures { Finds (HasNumber 32 (rows_of (found_of matches.now)) name.entry.now) result }
{
    u32::try_from(number(matches, name)?).or(Err(WordFault::Digits(name)))
}

/// The number that an option was given, if it was.
pub fn number_or(
    matches: &ArgMatches<'_>,
    name: &'static str,
    missing: u64,
) -> Result<u64, WordFault>
    ensures { Finds (HasNumberOr missing (rows_of (found_of matches.now)) name.entry.now) result }
{
    if given(matches, name).is_none() {
        return Ok(missing);
    }
    number(matches, name)
}

/// The number that an option was given, if it was given one.
pub fn number_if_given(
    matches: &ArgMatches<'_>,
    name: &'static str,
) -> Result<Option<u64>, WordFault>
    ensures { Finds (HasNumberIf (rows_of (found_of matches.now)) name.entry.now) result }
{
    if given(matches, name).is_none() {
        return Ok(None);
    }
    Ok(Some(number(matches, name)?))
}

/// When the drive stops. One that does not stop tears no Append. No Append has more blocks than 32 bits can count.
pub fn stop_of(matches: &ArgMatches<'_>) -> Result<Stop, WordFault>
    ensures { Finds (HasStop (rows_of (found_of matches.now))) result }
{
    if is_missing(matches, "stop-after") && !is_missing(matches, "tear") {
        return Err(WordFault::Needs("tear", "stop-after"));
    }
    let commands = number_or(matches, "stop-after", Stop::NEVER.commands)?;
    let tear = number_or(matches, "tear", 0)?;
    Ok(Stop {
        commands,
        tear: u32::try_from(tear).unwrap_or(u32::MAX),
    })
}

/// The habit with this name, in any case of its letters.
fn named_habit(word: &str) -> Habit
    ensures { result ≡ named_habit word.now }
{
    if word.eq_ignore_ascii_case("closing") {
        return Habit::Closing;
    }
    if word.eq_ignore_ascii_case("strict") {
        return Habit::Strict;
    }
    Habit::Lazy
}

/// The habit of the drive.
pub fn habit_of(matches: &ArgMatches<'_>) -> Habit
    ensures { HasHabit (rows_of (found_of matches.now)) result }
{
    match given(matches, "habit") {
        Some(word) => named_habit(word),
        None => Habit::Lazy,
    }
}

/// Whether nothing in the file may change.
fn read_only_of(matches: &ArgMatches<'_>) -> bool
    ensures { HasFlag (rows_of (found_of matches.now)) (codes "read-only") result }
{
    has_flag(matches, "read-only")
}

/// The geometry that was given.
pub fn geometry(matches: &ArgMatches<'_>) -> Result<Geometry, WordFault>
    ensures { Finds (HasGeometry (rows_of (found_of matches.now))) result }
{
    Ok(Geometry {
        block: part_of(matches, "block")?,
        zones: part_of(matches, "zones")?,
        size: part_of(matches, "size")?,
        capacity: part_of(matches, "capacity")?,
        transfer: part_of(matches, "transfer")?,
        active: part_of(matches, "active")?,
        open: part_of(matches, "open")?,
    })
}

/// The path of the image file.
pub fn image(alloc: Global, matches: &ArgMatches<'_>) -> Result<String, WordFault>
    ensures { Finds (λ path. HasImage (rows_of (found_of matches.now)) (string_bytes path)) result }
{
    let Some(path) = given(matches, "image") else {
        return Err(WordFault::NoDrive);
    };
    Ok(String::from_str(alloc, path)?)
}

/// The job of `format` without `--in-place`: a drive whose image is saved.
fn format_job(alloc: Global, matches: &ArgMatches<'_>) -> Result<Job, WordFault>
    requires { is_set (rows_of (found_of matches.now)) (codes "in-place") ≡ false }
    ensures { Finds (AsksForJob (codes "format") (rows_of (found_of matches.now))) result }
{
    Ok(Job::Format {
        image: image(alloc, matches)?,
        geometry: geometry(matches)?,
        force: has_flag(matches, "force"),
    })
}

/// What `format` asks for: a drive whose image is saved, or one that stays in its file.
fn format_task(alloc: Global, matches: &ArgMatches<'_>) -> Result<Task, WordFault>
    ensures { Finds (AsksForFile (codes "format") (rows_of (found_of matches.now))) result }
{
    if is_set(matches, "in-place") {
        return Ok(Task::Device(new_drive(alloc, matches)?));
    }
    Ok(Task::Lines(format_job(alloc, matches)?))
}

/// The job of `run`.
fn run_job(alloc: Global, matches: &ArgMatches<'_>) -> Result<Job, WordFault>
    ensures { Finds (AsksForJob (codes "run") (rows_of (found_of matches.now))) result }
{
    let blocks = number(matches, "blocks")?;
    let stop = stop_of(matches)?;
    Ok(Job::Run {
        image: image(alloc, matches)?,
        blocks,
        zones: has_flag(matches, "zones"),
        statistics: has_flag(matches, "statistics"),
        stop,
        habit: habit_of(matches),
        sync: has_flag(matches, "sync"),
        read_only: read_only_of(matches),
        progress: has_flag(matches, "progress"),
    })
}

/// What `report` asks for: all lines of it, or another form.
fn report_task(alloc: Global, matches: &ArgMatches<'_>) -> Result<Task, WordFault>
    ensures { Finds (AsksForFile (codes "report") (rows_of (found_of matches.now))) result }
{
    let form = zones_form(matches)?;
    let image = image(alloc, matches)?;
    match form {
        None => Ok(Task::Lines(Job::Report { image })),
        Some(form) => Ok(Task::Tool(ToolJob::Zones(ZonesJob { image, form }))),
    }
}

/// The job of `nvme`.
fn nvme_job(alloc: Global, matches: &ArgMatches<'_>) -> Result<Job, WordFault>
    ensures { Finds (AsksForJob (codes "nvme") (rows_of (found_of matches.now))) result }
{
    Ok(Job::Nvme {
        image: image(alloc, matches)?,
        explain: has_flag(matches, "explain"),
        habit: habit_of(matches),
        sync: has_flag(matches, "sync"),
    })
}

/// The job of `fresh`.
fn fresh_job(matches: &ArgMatches<'_>) -> Result<Job, WordFault>
    ensures { Finds (AsksForJob (codes "fresh") (rows_of (found_of matches.now))) result }
{
    Ok(Job::Fresh {
        geometry: geometry(matches)?,
        blocks: number(matches, "blocks")?,
        report: has_flag(matches, "report"),
        statistics: has_flag(matches, "statistics"),
        stop: stop_of(matches)?,
        habit: habit_of(matches),
    })
}

/// The job of `fresh-raw`.
fn fresh_raw_job(matches: &ArgMatches<'_>) -> Result<Job, WordFault>
    ensures { Finds (AsksForJob (codes "fresh-raw") (rows_of (found_of matches.now))) result }
{
    Ok(Job::FreshRaw {
        geometry: geometry(matches)?,
        habit: habit_of(matches),
    })
}

/// The job of a subcommand that always has one, if this is one.
fn subcommand_job(alloc: Global, name: &str, matches: &ArgMatches<'_>) -> Result<Job, WordFault>
    requires reported { name.now ≢ codes "report" }
    requires formatted { name.now ≢ codes "format" }
    ensures { Finds (AsksForJob name.now (rows_of (found_of matches.now))) result }
{
    match name {
        "run" => run_job(alloc, matches),
        "nvme" => nvme_job(alloc, matches),
        "fresh" => fresh_job(matches),
        "fresh-raw" => fresh_raw_job(matches),
        _ => Err(WordFault::Missing),
    }
}

/// The job of `nbd`.
pub fn nbd_job(alloc: Global, place: Place, matches: &ArgMatches<'_>) -> Result<NbdJob, WordFault>
    ensures { Finds (AsksForNbd place (rows_of (found_of matches.now))) result }
{
    if is_set(matches, "idle") && is_set(matches, "read-only") {
        return Err(WordFault::Both("idle", "read-only"));
    }
    let blocks = number_if_given(matches, "blocks")?;
    let stop = stop_of(matches)?;
    let forget = forget_of(matches)?;
    let fail = fail_of(matches)?;
    Ok(NbdJob {
        image: drive_path(alloc, place, matches)?,
        blocks,
        stop,
        forget,
        fail,
        habit: habit_of(matches),
        statistics: has_flag(matches, "statistics"),
        idle: has_flag(matches, "idle"),
        read_only: read_only_of(matches),
    })
}

/// The job of `export`.
pub fn export_job(
    alloc: Global,
    place: Place,
    matches: &ArgMatches<'_>,
) -> Result<CopyJob, WordFault>
    ensures { Finds (AsksForCopy place (codes "export") (rows_of (found_of matches.now))) result }
{
    let first = number_or(matches, "first", 0)?;
    let count = number_if_given(matches, "count")?;
    Ok(CopyJob::Export(ExportJob {
        image: drive_path(alloc, place, matches)?,
        first,
        count,
        progress: has_flag(matches, "progress"),
    }))
}

/// The job of `import`.
pub fn import_job(
    alloc: Global,
    place: Place,
    matches: &ArgMatches<'_>,
) -> Result<CopyJob, WordFault>
    ensures { Finds (AsksForCopy place (codes "import") (rows_of (found_of matches.now))) result }
{
    let blocks = number_if_given(matches, "blocks")?;
    let first = number_or(matches, "first", 0)?;
    Ok(CopyJob::Import(ImportJob {
        image: drive_path(alloc, place, matches)?,
        blocks,
        first,
        sparse: has_flag(matches, "sparse"),
        progress: has_flag(matches, "progress"),
    }))
}

/// The job of `convert`.
fn convert_job(alloc: Global, matches: &ArgMatches<'_>) -> Result<ConvertJob, WordFault>
    ensures { Finds (AsksForConvert (rows_of (found_of matches.now))) result }
{
    let Some(to) = given(matches, "to") else {
        return Err(WordFault::Lacks("to"));
    };
    Ok(ConvertJob {
        image: image(alloc, matches)?,
        to: String::from_str(alloc, to)?,
    })
}

/// The text that an option was given, if it was given one.
fn text_if_given(
    alloc: Global,
    matches: &ArgMatches<'_>,
    name: &str,
) -> Result<Option<String>, WordFault>
    ensures { Finds (λ value. HasTextIf (rows_of (found_of matches.now)) name.now (option_map string_bytes value)) result }
{
    match given(matches, name) {
        Some(text) => Ok(Some(String::from_str(alloc, text)?)),
        None => Ok(None),
    }
}

/// The job of `rescue`. It is not counted what is written to a new drive.
pub fn rescue_job(
    alloc: Global,
    place: Place,
    matches: &ArgMatches<'_>,
) -> Result<RescueJob, WordFault>
    ensures { Finds (AsksForRescue place (rows_of (found_of matches.now))) result }
{
    if is_set(matches, "progress") && !is_missing(matches, "to") {
        return Err(WordFault::Both("to", "progress"));
    }
    let blocks = number_if_given(matches, "blocks")?;
    let to = text_if_given(alloc, matches, "to")?;
    let json = text_if_given(alloc, matches, "json")?;
    Ok(RescueJob {
        image: drive_path(alloc, place, matches)?,
        blocks,
        to,
        json,
        progress: has_flag(matches, "progress"),
    })
}

/// The job of `repair`.
pub fn repair_job(
    alloc: Global,
    place: Place,
    matches: &ArgMatches<'_>,
) -> Result<RepairJob, WordFault>
    ensures { Finds (AsksForRepair place (rows_of (found_of matches.now))) result }
{
    let force = has_flag(matches, "force");
    let image = drive_path(alloc, place, matches)?;
    Ok(RepairJob { image, force })
}

/// What a subcommand asks for without a device.
fn file_task(alloc: Global, name: &str, matches: &ArgMatches<'_>) -> Result<Task, WordFault>
    ensures { Finds (AsksForFile name.now (rows_of (found_of matches.now))) result }
{
    let place = Place::File;
    match name {
        "nbd" => Ok(Task::Nbd(nbd_job(alloc, place, matches)?)),
        "export" => Ok(Task::Copy(export_job(alloc, place, matches)?)),
        "import" => Ok(Task::Copy(import_job(alloc, place, matches)?)),
        "check" => Ok(Task::Tool(ToolJob::Check(check_job(alloc, place, matches)?))),
        "info" => Ok(Task::Tool(ToolJob::Info(info_job(alloc, place, matches)?))),
        "plan" => Ok(Task::Tool(plan_tool(alloc, matches)?)),
        "convert" => Ok(Task::Convert(convert_job(alloc, matches)?)),
        "rescue" => Ok(Task::Rescue(rescue_job(alloc, place, matches)?)),
        "repair" => Ok(Task::Repair(repair_job(alloc, place, matches)?)),
        "report" => report_task(alloc, matches),
        "format" => format_task(alloc, matches),
        "entry" => Ok(Task::Tool(ToolJob::Entry(entry_words(alloc, matches)?))),
        _ => Ok(Task::Lines(subcommand_job(alloc, name, matches)?)),
    }
}

/// What a subcommand asks for.
fn subcommand_task(alloc: Global, name: &str, matches: &ArgMatches<'_>) -> Result<Task, WordFault>
    ensures { Finds (AsksFor name.now (rows_of (found_of matches.now))) result }
{
    if given(matches, "device").is_some() {
        return Ok(Task::Device(device_job(alloc, name, matches)?));
    }
    file_task(alloc, name, matches)
}

/// What the subcommand asks for, if any.
fn asked(alloc: Global, matches: &ArgMatches<'_>) -> Result<Task, WordFault>
    ensures { Finds (λ task. IsSomeAnd (subcommand_rows_of matches.now) (λ met. AsksFor met.0 met.1 task)) result }
{
    match matches.subcommand() {
        Some((name, matches)) => subcommand_task(alloc, name, matches),
        None => Err(WordFault::Missing),
    }
}

/// The task that the words ask for; the first word is the program's name.
///
/// Words that ask for no task, a request for help among them, are refused with the text to show.
pub fn task_of(alloc: Global, words: &[String]) -> Result<Task, Error>
    ensures { IsAnswerTo (map string_bytes words.now) result }
{
    let mut program = program(alloc, HABITS.as_slice())?;
    let matches = match program.try_get_matches_from_mut(words) {
        Ok(matches) => matches,
        Err(error) => return Err(in_own_words(alloc, words, error)?),
    };
    match asked(alloc, &matches) {
        Ok(task) => Ok(task),
        Err(fault) => Err(refusal(alloc, &matches, fault)?),
    }
}
