ghost use Rattle.std.specs.Prelude.{◌≡◌, [], ◌∷◌, ◌++◌, false, IfOk, codes};
ghost use Rattle.clap.specs.Words.{Shape, app_of, rule_of};
ghost use Rattle.command_line.specs.Program.{AddsOptions, AddsSubcommand, IsCommand, aims, below_2_63};
ghost use Rattle.command_line.specs.Program.{blocks, check_words, convert_words, device, entry, entry_numbers, export_words, flag};
ghost use Rattle.command_line.specs.Program.{fails, forgets, format, fresh_raw, fresh_words, given_first, habit, image};
ghost use Rattle.command_line.specs.Program.{import_words, info_words, limits, named_path, nbd, number, nvme, optional};
ghost use Rattle.command_line.specs.Program.{part, parts, percent, plan_words, program, repair_words, report_words};
ghost use Rattle.command_line.specs.Program.{rescue_words, run, shape, stops, valued};

use clap::builder::ValueParser;
use clap::{Arg, ArgAction, Command, value_parser};
use std::alloc::{AllocError, Global};

/// What `--version` shows after the name of the program.
const VERSION: &str = "0.1.0";

const FORMAT_EXAMPLE: &str = "Examples:
  zonedisk format --image my.drive --block 512 --zones 4 --size 8 --capacity 6 --transfer 4 --active 2 --open 2
  zonedisk format --image my.drive --in-place --block 4096 --zones 64 --size 8192 --capacity 8192 --transfer 128 --active 8 --open 8
  zonedisk format --device /dev/ng0n1

A drive of --in-place is never read whole, and takes memory for its zones alone: ports/linux/out/zonedisk opens it.
The disk above a drive takes some 12 bytes of memory for each block that was written.
A real drive has its own shape. If it is not empty, it is refused; with --force all that it holds is destroyed.";

const RUN_EXAMPLE: &str = "Examples:
  printf 'fill 0 5 aa\\nread 4 1\\n' | zonedisk run --image my.drive --blocks 9
  printf 'fill 0 5 aa\\nread 4 1\\n' | zonedisk run --device /dev/ng0n1 --blocks 196608";

const NBD_EXAMPLE: &str = "Examples:
  nbdfuse disk --command zonedisk nbd --image my.drive --blocks 9
  nbdfuse disk --command zonedisk nbd --device /dev/ng0n1 --blocks 196608
  nbdfuse disk --command zonedisk nbd --image my.drive --forget 7 --cut-after 120
  nbdfuse disk --command zonedisk nbd --image my.drive --fail 7 --fail-odds 5

A drive that stops, by --stop-after, keeps each write that was answered. A disk that forgets, by --forget, keeps what
was synced, and loses some of the rest at a power cut. A medium that fails, by --fail, answers EIO and does nothing.";

const EXPORT_EXAMPLE: &str = "Example:
  zonedisk export --image my.drive > my.blocks";

const IMPORT_EXAMPLE: &str = "Example:
  zonedisk import --image my.drive --sparse < my.blocks";

const CONVERT_EXAMPLE: &str = "Example:
  zonedisk convert --image my.image --to my.drive

A drive of an image is put into a new file in which it stays, and one that stays in its file into a new image.";

const RESCUE_EXAMPLE: &str = "Examples:
  zonedisk rescue --image my.drive > my.blocks
  zonedisk rescue --image my.drive --to new.drive --json lists.json

The drive is only read. Standard error says which blocks are lost, and which may be older than they should be. The status
is 0 only if there are none.";

const REPAIR_EXAMPLE: &str = "Examples:
  zonedisk repair --image my.drive
  zonedisk repair --image my.drive --force

Without --force the drive is only read: a line for each zone in which something foreign follows the batches. With it these
batches go to other zones, and a check of the drive is shown. A repair that was stopped goes on where it ended.";

const REPORT_EXAMPLE: &str = "Example:
  zonedisk report --image my.drive";

const CHECK_EXAMPLE: &str = "Example:
  zonedisk check --image my.drive && echo it can be mounted";

const INFO_EXAMPLE: &str = "Example:
  zonedisk info --image my.drive";

const PLAN_EXAMPLE: &str = "Examples:
  zonedisk plan --image my.drive
  zonedisk plan --block 4096 --zones 64 --size 8192 --capacity 8192 --transfer 128 --active 8 --open 8 --share 80";

const ENTRY_EXAMPLE: &str = "Examples:
  zonedisk entry finish --start 8 | zonedisk nvme --image my.drive
  zonedisk entry append --data $(printf 'aa%.0s' $(seq 512)) | zonedisk nvme --image my.drive --explain";

const NVME_EXAMPLE: &str = "Examples:
  printf '0000010001000000%0112d\\n' 0 | zonedisk nvme --image my.drive
  zonedisk entry report | zonedisk nvme --image my.drive --explain";

const FRESH_EXAMPLE: &str = "Example:
  printf 'fill 0 5 aa\\nread 4 1\\n' | zonedisk fresh --block 512 --zones 4 --size 8 \
    --capacity 6 --transfer 4 --active 2 --open 2 --blocks 9 --report";

const FRESH_RAW_EXAMPLE: &str = "Example:
  printf '0000010001000000%0112d\\n' 0 | zonedisk fresh-raw --block 512 --zones 4 --size 8 \
    --capacity 6 --transfer 4 --active 2 --open 2";

const SYNC_HELP: &str = "Sends a reply only once the changes before it are on the disk";

const STATISTICS_HELP: &str = "Shows what was written and moved after the replies";

const READ_ONLY_HELP: &str = "Changes nothing in the file, and refuses what would change the disk";

/// An option that takes what its parser takes, and has to be given.
fn parsed_option<'a>(
    alloc: Global,
    name: &'a str,
    letter: &'a str,
    help: &'a str,
    parser: ValueParser<'a>,
) -> Arg<'a>
    ensures rule { rule_of result ≡ number name.entry.now parser.entry }
    ensures local { result.global ≡ false }
{
    Arg::new(alloc, name)
        .long(name)
        .value_name(letter)
        .help(help)
        .required(true)
        .action(ArgAction::Set)
        .value_parser(parser)
}

/// A part of a geometry: a number below 2^32. It may be left out, unless it is required.
fn part<'a>(alloc: Global, name: &'a str, letter: &'a str, help: &'a str, required: bool) -> Arg<'a>
    ensures rule { rule_of result ≡ part required name.entry.now }
    ensures local { result.global ≡ false }
{
    parsed_option(alloc, name, letter, help, value_parser!(u32)).required(required)
}

/// The blocks and zones of a drive.
fn shape_options<'a>(
    alloc: Global,
    command: Command<'a>,
    required: bool,
) -> Result<Command<'a>, AllocError>
    ensures { IfOk result (λ new. AddsOptions (shape required) command.entry new) }
{
    let size = "Blocks in a zone's addresses: C to 2^20";
    let capacity = "Blocks in a zone that take writes: 4 to S";
    command
        .arg(part(
            alloc,
            "block",
            "B",
            "Bytes in a block: 512 or 4096",
            required,
        ))?
        .arg(part(alloc, "zones", "Z", "Zones: 3 to 65536", required))?
        .arg(part(alloc, "size", "S", size, required))?
        .arg(part(alloc, "capacity", "C", capacity, required))
}

/// The limits of a drive.
fn limit_options<'a>(
    alloc: Global,
    command: Command<'a>,
    required: bool,
) -> Result<Command<'a>, AllocError>
    ensures { IfOk result (λ new. AddsOptions (limits required) command.entry new) }
{
    let transfer = "Blocks in a transfer at most: 2 to 256";
    let active = "Zones active at once at most: 2 to 65536";
    let open = "Zones open at once at most: 1 to A";
    command
        .arg(part(alloc, "transfer", "T", transfer, required))?
        .arg(part(alloc, "active", "A", active, required))?
        .arg(part(alloc, "open", "O", open, required))
}

/// The parts of a geometry, which may be left out unless they are required.
fn geometry_options<'a>(
    alloc: Global,
    command: Command<'a>,
    required: bool,
) -> Result<Command<'a>, AllocError>
    ensures { IfOk result (λ new. AddsOptions (parts required) command.entry new) }
{
    let command = shape_options(alloc, command, required)?;
    limit_options(alloc, command, required)
}

/// An option without a value.
fn flag<'a>(alloc: Global, name: &'a str, help: &'a str) -> Arg<'a>
    ensures rule { rule_of result ≡ flag name.entry.now }
    ensures local { result.global ≡ false }
{
    Arg::new(alloc, name)
        .long(name)
        .help(help)
        .action(ArgAction::SetTrue)
}

/// An option that takes a text, and may be left out.
fn text_option<'a>(alloc: Global, name: &'a str, letter: &'a str, help: &'a str) -> Arg<'a>
    ensures rule { rule_of result ≡ optional (valued name.entry.now) }
    ensures local { result.global ≡ false }
{
    Arg::new(alloc, name)
        .long(name)
        .value_name(letter)
        .help(help)
        .action(ArgAction::Set)
}

/// An option that takes a path, which is not empty, and has to be given.
fn needed_path<'a>(alloc: Global, name: &'a str, letter: &'a str, help: &'a str) -> Arg<'a>
    ensures rule { rule_of result ≡ named_path name.entry.now }
    ensures local { result.global ≡ false }
{
    parsed_option(alloc, name, letter, help, ValueParser::NonEmptyString)
}

/// An option that takes a path, which is not empty, and may be left out.
fn path_option<'a>(alloc: Global, name: &'a str, letter: &'a str, help: &'a str) -> Arg<'a>
    ensures rule { rule_of result ≡ optional (named_path name.entry.now) }
    ensures local { result.global ≡ false }
{
    needed_path(alloc, name, letter, help).required(false)
}

/// The path of an image file.
fn image_option<'a>(alloc: Global) -> Arg<'a>
    ensures rule { rule_of result ≡ image }
    ensures local { result.global ≡ false }
{
    path_option(alloc, "image", "P", "The file with the drive or its image")
}

/// The path of a device, which takes the place of a file.
fn device_option<'a>(alloc: Global) -> Arg<'a>
    ensures rule { rule_of result ≡ device }
    ensures local { result.global ≡ false }
{
    let help =
        "In the place of --image: a real drive, by the character device of its namespace, such as /dev/ng0n1";
    path_option(alloc, "device", "D", help)
}

/// What takes a number below 2^63.
fn count_parser<'a>() -> ValueParser<'a>
    ensures { result ≡ below_2_63 }
{
    value_parser!(u64).range(0..=i64::MAX)
}

/// How many logical blocks the disk has: a number below 2^63.
fn blocks_option<'a>(alloc: Global) -> Arg<'a>
    ensures rule { rule_of result ≡ blocks }
    ensures local { result.global ≡ false }
{
    let help = "Logical blocks; where the drive has room for fewer, the refusal says for how many";
    parsed_option(alloc, "blocks", "N", help, count_parser())
}

/// The same, for a drive that may say it.
fn blocks_if_fresh_option<'a>(alloc: Global) -> Arg<'a>
    ensures rule { rule_of result ≡ optional blocks }
    ensures local { result.global ≡ false }
{
    let help = "Logical blocks; a drive that was written says how many it has";
    parsed_option(alloc, "blocks", "N", help, count_parser()).required(false)
}

/// An option that takes a number below 2^63, and may be left out.
fn count_option<'a>(alloc: Global, name: &'a str, letter: &'a str, help: &'a str) -> Arg<'a>
    ensures rule { rule_of result ≡ optional (number name.entry.now below_2_63) }
    ensures local { result.global ≡ false }
{
    parsed_option(alloc, name, letter, help, count_parser()).required(false)
}

fn stop_options<'a>(alloc: Global, command: Command<'a>) -> Result<Command<'a>, AllocError>
    ensures { IfOk result (λ new. AddsOptions stops command.entry new) }
{
    let stop = "Stops the drive after K commands, the mount's included";
    let tear = "Writes J blocks of the Append at which the drive stops";
    command
        .arg(count_option(alloc, "stop-after", "K", stop))?
        .arg(count_option(alloc, "tear", "J", tear))
}

/// An option that takes a percentage, and may be left out.
fn percent_option<'a>(alloc: Global, name: &'a str, help: &'a str) -> Arg<'a>
    ensures rule { rule_of result ≡ optional (number name.entry.now percent) }
    ensures local { result.global ≡ false }
{
    parsed_option(alloc, name, "PERCENT", help, percent_parser()).required(false)
}

/// What takes a percentage.
fn percent_parser<'a>() -> ValueParser<'a>
    ensures { result ≡ percent }
{
    value_parser!(u64).range(0..=100)
}

/// How a disk forgets.
fn forget_options<'a>(alloc: Global, command: Command<'a>) -> Result<Command<'a>, AllocError>
    ensures { IfOk result (λ new. AddsOptions forgets command.entry new) }
{
    let forget =
        "Keeps what is not synced in a cache, and loses some of it at a power cut, as the seed chooses";
    let odds = "Of 100 such blocks about so many are lost: 0 to 100; 50 without it";
    let cut_after =
        "Cuts the power after K requests, and else where the client is gone without a disconnect";
    command
        .arg(count_option(alloc, "forget", "SEED", forget))?
        .arg(percent_option(alloc, "odds", odds))?
        .arg(count_option(alloc, "cut-after", "K", cut_after))
}

/// By which chance the medium of a disk fails.
fn fail_options<'a>(alloc: Global, command: Command<'a>) -> Result<Command<'a>, AllocError>
    ensures { IfOk result (λ new. AddsOptions fails command.entry new) }
{
    let fail = "Answers some requests with EIO and does nothing of them, as the seed chooses";
    let odds = "Of 100 reads, writes, trims and writes of zeros about so many fail: 0 to 100";
    command
        .arg(count_option(alloc, "fail", "SEED", fail))?
        .arg(percent_option(alloc, "fail-odds", odds))
}

/// The names of the habits of a drive.
pub const HABITS: [&str; 3] = ["lazy", "closing", "strict"];

fn habit_option<'a>(alloc: Global, habits: &'a [&'a str]) -> Arg<'a>
    ensures rule { rule_of result ≡ habit habits.entry }
    ensures local { result.global ≡ false }
{
    Arg::new(alloc, "habit")
        .long("habit")
        .value_name("H")
        .help("Which zones the drive closes by itself; lazy without it")
        .action(ArgAction::Set)
        .value_parser(habits)
        .ignore_case(true)
}

fn format_command<'a>(alloc: Global) -> Result<Command<'a>, AllocError>
    ensures { IfOk result (λ new. IsCommand format new) }
{
    let force = "Replaces a file that is no image, or destroys what a device holds";
    let in_place = "Makes a new drive that stays in its file: each change is written to its place";
    let command = Command::new(alloc, "format")
        .about(
            "Makes a drive in which nothing is written: a fresh one in a file, or that of a device",
        )
        .after_help(FORMAT_EXAMPLE)
        .arg(image_option(alloc))?
        .arg(device_option(alloc))?
        .arg(flag(alloc, "force", force))?
        .arg(flag(alloc, "in-place", in_place))?;
    geometry_options(alloc, command, false)
}

fn run_command<'a>(alloc: Global, habits: &'a [&'a str]) -> Result<Command<'a>, AllocError>
    ensures { IfOk result (λ new. IsCommand (run habits.entry) new) }
{
    let zones = "Shows the zones of the drive after the replies, as --report of fresh does";
    let command = Command::new(alloc, "run")
        .about("Answers the trace on standard input, over the drive in a file or of a device")
        .after_help(RUN_EXAMPLE)
        .arg(image_option(alloc))?
        .arg(device_option(alloc))?
        .arg(blocks_option(alloc))?
        .arg(flag(alloc, "zones", zones))?
        .arg(flag(alloc, "statistics", STATISTICS_HELP))?
        .arg(flag(alloc, "sync", SYNC_HELP))?
        .arg(flag(alloc, "read-only", READ_ONLY_HELP))?
        .arg(flag(alloc, "progress", PROGRESS_HELP))?
        .arg(habit_option(alloc, habits))?;
    stop_options(alloc, command)
}

fn nbd_command<'a>(alloc: Global, habits: &'a [&'a str]) -> Result<Command<'a>, AllocError>
    ensures { IfOk result (λ new. IsCommand (nbd habits.entry) new) }
{
    let statistics = "Shows what was written and moved on standard error at the end";
    let idle = "Takes a turn of cleaning after each request, if one is due";
    let command = Command::new(alloc, "nbd")
        .about(
            "Serves the drive in a file or of a device by the Network Block Device protocol, on the standard streams",
        )
        .after_help(NBD_EXAMPLE)
        .arg(image_option(alloc))?
        .arg(device_option(alloc))?
        .arg(blocks_if_fresh_option(alloc))?
        .arg(flag(alloc, "statistics", statistics))?
        .arg(flag(alloc, "idle", idle))?
        .arg(flag(alloc, "read-only", READ_ONLY_HELP))?
        .arg(habit_option(alloc, habits))?;
    let command = stop_options(alloc, command)?;
    let command = forget_options(alloc, command)?;
    fail_options(alloc, command)
}

const PROGRESS_HELP: &str = "Shows on standard error how far it is";

fn export_command<'a>(alloc: Global) -> Result<Command<'a>, AllocError>
    ensures { IfOk result (λ new. IsCommand export_words new) }
{
    let first = "The first block; 0 without it";
    let count = "How many blocks; without it all from the first one on";
    Command::new(alloc, "export")
        .about("Writes blocks of the drive in a file or of a device to standard output")
        .after_help(EXPORT_EXAMPLE)
        .arg(image_option(alloc))?
        .arg(device_option(alloc))?
        .arg(count_option(alloc, "first", "L", first))?
        .arg(count_option(alloc, "count", "N", count))?
        .arg(flag(alloc, "progress", PROGRESS_HELP))
}

fn import_command<'a>(alloc: Global) -> Result<Command<'a>, AllocError>
    ensures { IfOk result (λ new. IsCommand import_words new) }
{
    let first = "The block that the first one is written to; 0 without it";
    let sparse = "Trims blocks of zeros, so that their data take no room";
    Command::new(alloc, "import")
        .about("Writes whole blocks from standard input to the drive in a file or of a device")
        .after_help(IMPORT_EXAMPLE)
        .arg(image_option(alloc))?
        .arg(device_option(alloc))?
        .arg(blocks_if_fresh_option(alloc))?
        .arg(count_option(alloc, "first", "L", first))?
        .arg(flag(alloc, "sparse", sparse))?
        .arg(flag(alloc, "progress", PROGRESS_HELP))
}

fn convert_command<'a>(alloc: Global) -> Result<Command<'a>, AllocError>
    ensures { IfOk result (λ new. IsCommand convert_words new) }
{
    let image = "The file with the drive or its image, which is only read";
    let to = "The new file, of the other kind; nothing may be there";
    Command::new(alloc, "convert")
        .about("Puts the drive of an image into a file in which it stays, or back into an image")
        .after_help(CONVERT_EXAMPLE)
        .arg(needed_path(alloc, "image", "P", image))?
        .arg(needed_path(alloc, "to", "Q", to))
}

fn rescue_command<'a>(alloc: Global) -> Result<Command<'a>, AllocError>
    ensures { IfOk result (λ new. IsCommand rescue_words new) }
{
    let blocks = "Logical blocks, if no header that is found says how many";
    let to = "A new drive, to which the blocks are written; nothing may be there";
    let json = "A new file for the lists of lost and older blocks, as JSON";
    Command::new(alloc, "rescue")
        .about(
            "Writes the disk of a drive that is broken in part to standard output, or to a new drive",
        )
        .after_help(RESCUE_EXAMPLE)
        .arg(image_option(alloc))?
        .arg(device_option(alloc))?
        .arg(count_option(alloc, "blocks", "N", blocks))?
        .arg(path_option(alloc, "to", "Q", to))?
        .arg(path_option(alloc, "json", "F", json))?
        .arg(flag(alloc, "progress", PROGRESS_HELP))
}

fn repair_command<'a>(alloc: Global) -> Result<Command<'a>, AllocError>
    ensures { IfOk result (λ new. IsCommand repair_words new) }
{
    let force = "Repairs them: the batches go to other zones, and the zones are reset";
    Command::new(alloc, "repair")
        .about("Shows the zones in which something foreign follows the batches, or repairs them")
        .after_help(REPAIR_EXAMPLE)
        .arg(image_option(alloc))?
        .arg(device_option(alloc))?
        .arg(flag(alloc, "force", force))
}

fn report_command<'a>(alloc: Global) -> Result<Command<'a>, AllocError>
    ensures { IfOk result (λ new. IsCommand report_words new) }
{
    let state =
        "Shows the zones in this state: Empty, ImplicitlyOpened, ExplicitlyOpened, Closed, ReadOnly, Full, Offline";
    let brief = "Shows a line for each state, with its zones";
    let json = "Shows them as JSON, with the names of nvme-cli";
    let svg = "Draws them as SVG, a cell for each";
    Command::new(alloc, "report")
        .about("Shows the zones of the drive in a file or of a device")
        .after_help(REPORT_EXAMPLE)
        .arg(image_option(alloc))?
        .arg(device_option(alloc))?
        .arg(text_option(alloc, "state", "S", state))?
        .arg(flag(alloc, "brief", brief))?
        .arg(flag(alloc, "json", json))?
        .arg(flag(alloc, "svg", svg))
}

/// The number of logical blocks of a drive that is checked.
fn blocks_to_check_option<'a>(alloc: Global) -> Arg<'a>
    ensures rule { rule_of result ≡ optional blocks }
    ensures local { result.global ≡ false }
{
    let help = "Logical blocks of a drive that does not say how many it has; 1 without it";
    count_option(alloc, "blocks", "N", help)
}

fn check_command<'a>(alloc: Global) -> Result<Command<'a>, AllocError>
    ensures { IfOk result (λ new. IsCommand check_words new) }
{
    let json = "Shows the faults as JSON";
    Command::new(alloc, "check")
        .about(
            "Shows each fault of the drive in a file or of a device, and ends with status 0 if it can be mounted",
        )
        .after_help(CHECK_EXAMPLE)
        .arg(image_option(alloc))?
        .arg(device_option(alloc))?
        .arg(blocks_to_check_option(alloc))?
        .arg(flag(alloc, "json", json))
}

fn info_command<'a>(alloc: Global) -> Result<Command<'a>, AllocError>
    ensures { IfOk result (λ new. IsCommand info_words new) }
{
    let json = "Shows the numbers as JSON";
    Command::new(alloc, "info")
        .about("Shows what the drive in a file or of a device holds, and what a mount takes")
        .after_help(INFO_EXAMPLE)
        .arg(image_option(alloc))?
        .arg(device_option(alloc))?
        .arg(flag(alloc, "json", json))
}

/// What a plan is for.
fn aim_options<'a>(alloc: Global, command: Command<'a>) -> Result<Command<'a>, AllocError>
    ensures { IfOk result (λ new. AddsOptions aims command.entry new) }
{
    let blocks = "Logical blocks";
    let share = "Percent of the greatest number of logical blocks";
    let amplification = "The greatest write amplification that random writes may have";
    command
        .arg(count_option(alloc, "blocks", "N", blocks))?
        .arg(count_option(alloc, "share", "PERCENT", share))?
        .arg(count_option(alloc, "amplification", "X", amplification))
}

fn plan_command<'a>(alloc: Global) -> Result<Command<'a>, AllocError>
    ensures { IfOk result (λ new. IsCommand plan_words new) }
{
    let bytes =
        "Shows instead the words that make a drive for this number of bytes: 256M, or K, G or T";
    let json = "Shows the plan as JSON";
    let svg = "Draws the write amplification by the share as SVG";
    let command = Command::new(alloc, "plan")
        .about("Shows what numbers of logical blocks cost on a drive: of this shape, or in a file")
        .after_help(PLAN_EXAMPLE)
        .arg(image_option(alloc))?;
    let command = geometry_options(alloc, command, false)?;
    let command = aim_options(alloc, command)?;
    command
        .arg(text_option(alloc, "bytes", "BYTES", bytes))?
        .arg(flag(alloc, "json", json))?
        .arg(flag(alloc, "svg", svg))
}

/// The name of a command, which is no option.
fn command_argument<'a>(alloc: Global) -> Arg<'a>
    ensures rule { rule_of result ≡ given_first (codes "command") }
    ensures local { result.global ≡ false }
{
    Arg::new(alloc, "command")
        .value_name("COMMAND")
        .help("append, read, write, flush, close, finish, open, reset, offline or report")
        .required(true)
        .action(ArgAction::Set)
}

/// The numbers of an entry.
fn entry_numbers<'a>(alloc: Global, command: Command<'a>) -> Result<Command<'a>, AllocError>
    ensures { IfOk result (λ new. AddsOptions entry_numbers command.entry new) }
{
    let start = "The address: the first block, or the lowest address of a zone; 0 without it";
    let blocks = "Blocks of an append, a read or a write; 1 without it";
    let dwords = "Dwords of the buffer of a report; 1024 without it";
    let id = "The command identifier; 0 without it";
    command
        .arg(count_option(alloc, "start", "SLBA", start))?
        .arg(count_option(alloc, "blocks", "N", blocks))?
        .arg(count_option(alloc, "dwords", "N", dwords))?
        .arg(count_option(alloc, "id", "ID", id))
}

fn entry_command<'a>(alloc: Global) -> Result<Command<'a>, AllocError>
    ensures { IfOk result (λ new. IsCommand entry new) }
{
    let state = "Reports the zones in this state, as in --state of report";
    let all = "Closes, finishes, resets or takes offline all zones";
    let partial = "Counts in the head of a report only the zones that follow";
    let beside = "The data of an append or a write: two hexadecimal digits for each byte";
    let command = Command::new(alloc, "entry")
        .about("Shows the raw line of one NVMe command, for standard input of nvme")
        .after_help(ENTRY_EXAMPLE)
        .arg(command_argument(alloc))?;
    entry_numbers(alloc, command)?
        .arg(flag(alloc, "all", all))?
        .arg(flag(alloc, "partial", partial))?
        .arg(text_option(alloc, "state", "S", state))?
        .arg(text_option(alloc, "data", "HEX", beside))
}

fn nvme_command<'a>(alloc: Global, habits: &'a [&'a str]) -> Result<Command<'a>, AllocError>
    ensures { IfOk result (λ new. IsCommand (nvme habits.entry) new) }
{
    let explain = "Says on standard error what the status of each completion is";
    Command::new(alloc, "nvme")
        .about("Submits the raw entries on standard input to the drive in a file or of a device")
        .after_help(NVME_EXAMPLE)
        .arg(image_option(alloc))?
        .arg(device_option(alloc))?
        .arg(flag(alloc, "explain", explain))?
        .arg(flag(alloc, "sync", SYNC_HELP))?
        .arg(habit_option(alloc, habits))
}

fn fresh_command<'a>(alloc: Global, habits: &'a [&'a str]) -> Result<Command<'a>, AllocError>
    ensures { IfOk result (λ new. IsCommand (fresh_words habits.entry) new) }
{
    let report = "Shows the zones of the drive after the replies, as --zones of run does";
    let command = Command::new(alloc, "fresh")
        .about("Answers the trace on standard input, over a fresh drive in memory")
        .after_help(FRESH_EXAMPLE);
    let command = geometry_options(alloc, command, true)?
        .arg(blocks_option(alloc))?
        .arg(flag(alloc, "report", report))?
        .arg(flag(alloc, "statistics", STATISTICS_HELP))?
        .arg(habit_option(alloc, habits))?;
    stop_options(alloc, command)
}

fn fresh_raw_command<'a>(alloc: Global, habits: &'a [&'a str]) -> Result<Command<'a>, AllocError>
    ensures { IfOk result (λ new. IsCommand (fresh_raw habits.entry) new) }
{
    let command = Command::new(alloc, "fresh-raw")
        .about("Submits the raw entries on standard input to a fresh drive in memory")
        .after_help(FRESH_RAW_EXAMPLE);
    geometry_options(alloc, command, true)?.arg(habit_option(alloc, habits))
}

/// Adds a subcommand, if it was made.
fn with_subcommand<'a>(
    command: Command<'a>,
    new: Result<Command<'a>, AllocError>,
) -> Result<Command<'a>, AllocError>
    ensures { (shape : Shape) → IfOk new.entry (IsCommand shape) → IfOk result (AddsSubcommand shape command.entry) }
{
    command.subcommand(new?)
}

/// The words that the program takes.
pub fn program<'a>(alloc: Global, habits: &'a [&'a str]) -> Result<Command<'a>, AllocError>
    ensures { IfOk result (λ new. app_of new ≡ program habits.entry) }
{
    let command = Command::new(alloc, "zonedisk")
        .about("An array of logical blocks above a zoned drive")
        .version(VERSION)
        .subcommand_required(true);
    let command = with_subcommand(command, format_command(alloc))?;
    let command = with_subcommand(command, run_command(alloc, habits))?;
    let command = with_subcommand(command, nbd_command(alloc, habits))?;
    let command = with_subcommand(command, export_command(alloc))?;
    let command = with_subcommand(command, import_command(alloc))?;
    let command = with_subcommand(command, convert_command(alloc))?;
    let command = with_subcommand(command, rescue_command(alloc))?;
    let command = with_subcommand(command, repair_command(alloc))?;
    let command = with_subcommand(command, report_command(alloc))?;
    let command = with_subcommand(command, check_command(alloc))?;
    let command = with_subcommand(command, info_command(alloc))?;
    let command = with_subcommand(command, plan_command(alloc))?;
    let command = with_subcommand(command, nvme_command(alloc, habits))?;
    let command = with_subcommand(command, entry_command(alloc))?;
    let command = with_subcommand(command, fresh_command(alloc, habits))?;
    with_subcommand(command, fresh_raw_command(alloc, habits))
}

/// The subcommand with this name, as its usage shows it, or the whole program where there is none.
pub fn subcommand_named<'a>(
    alloc: Global,
    habits: &'a [&'a str],
    name: &str,
) -> Result<Command<'a>, AllocError> {
    let command = match name {
        "format" => format_command(alloc)?,
        "run" => run_command(alloc, habits)?,
        "nbd" => nbd_command(alloc, habits)?,
        "export" => export_command(alloc)?,
        "import" => import_command(alloc)?,
        "convert" => convert_command(alloc)?,
        "rescue" => rescue_command(alloc)?,
        "repair" => repair_command(alloc)?,
        "report" => report_command(alloc)?,
        "check" => check_command(alloc)?,
        "info" => info_command(alloc)?,
        "plan" => plan_command(alloc)?,
        "nvme" => nvme_command(alloc, habits)?,
        "entry" => entry_command(alloc)?,
        "fresh" => fresh_command(alloc, habits)?,
        "fresh-raw" => fresh_raw_command(alloc, habits)?,
        _ => return program(alloc, habits),
    };
    let whole = format!(in alloc; "zonedisk {name}")?;
    command.bin_name(&whole)
}
