// What people are told of words that are no task.

ghost use Rattle.std.specs.Prelude.{◌≡◌, ◌≢◌, IfOk};
ghost use Rattle.clap.specs.Values.{kind_of};
ghost use Rattle.asked_tasks.specs.declared.words.WordFault.TheVariants.{Memory};

use crate::words::{WordFault, given};
use clap::error::ErrorKind;
use clap::{ArgMatches, Error};
use command_line::{HABITS, subcommand_named};
use std::alloc::{AllocError, Global};

/// How many bytes of a value are shown.
const SHOWN_BYTES: usize = 60;

const STATES: &str = "Empty, ImplicitlyOpened, ExplicitlyOpened, Closed, ReadOnly, Full, Offline";

const COMMANDS: &str = "append, read, write, flush, close, finish, open, reset, offline, report";

const DIGITS: &str = "a whole number, as 4096";

/// What the library that reads the words says of a value that is no number, of an empty one, and of one with too many
/// digits.
const NO_DIGITS: &str = "invalid digit found in string";

const EMPTY: &str = "cannot parse integer from empty string";

const TOO_LARGE: &str = "number too large to fit in target type";

const SIZE: &str = "a number, then K, M, G or T, or none of them";

const PAIRS: &str = "pairs of hexadecimal digits";

const NO_DRIVE: &str =
    "the drive is not named: '--image' names one in a file, and '--device' a real one";

const SHAPE_NEEDS: &str = "a drive in a file has a shape, by all of \
    '--block', '--zones', '--size', '--capacity', '--transfer', '--active' and '--open'";

const PLAN_NEEDS: &str =
    "a plan is for a drive in a file, by '--image', or for one of a shape, by all of \
    '--block', '--zones', '--size', '--capacity', '--transfer', '--active' and '--open'; \
    '--bytes' shows a shape";

/// The subcommand that was named, with its words.
#[derive(Clone, Copy)]
struct Asked<'m, 'a> {
    alloc: Global,
    name: &'m str,
    words: &'m ArgMatches<'a>,
}

impl Asked<'_, '_> {
    /// An error of the subcommand, with its usage.
    fn refused(self, kind: ErrorKind, text: &str) -> Result<Error, AllocError> {
        subcommand_named(self.alloc, HABITS.as_slice(), self.name)?.error(kind, text)
    }

    /// The value that an option was given, or its beginning.
    fn shown(self, option: &str) -> Result<String, AllocError> {
        let value = given(self.words, option).unwrap_or("");
        match value.get(..SHOWN_BYTES) {
            Some(front) if value.len() > SHOWN_BYTES => format!(in self.alloc; "'{front}..'"),
            _ => format!(in self.alloc; "'{value}'"),
        }
    }

    /// That an option was given a value that is not what it takes.
    fn wrong_value(self, option: &str, wanted: &str) -> Result<Error, AllocError> {
        let value = self.shown(option)?;
        let text = format!(in self.alloc; "invalid value {value} for '--{option}': {wanted}")?;
        self.refused(ErrorKind::ValueValidation, &text)
    }

    /// That an option was given a value which is none of these.
    fn other_value(self, option: &str, place: &str, values: &str) -> Result<Error, AllocError> {
        let value = self.shown(option)?;
        let text = format!(in self.alloc;
            "invalid value {value} for '{place}'\n  [possible values: {values}]"
        )?;
        self.refused(ErrorKind::ValueValidation, &text)
    }

    /// That an option was not given, and what has to be given.
    fn lacks(self, option: &str) -> Result<Error, AllocError> {
        let needs = match self.name {
            "plan" => PLAN_NEEDS,
            _ => SHAPE_NEEDS,
        };
        let text = format!(in self.alloc; "the option '--{option}' is not given: {needs}")?;
        self.refused(ErrorKind::MissingRequiredArgument, &text)
    }

    /// That two options are not taken together.
    fn has_both(self, one: &str, other: &str) -> Result<Error, AllocError> {
        let text = format!(in self.alloc; "the option '--{one}' cannot be used with '--{other}'")?;
        self.refused(ErrorKind::ArgumentConflict, &text)
    }

    /// That an option was given without another, which it belongs to.
    fn needs(self, one: &str, other: &str) -> Result<Error, AllocError> {
        let text = format!(in self.alloc;
            "the option '--{one}' belongs to '--{other}', which is not given"
        )?;
        self.refused(ErrorKind::MissingRequiredArgument, &text)
    }
}

/// A refusal by the library that reads the words. A value that is no number is told as all others are told here.
pub fn in_own_words(alloc: Global, words: &[String], error: Error) -> Result<Error, AllocError>
    ensures { IfOk result (λ own. kind_of own ≡ kind_of error) }
{
    let text = format!(in alloc; "{error}")?;
    let cut = text
        .split_once(NO_DIGITS)
        .or(text.split_once(EMPTY))
        .or(text.split_once(TOO_LARGE));
    let Some((front, _)) = cut else {
        return Ok(error);
    };
    let name = words.get(1).map_or("", |word| word.as_str());
    let value = front.trim_start_matches("error: ");
    let told = format!(in alloc; "{value}{DIGITS}")?;
    subcommand_named(alloc, HABITS.as_slice(), name)?.error(error.kind(), &told)
}

/// What was asked by these words.
fn words_asked<'m, 'a>(alloc: Global, matches: &'m ArgMatches<'a>) -> Asked<'m, 'a> {
    let (name, words) = matches.subcommand().unwrap_or(("", matches));
    Asked { alloc, name, words }
}

/// The text to show of a refusal, with the usage of the subcommand. There is none where memory ran out.
pub fn refusal(
    alloc: Global,
    matches: &ArgMatches<'_>,
    fault: WordFault,
) -> Result<Error, AllocError>
    ensures { IfOk result (λ _. fault ≢ Memory) }
{
    let asked = words_asked(alloc, matches);
    match fault {
        WordFault::Missing => asked.refused(
            ErrorKind::MissingSubcommand,
            "a subcommand or an option is wanted",
        ),
        WordFault::NoDrive => asked.refused(ErrorKind::MissingRequiredArgument, NO_DRIVE),
        WordFault::Lacks(option) => asked.lacks(option),
        WordFault::Digits(option) => asked.wrong_value(option, DIGITS),
        WordFault::Size => asked.wrong_value("bytes", SIZE),
        WordFault::State => asked.other_value("state", "--state", STATES),
        WordFault::Command => asked.other_value("command", "<COMMAND>", COMMANDS),
        WordFault::Bytes => asked.wrong_value("data", PAIRS),
        WordFault::Both(one, other) => asked.has_both(one, other),
        WordFault::Needs(one, other) => asked.needs(one, other),
        WordFault::Memory => Err(AllocError),
    }
}
