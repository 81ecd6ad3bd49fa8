//! What the words of a command line ask for, or why they are refused.

ghost use Rattle.std.specs.Prelude.{◌≡◌, ◌<◌, IfErr, IfOk, length, map, string_bytes};
ghost use Rattle.recode_words.specs.Given.{IsEndOf};
ghost use Rattle.recode_words.specs.Request.{AsksFor, HasGoodLimit, IsFaultOf, IsLine, asks_list};

use crate::command::command;
use crate::values::{Values, WrongValue};
use crate::words::Words;
use clap::Command;
use clap::error::ErrorKind;
use std::alloc::{AllocError, Global};
use thiserror::Error;

/// What the words of the command line ask for.
#[derive(Debug, Drop)]
pub enum Request<'a> {
    /// To convert.
    Run(Words<'a>),
    /// `--help` or `-h`: to print this text, which describes all options and the exit statuses.
    Help(String),
    /// `--version` or `-V`: to print this text, the program's name and `VERSION`.
    Version(String),
    /// `--list`: to print the encodings and their labels.
    List,
}

/// Why the words of the command line ask for nothing. `Display` shows the text, or `out of memory`.
#[derive(Debug, Drop, PartialEq, Eq, Error)]
pub enum WordsFault {
    /// The words are refused, for the reason that this text gives. The text is clap's, ends with a
    /// line feed, and shows the usage.
    #[error("{0}")]
    Refused(String),
    /// Memory was refused.
    #[error("out of memory")]
    OutOfMemory,
}

impl From<AllocError> for WordsFault {
    ghost use Rattle.recode_words.specs.declared.request.WordsFault.TheVariants.{OutOfMemory};

    ghost from_gives = { λ _ fault. fault ≡ OutOfMemory };

    fn from(_error: AllocError) -> WordsFault {
        WordsFault::OutOfMemory
    }
}

// The text of a parse that ended early, with a line feed at its end.
fn text_of(alloc: Global, error: &clap::Error) -> Result<String, AllocError>
    ensures { IfOk result (λ text. IsLine (string_bytes text)) }
{
    let mut text = format!(in alloc; "{error}")?;
    if text.as_bytes().ends_with(b"\n") {
        return Ok(text);
    }
    text.push_str("\n")?;
    Ok(text)
}

// Whether one of the words after the program's name is `--list`.
fn has_list(words: &[&str]) -> bool
    requires { 0 < length words.now }
    ensures { result ≡ asks_list (map (λ s. s.now) words.now) }
{
    words[1..].contains(&"--list")
}

// What a parse that ended early returns.
fn early_answer<'a>(
    alloc: Global,
    error: &clap::Error,
    words: &'a [&'a str],
) -> Result<Request<'a>, WordsFault>
    requires named { 0 < length words.now }
    requires end { IsEndOf (map (λ s. s.now) words.now) error.now }
    ensures ok { IfOk result (AsksFor (map (λ s. s.now) words.now)) }
    ensures err { IfErr result (IsFaultOf (map (λ s. s.now) words.now)) }
{
    match error.kind() {
        ErrorKind::OutOfMemory => Err(WordsFault::OutOfMemory),
        ErrorKind::DisplayHelp => Ok(Request::Help(text_of(alloc, error)?)),
        ErrorKind::DisplayVersion if has_list(words) => Ok(Request::List),
        ErrorKind::DisplayVersion => Ok(Request::Version(text_of(alloc, error)?)),
        _ => Err(WordsFault::Refused(text_of(alloc, error)?)),
    }
}

// The refusal of a value, in the form of clap's own.
fn refusal(
    alloc: Global,
    command: &mut Command<'_>,
    wrong: WrongValue<'_>,
) -> Result<String, AllocError>
    ensures { IfOk result (λ text. IsLine (string_bytes text)) }
{
    let WrongValue {
        option,
        value,
        possible,
    } = wrong;
    let message = format!(in alloc;
        "invalid value '{value}' for '{option}'\n  [possible values: {possible}]"
    )?;
    let error = command.error(ErrorKind::InvalidValue, message.as_str())?;
    text_of(alloc, &error)
}

/// What the words of the command line ask for, the program's name first: `recode --from LABEL --to
/// LABEL [--indexes DIR] [--mark sniff|remove|keep] [--unmappable decimal|hexadecimal|stop]
/// [--pivot utf8|utf16] [--limit N]`, or `--help`, `--version` or `--list`. One of these three is
/// the result unless a word before it is refused. With both `--version` and `--list` the result is
/// the list.
///
/// The defaults are `.`, `sniff`, `decimal`, `utf8` and 2^48, which is also the greatest N; N is
/// decimal digits with no sign. These are refused: an option that is given twice, one with no
/// value, an unknown one, and a word that is no option. An empty label or folder is a value like
/// any other.
///
/// The error is `Refused` with a text for the log, or `OutOfMemory`. The condition, that there is
/// at least one word, is tested by `is_empty`.
pub fn parse_words<'a>(alloc: Global, words: &'a [&'a str]) -> Result<Request<'a>, WordsFault>
    requires { 0 < length words.now }
    ensures ok { IfOk result (AsksFor (map (λ s. s.now) words.now)) }
    ensures limit { IfOk result HasGoodLimit }
    ensures err { IfErr result (IsFaultOf (map (λ s. s.now) words.now)) }
{
    let mut command = command(alloc)?;
    match Values::from_words(&mut command, words) {
        Ok(values) => match values.read() {
            Ok(words) => Ok(Request::Run(words)),
            Err(wrong) => Err(WordsFault::Refused(refusal(alloc, &mut command, wrong)?)),
        },
        Err(error) => early_answer(alloc, &error, words),
    }
}
