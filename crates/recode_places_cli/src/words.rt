//! What the words of a command line ask for, or why they are refused.

use crate::command::command;
use clap::error::ErrorKind;
use clap::{ArgMatches, Command};
use encoding_front::Mark;
use std::alloc::{AllocError, Global};

// What is to be printed of which input.
#[derive(Clone, Copy, Debug)]
pub(crate) struct Words<'a> {
    pub(crate) input: &'a str,
    pub(crate) from: &'a str,
    pub(crate) to: &'a str,
    pub(crate) indexes: &'a str,
    pub(crate) mark: Mark,
    pub(crate) has_folds: bool,
    pub(crate) has_log: bool,
    pub(crate) most: u64,
    pub(crate) is_count: bool,
}

// What the words of the command line ask for.
#[derive(Debug, Drop)]
pub(crate) enum Request<'a> {
    Tell(Words<'a>),
    // To print this text: the help or the version.
    Print(String),
    // The words are refused, for the reason that this text gives.
    Refuse(String),
}

// A value that its option does not take.
#[derive(Clone, Copy)]
struct WrongValue<'a> {
    // The option, as the help shows it.
    option: &'static str,
    value: &'a str,
    // What the option takes.
    possible: &'static str,
}

// The mark mode whose word this is.
fn mark_from(name: &str) -> Option<Mark> {
    match name {
        "sniff" => Some(Mark::Sniff),
        "remove" => Some(Mark::Remove),
        "keep" => Some(Mark::Keep),
        _ => None,
    }
}

// The number that the text stands for: decimal digits with no sign.
fn number_from(text: &str) -> Option<u64> {
    if text.starts_with('+') {
        return None;
    }
    text.parse::<u64>().ok()
}

// The values of the words, or the first that its option does not take.
fn read<'a>(matches: &ArgMatches<'a>) -> Result<Words<'a>, WrongValue<'a>> {
    let mark_name = matches.get_str("mark").unwrap_or("");
    let Some(mark) = mark_from(mark_name) else {
        return Err(WrongValue {
            option: "--mark <MODE>",
            value: mark_name,
            possible: "sniff, remove, keep",
        });
    };
    let digits = matches.get_str("most").unwrap_or("");
    let Some(most) = number_from(digits) else {
        return Err(WrongValue {
            option: "--most <N>",
            value: digits,
            possible: "0 to 18446744073709551615, in decimal digits",
        });
    };
    Ok(Words {
        input: matches.get_str("INPUT").unwrap_or(""),
        from: matches.get_str("from").unwrap_or(""),
        to: matches.get_str("to").unwrap_or(""),
        indexes: matches.get_str("indexes").unwrap_or(""),
        mark,
        has_folds: matches.get_flag("folds"),
        has_log: !matches.get_flag("no-log"),
        most,
        is_count: matches.get_flag("count"),
    })
}

// A text of clap's, with a line feed at its end.
fn text_of(alloc: Global, error: &clap::Error) -> Result<String, AllocError> {
    let mut text = format!(in alloc; "{error}")?;
    if !text.as_bytes().ends_with(b"\n") {
        text.push_str("\n")?;
    }
    Ok(text)
}

// The refusal of a value, in the form of clap's own.
fn refusal(
    alloc: Global,
    command: &mut Command<'_>,
    wrong: WrongValue<'_>,
) -> Result<String, AllocError> {
    let message = format!(in alloc;
        "invalid value '{}' for '{}'\n  [possible values: {}]",
        wrong.value, wrong.option, wrong.possible
    )?;
    let error = command.error(ErrorKind::InvalidValue, message.as_str())?;
    text_of(alloc, &error)
}

// What the words ask for, the program's name first. The error is that memory was refused.
pub(crate) fn parse<'a>(alloc: Global, words: &'a [&'a str]) -> Result<Request<'a>, AllocError> {
    let mut command = command(alloc)?;
    let error = match command.try_get_matches_from_mut(words) {
        Ok(matches) => {
            return Ok(match read(&matches) {
                Ok(words) => Request::Tell(words),
                Err(wrong) => Request::Refuse(refusal(alloc, &mut command, wrong)?),
            });
        }
        Err(error) => error,
    };
    let text = text_of(alloc, &error)?;
    match error.kind() {
        ErrorKind::OutOfMemory => Err(AllocError),
        ErrorKind::DisplayHelp | ErrorKind::DisplayVersion => Ok(Request::Print(text)),
        _ => Ok(Request::Refuse(text)),
    }
}
