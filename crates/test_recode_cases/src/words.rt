//! Words of the command line, and lines of the log.

use anyhow::{Context, bail, ensure};
use recode_log::line::LogLine;
use recode_words::{Request, WordsFault, parse_words};
use std::alloc::Global;
use test_case_lines::report::Report;
use test_case_lines::words::{decimal, unescaped};

// Returns as a text what the words after the program's name ask for. One space stands between two
// words.
fn answer(alloc: Global, line: &str) -> anyhow::Result<String> {
    let mut words = Vec::new(alloc);
    words.push("recode")?;
    if !line.is_empty() {
        for word in line.split(' ') {
            words.push(word)?;
        }
    }
    ensure!(!words.is_empty(), "no words are there");
    Ok(match parse_words(alloc, words.as_slice()) {
        Ok(Request::Run(words)) => format!(in alloc; "{words:?}")?,
        Ok(Request::Help(text)) => format!(in alloc; "help {text}")?,
        Ok(Request::Version(text)) => format!(in alloc; "version {text}")?,
        Ok(Request::List) => String::from_str(alloc, "list")?,
        Err(WordsFault::Refused(text)) => text,
        Err(WordsFault::OutOfMemory) => String::from_str(alloc, "out of memory")?,
    })
}

// Splits a line at `form` into the words and the text after it.
pub(crate) fn parts<'a>(words: &'a str, form: &str) -> anyhow::Result<(&'a str, &'a str)> {
    let (line, told) = words.split_once(form).context("a line has no answer")?;
    Ok((
        line.strip_suffix(' ').unwrap_or(line),
        told.strip_prefix(' ').unwrap_or(told),
    ))
}

// Checks words such as `--list => list`: what the first words ask for.
pub(crate) fn check_words(
    rt: &(impl Print + AllocGlobal),
    words: &str,
    report: &mut Report,
) -> anyhow::Result<()> {
    let (line, told) = parts(words, "=>")?;
    let given = answer(rt.alloc(), line)?;
    if given.as_bytes() != unescaped(rt.alloc(), told)?.as_slice() {
        let what = format!(in rt.alloc(); "{:?}", given.as_str())?;
        report.differs(rt, what.as_str())?;
    }
    Ok(())
}

// Checks words such as `--help => \nUsage: recode`: the answer has this somewhere, and has no line
// of more than 100 characters.
pub(crate) fn check_part(
    rt: &(impl Print + AllocGlobal),
    words: &str,
    report: &mut Report,
) -> anyhow::Result<()> {
    let (line, told) = parts(words, "=>")?;
    let given = answer(rt.alloc(), line)?;
    let part = unescaped(rt.alloc(), told)?;
    let part = std::str::from_utf8(part.as_slice())
        .ok()
        .context("a part is no text")?;
    if !given.as_str().contains(part) {
        report.differs(rt, "the answer does not have this")?;
    }
    if given.as_str().lines().any(|row| row.len() > 100) {
        report.differs(rt, "the answer has a long line")?;
    }
    Ok(())
}

// Returns the line of the log that words such as `bad 6 1` or `lost 1 128169` give.
fn line_of(words: &str) -> anyhow::Result<LogLine> {
    let mut words = words.split_whitespace();
    let form = words.next().unwrap_or("");
    let first = decimal(words.next().unwrap_or(""))? as u64;
    let second = decimal(words.next().unwrap_or(""))?;
    match form {
        "bad" => Ok(LogLine::Bad {
            offset: first,
            length: u8::try_from(second).ok().context("a length is too large")?,
        }),
        "lost" => Ok(LogLine::Lost {
            index: first,
            scalar: u32::try_from(second)
                .ok()
                .and_then(char::from_u32)
                .context("a number is not a character's")?,
        }),
        _ => bail!("a form of a line is not known"),
    }
}

// Checks words such as `bad 6 1`: the line is valid, is written as these words and the end of a
// line, and is read back.
pub(crate) fn check_line(
    rt: &(impl Print + AllocGlobal),
    words: &str,
    report: &mut Report,
) -> anyhow::Result<()> {
    let line = line_of(words)?;
    if !line.is_valid() {
        return report.differs(rt, "the line is not valid");
    }
    let mut room = [b'#'; 32];
    let len = line.write_into(&mut room);
    let (written, behind) = room.split_at(len);
    if written.strip_suffix(b"\n") != Some(words.as_bytes()) {
        let what = format!(in rt.alloc(); "{written:?} is written")?;
        report.differs(rt, what.as_str())?;
    }
    if !behind.iter().all(|byte| *byte == b'#') {
        report.differs(rt, "what stands behind the line changes")?;
    }
    if LogLine::parse(written) != Some(line) {
        report.differs(rt, "the line is not read back")?;
    }
    Ok(())
}

// Checks words such as `bad 0 0`: the line is not valid.
pub(crate) fn check_invalid(
    rt: &(impl Print + AllocGlobal),
    words: &str,
    report: &mut Report,
) -> anyhow::Result<()> {
    if line_of(words)?.is_valid() {
        report.differs(rt, "the line is valid")?;
    }
    Ok(())
}

// Checks that a text is not read as a line of the log.
pub(crate) fn check_refused(
    rt: &(impl Print + AllocGlobal),
    words: &str,
    report: &mut Report,
) -> anyhow::Result<()> {
    let text = unescaped(rt.alloc(), words)?;
    if LogLine::parse(text.as_slice()).is_some() {
        report.differs(rt, "the text is read as a line")?;
    }
    Ok(())
}
