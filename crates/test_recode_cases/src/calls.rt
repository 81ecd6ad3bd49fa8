//! Calls of the program.

use crate::files::{File, Files};
use anyhow::{Context, bail, ensure};
use recode::program;
use recode_log::counted::Counted;
use std::alloc::Global;
use std::io::ErrorKind;
use test_case_lines::report::Report;
use test_case_lines::words::{decimal, unescaped};
use test_recode_trials::sink::{Failure, Manners, Sink, WILLING};
use test_recode_trials::source::{Reads, Source};
use test_recode_trials::tape::{Device, Tape};

// A call, and what must come of it.
#[derive(Drop)]
struct Call<'a> {
    // The words after the program's name, with one space between two.
    line: &'a str,
    dir: &'a str,
    files: Vec<File<'a>>,
    is_full: bool,
    input: Vec<u8>,
    writer: Manners,
    log_manners: Manners,
    status: u8,
    output: Vec<u8>,
    // What must stand somewhere in the output, if the rest is left open. `log_part` is this for the
    // log.
    output_part: Vec<u8>,
    log: Vec<u8>,
    log_part: Vec<u8>,
    is_output_whole: bool,
    is_log_whole: bool,
    // How many files must be asked for.
    asked: usize,
    // Whether the input must be read.
    is_read: bool,
    // How many bytes each read must have room for, if a line says it.
    room: Option<usize>,
}

// Reads words such as `1 8 error` or `1 2 nothing`: how many bytes a call of a writer takes at
// most, which call fails, and how it fails.
fn manners_of(words: &str) -> anyhow::Result<Manners> {
    let (most, rest) = words.split_once(' ').context("a number is missing")?;
    let (fails_at, how) = rest.split_once(' ').context("a word is missing")?;
    Ok(Manners {
        most: decimal(most)?,
        fails_at: decimal(fails_at)?,
        failure: match how {
            "error" => Failure::Error(ErrorKind::BrokenPipe),
            "nothing" => Failure::Nothing,
            _ => bail!("a failure is not known"),
        },
        flush_fails: false,
    })
}

impl<'a> Call<'a> {
    fn of(alloc: Global, words: &'a str) -> anyhow::Result<Call<'a>> {
        let mut items = words.split(" | ");
        let mut call = Call {
            line: items.next().unwrap_or(""),
            dir: ".",
            files: Vec::new(alloc),
            is_full: false,
            input: Vec::new(alloc),
            writer: WILLING,
            log_manners: WILLING,
            status: 0,
            output: Vec::new(alloc),
            output_part: Vec::new(alloc),
            log: Vec::new(alloc),
            log_part: Vec::new(alloc),
            is_output_whole: true,
            is_log_whole: true,
            asked: 0,
            is_read: true,
            room: None,
        };
        for item in items {
            call.take(alloc, item)?;
        }
        Ok(call)
    }

    fn take(&mut self, alloc: Global, item: &'a str) -> anyhow::Result<()> {
        let (word, rest) = item.split_once(' ').unwrap_or((item, ""));
        match word {
            "input" => self.input = unescaped(alloc, rest)?,
            "output" => self.output = unescaped(alloc, rest)?,
            "log" => self.log = unescaped(alloc, rest)?,
            "output-has" => {
                self.output_part = unescaped(alloc, rest)?;
                self.is_output_whole = false;
            }
            "log-has" => {
                self.log_part = unescaped(alloc, rest)?;
                self.is_log_whole = false;
            }
            "status" => {
                self.status = u8::try_from(decimal(rest)?)
                    .ok()
                    .context("a status is too large")?
            }
            "asked" => self.asked = decimal(rest)?,
            "dir" => self.dir = rest,
            "file" => {
                let (name, text) = rest.split_once(' ').unwrap_or((rest, ""));
                let text = unescaped(alloc, text)?;
                self.files.push(File { name, text })?;
            }
            "full" => self.is_full = true,
            "unread" => self.is_read = false,
            "room" => self.room = Some(decimal(rest)?),
            "writer" => self.writer = manners_of(rest)?,
            "log-writer" => self.log_manners = manners_of(rest)?,
            _ => bail!("what is said of a call is not known"),
        }
        Ok(())
    }
}

// What came of a call.
#[derive(Drop)]
struct Outcome {
    status: u8,
    output: Vec<u8>,
    log: Vec<u8>,
    asked: usize,
    reads: usize,
    // Whether each read had the room that the line gives.
    has_room: bool,
}

fn call_program(alloc: Global, call: &Call<'_>) -> anyhow::Result<Outcome> {
    let mut words = Vec::new(alloc);
    words.push("recode")?;
    for word in call.line.split(' ') {
        words.push(word)?;
    }
    ensure!(!words.is_empty(), "no words are there");
    let mut source = Files {
        dir: call.dir,
        files: call.files.as_slice(),
        is_full: call.is_full,
        asked: 0,
    };
    let tape = Tape::new(alloc);
    let (reads, kind) = (Reads::CutAt(0), ErrorKind::BrokenPipe);
    let mut reader = Counted::new(Source::new(call.input.as_slice(), reads, 0, kind, &tape));
    let mut writer = Counted::new(Sink::new(alloc, call.writer, Device::Writer, &tape));
    let mut log = Counted::new(Sink::new(alloc, call.log_manners, Device::Log, &tape));
    let status = program(
        alloc,
        words.as_slice(),
        &mut source,
        &mut reader,
        &mut writer,
        &mut log,
    );
    let has_room = match call.room {
        Some(room) => reader.get_ref().has_room(room),
        None => true,
    };
    Ok(Outcome {
        status,
        output: writer.into_inner().taken,
        log: log.into_inner().taken,
        asked: source.asked,
        reads: reader.get_ref().calls(),
        has_room,
    })
}

// Returns whether the bytes are the expected ones. If only a part is expected, returns whether they
// have this part.
fn is_told(bytes: &[u8], is_whole: bool, whole: &[u8], part: &[u8]) -> bool {
    if is_whole {
        return bytes == whole;
    }
    match (std::str::from_utf8(bytes), std::str::from_utf8(part)) {
        (Ok(text), Ok(part)) => text.contains(part),
        _ => false,
    }
}

// Checks words such as `--from utf-8 --to utf-8 | input a | output a`: a call of the program, and
// what must come of it.
pub(crate) fn check_call(
    rt: &(impl Print + AllocGlobal),
    words: &str,
    report: &mut Report,
) -> anyhow::Result<()> {
    let alloc = rt.alloc();
    let call = Call::of(alloc, words)?;
    let given = call_program(alloc, &call)?;
    let output = given.output.as_slice();
    if !is_told(
        output,
        call.is_output_whole,
        call.output.as_slice(),
        call.output_part.as_slice(),
    ) {
        let what = format!(in alloc; "the output is {output:?}")?;
        report.differs(rt, what.as_str())?;
    }
    let log = given.log.as_slice();
    if !is_told(
        log,
        call.is_log_whole,
        call.log.as_slice(),
        call.log_part.as_slice(),
    ) {
        let what = format!(in alloc; "the log is {log:?}")?;
        report.differs(rt, what.as_str())?;
    }
    let (status, asked, reads) = (given.status, given.asked, given.reads);
    if status != call.status || asked != call.asked || (reads > 0) != call.is_read {
        let what = format!(in alloc; "status {status}, {asked} files, {reads} reads")?;
        report.differs(rt, what.as_str())?;
    }
    if !given.has_room {
        report.differs(rt, "a read has another room")?;
    }
    Ok(())
}
