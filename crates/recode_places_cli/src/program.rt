//! The program over any files and streams: words, labels, indexes, and then the places.

ghost use Rattle.std.specs.Prelude.{◌≡◌, ◌≤◌};
ghost use Rattle.encoding_front.specs.Encodings.{IsReady};

use crate::fault::Fault;
use crate::log::Log;
use crate::words::{Request, Words, parse};
use encoding_front::Encoding;
use encoding_tables::Tables;
use recode::load_indexes;
use recode_places::{Choice, Fates, LogMatch, Reading, Stop, tell_places};
use recode_places_report::{Counts, Report, shown};
use recode_system::{CommandLine, SystemFiles, Wordless};
use std::alloc::{AllocError, Global};
use std::fs;
use std::io::{BufWriter, Read, Write};
use std::rt::Files;

// The standard streams: the log on standard input, what is printed on standard output.
#[derive(Drop)]
pub(crate) struct Streams<L, W, M> {
    pub(crate) log: L,
    pub(crate) output: W,
    pub(crate) messages: M,
    // Whether the output takes codes of colour.
    pub(crate) has_colour: bool,
}

// What is printed, of which input, and where to.
#[derive(Drop)]
struct Job<'a, R, W: Write + Drop> {
    alloc: Global,
    words: Words<'a>,
    from: Encoding,
    to: Encoding,
    input: R,
    output: BufWriter<W>,
    has_colour: bool,
}

impl<'a, R: Read + Drop, W: Write + Drop> Job<'a, R, W> {
    fn reading<'t>(&self, tables: &'t Tables) -> Reading<'t>
        ensures from { result.from ≡ self.now.from }
        ensures tables { result.tables ≡ tables.entry }
    {
        Reading {
            from: self.from,
            mark: self.words.mark,
            tables,
        }
    }

    // Shows the places, and returns whether there are any.
    fn show<L: Read>(self, tables: &Tables, choice: &mut Choice<'_, L>) -> Result<bool, Fault>
        requires { IsReady tables.now self.from }
    {
        let reading = self.reading(tables);
        let Job {
            alloc,
            words,
            to,
            mut input,
            output,
            has_colour,
            ..
        } = self;
        let mut report = Report::new(alloc, output, words.input, to, words.most)?;
        if has_colour {
            report = report.coloured();
        }
        let told = tell_places(&mut input, reading, choice, &mut report);
        match told {
            Ok(()) => report.finish()?,
            // After a place that could not be shown, none is: a later one would stand alone.
            Err(Stop::Memory | Stop::Write) => {}
            Err(_) => report.cut_short()?,
        }
        told?;
        Ok(report.count() > 0)
    }

    // Shows what is lost and how often, and returns whether anything is.
    fn count<L: Read>(self, tables: &Tables, choice: &mut Choice<'_, L>) -> Result<bool, Fault>
        requires { IsReady tables.now self.from }
    {
        let reading = self.reading(tables);
        let Job {
            alloc,
            to,
            mut input,
            mut output,
            ..
        } = self;
        let mut counts = Counts::new(alloc, to);
        tell_places(&mut input, reading, choice, &mut counts)?;
        counts.write(&mut output)?;
        Ok(!counts.is_empty())
    }

    fn tell<L: Read>(self, tables: &Tables, choice: &mut Choice<'_, L>) -> Result<bool, Fault>
        requires { IsReady tables.now self.from }
    {
        if self.words.is_count {
            self.count(tables, choice)
        } else {
            self.show(tables, choice)
        }
    }
}

// The encoding of a label.
fn encoding_of(alloc: Global, label: &str) -> Result<Encoding, Fault> {
    match Encoding::for_label(label.as_bytes()) {
        Some(encoding) => Ok(encoding),
        None => Err(Fault::Label(shown(alloc, label)?)),
    }
}

// Prints what the words ask for, and returns whether there was anything to print.
fn run<F: Files, L: Read + Drop, W: Write + Drop>(
    alloc: Global,
    words: Words<'_>,
    files: &F,
    log: L,
    output: W,
    has_colour: bool,
) -> Result<bool, Fault> {
    let from = encoding_of(alloc, words.from)?;
    let to = encoding_of(alloc, words.to)?;
    let mut tables = Tables::new(alloc);
    let mut indexes = SystemFiles::new(files);
    load_indexes(alloc, &mut indexes, words.indexes, from, &mut tables)?;
    // The log is read before the input is opened, which would take the place of a standard input
    // that is closed.
    let log = if words.has_log {
        Some(LogMatch::new(log)?)
    } else {
        None
    };
    let Ok(input) = fs::open(files, words.input) else {
        return Err(Fault::Input(shown(alloc, words.input)?));
    };
    let Ok(output) = BufWriter::new(alloc, output) else {
        return Err(Fault::Memory);
    };
    let job = Job {
        alloc,
        words,
        from,
        to,
        input,
        output,
        has_colour,
    };
    let log = match log {
        Some(log) if !words.has_folds => return job.tell(&tables, &mut Choice::of_log(log)),
        log => log,
    };
    load_indexes(
        alloc,
        &mut indexes,
        words.indexes,
        to.output_encoding(),
        &mut tables,
    )?;
    let fates = Fates::new(to, &tables);
    let mut choice = match log {
        Some(log) => Choice::of_log_with_folds(log, fates),
        None => Choice::of_target(fates, words.has_folds),
    };
    job.tell(&tables, &mut choice)
}

// Writes a text for a person. What can't be written is dropped: there is nowhere else to write it.
fn say<W: Write>(writer: &mut W, text: &str) {
    let _ = writer.write_all(text.as_bytes());
    let _ = writer.flush();
}

// Prints why nothing more is printed, and returns the exit status.
fn fail<M: Write>(messages: &mut M, fault: &Fault) -> u8
    ensures { result ≤ 4 }
{
    let _ = writeln!(messages, "recode-places: {fault}");
    fault.status()
}

// Copies the message that ended the log, if one did, says why nothing more is printed, and returns
// the exit status.
fn conclude<L: Read, M: Write>(
    alloc: Global,
    told: Result<bool, Fault>,
    log: &mut Log<L>,
    messages: &mut M,
) -> u8
    ensures { result ≤ 4 }
{
    let message = log.message();
    for line in message.lines() {
        let Ok(text) = shown(alloc, line) else {
            return fail(messages, &Fault::Stop(Stop::Memory));
        };
        let _ = writeln!(messages, "{text}");
    }
    match told {
        Ok(_) if !message.is_empty() => 4,
        Ok(is_any) => u8::from(is_any),
        Err(fault) => fail(messages, &fault),
    }
}

// Does what the words of the command line ask for, and returns the exit status.
pub(crate) fn answer<
    S: CommandLine + AllocGlobal + Files,
    L: Read + Drop,
    W: Write + Drop,
    M: Write + Drop,
>(system: &S, streams: Streams<L, W, M>) -> u8
    ensures { result ≤ 4 }
{
    let Streams {
        log,
        mut output,
        mut messages,
        has_colour,
    } = streams;
    let alloc = system.alloc();
    let owned = match system.words(alloc) {
        Ok(owned) => owned,
        Err(Wordless::NotUtf8) => return fail(&mut messages, &Fault::Words),
        Err(Wordless::Memory) => return fail(&mut messages, &Fault::Memory),
    };
    let slices: Result<Vec<&str>, AllocError> = owned
        .iter()
        .map(|word| word.as_str())
        .collect(alloc);
    let Ok(slices) = slices else {
        return fail(&mut messages, &Fault::Memory);
    };
    match parse(alloc, slices.as_slice()) {
        Ok(Request::Tell(words)) => {
            let mut log = Log::new(log);
            let told = run(alloc, words, system, &mut log, output, has_colour);
            conclude(alloc, told, &mut log, &mut messages)
        }
        Ok(Request::Print(text)) => {
            say(&mut output, text.as_str());
            0
        }
        Ok(Request::Refuse(text)) => {
            say(&mut messages, text.as_str());
            2
        }
        Err(_) => fail(&mut messages, &Fault::Memory),
    }
}
