//! The program over any devices and index files: arguments, labels, indexes, then a conversion.

ghost use Rattle.std.specs.Prelude.{◌≡◌, ◌⊎◌, ◌≤◌, ◌<◌, ◌^◌, ◌-◌, IfOk, OnOk, length, map};
ghost use Rattle.std.specs.Prelude.{string_bytes};
ghost use Rattle.encoding_front.specs.Encodings.{IsReady, output_encoding_of};
ghost use Rattle.recode_log.specs.Counted.{failures_of};
ghost use Rattle.recode_log.specs.Ports.{CallsLog, CallsWriter, SameDevices};
ghost use Rattle.recode.specs.Devices.{HaveFailedAtMost, devices_at, devices_in, ports, ports_at};
ghost use Rattle.recode.specs.Job.{IsValidJob};
ghost use Rattle.recode_words.specs.Request.{IsLine};
ghost use Rattle.recode.specs.Program.{AddsFromFiles, AnswersProgram, AnswersWords};
ghost use Rattle.recode.specs.Program.{AskForFiles, NeedAnIndex};
ghost use Rattle.recode.specs.Program.{IsConversionOn, TellsSome, mark_of_word, policy_of_word};

use crate::conversion::{FAITHFUL, convert_on};
use crate::indexes::{IndexSource, StartFault, load_indexes};
use crate::job::{Buffers, Job, Pivot, Policy};
use crate::listing::listing;
use encoding_front::{Encoding, Mark};
use encoding_tables::Tables;
use recode_log::counted::Counted;
use recode_log::ports::Ports;
use recode_words::{
    MarkWord, PivotWord, PolicyWord, Request, ShownWord, Words, WordsFault, parse_words,
};
use std::alloc::{AllocError, Global};
use std::fmt;
use std::io::{Read, Write};
use thiserror::Error;

/// The status if the words are refused, or a label in them is unknown.
pub const REFUSED: u8 = 2;

/// The status if an index file is missing or faulty, or memory was refused before anything was
/// read.
pub const NOT_STARTED: u8 = 3;

// Writes a text that the words ask for.
fn tell_text<R, W: Write, L>(ports: &mut Ports<'_, '_, '_, R, W, L>, text: &str) -> u8
    requires counts { failures_of ports.old.writer.now < 2 ^ 64 - 1 }
    requires line { IsLine text.now }
    ensures status { result ≡ 0 }
    ensures told { TellsSome ports.old.writer.now ports.new.writer.now }
    ensures journal { CallsWriter ports.old ports.new }
{
    ports.tell(text.as_bytes());
    FAITHFUL
}

// Reports why the words are refused.
fn refuse_words<R, W, L: Write>(ports: &mut Ports<'_, '_, '_, R, W, L>, message: &str) -> u8
    requires counts { failures_of ports.old.log.now < 2 ^ 64 - 1 }
    requires line { IsLine message.now }
    ensures status { result ≡ 2 }
    ensures told { TellsSome ports.old.log.now ports.new.log.now }
    ensures journal { CallsLog ports.old ports.new }
{
    ports.tell_log(message.as_bytes());
    REFUSED
}

// The line of the log that reports this.
fn message_line<M: fmt::Display>(alloc: Global, message: &M) -> Result<String, AllocError>
    ensures { IfOk result (λ text. IsLine (string_bytes text)) }
{
    let mut text = format!(in alloc; "recode: {message}")?;
    text.push_str("\n")?;
    Ok(text)
}

// No encoding has the label.
#[derive(Clone, Copy, Debug, Error)]
#[error("unknown label {0}")]
struct UnknownLabel<'a>(ShownWord<'a>);

// Reports which index is not there, or that memory was refused.
fn refuse_start<R, W, L: Write>(
    alloc: Global,
    ports: &mut Ports<'_, '_, '_, R, W, L>,
    fault: &StartFault,
) -> u8
    requires { failures_of ports.old.log.now < 2 ^ 64 - 1 }
    ensures status { result ≡ 3 }
    ensures told { TellsSome ports.old.log.now ports.new.log.now }
    ensures journal { CallsLog ports.old ports.new }
{
    match message_line(alloc, fault) {
        Ok(message) => ports.tell_log(message.as_bytes()),
        Err(_) => ports.tell_log(b"recode: out of memory\n"),
    }
    NOT_STARTED
}

// Reports that no encoding has the label.
fn refuse_label<R, W, L: Write>(
    alloc: Global,
    ports: &mut Ports<'_, '_, '_, R, W, L>,
    label: &str,
) -> u8
    requires { failures_of ports.old.log.now < 2 ^ 64 - 1 }
    ensures status { (result ≡ 2) ⊎ (result ≡ 3) }
    ensures told { TellsSome ports.old.log.now ports.new.log.now }
    ensures journal { CallsLog ports.old ports.new }
{
    match message_line(alloc, &UnknownLabel(ShownWord(label))) {
        Ok(message) => refuse_words(ports, &message),
        Err(_) => refuse_start(alloc, ports, &StartFault::Memory),
    }
}

// What the word for a mark mode says.
fn mark_of(word: MarkWord) -> Mark
    ensures { result ≡ mark_of_word word }
{
    match word {
        MarkWord::Sniff => Mark::Sniff,
        MarkWord::Remove => Mark::Remove,
        MarkWord::Keep => Mark::Keep,
    }
}

// What the word for a policy says.
fn policy_of(word: PolicyWord) -> Policy
    ensures { result ≡ policy_of_word word }
{
    match word {
        PolicyWord::Decimal => Policy::Decimal,
        PolicyWord::Hexadecimal => Policy::Hexadecimal,
        PolicyWord::Stop => Policy::Stop,
    }
}

// The indexes that both encodings need.
fn load_both<S: IndexSource>(
    alloc: Global,
    source: &mut S,
    dir: &str,
    from: Encoding,
    to: Encoding,
    tables: &mut Tables,
) -> Result<(), StartFault>
    ensures from { OnOk result (IsReady tables.new from) }
    ensures to { OnOk result (IsReady tables.new (output_encoding_of to)) }
    ensures once { IsReady tables.old from → IsReady tables.old (output_encoding_of to)
        → source.new ≡ source.old }
    ensures files { AddsFromFiles (S.holds source.old) (S.holds source.new) dir.now tables.old
        tables.new }
{
    load_indexes(alloc, source, dir, from, tables)?;
    load_indexes(alloc, source, dir, to.output_encoding(), tables)
}

// How many elements each buffer of a conversion has.
const BUFFER_SIZE: usize = 4096;

// Converts with text of this form in between.
fn convert_in_buffers<R: Read, W: Write, L: Write>(
    ports: &mut Ports<'_, '_, '_, R, W, L>,
    job: Job<'_>,
    form: PivotWord,
) -> u8
    requires job { IsValidJob job }
    requires counts { HaveFailedAtMost (2 ^ 64 - 5)
        (devices_at ports.old).failures }
    ensures conversion { IsConversionOn R.remaining W.contents L.contents
        (ports_at ports.old) (ports_at ports.new) job.entry
        result }
    ensures same { SameDevices ports.old ports.new }
{
    let mut input = [0; BUFFER_SIZE];
    let mut output = [0; BUFFER_SIZE];
    match form {
        PivotWord::Utf8 => {
            let mut text = [0u8; BUFFER_SIZE];
            let mut again = [0u8; BUFFER_SIZE];
            let pivot = Pivot::Utf8(&mut text);
            let check = Pivot::Utf8(&mut again);
            let mut buffers = Buffers {
                input: &mut input,
                pivot,
                output: &mut output,
                check,
            };
            convert_on(ports, job, &mut buffers)
        }
        PivotWord::Utf16 => {
            let mut text = [0u16; BUFFER_SIZE];
            let mut again = [0u16; BUFFER_SIZE];
            let pivot = Pivot::Utf16(&mut text);
            let check = Pivot::Utf16(&mut again);
            let mut buffers = Buffers {
                input: &mut input,
                pivot,
                output: &mut output,
                check,
            };
            convert_on(ports, job, &mut buffers)
        }
    }
}

// Converts what the words say, if their labels are known and the indexes can be loaded.
fn run_words<S: IndexSource, R: Read, W: Write, L: Write>(
    alloc: Global,
    words: Words<'_>,
    source: &mut S,
    ports: &mut Ports<'_, '_, '_, R, W, L>,
) -> u8
    requires limit { words.limit ≤ 2 ^ 48 }
    requires counts { HaveFailedAtMost (2 ^ 64 - 5)
        (devices_at ports.old).failures }
    ensures answer { AnswersWords (S.holds source.old) R.remaining W.contents L.contents
        (ports_at ports.old) (ports_at ports.new) words.entry
        result }
    ensures source { source.new ≡ source.old ⊎ NeedAnIndex words.entry }
    ensures same { SameDevices ports.old ports.new }
{
    let Some(from) = Encoding::for_label(words.from.as_bytes()) else {
        return refuse_label(alloc, ports, words.from);
    };
    let Some(to) = Encoding::for_label(words.to.as_bytes()) else {
        return refuse_label(alloc, ports, words.to);
    };
    let mut tables = Tables::new(alloc);
    match load_both(alloc, source, words.indexes, from, to, &mut tables) {
        Ok(()) => {}
        Err(fault) => return refuse_start(alloc, ports, &fault),
    }
    tables.accepted();
    let job = Job {
        from,
        to,
        mark: mark_of(words.mark),
        policy: policy_of(words.unmappable),
        limit: words.limit,
        tables: &tables,
    };
    convert_in_buffers(ports, job, words.pivot)
}

/// Does what the words ask for, the program's name first, as `parse_words` of `recode_words` reads
/// them, and returns the exit status. The help, the version and the list of encodings go to the
/// writer, with status 0.
///
/// A run looks up the label of `--from`, then that of `--to`. It reads the index files that the
/// source and then the target's output encoding need, each once, and converts with buffers of 4096
/// elements. The source is called for nothing else: not if neither needs an index, nor without a
/// run. Each index is what its file in the folder of `--indexes` stands for, if the source says
/// what the file holds (`IndexSource`). With `--pivot utf16` the text in between is UTF-16:
/// what is written is the same.
///
/// The statuses 0, 1 and 4 are those of `convert`. Otherwise a message says why nothing was read:
/// - 2 (`REFUSED`): that of `clap`, or `recode: unknown label WORD`, with the word as `ShownWord`
///   of `recode_words` shows it;
/// - 3 (`NOT_STARTED`): `recode: FILE: missing`, `recode: FILE: line N: KIND` with a kind of
///   `IndexFaultKind`, `recode: FILE: table: KIND` with one of `TableFault`, and `recode: out of
///   memory` if memory was refused.
///
/// Messages go to the log. What can't be written of a message or a text is dropped, and neither is
/// flushed.
///
/// Conditions: there is at least one word, the program's name (`is_empty`), and at most 2^64 - 5
/// calls of each device have failed (`Counted::failures`).
pub fn program<S: IndexSource, R: Read, W: Write, L: Write>(
    alloc: Global,
    words: &[&str],
    source: &mut S,
    reader: &mut Counted<R>,
    writer: &mut Counted<W>,
    log: &mut Counted<L>,
) -> u8
    requires words { 0 < length words.now }
    requires counts { HaveFailedAtMost (2 ^ 64 - 5)
        (devices_in reader.old writer.old log.old).failures }
    ensures answer { AnswersProgram (S.holds source.old) R.remaining W.contents L.contents
        (ports reader.old writer.old log.old) (ports reader.new writer.new log.new)
        (map (λ s. s.now) words.now) result }
    ensures source { source.new ≡ source.old ⊎ AskForFiles (map (λ s. s.now) words.now) }
{
    let mut ports = Ports::new(reader, writer, log);
    program_on(alloc, words, source, &mut ports)
}

/// Like `program`, over `Ports`. If a job is run, then at each call of the reader the writer and the
/// log have taken all that is certain of what it gave before, in one order, and no more.
///
/// Conditions: those of `program`.
pub fn program_on<S: IndexSource, R: Read, W: Write, L: Write>(
    alloc: Global,
    words: &[&str],
    source: &mut S,
    ports: &mut Ports<'_, '_, '_, R, W, L>,
) -> u8
    requires words { 0 < length words.now }
    requires counts { HaveFailedAtMost (2 ^ 64 - 5)
        (devices_at ports.old).failures }
    ensures answer { AnswersProgram (S.holds source.old) R.remaining W.contents L.contents
        (ports_at ports.old) (ports_at ports.new)
        (map (λ s. s.now) words.now) result }
    ensures source { source.new ≡ source.old ⊎ AskForFiles (map (λ s. s.now) words.now) }
    ensures same { SameDevices ports.old ports.new }
{
    match parse_words(alloc, words) {
        Ok(Request::Run(words)) => run_words(alloc, words, source, ports),
        Ok(Request::Help(text)) | Ok(Request::Version(text)) => tell_text(ports, &text),
        Ok(Request::List) => tell_text(ports, listing()),
        Err(WordsFault::Refused(message)) => refuse_words(ports, &message),
        Err(WordsFault::OutOfMemory) => refuse_start(alloc, ports, &StartFault::Memory),
    }
}
