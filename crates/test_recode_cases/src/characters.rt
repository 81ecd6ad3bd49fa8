//! Converts every character to an encoding, each as a text of its own, and prints a verdict on it.
//! `make verdicts` compares the verdicts with those of `tools/oracles/characters.py`, a plain
//! program over the same index texts.

use anyhow::{Context, bail, ensure};
use encoding_front::{Encoding, Mark, UTF_8};
use encoding_index::load;
use encoding_tables::Tables;
use recode::{Buffers, GREATEST_LIMIT, Job, Pivot, Policy, run};
use recode_log::counted::Counted;
use std::fs;
use std::rt::Files;

// The verdict on a character: what the report and the log of its conversion say.
#[derive(Clone, Copy, PartialEq, Eq)]
enum Told {
    // The report says faithful, and the log is empty.
    Kept,
    // The report does not say faithful, but the log is empty.
    Folded,
    // The report does not say faithful, and the log has a line.
    Lost,
    // The report says faithful, but the log has a line.
    Wrong,
}

impl Told {
    fn new(faithful: bool, is_log_empty: bool) -> Told {
        match (faithful, is_log_empty) {
            (true, true) => Told::Kept,
            (false, true) => Told::Folded,
            (false, false) => Told::Lost,
            (true, false) => Told::Wrong,
        }
    }

    fn word(self) -> &'static str {
        match self {
            Told::Kept => "kept",
            Told::Folded => "folded",
            Told::Lost => "lost",
            Told::Wrong => "wrong",
        }
    }
}

// Converts a character as a text of its own.
fn convert(
    rt: &impl AllocGlobal,
    job: Job<'_>,
    character: char,
    buffers: &mut Buffers<'_>,
) -> anyhow::Result<Told> {
    let mut units = [0; 4];
    let text = character.encode_utf8(&mut units);
    let mut reader = Counted::new(text.as_bytes());
    let mut writer = Counted::new(Vec::new(rt.alloc()));
    let mut log = Counted::new(Vec::new(rt.alloc()));
    ensure!(job.is_valid(), "an index is not there");
    ensure!(buffers.is_enough(), "the buffers are too small");
    let Ok(report) = run(&mut reader, &mut writer, &mut log, job, buffers) else {
        bail!("a conversion failed");
    };
    Ok(Told::new(report.faithful, log.get_ref().is_empty()))
}

// Converts a character with small buffers. The pivots are in UTF-8 or in UTF-16, in turn.
fn told_of(rt: &impl AllocGlobal, job: Job<'_>, character: char) -> anyhow::Result<Told> {
    let mut input = [0; 4];
    let mut output = [0; 4];
    if u32::from(character).is_multiple_of(2) {
        let mut text = [0; 4];
        let mut again = [0; 4];
        let pivot = Pivot::Utf8(&mut text);
        let check = Pivot::Utf8(&mut again);
        let mut buffers = Buffers {
            input: &mut input,
            pivot,
            output: &mut output,
            check,
        };
        convert(rt, job, character, &mut buffers)
    } else {
        let mut text = [0; 2];
        let mut again = [0; 2];
        let pivot = Pivot::Utf16(&mut text);
        let check = Pivot::Utf16(&mut again);
        let mut buffers = Buffers {
            input: &mut input,
            pivot,
            output: &mut output,
            check,
        };
        convert(rt, job, character, &mut buffers)
    }
}

// Characters that follow one another and have one verdict.
#[derive(Clone, Copy)]
struct Span {
    first: u32,
    last: u32,
    told: Told,
}

fn print_span(rt: &impl Print, name: &str, span: Option<Span>) -> anyhow::Result<()> {
    if let Some(Span { first, last, told }) = span {
        println!(rt; "{name} {first:04X} {last:04X} {}", told.word())?;
    }
    Ok(())
}

// Returns the character of a number, if it is one that is converted.
fn character_of(number: u32, step: u32) -> Option<char> {
    if number < 0x10000 || number.is_multiple_of(step) {
        char::from_u32(number)
    } else {
        None
    }
}

// Prints the verdicts on the characters.
fn print_verdicts(rt: &(impl Print + AllocGlobal), job: Job<'_>, step: u32) -> anyhow::Result<()> {
    let name = job.to.name();
    let mut span: Option<Span> = None;
    for number in 0..0x110000 {
        let Some(character) = character_of(number, step) else {
            continue;
        };
        let told = told_of(rt, job, character)?;
        let first = match span {
            Some(before) if before.told == told => before.first,
            _ => {
                print_span(rt, name, span)?;
                number
            }
        };
        span = Some(Span {
            first,
            last: number,
            told,
        });
    }
    print_span(rt, name, span)
}

// Returns tables with the indexes that an encoding needs to be written.
fn tables(rt: &(impl Files + AllocGlobal), to: Encoding) -> anyhow::Result<Tables> {
    let mut tables = Tables::new(rt.alloc());
    for kind in to.output_encoding().needs() {
        let text = fs::read(rt, kind.file_name()).context(kind.file_name())?;
        load(rt.alloc(), &mut tables, *kind, &text).context(kind.file_name())?;
    }
    Ok(tables)
}

// Prints the verdicts on the characters for each of these encodings, with the index files of the
// current folder. All characters of the basic plane are converted, and of the other planes those
// whose number the step divides.
pub(crate) fn print_all(
    rt: &(impl Print + Files + AllocGlobal),
    step: u32,
    labels: &[String],
) -> anyhow::Result<()> {
    for label in labels {
        let to = Encoding::for_label(label.as_bytes()).context("an unknown label")?;
        let tables = tables(rt, to)?;
        let job = Job {
            from: UTF_8,
            to,
            mark: Mark::Keep,
            policy: Policy::Decimal,
            limit: GREATEST_LIMIT,
            tables: &tables,
        };
        print_verdicts(rt, job, step)?;
    }
    Ok(())
}
