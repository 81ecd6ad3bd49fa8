//! Decodes streams of bytes that may begin with a byte order mark, by each kind of call of a
//! `Decoder`, and by the calls for whole inputs.

use anyhow::Context;
use encoding_front::{Decoder, Encoding, Mark};
use encoding_tables::Tables;
use std::alloc::{AllocError, Global};
use test_case_lines::report::Report;
use test_encoding_calls::front_calls::{Destination, Kind};
use test_encoding_calls::kinds::{Item, Outcome};
use test_encoding_calls::names::{encoding_of, mark_of};
use test_encoding_calls::pieces::DecodedStream;

// U+FFFD in UTF-8.
const REPLACEMENT: [u32; 3] = [0xEF, 0xBF, 0xBD];

// A stream, how its mark is treated, the encoding that it is handed in as, and the one that it
// turns out to be in.
#[derive(Drop)]
pub(crate) struct MarkedStream {
    pub(crate) mark: Mark,
    pub(crate) encoding: Encoding,
    pub(crate) found: Encoding,
    pub(crate) stream: DecodedStream,
}

// How a stream is handed in: in two parts, by calls of this kind into this room.
#[derive(Clone, Copy, Debug)]
struct Plan {
    kind: Kind,
    cut: usize,
    room: usize,
}

// All that comes of a stream that is decoded.
#[derive(Drop)]
struct Told {
    items: Vec<Item>,
    read: usize,
    had_errors: bool,
    // The greatest room that the decoder asked for.
    asked: usize,
    // What is wrong, apart from the items and the errors.
    fault: Option<&'static str>,
}

// Returns whether an output has U+FFFD.
fn has_replacement(output: &[u32]) -> bool {
    output.contains(&0xFFFD)
        || output
            .windows(3)
            .any(|bytes| bytes == REPLACEMENT.as_slice())
}

// Decodes a part of a stream until all of it is read.
fn feed(
    alloc: Global,
    decoder: &mut Decoder<'_>,
    plan: Plan,
    part: &[u8],
    last: bool,
    told: &mut Told,
) -> Result<(), AllocError> {
    let mut rest = part;
    for _ in 0..part.len().saturating_add(16) {
        let enough = plan.kind.room(decoder, rest.len()).unwrap_or(usize::MAX);
        told.asked = told.asked.max(enough);
        let Some(call) = plan.kind.call(alloc, decoder, rest, plan.room, last)? else {
            told.fault = Some("it is finished too soon");
            return Ok(());
        };
        let output = call.answer.output.as_slice();
        for number in output {
            told.items.push(Item::Output(*number))?;
        }
        if !call.answer.keeps_rest {
            told.fault = Some("what stands behind the output changes");
        }
        if call.had_errors != (plan.kind.replaces && has_replacement(output)) {
            told.fault = Some("what is replaced and what is told of are not the same");
        }
        told.had_errors = told.had_errors || call.had_errors;
        told.read = told.read.saturating_add(call.answer.read);
        rest = rest.get(call.answer.read..).unwrap_or(&[]);
        match call.answer.outcome {
            Outcome::Malformed(len, behind) => {
                let end = told.read.saturating_sub(behind);
                told.items
                    .push(Item::Malformed(end.saturating_sub(len), len))?;
            }
            Outcome::OutputFull => {
                if plan.room >= enough {
                    told.fault = Some("the room that was asked for is too little");
                }
            }
            _ => {
                if !rest.is_empty() {
                    told.fault = Some("not all was read");
                }
                return Ok(());
            }
        }
    }
    told.fault = Some("no end is reached");
    Ok(())
}

// Decodes a stream in two parts. Returns `None` if an index that it needs is not there.
fn read_stream(
    alloc: Global,
    tables: &Tables,
    marked: &MarkedStream,
    plan: Plan,
) -> Result<Option<Told>, AllocError> {
    if !marked.encoding.is_ready(tables) {
        return Ok(None);
    }
    let mut told = Told {
        items: Vec::new(alloc),
        read: 0,
        had_errors: false,
        asked: 0,
        fault: None,
    };
    let mut decoder = Decoder::new(marked.encoding, marked.mark, Some(tables));
    let bytes = marked.stream.bytes.as_slice();
    let (before, after) = bytes.split_at(plan.cut.min(bytes.len()));
    feed(alloc, &mut decoder, plan, before, false, &mut told)?;
    feed(alloc, &mut decoder, plan, after, true, &mut told)?;
    if !decoder.is_finished() {
        told.fault = Some("it is not finished at the end");
    }
    if decoder.encoding() != marked.found {
        told.fault = Some("another encoding is found");
    }
    if told.read != bytes.len() {
        told.fault = Some("not as many bytes were read as there are");
    }
    Ok(Some(told))
}

// Decodes a stream, and compares what comes of it with what is expected. Returns the greatest room
// that was asked for.
fn check_plan(
    rt: &(impl Print + AllocGlobal),
    tables: &Tables,
    marked: &MarkedStream,
    plan: Plan,
    report: &mut Report,
) -> anyhow::Result<usize> {
    report.count_conversion();
    let Some(told) = read_stream(rt.alloc(), tables, marked, plan)? else {
        report.differs(rt, "an index is not there")?;
        return Ok(0);
    };
    check_told(rt, marked, plan, &told, report)?;
    Ok(told.asked)
}

// Compares what came of a stream with what is expected.
fn check_told(
    rt: &(impl Print + AllocGlobal),
    marked: &MarkedStream,
    plan: Plan,
    told: &Told,
    report: &mut Report,
) -> anyhow::Result<()> {
    let has_errors = plan.kind.replaces && marked.stream.is_malformed();
    report.compare_by(rt, &plan, "the fault", &told.fault, &None)?;
    report.compare_by(rt, &plan, "errors", &told.had_errors, &has_errors)?;
    let items = told.items.as_slice();
    if plan.kind.replaces {
        let expected = marked.stream.replaced(rt.alloc(), plan.kind.form())?;
        report.compare_by(rt, &plan, "the items", &items, &expected.as_slice())
    } else {
        let expected = marked.stream.items(plan.kind.form());
        report.compare_by(rt, &plan, "the items", &items, &expected)
    }
}

// A stream of words such as `sniff windows-1252 as utf-8: EFBBBF= 61=61`.
impl MarkedStream {
    pub(crate) fn of(alloc: Global, words: &str) -> anyhow::Result<Self> {
        let (head, pieces) = words.split_once(':').context("a stream has no `:`")?;
        let (before, found) = head.split_once(" as ").context("a stream has no ` as `")?;
        let (mark, encoding) = before.split_once(' ').context("a word is missing")?;
        Ok(MarkedStream {
            mark: mark_of(mark)?,
            encoding: encoding_of(encoding)?,
            found: encoding_of(found)?,
            stream: DecodedStream::of(alloc, pieces)?,
        })
    }
}

// Decodes a stream by each kind of call, at each cut, and into each room from the least to the one
// that is asked for. Then decodes it as a whole.
pub(crate) fn check_marked(
    rt: &(impl Print + AllocGlobal),
    tables: &Tables,
    marked: &MarkedStream,
    report: &mut Report,
) -> anyhow::Result<()> {
    for destination in [
        Destination::Bytes,
        Destination::Units,
        Destination::Text,
        Destination::Spare,
    ] {
        for replaces in [false, true] {
            let kind = Kind {
                destination,
                replaces,
            };
            for cut in 0..=marked.stream.bytes.len() {
                let mut enough = 0;
                for room in kind.form().least_room()..usize::MAX {
                    let plan = Plan { kind, cut, room };
                    enough = check_plan(rt, tables, marked, plan, report)?.max(enough);
                    if room >= enough {
                        break;
                    }
                }
            }
        }
    }
    check_at_once(rt, tables, marked, report)
}

// Decodes a stream by the call for whole inputs.
fn check_at_once(
    rt: &(impl Print + AllocGlobal),
    tables: &Tables,
    marked: &MarkedStream,
    report: &mut Report,
) -> anyhow::Result<()> {
    let alloc = rt.alloc();
    let encoding = marked.encoding;
    let bytes = marked.stream.bytes.as_slice();
    if !encoding.is_ready(tables) {
        return report.differs(rt, "an index is not there");
    }
    report.count_conversion();
    let (text, found, bad) = match marked.mark {
        Mark::Sniff => encoding.decode(alloc, tables, bytes)?,
        Mark::Remove => {
            let (text, bad) = encoding.decode_with_bom_removal(alloc, tables, bytes)?;
            (text, encoding, bad)
        }
        Mark::Keep => {
            let (text, bad) = encoding.decode_without_bom_handling(alloc, tables, bytes)?;
            (text, encoding, bad)
        }
    };
    let expected = &marked.stream.text;
    let is_malformed = marked.stream.is_malformed();
    report.compare_texts(rt, "at once", text.as_str(), expected.as_str())?;
    report.compare(rt, "at once", &(found, bad), &(marked.found, is_malformed))?;
    if marked.mark == Mark::Keep {
        let good = encoding.decode_without_bom_handling_and_without_replacement(
            alloc, tables, bytes,
        )?;
        let is_right = match good {
            Some(good) => !is_malformed && good.as_str() == expected.as_str(),
            None => is_malformed,
        };
        if !is_right {
            report.differs(rt, "at once and without replacement it is another text")?;
        }
    }
    Ok(())
}
