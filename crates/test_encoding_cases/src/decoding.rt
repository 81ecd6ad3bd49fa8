//! Decodes streams of bytes, cut in two at every place, into rooms of every size.

use encoding_front::Encoding;
use encoding_tables::Tables;
use std::alloc::{AllocError, Global};
use test_case_lines::report::Report;
use test_encoding_calls::answer::{Neutral, decode, decoded_room};
use test_encoding_calls::codecs::{DecoderTask, Through, with_decoder};
use test_encoding_calls::kinds::{Form, Item, Outcome};
use test_encoding_calls::pieces::DecodedStream;
use test_encoding_calls::rooms::{Asked, Room, Side, room_of};

// How a stream is handed in: in two parts, by calls into this room.
#[derive(Clone, Copy, Debug)]
struct Plan {
    through: Through,
    form: Form,
    cut: usize,
    room: usize,
    // The room that the decoder must ask for, if a line says it.
    asked: Option<Room>,
}

// All that comes of a stream that is decoded.
#[derive(Drop)]
struct Told {
    items: Vec<Item>,
    read: usize,
    // The greatest room that the decoder asked for.
    asked: usize,
    // What is wrong, apart from the items.
    fault: Option<&'static str>,
}

// Decodes a part of a stream until all of it is read.
fn feed<D: Neutral>(
    alloc: Global,
    decoder: &mut D,
    plan: Plan,
    part: &[u8],
    last: bool,
    told: &mut Told,
) -> Result<(), AllocError> {
    let mut rest = part;
    for _ in 0..part.len().saturating_add(16) {
        let (enough, replaced) = decoded_room(decoder, plan.form, rest.len());
        if let Some(room) = plan.asked {
            let expected = room.of(decoder.pending_len().saturating_add(rest.len()));
            if enough != expected || replaced != expected {
                told.fault = Some("another room is asked for");
            }
        }
        let enough = enough.unwrap_or(usize::MAX);
        let replaced = replaced.unwrap_or(usize::MAX);
        told.asked = told.asked.max(enough);
        let answer = decode(alloc, decoder, plan.form, rest, plan.room, last)?;
        for number in answer.output.iter() {
            told.items.push(Item::Output(*number))?;
        }
        if !answer.keeps_rest {
            told.fault = Some("what stands behind the output changes");
        }
        if !decoder.is_at_one() {
            told.fault = Some("what is pending and whether it is neutral do not agree");
        }
        told.read = told.read.saturating_add(answer.read);
        rest = rest.get(answer.read..).unwrap_or(&[]);
        match answer.outcome {
            Outcome::Malformed(len, behind) => {
                if decoder.pending_len() != behind {
                    told.fault = Some("not as many bytes are pending as were read behind");
                }
                let end = told.read.saturating_sub(behind);
                told.items
                    .push(Item::Malformed(end.saturating_sub(len), len))?;
            }
            Outcome::OutputFull => {
                if plan.room >= enough.min(replaced) {
                    told.fault = Some("the room that was asked for is too little");
                }
            }
            _ => {
                if !rest.is_empty() {
                    told.fault = Some("not all was read");
                }
                return Ok(());
            }
        }
    }
    told.fault = Some("no end is reached");
    Ok(())
}

// A stream that is decoded in two parts.
#[derive(Drop)]
struct Reading<'a> {
    alloc: Global,
    plan: Plan,
    bytes: &'a [u8],
    told: Told,
}

impl<'a> DecoderTask for Reading<'a> {
    fn run<D: Neutral + Drop>(&mut self, mut decoder: D) -> anyhow::Result<()> {
        let told = &mut self.told;
        if decoder.is_neutral() == Some(false) {
            told.fault = Some("a new decoder is not neutral");
        }
        if let Some(room) = self.plan.asked {
            let (enough, replaced) = decoded_room(&decoder, self.plan.form, usize::MAX);
            if enough != room.of(usize::MAX) || replaced != room.of(usize::MAX) {
                told.fault = Some("another room is asked for");
            }
        }
        let (before, after) = self.bytes.split_at(self.plan.cut.min(self.bytes.len()));
        feed(self.alloc, &mut decoder, self.plan, before, false, told)?;
        feed(self.alloc, &mut decoder, self.plan, after, true, told)?;
        if decoder.pending_len() != 0 {
            told.fault = Some("bytes are pending at the end");
        }
        if told.read != self.bytes.len() {
            told.fault = Some("not as many bytes were read as there are");
        }
        Ok(())
    }
}

// Decodes a stream, and compares what comes of it with what is expected. Returns the greatest room
// that was asked for.
fn check_plan(
    rt: &(impl Print + AllocGlobal),
    tables: &Tables,
    encoding: Encoding,
    plan: Plan,
    stream: &DecodedStream,
    report: &mut Report,
) -> anyhow::Result<usize> {
    report.count_conversion();
    let mut reading = Reading {
        alloc: rt.alloc(),
        plan,
        bytes: stream.bytes.as_slice(),
        told: Told {
            items: Vec::new(rt.alloc()),
            read: 0,
            asked: 0,
            fault: None,
        },
    };
    if !with_decoder(tables, encoding, plan.through, &mut reading)? {
        report.differs(rt, "an index is not there")?;
    }
    let told = &reading.told;
    let expected = stream.items(plan.form);
    report.compare_by(rt, &plan, "the fault", &told.fault, &None)?;
    report.compare_by(rt, &plan, "the items", &told.items.as_slice(), &expected)?;
    Ok(told.asked)
}

// Decodes a stream with one decoder, at each cut, and into each room from the least to the one that
// is asked for.
fn check_through(
    rt: &(impl Print + AllocGlobal),
    tables: &Tables,
    encoding: Encoding,
    first: Plan,
    stream: &DecodedStream,
    report: &mut Report,
) -> anyhow::Result<()> {
    for cut in 0..=stream.bytes.len() {
        let mut enough = 0;
        for room in first.form.least_room()..usize::MAX {
            let plan = Plan { cut, room, ..first };
            enough = check_plan(rt, tables, encoding, plan, stream, report)?.max(enough);
            if room >= enough {
                break;
            }
        }
    }
    Ok(())
}

// Decodes a stream to both forms, by its codec and by the decoder that `encoding_front` chooses.
pub(crate) fn check_decoded(
    rt: &(impl Print + AllocGlobal),
    tables: &Tables,
    encoding: Encoding,
    asked: &[Asked],
    stream: &DecodedStream,
    report: &mut Report,
) -> anyhow::Result<()> {
    for through in Through::of(encoding.is_ready(tables)) {
        for form in [Form::Utf8, Form::Utf16] {
            let plan = Plan {
                through: *through,
                form,
                cut: 0,
                room: 0,
                asked: room_of(asked, Side::Decoder, encoding, form),
            };
            check_through(rt, tables, encoding, plan, stream, report)?;
        }
    }
    Ok(())
}
