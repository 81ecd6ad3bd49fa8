//! Encodes texts, cut in two at every place between characters, into rooms of every size.

use encoding_front::Encoding;
use encoding_mem::RawEncoder;
use encoding_tables::Tables;
use std::alloc::{AllocError, Global};
use test_case_lines::report::Report;
use test_encoding_calls::answer::{Text, encode, encoded_room};
use test_encoding_calls::codecs::{EncoderTask, Through, with_encoder};
use test_encoding_calls::kinds::{Form, Item, Outcome};
use test_encoding_calls::pieces::EncodedStream;
use test_encoding_calls::rooms::{Asked, Room, Side, room_of};

// The least room in which every call makes progress: a character has at most four bytes in gb18030
// and in UTF-8.
const LEAST_ROOM: usize = 4;

const LEAST_ROOM_OF_ESCAPES: usize = 3;

// How a text is handed in: in two parts, by calls into this room.
#[derive(Clone, Copy, Debug)]
struct Plan {
    through: Through,
    form: Form,
    // The place of the cut, in bytes and in units.
    cut: (usize, usize),
    room: usize,
    // The room that the encoder must ask for, if a line says it.
    asked: Option<Room>,
}

// All that comes of a text that is encoded.
#[derive(Drop)]
struct Told {
    items: Vec<Item>,
    // The greatest room that the encoder asked for.
    asked: usize,
    // What is wrong, apart from the items.
    fault: Option<&'static str>,
}

// Returns whether an encoder asks for the room that it must ask for.
fn asks_for<E: RawEncoder>(encoder: &E, plan: Plan, n: usize) -> bool {
    match plan.asked {
        None => true,
        Some(room) => encoded_room(encoder, plan.form, n) == room.of(n),
    }
}

// Encodes a part of a text until all of it is read.
fn feed<E: RawEncoder>(
    alloc: Global,
    encoder: &mut E,
    plan: Plan,
    part: Text<'_>,
    last: bool,
    told: &mut Told,
) -> Result<(), AllocError> {
    let mut rest = part;
    for _ in 0..part.len().saturating_mul(4).saturating_add(16) {
        let enough = encoded_room(encoder, plan.form, rest.len()).unwrap_or(usize::MAX);
        if !asks_for(encoder, plan, rest.len()) {
            told.fault = Some("another room is asked for");
        }
        told.asked = told.asked.max(enough);
        let answer = encode(alloc, encoder, rest, plan.room, last)?;
        for number in answer.output.iter() {
            told.items.push(Item::Output(*number))?;
        }
        if !answer.keeps_rest {
            told.fault = Some("what stands behind the output changes");
        }
        let Some(left) = rest.behind(answer.read) else {
            told.fault = Some("what was read does not end between characters");
            return Ok(());
        };
        rest = left;
        match answer.outcome {
            Outcome::Unmappable(c) => told.items.push(Item::Unmappable(c))?,
            Outcome::OutputFull => {
                if plan.room >= enough {
                    told.fault = Some("the room that was asked for is too little");
                }
            }
            _ => {
                if rest.len() != 0 {
                    told.fault = Some("not all was read");
                }
                return Ok(());
            }
        }
    }
    told.fault = Some("no end is reached");
    Ok(())
}

// A text that is encoded in two parts.
#[derive(Drop)]
struct Writing<'a> {
    alloc: Global,
    plan: Plan,
    before: Text<'a>,
    after: Text<'a>,
    told: Told,
}

impl<'a> EncoderTask for Writing<'a> {
    fn run<E: RawEncoder + Drop>(&mut self, mut encoder: E) -> anyhow::Result<()> {
        let told = &mut self.told;
        let plan = self.plan;
        if !asks_for(&encoder, plan, 7) || !asks_for(&encoder, plan, usize::MAX) {
            told.fault = Some("another room is asked for");
        }
        if encoder.has_pending_state() {
            told.fault = Some("a new encoder has an escape to write");
        }
        feed(self.alloc, &mut encoder, plan, self.before, false, told)?;
        feed(self.alloc, &mut encoder, plan, self.after, true, told)?;
        if encoder.has_pending_state() {
            told.fault = Some("an escape is left at the end");
        }
        Ok(())
    }
}

// Returns the parts of a text before the cut and after it.
fn parts_of(stream: &EncodedStream, plan: Plan) -> Option<(Text<'_>, Text<'_>)> {
    let (text, cut) = match plan.form {
        Form::Utf8 => (Text::Utf8(stream.text.as_str()), plan.cut.0),
        Form::Utf16 => (Text::Utf16(stream.units.as_slice()), plan.cut.1),
    };
    Some((text.before(cut)?, text.behind(cut)?))
}

// Encodes a text, and compares what comes of it with what is expected. Returns the greatest room
// that was asked for.
fn check_plan(
    rt: &(impl Print + AllocGlobal),
    tables: &Tables,
    encoding: Encoding,
    plan: Plan,
    stream: &EncodedStream,
    report: &mut Report,
) -> anyhow::Result<usize> {
    report.count_conversion();
    let Some((before, after)) = parts_of(stream, plan) else {
        report.differs(rt, "a cut is not between characters")?;
        return Ok(0);
    };
    let mut writing = Writing {
        alloc: rt.alloc(),
        plan,
        before,
        after,
        told: Told {
            items: Vec::new(rt.alloc()),
            asked: 0,
            fault: None,
        },
    };
    if !with_encoder(tables, encoding, plan.through, &mut writing)? {
        report.differs(rt, "an index is not there")?;
    }
    let told = &writing.told;
    let expected = stream.items.as_slice();
    report.compare_by(rt, &plan, "the fault", &told.fault, &None)?;
    report.compare_by(rt, &plan, "the items", &told.items.as_slice(), &expected)?;
    Ok(told.asked)
}

// Returns the least room in which each call of an encoder makes progress.
fn least_room(encoding: Encoding) -> usize {
    match encoding {
        Encoding::Iso2022Jp => LEAST_ROOM_OF_ESCAPES,
        _ => LEAST_ROOM,
    }
}

// Encodes a text with one encoder, at each cut, and into each room from the least to the one that
// is asked for.
fn check_through(
    rt: &(impl Print + AllocGlobal),
    tables: &Tables,
    encoding: Encoding,
    first: Plan,
    stream: &EncodedStream,
    report: &mut Report,
) -> anyhow::Result<()> {
    for cut in stream.cuts.iter() {
        let mut enough = 0;
        for room in least_room(encoding)..usize::MAX {
            let plan = Plan {
                cut: *cut,
                room,
                ..first
            };
            enough = check_plan(rt, tables, encoding, plan, stream, report)?.max(enough);
            if room >= enough {
                break;
            }
        }
    }
    Ok(())
}

// Encodes a text in both forms, by its codec and by the encoder that `encoding_front` chooses.
pub(crate) fn check_encoded(
    rt: &(impl Print + AllocGlobal),
    tables: &Tables,
    encoding: Encoding,
    asked: &[Asked],
    stream: &EncodedStream,
    report: &mut Report,
) -> anyhow::Result<()> {
    for through in Through::of(encoding.output_encoding().is_ready(tables)) {
        for form in [Form::Utf8, Form::Utf16] {
            let plan = Plan {
                through: *through,
                form,
                cut: (0, 0),
                room: 0,
                asked: room_of(asked, Side::Encoder, encoding, form),
            };
            check_through(rt, tables, encoding, plan, stream, report)?;
        }
    }
    Ok(())
}
