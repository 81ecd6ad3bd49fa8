//! Cases of calls: a new decoder or encoder, and the exact result of each call.

use crate::front_decoding::check_decoder_calls;
use crate::front_encoding::check_front_calls;
use anyhow::bail;
use encoding_front::Encoding;
use encoding_mem::RawEncoder;
use encoding_tables::Tables;
use std::alloc::{AllocError, Global};
use test_case_lines::report::Report;
use test_encoding_calls::answer::{Answer, Neutral, Text, decode, encode};
use test_encoding_calls::call_lines::{Ask, CallLine, Given, Source, State};
use test_encoding_calls::codecs::{DecoderTask, EncoderTask, Through, with_decoder, with_encoder};
use test_encoding_calls::kinds::{Form, Outcome};
use test_encoding_calls::rooms::Side;

// The calls that a case makes of one decoder or one encoder.
#[derive(Drop)]
pub(crate) struct Calls {
    pub(crate) side: Side,
    pub(crate) encoding: Encoding,
    // The number of the line that says what a new `Decoder` must answer.
    pub(crate) number: usize,
    pub(crate) asks: Vec<Ask>,
    pub(crate) lines: Vec<CallLine>,
}

// Returns the bytes or units of a text in a form.
pub(crate) fn in_form(alloc: Global, form: Form, scalars: &[u32]) -> Result<Vec<u32>, AllocError> {
    let mut output = Vec::new(alloc);
    for number in scalars {
        match char::from_u32(*number) {
            Some(c) => form.add(c, &mut output)?,
            // This is a surrogate, which stands for one unit.
            None => output.push(*number)?,
        }
    }
    Ok(output)
}

pub(crate) fn narrowed_bytes(alloc: Global, numbers: &[u32]) -> Result<Vec<u8>, AllocError> {
    let mut bytes = Vec::new(alloc);
    for number in numbers {
        bytes.push((*number % 0x100) as u8)?;
    }
    Ok(bytes)
}

fn narrowed_units(alloc: Global, numbers: &[u32]) -> Result<Vec<u16>, AllocError> {
    let mut units = Vec::new(alloc);
    for number in numbers {
        units.push((*number % 0x1_0000) as u16)?;
    }
    Ok(units)
}

// The text that a call of an encoder is given, in the form of the call.
#[derive(Drop)]
pub(crate) struct TextOfCall {
    bytes: Vec<u8>,
    units: Vec<u16>,
}

impl TextOfCall {
    pub(crate) fn of(alloc: Global, form: Form, numbers: &[u32]) -> Result<Self, AllocError> {
        let source = in_form(alloc, form, numbers)?;
        Ok(TextOfCall {
            bytes: narrowed_bytes(alloc, source.as_slice())?,
            units: narrowed_units(alloc, source.as_slice())?,
        })
    }

    pub(crate) fn text(&self, form: Form) -> Text<'_> {
        match form {
            Form::Utf8 => Text::Utf8(std::str::from_utf8(self.bytes.as_slice()).unwrap_or("")),
            Form::Utf16 => Text::Utf16(self.units.as_slice()),
        }
    }
}

// Returns the room of a call, if its line gives a number.
pub(crate) fn given_room(line: &CallLine) -> anyhow::Result<usize> {
    match line.room {
        Given::Room(room) => Ok(room),
        Given::Asked => bail!("a room is asked for of a `Decoder` alone"),
    }
}

// Compares what comes of a call with what its line says.
pub(crate) fn check_answer(
    rt: &impl Print,
    line: &CallLine,
    answer: &Answer,
    output: &[u32],
    report: &mut Report,
) -> anyhow::Result<()> {
    report.count_conversion();
    let outcome = line.ending.of(answer.outcome);
    report.compare(rt, "the outcome", &answer.outcome, &outcome)?;
    report.compare(rt, "read", &answer.read, &line.read.unwrap_or(answer.read))?;
    report.compare(rt, "written", &answer.output.as_slice(), &output)?;
    report.compare(rt, "the rest is kept", &answer.keeps_rest, &true)
}

// Compares a state with each state of the same kind that the line names.
pub(crate) fn check_state(
    rt: &impl Print,
    line: &CallLine,
    state: State,
    report: &mut Report,
) -> anyhow::Result<()> {
    for expected in line.states.iter() {
        if expected.is_of_kind(state) {
            report.compare(rt, "the state", &state, expected)?;
        }
    }
    Ok(())
}

// A case whose calls are made of a decoder or an encoder.
#[derive(Drop)]
struct Making<'a, P> {
    rt: &'a P,
    calls: &'a Calls,
    report: &'a mut Report,
}

impl<'a, P: Print + AllocGlobal> DecoderTask for Making<'a, P> {
    fn run<D: Neutral + Drop>(&mut self, mut decoder: D) -> anyhow::Result<()> {
        let alloc = self.rt.alloc();
        let mut bytes = Vec::new(alloc);
        let mut offset = 0;
        for line in self.calls.lines.iter() {
            self.report.at(line.number);
            if let Source::Numbers(numbers) = &line.source {
                bytes = narrowed_bytes(alloc, numbers)?;
                offset = 0;
            }
            let rest = bytes.get(offset..).unwrap_or(&[]);
            let room = given_room(line)?;
            let answer = decode(alloc, &mut decoder, line.form, rest, room, line.last)?;
            offset = answer.read.saturating_add(offset);
            let output = in_form(alloc, line.form, line.output.as_slice())?;
            check_answer(self.rt, line, &answer, output.as_slice(), self.report)?;
            let pending = decoder.pending_len();
            check_state(self.rt, line, State::Pending(pending), self.report)?;
            if let Some(is_neutral) = decoder.is_neutral() {
                check_state(self.rt, line, State::Neutral(is_neutral), self.report)?;
            }
            let is_counted = match answer.outcome {
                Outcome::Malformed(_, behind) => behind == pending,
                _ => true,
            };
            if !is_counted || !decoder.is_at_one() {
                self.report
                    .differs(self.rt, "what is pending does not agree")?;
            }
        }
        Ok(())
    }
}

impl<'a, P: Print + AllocGlobal> EncoderTask for Making<'a, P> {
    fn run<E: RawEncoder + Drop>(&mut self, mut encoder: E) -> anyhow::Result<()> {
        let alloc = self.rt.alloc();
        for line in self.calls.lines.iter() {
            self.report.at(line.number);
            let Source::Numbers(numbers) = &line.source else {
                self.report.differs(self.rt, "an encoder is given no text")?;
                return Ok(());
            };
            let source = TextOfCall::of(alloc, line.form, numbers.as_slice())?;
            let text = source.text(line.form);
            let room = given_room(line)?;
            let answer = encode(alloc, &mut encoder, text, room, line.last)?;
            check_answer(self.rt, line, &answer, line.output.as_slice(), self.report)?;
            let state = State::Escape(encoder.has_pending_state());
            check_state(self.rt, line, state, self.report)?;
        }
        Ok(())
    }
}

// Makes the calls of a case with one decoder or encoder.
fn check_through(
    rt: &(impl Print + AllocGlobal),
    tables: &Tables,
    calls: &Calls,
    through: Through,
    report: &mut Report,
) -> anyhow::Result<()> {
    let mut making = Making { rt, calls, report };
    let is_ready = match calls.side {
        Side::Decoder => with_decoder(tables, calls.encoding, through, &mut making)?,
        _ => with_encoder(tables, calls.encoding, through, &mut making)?,
    };
    if !is_ready {
        making.report.differs(rt, "an index is not there")?;
    }
    Ok(())
}

// Makes the calls of a case. Those of a codec are made with the codec itself, and with the one that
// `encoding_front` chooses.
pub(crate) fn check_calls(
    rt: &(impl Print + AllocGlobal),
    tables: &Tables,
    calls: &Calls,
    report: &mut Report,
) -> anyhow::Result<()> {
    let needed = match calls.side {
        Side::FrontEncoder => return check_front_calls(rt, tables, calls, report),
        Side::FrontDecoder(mark) => return check_decoder_calls(rt, tables, mark, calls, report),
        Side::Decoder => calls.encoding,
        Side::Encoder => calls.encoding.output_encoding(),
    };
    for through in Through::of(needed.is_ready(tables)) {
        check_through(rt, tables, calls, *through, report)?;
    }
    Ok(())
}
