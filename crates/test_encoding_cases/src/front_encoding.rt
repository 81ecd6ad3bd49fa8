//! Calls of an `Encoder` that write references, and calls that do not, and the exact result of
//! each.

use crate::calls::{Calls, TextOfCall, check_answer, check_state, given_room};
use encoding_front::Encoder;
use encoding_tables::Tables;
use std::alloc::{AllocError, Global};
use test_case_lines::report::Report;
use test_encoding_calls::answer::{Answer, Text, UNWRITTEN};
use test_encoding_calls::call_lines::{Source, State};
use test_encoding_calls::kinds::Outcome;

// Makes one call that writes references. Returns also whether the call reports that it wrote one.
fn encode_replacing(
    alloc: Global,
    encoder: &mut Encoder<'_>,
    text: Text<'_>,
    room: usize,
    last: bool,
) -> Result<(Answer, bool), AllocError> {
    let mut dst = std::vec![in alloc; UNWRITTEN; room]?;
    let (outcome, read, written, is_lost) = match text {
        Text::Utf8(text) => encoder.encode_from_utf8(text, &mut dst, last),
        Text::Utf16(units) => encoder.encode_from_utf16(units, &mut dst, last),
    };
    let answer = Answer::of(
        alloc,
        Outcome::of_coder(outcome),
        read,
        (&dst, written),
        UNWRITTEN,
    )?;
    Ok((answer, is_lost))
}

// Makes one call that writes no references, and stops after a character without bytes.
fn encode_without(
    alloc: Global,
    encoder: &mut Encoder<'_>,
    text: Text<'_>,
    room: usize,
    last: bool,
) -> Result<Answer, AllocError> {
    let mut dst = std::vec![in alloc; UNWRITTEN; room]?;
    let (outcome, read, written) = match text {
        Text::Utf8(text) => encoder.encode_from_utf8_without_replacement(text, &mut dst, last),
        Text::Utf16(units) => encoder.encode_from_utf16_without_replacement(units, &mut dst, last),
    };
    let outcome = Outcome::of_encoder(outcome);
    Answer::of(alloc, outcome, read, (&dst, written), UNWRITTEN)
}

// Makes the calls of a case.
pub(crate) fn check_front_calls(
    rt: &(impl Print + AllocGlobal),
    tables: &Tables,
    calls: &Calls,
    report: &mut Report,
) -> anyhow::Result<()> {
    if !calls.encoding.output_encoding().is_ready(tables) {
        return report.differs(rt, "an index is not there");
    }
    let alloc = rt.alloc();
    let mut encoder = calls.encoding.new_encoder(tables);
    for line in calls.lines.iter() {
        report.at(line.number);
        let Source::Numbers(numbers) = &line.source else {
            return report.differs(rt, "an encoder is given no text");
        };
        let source = TextOfCall::of(alloc, line.form, numbers.as_slice())?;
        let text = source.text(line.form);
        let room = given_room(line)?;
        let (answer, is_lost) = if line.replaces {
            encode_replacing(alloc, &mut encoder, text, room, line.last)?
        } else {
            let answer = encode_without(alloc, &mut encoder, text, room, line.last)?;
            (answer, false)
        };
        check_answer(rt, line, &answer, line.output.as_slice(), report)?;
        check_state(rt, line, State::Escape(encoder.has_pending_state()), report)?;
        check_state(rt, line, State::Lost(is_lost), report)?;
    }
    Ok(())
}
