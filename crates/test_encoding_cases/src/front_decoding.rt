//! Calls of a `Decoder` that replace malformed sequences, and calls that do not, and the exact
//! result of each.

use crate::calls::{Calls, check_answer, in_form, narrowed_bytes};
use encoding_front::{Decoder, Mark};
use encoding_tables::Tables;
use test_case_lines::report::Report;
use test_encoding_calls::call_lines::{Ask, CallLine, Given, Source};
use test_encoding_calls::front_calls::{Destination, Kind};
use test_encoding_calls::kinds::Form;

// Returns the rooms for `n` more bytes: in units, in bytes without replacement, and in bytes with
// it. Returns `None` if the decoder is finished.
fn rooms_for(decoder: &Decoder<'_>, n: usize) -> Option<[Option<usize>; 3]> {
    if decoder.is_finished() {
        return None;
    }
    Some([
        decoder.max_utf16_buffer_length(n),
        decoder.max_utf8_buffer_length_without_replacement(n),
        decoder.max_utf8_buffer_length(n),
    ])
}

// Returns the rooms that a case gives. If the case leaves one open, the actual room stands in its
// place.
fn stated_rooms(
    rooms: Option<[Option<usize>; 3]>,
    stated: &[Option<Option<usize>>; 3],
) -> Option<[Option<usize>; 3]> {
    let [units, bytes, replaced] = rooms.unwrap_or([None; 3]);
    let [of_units, of_bytes, of_replaced] = *stated;
    Some([
        of_units.unwrap_or(units),
        of_bytes.unwrap_or(bytes),
        of_replaced.unwrap_or(replaced),
    ])
}

// Returns how many of the bytes are Latin1, or `None` if the decoder is finished.
fn latin1(decoder: &Decoder<'_>, bytes: &[u8]) -> Option<Option<usize>> {
    if decoder.is_finished() {
        return None;
    }
    Some(decoder.latin1_byte_compatible_up_to(bytes))
}

// Compares an answer of a decoder with the one that it must give.
fn check_ask(
    rt: &impl Print,
    decoder: &Decoder<'_>,
    had_errors: bool,
    ask: &Ask,
    report: &mut Report,
) -> anyhow::Result<()> {
    match ask {
        Ask::Finished(expected) => {
            report.compare(rt, "finished", &decoder.is_finished(), expected)
        }
        Ask::Errors(expected) => report.compare(rt, "errors", &had_errors, expected),
        Ask::Found(expected) => {
            report.compare_texts(rt, "found", decoder.encoding().name(), expected.as_str())
        }
        Ask::Rooms(n, expected) => {
            let rooms = rooms_for(decoder, *n);
            report.compare(rt, "rooms", &rooms, &stated_rooms(rooms, expected))
        }
        Ask::Latin1(bytes, expected) => {
            let most = latin1(decoder, bytes.as_slice());
            report.compare(rt, "latin1", &most, &Some(*expected))
        }
    }
}

// Compares all answers that a decoder must give before the first call, or after a call.
fn check_asks(
    rt: &impl Print,
    decoder: &Decoder<'_>,
    had_errors: bool,
    asks: &[Ask],
    report: &mut Report,
) -> anyhow::Result<()> {
    for ask in asks {
        check_ask(rt, decoder, had_errors, ask, report)?;
    }
    Ok(())
}

// The bytes that a decoder is given, and how many of them it has read.
#[derive(Drop)]
struct Reading {
    bytes: Vec<u8>,
    offset: usize,
}

// Makes one call, and compares what comes of it with what its line says.
fn check_call(
    rt: &(impl Print + AllocGlobal),
    decoder: &mut Decoder<'_>,
    line: &CallLine,
    reading: &mut Reading,
    report: &mut Report,
) -> anyhow::Result<()> {
    let alloc = rt.alloc();
    let kind = Kind {
        destination: match line.form {
            Form::Utf8 => Destination::Bytes,
            Form::Utf16 => Destination::Units,
        },
        replaces: line.replaces,
    };
    if let Source::Numbers(numbers) = &line.source {
        reading.bytes = narrowed_bytes(alloc, numbers)?;
        reading.offset = 0;
    }
    let rest = reading.bytes.get(reading.offset..).unwrap_or(&[]);
    let room = match line.room {
        Given::Room(room) => Some(room),
        Given::Asked => kind.room(decoder, rest.len()),
    };
    let Some(room) = room else {
        return report.differs(rt, "no room is asked for");
    };
    let Some(call) = kind.call(alloc, decoder, rest, room, line.last)? else {
        return report.differs(rt, "the decoder is finished");
    };
    reading.offset = call.answer.read.saturating_add(reading.offset);
    let output = in_form(alloc, line.form, line.output.as_slice())?;
    check_answer(rt, line, &call.answer, output.as_slice(), report)?;
    check_asks(rt, decoder, call.had_errors, line.asks.as_slice(), report)
}

// Makes the calls of a case.
pub(crate) fn check_decoder_calls(
    rt: &(impl Print + AllocGlobal),
    tables: &Tables,
    mark: Mark,
    calls: &Calls,
    report: &mut Report,
) -> anyhow::Result<()> {
    if !calls.encoding.is_ready(tables) {
        return report.differs(rt, "an index is not there");
    }
    let mut decoder = Decoder::new(calls.encoding, mark, Some(tables));
    report.at(calls.number);
    check_asks(rt, &decoder, false, calls.asks.as_slice(), report)?;
    let mut reading = Reading {
        bytes: Vec::new(rt.alloc()),
        offset: 0,
    };
    for line in calls.lines.iter() {
        report.at(line.number);
        check_call(rt, &mut decoder, line, &mut reading, report)?;
    }
    Ok(())
}
