//! Converts a case by a `Converter`: the input comes in small parts and as a whole, and each call
//! has the least room, or much.

use crate::checks::Subject;
use anyhow::{Context, bail, ensure};
use encoding_front::write_reference;
use recode::{Converter, ConverterResult, Fault, LogLine, Report};
use std::alloc::Global;
use test_case_lines::report::Report as Differences;
use test_recode_trials::compare::same_bytes;

// How many bytes come at a time, for how many of output a call has room, and whether the end comes
// with the last bytes.
#[derive(Clone, Copy, Debug)]
struct Calls {
    part: usize,
    room: usize,
    ends_with_bytes: bool,
}

// What the calls have written so far, and the lines of what they found.
#[derive(Drop)]
struct Given {
    output: Vec<u8>,
    log: Vec<u8>,
}

// Adds a line, and the reference of a lost character. Returns the fault of a policy that has none.
fn add_found(
    converter: &Converter<'_>,
    line: LogLine,
    given: &mut Given,
) -> anyhow::Result<Option<Fault>> {
    ensure!(line.is_valid(), "a line is not valid");
    let mut text = [0; 32];
    let len = line.write_into(&mut text);
    given.log.extend_from_slice(&text[..len])?;
    let LogLine::Lost { index, scalar } = line else {
        return Ok(None);
    };
    let Some(form) = converter.policy().reference() else {
        return Ok(Some(Fault::Unmappable { index, scalar }));
    };
    let mut reference = [0; 10];
    let len = write_reference(scalar, form, &mut reference);
    given.output.extend_from_slice(&reference[..len])?;
    Ok(None)
}

// Makes calls until all of these bytes is converted. Returns the fault of a policy that stops.
fn convert_part(
    converter: &mut Converter<'_>,
    part: &[u8],
    last: bool,
    room: usize,
    given: &mut Given,
) -> anyhow::Result<Option<Fault>> {
    let mut rest = part;
    for _ in 0..10_000 {
        let mut dst = [0; 64];
        let free = room.min(64);
        ensure!(!converter.is_over(), "a converter is over too soon");
        ensure!(converter.report().is_none(), "a report before the end");
        ensure!(
            rest.len() as u64 <= converter.bytes_left(),
            "a converter has read too much"
        );
        ensure!(
            !converter.is_ended() || (rest.is_empty() && last),
            "a converter is at its end too soon"
        );
        let (result, read, written) = converter.convert(rest, &mut dst[..free], last);
        given.output.extend_from_slice(&dst[..written])?;
        rest = &rest[read..];
        match result {
            ConverterResult::InputEmpty => {
                ensure!(rest.is_empty(), "bytes are left");
                ensure!(converter.is_over() == last, "a converter is not over");
                return Ok(None);
            }
            ConverterResult::OutputFull => {
                ensure!(free.saturating_sub(written) < 4, "room is left");
            }
            ConverterResult::Found(line) => {
                if let Some(fault) = add_found(converter, line, given)? {
                    return Ok(Some(fault));
                }
            }
        }
    }
    bail!("a converter does not end")
}

// Makes all calls of a conversion.
fn convert_all(
    converter: &mut Converter<'_>,
    input: &[u8],
    calls: Calls,
    given: &mut Given,
) -> anyhow::Result<Result<Report, Fault>> {
    let mut rest = input;
    for _ in 0..=input.len() {
        let (part, more) = rest.split_at(calls.part.min(rest.len()));
        let is_end = more.is_empty() && (calls.ends_with_bytes || part.is_empty());
        if let Some(fault) = convert_part(converter, part, is_end, calls.room, given)? {
            return Ok(Err(fault));
        }
        if is_end {
            let report = converter.report().context("no report at the end")?;
            ensure!(report.calls > 0, "no calls of codecs are reported");
            return Ok(Ok(report));
        }
        rest = more;
    }
    bail!("no byte comes")
}

// Converts by these calls, and compares all that comes of it.
fn compare(alloc: Global, subject: Subject<'_>, calls: Calls) -> anyhow::Result<()> {
    let case = subject.case;
    let job = subject.setting.job(subject.tables);
    ensure!(job.is_valid(), "an index is not there");
    let mut converter = Converter::new(job);
    let mut given = Given {
        output: Vec::new(alloc),
        log: Vec::new(alloc),
    };
    let input = subject.setting.input;
    let answer = convert_all(&mut converter, input, calls, &mut given)?;
    same_bytes("output", given.output.as_slice(), case.output.as_slice())?;
    same_bytes("log", given.log.as_slice(), case.log.as_slice())?;
    case.compare(answer)
}

// Converts by these calls, and prints the difference, if there is one.
fn check(
    rt: &(impl Print + AllocGlobal),
    subject: Subject<'_>,
    calls: Calls,
    report: &mut Differences,
) -> anyhow::Result<()> {
    report.count_conversion();
    if let Err(difference) = compare(rt.alloc(), subject, calls) {
        let what = format!(in rt.alloc(); "{difference} (a converter, {calls:?})")?;
        report.differs(rt, what.as_str())?;
    }
    Ok(())
}

// Converts with small parts and with the whole input, each with the least room and with much.
pub(crate) fn check_converters(
    rt: &(impl Print + AllocGlobal),
    subject: Subject<'_>,
    report: &mut Differences,
) -> anyhow::Result<()> {
    for part in [1, 2, 3, subject.setting.input.len()] {
        for room in [4, 64] {
            for ends_with_bytes in [false, true] {
                let calls = Calls {
                    part,
                    room,
                    ends_with_bytes,
                };
                check(rt, subject, calls, report)?;
            }
        }
    }
    Ok(())
}

// Converts with the whole input, and with much room.
pub(crate) fn check_converter_once(
    rt: &(impl Print + AllocGlobal),
    subject: Subject<'_>,
    report: &mut Differences,
) -> anyhow::Result<()> {
    let calls = Calls {
        part: subject.setting.input.len(),
        room: 64,
        ends_with_bytes: true,
    };
    check(rt, subject, calls, report)
}
