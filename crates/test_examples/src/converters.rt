//! A function of a user, who hands a converter its input one byte at a time.

ghost use Rattle.std.specs.Prelude.{◌≡◌, ◌≢◌, ◌+◌, ◌≤◌, ◌++◌, ◌↔◌, [], true, false};
ghost use Rattle.std.specs.Prelude.{IfOk, IsTrue, OnOk, drop, length};
ghost use Rattle.encoding_mem.specs.Coding.{reference_bytes};
ghost use Rattle.recode.specs.Converter.{AllIsConverted, found_items};
ghost use Rattle.recode.specs.Job.{Faithful, IsValidJob, log_of, output_of};
ghost use Rattle.recode.specs.Policy.{reference_form};
ghost use Rattle.recode.specs.calls.ConverterView.{converter_view};
ghost use Rattle.recode.specs.declared.job.Policy.{Policy};
ghost use Rattle.test_examples.specs.Calls.{EndsTurn, GainsItems, HasValidFound, PassesOn};

use encoding_front::write_reference;
use recode::laws::resumed_converters_go_on;
use recode::{Converter, ConverterResult, Job, LogLine, Policy, Reference, Report, Tables};
use std::alloc::AllocError;

// The form of the references that a policy writes.
fn form_of(policy: Policy) -> Reference
    requires { policy ≢ Policy.Stop }
    ensures { result ≡ reference_form policy }
{
    match policy.reference() {
        Some(form) => form,
        None => unreachable!(),
    }
}

// Writes the reference of a lost character.
fn append_reference(scalar: char, form: Reference, output: &mut Vec<u8>) -> Result<(), AllocError>
    ensures { OnOk result (output.new.items
        ≡ output.old.items ++ reference_bytes form scalar) }
{
    let mut bytes = [0; 10];
    let len = write_reference(scalar, form, &mut bytes);
    output.extend_from_slice(&bytes[..len])
}

// Writes what a call found, if it found something: the line, and the reference of a lost character.
fn append_found(
    found: ConverterResult,
    form: Reference,
    output: &mut Vec<u8>,
    log: &mut Vec<u8>,
) -> Result<(), AllocError>
    requires { HasValidFound found }
    ensures { OnOk result (GainsItems output.old.items output.new.items log.old.items log.new.items
        (found_items form found)) }
{
    let ConverterResult::Found(line) = found else {
        return Ok(());
    };
    let mut bytes = [0; 32];
    let len = line.write_into(&mut bytes);
    log.extend_from_slice(&bytes[..len])?;
    match line {
        LogLine::Bad {
            offset: _,
            length: _,
        } => Ok(()),
        LogLine::Lost { index: _, scalar } => append_reference(scalar, form, output),
    }
}

// Calls a converter once, and writes what the call gives. Returns how the call ended and how many
// bytes it read.
fn convert_once(
    converter: &mut Converter<'_>,
    src: &[u8],
    last: bool,
    form: Reference,
    output: &mut Vec<u8>,
    log: &mut Vec<u8>,
) -> Result<(ConverterResult, usize), AllocError>
    requires over { (converter_view converter.old).over ≡ false }
    requires ended { (converter_view converter.old).ended ≡ true → (src.now ≡ []) × (last ≡ true) }
    requires limit { (converter_view converter.old).state.counts.read + length src.now
        ≤ (converter_view converter.old).job.limit }
    requires form { form ≡ reference_form (converter_view converter.old).job.policy }
    ensures law { IfOk result (λ turn. PassesOn
        (converter_view converter.old) (converter_view converter.new) last
        src.now (drop turn.1 src.now)
        output.old.items output.new.items log.old.items log.new.items) }
    ensures ends { IfOk result (λ turn. EndsTurn
        (converter_view converter.old) (converter_view converter.new) last
        src.now (drop turn.1 src.now) turn.0) }
    ensures within { IfOk result (λ turn. turn.1 ≤ length src.now) }
{
    let mut room = [0; 4];
    let (result, read, written) = converter.convert(src, &mut room, last);
    output.extend_from_slice(&room[..written])?;
    append_found(result, form, output, log)?;
    Ok((result, read))
}

// Calls a converter until all of these bytes is converted, and writes what the calls give.
fn convert_part(
    converter: &mut Converter<'_>,
    src: &[u8],
    last: bool,
    form: Reference,
    output: &mut Vec<u8>,
    log: &mut Vec<u8>,
) -> Result<(), AllocError>
    requires over { (converter_view converter.old).over ≡ false }
    requires ended { (converter_view converter.old).ended ≡ true → (src.now ≡ []) × (last ≡ true) }
    requires limit { (converter_view converter.old).state.counts.read + length src.now
        ≤ (converter_view converter.old).job.limit }
    requires form { form ≡ reference_form (converter_view converter.old).job.policy }
    ensures law { OnOk result (PassesOn
        (converter_view converter.old) (converter_view converter.new) last src.now []
        output.old.items output.new.items log.old.items log.new.items) }
    ensures ends { OnOk result (AllIsConverted (converter_view converter.new) [] last) }
{
    let mut rest = src;
    'turns: loop {
        let (result, read) = convert_once(converter, rest, last, form, output, log)?;
        rest = &rest[read..];
        match result {
            ConverterResult::InputEmpty => return Ok(()),
            ConverterResult::OutputFull | ConverterResult::Found(_) => {}
        }
    }
}

// A converter that goes on from what was saved of another one, as that one would have.
fn continued<'t>(converter: &Converter<'_>, tables: &'t Tables) -> Converter<'t>
    requires { (converter_view converter.now).lists ≡ tables.now }
    ensures { converter_view result ≡ converter_view converter.now }
{
    resumed_converters_go_on();
    let (saved, text) = converter.saved();
    Converter::resumed(saved, text, tables)
}

/// Converts an input that comes one byte at a time, and adds to the ends of an output and a log
/// what the job makes of it. Between two bytes nothing is kept but what a converter saves. An
/// `Err` says that no memory was left.
///
/// The first condition is tested by `Job::is_valid`.
pub(crate) fn convert_singly(
    job: Job<'_>,
    input: &[u8],
    output: &mut Vec<u8>,
    log: &mut Vec<u8>,
) -> Result<Report, AllocError>
    requires valid { IsValidJob job }
    requires policy { job.policy ≢ Policy.Stop }
    requires limit { length input.now ≤ job.limit }
    ensures output { OnOk result (output.new.items
        ≡ output.old.items ++ output_of job.entry input.now) }
    ensures logged { OnOk result (log.new.items ≡ log.old.items ++ log_of job.entry input.now) }
    ensures verdict { IfOk result (λ report.
        IsTrue report.faithful ↔ Faithful job.entry input.now) }
{
    let form = form_of(job.policy);
    let mut converter = Converter::new(job);
    'bytes: for &byte in input {
        convert_part(&mut converter, &[byte], false, form, output, log)?;
        converter = continued(&converter, job.tables);
    }
    convert_part(&mut converter, &[], true, form, output, log)?;
    match converter.report() {
        Some(report) => Ok(report),
        None => unreachable!(),
    }
}
