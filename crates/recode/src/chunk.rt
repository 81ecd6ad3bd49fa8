//! What was read is converted, and what is made of it handed to the two writers: here alone they
//! are called.

ghost use Rattle.std.specs.Prelude.{◌≡◌, ◌+◌, ◌-◌, ◌^◌, ◌<◌, ◌≤◌, ◌++◌, IfErr, None, OnOk, length};
ghost use Rattle.recode.specs.State.{to_write};
ghost use Rattle.recode.specs.WrittenItems.{IsSpared, WritesPrefixFor};
ghost use Rattle.recode.specs.calls.Chunk.{CanConvert, ConvertsChunk};
ghost use Rattle.recode.specs.calls.EngineView.{engine_state};
ghost use Rattle.recode.specs.calls.Lent.{AreLent, KeepsLent};
ghost use Rattle.recode.specs.calls.Writers.{AreReady, HandsOnUnder, is_end};
ghost use Rattle.recode_log.specs.Line.{IsValid};
ghost use Rattle.recode_log.specs.declared.line.LogLine.TheVariants.{Lost};
ghost use Rattle.recode.specs.Converter.{found_items};
ghost use Rattle.recode.specs.Policy.{reference_form};
ghost use Rattle.recode.specs.declared.converter.ConverterResult.TheVariants.{Found};
ghost use Rattle.recode.specs.declared.job.Policy.{Policy};
ghost use Rattle.recode.specs.calls.Writers.{CountsPortsFault, TellWhatPortsTook, writers};
ghost use Rattle.recode.specs.Devices.{written_of};
ghost use Rattle.recode_log.specs.Counted.{failures_of};

use crate::converter::ConverterResult;
use crate::engine::Engine;
use crate::job::{Fault, Pivot, Policy};
use crate::writers::{Held, MalformedLine};
use encoding_front::StreamDecoder;
use encoding_mem::RawEncoder;
use recode_log::line::LogLine;
use recode_log::ports::Ports;
use std::io::Write;

// Logs a lost character, and has its reference held, or stops.
fn log_lost<R, W: Write, L: Write>(
    held: &mut Held,
    buffer: &mut [u8],
    ports: &mut Ports<'_, '_, '_, R, W, L>,
    policy: Policy,
    index: u64,
    scalar: char,
) -> Result<(), Fault>
    requires valid { index ≤ 2 ^ 48 }
    requires ready { AreReady (writers held.old buffer.old ports.old) }
    ensures hands { HandsOnUnder policy W.contents L.contents
        (writers held.old buffer.old ports.old) (writers held.new buffer.new ports.new)
        (found_items (reference_form policy) (Found (Lost index scalar))) result }
    ensures spared { OnOk result (¬ (policy ≡ Policy.Stop)) }
{
    held.log_line(buffer, ports, LogLine::Lost { index, scalar })?;
    let form = policy.reference_at(index, scalar)?;
    held.put_reference(buffer, ports, scalar, form)
}

// Hands on what the engine found: the line of a malformed sequence is held, a lost character is
// logged.
fn take_found<R, W: Write, L: Write>(
    held: &mut Held,
    buffer: &mut [u8],
    ports: &mut Ports<'_, '_, '_, R, W, L>,
    policy: Policy,
    line: LogLine,
) -> Result<(), Fault>
    requires valid { IsValid line }
    requires ready { AreReady (writers held.old buffer.old ports.old) }
    ensures hands { HandsOnUnder policy W.contents L.contents
        (writers held.old buffer.old ports.old) (writers held.new buffer.new ports.new)
        (found_items (reference_form policy) (Found line)) result }
    ensures spared { OnOk result (IsSpared policy
        (found_items (reference_form policy) (Found line))) }
{
    match line {
        LogLine::Bad { offset, length } => {
            held.hold_line(buffer, ports, MalformedLine { offset, length })
        }
        LogLine::Lost { index, scalar } => log_lost(held, buffer, ports, policy, index, scalar),
    }
}

/// Converts all that was read, and logs what is lost: in the end nothing is held. No bytes are the
/// end of the input.
pub fn write_chunk<D: StreamDecoder, E: RawEncoder, R, W: Write, L: Write>(
    engine: &mut Engine<D, E>,
    ports: &mut Ports<'_, '_, '_, R, W, L>,
    buffer: &mut [u8],
    policy: Policy,
    chunk: &[u8],
    pivot: &mut Pivot<'_>,
    check: &mut Pivot<'_>,
) -> Result<(), Fault>
    requires ready { CanConvert
        (engine_state D.view E.parts policy engine.old) }
    requires none { engine.old.answer ≡ None }
    requires limit { engine.old.counts.read + length chunk.now ≤ 2 ^ 48 }
    requires lent { AreLent pivot.old check.old }
    requires writers { (4 ≤ length buffer.old) × (failures_of ports.old.writer.now < 2 ^ 64 - 1)
        × (failures_of ports.old.log.now < 2 ^ 64 - 1) }
    ensures chunk { OnOk result (ConvertsChunk
        (written_of ports.old) (written_of ports.new)
        (engine_state D.view E.parts policy engine.old)
        (engine_state D.view E.parts policy engine.new)
        chunk.now (is_end chunk.now)) }
    ensures none { OnOk result (engine.new.answer ≡ None) }
    ensures err { IfErr result (λ f. WritesPrefixFor
        (written_of ports.old) (written_of ports.new) policy f (is_end chunk.now)
        (λ r. to_write (engine_state D.view E.parts policy engine.old)
        (chunk.now ++ r))) }
    ensures target { (E.parts engine.new.encoder).coding
        ≡ (E.parts engine.old.encoder).coding }
    ensures failures { CountsPortsFault ports.old ports.new result }
    ensures told { TellWhatPortsTook W.contents L.contents ports.old ports.new }
    ensures buffer { length buffer.new ≡ length buffer.old }
    ensures lent { KeepsLent pivot.old check.old pivot.new check.new }
{
    let last = chunk.is_empty();
    let mut rest = chunk;
    let mut held = Held { line: None, len: 0 };
    // The pivot may be another one than that of the step before.
    engine.from = 0;
    engine.to = 0;
    'calls: loop {
        held.make_room(buffer, ports)?;
        let room = &mut buffer[held.len..];
        let (result, read, written) = engine.convert(rest, room, pivot, check, last);
        held.len += written;
        rest = &rest[read..];
        match result {
            ConverterResult::InputEmpty => return held.deliver_held(buffer, ports),
            ConverterResult::OutputFull => {}
            ConverterResult::Found(line) => {
                take_found(&mut held, buffer, ports, policy, line)?;
            }
        }
    }
}
