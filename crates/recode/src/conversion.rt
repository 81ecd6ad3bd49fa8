//! A whole conversion: a run, the flushes, the status and the message.

ghost use Rattle.std.specs.Prelude.{◌≡◌, ◌≢◌, ◌<◌, ◌^◌, ◌-◌, length};
ghost use Rattle.recode_log.specs.Counted.{TellsMessage, inner_of, failures_of, passed_of};
ghost use Rattle.recode_log.specs.Ports.{CallsLog, CallsWriter, SameDevices, journal_of};
ghost use Rattle.recode_log.specs.Told.{TellsTaken};
ghost use Rattle.recode.specs.Job.{IsValidJob};
ghost use Rattle.recode.specs.calls.Buffers.{AreEnough, KeepSizes};
ghost use Rattle.recode.specs.Devices.{HaveFailedAtMost, devices_at, devices_in, ports, ports_at};
ghost use Rattle.recode.specs.Order.{RunsInOrder};
ghost use Rattle.recode.specs.Conversion.{Converts, EndsInFault, IsConversion, IsFlushed};
ghost use Rattle.recode.specs.Conversion.{after_flushes};
ghost use Rattle.recode.specs.Conversion.{message_of};
ghost use Rattle.recode.specs.Told.{TellWhatPassed, told_at, told_in};

use crate::job::{Buffers, Fault, Job, Report};
use crate::session::run_on;
use recode_log::counted::Counted;
use recode_log::line::write_message;
use recode_log::ports::Ports;
use std::io::{Read, Write};

/// The status if all was converted, and nothing was lost: the output reads back as the input's
/// text.
pub const FAITHFUL: u8 = 0;

/// The status if all was converted, and something was lost. The log names what is malformed and
/// what has no bytes; what was written as bytes that read back otherwise has no line.
pub const NOT_FAITHFUL: u8 = 1;

/// The status if a call of a device failed, the input was too long, or the policy stopped the
/// conversion.
pub const FAULT: u8 = 4;

// Flushes the writer, and returns whether that failed.
#[tactic(auto, using(crate::proofs::TellLemmas::flush_rules))]
fn flush<R, W: Write, L>(ports: &mut Ports<'_, '_, '_, R, W, L>) -> bool
    requires { failures_of ports.old.writer.now < 2 ^ 64 - 1 }
    ensures flushed { IsFlushed ports.old.writer.now ports.new.writer.now result }
    ensures kept { passed_of ports.new.writer.now ≡ passed_of ports.old.writer.now }
    ensures told { TellsTaken (passed_of ports.old.writer.now) (passed_of ports.new.writer.now)
        (W.contents (inner_of ports.old.writer.now)) (W.contents (inner_of ports.new.writer.now)) }
    ensures journal { CallsWriter ports.old ports.new }
{
    ports.flush().is_err()
}

// Flushes the log, and returns whether that failed.
#[tactic(auto, using(crate::proofs::TellLemmas::flush_rules))]
fn flush_log<R, W, L: Write>(ports: &mut Ports<'_, '_, '_, R, W, L>) -> bool
    requires { failures_of ports.old.log.now < 2 ^ 64 - 1 }
    ensures flushed { IsFlushed ports.old.log.now ports.new.log.now result }
    ensures kept { passed_of ports.new.log.now ≡ passed_of ports.old.log.now }
    ensures told { TellsTaken (passed_of ports.old.log.now) (passed_of ports.new.log.now)
        (L.contents (inner_of ports.old.log.now)) (L.contents (inner_of ports.new.log.now)) }
    ensures journal { CallsLog ports.old ports.new }
{
    ports.flush_log().is_err()
}

// What a conversion comes to: the report of its run, or the first fault.
fn after_flushes(
    answer: Result<Report, Fault>,
    writer_failed: bool,
    log_failed: bool,
) -> Result<Report, Fault>
    ensures { result ≡ after_flushes answer writer_failed log_failed }
{
    match answer {
        Ok(_) if writer_failed => Err(Fault::Write),
        Ok(_) if log_failed => Err(Fault::Log),
        answer => answer,
    }
}

// What is reported of a fault. If that has numbers, it is written into this room.
fn message_of(fault: Fault, numbers: &mut [u8; 64]) -> &[u8]
    ensures { result.now ≡ message_of fault }
{
    match fault {
        Fault::Read => b"recode: read fault\n",
        Fault::Write => b"recode: write fault\n",
        Fault::Log => b"recode: log fault\n",
        Fault::TooLong => b"recode: input too long\n",
        Fault::Unmappable { index, scalar } => {
            let len = write_message(numbers, b"recode: unmappable ", index, u32::from(scalar));
            &numbers[..len]
        }
    }
}

// Writes the message of a fault to the log; if that fails, the rest of it is dropped.
fn tell_fault<R, W, L: Write>(ports: &mut Ports<'_, '_, '_, R, W, L>, fault: Fault)
    requires { failures_of ports.old.log.now < 2 ^ 64 - 1 }
    ensures tells { TellsMessage ports.old.log.now ports.new.log.now (message_of fault) }
    ensures told { TellsTaken (passed_of ports.old.log.now) (passed_of ports.new.log.now)
        (L.contents (inner_of ports.old.log.now)) (L.contents (inner_of ports.new.log.now)) }
    ensures journal { CallsLog ports.old ports.new }
{
    let mut numbers = [0; 64];
    ports.tell_log(message_of(fault, &mut numbers));
}

/// Runs the job, flushes the writer, then the log, and returns the status.
///
/// - 0 (`FAITHFUL`): all was converted, no call failed, and output and log are whole. Nothing was
///   lost: no piece of the input is malformed, and the output reads back as the input's text.
/// - 1 (`NOT_FAITHFUL`): all was converted, and something was lost. The log has a line for each
///   malformed sequence and each character without bytes; it can be empty if a character was
///   written as bytes that do not read back as it. No character is written so if
///   `encoding_front::Encoding::keeps_characters` holds of the target.
/// - 4 (`FAULT`): a call of a device failed, the input has more bytes than the job's limit, or the
///   policy is `Policy::Stop` and a character has no bytes. Output and log have a prefix of what is
///   right for the bytes read, however they go on. If the policy stopped, they have all that comes
///   before the character, the escape that would come before its reference, and its line. After
///   that the log has the message of the first fault, as `recode: write fault` or
///   `recode: unmappable INDEX SCALAR`, and a line feed; what can't be written of that is dropped.
///   The first fault is that of the run, or else that of the writer's flush, or else that of the
///   log's.
///
/// Devices are called as by `run`, then the writer and the log are flushed once, also after a
/// fault, and then the message is written, as by `recode_log::deliver::tell`.
///
/// Conditions: the job is valid (`Job::is_valid`), the buffers are enough (`Buffers::is_enough`),
/// and at most 2^64 - 5 calls of each device have failed (`Counted::failures`).
pub fn convert<R: Read, W: Write, L: Write>(
    reader: &mut Counted<R>,
    writer: &mut Counted<W>,
    log: &mut Counted<L>,
    job: Job<'_>,
    buffers: &mut Buffers<'_>,
) -> u8
    requires job { IsValidJob job }
    requires buffers { AreEnough buffers.old }
    requires counts { HaveFailedAtMost (2 ^ 64 - 5)
        (devices_in reader.old writer.old log.old).failures }

    ensures buffers { KeepSizes buffers.old buffers.new }
    ensures conversion { IsConversion (ports reader.old writer.old log.old)
        (ports reader.new writer.new log.new) job.entry (length buffers.old.input.now) result }
    ensures converts { result ≢ 4 → Converts (devices_in reader.old writer.old log.old)
        (devices_in reader.new writer.new log.new) job.entry result }
    ensures faults { result ≡ 4 → EndsInFault (devices_in reader.old writer.old log.old)
        (devices_in reader.new writer.new log.new) job.entry }
    ensures quiet { result ≢ 4 → (devices_in reader.new writer.new log.new).failures
        ≡ (devices_in reader.old writer.old log.old).failures }
    ensures told { TellWhatPassed
        (devices_in reader.old writer.old log.old) (devices_in reader.new writer.new log.new)
        (told_in R.remaining W.contents L.contents reader.old writer.old log.old)
        (told_in R.remaining W.contents L.contents reader.new writer.new log.new) }
{
    let mut ports = Ports::new(reader, writer, log);
    convert_on(&mut ports, job, buffers)
}

/// Like `convert`, over `Ports`: at each call of the reader, the writer and the log have taken all
/// that is certain of what it gave before, in one order, and no more. The writer is flushed before
/// the log, and both before the message.
///
/// Conditions: those of `convert`.
pub fn convert_on<R: Read, W: Write, L: Write>(
    ports: &mut Ports<'_, '_, '_, R, W, L>,
    job: Job<'_>,
    buffers: &mut Buffers<'_>,
) -> u8
    requires job { IsValidJob job }
    requires buffers { AreEnough buffers.old }
    requires counts { HaveFailedAtMost (2 ^ 64 - 5)
        (devices_at ports.old).failures }

    ensures buffers { KeepSizes buffers.old buffers.new }
    ensures conversion { IsConversion (ports_at ports.old) (ports_at ports.new) job.entry
        (length buffers.old.input.now) result }
    ensures converts { result ≢ 4 → Converts (devices_at ports.old)
        (devices_at ports.new) job.entry result }
    ensures faults { result ≡ 4 → EndsInFault (devices_at ports.old)
        (devices_at ports.new) job.entry }
    ensures quiet { result ≢ 4 → (devices_at ports.new).failures
        ≡ (devices_at ports.old).failures }
    ensures told { TellWhatPassed
        (devices_at ports.old) (devices_at ports.new)
        (told_at R.remaining W.contents L.contents ports.old)
        (told_at R.remaining W.contents L.contents ports.new) }
    ensures order { RunsInOrder (journal_of ports.old) (journal_of ports.new) job.entry }
    ensures same { SameDevices ports.old ports.new }
{
    let answer = run_on(ports, job, buffers);
    let writer_failed = flush(ports);
    let log_failed = flush_log(ports);
    match after_flushes(answer, writer_failed, log_failed) {
        Ok(report) => {
            if report.faithful {
                FAITHFUL
            } else {
                NOT_FAITHFUL
            }
        }
        Err(fault) => {
            tell_fault(ports, fault);
            FAULT
        }
    }
}
