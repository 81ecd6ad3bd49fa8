//! A conversion step by step, and a run, which is the loop over its steps.

ghost use Rattle.std.specs.Prelude.{◌≡◌, ◌≤◌, ◌<◌, ◌^◌, ◌-◌, ◌↔◌, ◌==◌, IsTrue, IsSome, IfOk, None};
ghost use Rattle.std.specs.Prelude.{IfErr, IfSome, length, true, false};
ghost use Rattle.std.specs.Io.KnownBytes.{IsAtEnd};
ghost use Rattle.recode_log.specs.Counted.{inner_of};
ghost use Rattle.recode.specs.Job.{IsValidJob};
ghost use Rattle.recode.specs.calls.Buffers.{AreEnough, KeepSizes};
ghost use Rattle.recode.specs.calls.Chunk.{CanConvert};
ghost use Rattle.recode.specs.calls.EngineView.{engine_state};
ghost use Rattle.recode.specs.Session.{View, IsOver, IsNewSession, IsStepped, Tells, Completes};
ghost use Rattle.recode.specs.Session.{Fails};
ghost use Rattle.recode.specs.declared.session.Phase.TheVariants.{Open};
ghost use Rattle.recode.specs.Step.{Finishes, RunCalls, StepCalls, Stops, StepsOn};
ghost use Rattle.recode.specs.RunsTold.{FailsDecided};
ghost use Rattle.recode.specs.Told.{TellWhatPassed, told_at, told_in};
ghost use Rattle.recode.specs.Devices.{CountsFault, HaveFailedAtMost, devices_at, devices_in, ports};
ghost use Rattle.recode.specs.Devices.{ports_at};
ghost use Rattle.recode.specs.Order.{RunsInOrder, StepsInOrder};
ghost use Rattle.recode_log.specs.Ports.{SameDevices, journal_of};
ghost use Rattle.recode.specs.Work.{ReportsFewCalls};

use crate::chunk::write_chunk;
use crate::engine::Engine;
use crate::job::{Buffers, Fault, Job, Progress, Report};
use encoding_front::{Decoder, StreamDecoder, VariantEncoder};
use encoding_mem::RawEncoder;
use recode_log::counted::Counted;
use recode_log::ports::Ports;
use std::io::{Read, Write};

/// How far a session is, in the words of its contracts: `Session::is_over` says whether it is
/// still open, `Session::report` whether it is done.
#[derive(Clone, Copy, PartialEq, Eq, Debug)]
pub enum Phase {
    /// More may be read.
    Open,
    /// The end was read, and all is written.
    Done,
    /// A fault ended it.
    Stopped,
}

/// What a value is to its callers.
trait Viewed {
    ghost view: { Self → View };
}

/// A conversion, step by step. It holds no buffer: each step is lent some.
#[derive(Drop)]
pub struct Session<'t> {
    engine: Engine<Decoder<'t>, VariantEncoder<'t>>,
    job: Job<'t>,
    phase: Phase,
    ghost small: { job.limit ≤ 2 ^ 48 },
    ghost ready: { phase ≡ Open → CanConvert (engine_state
        ⟦<Decoder<'static> as StreamDecoder>⟧.view
        ⟦<VariantEncoder<'static> as RawEncoder>⟧.parts job.policy engine) },
    ghost rests: { phase ≡ Open → engine.answer ≡ None },
    ghost within: { phase ≡ Open → engine.counts.read ≤ job.limit },
}

impl<'t> Viewed for Session<'t> {
    ghost view = { λ s. record {
      job = s.job;
      state = engine_state ⟦<Decoder<'t> as StreamDecoder>⟧.view
          ⟦<VariantEncoder<'t> as RawEncoder>⟧.parts s.job.policy s.engine;
      phase = s.phase;
    } };
}

impl<'t> Session<'t> {
    ghost use Rattle.recode.specs.calls.SessionView.{view_of};

    /// A session that has read nothing. The condition, that the job is valid, is tested by
    /// `Job::is_valid`.
    pub fn new(job: Job<'t>) -> Self
        requires { IsValidJob job }
        ensures { IsNewSession (view_of result) job.entry }
    {
        Session {
            engine: Engine::new(job),
            job,
            phase: Phase::Open,
        }
    }

    /// Whether nothing more can be done: all was read and written, or a fault ended it. The test of
    /// the condition of `step`.
    pub fn is_over(&self) -> bool
        ensures { IsTrue result ↔ IsOver (view_of self.now).phase }
    {
        match self.phase {
            Phase::Open => false,
            Phase::Done | Phase::Stopped => true,
        }
    }

    /// What the run reports, once all was read and written; `None` before that, and after a fault.
    pub fn report(&self) -> Option<Report>
        ensures done { IsSome result ↔ ((view_of self.now).phase ≡ Phase.Done) }
        ensures tells { IfSome result (Tells (view_of self.now)) }
    {
        match self.phase {
            Phase::Done => Some(self.engine.report()),
            Phase::Open | Phase::Stopped => None,
        }
    }

    /// How many characters of the text were encoded so far: the index of the next one, as the lines
    /// of lost characters have it. The text has U+FFFD for each malformed sequence, and no mark
    /// that was taken.
    ///
    /// After `Ok(More)` it counts all that the bytes read so far decide, and after `Ok(Done)` the
    /// text of the whole input. After `Fault::Read` and `Fault::TooLong` it is what it was before
    /// that step; of other faults nothing is promised.
    pub fn characters(&self) -> u64
        ensures { result ≡ (view_of self.now).state.counts.index }
    {
        self.engine.counts.index
    }

    /// One read, and all that follows from it: what it gives is decoded, encoded and written, and
    /// what is lost is logged.
    ///
    /// - `Ok(More)`: at least one byte was read. All that the bytes read so far decide, however the
    ///   input goes on, is written and logged, with each piece that ends three or more bytes before
    ///   their end.
    /// - `Ok(Done)`: the end of the input was read, and no byte. Output and log are whole; `report`
    ///   has the rest.
    /// - `Err`: a call of the reader (`Read`), the writer (`Write`) or the log (`Log`) failed, the
    ///   input has more bytes than the job's limit (`TooLong`), or the policy stopped at a
    ///   character (`Unmappable`). Output and log have a prefix of what was still to be written. At
    ///   `Read` and `TooLong` the step wrote nothing. At `Unmappable` it wrote all that comes
    ///   before the character, the escape that would come before its reference, and its line. The
    ///   session is over.
    ///
    /// Conditions: the session is not over (`is_over`), the buffers are enough
    /// (`Buffers::is_enough`), and at most 2^64 - 2 calls of each device have failed
    /// (`Counted::failures`). Nothing stays in the buffers: each step may be lent others.
    pub fn step<R: Read, W: Write, L: Write>(
        &mut self,
        reader: &mut Counted<R>,
        writer: &mut Counted<W>,
        log: &mut Counted<L>,
        buffers: &mut Buffers<'_>,
    ) -> Result<Progress, Fault>
        requires over { ¬ (IsOver (view_of self.old).phase) }
        requires buffers { AreEnough buffers.old }
        requires counts { HaveFailedAtMost (2 ^ 64 - 2)
            (devices_in reader.old writer.old log.old).failures }

        ensures more { result ≡ Ok Progress.More → StepsOn
            (devices_in reader.old writer.old log.old) (devices_in reader.new writer.new log.new)
            (view_of self.old).job.limit (view_of self.old).state (view_of self.new).state }
        ensures done { result ≡ Ok Progress.Done → Finishes
            (devices_in reader.old writer.old log.old) (devices_in reader.new writer.new log.new)
            (view_of self.old).job.limit (view_of self.old).state (view_of self.new).state }
        ensures told { TellWhatPassed
            (devices_in reader.old writer.old log.old) (devices_in reader.new writer.new log.new)
            (told_in R.remaining W.contents L.contents reader.old writer.old log.old)
            (told_in R.remaining W.contents L.contents reader.new writer.new log.new)
            × (result ≡ Ok Progress.Done → IsAtEnd (R.remaining (inner_of reader.old))) }
        ensures fault { IfErr result (Stops
            (devices_in reader.old writer.old log.old) (devices_in reader.new writer.new log.new)
            (view_of self.old).job.limit (view_of self.old).state) }
        ensures session { IsStepped (view_of self.old) (view_of self.new) result }
        ensures buffers { KeepSizes buffers.old buffers.new }
        ensures failures { CountsFault (devices_in reader.old writer.old log.old)
            (devices_in reader.new writer.new log.new) result }
        ensures calls { StepCalls (ports reader.old writer.old log.old)
            (ports reader.new writer.new log.new) (length buffers.old.input.now) result }
    {
        let mut ports = Ports::new(reader, writer, log);
        self.step_on(&mut ports, buffers)
    }

    /// Like `step`, over `Ports`. Its journal grows by one call of the reader, then by calls of the
    /// writer and the log.
    ///
    /// Conditions: those of `step`.
    pub fn step_on<R: Read, W: Write, L: Write>(
        &mut self,
        ports: &mut Ports<'_, '_, '_, R, W, L>,
        buffers: &mut Buffers<'_>,
    ) -> Result<Progress, Fault>
        requires over { ¬ (IsOver (view_of self.old).phase) }
        requires buffers { AreEnough buffers.old }
        requires counts { HaveFailedAtMost (2 ^ 64 - 2)
            (devices_at ports.old).failures }

        ensures more { result ≡ Ok Progress.More → StepsOn
            (devices_at ports.old) (devices_at ports.new)
            (view_of self.old).job.limit (view_of self.old).state (view_of self.new).state }
        ensures done { result ≡ Ok Progress.Done → Finishes
            (devices_at ports.old) (devices_at ports.new)
            (view_of self.old).job.limit (view_of self.old).state (view_of self.new).state }
        ensures told { TellWhatPassed
            (devices_at ports.old) (devices_at ports.new)
            (told_at R.remaining W.contents L.contents ports.old)
            (told_at R.remaining W.contents L.contents ports.new)
            × (result ≡ Ok Progress.Done → IsAtEnd (R.remaining (inner_of ports.old.reader.now))) }
        ensures fault { IfErr result (Stops
            (devices_at ports.old) (devices_at ports.new)
            (view_of self.old).job.limit (view_of self.old).state) }
        ensures session { IsStepped (view_of self.old) (view_of self.new) result }
        ensures buffers { KeepSizes buffers.old buffers.new }
        ensures failures { CountsFault (devices_at ports.old)
            (devices_at ports.new) result }
        ensures calls { StepCalls (ports_at ports.old) (ports_at ports.new)
            (length buffers.old.input.now) result }
        ensures order { SameDevices ports.old ports.new
            × StepsInOrder (journal_of ports.old) (journal_of ports.new) }
    {
        self.phase = Phase::Stopped;
        let Ok(read) = ports.read(buffers.input) else {
            return Err(Fault::Read);
        };
        if read as u64 > self.job.limit - self.engine.counts.read {
            return Err(Fault::TooLong);
        }
        // Lent as `&mut`, since the borrow checker refuses `&` beside the other buffers.
        write_chunk(
            &mut self.engine,
            ports,
            buffers.output,
            self.job.policy,
            &mut buffers.input[..read],
            &mut buffers.pivot,
            &mut buffers.check,
        )?;
        if read == 0 {
            self.phase = Phase::Done;
            Ok(Progress::Done)
        } else {
            self.phase = Phase::Open;
            Ok(Progress::More)
        }
    }
}

/// Converts the whole input of a job, step by step, and returns the report on it. It takes at most
/// as many steps as the limit has bytes, and one more. Each reads once, with room of the whole
/// input buffer; the reader is not called again after a read that gave no bytes, nor after a fault.
///
/// - `Ok`: the input was read to its end, and is within the limit. Exactly its output and its log
///   were written. They depend on the input and the job alone: not on how reads are cut, on the
///   sizes of the buffers or on the kind of the pivot. The codecs were called at least twice (four
///   times if the input has a byte), three more times for each malformed sequence and once more for
///   each lost character. They were called at most 37 times for each byte of the input, and 9 times
///   more.
/// - `Err`: a call of the reader (`Read`), the writer (`Write`) or the log (`Log`) failed, and no
///   other. Or none failed, and the input has more bytes than the job's limit (`TooLong`), or the
///   policy is `Policy::Stop` and a character has no bytes (`Unmappable`). Output and log have a
///   prefix of what is right for the bytes read, however they go on. At `Read` and `TooLong` it is
///   all that the bytes before the last read decide, with each piece that ends three or more bytes
///   before their end. At `Unmappable` it is all that comes before the character, the escape that
///   would come before its reference, and its line.
///
/// Conditions: the job is valid (`Job::is_valid`), the buffers are enough (`Buffers::is_enough`),
/// and at most 2^64 - 2 calls of each device have failed (`Counted::failures`).
pub fn run<R: Read, W: Write, L: Write>(
    reader: &mut Counted<R>,
    writer: &mut Counted<W>,
    log: &mut Counted<L>,
    job: Job<'_>,
    buffers: &mut Buffers<'_>,
) -> Result<Report, Fault>
    requires job { IsValidJob job }
    requires buffers { AreEnough buffers.old }
    requires counts { HaveFailedAtMost (2 ^ 64 - 2)
        (devices_in reader.old writer.old log.old).failures }

    ensures completes { IfOk result (Completes (devices_in reader.old writer.old log.old)
        (devices_in reader.new writer.new log.new) job.entry) }
    ensures fails { IfErr result (Fails (devices_in reader.old writer.old log.old)
        (devices_in reader.new writer.new log.new) job.entry) }
    ensures work { IfOk result ReportsFewCalls }
    ensures decided { IfErr result (FailsDecided (devices_in reader.old writer.old log.old)
        (devices_in reader.new writer.new log.new) job.entry) }
    ensures buffers { KeepSizes buffers.old buffers.new }
    ensures failures { CountsFault (devices_in reader.old writer.old log.old)
        (devices_in reader.new writer.new log.new) result }
    ensures calls { RunCalls (ports reader.old writer.old log.old)
        (ports reader.new writer.new log.new) (length buffers.old.input.now) result }
    ensures told { TellWhatPassed
        (devices_in reader.old writer.old log.old) (devices_in reader.new writer.new log.new)
        (told_in R.remaining W.contents L.contents reader.old writer.old log.old)
        (told_in R.remaining W.contents L.contents reader.new writer.new log.new) }
{
    let mut ports = Ports::new(reader, writer, log);
    run_on(&mut ports, job, buffers)
}

/// Like `run`, over `Ports`, whose journal has the calls of all three devices in their order: at each
/// call of the reader, the writer and the log have taken all that is certain of what it gave before,
/// in one order, and no more.
///
/// Conditions: those of `run`.
pub fn run_on<R: Read, W: Write, L: Write>(
    ports: &mut Ports<'_, '_, '_, R, W, L>,
    job: Job<'_>,
    buffers: &mut Buffers<'_>,
) -> Result<Report, Fault>
    requires job { IsValidJob job }
    requires buffers { AreEnough buffers.old }
    requires counts { HaveFailedAtMost (2 ^ 64 - 2)
        (devices_at ports.old).failures }

    ensures completes { IfOk result (Completes (devices_at ports.old)
        (devices_at ports.new) job.entry) }
    ensures fails { IfErr result (Fails (devices_at ports.old) (devices_at ports.new)
        job.entry) }
    ensures work { IfOk result ReportsFewCalls }
    ensures decided { IfErr result (FailsDecided (devices_at ports.old)
        (devices_at ports.new) job.entry) }
    ensures buffers { KeepSizes buffers.old buffers.new }
    ensures failures { CountsFault (devices_at ports.old)
        (devices_at ports.new) result }
    ensures calls { RunCalls (ports_at ports.old) (ports_at ports.new)
        (length buffers.old.input.now) result }
    ensures told { TellWhatPassed
        (devices_at ports.old) (devices_at ports.new)
        (told_at R.remaining W.contents L.contents ports.old)
        (told_at R.remaining W.contents L.contents ports.new) }
    ensures order { SameDevices ports.old ports.new
        × RunsInOrder (journal_of ports.old) (journal_of ports.new) job.entry }
{
    let mut session = Session::new(job);
    'run: loop {
        match session.step_on(ports, buffers) {
            Ok(Progress::More) => {}
            Ok(Progress::Done) => return Ok(session.engine.report()),
            Err(fault) => return Err(fault),
        }
    }
}
