//! Makes a conversion in one of two ways, and keeps what came of it.

use crate::sink::{Manners, Sink, WILLING};
use crate::source::{Reads, Source};
use crate::tape::{Device, Event, Tape};
use anyhow::{Context, bail, ensure};
use encoding_front::Encoding;
use encoding_tables::Tables;
use recode::{Buffers, Fault, Job, Mark, Pivot, Policy, Progress, Report, Session, convert, run};
use recode_log::counted::Counted;
use std::alloc::{AllocError, Global};
use std::io::ErrorKind;

/// How many elements the buffers have, and whether the pivots are in UTF-16.
#[derive(Clone, Copy, Debug)]
pub struct Sizes {
    pub input: usize,
    pub pivot: usize,
    pub output: usize,
    pub check: usize,
    pub is_wide: bool,
}

/// The least buffers that are enough.
pub const LEAST: Sizes = Sizes {
    input: 1,
    pivot: 4,
    output: 4,
    check: 4,
    is_wide: false,
};

/// The least buffers that are enough, with pivots in UTF-16.
pub const LEAST_WIDE: Sizes = Sizes {
    pivot: 2,
    check: 2,
    is_wide: true,
    ..LEAST
};

/// Room for all of a small input.
pub const ROOMY: Sizes = Sizes {
    input: 4096,
    pivot: 4096,
    output: 4096,
    check: 4096,
    is_wide: false,
};

/// Room for all of a small input, with pivots in UTF-16.
pub const ROOMY_WIDE: Sizes = Sizes {
    is_wide: true,
    ..ROOMY
};

/// The least buffers and large ones, each with either kind of pivot.
pub const SIZES: [Sizes; 4] = [LEAST, LEAST_WIDE, ROOMY, ROOMY_WIDE];

/// The calls that make a conversion.
#[derive(Clone, Copy, Debug)]
pub enum Way {
    /// `run`, once.
    Run,
    /// `Session::step`, until the session is over.
    Steps,
}

/// Both ways.
pub const WAYS: [Way; 2] = [Way::Run, Way::Steps];

/// What is converted, and how.
#[derive(Clone, Copy)]
pub struct Setting<'a> {
    pub from: Encoding,
    pub to: Encoding,
    pub mark: Mark,
    pub policy: Policy,
    pub input: &'a [u8],
    /// How many bytes the input may have at most.
    pub limit: usize,
}

impl<'a> Setting<'a> {
    /// Returns the job that the engine is given.
    pub fn job<'t>(&self, tables: &'t Tables) -> Job<'t> {
        Job {
            from: self.from,
            to: self.to,
            mark: self.mark,
            policy: self.policy,
            limit: self.limit as u64,
            tables,
        }
    }
}

/// The buffers of a conversion, and what its devices do.
#[derive(Clone, Copy, Debug)]
pub struct Plan {
    pub reads: Reads,
    pub sizes: Sizes,
    /// The number of the only read that fails, counted from 1, or 0 if none fails.
    pub read_fails_at: usize,
    pub read_kind: ErrorKind,
    pub writer: Manners,
    pub log: Manners,
}

/// The input in one read, large buffers, and no fault.
pub const AT_ONCE: Plan = Plan {
    reads: Reads::CutAt(0),
    sizes: ROOMY,
    read_fails_at: 0,
    read_kind: ErrorKind::BrokenPipe,
    writer: WILLING,
    log: WILLING,
};

/// What came of a conversion.
#[derive(Drop)]
pub struct Outcome<A> {
    pub answer: A,
    pub output: Vec<u8>,
    pub log: Vec<u8>,
    /// The failures of the reader, the writer and the log.
    pub failures: [u64; 3],
    /// What happened to all three devices, in order.
    pub events: Vec<Event>,
}

/// The reader, the writer and the log of a conversion.
#[derive(Drop)]
pub struct Devices<'a> {
    pub reader: Counted<Source<'a>>,
    pub writer: Counted<Sink<'a>>,
    pub log: Counted<Sink<'a>>,
    tape: &'a Tape,
}

impl<'a> Devices<'a> {
    /// Returns the devices of a plan, with this input.
    pub fn new(alloc: Global, input: &'a [u8], plan: &Plan, tape: &'a Tape) -> Self {
        let source = Source::new(input, plan.reads, plan.read_fails_at, plan.read_kind, tape);
        Devices {
            reader: Counted::new(source),
            writer: Counted::new(Sink::new(alloc, plan.writer, Device::Writer, tape)),
            log: Counted::new(Sink::new(alloc, plan.log, Device::Log, tape)),
            tape,
        }
    }

    /// Returns what came of the conversion that ended with this answer.
    pub fn outcome<A>(self, alloc: Global, answer: A) -> Outcome<A> {
        let failures = [
            self.reader.failures(),
            self.writer.failures(),
            self.log.failures(),
        ];
        let writer = self.writer.into_inner();
        let log = self.log.into_inner();
        Outcome {
            answer,
            output: writer.taken,
            log: log.taken,
            failures,
            events: self.tape.take(alloc),
        }
    }
}

/// The memory of the buffers of a conversion.
#[derive(Drop)]
pub struct Rooms {
    input: Vec<u8>,
    output: Vec<u8>,
    pivots: Pivots,
}

// The pivot, and the room to read back.
#[derive(Drop)]
enum Pivots {
    Narrow(Vec<u8>, Vec<u8>),
    Wide(Vec<u16>, Vec<u16>),
}

impl Rooms {
    /// Returns memory for buffers of these sizes.
    pub fn new(alloc: Global, sizes: Sizes) -> Result<Rooms, AllocError> {
        let pivots = if sizes.is_wide {
            let pivot = std::vec![in alloc; 0; sizes.pivot]?;
            Pivots::Wide(pivot, std::vec![in alloc; 0; sizes.check]?)
        } else {
            let pivot = std::vec![in alloc; 0; sizes.pivot]?;
            Pivots::Narrow(pivot, std::vec![in alloc; 0; sizes.check]?)
        };
        Ok(Rooms {
            input: std::vec![in alloc; 0; sizes.input]?,
            output: std::vec![in alloc; 0; sizes.output]?,
            pivots,
        })
    }

    /// Returns buffers in this memory, for one conversion.
    pub fn lend(&mut self) -> Buffers<'_> {
        let (pivot, check) = match &mut self.pivots {
            Pivots::Narrow(pivot, check) => (
                Pivot::Utf8(pivot.as_mut_slice()),
                Pivot::Utf8(check.as_mut_slice()),
            ),
            Pivots::Wide(pivot, check) => (
                Pivot::Utf16(pivot.as_mut_slice()),
                Pivot::Utf16(check.as_mut_slice()),
            ),
        };
        Buffers {
            input: self.input.as_mut_slice(),
            pivot,
            output: self.output.as_mut_slice(),
            check,
        }
    }
}

fn by_run(
    devices: &mut Devices<'_>,
    job: Job<'_>,
    buffers: &mut Buffers<'_>,
) -> anyhow::Result<Result<Report, Fault>> {
    ensure!(job.is_valid(), "an index is not there");
    ensure!(buffers.is_enough(), "the buffers are too small");
    ensure!(devices.reader.failures() == 0, "a new reader has failed");
    ensure!(devices.writer.failures() == 0, "a new writer has failed");
    ensure!(devices.log.failures() == 0, "a new log has failed");
    Ok(run(
        &mut devices.reader,
        &mut devices.writer,
        &mut devices.log,
        job,
        buffers,
    ))
}

/// Makes one step of a session that is not over.
pub fn step(
    session: &mut Session<'_>,
    devices: &mut Devices<'_>,
    buffers: &mut Buffers<'_>,
) -> anyhow::Result<Result<Progress, Fault>> {
    ensure!(!session.is_over(), "a session is over too soon");
    ensure!(session.report().is_none(), "a report before the end");
    ensure!(buffers.is_enough(), "the buffers are too small");
    ensure!(devices.reader.failures() == 0, "a read failed before");
    ensure!(devices.writer.failures() == 0, "a write failed before");
    ensure!(devices.log.failures() == 0, "a line failed before");
    Ok(session.step(
        &mut devices.reader,
        &mut devices.writer,
        &mut devices.log,
        buffers,
    ))
}

// Converts by steps, each of which must call the reader once.
fn by_steps(
    devices: &mut Devices<'_>,
    job: Job<'_>,
    buffers: &mut Buffers<'_>,
) -> anyhow::Result<Result<Report, Fault>> {
    ensure!(job.is_valid(), "an index is not there");
    let mut session = Session::new(job);
    for steps in 1..200 {
        let answer = step(&mut session, devices, buffers)?;
        ensure!(
            devices.reader.get_ref().calls() == steps,
            "a step reads not once"
        );
        if let Ok(Progress::More) = answer {
            continue;
        }
        ensure!(session.is_over(), "a session is not over at its end");
        let report = session.report();
        if let Err(fault) = answer {
            ensure!(report.is_none(), "a report behind a fault");
            return Ok(Err(fault));
        }
        return Ok(Ok(report.context("no report at the end")?));
    }
    bail!("a session does not end")
}

// Checks that each read had room for the whole input buffer.
fn lends_all(devices: &Devices<'_>, plan: &Plan) -> anyhow::Result<()> {
    let room = plan.sizes.input;
    ensure!(
        devices.reader.get_ref().has_room(room),
        "a read has another room than {room} bytes"
    );
    Ok(())
}

/// Converts in one of the two ways.
pub fn recode(
    alloc: Global,
    tables: &Tables,
    setting: Setting<'_>,
    way: Way,
    plan: &Plan,
) -> anyhow::Result<Outcome<Result<Report, Fault>>> {
    let tape = Tape::new(alloc);
    let mut devices = Devices::new(alloc, setting.input, plan, &tape);
    let mut rooms = Rooms::new(alloc, plan.sizes)?;
    let mut buffers = rooms.lend();
    let job = setting.job(tables);
    let answer = match way {
        Way::Run => by_run(&mut devices, job, &mut buffers)?,
        Way::Steps => by_steps(&mut devices, job, &mut buffers)?,
    };
    lends_all(&devices, plan)?;
    Ok(devices.outcome(alloc, answer))
}

fn by_convert(
    devices: &mut Devices<'_>,
    job: Job<'_>,
    buffers: &mut Buffers<'_>,
) -> anyhow::Result<u8> {
    ensure!(job.is_valid(), "an index is not there");
    ensure!(buffers.is_enough(), "the buffers are too small");
    ensure!(devices.reader.failures() == 0, "a new reader has failed");
    ensure!(devices.writer.failures() == 0, "a new writer has failed");
    ensure!(devices.log.failures() == 0, "a new log has failed");
    Ok(convert(
        &mut devices.reader,
        &mut devices.writer,
        &mut devices.log,
        job,
        buffers,
    ))
}

/// Converts by `convert`. Its status is the answer.
pub fn status(
    alloc: Global,
    tables: &Tables,
    setting: Setting<'_>,
    plan: &Plan,
) -> anyhow::Result<Outcome<u8>> {
    let tape = Tape::new(alloc);
    let mut devices = Devices::new(alloc, setting.input, plan, &tape);
    let mut rooms = Rooms::new(alloc, plan.sizes)?;
    let mut buffers = rooms.lend();
    let job = setting.job(tables);
    let answer = by_convert(&mut devices, job, &mut buffers)?;
    lends_all(&devices, plan)?;
    Ok(devices.outcome(alloc, answer))
}
