//! Conversions in which one call of a device fails. A conversion ends with that call. Up to it, all
//! happens as if no call failed. After it, nothing happens except the flushes and the message of
//! `convert`.

use crate::compare::same_failures;
use crate::sink::{FAILURES, Failure, Manners};
use crate::tape::{Device, Event, calls_of, takes, up_to};
use crate::trial::{Plan, Setting, Way, recode, status};
use anyhow::{Context, ensure};
use encoding_tables::Tables;
use recode::{FAITHFUL, FAULT, Fault, NOT_FAITHFUL, Report};
use std::alloc::{AllocError, Global};
use std::io::ErrorKind;

/// The call that fails, by its number from 1.
#[derive(Clone, Copy)]
pub enum Stop {
    Read(usize, ErrorKind),
    Write(usize, Failure),
    Line(usize, Failure),
}

impl Stop {
    /// Returns the plan in which that call fails.
    pub fn plan(self, plan: Plan) -> Plan {
        match self {
            Stop::Read(call, read_kind) => Plan {
                read_fails_at: call,
                read_kind,
                ..plan
            },
            Stop::Write(call, failure) => Plan {
                writer: Manners {
                    fails_at: call,
                    failure,
                    ..plan.writer
                },
                ..plan
            },
            Stop::Line(call, failure) => Plan {
                log: Manners {
                    fails_at: call,
                    failure,
                    ..plan.log
                },
                ..plan
            },
        }
    }

    // Returns what happens up to that call.
    pub(crate) fn front(self, events: &[Event]) -> &[Event] {
        match self {
            Stop::Read(call, _) => up_to(events, Device::Reader, call),
            Stop::Write(call, _) => up_to(events, Device::Writer, call),
            Stop::Line(call, _) => up_to(events, Device::Log, call),
        }
    }

    /// Returns the fault, and the failures of the reader, the writer and the log.
    pub fn fault(self) -> (Fault, [u64; 3]) {
        match self {
            Stop::Read(..) => (Fault::Read, [1, 0, 0]),
            Stop::Write(..) => (Fault::Write, [0, 1, 0]),
            Stop::Line(..) => (Fault::Log, [0, 0, 1]),
        }
    }
}

// Returns each call among these events, in each of these ways to fail. A reader fails only by an
// error.
pub(crate) fn stops_of(
    alloc: Global,
    events: &[Event],
    failures: &[Failure],
) -> Result<Vec<Stop>, AllocError> {
    let mut stops = Vec::new(alloc);
    for failure in failures {
        if let Failure::Error(kind) = failure {
            for call in 1..=calls_of(events, Device::Reader) {
                stops.push(Stop::Read(call, *kind))?;
            }
        }
        for call in 1..=calls_of(events, Device::Writer) {
            stops.push(Stop::Write(call, *failure))?;
        }
        for call in 1..=calls_of(events, Device::Log) {
            stops.push(Stop::Line(call, *failure))?;
        }
    }
    Ok(stops)
}

/// Converts with each call failing, one at a time. Compares what happens with a conversion in which
/// no call fails. Returns how many conversions that takes.
pub fn check_stops(
    alloc: Global,
    tables: &Tables,
    setting: Setting<'_>,
    way: Way,
    plan: &Plan,
) -> anyhow::Result<usize> {
    let outcome = recode(alloc, tables, setting, way, plan)?;
    let events = outcome.events.as_slice();
    let stops = stops_of(alloc, events, &FAILURES)?;
    for stop in stops.iter() {
        let (fault, failures) = stop.fault();
        let stopped = recode(alloc, tables, setting, way, &stop.plan(*plan))?;
        let answer = stopped.answer;
        ensure!(answer == Err(fault), "{answer:?} and not {fault:?}");
        same_failures(stopped.failures, failures)?;
        ensure!(
            stopped.events.as_slice() == stop.front(events),
            "not what happens up to a call, by {fault:?}"
        );
    }
    Ok(stops.len())
}

// How a call fails in the conversions whose flushes may fail, too.
const FULL: Failure = Failure::Error(ErrorKind::StorageFull);

// Returns the message of a fault.
fn message(alloc: Global, fault: Fault) -> Result<String, AllocError> {
    match fault {
        Fault::Read => format!(in alloc; "recode: read fault\n"),
        Fault::Write => format!(in alloc; "recode: write fault\n"),
        Fault::Log => format!(in alloc; "recode: log fault\n"),
        Fault::TooLong => format!(in alloc; "recode: input too long\n"),
        Fault::Unmappable { index, scalar } => {
            format!(in alloc; "recode: unmappable {index} {}\n", u32::from(scalar))
        }
    }
}

// Returns what happens after these events and after both flushes, of which the writer's is the
// first. Returns `None` if anything else happens first.
fn behind_flushes<'e>(events: &'e [Event], front: &[Event]) -> Option<&'e [Event]> {
    let flushes = [Event::Flush(Device::Writer), Event::Flush(Device::Log)];
    events.strip_prefix(front)?.strip_prefix(&flushes)
}

// Converts by `convert`. These events must happen, then a flush of both writers. Then the first
// `len` bytes of the message of the fault must be written, or all if it has fewer.
fn check_message(
    alloc: Global,
    tables: &Tables,
    setting: Setting<'_>,
    plan: &Plan,
    front: &[Event],
    wanted: (Fault, [u64; 3], usize),
) -> anyhow::Result<()> {
    let (fault, failures, len) = wanted;
    let outcome = status(alloc, tables, setting, plan)?;
    let given = outcome.answer;
    ensure!(given == FAULT, "the status of {fault:?} is {given}");
    same_failures(outcome.failures, failures)?;
    let events = outcome.events.as_slice();
    let told = behind_flushes(events, front).context("`convert` does not flush both")?;
    let message = message(alloc, fault)?;
    let bytes = message.as_str().as_bytes();
    ensure!(
        takes(told, Device::Log, bytes.get(..len).unwrap_or(bytes)),
        "another message than that of {fault:?}"
    );
    let calls = calls_of(told, Device::Reader).saturating_add(calls_of(told, Device::Writer));
    ensure!(calls == 0, "calls behind {fault:?}");
    Ok(())
}

// Converts by `convert` without a failing call. These events must happen, then a flush of both
// writers, and nothing more. The status must be that of the report.
fn check_status(
    alloc: Global,
    tables: &Tables,
    setting: Setting<'_>,
    plan: &Plan,
    front: &[Event],
    report: Report,
) -> anyhow::Result<()> {
    let outcome = status(alloc, tables, setting, plan)?;
    let wanted = if report.faithful {
        FAITHFUL
    } else {
        NOT_FAITHFUL
    };
    let given = outcome.answer;
    ensure!(given == wanted, "the status is {given} and not {wanted}");
    same_failures(outcome.failures, [0, 0, 0])?;
    let behind = behind_flushes(outcome.events.as_slice(), front);
    ensure!(
        behind.is_some_and(|events| events.is_empty()),
        "`convert` does more than flush both"
    );
    Ok(())
}

/// Converts by `convert` with each write of the message of a fault failing, one at a time. The log
/// takes one byte a call. What stands before the failing byte must be written. Returns how many
/// conversions that takes.
pub fn check_cut_messages(
    alloc: Global,
    tables: &Tables,
    setting: Setting<'_>,
    plan: &Plan,
) -> anyhow::Result<usize> {
    let slow = Plan {
        log: Manners {
            most: 1,
            ..plan.log
        },
        ..*plan
    };
    let outcome = recode(alloc, tables, setting, Way::Run, &slow)?;
    let Err(fault) = outcome.answer else {
        return Ok(0);
    };
    let events = outcome.events.as_slice();
    let lines = calls_of(events, Device::Log);
    let len = message(alloc, fault)?.len();
    for place in 0..len {
        let call = place.saturating_add(lines).saturating_add(1);
        let cut = Stop::Line(call, FULL).plan(slow);
        check_message(
            alloc,
            tables,
            setting,
            &cut,
            events,
            (fault, [0, 0, 1], place),
        )?;
    }
    Ok(len)
}

// Returns the plan with flushes that fail.
fn stuck(plan: Plan, writer: bool, log: bool) -> Plan {
    Plan {
        writer: Manners {
            flush_fails: writer,
            ..plan.writer
        },
        log: Manners {
            flush_fails: log,
            ..plan.log
        },
        ..plan
    }
}

/// Whether the flush of the writer fails, and whether that of the log does.
pub const FLUSHES: [(bool, bool); 4] = [(false, false), (true, false), (false, true), (true, true)];

/// Converts by `convert` with these flushes failing: first with no other failure, then with each
/// call failing, one at a time. The message must be that of the first fault. If the policy stops
/// the conversion, that is the fault of the policy. Each failure must be counted. Returns how many
/// conversions that takes.
pub fn check_flushes(
    alloc: Global,
    tables: &Tables,
    setting: Setting<'_>,
    plan: &Plan,
    flushes: (bool, bool),
) -> anyhow::Result<usize> {
    let outcome = recode(alloc, tables, setting, Way::Run, plan)?;
    let told = outcome.answer;
    let events = outcome.events.as_slice();
    let (writer, log) = flushes;
    let stuck_plan = stuck(*plan, writer, log);
    let (written, logged) = (u64::from(writer), u64::from(log));
    match told {
        Ok(report) if !writer && !log => {
            check_status(alloc, tables, setting, plan, events, report)?;
        }
        answer => {
            let flush = if writer { Fault::Write } else { Fault::Log };
            let fault = answer.err().unwrap_or(flush);
            let wanted = (fault, [0, written, logged], usize::MAX);
            check_message(alloc, tables, setting, &stuck_plan, events, wanted)?;
        }
    }
    let stops = stops_of(alloc, events, &[FULL])?;
    for stop in stops.iter() {
        let (fault, [read, write, line]) = stop.fault();
        let failures = [
            read,
            write.saturating_add(written),
            line.saturating_add(logged),
        ];
        let front = stop.front(events);
        let stopped = stop.plan(stuck_plan);
        let wanted = (fault, failures, usize::MAX);
        check_message(alloc, tables, setting, &stopped, front, wanted)?;
    }
    Ok(stops.len())
}
