//! What is written after each step of a conversion that reads byte by byte, and what is written if
//! the next read fails or passes the limit.

use anyhow::{Context, ensure};
use encoding_tables::Tables;
use recode::{Buffers, Fault, Progress, Session};
use std::alloc::Global;
use std::io::ErrorKind;
use test_case_lines::report::Report;
use test_recode_trials::case::{Head, add_line, stop_of};
use test_recode_trials::compare::{same_bytes, same_failures};
use test_recode_trials::parts::bytes_of;
use test_recode_trials::source::Reads;
use test_recode_trials::stops::{FLUSHES, check_cut_messages, check_flushes};
use test_recode_trials::tape::{Device, Tape, calls_of};
use test_recode_trials::trial::{
    AT_ONCE, Devices, LEAST, LEAST_WIDE, Plan, Rooms, SIZES, Setting, Sizes, WAYS, Way, recode,
    step,
};

// How many bytes of the output and of the log are written.
#[derive(Clone, Copy)]
struct Held {
    output: usize,
    log: usize,
}

// What is converted, and what must be written after each step.
#[derive(Drop)]
pub(crate) struct Steps {
    pub(crate) head: Head,
    input: Vec<u8>,
    output: Vec<u8>,
    log: Vec<u8>,
    helds: Vec<Held>,
    // What must be written after the last step.
    last: Held,
    ending: Option<Fault>,
}

impl Steps {
    // Reads words such as `utf-8 -> utf-8: C3 => / A9 => C3A9 / =>`: what each step reads, and what
    // it then writes.
    pub(crate) fn of(alloc: Global, words: &str) -> anyhow::Result<Self> {
        let (head, words) = words.split_once(": ").context("steps have no `: `")?;
        let (before, last) = words.rsplit_once('/').context("steps have no `/`")?;
        let mut steps = Steps {
            head: Head::of(head)?,
            input: Vec::new(alloc),
            output: Vec::new(alloc),
            log: Vec::new(alloc),
            helds: Vec::new(alloc),
            last: Held { output: 0, log: 0 },
            ending: None,
        };
        for piece in before.split('/') {
            let read = steps.input.len();
            steps.add(alloc, piece)?;
            ensure!(
                steps.input.len().wrapping_sub(read) == 1,
                "a step reads not one byte"
            );
            let held = steps.held();
            steps.helds.push(held)?;
        }
        steps.add(alloc, last)?;
        steps.last = steps.held();
        Ok(steps)
    }

    // Returns how much the steps that have been added so far write.
    fn held(&self) -> Held {
        Held {
            output: self.output.len(),
            log: self.log.len(),
        }
    }

    // Adds a step such as `A9 => C3A9 | bad 1 1`.
    fn add(&mut self, alloc: Global, piece: &str) -> anyhow::Result<()> {
        let (read, written) = piece.split_once("=>").context("a step has no `=>`")?;
        self.input
            .extend_from_slice(bytes_of(alloc, read)?.as_slice())?;
        for part in written.split('|') {
            let part = part.trim();
            if let Some(numbers) = part.strip_prefix("stopped ") {
                self.ending = Some(stop_of(numbers)?);
            } else if part.starts_with("bad ") || part.starts_with("lost ") {
                add_line(part, &mut self.log)?;
            } else {
                self.output
                    .extend_from_slice(bytes_of(alloc, part)?.as_slice())?;
            }
        }
        Ok(())
    }

    // Returns how much is written after the steps that read the first `bytes` bytes.
    fn held_behind(&self, bytes: usize) -> anyhow::Result<Held> {
        match bytes.checked_sub(1) {
            Some(place) => Ok(*self.helds.get(place).context("not so many steps")?),
            None => Ok(Held { output: 0, log: 0 }),
        }
    }

    // Compares what is written with what must be written.
    fn compare(&self, held: Held, output: &[u8], log: &[u8]) -> anyhow::Result<()> {
        same_bytes(
            "output",
            output,
            self.output.get(..held.output).unwrap_or(&[]),
        )?;
        same_bytes("log", log, self.log.get(..held.log).unwrap_or(&[]))
    }
}

// Takes the steps, and compares what is written after each of them.
fn take_steps(
    session: &mut Session<'_>,
    devices: &mut Devices<'_>,
    buffers: &mut Buffers<'_>,
    steps: &Steps,
) -> anyhow::Result<()> {
    for (place, held) in steps.helds.iter().enumerate() {
        let answer = step(session, devices, buffers)?;
        ensure!(
            answer == Ok(Progress::More),
            "step {place} ends by {answer:?}"
        );
        let output = devices.writer.get_ref().taken.as_slice();
        let log = devices.log.get_ref().taken.as_slice();
        steps
            .compare(*held, output, log)
            .context(format_args!("step {place}"))?;
    }
    let answer = step(session, devices, buffers)?;
    let want = match steps.ending {
        Some(fault) => Err(fault),
        None => Ok(Progress::Done),
    };
    ensure!(answer == want, "the last step ends by {answer:?}");
    Ok(())
}

// Converts by steps that read byte by byte, with buffers of these sizes.
fn compare_steps(
    alloc: Global,
    tables: &Tables,
    steps: &Steps,
    sizes: Sizes,
) -> anyhow::Result<()> {
    let plan = Plan {
        reads: Reads::OneByOne,
        sizes,
        ..AT_ONCE
    };
    let setting = steps.head.setting(steps.input.as_slice());
    let tape = Tape::new(alloc);
    let mut devices = Devices::new(alloc, setting.input, &plan, &tape);
    let mut rooms = Rooms::new(alloc, plan.sizes)?;
    let mut buffers = rooms.lend();
    let job = setting.job(tables);
    ensure!(job.is_valid(), "an index is not there");
    let mut session = Session::new(job);
    take_steps(&mut session, &mut devices, &mut buffers, steps)?;
    let outcome = devices.outcome(alloc, ());
    same_failures(outcome.failures, [0, 0, 0])?;
    steps.compare(
        steps.last,
        outcome.output.as_slice(),
        outcome.log.as_slice(),
    )
}

// Converts with a read that fails after `bytes` bytes.
fn compare_failing_read(
    alloc: Global,
    tables: &Tables,
    steps: &Steps,
    way: Way,
    sizes: Sizes,
    bytes: usize,
) -> anyhow::Result<()> {
    let setting = steps.head.setting(steps.input.as_slice());
    let held = steps.held_behind(bytes)?;
    for read_kind in [ErrorKind::BrokenPipe, ErrorKind::Interrupted] {
        let plan = Plan {
            reads: Reads::OneByOne,
            sizes,
            read_fails_at: bytes.saturating_add(1),
            read_kind,
            ..AT_ONCE
        };
        let outcome = recode(alloc, tables, setting, way, &plan)?;
        let answer = outcome.answer;
        ensure!(
            answer == Err(Fault::Read),
            "a failed read ends by {answer:?}"
        );
        same_failures(outcome.failures, [1, 0, 0])?;
        steps.compare(held, outcome.output.as_slice(), outcome.log.as_slice())?;
    }
    Ok(())
}

// Converts with a limit that the input passes. No read passes the offset `cut`. The read that
// passes the limit must be the last, and nothing of it is converted.
fn compare_limit(
    alloc: Global,
    tables: &Tables,
    steps: &Steps,
    way: Way,
    sizes: Sizes,
    (limit, cut): (usize, usize),
) -> anyhow::Result<()> {
    let setting = Setting {
        limit,
        ..steps.head.setting(steps.input.as_slice())
    };
    let plan = Plan {
        reads: Reads::CutAt(cut),
        sizes,
        ..AT_ONCE
    };
    // How many bytes are read before the last read, and by how many reads.
    let (bytes, reads) = if sizes.input == 1 {
        (limit, limit)
    } else if 0 < cut && cut <= limit {
        (cut, 1)
    } else {
        (0, 0)
    };
    let outcome = recode(alloc, tables, setting, way, &plan)?;
    let answer = outcome.answer;
    ensure!(
        answer == Err(Fault::TooLong),
        "a limit of {limit} ends by {answer:?}"
    );
    same_failures(outcome.failures, [0, 0, 0])?;
    let calls = calls_of(outcome.events.as_slice(), Device::Reader);
    ensure!(
        calls == reads.saturating_add(1),
        "{calls} reads for a limit of {limit}"
    );
    steps.compare(
        steps.held_behind(bytes)?,
        outcome.output.as_slice(),
        outcome.log.as_slice(),
    )
}

// Converts with each limit that the input passes, with reads cut at each place, and by `convert`.
fn check_limits(
    alloc: Global,
    tables: &Tables,
    steps: &Steps,
    report: &mut Report,
) -> anyhow::Result<()> {
    let len = steps.input.len();
    for limit in (0..=steps.helds.len()).filter(|limit| *limit < len) {
        for sizes in SIZES {
            for cut in 0..=len {
                for way in WAYS {
                    report.count_conversion();
                    compare_limit(alloc, tables, steps, way, sizes, (limit, cut))?;
                }
            }
        }
        let setting = Setting {
            limit,
            ..steps.head.setting(steps.input.as_slice())
        };
        for sizes in [LEAST, LEAST_WIDE] {
            let plan = Plan { sizes, ..AT_ONCE };
            for flushes in FLUSHES {
                let stops = check_flushes(alloc, tables, setting, &plan, flushes)?;
                report.count_conversions(stops);
            }
            let cuts = check_cut_messages(alloc, tables, setting, &plan)?;
            report.count_conversions(cuts);
        }
    }
    Ok(())
}

pub(crate) fn check_steps(
    rt: &impl AllocGlobal,
    tables: &Tables,
    steps: &Steps,
    report: &mut Report,
) -> anyhow::Result<()> {
    for sizes in [LEAST, LEAST_WIDE] {
        report.count_conversion();
        compare_steps(rt.alloc(), tables, steps, sizes)?;
    }
    check_limits(rt.alloc(), tables, steps, report)?;
    for way in WAYS {
        for sizes in SIZES {
            for bytes in 0..=steps.helds.len() {
                report.count_conversions(2);
                compare_failing_read(rt.alloc(), tables, steps, way, sizes, bytes)?;
            }
        }
    }
    Ok(())
}
