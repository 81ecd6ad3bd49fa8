//! In which order the bytes of the output and of the log are written, and what is written if the
//! call for one of these bytes fails.

use anyhow::{Context, ensure};
use encoding_tables::Tables;
use recode::Fault;
use std::alloc::Global;
use test_case_lines::report::Report;
use test_recode_trials::case::{Head, add_line, stop_of};
use test_recode_trials::compare::same_failures;
use test_recode_trials::parts::bytes_of;
use test_recode_trials::sink::{FAILURES, Manners, WILLING};
use test_recode_trials::stops::Stop;
use test_recode_trials::tape::{Device, Event, only_bytes};
use test_recode_trials::trial::{AT_ONCE, Plan, SIZES, Sizes, WAYS, Way, recode};

// What is converted, and the bytes that the devices must take, in order.
#[derive(Drop)]
pub(crate) struct Order {
    pub(crate) head: Head,
    input: Vec<u8>,
    bytes: Vec<Event>,
    ending: Option<Fault>,
}

impl Order {
    // Reads words such as `utf-8 -> windows-1252: "a" C3A8 => "a" | lost 1 232 | "&#232;"`.
    pub(crate) fn of(alloc: Global, words: &str) -> anyhow::Result<Self> {
        let (head, words) = words.split_once(": ").context("an order has no `: `")?;
        let (input, parts) = words.split_once("=>").context("an order has no `=>`")?;
        let mut order = Order {
            head: Head::of(head)?,
            input: bytes_of(alloc, input)?,
            bytes: Vec::new(alloc),
            ending: None,
        };
        for part in parts.split('|') {
            order.add(alloc, part.trim())?;
        }
        Ok(order)
    }

    fn add(&mut self, alloc: Global, part: &str) -> anyhow::Result<()> {
        if let Some(numbers) = part.strip_prefix("stopped ") {
            self.ending = Some(stop_of(numbers)?);
            return Ok(());
        }
        let is_line = part.starts_with("bad ") || part.starts_with("lost ");
        let (device, bytes) = if is_line {
            let mut line = Vec::new(alloc);
            add_line(part, &mut line)?;
            (Device::Log, line)
        } else {
            (Device::Writer, bytes_of(alloc, part)?)
        };
        for byte in bytes.iter() {
            self.bytes.push(Event::Byte(device, *byte))?;
        }
        Ok(())
    }

    // Returns how many of the first `len` bytes a device takes.
    fn count(&self, device: Device, len: usize) -> usize {
        let mut count = 0_usize;
        for event in self.bytes.iter().take(len) {
            if let Event::Byte(taker, _) = event
                && *taker == device
            {
                count = count.saturating_add(1);
            }
        }
        count
    }

    // Returns the device that takes the byte at this place, or `None` after the last byte.
    fn taker(&self, place: usize) -> Option<Device> {
        match self.bytes.get(place) {
            Some(Event::Byte(device, _)) => Some(*device),
            _ => None,
        }
    }
}

// Converts, and compares the bytes that are taken before a fault or the end: they must be the
// wanted number of bytes, in order. Compares the fault and the failures, too.
fn compare(
    alloc: Global,
    tables: &Tables,
    order: &Order,
    way: Way,
    plan: &Plan,
    wanted: (usize, Option<Fault>, [u64; 3]),
) -> anyhow::Result<()> {
    let (len, fault, failures) = wanted;
    let setting = order.head.setting(order.input.as_slice());
    let outcome = recode(alloc, tables, setting, way, plan)?;
    let taken = only_bytes(alloc, outcome.events.as_slice())?;
    let bytes = order.bytes.as_slice();
    ensure!(
        taken.as_slice() == bytes.get(..len).unwrap_or(bytes),
        "other bytes, or in another order, where {len} are taken ({plan:?})"
    );
    let met = outcome.answer.err();
    ensure!(met == fault, "the fault is {met:?} and not {fault:?}");
    same_failures(outcome.failures, failures)
}

// Converts with the call for each byte failing, one at a time, and with a call that would come
// after the last byte. Returns how many conversions that takes.
fn compare_stops(
    alloc: Global,
    tables: &Tables,
    order: &Order,
    way: Way,
    plan: &Plan,
) -> anyhow::Result<usize> {
    let len = order.bytes.len();
    for failure in FAILURES {
        for place in 0..len {
            let before = match order.taker(place) {
                Some(device) => (device, order.count(device, place).saturating_add(1)),
                None => continue,
            };
            let stop = match before {
                (Device::Log, call) => Stop::Line(call, failure),
                (_, call) => Stop::Write(call, failure),
            };
            let (fault, failures) = stop.fault();
            let wanted = (place, Some(fault), failures);
            compare(alloc, tables, order, way, &stop.plan(*plan), wanted)?;
        }
        let behind = [
            Stop::Write(order.count(Device::Writer, len).saturating_add(1), failure),
            Stop::Line(order.count(Device::Log, len).saturating_add(1), failure),
        ];
        for stop in behind {
            let wanted = (len, order.ending, [0, 0, 0]);
            compare(alloc, tables, order, way, &stop.plan(*plan), wanted)?;
        }
    }
    Ok(len.saturating_add(2).saturating_mul(FAILURES.len()))
}

// Converts in both ways with buffers of these sizes, with devices that take all bytes and with
// devices that take one byte a call.
fn check_sizes(
    rt: &impl AllocGlobal,
    tables: &Tables,
    order: &Order,
    sizes: Sizes,
    report: &mut Report,
) -> anyhow::Result<()> {
    let willing = Plan { sizes, ..AT_ONCE };
    let manners = Manners { most: 1, ..WILLING };
    let slow = Plan {
        writer: manners,
        log: manners,
        ..willing
    };
    for way in WAYS {
        report.count_conversion();
        let wanted = (order.bytes.len(), order.ending, [0, 0, 0]);
        compare(rt.alloc(), tables, order, way, &willing, wanted)?;
        let stops = compare_stops(rt.alloc(), tables, order, way, &slow)?;
        report.count_conversions(stops);
    }
    Ok(())
}

pub(crate) fn check_order(
    rt: &impl AllocGlobal,
    tables: &Tables,
    order: &Order,
    report: &mut Report,
) -> anyhow::Result<()> {
    for sizes in SIZES {
        check_sizes(rt, tables, order, sizes, report)?;
    }
    Ok(())
}
