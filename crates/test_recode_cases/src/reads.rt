//! How much is read, and how often: with a limit, and with an input buffer of a given length.

use anyhow::{Context, bail, ensure};
use encoding_tables::Tables;
use recode::Fault;
use std::alloc::Global;
use test_case_lines::report::Report;
use test_case_lines::words::decimal;
use test_recode_trials::case::Head;
use test_recode_trials::compare::{same_bytes, same_failures};
use test_recode_trials::parts::bytes_of;
use test_recode_trials::source;
use test_recode_trials::tape::{Device, calls_of};
use test_recode_trials::trial::{AT_ONCE, Plan, SIZES, Setting, Sizes, WAYS, Way, recode};

// What is converted, what must be written, and how often the reader must be called.
#[derive(Drop)]
pub(crate) struct Reads {
    pub(crate) head: Head,
    input: Vec<u8>,
    // Whether the last byte of the input comes again and again, without end.
    is_endless: bool,
    limit: usize,
    // How many bytes the input buffer has.
    room: usize,
    output: Vec<u8>,
    // Whether the conversion must end because the input passes the limit.
    is_too_long: bool,
    calls: usize,
}

impl Reads {
    // Reads words such as `3 utf-8 -> utf-8: "abcd" => "abc" | too long | 4 reads`. If `is_limit`,
    // the number is the limit, and a read has room for one byte. Otherwise the number is the length
    // of the input buffer, and the length of the input is the limit.
    pub(crate) fn of(alloc: Global, words: &str, is_limit: bool) -> anyhow::Result<Self> {
        let (number, words) = words.split_once(' ').context("a number is missing")?;
        let number = decimal(number)?;
        let (head, words) = words.split_once(": ").context("reads have no `: `")?;
        let (input, told) = words.split_once("=>").context("reads have no `=>`")?;
        let (input, is_endless) = match input.trim().strip_suffix("..") {
            Some(front) => (front, true),
            None => (input, false),
        };
        let input = bytes_of(alloc, input)?;
        let len = input.len();
        let mut items = told.split('|');
        let output = bytes_of(alloc, items.next().unwrap_or(""))?;
        let is_too_long = match items.next().unwrap_or("").trim() {
            "too long" => true,
            "done" => false,
            _ => bail!("an ending is not known"),
        };
        let calls = items.next().unwrap_or("").trim();
        let calls = calls.strip_suffix(" reads");
        ensure!(items.next().is_none(), "an item behind the reads");
        Ok(Reads {
            head: Head::of(head)?,
            input,
            is_endless,
            limit: if is_limit { number } else { len },
            room: if is_limit { 1 } else { number },
            output,
            is_too_long,
            calls: decimal(calls.context("a number of reads is missing")?)?,
        })
    }

    fn plan(&self, sizes: Sizes) -> Plan {
        Plan {
            reads: if self.is_endless {
                source::Reads::Endless
            } else {
                AT_ONCE.reads
            },
            sizes: Sizes {
                input: self.room,
                ..sizes
            },
            ..AT_ONCE
        }
    }
}

// Converts in one way, and compares what is written, how it ends, and how often the reader is
// called.
fn compare(
    alloc: Global,
    tables: &Tables,
    reads: &Reads,
    way: Way,
    plan: &Plan,
) -> anyhow::Result<()> {
    let setting = Setting {
        limit: reads.limit,
        ..reads.head.setting(reads.input.as_slice())
    };
    let outcome = recode(alloc, tables, setting, way, plan)?;
    let answer = outcome.answer;
    match answer {
        Err(Fault::TooLong) => ensure!(reads.is_too_long, "the input is too long"),
        Err(fault) => bail!("it ends by a fault, {fault:?}"),
        Ok(report) => {
            ensure!(!reads.is_too_long, "the input is not too long");
            ensure!(report.read == reads.input.len() as u64, "{report:?}");
        }
    }
    let (calls, want) = (
        calls_of(outcome.events.as_slice(), Device::Reader),
        reads.calls,
    );
    ensure!(calls == want, "{calls} reads and not {want}, {way:?}");
    same_failures(outcome.failures, [0, 0, 0])?;
    same_bytes("output", outcome.output.as_slice(), reads.output.as_slice())?;
    same_bytes("log", outcome.log.as_slice(), &[])
}

pub(crate) fn check_reads(
    rt: &impl AllocGlobal,
    tables: &Tables,
    reads: &Reads,
    report: &mut Report,
) -> anyhow::Result<()> {
    for sizes in SIZES {
        for way in WAYS {
            report.count_conversion();
            compare(rt.alloc(), tables, reads, way, &reads.plan(sizes))?;
        }
    }
    Ok(())
}
