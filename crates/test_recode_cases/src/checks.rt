//! Converts a case at every cut, byte by byte, with buffers of all sizes, and with each call of a
//! device failing; and by a `Converter`.

use crate::converters::{check_converter_once, check_converters};
use anyhow::{bail, ensure};
use encoding_tables::Tables;
use recode::{Fault, Mark, Policy};
use std::alloc::Global;
use test_case_lines::report::Report;
use test_recode_trials::case::{Case, few_calls};
use test_recode_trials::compare::{same_bytes, same_failures};
use test_recode_trials::sink::{Manners, WILLING};
use test_recode_trials::source::Reads;
use test_recode_trials::stops::{FLUSHES, check_cut_messages, check_flushes, check_stops};
use test_recode_trials::trial::{
    AT_ONCE, LEAST, LEAST_WIDE, Plan, ROOMY, ROOMY_WIDE, SIZES, Setting, Sizes, WAYS, Way, recode,
};

// Room for all of a case, but little room to read back.
const SHORT_OF_CHECK: Sizes = Sizes {
    input: 64,
    pivot: 64,
    output: 64,
    check: 4,
    is_wide: false,
};

// Pivots with the least room, and with room for all of a case, each in UTF-8 and in UTF-16.
const PIVOTS: [Sizes; 4] = [
    LEAST,
    LEAST_WIDE,
    SHORT_OF_CHECK,
    Sizes {
        check: 2,
        is_wide: true,
        ..SHORT_OF_CHECK
    },
];

// The rooms of the pivot and of the check, in UTF-8 and in UTF-16: the least room, room for one
// byte or unit more, and room for all of a case.
const ROOMS: [(bool, [usize; 3]); 2] = [(false, [4, 5, 64]), (true, [2, 3, 64])];

// A case, the indexes, and the setting of its conversions.
#[derive(Clone, Copy)]
pub(crate) struct Subject<'a> {
    pub(crate) tables: &'a Tables,
    pub(crate) case: &'a Case,
    pub(crate) setting: Setting<'a>,
}

// Prints a difference, if there is one, with the plan of the conversion.
fn tell<T: Drop>(
    rt: &(impl Print + AllocGlobal),
    plan: &Plan,
    met: anyhow::Result<T>,
    report: &mut Report,
) -> anyhow::Result<()> {
    if let Err(difference) = met {
        let what = format!(in rt.alloc(); "{difference} ({plan:?})")?;
        report.differs(rt, what.as_str())?;
    }
    Ok(())
}

// Converts in one way, and compares all that comes of it.
fn compare(alloc: Global, subject: Subject<'_>, way: Way, plan: &Plan) -> anyhow::Result<()> {
    let case = subject.case;
    let outcome = recode(alloc, subject.tables, subject.setting, way, plan)?;
    same_bytes("output", outcome.output.as_slice(), case.output.as_slice())?;
    same_bytes("log", outcome.log.as_slice(), case.log.as_slice())?;
    same_failures(outcome.failures, [0, 0, 0])?;
    case.compare(outcome.answer)
}

// Converts in both ways, and compares all that comes of it.
fn check(
    rt: &(impl Print + AllocGlobal),
    subject: Subject<'_>,
    plan: &Plan,
    report: &mut Report,
) -> anyhow::Result<()> {
    for way in WAYS {
        report.count_conversion();
        let met = compare(rt.alloc(), subject, way, plan);
        tell(rt, plan, met, report)?;
    }
    Ok(())
}

// Compares how many calls of codecs are made with the bound, if the input ends after `len` bytes.
fn compare_calls(
    alloc: Global,
    subject: Subject<'_>,
    plan: &Plan,
    len: usize,
) -> anyhow::Result<()> {
    let input = subject.case.input.as_slice();
    let setting = Setting {
        input: input.get(..len).unwrap_or(input),
        ..subject.setting
    };
    match recode(alloc, subject.tables, setting, Way::Run, plan)?.answer {
        // If the input ends within a character, U+FFFD stands for that. The policy may stop at it.
        Err(Fault::Unmappable { .. }) => {
            ensure!(setting.policy == Policy::Stop, "it is stopped at {len}");
            Ok(())
        }
        Err(fault) => bail!("it ends by a fault, {fault:?}"),
        Ok(told) => {
            let read = told.read;
            ensure!(read == len as u64, "{read} bytes are read and not {len}");
            few_calls(told)
        }
    }
}

fn check_calls(
    rt: &(impl Print + AllocGlobal),
    subject: Subject<'_>,
    report: &mut Report,
) -> anyhow::Result<()> {
    for sizes in SIZES {
        let plan = Plan { sizes, ..AT_ONCE };
        for len in 0..=subject.case.input.len() {
            report.count_conversion();
            let met = compare_calls(rt.alloc(), subject, &plan, len);
            tell(rt, &plan, met, report)?;
        }
    }
    Ok(())
}

// Converts with each call of a device failing, with writers that take all bytes and with writers
// that take one byte a call.
fn check_failing_calls(
    rt: &(impl Print + AllocGlobal),
    subject: Subject<'_>,
    report: &mut Report,
) -> anyhow::Result<()> {
    for sizes in PIVOTS {
        for most in [1, usize::MAX] {
            let manners = Manners { most, ..WILLING };
            let plan = Plan {
                sizes,
                writer: manners,
                log: manners,
                ..AT_ONCE
            };
            for way in WAYS {
                let met = check_stops(rt.alloc(), subject.tables, subject.setting, way, &plan);
                report.count_conversions(*met.as_ref().unwrap_or(&0));
                tell(rt, &plan, met, report)?;
            }
        }
    }
    Ok(())
}

// Converts by `convert`: with flushes that fail, alone and after a call that failed, and with a
// message that is cut.
fn check_failing_flushes(
    rt: &(impl Print + AllocGlobal),
    subject: Subject<'_>,
    report: &mut Report,
) -> anyhow::Result<()> {
    let plan = Plan {
        sizes: LEAST,
        ..AT_ONCE
    };
    for flushes in FLUSHES {
        let met = check_flushes(rt.alloc(), subject.tables, subject.setting, &plan, flushes);
        report.count_conversions(*met.as_ref().unwrap_or(&0));
        tell(rt, &plan, met, report)?;
    }
    let met = check_cut_messages(rt.alloc(), subject.tables, subject.setting, &plan);
    report.count_conversions(*met.as_ref().unwrap_or(&0));
    tell(rt, &plan, met, report)
}

// Converts with buffers of all sizes. The input may be longer than the pivot or the output. The
// pivot may hold a character once but not twice. The check may be longer or shorter than the pivot.
fn check_sizes(
    rt: &(impl Print + AllocGlobal),
    subject: Subject<'_>,
    report: &mut Report,
) -> anyhow::Result<()> {
    for input in [1, 2, 3, 64] {
        for output in [4, 5, 64] {
            for (is_wide, rooms) in ROOMS {
                for pivot in rooms {
                    for check_room in rooms {
                        let sizes = Sizes {
                            input,
                            pivot,
                            output,
                            check: check_room,
                            is_wide,
                        };
                        check(rt, subject, &Plan { sizes, ..AT_ONCE }, report)?;
                    }
                }
            }
        }
    }
    Ok(())
}

// Converts at every cut and byte by byte, and with buffers of all sizes.
fn check_cuts(
    rt: &(impl Print + AllocGlobal),
    subject: Subject<'_>,
    report: &mut Report,
) -> anyhow::Result<()> {
    for sizes in SIZES {
        for offset in 0..=subject.case.input.len() {
            let reads = Reads::CutAt(offset);
            let plan = Plan {
                reads,
                sizes,
                ..AT_ONCE
            };
            check(rt, subject, &plan, report)?;
        }
        let reads = Reads::OneByOne;
        let plan = Plan {
            reads,
            sizes,
            ..AT_ONCE
        };
        check(rt, subject, &plan, report)?;
    }
    check_sizes(rt, subject, report)
}

// Converts at every cut with room for 4 to 9 bytes of output, so that the output is cut at each
// place, too.
fn check_rooms(
    rt: &(impl Print + AllocGlobal),
    subject: Subject<'_>,
    report: &mut Report,
) -> anyhow::Result<()> {
    for output in 4..=9 {
        for pivots in PIVOTS {
            let sizes = Sizes {
                input: SHORT_OF_CHECK.input,
                output,
                ..pivots
            };
            for offset in 0..=subject.case.input.len() {
                let reads = Reads::CutAt(offset);
                let plan = Plan {
                    reads,
                    sizes,
                    ..AT_ONCE
                };
                check(rt, subject, &plan, report)?;
            }
        }
    }
    Ok(())
}

// Converts with one read, and with large buffers of either kind of pivot.
fn check_once(
    rt: &(impl Print + AllocGlobal),
    subject: Subject<'_>,
    report: &mut Report,
) -> anyhow::Result<()> {
    for sizes in [ROOMY, ROOMY_WIDE] {
        check(rt, subject, &Plan { sizes, ..AT_ONCE }, report)?;
    }
    check_converter_once(rt, subject, report)
}

// Converts no bytes, with the least buffers of either kind of pivot. Marks are treated in each way.
pub(crate) fn check_nothing(
    rt: &(impl Print + AllocGlobal),
    tables: &Tables,
    case: &Case,
    report: &mut Report,
) -> anyhow::Result<()> {
    let setting = case.head.setting(case.input.as_slice());
    for sizes in [LEAST, LEAST_WIDE] {
        for mark in [Mark::Sniff, Mark::Remove, Mark::Keep] {
            let setting = Setting { mark, ..setting };
            let subject = Subject {
                tables,
                case,
                setting,
            };
            check(rt, subject, &Plan { sizes, ..AT_ONCE }, report)?;
        }
    }
    Ok(())
}

// Makes the calls for a whole input and for its whole text. They must return the bytes and the
// encoding of the case, and report a loss if the log has a line.
fn compare_roads(alloc: Global, subject: Subject<'_>) -> anyhow::Result<()> {
    let Subject {
        tables,
        case,
        setting,
    } = subject;
    ensure!(setting.from.is_ready(tables), "an index is not there");
    ensure!(
        setting.to.output_encoding().is_ready(tables),
        "an index is not there"
    );
    let (text, found, is_malformed) = setting.from.decode(alloc, tables, setting.input)?;
    let (bytes, _, is_lost) = setting.to.encode(alloc, tables, text.as_str())?;
    same_bytes("output of calls", bytes.as_slice(), case.output.as_slice())?;
    ensure!(found == case.found, "the calls find {}", found.name());
    ensure!(
        is_malformed == (case.bad > 0),
        "the calls: malformed {is_malformed}"
    );
    ensure!(is_lost == (case.lost > 0), "the calls: lost {is_lost}");
    Ok(())
}

// Converts a case by all plans that its line asks for, and prints the differences.
pub(crate) fn check_case(
    rt: &(impl Print + AllocGlobal),
    tables: &Tables,
    case: &Case,
    report: &mut Report,
) -> anyhow::Result<()> {
    let scope = case.head.scope;
    let setting = case.head.setting(case.input.as_slice());
    let subject = Subject {
        tables,
        case,
        setting,
    };
    if scope.has_calls {
        report.count_conversion();
        tell(rt, &AT_ONCE, compare_roads(rt.alloc(), subject), report)?;
    }
    if scope.is_once {
        return check_once(rt, subject, report);
    }
    check_failing_calls(rt, subject, report)?;
    check_failing_flushes(rt, subject, report)?;
    check_calls(rt, subject, report)?;
    for mark in [Mark::Sniff, Mark::Remove, Mark::Keep] {
        if case.head.mark.unwrap_or(mark) == mark {
            let setting = Setting { mark, ..setting };
            let subject = Subject { setting, ..subject };
            check_cuts(rt, subject, report)?;
            check_converters(rt, subject, report)?;
            if scope.has_rooms {
                check_rooms(rt, subject, report)?;
            }
        }
    }
    Ok(())
}
