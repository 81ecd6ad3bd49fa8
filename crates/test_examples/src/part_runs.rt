//! A program that recodes an input in two parts, each by itself, and joins what they gave. Its
//! contract says that this is what a conversion of the whole gives.

ghost use Rattle.std.specs.Prelude.{◌++◌, IfOk};
ghost use Rattle.recode.specs.Job.{IsValidJob};
ghost use Rattle.test_examples.specs.SessionSteps.{GaveAll};

use crate::session_steps::{Keeper, SingleBytes, convert_steps};
use anyhow::{bail, ensure};
use recode::laws::{devices_tell, parts_are_the_whole};
use recode::{Buffers, Counted, Encoding, GREATEST_LIMIT, Job, Mark, Pivot, Policy, Tables};
use recode_parts::laws::joined_logs_are_the_log;
use recode_parts::{Before, join_log};
use std::alloc::Global;
use std::io::Write;

/// What the conversion of a whole input gave.
#[derive(Drop)]
struct Whole {
    output: Vec<u8>,
    log: Vec<u8>,
    characters: u64,
    faithful: bool,
}

// Converts an input.
fn convert_whole(
    alloc: Global,
    job: Job<'_>,
    input: &[u8],
    buffers: &mut Buffers<'_>,
) -> anyhow::Result<Whole>
    requires { IsValidJob job }
    ensures { IfOk result (λ whole. GaveAll job.entry input.now whole.output.items whole.log.items
        whole.characters whole.faithful) }
{
    ensure!(buffers.is_enough(), "a buffer is too small");
    let gained = convert_steps(alloc, job, input, input.len() as u64 + 1, buffers)?;
    let Some(faithful) = gained.faithful else {
        bail!("the end was not read");
    };
    Ok(Whole {
        output: gained.output,
        log: gained.log,
        characters: gained.characters,
        faithful,
    })
}

// Converts an input in two parts, and joins what they gave: it is what the whole gives. An error
// says that the input is not to be cut there, that a conversion ended early, or that memory was
// refused.
fn convert_parts(
    alloc: Global,
    job: Job<'_>,
    first: &[u8],
    second: &[u8],
    buffers: &mut Buffers<'_>,
) -> anyhow::Result<Whole>
    requires { IsValidJob job }
    ensures { IfOk result (λ whole. GaveAll job.entry (first.now ++ second.now) whole.output.items
        whole.log.items whole.characters whole.faithful) }
{
    parts_are_the_whole();
    joined_logs_are_the_log();
    devices_tell();
    if !job.can_be_cut(first) {
        bail!("the input is not to be cut here");
    }
    let later = job.later(first);
    let one = convert_whole(alloc, job, first, buffers)?;
    let other = convert_whole(alloc, later, second, buffers)?;
    let size = first.len() as u64 + second.len() as u64;
    if size > job.limit {
        bail!("the input is too long");
    }
    let mut output = one.output;
    output.extend_from_slice(&other.output)?;
    let mut part = Counted::new(SingleBytes { rest: &other.log });
    let mut log = Counted::new(Keeper { bytes: one.log });
    let before = Before {
        bytes: first.len() as u64,
        characters: one.characters,
    };
    join_log(&mut part, before, &mut log)?;
    let Some(characters) = one.characters.checked_add(other.characters) else {
        bail!("the text is too long");
    };
    let faithful = one.faithful && other.faithful;
    Ok(Whole {
        output,
        log: log.into_inner().bytes,
        characters,
        faithful,
    })
}

/// Recodes an input whole, and in two parts. Prints the output, the log, the number of characters
/// and the verdict of each, which are equal.
pub(crate) fn recode_parts(
    rt: HostRuntime,
    whole: &[u8],
    first: &[u8],
    second: &[u8],
) -> anyhow::Result<()> {
    let tables = Tables::new(rt.alloc());
    let job = Job {
        from: Encoding::Utf16Be,
        to: Encoding::XUserDefined,
        mark: Mark::Sniff,
        policy: Policy::Decimal,
        limit: GREATEST_LIMIT,
        tables: &tables,
    };
    ensure!(job.is_valid(), "an index is missing");
    let mut input = [0; 64];
    let mut text = [0; 64];
    let mut output = [0; 64];
    let mut text_again = [0; 64];
    let pivot = Pivot::Utf8(&mut text);
    let check = Pivot::Utf8(&mut text_again);
    let mut buffers = Buffers {
        input: &mut input,
        pivot,
        output: &mut output,
        check,
    };
    let all = convert_whole(rt.alloc(), job, whole, &mut buffers)?;
    let parts = convert_parts(rt.alloc(), job, first, second, &mut buffers)?;
    for gave in [&all, &parts] {
        rt.stdout().write_all(&gave.output)?;
        println!(rt; "")?;
        rt.stdout().write_all(&gave.log)?;
        println!(rt; "{} {}", gave.characters, gave.faithful)?;
    }
    Ok(())
}
