//! Conversions from memory to memory: straight into the rooms of the caller, and what does not fit
//! there into rooms of ours, so that its length is known.

ghost use Rattle.std.specs.Prelude.{◌≡◌, ◌≢◌};
ghost use Rattle.recode.specs.Job.{IsValidJob};
ghost use Rattle.jillapun_c.specs.Conversions.{ComesTo, ConvertsIfShort, IsDone};
ghost use Rattle.jillapun_c.specs.declared.report.TheConstants.Report.{NONE};
ghost use Rattle.jillapun_c.specs.declared.status.TheConstants.{ROOM};

use crate::converter::Converter;
use crate::filled::{Filled, PART};
use crate::losses::Loss;
use crate::report::Report;
use crate::status::{ROOM, TOO_LONG};
use recode::Job;
use recode::laws::stops_at_first_loss;

// How many records of losses are made at a time that find no room with the caller.
const PART_LOSSES: usize = 16;

/// What a conversion came to.
#[derive(Clone, Copy)]
pub struct Run {
    /// How it ended, if there was room enough.
    pub status: u8,
    /// What is reported then, but for the lengths.
    pub report: Report,
    /// How far the output was put into the room.
    pub output: Filled,
    /// How far the records of losses were put into theirs.
    pub records: Filled,
}

// Runs a job, at the start of both rooms as far as what it makes fits.
fn run_job(job: Job<'_>, src: &[u8], dst: &mut [u8], losses: &mut [Loss]) -> Run
    requires { IsValidJob job }
    ensures { ComesTo job.entry src.now dst.old dst.new losses.old losses.new result }
{
    stops_at_first_loss();
    let mut converter = Converter::new(job);
    let mut progress = converter.run(src, true, dst, losses);
    let mut output = Filled::first(progress.written);
    let mut records = Filled::first(progress.losses);
    let mut rest = &src[progress.read..];
    let mut room = [0; PART];
    let mut more = [Loss::NONE; PART_LOSSES];
    'steps: while progress.wants_room {
        progress = converter.run(rest, true, &mut room, &mut more);
        output.add(&room[..progress.written], dst);
        records.add(&more[..progress.losses], losses);
        rest = &rest[progress.read..];
    }
    let (status, report) = converter.tell();
    Run {
        status,
        report,
        output,
        records,
    }
}

/// Converts an input by a job, if the limit of the job allows its length.
pub(crate) fn convert_job(
    job: Job<'_>,
    src: &[u8],
    dst: &mut [u8],
    losses: &mut [Loss],
    report: &mut Report,
) -> u8
    requires { IsValidJob job }
    ensures converts { ConvertsIfShort job.entry src.now dst.old dst.new losses.old losses.new
        report.new result }
    ensures kept { ¬ (IsDone result) → result ≢ ROOM
        → (dst.new ≡ dst.old) × (losses.new ≡ losses.old) }
    ensures nothing { ¬ (IsDone result) → result ≢ ROOM → report.new ≡ NONE }
{
    *report = Report::NONE;
    if src.len() as u64 > job.limit {
        return TOO_LONG;
    }
    let run = run_job(job, src, dst, losses);
    report.written = run.output.length as u64;
    report.losses = run.records.length as u64;
    if !(run.output.is_whole && run.records.is_whole) {
        return ROOM;
    }
    *report = Report {
        written: report.written,
        losses: report.losses,
        ..run.report
    };
    run.status
}
