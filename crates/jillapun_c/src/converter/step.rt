//! Steps of a conversion.

ghost use Rattle.std.specs.Prelude.{◌≡◌, [], false, None, Some, true};
ghost use Rattle.jillapun_c.specs.ConverterCalls.{HoldsNoStep, HoldsStep, IsIdle, MakesStep};
ghost use Rattle.jillapun_c.specs.ConverterRuns.{JoinsToCalls};
ghost use Rattle.jillapun_c.specs.ConverterWords.{saved_step_in};
ghost use Rattle.jillapun_c.specs.Converters.{ConvertsByStep, StepView, TellsStatus, step_view};
ghost use Rattle.jillapun_c.specs.HeldTables.{held_lists};
ghost use Rattle.jillapun_c.specs.declared.converter.progress.TheConstants.ConverterProgress as
    progress_;
ghost use Rattle.jillapun_c.specs.declared.report.TheConstants.Report as report_;
ghost use Rattle.jillapun_c.specs.declared.status.TheConstants.{CLOSED, FINISHED};

use crate::converter::handle::ConverterHandle;
use crate::converter::progress::ConverterProgress;
use crate::converter::words::SavedStep;
use crate::converter::{Converter, Stage};
use crate::losses::Loss;
use crate::report::{Report, told_report, told_stop};
use crate::status::{GOES_ON, Status, TOO_LONG};
use encoding_tables::Tables;
use recode::laws::stops_at_first_loss;
use std::alloc::Global;

impl Converter<'_> {
    // What a call is to read: what it was handed, and after the end nothing but the end.
    fn readable<'s>(&self, src: &'s [u8], last: bool) -> (&'s [u8], bool)
        ensures ended { (step_view self.now).stream.ended ≡ true
            → (result.0.now ≡ []) × (result.1 ≡ true) }
        ensures open { (step_view self.now).stream.ended ≡ false
            → (result.0.now ≡ src.now) × (result.1 ≡ last) }
    {
        if self.stream.is_ended() {
            (&[], true)
        } else {
            (src, last)
        }
    }

    /// What is reported after what could be handed out was: how the conversion ended, if nothing is
    /// left of what it made, and else that it goes on.
    pub(crate) fn tell(&self) -> (u8, Report)
        ensures { TellsStatus (step_view self.now) result.1 result.0 }
    {
        if !self.holds_nothing() {
            return (GOES_ON, Report::NONE);
        }
        match self.stage {
            Stage::TooLong => (TOO_LONG, Report::NONE),
            Stage::Stopped { index, scalar } => told_stop(index, scalar),
            Stage::Open => match self.stream.report() {
                Some(report) => told_report(report, self.stream.characters()),
                None => (GOES_ON, Report::NONE),
            },
        }
    }
}

/// Converts the next bytes of an input, `src`: writes output to `dst` and a record of each loss to
/// `losses`, and stores the counts in `progress`. `last` says that the input ends with `src`; set
/// it in each further call, with the unread bytes, until the end is reported. Output that does not
/// fit is kept, at most 1 KiB of text, 32 bytes of output and one record, and comes first in the
/// next call.
///
/// - `GOES_ON`: call again. If `progress` says `wants_room`, pass free space and the unread bytes
///   of `src`, with or without more after them. Otherwise all of `src` was read, and all output
///   that is certain was written: pass the bytes that follow.
/// - `OK`: everything was converted and written. No sequence was malformed, and the output decodes
///   to the text of the input. The report has the counts.
/// - `LOSSY`: as `OK`, but something was lost.
/// - `STOPPED`: as for `jillapun_convert`.
/// - `TOO_LONG`: the input is longer than the limit. Everything within the limit was converted.
///
/// Errors: `CLOSED`; `FINISHED` after a call that returned one of the last four statuses above.
/// Keep the report of that call: later ones are 0.
///
/// At `OK`, `LOSSY` and `STOPPED` the outputs of all calls, concatenated, are the output of
/// `jillapun_convert` for the input passed, without a limit, and so are the records, however the
/// input is split and however long the buffers are. Before that, and at `TOO_LONG`, they are the
/// beginning of that output, whatever bytes follow, and the report is 0.
///
/// Space for one byte and one record suffices to continue. Records need space even if nobody reads
/// them.
#[unsafe(no_mangle)]
pub extern "C" fn jillapun_converter_step(
    alloc: Global,
    converter: &mut ConverterHandle,
    src: &[u8],
    last: bool,
    dst: &mut [u8],
    losses: &mut [Loss],
    progress: &mut ConverterProgress,
    report: &mut Report,
) -> Status
    ensures closed { HoldsNoStep converter.old → result ≡ CLOSED }
    ensures finished { (v : StepView) → HoldsStep converter.old v → v.is_finished ≡ true
        → result ≡ FINISHED }
    ensures steps { (v : StepView) → HoldsStep converter.old v → v.is_finished ≡ false
        → MakesStep v converter.new src.now last dst.old dst.new losses.old losses.new
        progress.new report.new result }
    ensures unchanged { IsIdle converter.old → converter.new ≡ converter.old }
    ensures kept { IsIdle converter.old
        → (dst.new ≡ dst.old) × (losses.new ≡ losses.old) }
    ensures nothing { IsIdle converter.old
        → (progress.new ≡ progress_.NONE) × (report.new ≡ report_.NONE) }
{
    *progress = ConverterProgress::NONE;
    *report = Report::NONE;
    let saved = match converter.live() {
        Err(status) => return status,
        Ok(saved) => saved,
    };
    match converter.tables.lent() {
        Some(tables) => go_on(
            tables, saved, converter, src, last, dst, losses, progress, report,
        ),
        None => go_on_without(
            alloc, saved, converter, src, last, dst, losses, progress, report,
        ),
    }
}

// A step of the converter of which this was saved, over its tables.
fn go_on(
    tables: &Tables,
    saved: SavedStep,
    converter: &mut ConverterHandle,
    src: &[u8],
    last: bool,
    dst: &mut [u8],
    losses: &mut [Loss],
    progress: &mut ConverterProgress,
    report: &mut Report,
) -> u8
    requires tables { tables.now ≡ held_lists converter.old.tables.tables }
    requires saved { saved_step_in converter.old.words ≡ Some saved }
    ensures { (v : StepView) → HoldsStep converter.old v → MakesStep v converter.new src.now last
        dst.old dst.new losses.old losses.new progress.new report.new result }
{
    // A proved handle has no greater length: this bounds one that was never filled.
    let text = &converter.text[..converter.text_len.min(1024)];
    let mut held = Converter::resumed(saved, text, tables);
    let status = convert_step(&mut held, src, last, dst, losses, progress, report);
    let handle = converter.tables.copied();
    converter.keep(handle, &held);
    status
}

// The same if the handle has no tables: over some with no index, which take no memory. They stand
// in a function of their own, since each call clears the room of all its variables.
fn go_on_without(
    alloc: Global,
    saved: SavedStep,
    converter: &mut ConverterHandle,
    src: &[u8],
    last: bool,
    dst: &mut [u8],
    losses: &mut [Loss],
    progress: &mut ConverterProgress,
    report: &mut Report,
) -> u8
    requires tables { converter.old.tables.tables ≡ None }
    requires saved { saved_step_in converter.old.words ≡ Some saved }
    ensures { (v : StepView) → HoldsStep converter.old v → MakesStep v converter.new src.now last
        dst.old dst.new losses.old losses.new progress.new report.new result }
{
    let tables = Tables::new(alloc);
    go_on(
        &tables, saved, converter, src, last, dst, losses, progress, report,
    )
}

// A step of a converter.
fn convert_step(
    converter: &mut Converter<'_>,
    src: &[u8],
    last: bool,
    dst: &mut [u8],
    losses: &mut [Loss],
    progress: &mut ConverterProgress,
    report: &mut Report,
) -> u8
    ensures converts { ConvertsByStep (step_view converter.new) src.now last dst.old dst.new
        losses.old losses.new progress.new report.new result }
    ensures joins { JoinsToCalls (step_view converter.old) (step_view converter.new) src.now last
        dst.new losses.new progress.new report.new result }
    ensures lists { (step_view converter.new).stream.lists
        ≡ (step_view converter.old).stream.lists }
{
    stops_at_first_loss();
    let (src, last) = converter.readable(src, last);
    *progress = converter.run(src, last, dst, losses);
    let (status, counts) = converter.tell();
    converter.is_finished = status != GOES_ON;
    *report = counts;
    status
}
