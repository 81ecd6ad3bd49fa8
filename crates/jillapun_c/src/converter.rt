//! Conversions by steps.

ghost use Rattle.std.specs.Prelude.{◌≡◌, ◌≢◌, [], false, None};
ghost use Rattle.recode.specs.Job.{IsValidJob};
ghost use Rattle.recode.specs.SavedConverters.{CanGoOnFrom};
ghost use Rattle.jillapun_c.specs.ConverterCalls.{HoldsNoStep, OpensConverter};
ghost use Rattle.jillapun_c.specs.ConverterRuns.{HasConverted};
ghost use Rattle.jillapun_c.specs.ConverterWords.{SavesStep};
ghost use Rattle.jillapun_c.specs.Converters.{IsNewConverter, step_view};
ghost use Rattle.jillapun_c.specs.HeldTables.{held_lists};
ghost use Rattle.jillapun_c.specs.declared.status.TheConstants.{OK};

pub(crate) mod handle;
pub(crate) mod held;
pub(crate) mod made;
pub(crate) mod progress;
pub(crate) mod step;
pub(crate) mod turn;
pub(crate) mod words;

use crate::converter::handle::ConverterHandle;
use crate::converter::held::Held;
use crate::converter::words::SavedStep;
use crate::losses::Loss;
use crate::request::Request;
use crate::status::{OK, Status};
use crate::tables_handle::TablesHandle;
use encoding_tables::Tables;
use recode::Job;
use std::alloc::Global;

/// What a conversion has come to.
#[derive(Clone, Copy)]
pub enum Stage {
    /// It goes on, or all of it is converted.
    Open,
    /// The policy stopped it at the character with this index and code point.
    Stopped { index: u64, scalar: u32 },
    /// The input has more bytes than the limit.
    TooLong,
}

/// A conversion by steps, and what of it waits for room.
#[derive(Drop)]
pub struct Converter<'t> {
    /// The conversion.
    pub stream: recode::Converter<'t>,
    /// The bytes that wait for room.
    pub held: Held,
    /// The record that waits for room, if one does.
    pub loss: Option<Loss>,
    /// What the conversion has come to.
    pub stage: Stage,
    /// Whether the end was reported.
    pub is_finished: bool,
}

impl<'t> Converter<'t> {
    /// One that was handed nothing.
    pub(crate) fn new(job: Job<'t>) -> Self
        requires { IsValidJob job }
        ensures is_new { IsNewConverter (step_view result) job.entry }
        ensures so_far { HasConverted job.entry false [] [] [] [] (step_view result) }
    {
        Converter {
            stream: recode::Converter::new(job),
            held: Held::none(),
            loss: None,
            stage: Stage::Open,
            is_finished: false,
        }
    }

    /// What it keeps between calls, and the text that waits to be encoded.
    #[inline(always)]
    pub(crate) fn saved(&self) -> (SavedStep, &[u8])
        ensures { SavesStep result.0 result.1.now (step_view self.now) }
    {
        let (stream, text) = self.stream.saved();
        let (held, held_len) = self.held.parts();
        let saved = SavedStep {
            stream,
            held,
            held_len,
            loss: self.loss,
            stage: self.stage,
            is_finished: self.is_finished,
        };
        (saved, text)
    }

    /// One that goes on from what was saved of one whose job had these tables, and the text that
    /// waited.
    #[inline(always)]
    pub(crate) fn resumed(saved: SavedStep, text: &[u8], tables: &'t Tables) -> Self
        requires { CanGoOnFrom tables.now saved.stream text.now }
        ensures saves { SavesStep saved text.now (step_view result) }
        ensures lists { (step_view result).stream.lists ≡ tables.now }
    {
        Converter {
            stream: recode::Converter::resumed(saved.stream, text, tables),
            held: Held::of(saved.held, saved.held_len),
            loss: saved.loss,
            stage: saved.stage,
            is_finished: saved.is_finished,
        }
    }
}

/// Begins the conversion of a new input. The parameters are as for `jillapun_convert`. Errors:
/// `UNKNOWN`, `NOT_READY`.
#[unsafe(no_mangle)]
pub extern "C" fn jillapun_converter_new(
    alloc: Global,
    tables: TablesHandle,
    from: u8,
    to: u8,
    mark: u8,
    policy: u8,
    limit: u64,
    out: &mut ConverterHandle,
) -> Status
    ensures opens { OpensConverter tables.tables
        (record { from = from; to = to; mark = mark; policy = policy; limit = limit })
        out.new result }
    ensures refused { result ≢ OK → HoldsNoStep out.new }
{
    let request = Request {
        from,
        to,
        mark,
        policy,
        limit,
    };
    match tables.lent() {
        Some(lent) => open_over(lent, tables, request, out),
        None => open_without(alloc, tables, request, out),
    }
}

// Makes a converter as it is asked for, over these tables, which are those of the handle.
fn open_over(lent: &Tables, tables: TablesHandle, request: Request, out: &mut ConverterHandle) -> u8
    requires { lent.now ≡ held_lists tables.tables }
    ensures opens { OpensConverter tables.tables request out.new result }
    ensures refused { result ≢ OK → HoldsNoStep out.new }
{
    match request.job(lent) {
        Err(status) => {
            *out = ConverterHandle::none();
            status
        }
        Ok(job) => {
            out.keep(tables, &Converter::new(job));
            OK
        }
    }
}

// The same if the handle has no tables: over some with no index, which take no memory. They stand
// in a function of their own, since each call clears the room of all its variables.
fn open_without(
    alloc: Global,
    tables: TablesHandle,
    request: Request,
    out: &mut ConverterHandle,
) -> u8
    requires { tables.tables ≡ None }
    ensures opens { OpensConverter tables.tables request out.new result }
    ensures refused { result ≢ OK → HoldsNoStep out.new }
{
    let lent = Tables::new(alloc);
    open_over(&lent, tables, request, out)
}
