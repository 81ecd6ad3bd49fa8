//! A converter: bytes of one encoding to bytes of another. It is a decoder and an encoder in one,
//! and calls no device: who has bytes hands them in, and takes what was made of them.

ghost use Rattle.std.specs.Prelude.{◌≡◌, ◌+◌, ◌-◌, ◌≤◌, ◌<◌, ◌^◌, ◌++◌, ◌↔◌, Some, [], true, false};
ghost use Rattle.std.specs.Prelude.{IsSome, IfSome, drop, length, map, take};
ghost use Rattle.encoding_mem.specs.Items.{Byte};
ghost use Rattle.encoding_mem.specs.calls.EncoderRule.{WritesBytes};
ghost use Rattle.recode.specs.Converter.{ConverterEndsWith, ConverterView, ConvertsPart};
ghost use Rattle.recode.specs.Converter.{IsFreshConverter, found_items};
ghost use Rattle.recode.specs.Job.{IsValidJob};
ghost use Rattle.recode.specs.Policy.{reference_form};
ghost use Rattle.recode.specs.Session.{ReportsOn};
ghost use Rattle.recode.specs.calls.Buffers.{capacity, is_wide};
ghost use Rattle.recode.specs.calls.EngineCodecs.{AreCodecsOf};
ghost use Rattle.recode.specs.laws.SavedConverters.{codecs-prop};
ghost use Rattle.recode.specs.calls.EngineView.{HoldsBetween, converter_of_parts, over_text};
ghost use Rattle.recode.specs.calls.EngineView.{pivot_bytes, standing};
ghost use Rattle.recode.specs.calls.Turns.{IsBetweenCalls};
ghost use Rattle.recode.specs.declared.job.Policy.{Policy};

pub mod saved_converter;

use crate::engine::Engine;
use crate::job::{Job, Pivot, Policy, Report};
use encoding_front::{Decoder, StreamDecoder, VariantEncoder};
use encoding_mem::RawEncoder;
use recode_log::line::LogLine;

/// How a call of a converter ended.
#[derive(Clone, Copy, PartialEq, Eq, Debug)]
pub enum ConverterResult {
    /// All of `src` is read, and all that it decides is written. Hand in what comes next. After a
    /// call with `last` all is written, and the conversion is over (`Converter::is_over`).
    InputEmpty,
    /// Fewer than 4 bytes of `dst` are free; nothing says whether anything is left to write. Take
    /// what is written, and call again with what is left of `src`, and the same `last`. A room of 4
    /// bytes or more is always enough to go on.
    OutputFull,
    /// Something is lost here, and all before it is written. The line is that of the log: its
    /// offset in bytes, or its index in characters, is from the start of the input.
    ///
    /// For a malformed sequence (`LogLine::Bad`) the converter writes U+FFFD in its next call. In
    /// the place of a character without bytes (`LogLine::Lost`) the output has its reference, which
    /// is yours to write before the next call (`write_reference` of `encoding_front`, in the form
    /// of `Policy::reference`); if the policy has none, end the conversion. Then call again with
    /// what is left of `src`, and the same `last`.
    Found(LogLine),
}

impl ConverterResult {
    ghost use Rattle.std.specs.Prelude.{◌≡◌, ◌&&◌};
    ghost use Rattle.recode.specs.Converter.{is_all_converted};

    // Whether all is converted, and nothing comes after it.
    fn ends(self, last: bool) -> bool
        ensures { result ≡ (last && is_all_converted self) }
    {
        match self {
            ConverterResult::InputEmpty => last,
            ConverterResult::OutputFull | ConverterResult::Found(_) => false,
        }
    }
}

// How many bytes of text wait at most.
const ROOM: usize = 1024;

// What a value is to its callers.
trait Viewed {
    ghost view: { Self → ConverterView };
}

/// A conversion of a stream that calls no device: bytes of the input come in as they are there,
/// bytes of the output go out as there is room, and what is lost is found in its place. It takes no
/// memory; 1 KiB of it is text that waits.
///
/// However the input is cut and whatever rooms are lent, all that is written and found is the same:
/// the job's output and log (`laws::calls_are_a_conversion`). At `InputEmpty` all is written but
/// bytes that decide nothing yet, however the input goes on.
///
/// # Use
///
/// Hand in the bytes that there are, and after each call what is left of them:
///
///     let mut converter = Converter::new(job);
///     let mut room = [0; 4096];
///     for chunk in input.chunks(4096) {
///         let mut rest = chunk;
///         loop {
///             let (result, read, written) = converter.convert(rest, &mut room, false);
///             output.write_all(&room[..written])?;
///             rest = &rest[read..];
///             match result {
///                 ConverterResult::InputEmpty => break,
///                 ConverterResult::OutputFull => {}
///                 ConverterResult::Found(LogLine::Bad { offset, length }) => {
///                     println!(rt; "{length} malformed bytes at offset {offset}")?;
///                 }
///                 ConverterResult::Found(LogLine::Lost { index, scalar }) => {
///                     println!(rt; "character {index} has no bytes: {scalar:?}")?;
///                     let mut reference = [0; 10];
///                     let len = write_reference(scalar, Reference::Decimal, &mut reference);
///                     output.write_all(&reference[..len])?;
///                 }
///             }
///         }
///     }
///
/// At the end of the input do the same with no bytes and `last`, until `is_over`; then `report` has
/// the counts and the verdict. Before each call `bytes_left` says how many bytes the job's limit
/// allows.
#[derive(Drop)]
pub struct Converter<'t> {
    engine: Engine<Decoder<'t>, VariantEncoder<'t>>,
    job: Job<'t>,
    // The text that waits between two calls, in UTF-8, stands in it. It is not lent, as that of a
    // session is: each call would want the pivot of the call before it, and a handle of C, which
    // keeps both, would lend to itself.
    text: [u8; ROOM],
    // Whether the end was read, and its text waits.
    ended: bool,
    // Whether all is written.
    over: bool,
    ghost codecs: { AreCodecsOf ⟦<Decoder<'static> as StreamDecoder>⟧.view
        ⟦<VariantEncoder<'static> as RawEncoder>⟧.parts job engine } by { codecs-prop _ _ _ _ },
    ghost small: { job.limit ≤ 2 ^ 48 },
    ghost within: { engine.counts.read ≤ job.limit },
    ghost holds: { HoldsBetween (over_text text) engine.from engine.to },
    ghost rests: { over ≡ false → IsBetweenCalls (standing
        ⟦<Decoder<'static> as StreamDecoder>⟧.view
        ⟦<VariantEncoder<'static> as RawEncoder>⟧.parts Policy.Decimal engine
        (over_text text)) ended },
}

impl<'t> Viewed for Converter<'t> {
    ghost view = { λ c. converter_of_parts ⟦<Decoder<'t> as StreamDecoder>⟧.view
        ⟦<VariantEncoder<'t> as RawEncoder>⟧.parts c.job c.engine c.text c.ended c.over };
}

impl<'t> Converter<'t> {
    ghost use Rattle.recode.specs.calls.ConverterView.{converter_view};

    /// A converter of a job that has read nothing. The condition, that the job is valid, is tested
    /// by `Job::is_valid`.
    pub fn new(job: Job<'t>) -> Self
        requires { IsValidJob job }
        ensures { IsFreshConverter (converter_view result) job.entry }
    {
        Converter {
            engine: Engine::new(job),
            job,
            text: [0; ROOM],
            ended: false,
            over: false,
        }
    }

    /// Whether the end was read and all is written, so that nothing more can be done. The test of a
    /// condition of `convert`.
    pub fn is_over(&self) -> bool
        ensures { result ≡ (converter_view self.now).over }
    {
        self.over
    }

    /// If it is true after a call, the end was read: the call was given `last`, and left nothing of
    /// `src`. After `InputEmpty` it is false. The test of a condition of `convert`.
    pub fn is_ended(&self) -> bool
        ensures { result ≡ (converter_view self.now).ended }
    {
        self.ended
    }

    /// What the conversion reports, once all was read and written; `None` before that.
    ///
    /// No contract bounds `Report::calls` here: how often codecs are called depends on the sizes of
    /// `src` and `dst`.
    pub fn report(&self) -> Option<Report>
        ensures done { IsSome result ↔ ((converter_view self.now).over ≡ true) }
        ensures tells { IfSome result (ReportsOn (converter_view self.now).state) }
    {
        if self.over {
            Some(self.engine.report())
        } else {
            None
        }
    }

    /// How many characters of the text were encoded so far: the index of the next one, as the lines
    /// of lost characters have it. Once all is written (`is_over`), it is the number of characters
    /// of the text of the input, with U+FFFD for each malformed sequence, and without a mark that
    /// was taken.
    pub fn characters(&self) -> u64
        ensures { result ≡ (converter_view self.now).state.counts.index }
    {
        self.engine.counts.index
    }

    /// What the job says is done about a character that has no bytes in the output's encoding.
    pub fn policy(&self) -> Policy
        ensures { result ≡ (converter_view self.now).job.policy }
    {
        self.job.policy
    }

    /// How many more bytes of the input the job's limit allows. The test of a condition of
    /// `convert`.
    pub fn bytes_left(&self) -> u64
        ensures { result + (converter_view self.now).state.counts.read
            ≡ (converter_view self.now).job.limit }
    {
        self.job.limit - self.engine.counts.read
    }

    /// Converts bytes of the input: reads from the start of `src`, and writes to the start of
    /// `dst`. `last` says that no byte comes after `src`. Returns how the call ended, how many
    /// bytes it read, and how many it wrote; what stands in `dst` behind these stays.
    /// [`ConverterResult`] says what to do next.
    ///
    /// Of `src` it leaves what it did not read, to be handed in again: what was still to be written
    /// for `src` and any bytes to come is what it wrote, what it found, and then what is still to
    /// be written for the rest and those bytes. Its work is that for what it reads and writes, and
    /// for the 1 KiB of text that it holds, which is copied in and out.
    ///
    /// Conditions: not all is written yet (`is_over`); `src` has no more bytes than the limit
    /// leaves (`bytes_left`); and once the end was read (`is_ended`), `src` is empty and `last` is
    /// given.
    pub fn convert(
        &mut self,
        src: &[u8],
        dst: &mut [u8],
        last: bool,
    ) -> (ConverterResult, usize, usize)
        requires over { (converter_view self.old).over ≡ false }
        requires ended { (converter_view self.old).ended ≡ true → (src.now ≡ []) × (last ≡ true) }
        requires limit { (converter_view self.old).state.counts.read + length src.now
            ≤ (converter_view self.old).job.limit }
        ensures law { ConvertsPart (converter_view self.old) (converter_view self.new) last src.now
            (drop result.1 src.now) (map Byte (take result.2 dst.new)
            ++ found_items (reference_form (converter_view self.old).job.policy) result.0) }
        ensures ends { ConverterEndsWith (converter_view self.new) (drop result.1 src.now) last
            (length dst.new - result.2) result.0 }
        ensures within { result.1 ≤ length src.now }
        ensures wrote { WritesBytes dst.old dst.new result.2 }
    {
        let mut text = self.text;
        let mut again = [0; ROOM];
        let mut pivot = Pivot::Utf8(&mut text);
        let mut check = Pivot::Utf8(&mut again);
        let (result, read, written) = self.engine.convert(src, dst, &mut pivot, &mut check, last);
        keep_text(&pivot, &mut self.text);
        self.ended = self.engine.settle(last);
        self.over = result.ends(last);
        (result, read, written)
    }
}

// Copies the text of a pivot of UTF-8.
fn keep_text(pivot: &Pivot<'_>, text: &mut [u8])
    requires form { is_wide pivot.now ≡ false }
    requires size { capacity pivot.now ≡ length text.old }
    ensures { text.new ≡ pivot_bytes pivot.now }
{
    match pivot {
        Pivot::Utf8(bytes) => text.copy_from_slice(bytes),
        Pivot::Utf16(_) => {}
    }
}
