//! The engine of a conversion: bytes of one encoding to bytes of another, by a decoder and an
//! encoder, over a pivot that is lent. It calls no device.

use crate::codec_calls::{decode_to_pivot, encode_from_pivot, text_between, write_replacement};
use crate::converter::ConverterResult;
use crate::counts::Counts;
use crate::job::{Job, Pivot, Report};
use crate::verdict::Verdict;
use encoding_front::{Decoder, Mark, StreamDecoder, VariantEncoder};
use encoding_mem::{DecoderResult, EncoderResult, RawEncoder};
use recode_log::line::LogLine;

/// An engine: the codecs, what is known of the output, the counts, and what waits in the pivot that
/// it is lent.
#[derive(Drop)]
pub struct Engine<D, E> {
    pub decoder: D,
    pub encoder: E,
    pub verdict: Verdict<D>,
    pub counts: Counts,
    /// How the call of the decoder ended that wrote the text that waits in the pivot; none waits
    /// if there is none.
    pub answer: Option<DecoderResult>,
    /// Where the text that waits begins in the pivot.
    pub from: usize,
    /// Where it ends.
    pub to: usize,
}

impl<'t> Engine<Decoder<'t>, VariantEncoder<'t>> {
    ghost use Rattle.std.specs.Prelude.{◌≡◌, None};
    ghost use Rattle.recode.specs.Job.{IsValidJob};
    ghost use Rattle.recode.specs.Session.{IsNewSession, ReportsOn};
    ghost use Rattle.recode.specs.declared.job.Policy.{Policy};
    ghost use Rattle.recode.specs.calls.Chunk.{CanConvert};
    ghost use Rattle.recode.specs.calls.EngineCodecs.{AreCodecsOf};
    ghost use Rattle.recode.specs.calls.EngineView.{engine_state};
    ghost use Rattle.recode.specs.declared.session.Phase.TheVariants.{Open};

    /// The engine of a job, of which nothing is read.
    pub fn new(job: Job<'t>) -> Self
        requires { IsValidJob job }
        ensures begins { IsNewSession (record {
          job = job.entry;
          state = engine_state ⟦<Decoder<'t> as StreamDecoder>⟧.view
              ⟦<VariantEncoder<'t> as RawEncoder>⟧.parts job.entry.policy result;
          phase = Open;
        }) job.entry }
        ensures ready { CanConvert (engine_state ⟦<Decoder<'t> as StreamDecoder>⟧.view
            ⟦<VariantEncoder<'t> as RawEncoder>⟧.parts job.entry.policy result) }
        ensures codecs { AreCodecsOf ⟦<Decoder<'t> as StreamDecoder>⟧.view
            ⟦<VariantEncoder<'t> as RawEncoder>⟧.parts job.entry result }
        ensures none { result.answer ≡ None }
        ensures from { result.from ≡ 0 }
        ensures to { result.to ≡ 0 }
    {
        Engine {
            decoder: Decoder::new(job.from, job.mark, Some(job.tables)),
            encoder: VariantEncoder::new(job.to, Some(job.tables)),
            verdict: Verdict {
                reader: Decoder::new(job.to.output_encoding(), Mark::Keep, Some(job.tables)),
                by_log: job.to.keeps_characters(),
                faithful: true,
            },
            counts: Counts {
                read: 0,
                index: 0,
                bad: 0,
                lost: 0,
                calls: 0,
            },
            answer: None,
            from: 0,
            to: 0,
        }
    }

    /// The report on what was converted, if all was read and written.
    pub fn report(&self) -> Report
        ensures { (p : Policy) → ReportsOn (engine_state ⟦<Decoder<'t> as StreamDecoder>⟧.view
            ⟦<VariantEncoder<'t> as RawEncoder>⟧.parts p self.now) result }
    {
        Report {
            read: self.counts.read,
            bad: self.counts.bad,
            lost: self.counts.lost,
            calls: self.counts.calls,
            encoding: self.decoder.encoding(),
            faithful: self.verdict.faithful,
        }
    }
}

impl<D: StreamDecoder, E: RawEncoder> Engine<D, E> {
    ghost use Rattle.std.specs.Prelude.{◌≡◌, ◌+◌, ◌-◌, ◌^◌, ◌<◌, ◌≤◌, ◌++◌, ◌∷◌, [], Some, None};
    ghost use Rattle.std.specs.Prelude.{IsSome, IfSome, ◌*◌, drop, false, length, map, take};
    ghost use Rattle.encoding_mem.specs.Items.{Byte};
    ghost use Rattle.encoding_mem.specs.calls.EncoderCalls.{reported_item};
    ghost use Rattle.encoding_mem.specs.calls.EncoderRule.{WritesBytes};
    ghost use Rattle.recode.specs.Policy.{reference_form};
    ghost use Rattle.recode.specs.calls.Buffers.{HoldsAnyCharacter, KeepsRoom, is_wide};
    ghost use Rattle.recode.specs.calls.CodecCalls.{writes_all};
    ghost use Rattle.recode.specs.calls.EngineCodecs.{AreCodecsOf};
    ghost use Rattle.recode.specs.calls.EngineView.{HoldsBetween, chars_between, standing};
    ghost use Rattle.recode.specs.calls.EngineView.{engine_state, engine_target, replacing};
    ghost use Rattle.recode.specs.calls.Lent.{AreLent, KeepsLent};
    ghost use Rattle.recode.specs.calls.Text.{CanEncode};
    ghost use Rattle.recode.specs.calls.Turns.{CanGoOn, ConvertEndsWith, EncodesOnce, TakesTurns};
    ghost use Rattle.recode.specs.Converter.{found_items};
    ghost use Rattle.recode.specs.calls.Turns.{end_count, is_last_text, settled, stop_count};
    ghost use Rattle.recode.specs.calls.Turns.{stop_items, waits};
    ghost use Rattle.recode.specs.declared.job.Job.{Job};
    ghost use Rattle.recode.specs.declared.job.Policy.{Policy};

    // One call of the encoder, on the text that waits. What it writes is read back.
    fn encode(
        &mut self,
        pivot: &Pivot<'_>,
        dst: &mut [u8],
        check: &mut Pivot<'_>,
        last: bool,
    ) -> (EncoderResult, usize)
        requires holds { HoldsBetween pivot.now self.old.from self.old.to }
        requires ready { CanEncode (engine_target D.view E.parts Policy.Decimal self.old)
            (chars_between pivot.now self.old.from self.old.to) }
        requires room { 4 ≤ length dst.old }
        requires check { HoldsAnyCharacter check.old }
        requires form { is_wide check.old ≡ is_wide pivot.now }
        ensures once { (p : Policy) → EncodesOnce (engine_target D.view E.parts p self.old)
            (engine_target D.view E.parts p self.new) last
            (chars_between pivot.now self.old.from self.old.to)
            (chars_between pivot.now self.new.from self.new.to)
            (map Byte (take result.1 dst.new)
            ++ reported_item (reference_form p) self.new.counts.index result.0)
            (writes_all result.0) }
        ensures full { result.0 ≡ EncoderResult.OutputFull → length dst.new < result.1 + 4 }
        ensures wrote { WritesBytes dst.old dst.new result.1 }
        ensures holds { HoldsBetween pivot.now self.new.from self.new.to }
        ensures decoder { self.new.decoder ≡ self.old.decoder }
        ensures answer { self.new.answer ≡ self.old.answer }
        ensures check { KeepsRoom check.old check.new }
        ensures codecs { (j : Job) → AreCodecsOf D.view E.parts j self.old
            → AreCodecsOf D.view E.parts j self.new }
    {
        let text = text_between(pivot, self.from, self.to);
        let calls = &mut self.counts.calls;
        let call = encode_from_pivot(&mut self.encoder, text, dst, last, calls);
        self.counts.index += call.characters as u64;
        self.from = self.to - call.rest.len();
        match call.answer {
            EncoderResult::InputEmpty | EncoderResult::OutputFull => {
                let calls = &mut self.counts.calls;
                self.verdict
                    .read_back(&dst[..call.written], call.read, check, calls);
            }
            EncoderResult::Unmappable(_) => {
                self.verdict.faithful = false;
                self.counts.lost += 1;
            }
        }
        (call.answer, call.written)
    }

    // The line of a malformed sequence, behind the text that was written. U+FFFD waits now.
    fn replace(&mut self, size: u8, after: u8, pivot: &mut Pivot<'_>) -> LogLine
        requires small { self.old.counts.bad < 2 ^ 64 - 1 }
        requires offset { after + size ≤ self.old.counts.read }
        requires pivot { HoldsAnyCharacter pivot.old }
        ensures line { result ≡ LogLine.Bad (self.old.counts.read - after - size) size }
        ensures same { self.new ≡ replacing self.old self.new.to }
        ensures text { chars_between pivot.new 0 self.new.to ≡ 0xFFFD ∷ [] }
        ensures holds { HoldsBetween pivot.new 0 self.new.to }
        ensures pivot { KeepsRoom pivot.old pivot.new }
    {
        self.counts.bad += 1;
        self.verdict.faithful = false;
        self.answer = Some(DecoderResult::OutputFull);
        self.from = 0;
        self.to = write_replacement(pivot);
        LogLine::Bad {
            offset: self.counts.read - u64::from(after) - u64::from(size),
            length: size,
        }
    }

    // Whether the text that waits is the last.
    fn ends(&self, last: bool) -> bool
        ensures { result ≡ is_last_text self.now.answer last }
    {
        last && matches!(self.answer, Some(DecoderResult::InputEmpty))
    }

    /// Ends a call, so that more bytes can come: the decoder is asked again after the text that
    /// waits, unless it is the last. Returns whether it is.
    pub fn settle(&mut self, last: bool) -> bool
        ensures ends { result ≡ is_last_text self.old.answer last }
        ensures same { self.new ≡ record self.old { answer = settled self.old.answer last } }
    {
        match self.answer {
            Some(DecoderResult::InputEmpty) => {
                if !last {
                    self.answer = Some(DecoderResult::OutputFull);
                }
                last
            }
            _ => false,
        }
    }

    // One call of the decoder, if no text waits. Returns how many bytes it read.
    fn fill(&mut self, src: &[u8], pivot: &mut Pivot<'_>, last: bool) -> usize
        requires ready { CanGoOn
            (standing D.view E.parts Policy.Decimal self.old pivot.old) src.now last }
        requires holds { HoldsBetween pivot.old self.old.from self.old.to }
        requires pivot { HoldsAnyCharacter pivot.old }
        ensures law { (p : Policy) → TakesTurns (standing D.view E.parts p self.old pivot.old)
            (standing D.view E.parts p self.new pivot.new) last src.now
            (drop result src.now) [] 0 0 }
        ensures next { CanGoOn (standing D.view E.parts Policy.Decimal self.new pivot.new)
            (drop result src.now) last }
        ensures some { IsSome self.new.answer }
        ensures fewer { self.new.answer ≡ Some DecoderResult.OutputFull
            → 2 * length ((D.view self.new.decoder).state.pieces (drop result src.now))
            < 2 * length ((D.view self.old.decoder).state.pieces src.now)
            + waits self.old.answer }
        ensures within { result ≤ length src.now }
        ensures holds { HoldsBetween pivot.new self.new.from self.new.to }
        ensures pivot { KeepsRoom pivot.old pivot.new }
        ensures codecs { (j : Job) → AreCodecsOf D.view E.parts j self.old
            → AreCodecsOf D.view E.parts j self.new }
    {
        if self.answer.is_some() {
            return 0;
        }
        let call = decode_to_pivot(&mut self.decoder, src, pivot, last, &mut self.counts.calls);
        self.counts.read += call.read as u64;
        self.answer = Some(call.answer);
        self.from = 0;
        self.to = call.written;
        call.read
    }

    // One call of the encoder, after one of the decoder if no text waits. Returns how a call ends
    // here, if it does, and how many bytes were read and written.
    fn turn(
        &mut self,
        src: &[u8],
        dst: &mut [u8],
        pivot: &mut Pivot<'_>,
        check: &mut Pivot<'_>,
        last: bool,
    ) -> (Option<ConverterResult>, usize, usize)
        requires ready { CanGoOn
            (standing D.view E.parts Policy.Decimal self.old pivot.old) src.now last }
        requires holds { HoldsBetween pivot.old self.old.from self.old.to }
        requires lent { AreLent pivot.old check.old }
        ensures law { (p : Policy) → TakesTurns (standing D.view E.parts p self.old pivot.old)
            (standing D.view E.parts p self.new pivot.new) last src.now
            (drop result.1 src.now) (map Byte (take result.2 dst.new)
            ++ stop_items (reference_form p) result.0)
            (3 * stop_count result.0) (2 * stop_count result.0) }
        ensures goes_on { result.0 ≡ None
            → CanGoOn (standing D.view E.parts Policy.Decimal self.new pivot.new)
            (drop result.1 src.now) last }
        ensures fewer { result.0 ≡ None
            → 2 * length ((D.view self.new.decoder).state.pieces (drop result.1 src.now))
            + waits self.new.answer
            < 2 * length ((D.view self.old.decoder).state.pieces src.now)
            + waits self.old.answer }
        ensures ends { (p : Policy) → IfSome result.0 (ConvertEndsWith
            (standing D.view E.parts p self.new pivot.new)
            (drop result.1 src.now) last (length dst.new - result.2)) }
        ensures within { result.1 ≤ length src.now }
        ensures wrote { WritesBytes dst.old dst.new result.2 }
        ensures holds { HoldsBetween pivot.new self.new.from self.new.to }
        ensures lent { KeepsLent pivot.old check.old pivot.new check.new }
        ensures codecs { (j : Job) → AreCodecsOf D.view E.parts j self.old
            → AreCodecsOf D.view E.parts j self.new }
    {
        let read = self.fill(src, pivot, last);
        if dst.len() < 4 {
            return (Some(ConverterResult::OutputFull), read, 0);
        }
        let ends = self.ends(last);
        let (answer, written) = self.encode(pivot, dst, check, ends);
        match answer {
            EncoderResult::OutputFull => (Some(ConverterResult::OutputFull), read, written),
            EncoderResult::Unmappable(scalar) => {
                let index = self.counts.index - 1;
                let line = LogLine::Lost { index, scalar };
                (Some(ConverterResult::Found(line)), read, written)
            }
            EncoderResult::InputEmpty => {
                let Some(text) = self.answer else {
                    return (None, read, written);
                };
                match text {
                    DecoderResult::InputEmpty => {
                        self.answer = None;
                        (Some(ConverterResult::InputEmpty), read, written)
                    }
                    DecoderResult::OutputFull => {
                        self.answer = None;
                        (None, read, written)
                    }
                    DecoderResult::Malformed(size, after) => {
                        let line = self.replace(size, after, pivot);
                        (Some(ConverterResult::Found(line)), read, written)
                    }
                }
            }
        }
    }

    /// Converts bytes of the input. Returns how the call ended, how many bytes it read and how many
    /// it wrote. `last` says that nothing comes after `src`.
    pub fn convert(
        &mut self,
        src: &[u8],
        dst: &mut [u8],
        pivot: &mut Pivot<'_>,
        check: &mut Pivot<'_>,
        last: bool,
    ) -> (ConverterResult, usize, usize)
        requires ready { CanGoOn
            (standing D.view E.parts Policy.Decimal self.old pivot.old) src.now last }
        requires holds { HoldsBetween pivot.old self.old.from self.old.to }
        requires lent { AreLent pivot.old check.old }
        ensures law { (p : Policy) → TakesTurns (standing D.view E.parts p self.old pivot.old)
            (standing D.view E.parts p self.new pivot.new) last src.now
            (drop result.1 src.now) (map Byte (take result.2 dst.new)
            ++ found_items (reference_form p) result.0)
            (3 * end_count result.0) (2 * end_count result.0) }
        ensures ends { (p : Policy) → ConvertEndsWith
            (standing D.view E.parts p self.new pivot.new)
            (drop result.1 src.now) last (length dst.new - result.2) result.0 }
        ensures within { result.1 ≤ length src.now }
        ensures wrote { WritesBytes dst.old dst.new result.2 }
        ensures holds { HoldsBetween pivot.new self.new.from self.new.to }
        ensures lent { KeepsLent pivot.old check.old pivot.new check.new }
        ensures codecs { (j : Job) → AreCodecsOf D.view E.parts j self.old
            → AreCodecsOf D.view E.parts j self.new }
    {
        let mut read = 0;
        let mut written = 0;
        'turns: loop {
            let (stop, taken, put) = self.turn(
                &src[read..],
                &mut dst[written..],
                pivot,
                check,
                last,
            );
            read += taken;
            written += put;
            if let Some(result) = stop {
                return (result, read, written);
            }
        }
    }
}
