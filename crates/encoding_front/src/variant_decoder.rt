//! The decoder of any encoding, without mark handling: one of the decoders of all codecs.

ghost use Rattle.std.specs.Prelude.{◌≡◌, ◌+◌, ◌<◌, ◌≤◌, [], length};
ghost use Rattle.encoding_mem.specs.calls.Decoding.{StateCall, sink_room};
ghost use Rattle.encoding_mem.specs.calls.Resuming.{HoldsFew, reading_of, saved_pending};
ghost use Rattle.encoding_tables.specs.IndexLists.{IndexLists};
ghost use Rattle.encoding_front.specs.calls.BomDecoderState.{held_state};
ghost use Rattle.encoding_front.specs.Encodings.{IsReady, lists_of, needs_of};
ghost use Rattle.encoding_front.specs.calls.Latin1Prefix.{TellsLatin1};
ghost use Rattle.encoding_front.specs.declared.variant_decoder.VariantDecoder.TheVariants as variant;

use crate::codec_kind::CodecKind;
use crate::encoding::Encoding;
use encoding_codecs::{
    Big5Decoder, EucJpDecoder, EucKrDecoder, Gb18030Decoder, Iso2022JpDecoder, ShiftJisDecoder,
};
use encoding_mem::pending::Pending;
use encoding_mem::room::DecodedLength;
use encoding_mem::saved_pieces::SavedPieces;
use encoding_mem::sink::Sink;
use encoding_mem::sink_decoder::SinkDecoder;
use encoding_mem::{
    DecoderResult, RawDecoder, Utf8Decoder, ascii_valid_up_to, iso_2022_jp_ascii_valid_up_to,
};
use encoding_tables::{
    ReplacementDecoder, SingleByteDecoder, Tables, UserDefinedDecoder, Utf16Decoder,
};

/// The raw decoder of any encoding, to which a byte order mark is text: one of the codecs, chosen
/// when the program runs. `Decoder` stands on it; calls are those of `RawDecoder` and
/// `SinkDecoder`.
#[derive(Drop)]
pub enum VariantDecoder<'t> {
    /// UTF-8.
    Utf8(Utf8Decoder),
    /// A single-byte encoding, by its index.
    SingleByte(SingleByteDecoder<'t>),
    /// Big5.
    Big5(Big5Decoder<'t>),
    /// EUC-KR.
    EucKr(EucKrDecoder<'t>),
    /// EUC-JP.
    EucJp(EucJpDecoder<'t>),
    /// Shift_JIS.
    ShiftJis(ShiftJisDecoder<'t>),
    /// gb18030 or GBK, which are decoded alike.
    Gb18030(Gb18030Decoder<'t>),
    /// ISO-2022-JP.
    Iso2022Jp(Iso2022JpDecoder<'t>),
    /// x-user-defined.
    UserDefined(UserDefinedDecoder),
    /// UTF-16BE or UTF-16LE.
    Utf16(Utf16Decoder),
    /// Replacement.
    Replacement(ReplacementDecoder),
}

// The call of the decoder that there is.
macro_rules! dispatch {
    ($variant:expr, $decoder:ident => $call:expr) => {
        match $variant {
            VariantDecoder::Utf8($decoder) => $call,
            VariantDecoder::SingleByte($decoder) => $call,
            VariantDecoder::Big5($decoder) => $call,
            VariantDecoder::EucKr($decoder) => $call,
            VariantDecoder::EucJp($decoder) => $call,
            VariantDecoder::ShiftJis($decoder) => $call,
            VariantDecoder::Gb18030($decoder) => $call,
            VariantDecoder::Iso2022Jp($decoder) => $call,
            VariantDecoder::UserDefined($decoder) => $call,
            VariantDecoder::Utf16($decoder) => $call,
            VariantDecoder::Replacement($decoder) => $call,
        }
    };
}

impl<'t> VariantDecoder<'t> {
    ghost use Rattle.encoding_front.specs.calls.VariantDecoders.{IsNewIn, resumed_of, rule_of};
    ghost use Rattle.encoding_front.specs.calls.VariantDecoders.{state_of};

    /// A decoder of a new stream in `encoding`, with nothing pending.
    ///
    /// The condition, that the indexes of `encoding` are in `tables`, is tested by
    /// `Encoding::is_ready`. If `encoding` needs none (`Encoding::needs`), `None` will do.
    pub fn new(encoding: Encoding, tables: Option<&'t Tables>) -> Self
        requires { IsReady (lists_of tables) encoding }
        ensures { IsNewIn (lists_of tables.entry) encoding result }
    {
        match tables {
            Some(tables) => VariantDecoder::over(encoding, tables),
            None => VariantDecoder::without_tables(encoding),
        }
    }

    // A decoder of a new stream in `encoding`, whose indexes are in these tables.
    fn over(encoding: Encoding, tables: &'t Tables) -> Self
        requires { IsReady tables.now encoding }
        ensures { IsNewIn tables.now encoding result }
    {
        match encoding.codec_kind() {
            CodecKind::SingleByte(kind) => {
                VariantDecoder::SingleByte(SingleByteDecoder::new(tables, kind))
            }
            CodecKind::Big5 => VariantDecoder::Big5(Big5Decoder::new(tables)),
            CodecKind::EucKr => VariantDecoder::EucKr(EucKrDecoder::new(tables)),
            CodecKind::EucJp => VariantDecoder::EucJp(EucJpDecoder::new(tables)),
            CodecKind::ShiftJis => VariantDecoder::ShiftJis(ShiftJisDecoder::new(tables)),
            CodecKind::Gb18030 { .. } => VariantDecoder::Gb18030(Gb18030Decoder::new(tables)),
            CodecKind::Iso2022Jp => VariantDecoder::Iso2022Jp(Iso2022JpDecoder::new(tables)),
            CodecKind::Utf8
            | CodecKind::UserDefined
            | CodecKind::Utf16 { .. }
            | CodecKind::Replacement => VariantDecoder::without_tables(encoding),
        }
    }

    /// A decoder of a new stream in an encoding that needs no index, with nothing pending.
    pub(crate) fn without_tables(encoding: Encoding) -> Self
        requires { needs_of encoding ≡ [] }
        ensures { (t : IndexLists) → IsNewIn t encoding result }
    {
        match encoding.codec_kind() {
            CodecKind::Utf8 => VariantDecoder::Utf8(Utf8Decoder::new()),
            CodecKind::UserDefined => VariantDecoder::UserDefined(UserDefinedDecoder::new()),
            CodecKind::Utf16 { big_endian } => VariantDecoder::Utf16(Utf16Decoder::new(big_endian)),
            CodecKind::Replacement => VariantDecoder::Replacement(ReplacementDecoder::new()),
            _ => unreachable!(),
        }
    }

    // Decodes the source: the call `decode_into`, with a clause more, that the rule stays as it is.
    fn decode_on<S: Sink>(&mut self, src: &[u8], sink: &mut S, last: bool) -> (DecoderResult, usize)
        ensures call { StateCall (state_of self.old) (state_of self.new) src.now last result.1
            (λ text. S.writes sink.old text sink.new)
            (sink_room S.is_units S.free sink.old sink.new) result.0 }
        ensures rule { rule_of self.new ≡ rule_of self.old }
        ensures resumed { resumed_of self.new ≡ resumed_of self.old }
    {
        dispatch!(self, decoder => decoder.decode_into(src, sink, last))
    }

    /// Decodes what is held, and then the source.
    pub(crate) fn decode_held<S: Sink>(
        &mut self,
        held: &mut Pending,
        src: &[u8],
        sink: &mut S,
        last: bool,
    ) -> (DecoderResult, usize)
        requires { 0 < length held.old → (state_of self.old).pending + length held.old ≤ 2 }
        ensures call { StateCall (held_state (state_of self.old) held.old)
            (held_state (state_of self.new) held.new) src.now last result.1
            (λ text. S.writes sink.old text sink.new)
            (sink_room S.is_units S.free sink.old sink.new) result.0 }
        ensures rule { rule_of self.new ≡ rule_of self.old }
        ensures resumed { resumed_of self.new ≡ resumed_of self.old }
        ensures few { 0 < length held.new → (state_of self.new).pending + length held.new ≤ 2 }
    {
        if held.len() == 0 {
            return self.decode_on(src, sink, last);
        }
        let (outcome, taken) = self.decode_on(held.as_slice(), sink, false);
        held.remove_prefix(taken);
        match outcome {
            DecoderResult::InputEmpty => self.decode_on(src, sink, last),
            DecoderResult::OutputFull => (DecoderResult::OutputFull, 0),
            DecoderResult::Malformed(a, b) => {
                (DecoderResult::Malformed(a, b + held.len() as u8), 0)
            }
        }
    }

    /// Goes on from what was saved: the call `resume`, with a clause more, that the rule stays as
    /// it is.
    pub(crate) fn resume_on(&mut self, saved: SavedPieces)
        requires { HoldsFew (resumed_of self.old saved.mode (saved_pending saved)) }
        ensures same { reading_of (state_of self.new)
            ≡ resumed_of self.old saved.mode (saved_pending saved) }
        ensures rule { rule_of self.new ≡ rule_of self.old }
        ensures resumed { resumed_of self.new ≡ resumed_of self.old }
    {
        dispatch!(self, decoder => decoder.resume(saved))
    }

    /// How far bytes that follow are their characters in Latin1; none if something is pending or a
    /// mode is in force, and in UTF-16 and replacement.
    pub(crate) fn latin1_byte_compatible_up_to(&self, bytes: &[u8]) -> Option<usize>
        ensures { TellsLatin1 (rule_of self.now) (state_of self.now) bytes.now result }
    {
        match self {
            VariantDecoder::SingleByte(decoder) => {
                Some(decoder.latin1_byte_compatible_up_to(bytes))
            }
            VariantDecoder::Iso2022Jp(decoder) => {
                if !decoder.in_neutral_state() {
                    return None;
                }
                Some(iso_2022_jp_ascii_valid_up_to(bytes))
            }
            VariantDecoder::Utf16(_) | VariantDecoder::Replacement(_) => None,
            _ => {
                if self.held_len() > 0 {
                    return None;
                }
                Some(ascii_valid_up_to(bytes))
            }
        }
    }
}

impl<'t> SinkDecoder for VariantDecoder<'t> {
    ghost state = { elim [
      | variant.Utf8 d ↦ ⟦<Utf8Decoder as SinkDecoder>⟧.state d
      | variant.SingleByte d ↦ ⟦<SingleByteDecoder<'t> as SinkDecoder>⟧.state d
      | variant.Big5 d ↦ ⟦<Big5Decoder<'t> as SinkDecoder>⟧.state d
      | variant.EucKr d ↦ ⟦<EucKrDecoder<'t> as SinkDecoder>⟧.state d
      | variant.EucJp d ↦ ⟦<EucJpDecoder<'t> as SinkDecoder>⟧.state d
      | variant.ShiftJis d ↦ ⟦<ShiftJisDecoder<'t> as SinkDecoder>⟧.state d
      | variant.Gb18030 d ↦ ⟦<Gb18030Decoder<'t> as SinkDecoder>⟧.state d
      | variant.Iso2022Jp d ↦ ⟦<Iso2022JpDecoder<'t> as SinkDecoder>⟧.state d
      | variant.UserDefined d ↦ ⟦<UserDefinedDecoder as SinkDecoder>⟧.state d
      | variant.Utf16 d ↦ ⟦<Utf16Decoder as SinkDecoder>⟧.state d
      | variant.Replacement d ↦ ⟦<ReplacementDecoder as SinkDecoder>⟧.state d
    ] };

    ghost resumed = { elim [
      | variant.Utf8 d ↦ ⟦<Utf8Decoder as SinkDecoder>⟧.resumed d
      | variant.SingleByte d ↦ ⟦<SingleByteDecoder<'t> as SinkDecoder>⟧.resumed d
      | variant.Big5 d ↦ ⟦<Big5Decoder<'t> as SinkDecoder>⟧.resumed d
      | variant.EucKr d ↦ ⟦<EucKrDecoder<'t> as SinkDecoder>⟧.resumed d
      | variant.EucJp d ↦ ⟦<EucJpDecoder<'t> as SinkDecoder>⟧.resumed d
      | variant.ShiftJis d ↦ ⟦<ShiftJisDecoder<'t> as SinkDecoder>⟧.resumed d
      | variant.Gb18030 d ↦ ⟦<Gb18030Decoder<'t> as SinkDecoder>⟧.resumed d
      | variant.Iso2022Jp d ↦ ⟦<Iso2022JpDecoder<'t> as SinkDecoder>⟧.resumed d
      | variant.UserDefined d ↦ ⟦<UserDefinedDecoder as SinkDecoder>⟧.resumed d
      | variant.Utf16 d ↦ ⟦<Utf16Decoder as SinkDecoder>⟧.resumed d
      | variant.Replacement d ↦ ⟦<ReplacementDecoder as SinkDecoder>⟧.resumed d
    ] };

    fn decode_into<S: Sink>(
        &mut self,
        src: &[u8],
        sink: &mut S,
        last: bool,
    ) -> (DecoderResult, usize) {
        self.decode_on(src, sink, last)
    }

    fn held_len(&self) -> usize {
        dispatch!(self, decoder => decoder.held_len())
    }

    fn room(&self) -> DecodedLength {
        dispatch!(self, decoder => decoder.room())
    }

    fn saved(&self) -> SavedPieces {
        dispatch!(self, decoder => decoder.saved())
    }

    fn resume(&mut self, saved: SavedPieces) {
        self.resume_on(saved)
    }
}
