//! The encoder of any output encoding: one of the encoders of all codecs.

ghost use Rattle.std.specs.Prelude.{◌≡◌, []};
ghost use Rattle.encoding_mem.specs.calls.EncoderRule.{IsFreshEncoder};
ghost use Rattle.encoding_mem.specs.laws.Utf8Coding.{utf8_coding_laws};
ghost use Rattle.encoding_tables.specs.IndexLists.{IndexLists};
ghost use Rattle.encoding_tables.specs.laws.SingleByte.{single_byte_laws};
ghost use Rattle.encoding_tables.specs.laws.UserDefined.{user_defined_laws};
ghost use Rattle.encoding_codecs.specs.laws.Big5.{big5_laws};
ghost use Rattle.encoding_codecs.specs.laws.EucKr.{euc_kr_laws};
ghost use Rattle.encoding_codecs.specs.laws.EucJp.{euc_jp_laws};
ghost use Rattle.encoding_codecs.specs.laws.ShiftJis.{shift_jis_laws};
ghost use Rattle.encoding_codecs.specs.laws.Gb18030Coding.{gb18030_laws};
ghost use Rattle.encoding_codecs.specs.laws.Iso2022JpForms.{iso_2022_jp_laws};
ghost use Rattle.encoding_front.specs.Encodings.{IsReady, coding_of, lists_of, needs_of};
ghost use Rattle.encoding_front.specs.Encodings.{output_encoding_of};
ghost use Rattle.encoding_front.specs.calls.CodecBounds.{need_of, encoded_length_of};
ghost use Rattle.encoding_front.specs.declared.variant_encoder.VariantEncoder.TheVariants as variant;

use crate::codec_kind::CodecKind;
use crate::encoding::Encoding;
use encoding_codecs::{
    Big5Encoder, EucJpEncoder, EucKrEncoder, Gb18030Encoder, Iso2022JpEncoder, ShiftJisEncoder,
};
use encoding_mem::form::EscapeState;
use encoding_mem::room::EncodedLength;
use encoding_mem::source::Source;
use encoding_mem::source_encoder::SourceEncoder;
use encoding_mem::{EncoderResult, RawEncoder, Utf8Encoder};
use encoding_tables::{SingleByteEncoder, Tables, UserDefinedEncoder};

/// The raw encoder of any output encoding: one of the codecs, chosen when the program runs.
/// `Encoder` stands on it; calls are those of `RawEncoder` and `SourceEncoder`.
#[derive(Drop)]
pub enum VariantEncoder<'t> {
    /// UTF-8.
    Utf8(Utf8Encoder),
    /// A single-byte encoding, by its index.
    SingleByte(SingleByteEncoder<'t>),
    /// Big5.
    Big5(Big5Encoder<'t>),
    /// EUC-KR.
    EucKr(EucKrEncoder<'t>),
    /// EUC-JP.
    EucJp(EucJpEncoder<'t>),
    /// Shift_JIS.
    ShiftJis(ShiftJisEncoder<'t>),
    /// gb18030 or GBK.
    Gb18030(Gb18030Encoder<'t>),
    /// ISO-2022-JP.
    Iso2022Jp(Iso2022JpEncoder<'t>),
    /// x-user-defined.
    UserDefined(UserDefinedEncoder),
}

impl<'t> VariantEncoder<'t> {
    /// An encoder of a new stream into the output encoding of `encoding`, with ASCII as the set in
    /// force.
    ///
    /// The condition, that the indexes of the output encoding are in `tables`, is tested by
    /// `Encoding::is_ready` of `output_encoding`. If that needs none (`Encoding::needs`), `None`
    /// will do.
    pub fn new(encoding: Encoding, tables: Option<&'t Tables>) -> Self
        requires { IsReady (lists_of tables) (output_encoding_of encoding) }
        ensures { IsFreshEncoder (⟦<VariantEncoder<'t> as RawEncoder>⟧.parts result)
            (need_of encoding) (coding_of (lists_of tables.entry) encoding)
            (encoded_length_of encoding) }
    {
        match tables {
            Some(tables) => VariantEncoder::over(encoding, tables),
            None => VariantEncoder::without_tables(encoding),
        }
    }

    // An encoder of a new stream, the indexes of whose output encoding are in these tables.
    fn over(encoding: Encoding, tables: &'t Tables) -> Self
        requires { IsReady tables.now (output_encoding_of encoding) }
        ensures { IsFreshEncoder (⟦<VariantEncoder<'t> as RawEncoder>⟧.parts result)
            (need_of encoding) (coding_of tables.now encoding) (encoded_length_of encoding) }
    {
        match encoding.codec_kind() {
            CodecKind::SingleByte(kind) => {
                VariantEncoder::SingleByte(SingleByteEncoder::new(tables, kind))
            }
            CodecKind::Big5 => VariantEncoder::Big5(Big5Encoder::new(tables)),
            CodecKind::EucKr => VariantEncoder::EucKr(EucKrEncoder::new(tables)),
            CodecKind::EucJp => VariantEncoder::EucJp(EucJpEncoder::new(tables)),
            CodecKind::ShiftJis => VariantEncoder::ShiftJis(ShiftJisEncoder::new(tables)),
            CodecKind::Gb18030 { extended } => {
                VariantEncoder::Gb18030(Gb18030Encoder::new(tables, extended))
            }
            CodecKind::Iso2022Jp => VariantEncoder::Iso2022Jp(Iso2022JpEncoder::new(tables)),
            CodecKind::Utf8
            | CodecKind::UserDefined
            | CodecKind::Utf16 { .. }
            | CodecKind::Replacement => VariantEncoder::without_tables(encoding),
        }
    }

    // An encoder of a new stream, whose output encoding needs no index.
    fn without_tables(encoding: Encoding) -> Self
        requires { needs_of (output_encoding_of encoding) ≡ [] }
        ensures { (t : IndexLists) → IsFreshEncoder
            (⟦<VariantEncoder<'t> as RawEncoder>⟧.parts result)
            (need_of encoding) (coding_of t encoding) (encoded_length_of encoding) }
    {
        match encoding.codec_kind() {
            CodecKind::UserDefined => VariantEncoder::UserDefined(UserDefinedEncoder::new()),
            // The output encoding of UTF-16 and of replacement is UTF-8.
            CodecKind::Utf8 | CodecKind::Utf16 { .. } | CodecKind::Replacement => {
                VariantEncoder::Utf8(Utf8Encoder::new())
            }
            _ => unreachable!(),
        }
    }
}

// The call of the encoder that there is.
macro_rules! dispatch {
    ($variant:expr, $encoder:ident => $call:expr) => {
        match $variant {
            VariantEncoder::Utf8($encoder) => $call,
            VariantEncoder::SingleByte($encoder) => $call,
            VariantEncoder::Big5($encoder) => $call,
            VariantEncoder::EucKr($encoder) => $call,
            VariantEncoder::EucJp($encoder) => $call,
            VariantEncoder::ShiftJis($encoder) => $call,
            VariantEncoder::Gb18030($encoder) => $call,
            VariantEncoder::Iso2022Jp($encoder) => $call,
            VariantEncoder::UserDefined($encoder) => $call,
        }
    };
}

impl<'t> SourceEncoder for VariantEncoder<'t> {
    ghost parts = { elim [
      | variant.Utf8 e ↦ ⟦<Utf8Encoder as SourceEncoder>⟧.parts e
      | variant.SingleByte e ↦ ⟦<SingleByteEncoder<'t> as SourceEncoder>⟧.parts e
      | variant.Big5 e ↦ ⟦<Big5Encoder<'t> as SourceEncoder>⟧.parts e
      | variant.EucKr e ↦ ⟦<EucKrEncoder<'t> as SourceEncoder>⟧.parts e
      | variant.EucJp e ↦ ⟦<EucJpEncoder<'t> as SourceEncoder>⟧.parts e
      | variant.ShiftJis e ↦ ⟦<ShiftJisEncoder<'t> as SourceEncoder>⟧.parts e
      | variant.Gb18030 e ↦ ⟦<Gb18030Encoder<'t> as SourceEncoder>⟧.parts e
      | variant.Iso2022Jp e ↦ ⟦<Iso2022JpEncoder<'t> as SourceEncoder>⟧.parts e
      | variant.UserDefined e ↦ ⟦<UserDefinedEncoder as SourceEncoder>⟧.parts e
    ] };

    ghost laws = { elim [
      | variant.Utf8 e ↦ utf8_coding_laws
      | variant.SingleByte e ↦ single_byte_laws e.flat
      | variant.Big5 e ↦ big5_laws e.flat
      | variant.EucKr e ↦ euc_kr_laws e.flat
      | variant.EucJp e ↦ euc_jp_laws e.jis0208
      | variant.ShiftJis e ↦ shift_jis_laws e.jis0208
      | variant.Gb18030 e ↦ gb18030_laws e.index e.ranges e.extended_range
      | variant.Iso2022Jp e ↦ iso_2022_jp_laws e.jis0208 e.katakana
      | variant.UserDefined e ↦ user_defined_laws
    ] };

    fn encode_from<S: Source>(
        &mut self,
        source: &mut S,
        dst: &mut [u8],
        last: bool,
    ) -> (EncoderResult, usize) {
        dispatch!(self, encoder => encoder.encode_from(source, dst, last))
    }

    fn encoded_length(&self) -> EncodedLength {
        dispatch!(self, encoder => SourceEncoder::encoded_length(encoder))
    }

    fn current_set(&self) -> EscapeState {
        dispatch!(self, encoder => SourceEncoder::current_set(encoder))
    }

    fn enter(&mut self, next: EscapeState) {
        dispatch!(self, encoder => SourceEncoder::enter(encoder, next))
    }
}
