//! The two decoders and the two encoders that each encoding is tested by: its own codec, and the
//! one that `encoding_front` chooses.

use crate::answer::Neutral;
use encoding_codecs::{
    Big5Decoder, Big5Encoder, EucJpDecoder, EucJpEncoder, EucKrDecoder, EucKrEncoder,
    Gb18030Decoder, Gb18030Encoder, Iso2022JpDecoder, Iso2022JpEncoder, ShiftJisDecoder,
    ShiftJisEncoder,
};
use encoding_front::{Encoding, VariantDecoder, VariantEncoder};
use encoding_mem::{RawEncoder, Utf8Decoder, Utf8Encoder};
use encoding_tables::{
    IndexKind, ReplacementDecoder, SingleByteDecoder, SingleByteEncoder, Tables,
    UserDefinedDecoder, UserDefinedEncoder, Utf16Decoder,
};

/// Which of the two decoders or encoders of an encoding is called.
#[derive(Clone, Copy, PartialEq, Eq, Debug)]
pub enum Through {
    Codec,
    Variant,
}

impl Through {
    /// Returns both. If an index that the encoding needs is not there, returns the codec alone.
    pub fn of(is_ready: bool) -> &'static [Through] {
        if is_ready {
            &[Through::Codec, Through::Variant]
        } else {
            &[Through::Codec]
        }
    }
}

/// What is done with a new decoder of any encoding.
pub trait DecoderTask {
    fn run<D: Neutral + Drop>(&mut self, decoder: D) -> anyhow::Result<()>;
}

/// What is done with a new encoder of any encoding.
pub trait EncoderTask {
    fn run<E: RawEncoder + Drop>(&mut self, encoder: E) -> anyhow::Result<()>;
}

/// Runs a task with a new decoder. Returns whether the indexes that the decoder needs are there.
pub fn with_decoder<T: DecoderTask>(
    tables: &Tables,
    encoding: Encoding,
    through: Through,
    task: &mut T,
) -> anyhow::Result<bool> {
    match through {
        Through::Codec => with_codec_decoder(tables, encoding, task),
        Through::Variant => {
            if !encoding.is_ready(tables) {
                return Ok(false);
            }
            task.run(VariantDecoder::new(encoding, Some(tables)))?;
            Ok(true)
        }
    }
}

fn with_codec_decoder<T: DecoderTask>(
    tables: &Tables,
    encoding: Encoding,
    task: &mut T,
) -> anyhow::Result<bool> {
    match encoding {
        Encoding::Utf8 => task.run(Utf8Decoder::new())?,
        Encoding::Utf16Be => task.run(Utf16Decoder::new(true))?,
        Encoding::Utf16Le => task.run(Utf16Decoder::new(false))?,
        Encoding::Replacement => task.run(ReplacementDecoder::new())?,
        Encoding::XUserDefined => task.run(UserDefinedDecoder::new())?,
        Encoding::Big5 if tables.has(IndexKind::Big5) => task.run(Big5Decoder::new(tables))?,
        Encoding::EucKr if tables.has(IndexKind::EucKr) => task.run(EucKrDecoder::new(tables))?,
        Encoding::ShiftJis if tables.has(IndexKind::Jis0208) => {
            task.run(ShiftJisDecoder::new(tables))?
        }
        Encoding::Iso2022Jp if tables.has(IndexKind::Jis0208) => {
            task.run(Iso2022JpDecoder::new(tables))?
        }
        Encoding::EucJp if tables.has(IndexKind::Jis0208) && tables.has(IndexKind::Jis0212) => {
            task.run(EucJpDecoder::new(tables))?
        }
        Encoding::Gb18030 | Encoding::Gbk
            if tables.has(IndexKind::Gb18030) && tables.has(IndexKind::Gb18030Ranges) => {
            task.run(Gb18030Decoder::new(tables))?
        }
        _ => match encoding.needs() {
            [kind] if kind.is_single_byte() && tables.has(*kind) => {
                task.run(SingleByteDecoder::new(tables, *kind))?
            }
            _ => return Ok(false),
        },
    }
    Ok(true)
}

/// Runs a task with a new encoder. Returns whether the indexes that the encoder needs are there.
pub fn with_encoder<T: EncoderTask>(
    tables: &Tables,
    encoding: Encoding,
    through: Through,
    task: &mut T,
) -> anyhow::Result<bool> {
    match through {
        Through::Codec => with_codec_encoder(tables, encoding, task),
        Through::Variant => {
            if !encoding.output_encoding().is_ready(tables) {
                return Ok(false);
            }
            task.run(VariantEncoder::new(encoding, Some(tables)))?;
            Ok(true)
        }
    }
}

fn with_codec_encoder<T: EncoderTask>(
    tables: &Tables,
    encoding: Encoding,
    task: &mut T,
) -> anyhow::Result<bool> {
    match encoding {
        Encoding::Utf8 | Encoding::Utf16Be | Encoding::Utf16Le | Encoding::Replacement => {
            task.run(Utf8Encoder::new())?
        }
        Encoding::XUserDefined => task.run(UserDefinedEncoder::new())?,
        Encoding::Big5 if tables.has(IndexKind::Big5) => task.run(Big5Encoder::new(tables))?,
        Encoding::EucKr if tables.has(IndexKind::EucKr) => task.run(EucKrEncoder::new(tables))?,
        Encoding::ShiftJis if tables.has(IndexKind::Jis0208) => {
            task.run(ShiftJisEncoder::new(tables))?
        }
        Encoding::EucJp if tables.has(IndexKind::Jis0208) => task.run(EucJpEncoder::new(tables))?,
        Encoding::Iso2022Jp
            if tables.has(IndexKind::Jis0208) && tables.has(IndexKind::Iso2022JpKatakana) => {
            task.run(Iso2022JpEncoder::new(tables))?
        }
        Encoding::Gb18030 | Encoding::Gbk
            if tables.has(IndexKind::Gb18030) && tables.has(IndexKind::Gb18030Ranges) => {
            let is_extended = encoding == Encoding::Gb18030;
            task.run(Gb18030Encoder::new(tables, is_extended))?
        }
        _ => match encoding.needs() {
            [kind] if kind.is_single_byte() && tables.has(*kind) => {
                task.run(SingleByteEncoder::new(tables, *kind))?
            }
            _ => return Ok(false),
        },
    }
    Ok(true)
}
