//! Every sequence of two bytes, read by the decoder of an encoding and written again by its
//! encoder, with the indexes of the files.

ghost use Rattle.std.specs.Prelude.{◌≡◌, true};
ghost use Rattle.encoding_tables.specs.IndexLists.{has};

use crate::digest::{Digest, END};
use encoding_codecs::{
    Big5Decoder, Big5Encoder, EucJpDecoder, EucJpEncoder, EucKrDecoder, EucKrEncoder,
    Gb18030Decoder, Gb18030Encoder, Iso2022JpDecoder, Iso2022JpEncoder, ShiftJisDecoder,
    ShiftJisEncoder,
};
use encoding_mem::{DecoderResult, EncoderResult, RawDecoder, RawEncoder};
use encoding_tables::{IndexKind, Tables};

#[derive(Clone, Copy)]
enum Codec {
    Big5,
    EucKr,
    ShiftJis,
    EucJp,
    Gb18030,
    Gbk,
    Iso2022Jp,
}

// The encodings, each with the bytes that stand before the two. A longer form is reached by these
// bytes.
const SEQUENCES: [(&str, Codec, &[u8]); 11] = [
    ("big5", Codec::Big5, &[]),
    ("euc-kr", Codec::EucKr, &[]),
    ("shift_jis", Codec::ShiftJis, &[]),
    ("euc-jp", Codec::EucJp, &[]),
    ("euc-jp 8F", Codec::EucJp, &[0x8F]),
    ("gb18030", Codec::Gb18030, &[]),
    ("gb18030 81 35", Codec::Gb18030, &[0x81, 0x35]),
    ("gb18030 90 30", Codec::Gb18030, &[0x90, 0x30]),
    ("gbk", Codec::Gbk, &[]),
    (
        "iso-2022-jp 1B 24 42",
        Codec::Iso2022Jp,
        &[0x1B, 0x24, 0x42],
    ),
    (
        "iso-2022-jp 1B 28 4A",
        Codec::Iso2022Jp,
        &[0x1B, 0x28, 0x4A],
    ),
];

// Added to a digest, together with its length, for each malformed sequence.
const BAD: u32 = 0x0011_0000;

// Added to a digest, together with its number, for each character without bytes.
const UNMAPPABLE: u32 = 0x0100_0000;

// Digests of the sequences with one lead byte, and counts of all sequences.
#[derive(Drop)]
struct Seen {
    read: Digest,
    written: Digest,
    whole: u32,
    kept: u32,
    bad: u32,
    unmappable: u32,
}

impl Seen {
    fn new() -> Self {
        Seen {
            read: Digest::new(),
            written: Digest::new(),
            whole: 0,
            kept: 0,
            bad: 0,
            unmappable: 0,
        }
    }

    // Encodes a text to its end. Returns whether one call wrote all of it, and what it wrote begins
    // with `bytes`.
    fn write<E: RawEncoder>(&mut self, encoder: &mut E, text: &[u16], bytes: &[u8]) -> bool {
        let mut rest = text;
        for calls in 0..16 {
            let mut room = [0; 32];
            let (outcome, read, written) = encoder.encode_from_utf16_raw(rest, &mut room, true);
            rest = rest.get(read..).unwrap_or(&[]);
            for byte in &room[..written] {
                self.written.add(u32::from(*byte));
            }
            match outcome {
                EncoderResult::InputEmpty => {
                    return calls == 0 && room[..written].starts_with(bytes);
                }
                EncoderResult::OutputFull => {}
                EncoderResult::Unmappable(c) => {
                    self.written.add(UNMAPPABLE + u32::from(c));
                    self.unmappable = self.unmappable.wrapping_add(1);
                }
            }
        }
        false
    }

    // Decodes a sequence to its end. Encodes the text before each malformed sequence, and the text
    // after the last one.
    fn read<D: RawDecoder, E: RawEncoder>(
        &mut self,
        decoder: &mut D,
        encoder: &mut E,
        bytes: &[u8],
    ) {
        let mut rest = bytes;
        for calls in 0..16 {
            let mut room = [0; 16];
            let (outcome, read, written) = decoder.decode_to_utf16_raw(rest, &mut room, true);
            for unit in &room[..written] {
                self.read.add(u32::from(*unit));
            }
            let same = self.write(encoder, &room[..written], bytes);
            rest = &rest[read..];
            match outcome {
                DecoderResult::InputEmpty => {
                    if calls == 0 {
                        self.whole = self.whole.wrapping_add(1);
                        self.kept = self.kept.wrapping_add(u32::from(same));
                    }
                    break;
                }
                DecoderResult::OutputFull => {}
                DecoderResult::Malformed(size, _) => {
                    self.read.add(BAD + u32::from(size));
                    self.bad = self.bad.wrapping_add(1);
                }
            }
        }
        self.read.add(END);
        self.written.add(END);
    }

    // Decodes a sequence with a new decoder, and encodes its text with a new encoder.
    fn sequence(&mut self, tables: &Tables, codec: Codec, bytes: &[u8])
        requires big5 { has tables.now IndexKind.Big5 ≡ true }
        requires euc_kr { has tables.now IndexKind.EucKr ≡ true }
        requires jis0208 { has tables.now IndexKind.Jis0208 ≡ true }
        requires jis0212 { has tables.now IndexKind.Jis0212 ≡ true }
        requires gb18030 { has tables.now IndexKind.Gb18030 ≡ true }
        requires ranges { has tables.now IndexKind.Gb18030Ranges ≡ true }
        requires katakana { has tables.now IndexKind.Iso2022JpKatakana ≡ true }
    {
        match codec {
            Codec::Big5 => self.read(
                &mut Big5Decoder::new(tables),
                &mut Big5Encoder::new(tables),
                bytes,
            ),
            Codec::EucKr => self.read(
                &mut EucKrDecoder::new(tables),
                &mut EucKrEncoder::new(tables),
                bytes,
            ),
            Codec::ShiftJis => self.read(
                &mut ShiftJisDecoder::new(tables),
                &mut ShiftJisEncoder::new(tables),
                bytes,
            ),
            Codec::EucJp => self.read(
                &mut EucJpDecoder::new(tables),
                &mut EucJpEncoder::new(tables),
                bytes,
            ),
            Codec::Gb18030 => self.read(
                &mut Gb18030Decoder::new(tables),
                &mut Gb18030Encoder::new(tables, true),
                bytes,
            ),
            Codec::Gbk => self.read(
                &mut Gb18030Decoder::new(tables),
                &mut Gb18030Encoder::new(tables, false),
                bytes,
            ),
            Codec::Iso2022Jp => self.read(
                &mut Iso2022JpDecoder::new(tables),
                &mut Iso2022JpEncoder::new(tables),
                bytes,
            ),
        }
    }
}

// Prints four counts for each encoding and each prefix: how many sequences have no malformed part,
// how many of these are written as they were read, how many malformed sequences there are, and how
// many characters without bytes. Then prints two digests for each lead byte: of all that is read
// with it, and of all that is written.
pub(crate) fn print_sequences(rt: &(impl Print + Alloc), tables: &Tables) -> anyhow::Result<()>
    requires big5 { has tables.now IndexKind.Big5 ≡ true }
    requires euc_kr { has tables.now IndexKind.EucKr ≡ true }
    requires jis0208 { has tables.now IndexKind.Jis0208 ≡ true }
    requires jis0212 { has tables.now IndexKind.Jis0212 ≡ true }
    requires gb18030 { has tables.now IndexKind.Gb18030 ≡ true }
    requires ranges { has tables.now IndexKind.Gb18030Ranges ≡ true }
    requires katakana { has tables.now IndexKind.Iso2022JpKatakana ≡ true }
{
    for (name, codec, prefix) in SEQUENCES {
        let mut seen = Seen::new();
        let mut read = Vec::new(rt.alloc());
        let mut written = Vec::new(rt.alloc());
        for lead in 0..=255 {
            let mut bytes = Vec::from_slice(rt.alloc(), prefix)?;
            bytes.extend_from_slice(&[lead, 0])?;
            for second in 0..=255 {
                if let Some(last) = bytes.last_mut() {
                    *last = second;
                }
                seen.sequence(tables, codec, &bytes);
            }
            read.push(seen.read.take())?;
            written.push(seen.written.take())?;
        }
        println!(rt;
            "{name}: {} whole, {} kept, {} bad, {} unmappable",
            seen.whole, seen.kept, seen.bad, seen.unmappable
        )?;
        print_digests(rt, "read", &read)?;
        print_digests(rt, "written", &written)?;
    }
    Ok(())
}

// Prints the digests of all lead bytes, 16 to a line.
fn print_digests(rt: &impl Print, what: &str, digests: &[u32]) -> anyhow::Result<()> {
    for (lead, digest) in digests.iter().enumerate() {
        if lead % 16 == 0 {
            print!(rt; "{what} {lead:02X}")?;
        }
        print!(rt; " {digest:08x}")?;
        if lead % 16 == 15 {
            println!(rt; "")?;
        }
    }
    Ok(())
}
