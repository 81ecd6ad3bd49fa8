//! Short streams of bytes, read by the decoder of each encoding. Among them are the bytes of every
//! character of its indexes.

ghost use Rattle.encoding_front.specs.Encodings.{IsReady};

use crate::digest::{Digest, END};
use encoding_front::{Decoder, Encoding, Mark};
use encoding_tables::Tables;
use std::alloc::{AllocError, Global};

// All streams of one form.
#[derive(Clone, Copy)]
enum Streams {
    // These bytes, and then one byte of any value.
    One(&'static [u8]),
    // These bytes, and then two bytes of any values.
    Two(&'static [u8]),
    // Four bytes: 81 to FE, 30 to 39, 81 to FE, and 30 to 39.
    Four,
}

// Returns the streams that an encoding reads.
fn streams_of(encoding: Encoding) -> &'static [Streams] {
    match encoding {
        Encoding::Big5 | Encoding::EucKr | Encoding::ShiftJis => {
            &[Streams::One(&[]), Streams::Two(&[])]
        }
        Encoding::EucJp => &[Streams::One(&[]), Streams::Two(&[]), Streams::Two(&[0x8F])],
        Encoding::Gb18030 | Encoding::Gbk => {
            &[Streams::One(&[]), Streams::Two(&[]), Streams::Four]
        }
        Encoding::Iso2022Jp => &[
            Streams::One(&[]),
            Streams::One(&[0x1B, 0x28, 0x49]),
            Streams::One(&[0x1B, 0x28, 0x4A]),
            Streams::Two(&[0x1B, 0x24, 0x42]),
        ],
        Encoding::Utf16Be | Encoding::Utf16Le => &[Streams::Two(&[])],
        _ => &[Streams::One(&[])],
    }
}

// How many streams have no malformed sequence, how many have one, and the digest of all texts.
#[derive(Drop)]
struct Told {
    whole: u32,
    bad: u32,
    text: Digest,
}

impl Told {
    // Reads a stream with a decoder of its own.
    fn stream(&mut self, tables: &Tables, encoding: Encoding, bytes: &[u8])
        requires { IsReady tables.now encoding }
    {
        let mut room = [0; 64];
        let mut decoder = Decoder::new(encoding, Mark::Keep, Some(tables));
        let (_, _, written, had_errors) = decoder.decode_to_utf8(bytes, &mut room, true);
        self.text.add_bytes(room.get(..written).unwrap_or(&[]));
        self.text.add(END);
        if had_errors {
            self.bad = self.bad.wrapping_add(1);
        } else {
            self.whole = self.whole.wrapping_add(1);
        }
    }

    fn one(
        &mut self,
        alloc: Global,
        tables: &Tables,
        encoding: Encoding,
        prefix: &[u8],
    ) -> Result<(), AllocError>
        requires { IsReady tables.now encoding }
    {
        let mut bytes = Vec::from_slice(alloc, prefix)?;
        bytes.push(0)?;
        for value in 0..=255 {
            if let Some(last) = bytes.last_mut() {
                *last = value;
            }
            self.stream(tables, encoding, &bytes);
        }
        Ok(())
    }

    fn two(
        &mut self,
        alloc: Global,
        tables: &Tables,
        encoding: Encoding,
        prefix: &[u8],
    ) -> Result<(), AllocError>
        requires { IsReady tables.now encoding }
    {
        let mut bytes = Vec::from_slice(alloc, prefix)?;
        bytes.push(0)?;
        for value in 0..=255 {
            if let Some(last) = bytes.last_mut() {
                *last = value;
            }
            self.one(alloc, tables, encoding, &bytes)?;
        }
        Ok(())
    }

    fn four(&mut self, tables: &Tables, encoding: Encoding)
        requires { IsReady tables.now encoding }
    {
        for first in 0x81..=0xFE {
            for second in 0x30..=0x39 {
                for third in 0x81..=0xFE {
                    for fourth in 0x30..=0x39 {
                        self.stream(tables, encoding, &[first, second, third, fourth]);
                    }
                }
            }
        }
    }
}

// Prints how many streams an encoding reads without a malformed sequence, how many with one, and
// the digest of the texts.
pub(crate) fn print_streams(
    rt: &(impl Print + AllocGlobal),
    tables: &Tables,
    encoding: Encoding,
) -> anyhow::Result<()>
    requires { IsReady tables.now encoding }
{
    let mut told = Told {
        whole: 0,
        bad: 0,
        text: Digest::new(),
    };
    for streams in streams_of(encoding) {
        match streams {
            Streams::One(prefix) => told.one(rt.alloc(), tables, encoding, prefix)?,
            Streams::Two(prefix) => told.two(rt.alloc(), tables, encoding, prefix)?,
            Streams::Four => told.four(tables, encoding),
        }
    }
    let text = told.text.take();
    println!(rt;
        "{} reads: {} whole, {} with a bad piece, {text:08x}",
        encoding.name(),
        told.whole,
        told.bad
    )?;
    Ok(())
}
