//! Writes each character with the encoder of an encoding, as a text of its own, and reads it again.

ghost use Rattle.encoding_front.specs.Encodings.{IsReady, output_encoding_of};

use crate::digest::{Digest, END};
use encoding_front::{Decoder, Encoder, Encoding, Mark};
use encoding_tables::Tables;

// Counts and digests of what was written and read again.
#[derive(Drop)]
struct Told {
    // How many characters have no bytes, so that a reference is written.
    lost: u32,
    // How many characters are read again as others.
    folded: u32,
    // The digest of all that is written.
    bytes: Digest,
    // The digest of what is read again of the characters with bytes.
    text: Digest,
}

impl Told {
    // Reads again what was written for a character.
    fn read_again(&mut self, tables: &Tables, output: Encoding, bytes: &[u8], character: &str)
        requires { IsReady tables.now output }
    {
        let mut room = [0; 64];
        let mut decoder = Decoder::new(output, Mark::Keep, Some(tables));
        let (_, _, written, _) = decoder.decode_to_utf8(bytes, &mut room, true);
        let text = room.get(..written).unwrap_or(&[]);
        self.text.add_bytes(text);
        self.text.add(END);
        if text != character.as_bytes() {
            self.folded = self.folded.wrapping_add(1);
        }
    }

    // Writes a character as a whole text.
    fn character(&mut self, tables: &Tables, output: Encoding, encoder: &mut Encoder<'_>, c: char)
        requires { IsReady tables.now output }
    {
        let mut units = [0; 4];
        let character = c.encode_utf8(&mut units);
        let mut room = [0; 64];
        let (_, _, written, is_lost) = encoder.encode_from_utf8(character, &mut room, true);
        let bytes = room.get(..written).unwrap_or(&[]);
        self.bytes.add_bytes(bytes);
        self.bytes.add(END);
        if is_lost {
            self.lost = self.lost.wrapping_add(1);
        } else {
            self.read_again(tables, output, bytes, character);
        }
    }
}

// Which characters are written.
#[derive(Clone, Copy, PartialEq, Eq)]
pub(crate) enum Extent {
    // All characters of the basic plane, and every 64th of the other planes. The index of Big5 is
    // the only one with characters of another plane. So all of plane 2 is written in Big5.
    Sample,
    // Every character.
    All,
}

// Returns whether a character belongs to the sample for this encoding.
fn is_sample(encoding: Encoding, number: u32) -> bool {
    let is_whole = match number / 0x10000 {
        0 => true,
        2 => encoding == Encoding::Big5,
        _ => false,
    };
    is_whole || number % 64 == 0
}

// Prints how many characters an encoding has no bytes for, how many it writes as others, and the
// digests of what is written and of what is read again.
pub(crate) fn print_characters(
    rt: &impl Print,
    tables: &Tables,
    extent: Extent,
    encoding: Encoding,
) -> anyhow::Result<()>
    requires { IsReady tables.now (output_encoding_of encoding) }
{
    let mut told = Told {
        lost: 0,
        folded: 0,
        bytes: Digest::new(),
        text: Digest::new(),
    };
    let mut encoder = encoding.new_encoder(tables);
    for number in 0..0x110000 {
        if (extent == Extent::All || is_sample(encoding, number))
            && let Some(c) = char::from_u32(number)
        {
            told.character(tables, encoding.output_encoding(), &mut encoder, c);
        }
    }
    let written = told.bytes.take();
    let text = told.text.take();
    println!(rt;
        "{} writes: {} lost, {} folded, {written:08x}, read again {text:08x}",
        encoding.name(),
        told.lost,
        told.folded
    )?;
    Ok(())
}
