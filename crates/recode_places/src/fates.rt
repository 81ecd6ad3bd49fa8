//! What becomes of a character in a target encoding.

ghost use Rattle.std.specs.Prelude.{◌≡◌, ◌≤◌, length};
ghost use Rattle.std.specs.Prelude.{IfSome, IsTrue, Option};
ghost use Rattle.std.specs.Str.{chars};
ghost use Rattle.encoding_front.specs.Encodings.{IsReady, output_encoding_of};
ghost use Rattle.recode_places.specs.Fates.{fate_of, only_one};
ghost use Rattle.encoding_front.specs.laws.Ready.{AreThere-prop};

use encoding_front::{DecoderResult, EncoderResult, Encoding};
use encoding_tables::Tables;
use std::str;

/// What becomes of a character that is written in an encoding, as a text of its own.
#[derive(Clone, Copy, PartialEq, Eq, Debug)]
pub enum Fate {
    /// Its bytes read back as the character.
    Kept,
    /// It has no bytes.
    Lost,
    /// Its bytes read back as this character, or as no single one.
    Folded(Option<char>),
}

/// What becomes of characters in a target encoding: each is encoded, and its bytes are decoded.
#[derive(Drop)]
pub struct Fates<'t> {
    to: Encoding,
    tables: &'t Tables,
    // The character that was asked last, and what becomes of it.
    last: char,
    fate: Fate,
    ghost ready: { IsReady tables.now (output_encoding_of to) } by { AreThere-prop _ _ },
    ghost known: { fate ≡ fate_of (record {
      tables = tables.now;
      encoding = to;
    }) last },
}

impl<'t> Fates<'t> {
    ghost use Rattle.recode_places.specs.Fates.{AreAllKept, read_alone, target_pieces};
    ghost use Rattle.recode_places.specs.calls.FatesViews.{IsWrittenAs, fates_target};

    /// Of characters that are written in the output encoding of `to`. The condition, that the
    /// indexes of that encoding are there, is tested by `Encoding::is_ready`.
    pub fn new(to: Encoding, tables: &'t Tables) -> Fates<'t>
        requires { IsReady tables.now (output_encoding_of to) }
        ensures tables { (fates_target result).tables ≡ tables.now }
        ensures encoding { (fates_target result).encoding ≡ to }
    {
        Fates {
            to,
            tables,
            last: 'a',
            fate: Fate::Kept,
        }
    }

    /// Whether each character of a text is kept for sure, without a look at it: those of ASCII are
    /// but for three in ISO-2022-JP, and in UTF-8 all are.
    pub fn keeps(&self, text: &str) -> bool
        ensures kept { IsTrue result → AreAllKept (fates_target self.now) (chars text.now) }
    {
        self.to.output_encoding() == Encoding::Utf8
            || (self.to.is_ascii_compatible() && text.is_ascii())
    }

    /// What becomes of a character.
    pub fn of(&mut self, c: char) -> Fate
        ensures fate { result ≡ fate_of (fates_target self.old) c }
        ensures target { fates_target self.new ≡ fates_target self.old }
    {
        if c != self.last {
            self.fate = self.find(c);
            self.last = c;
        }
        self.fate
    }

    fn find(&self, c: char) -> Fate
        ensures { result ≡ fate_of (fates_target self.now) c }
    {
        let mut bytes = [0; 32];
        let Some(written) = self.write(c, &mut bytes) else {
            return Fate::Lost;
        };
        match self.read(&bytes[..written]) {
            Some(d) if d == c => Fate::Kept,
            Some(d) => Fate::Folded(Some(d)),
            None => Fate::Folded(None),
        }
    }

    // Writes a character as a text of its own. Returns how many bytes it has, or `None` if it has
    // none.
    fn write(&self, c: char, bytes: &mut [u8; 32]) -> Option<usize>
        ensures written { IsWrittenAs (fates_target self.now) c bytes.new result }
        ensures within { IfSome result (λ n. n ≤ length bytes.new) }
    {
        let mut text = [0; 4];
        let mut encoder = self.to.new_encoder(self.tables);
        let (result, _, written) = encoder.encode_from_utf8_without_replacement(
            c.encode_utf8(&mut text),
            bytes,
            true,
        );
        match result {
            EncoderResult::Unmappable(_) => None,
            _ => Some(written),
        }
    }

    // The character that these bytes stand for in the output encoding, if it is one alone.
    fn read(&self, bytes: &[u8]) -> Option<char>
        ensures { result ≡ read_alone (target_pieces (fates_target self.now) bytes.now) }
    {
        let mut decoder = self
            .to
            .output_encoding()
            .new_decoder_without_bom_handling(self.tables);
        let mut text = [0; 16];
        let (result, _, len) = decoder.decode_to_utf8_without_replacement(bytes, &mut text, true);
        let DecoderResult::InputEmpty = result else {
            return None;
        };
        // The decoder wrote text: no second check.
        only_char(unsafe { str::from_utf8_unchecked(&text[..len]) })
    }
}

// The character of a text that has one alone.
fn only_char(text: &str) -> Option<char>
    ensures { result ≡ only_one (chars text.now) }
{
    let mut rest = text.chars();
    let first = rest.next()?;
    if rest.as_str().is_empty() {
        Some(first)
    } else {
        None
    }
}
