//! A destination and a source of a user's own. The traits ask for four methods of a `Sink` and for
//! three of a `Source`. All decoders write into the first, and all encoders read the second.

ghost use Rattle.std.specs.Prelude.{true, false, ◌≡◌, ◌≤◌, ◌+◌, ◌-◌, length, map, take, refl};
ghost use Rattle.std.specs.Prelude.{MatchOption};
ghost use Rattle.std.specs.Char.{to_ascii_uppercase};
ghost use Rattle.std.specs.Str.{IsAscii};
ghost use Rattle.encoding_mem.specs.Piece.{AreWellFormed, text};
ghost use Rattle.encoding_mem.specs.Utf8.{pieces_utf8};
ghost use Rattle.encoding_mem.specs.calls.Writing.{len_utf16};
ghost use Rattle.std.proofs.Common.{◌∙◌, ap, sym, length-append};
ghost use Rattle.std.proofs.Math.Nat.{add_assoc, add-zero};

use encoding_mem::sink_decoder::SinkDecoder;
use encoding_mem::source_encoder::SourceEncoder;
use encoding_mem::{DecoderResult, Sink, Source, Utf8Decoder, Utf8Encoder};

// A destination that keeps no text, and counts its characters. Its room is of so many units of
// UTF-16.
#[derive(Drop)]
struct CharacterCount {
    room: usize,
    left: usize,
    characters: usize,
    ghost within: { characters + left ≤ room },
}

impl Sink for CharacterCount {
    ghost free = { λ s. s.left };

    ghost count = { λ s. s.room - s.left };

    ghost cost = { len_utf16 };

    ghost room = { 2 };

    ghost is_units = { true };

    ghost writes = { λ s text t. t.characters ≡ s.characters + length text };

    fn has_room(&self) -> bool {
        self.left >= 2
    }

    fn fits(&self, c: char) -> bool {
        self.left >= c.len_utf16()
    }

    fn put(&mut self, c: char) {
        self.left -= c.len_utf16();
        self.characters += 1;
    }

    fn written(&self) -> usize {
        self.room - self.left
    }

    ghost cost_is = { λ _. refl };

    ghost room_is = { refl };

    ghost writes_none = { λ s. sym (add-zero s.characters) };

    ghost writes_more = { λ s t u a b first second. second ∙ ap (λ n. n + length b) first
        ∙ add_assoc s.characters (length a) (length b)
        ∙ ap (λ n. s.characters + n) (sym (length-append a b)) };
}

// How many characters bytes of UTF-8 have, or `None` if they are malformed.
pub(crate) fn count_characters(bytes: &[u8]) -> Option<usize>
    ensures { let pieces = pieces_utf8 bytes.now in
        MatchOption result (¬ (AreWellFormed pieces))
        (λ n. AreWellFormed pieces × (n ≡ length (text pieces))) }
{
    // As `max_utf16_buffer_length` has it: a unit for each byte, and one more.
    let room = bytes.len() + 1;
    let mut count = CharacterCount {
        room,
        left: room,
        characters: 0,
    };
    let (result, _) = Utf8Decoder::new().decode_into(bytes, &mut count, true);
    match result {
        DecoderResult::InputEmpty => Some(count.characters),
        DecoderResult::Malformed(_, _) => None,
        DecoderResult::OutputFull => unreachable!(),
    }
}

// A text of ASCII that is read in capitals.
#[derive(Drop)]
struct Capitals<'a> {
    ascii: &'a [u8],
    offset: usize,
    ghost is_ascii: { IsAscii ascii.now },
    ghost within: { offset ≤ length ascii.now },
}

impl<'a> Source for Capitals<'a> {
    ghost text = { map to_ascii_uppercase };

    ghost IsBoundary = { λ all offset. offset ≤ length all };

    ghost is_units = { false };

    ghost all = { λ s. s.ascii.now };

    ghost offset = { λ s. s.offset };

    fn peek(&self) -> Option<(char, usize)> {
        if self.offset == self.ascii.len() {
            return None;
        }
        Some((self.ascii[self.offset].to_ascii_uppercase() as char, 1))
    }

    fn advance(&mut self) {
        self.offset += 1;
    }

    fn read(&self) -> usize {
        self.offset
    }

    ghost within = { λ s. s.within };
}

// Writes a text of ASCII in capitals to the start of `dst`, and returns how many bytes they are.
// The conditions are tested by `is_ascii` and by comparing lengths.
pub(crate) fn put_capitals(ascii: &[u8], dst: &mut [u8]) -> usize
    requires ascii { IsAscii ascii.now }
    requires room { length ascii.now ≤ length dst.old }
    ensures { take result dst.new ≡ map to_ascii_uppercase ascii.now }
{
    let mut source = Capitals { ascii, offset: 0 };
    let (_, written) = Utf8Encoder::new().encode_from(&mut source, dst, true);
    written
}
