//! A whole input, decoded part by part: straight into the room of the caller, and what does not fit
//! there into room of ours, so that its length is known.

ghost use Rattle.std.specs.Prelude.{◌≡◌, ◌↔◌, ◌≢◌, ◌<◌, ◌++◌, List, ℕ, IsTrue, IsSome, IfSome};
ghost use Rattle.std.specs.Prelude.{MatchOption, false, true};
ghost use Rattle.encoding_mem.specs.Piece.{malformed_count};
ghost use Rattle.encoding_front.specs.calls.DecoderViews.{decoder_view};
ghost use Rattle.jillapun_c.specs.Whole.{DecodesPart, HasLeft, TextIsMade};
ghost use Rattle.jillapun_c.specs.declared.whole.decoding.End.TheVariants as end_;

use crate::filled::{Filled, PART};
use encoding_front::{CoderResult, Decoder, DecoderResult};

/// How a call of a decoder ended.
#[derive(Clone, Copy)]
pub enum End {
    /// All is decoded.
    Ended,
    /// There is more to decode.
    More,
    /// At a malformed sequence.
    Malformed,
}

impl End {
    ghost use Rattle.encoding_front.specs.calls.DecodedText.{raw_result};
    ghost use Rattle.jillapun_c.specs.Whole.{end_of, is_malformed};

    // How a call ended.
    fn of(outcome: DecoderResult) -> End
        ensures { result ≡ end_of outcome }
    {
        match outcome {
            DecoderResult::InputEmpty => End::Ended,
            DecoderResult::OutputFull => End::More,
            DecoderResult::Malformed(..) => End::Malformed,
        }
    }

    // How a call ended that replaces malformed sequences.
    fn of_text(outcome: CoderResult) -> End
        ensures { result ≡ end_of (raw_result outcome) }
    {
        match outcome {
            CoderResult::InputEmpty => End::Ended,
            CoderResult::OutputFull => End::More,
        }
    }

    // Whether it is at a malformed sequence.
    fn is_malformed(self) -> bool
        ensures { result ≡ is_malformed self }
    {
        matches!(self, End::Malformed)
    }
}

/// What one call of a decoder did.
#[derive(Clone, Copy)]
pub struct Part {
    /// How it ended.
    pub end: End,
    /// How many bytes it read.
    pub read: usize,
    /// How many bytes of text it wrote.
    pub written: usize,
    /// Whether a sequence was malformed.
    pub had_errors: bool,
}

/// What was made of a whole input.
#[derive(Clone, Copy)]
pub struct Whole {
    /// How far the text was put into the room.
    pub filled: Filled,
    /// Whether a malformed sequence was replaced.
    pub had_errors: bool,
    /// Whether the text is the bytes that it was compared with.
    pub is_own: bool,
}

// One call of a decoder whose input ends with `src`. If nothing is to be replaced, it stops at a
// malformed sequence.
fn decode_part(decoder: &mut Decoder<'_>, replaces: bool, src: &[u8], room: &mut [u8]) -> Part
    requires { (decoder_view decoder.old).finished ≡ false }
    ensures call { DecodesPart (decoder_view decoder.old) (decoder_view decoder.new) src.now
        room.old room.new result }
    ensures replaced { replaces ≡ true → result.end ≢ end_.Malformed }
    ensures stopped { replaces ≡ false → result.end ≢ end_.Malformed → result.had_errors ≡ false }
{
    if replaces {
        let (outcome, read, written, had_errors) = decoder.decode_to_utf8(src, room, true);
        let end = End::of_text(outcome);
        return Part {
            end,
            read,
            written,
            had_errors,
        };
    }
    let (outcome, read, written) = decoder.decode_to_utf8_without_replacement(src, room, true);
    let end = End::of(outcome);
    let had_errors = end.is_malformed();
    Part {
        end,
        read,
        written,
        had_errors,
    }
}

// What is left of some bytes, if they go on with these.
fn left_behind<'b>(bytes: Option<&'b [u8]>, made: &[u8]) -> Option<&'b [u8]>
    ensures { (all before : List ℕ) → HasLeft all before bytes.entry
        → HasLeft all (before ++ made.now) result }
{
    bytes?.strip_prefix(made)
}

// Whether nothing is left.
fn is_all(left: Option<&[u8]>) -> bool
    ensures { (all made : List ℕ) → HasLeft all made left.entry → (IsTrue result ↔ (made ≡ all)) }
{
    match left {
        Some(bytes) => bytes.is_empty(),
        None => false,
    }
}

/// Decodes all that comes, of an input that ends with `src`, at the start of `dst` as far as it
/// fits. `None` if nothing is to be replaced and a sequence is malformed. `expected` is what the
/// text is compared with.
pub(crate) fn decode_whole(
    decoder: &mut Decoder<'_>,
    replaces: bool,
    src: &[u8],
    expected: &[u8],
    dst: &mut [u8],
) -> Option<Whole>
    requires { (decoder_view decoder.old).finished ≡ false }
    ensures made { MatchOption result
        (0 < malformed_count ((decoder_view decoder.old).state.pieces src.now))
        (TextIsMade ((decoder_view decoder.old).state.pieces src.now) expected.now dst.old
        dst.new) }
    ensures replaced { replaces ≡ true → IsSome result }
    ensures stopped { replaces ≡ false → IfSome result (λ whole. whole.had_errors ≡ false) }
{
    let mut part = decode_part(decoder, replaces, src, dst);
    let mut read = part.read;
    let mut had_errors = part.had_errors;
    let mut filled = Filled::first(part.written);
    let mut left = left_behind(Some(expected), &dst[..part.written]);
    let mut room = [0; PART];
    'parts: while let End::More = part.end {
        part = decode_part(decoder, replaces, &src[read..], &mut room);
        let made = &room[..part.written];
        read += part.read;
        had_errors |= part.had_errors;
        filled.add(made, dst);
        left = left_behind(left, made);
    }
    if let End::Malformed = part.end {
        return None;
    }
    let is_own = is_all(left);
    Some(Whole {
        filled,
        had_errors,
        is_own,
    })
}
