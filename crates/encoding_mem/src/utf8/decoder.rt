//! The decoder of UTF-8 (RFC 3629, section 4).

ghost use Rattle.std.proofs.Common.{refl, arith};
ghost use Rattle.std.specs.Prelude.{◌+◌, ◌*◌, ◌≡◌, ◌<◌, ◌≤◌, ◌==◌, ◌↔◌, IsTrue, [], length, take};
ghost use Rattle.std.specs.Prelude.{min};
ghost use Rattle.std.specs.Int.{IsInRange, is_in_range};
ghost use Rattle.std.specs.Str.Lossy.{utf8_valid_len};
ghost use Rattle.encoding_mem.specs.calls.DecoderRule.{IsNotLonger};
ghost use Rattle.encoding_mem.specs.calls.Decoding.{IsFreshDecoder};
ghost use Rattle.encoding_mem.specs.calls.DecodedLength.{decoded_length, decoded_length_utf8};
ghost use Rattle.encoding_mem.specs.calls.Resuming.{resumed_plain};
ghost use Rattle.encoding_mem.specs.laws.Pieces.{pieces_by-nil, pieces_by-whole};
ghost use Rattle.encoding_mem.specs.laws.Pieces.{pieces_by-are_pieces};
ghost use Rattle.encoding_mem.specs.Utf8.{first_piece_utf8, pieces_utf8, second_min, second_max};
ghost use Rattle.encoding_mem.specs.laws.Utf8Decide.{decide_utf8, utf8_decide_lead};
ghost use Rattle.encoding_mem.specs.laws.Utf8Decide.{utf8_decide_two, utf8_decide_three};
ghost use Rattle.encoding_mem.specs.laws.Utf8.{cuts_utf8};

use crate::codec::decoder_result::DecoderResult;
use crate::codec::first_piece::{DecoderRule, FirstPiece, cut_short};
use crate::codec::raw_decoder::RawDecoder;
use crate::codec::room::DecodedLength;
use crate::codec::saved_pieces::SavedPieces;
use crate::codec::scalar::scalar_of;
use crate::codec::sink::Sink;
use crate::codec::sink_decoder::{Buffered, SinkDecoder};

/// The rule of UTF-8.
#[derive(Clone, Copy)]
struct Utf8Rule {}

impl DecoderRule for Utf8Rule {
    ghost pieces = { λ _ x. pieces_utf8 x };

    ghost whole = { λ _. pieces_by-whole first_piece_utf8 cuts_utf8 };

    ghost are_pieces = { λ _. pieces_by-are_pieces first_piece_utf8 cuts_utf8 };

    ghost ends = { λ _. pieces_by-nil first_piece_utf8 };

    ghost needs = { λ _. decoded_length decoded_length_utf8 };

    ghost limits = { λ _. decoded_length_utf8 };

    ghost covers = { λ _ _ _. omega arith };

    ghost after = { λ s _. s };

    ghost steady = { λ _ _. refl };

    ghost in_mode = { λ s _. s };

    ghost modes_stay = { λ _ _. refl };

    fn first_piece(&self, bytes: &[u8], last: bool) -> FirstPiece {
        decide(bytes, last)
    }

    fn pass(&mut self, bytes: &[u8]) {
        let _ = bytes;
    }

    fn text_at<'b>(&self, bytes: &'b [u8], most: usize) -> &'b str {
        text_at_start(&bytes[..bytes.len().min(most)])
    }

    fn room(&self) -> DecodedLength {
        DecodedLength::utf8()
    }

    fn mode(&self) -> u8 {
        0
    }

    fn enter_mode(&mut self, _mode: u8) {}
}

// How many bytes are tested for text at a time: few, and more if these are text. Each test reads
// all of them, so that input with many malformed sequences stays cheap.
const FEW: usize = 32;

const MANY: usize = 4096;

// A text at the start, the longest there is in so many bytes.
fn text_at_start(bytes: &[u8]) -> &str
    ensures { result.now ≡ take (length result.now) bytes.now }
{
    let few = text_window(bytes, FEW);
    let text = valid_prefix(few);
    if text.len() < few.len() || bytes.len() <= FEW {
        text
    } else {
        valid_prefix(text_window(bytes, MANY))
    }
}

// The first bytes, at most so many, without a sequence that their end may cut.
fn text_window(bytes: &[u8], most: usize) -> &[u8]
    ensures prefix { result.now ≡ take (length result.now) bytes.now }
    ensures few { length result.now ≤ most }
    ensures long { min (length bytes.now) most ≤ length result.now + 3 }
{
    let window = &bytes[..bytes.len().min(most)];
    &window[..window.len() - cut_len(window)]
}

// How many bytes at the end begin a sequence that goes on after them.
fn cut_len(bytes: &[u8]) -> usize
    ensures few { result ≤ 3 }
    ensures within { result ≤ length bytes.now }
{
    let len = bytes.len();
    if len >= 1 && bytes[len - 1] >= 0xC0 {
        1
    } else if len >= 2 && bytes[len - 2] >= 0xE0 {
        2
    } else if len >= 3 && bytes[len - 3] >= 0xF0 {
        3
    } else {
        0
    }
}

// The longest text at the start.
fn valid_prefix(bytes: &[u8]) -> &str
    ensures prefix { result.now ≡ take (length result.now) bytes.now }
    ensures longest { length result.now ≡ utf8_valid_len bytes.now }
{
    match simdutf8::compat::from_utf8(bytes) {
        Ok(text) => text,
        Err(e) => unsafe { std::str::from_utf8_unchecked(&bytes[..e.valid_up_to()]) },
    }
}

fn decide(bytes: &[u8], last: bool) -> FirstPiece
    ensures value { result ≡ decide_utf8 bytes.now last }
    ensures short { IsNotLonger result }
{
    match bytes {
        [] => FirstPiece::More,
        [b, rest @ ..] => {
            let b = *b;
            if b < 0x80 {
                FirstPiece::One(b as char, 1)
            } else if b >= 0xC2 && b <= 0xF4 {
                decide_lead(b, rest, last)
            } else {
                FirstPiece::Malformed(1)
            }
        }
    }
}

fn second_min(b: u8) -> u8
    ensures { result ≡ second_min b }
{
    if b == 0xE0 {
        0xA0
    } else if b == 0xF0 {
        0x90
    } else {
        0x80
    }
}

fn second_max(b: u8) -> u8
    ensures { result ≡ second_max b }
{
    if b == 0xED {
        0x9F
    } else if b == 0xF4 {
        0x8F
    } else {
        0xBF
    }
}

fn is_continuation(b: u8) -> bool
    ensures { result ≡ is_in_range 0x80 0xBF b }
{
    b >= 0x80 && b <= 0xBF
}

fn is_second(b: u8, c: u8) -> bool
    ensures { result ≡ is_in_range (second_min b) (second_max b) c }
{
    c >= second_min(b) && c <= second_max(b)
}

fn decide_lead(b: u8, rest: &[u8], last: bool) -> FirstPiece
    requires { IsInRange 0xC2 0xF4 b }
    ensures value { result ≡ utf8_decide_lead b rest.now last }
    ensures short { IsNotLonger result }
{
    match rest {
        [] => cut_short(1, last),
        [c, rest @ ..] => {
            let c = *c;
            if !is_second(b, c) {
                FirstPiece::Malformed(1)
            } else if b < 0xE0 {
                FirstPiece::One(scalar_of((b as u32 - 0xC0) * 64 + (c as u32 - 0x80)), 2)
            } else {
                decide_two(b, c, rest, last)
            }
        }
    }
}

fn decide_two(b: u8, c: u8, rest: &[u8], last: bool) -> FirstPiece
    requires lead { IsInRange 0xE0 0xF4 b }
    requires second { IsTrue (is_in_range (second_min b) (second_max b) c) }
    ensures value { result ≡ utf8_decide_two b c rest.now last }
    ensures short { IsNotLonger result }
{
    match rest {
        [] => cut_short(2, last),
        [d, rest @ ..] => {
            let d = *d;
            if !is_continuation(d) {
                FirstPiece::Malformed(2)
            } else if b < 0xF0 {
                FirstPiece::One(
                    scalar_of(
                        (b as u32 - 0xE0) * 4096 + (c as u32 - 0x80) * 64 + (d as u32 - 0x80),
                    ),
                    3,
                )
            } else {
                decide_three(b, c, d, rest, last)
            }
        }
    }
}

fn decide_three(b: u8, c: u8, d: u8, rest: &[u8], last: bool) -> FirstPiece
    requires lead { IsInRange 0xF0 0xF4 b }
    requires second { IsTrue (is_in_range (second_min b) (second_max b) c) }
    requires third { IsInRange 0x80 0xBF d }
    ensures value { result ≡ utf8_decide_three b c d rest.now last }
    ensures short { IsNotLonger result }
{
    match rest {
        [] => cut_short(3, last),
        [e, ..] => {
            let e = *e;
            if !is_continuation(e) {
                FirstPiece::Malformed(3)
            } else {
                FirstPiece::One(
                    scalar_of(
                        (b as u32 - 0xF0) * 262144
                            + (c as u32 - 0x80) * 4096
                            + (d as u32 - 0x80) * 64
                            + (e as u32 - 0x80),
                    ),
                    4,
                )
            }
        }
    }
}

/// The decoder of UTF-8 (the Encoding Standard, section 8.1.1; RFC 3629), which needs no index. A
/// malformed sequence is the maximal subpart that Unicode names: the longest prefix of some
/// character's bytes, or else one byte. Surrogates and what is not the shortest form are malformed.
/// Up to 3 bytes are pending.
#[derive(Drop)]
pub struct Utf8Decoder {
    inner: Buffered<Utf8Rule>,
}

impl Utf8Decoder {
    /// A decoder of a new stream.
    pub fn new() -> Self
        ensures fresh { IsFreshDecoder (⟦<Utf8Decoder as RawDecoder>⟧.state result)
            pieces_utf8 decoded_length_utf8 }
        ensures resumed { ⟦<Utf8Decoder as SinkDecoder>⟧.resumed result
            ≡ resumed_plain pieces_utf8 decoded_length_utf8 }
    {
        Utf8Decoder {
            inner: Buffered::new(Utf8Rule {}),
        }
    }

    /// Whether nothing is pending, so that what follows is read as at the start of an input.
    pub fn in_neutral_state(&self) -> bool
        ensures { IsTrue result ↔ ((⟦<Utf8Decoder as RawDecoder>⟧.state self.now).pending ≡ 0) }
    {
        self.pending_len() == 0
    }
}

impl SinkDecoder for Utf8Decoder {
    ghost state = { λ d. ⟦<Buffered<Utf8Rule> as SinkDecoder>⟧.state d.inner };

    ghost resumed = { λ d. ⟦<Buffered<Utf8Rule> as SinkDecoder>⟧.resumed d.inner };

    fn decode_into<S: Sink>(
        &mut self,
        src: &[u8],
        sink: &mut S,
        last: bool,
    ) -> (DecoderResult, usize) {
        self.inner.decode_into(src, sink, last)
    }

    fn held_len(&self) -> usize {
        self.inner.held_len()
    }

    fn room(&self) -> DecodedLength {
        self.inner.room()
    }

    fn saved(&self) -> SavedPieces {
        self.inner.saved()
    }

    fn resume(&mut self, saved: SavedPieces) {
        self.inner.resume(saved)
    }
}
