//! The decoder of ISO-2022-JP (the Encoding Standard, section 12.2.1, "ISO-2022-JP decoder").

ghost use Rattle.std.proofs.Common.{refl, arith};
ghost use Rattle.std.specs.Prelude.{◌≡◌, ◌↔◌, IsTrue, true, length, take};
ghost use Rattle.std.specs.Int.{IsInRange};
ghost use Rattle.encoding_mem.specs.Iso2022JpAscii.{IsIso2022JpAscii};
ghost use Rattle.encoding_mem.specs.calls.Decoding.{IsFreshDecoder};
ghost use Rattle.encoding_mem.specs.calls.DecodedLength.{decoded_length, decoded_length_multibyte};
ghost use Rattle.encoding_mem.specs.Piece.{piece_of_scalar};
ghost use Rattle.encoding_tables.specs.IndexLists.{has, index_entries};
ghost use Rattle.encoding_tables.specs.Lookups.{AreEntries};
ghost use Rattle.encoding_tables.specs.declared.index_kind.IndexKind.{IndexKind};
ghost use Rattle.encoding_codecs.specs.Iso2022Jp.{escape_of, escape_at, ascii_piece};
ghost use Rattle.encoding_codecs.specs.Iso2022Jp.{katakana_piece, pieces_in_mode};
ghost use Rattle.encoding_codecs.specs.Iso2022Jp.{pieces_iso_2022_jp, IsNeutral};
ghost use Rattle.encoding_codecs.specs.calls.Iso2022JpModes.{mode_at, resumed_iso_2022_jp};
ghost use Rattle.encoding_codecs.specs.laws.Iso2022JpDecide.{escape_first_piece, char_first_piece};
ghost use Rattle.encoding_codecs.specs.laws.Iso2022JpDecide.{jis_pair_first_piece};
ghost use Rattle.encoding_codecs.specs.laws.Iso2022JpDecide.{first_piece_iso_2022_jp, mode_after};
ghost use Rattle.encoding_codecs.specs.laws.Iso2022JpDecide.{may_be_escape, is_jis_lead, is_open};
ghost use Rattle.encoding_codecs.specs.laws.Iso2022JpDecide.{shown, decide_iso_2022_jp};
ghost use Rattle.encoding_codecs.specs.laws.Iso2022Jp.{iso_2022_jp_whole, iso_2022_jp_are_pieces};
ghost use Rattle.encoding_codecs.specs.laws.Iso2022Jp.{iso_2022_jp_ends};

use crate::codec_decoder::CodecDecoder;
use encoding_mem::ascii::ascii_prefix;
use encoding_mem::first_piece::{DecoderRule, FirstPiece};
use encoding_mem::room::DecodedLength;
use encoding_mem::sink_decoder::SinkDecoder;
use encoding_mem::{RawDecoder, iso_2022_jp_ascii_valid_up_to};
use encoding_tables::{Flat, IndexKind, Tables};

/// What an escape of ISO-2022-JP switches to.
#[derive(Clone, Copy)]
pub enum Mode {
    /// ASCII, in which an input begins: 1B 28 42.
    Ascii,
    /// The Roman set of JIS X 0201, in which 5C is U+00A5 and 7E is U+203E: 1B 28 4A.
    Roman,
    /// Halfwidth katakana, the bytes 21 to 5F: 1B 28 49.
    Katakana,
    /// JIS X 0208, two bytes from 21 to 7E a character: 1B 24 40 or 1B 24 42.
    Jis,
}

// The list of index jis0208.
#[derive(Drop)]
struct Jis0208<'a> {
    flat: Flat<'a>,
    ghost scalars: { AreEntries flat },
}

/// The rule by which `Iso2022JpDecoder` decodes, in a mode.
#[derive(Drop)]
pub struct Iso2022JpRule<'a> {
    jis0208: Jis0208<'a>,
    mode: Mode,
}

impl<'a> DecoderRule for Iso2022JpRule<'a> {
    ghost pieces = { λ s x. pieces_in_mode s.jis0208.flat s.mode x };

    ghost whole = { λ s. iso_2022_jp_whole s.jis0208.flat s.jis0208.scalars s.mode };

    ghost are_pieces = { λ s. iso_2022_jp_are_pieces s.jis0208.flat s.jis0208.scalars s.mode };

    ghost ends = { λ s. iso_2022_jp_ends s.jis0208.flat s.mode };

    ghost needs = { λ _. decoded_length decoded_length_multibyte };

    ghost limits = { λ _. decoded_length_multibyte };

    ghost covers = { λ _ _ _. omega arith };

    ghost after = { λ s x. record s { mode = mode_after s.mode x } };

    ghost steady = { λ _ _. refl };

    ghost in_mode = { λ s number. record s { mode = mode_at number } };

    ghost modes_stay = { λ _ _. refl };

    #[inline(always)]
    fn first_piece(&self, bytes: &[u8], last: bool) -> FirstPiece {
        decide(&self.jis0208.flat, self.mode, bytes, last)
    }

    #[inline(always)]
    fn pass(&mut self, bytes: &[u8]) {
        if let Some(mode) = escape_at(bytes) {
            self.mode = mode;
        }
    }

    #[inline(always)]
    fn text_at<'b>(&self, bytes: &'b [u8], most: usize) -> &'b str {
        match self.mode {
            Mode::Ascii => plain_text(&bytes[..bytes.len().min(most)]),
            _ => "",
        }
    }

    // Only in the two-byte set do characters have two bytes.
    #[inline(always)]
    fn seeks_pairs(&self, _first: u8) -> bool {
        matches!(self.mode, Mode::Jis)
    }

    fn room(&self) -> DecodedLength {
        DecodedLength::multibyte()
    }

    fn mode(&self) -> u8 {
        mode_number(self.mode)
    }

    fn enter_mode(&mut self, mode: u8) {
        self.mode = mode_at(mode);
    }
}

// The number by which a mode is saved.
fn mode_number(mode: Mode) -> u8
    ensures { mode_at result ≡ mode }
{
    match mode {
        Mode::Ascii => 0,
        Mode::Roman => 1,
        Mode::Katakana => 2,
        Mode::Jis => 3,
    }
}

// The mode with a number: ASCII, if no other has it.
fn mode_at(number: u8) -> Mode
    ensures { result ≡ mode_at number }
{
    match number {
        1 => Mode::Roman,
        2 => Mode::Katakana,
        3 => Mode::Jis,
        _ => Mode::Ascii,
    }
}

// The bytes at the start that are ASCII's characters in ASCII.
fn plain_text(bytes: &[u8]) -> &str
    ensures prefix { result.now ≡ take (length result.now) bytes.now }
    ensures plain { IsIso2022JpAscii result.now }
{
    ascii_prefix(&bytes[..iso_2022_jp_ascii_valid_up_to(bytes)])
}

// The mode that three bytes switch to, if they are an escape.
#[inline(always)]
fn escape_of(a: u8, b: u8, c: u8) -> Option<Mode>
    ensures { result ≡ escape_of a b c }
{
    match (a, b, c) {
        (0x1B, 0x28, 0x42) => Some(Mode::Ascii),
        (0x1B, 0x28, 0x4A) => Some(Mode::Roman),
        (0x1B, 0x28, 0x49) => Some(Mode::Katakana),
        (0x1B, 0x24, 0x40) | (0x1B, 0x24, 0x42) => Some(Mode::Jis),
        _ => None,
    }
}

// That of the whole escape at the start.
#[inline(always)]
fn escape_at(bytes: &[u8]) -> Option<Mode>
    ensures { result ≡ escape_at bytes.now }
{
    match bytes {
        [a, b, c, ..] => escape_of(*a, *b, *c),
        _ => None,
    }
}

// Whether this is less than an escape, and may become one.
fn may_be_escape(bytes: &[u8]) -> bool
    ensures { result ≡ may_be_escape bytes.now }
{
    match bytes {
        [] => true,
        [a] => *a == 0x1B,
        [a, b] => *a == 0x1B && (*b == 0x28 || *b == 0x24),
        _ => false,
    }
}

// Whether more bytes may change the first piece: they may be an escape, the second of two that follow one
// another, or the second byte of a character.
fn is_open(mode: Mode, bytes: &[u8]) -> bool
    ensures { result ≡ is_open mode bytes.now }
{
    if may_be_escape(bytes) {
        true
    } else if escape_at(bytes).is_some() {
        may_be_escape(&bytes[3..])
    } else {
        is_lead(mode, bytes)
    }
}

// Whether this is the first byte of two, alone.
#[inline(always)]
fn is_lead(mode: Mode, bytes: &[u8]) -> bool
    ensures { result ≡ is_jis_lead mode bytes.now }
{
    match (mode, bytes) {
        (Mode::Jis, [b]) => *b >= 0x21 && *b <= 0x7E,
        _ => false,
    }
}

// What these bytes show of their first piece. Most are characters, which are decided at once.
#[inline(always)]
fn decide(jis0208: &Flat<'_>, mode: Mode, bytes: &[u8], last: bool) -> FirstPiece
    ensures { result ≡ decide_iso_2022_jp jis0208.now mode bytes.now last }
{
    match bytes {
        [b, rest @ ..] if *b != 0x1B => {
            if !last && is_lead(mode, bytes) {
                FirstPiece::More
            } else {
                char_first_piece(jis0208, mode, *b, rest)
            }
        }
        _ => decide_at_escape(jis0208, mode, bytes, last),
    }
}

// What bytes that may begin with an escape show of their first piece.
#[inline(always)]
fn decide_at_escape(jis0208: &Flat<'_>, mode: Mode, bytes: &[u8], last: bool) -> FirstPiece
    ensures { result ≡ decide_iso_2022_jp jis0208.now mode bytes.now last }
{
    if !last && is_open(mode, bytes) {
        FirstPiece::More
    } else {
        first_piece_in_mode(jis0208, mode, bytes)
    }
}

// The first piece, if the bytes end here or more of them do not matter.
#[inline(always)]
fn first_piece_in_mode(jis0208: &Flat<'_>, mode: Mode, bytes: &[u8]) -> FirstPiece
    ensures { result ≡ shown (first_piece_iso_2022_jp jis0208.now mode bytes.now) }
{
    match bytes {
        [] => FirstPiece::Malformed(1),
        [b, rest @ ..] => {
            if escape_at(bytes).is_some() {
                escape_first_piece(&bytes[3..])
            } else {
                char_first_piece(jis0208, mode, *b, rest)
            }
        }
    }
}

// An escape, by the bytes after it: it is malformed before another.
#[inline(always)]
fn escape_first_piece(rest: &[u8]) -> FirstPiece
    ensures { result ≡ shown (escape_first_piece rest.now) }
{
    if escape_at(rest).is_some() {
        FirstPiece::Malformed(3)
    } else {
        FirstPiece::Ignored(3)
    }
}

// A character in a mode, by its first byte and the bytes after it.
#[inline(always)]
fn char_first_piece(jis0208: &Flat<'_>, mode: Mode, b: u8, rest: &[u8]) -> FirstPiece
    ensures { result ≡ shown (char_first_piece jis0208.now mode b rest.now) }
{
    match mode {
        Mode::Ascii => ascii_prefix_of(b),
        Mode::Roman => match b {
            0x5C => FirstPiece::One('\u{A5}', 1),
            0x7E => FirstPiece::One('\u{203E}', 1),
            _ => ascii_prefix_of(b),
        },
        Mode::Katakana => katakana_first_piece(b),
        Mode::Jis => {
            if b >= 0x21 && b <= 0x7E {
                pair_first_piece(jis0208, b, rest)
            } else {
                FirstPiece::Malformed(1)
            }
        }
    }
}

#[inline(always)]
fn ascii_prefix_of(b: u8) -> FirstPiece
    ensures { result ≡ shown (ascii_piece b) }
{
    if b >= 0x80 || b == 0x0E || b == 0x0F || b == 0x1B {
        FirstPiece::Malformed(1)
    } else {
        FirstPiece::One(b as char, 1)
    }
}

#[inline(always)]
fn katakana_first_piece(b: u8) -> FirstPiece
    ensures { result ≡ shown (katakana_piece b) }
{
    if b >= 0x21 && b <= 0x5F {
        let code = 0xFF61 + (b as u32 - 0x21);
        FirstPiece::One(char::from_u32(code).unwrap(), 1)
    } else {
        FirstPiece::Malformed(1)
    }
}

// A first byte and what follows it: 1B is left, any other second byte is taken.
#[inline(always)]
fn pair_first_piece(jis0208: &Flat<'_>, b: u8, rest: &[u8]) -> FirstPiece
    requires { IsInRange 0x21 0x7E b }
    ensures { result ≡ shown (jis_pair_first_piece jis0208.now b rest.now) }
{
    match rest {
        [] | [0x1B, ..] => FirstPiece::Malformed(1),
        [c, ..] => {
            let c = *c;
            if c < 0x21 || c > 0x7E {
                return FirstPiece::Malformed(2);
            }
            entry_first_piece(jis0208.value((b as u32 - 0x21) * 94 + (c as u32 - 0x21)))
        }
    }
}

#[inline(always)]
fn entry_first_piece(entry: Option<char>) -> FirstPiece
    ensures { result ≡ shown (piece_of_scalar 2 entry) }
{
    match entry {
        Some(c) => FirstPiece::One(c, 2),
        None => FirstPiece::Malformed(2),
    }
}

/// The decoder of ISO-2022-JP, by the index jis0208 (the Encoding Standard, section 12.2.1). It
/// begins in ASCII, and an escape switches to the set in which what follows is read: ASCII, Roman,
/// halfwidth katakana, or the two-byte set of JIS X 0208.
///
/// These are malformed, one byte each: from 80 on any, 0E, 0F and 1B if no whole escape begins
/// there; in katakana all but 21 to 5F; in the two-byte set all but 21 to 7E, and a first byte that
/// the end or 1B cuts off. Two bytes are malformed if the second is another byte that is not 21 to
/// 7E, or their pointer has no entry. An escape gives nothing, but one with nothing between it and
/// the next escape is malformed: 3 bytes. Up to five bytes may be pending.
pub type Iso2022JpDecoder<'a> = CodecDecoder<Iso2022JpRule<'a>>;

impl<'a> CodecDecoder<Iso2022JpRule<'a>> {
    /// A decoder of a new stream, in ASCII. The condition, that the index is in `tables`, is tested
    /// by `Tables::has`.
    pub fn new(tables: &'a Tables) -> Self
        requires { has tables.now IndexKind.Jis0208 ≡ true }
        ensures fresh { IsFreshDecoder (⟦<Iso2022JpDecoder<'a> as RawDecoder>⟧.state result)
            (pieces_iso_2022_jp (index_entries tables.now IndexKind.Jis0208))
            decoded_length_multibyte }
        ensures resumed { ⟦<Iso2022JpDecoder<'a> as SinkDecoder>⟧.resumed result
            ≡ resumed_iso_2022_jp (index_entries tables.now IndexKind.Jis0208) }
    {
        CodecDecoder::of_rule(Iso2022JpRule {
            jis0208: Jis0208 {
                flat: tables.flat(IndexKind::Jis0208),
            },
            mode: Mode::Ascii,
        })
    }

    /// Whether nothing is pending and the mode is ASCII, so that what follows is read as at the
    /// start of an input. A whole escape after which nothing was read yet is pending.
    pub fn in_neutral_state(&self) -> bool
        ensures { IsTrue result ↔ IsNeutral (⟦<Iso2022JpDecoder<'a> as RawDecoder>⟧.state self.now) }
    {
        self.pending_len() == 0 && matches!(self.rule().mode, Mode::Ascii)
    }
}
