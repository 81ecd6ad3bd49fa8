//! A decoder's rule: what the first piece of some bytes is.

ghost use Rattle.std.specs.Prelude.{◌≡◌, ℕ, ◌<◌, ◌≤◌, ◌+◌, ◌*◌, ◌++◌, List, [], length, take};
ghost use Rattle.std.specs.Str.{chars, encode_utf8_all};
ghost use Rattle.encoding_mem.specs.Piece.{Piece, sizes, ArePieces};
ghost use Rattle.encoding_mem.specs.calls.DecoderRule.{TellsFirstPiece, HasRoomFor, cut_short};
ghost use Rattle.encoding_mem.specs.calls.DecodedLength.{is_units, decoded_length};
ghost use Rattle.encoding_mem.specs.calls.TextRun.{text_len, text_pieces};
ghost use Rattle.encoding_mem.specs.calls.UnitRun.{BeginWithUnits};
ghost use Rattle.encoding_mem.specs.declared.codec.room.OutputUnit.{OutputUnit};
ghost use Rattle.encoding_mem.specs.declared.codec.room.DecodedLength.{DecodedLength};

use crate::codec::room::DecodedLength;
use crate::mem::first::UNIT_BLOCK;

/// How many units of UTF-16 a rule looks at together: 32.
pub const UNIT_RUN: usize = UNIT_BLOCK;

/// What stands at the start of some bytes, by a decoding rule. Lengths are in bytes.
#[derive(Clone, Copy)]
pub enum FirstPiece {
    /// The bytes that are here do not decide it: more bytes are needed.
    More,
    /// Bytes that give one character.
    One(char, usize),
    /// Bytes that give two characters, each below U+0800.
    Two(char, char, usize),
    /// Bytes that give no character, as an escape does.
    Ignored(usize),
    /// Bytes that are malformed, at most 4.
    Malformed(usize),
}

/// The rule of a codec: what the first piece of some bytes is. How a call cuts, waits, writes and
/// stops is the driver's.
pub trait DecoderRule {
    /// The pieces of bytes from a state, with the list's end as the end of the input.
    ghost pieces: { Self → List ℕ → List Piece };

    /// Joined, the pieces are the bytes.
    ghost whole: { (s : Self) (x : List ℕ) → sizes (pieces s x) ≡ length x };

    /// Each piece is of at least 1 byte, and has the text and size that a piece may have.
    ghost are_pieces: { (s : Self) (x : List ℕ) → ArePieces (pieces s x) };

    /// No bytes have no pieces.
    ghost ends: { (s : Self) → pieces s [] ≡ [] };

    /// The most room that a call needs free for so many bytes, in each count.
    ghost needs: { Self → OutputUnit → ℕ → ℕ };

    /// The numbers by which the length queries are computed.
    ghost limits: { Self → DecodedLength };

    /// What a call needs free is never more than the length queries return.
    ghost covers: { (s : Self) (k : OutputUnit) (n : ℕ) → needs s k n ≤ decoded_length (limits s) k n };

    /// The state after the first piece of bytes.
    ghost after: { Self → List ℕ → Self };

    /// The numbers of the length queries stay as the rule goes on.
    ghost steady: { (s : Self) (x : List ℕ) → limits (after s x) ≡ limits s };

    /// The rule in a mode, by the mode's number. A rule without modes stays as it is.
    ghost in_mode: { Self → ℕ → Self };

    /// The modes stay as the rule goes on: only which one is in force changes.
    ghost modes_stay: { (s : Self) (x : List ℕ) → in_mode (after s x) ≡ in_mode s };

    /// The first piece of these bytes, or `More` if what follows decides it; `last` says that
    /// nothing follows. The condition is that there is a byte.
    fn first_piece(&self, bytes: &[u8], last: bool) -> FirstPiece
        requires { 0 < length bytes.now }
        ensures piece { TellsFirstPiece (pieces self.now) (pieces (after self.now bytes.now)) bytes.now last result }
        ensures room { HasRoomFor (needs self.now) (needs (after self.now bytes.now)) (length bytes.now) last result };

    /// Goes past the first piece of these bytes: takes the mode in which what follows is read. The
    /// condition is that there is a byte.
    fn pass(&mut self, bytes: &[u8])
        requires { 0 < length bytes.now }
        ensures { self.new ≡ after self.old bytes.now };

    /// The text at the start of these bytes that can be copied as it is, whatever follows, and
    /// leaves the state as it is: at most so many bytes of it. It may be empty: then `first_piece`
    /// says what is there.
    fn text_at<'b>(&self, bytes: &'b [u8], most: usize) -> &'b str
        ensures prefix { result.now ≡ take (length result.now) bytes.now }
        ensures few { length result.now ≤ most }
        ensures pieces { (r : List ℕ) → pieces self.now (result.now ++ r)
            ≡ text_pieces (chars result.now) ++ pieces self.now r }
        ensures room { (k : OutputUnit) (m : ℕ) → text_len (is_units k) result.now + needs self.now k m
            ≤ needs self.now k (length result.now + m) };

    /// 32 units of UTF-16, and how many of them, from the first on, are the characters that these
    /// bytes begin with, two bytes each: all are below U+D800, and the state stays as it is. The
    /// units after these mean nothing. 0 may be returned anywhere, as by each rule but that of
    /// UTF-16: then `first_piece` says what is there.
    #[inline(always)]
    fn units_at(&self, _bytes: &[u8]) -> ([u16; UNIT_RUN], usize)
        ensures whole { length result.0 ≡ 32 }
        ensures few { result.1 ≤ 32 }
        ensures units { BeginWithUnits (pieces self.now) _bytes.now (take result.1 result.0) }
        ensures room { (k : OutputUnit) (m : ℕ)
            → text_len (is_units k) (encode_utf8_all (take result.1 result.0))
            + needs self.now k m ≤ needs self.now k (2 * result.1 + m) }
    {
        ([0; UNIT_RUN], 0)
    }

    /// Whether the driver seeks, if this byte comes next, characters from U+0800 to U+FFFF of two
    /// bytes each, with single ASCII characters between them, in a loop of their own. A rule that
    /// says nothing has none. This decides speed alone: any answer is right, and so no clause
    /// speaks of it.
    #[inline(always)]
    fn seeks_pairs(&self, _first: u8) -> bool {
        false
    }

    /// The numbers by which the length queries are computed.
    fn room(&self) -> DecodedLength
        ensures { result ≡ limits self.now };

    /// The number of the mode in force: `enter_mode` of it leaves the rule as it is. A rule without
    /// modes returns any number, as 0.
    fn mode(&self) -> u8
        ensures { in_mode self.now result ≡ self.now };

    /// Takes the mode with this number as the one in force, as if the bytes so far had led to it. A
    /// number that is no mode's is taken as one of the modes.
    fn enter_mode(&mut self, mode: u8)
        ensures mode { self.new ≡ in_mode self.old mode }
        ensures modes { in_mode self.new ≡ in_mode self.old };
}

/// What `size` bytes are that begin a longer sequence: malformed if they are the last of the input,
/// and else undecided.
#[inline(always)]
pub fn cut_short(size: usize, last: bool) -> FirstPiece
    ensures { result ≡ cut_short size last }
{
    if last {
        FirstPiece::Malformed(size)
    } else {
        FirstPiece::More
    }
}
