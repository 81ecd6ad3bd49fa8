//! What a lead and a trail give, and the parts of the rules of encodings of two bytes a character.

ghost use Rattle.std.specs.Prelude.{◌≡◌, ◌+◌, ◌≤◌};
ghost use Rattle.encoding_codecs.specs.laws.TwoByteDecide.{decide_trail};
ghost use Rattle.encoding_codecs.specs.Pointers.{value_of_entry};
ghost use Rattle.encoding_mem.specs.Coding.{form_of_bytes};

use encoding_mem::first_piece::FirstPiece;
use encoding_mem::form::{Bytes, Form};

/// What a lead and a trail stand for.
#[derive(Clone, Copy)]
pub enum PairValue {
    /// Nothing: they are malformed.
    NoChar,
    /// A character.
    OneChar(char),
    /// Two characters, as four pairs of Big5 do: a letter and a combining mark.
    TwoChars(char, char),
}

/// What `before` bytes that need a trail give with this byte. If together they have no value, it is
/// left unread if it is ASCII, and is malformed with them otherwise.
#[inline(always)]
pub(crate) fn decide_trail(before: usize, value: PairValue, trail: u8) -> FirstPiece
    requires { before ≤ 3 }
    ensures { result ≡ decide_trail before value trail }
{
    match value {
        PairValue::NoChar if trail < 0x80 => FirstPiece::Malformed(before),
        PairValue::NoChar => FirstPiece::Malformed(before + 1),
        PairValue::OneChar(c) => FirstPiece::One(c, before + 1),
        PairValue::TwoChars(c, d) => FirstPiece::Two(c, d, before + 1),
    }
}

/// What a lead and a trail give, by the entry at their pointer.
#[inline(always)]
pub(crate) fn value_of_entry(entry: Option<char>) -> PairValue
    ensures { result ≡ value_of_entry entry }
{
    match entry {
        Some(c) => PairValue::OneChar(c),
        None => PairValue::NoChar,
    }
}

/// The form of a character, by its bytes. One without bytes is reported as it is.
#[inline(always)]
pub(crate) fn form_of_bytes(c: char, bytes: Option<Bytes>) -> Form
    ensures { result ≡ form_of_bytes c bytes }
{
    match bytes {
        Some(bytes) => Form::Mapped(bytes),
        None => Form::Unmapped(c),
    }
}
