//! What an encoder makes of one character.

ghost use Rattle.std.specs.Prelude.{◌≡◌, ℕ, ◌+◌, ◌≤◌, List, [], ◌∷◌, length, take};
ghost use Rattle.std.specs.Char.{encode_utf8};

use std::marker::Model;

/// The set of characters that an encoder is in. All encoders but that of ISO-2022-JP stay in
/// `Ascii` (the Encoding Standard, section 12.2.2).
#[derive(Clone, Copy, Debug, PartialEq, Eq)]
pub enum EscapeState {
    /// ASCII, in which an output begins and ends.
    Ascii,
    /// The Roman set of JIS X 0201: ASCII, but U+00A5 and U+203E in place of two characters.
    Roman,
    /// The two-byte set of JIS X 0208.
    Jis,
}

/// Up to four bytes: an escape, or the bytes of a character.
#[derive(Drop)]
pub struct Bytes {
    bytes: [u8; 4],
    len: usize,
}

impl Model for Bytes {
    ghost Value = { List ℕ };

    ghost view = { λ s. take s.len s.bytes };

    ghost invariant = { λ s. s.len ≤ 4 };
}

impl Bytes {
    /// No bytes.
    #[inline(always)]
    pub fn none() -> Self
        ensures { result ≡ [] }
    {
        Bytes {
            bytes: [0; 4],
            len: 0,
        }
    }

    /// One byte.
    #[inline(always)]
    pub fn one(a: u8) -> Self
        ensures { result ≡ a ∷ [] }
    {
        Bytes {
            bytes: [a, 0, 0, 0],
            len: 1,
        }
    }

    /// Two bytes, in order.
    #[inline(always)]
    pub fn two(a: u8, b: u8) -> Self
        ensures { result ≡ a ∷ b ∷ [] }
    {
        Bytes {
            bytes: [a, b, 0, 0],
            len: 2,
        }
    }

    /// Three bytes, in order.
    #[inline(always)]
    pub fn three(a: u8, b: u8, c: u8) -> Self
        ensures { result ≡ a ∷ b ∷ c ∷ [] }
    {
        Bytes {
            bytes: [a, b, c, 0],
            len: 3,
        }
    }

    /// Four bytes, in order.
    #[inline(always)]
    pub fn four(a: u8, b: u8, c: u8, d: u8) -> Self
        ensures { result ≡ a ∷ b ∷ c ∷ d ∷ [] }
    {
        Bytes {
            bytes: [a, b, c, d],
            len: 4,
        }
    }

    /// The UTF-8 of a character.
    pub fn utf8(character: char) -> Self
        ensures { result ≡ encode_utf8 character }
    {
        match *character.encode_utf8(&mut [0; 4]).as_bytes() {
            [a] => Bytes::one(a),
            [a, b] => Bytes::two(a, b),
            [a, b, c] => Bytes::three(a, b, c),
            [a, b, c, d] => Bytes::four(a, b, c, d),
            _ => unreachable!(),
        }
    }

    /// The bytes.
    #[inline(always)]
    pub fn as_slice(&self) -> &[u8]
        ensures value { result.now ≡ self.now }
        ensures short { length self.now ≤ 4 }
    {
        &self.bytes[..self.len]
    }
}

/// What an encoder makes of a character.
#[derive(Drop)]
pub enum Form {
    /// Its bytes.
    Mapped(Bytes),
    /// It has none: the scalar that is reported as unmappable.
    Unmapped(char),
}
