//! The bytes at the end of what was read whose piece is not decided.

ghost use Rattle.std.specs.Prelude.{◌≡◌, ℕ, ◌<◌, ◌≤◌, ◌++◌, ◌∷◌, List, [], length, drop, take};

use std::marker::Model;

/// Bytes that were read and whose piece is not decided, at most 8.
#[derive(Drop)]
pub struct Pending {
    bytes: [u8; 8],
    len: usize,
}

impl Model for Pending {
    ghost Value = { List ℕ };

    ghost view = { λ p. take p.len p.bytes };

    ghost invariant = { λ p. p.len ≤ 8 };
}

impl Pending {
    /// No bytes.
    pub fn new() -> Self
        ensures { result ≡ [] }
    {
        Pending {
            bytes: [0; 8],
            len: 0,
        }
    }

    /// The first `len` of the bytes that are held and those of `src` after them, or all that there
    /// are. The conditions are that `len` is at most 8, and that no more than `len` are held
    /// (`held.len()`).
    pub fn prefix_of(held: &Pending, src: &[u8], len: usize) -> Self
        requires held { length held.now ≤ len }
        requires room { len ≤ 8 }
        ensures { result ≡ take len (held.now ++ src.now) }
    {
        let more = (len - held.len).min(src.len());
        let mut bytes = held.bytes;
        bytes[held.len..held.len + more].copy_from_slice(&src[..more]);
        Pending {
            bytes,
            len: held.len + more,
        }
    }

    /// How many bytes are held, at most 8.
    pub fn len(&self) -> usize
        ensures exact { result ≡ length self.now }
        ensures small { result ≤ 8 }
    {
        self.len
    }

    /// The bytes that are held.
    pub fn as_slice(&self) -> &[u8]
        ensures { result.now ≡ self.now }
    {
        &self.bytes[..self.len]
    }

    /// Appends a byte. The condition is that fewer than 8 are held (`len`).
    pub fn push(&mut self, b: u8)
        requires { length self.old < 8 }
        ensures { self.new ≡ self.old ++ b ∷ [] }
    {
        self.bytes[self.len] = b;
        self.len += 1;
    }

    /// Removes the first `n` bytes. The condition is that as many are held (`len`).
    pub fn remove_prefix(&mut self, n: usize)
        requires { n ≤ length self.old }
        ensures { self.new ≡ drop n self.old }
    {
        self.bytes.copy_within(n..self.len, 0);
        self.len -= n;
    }

    /// Holds these bytes in place of those before. The condition is that they are at most 8.
    pub fn fill(&mut self, bytes: &[u8])
        requires { length bytes.now ≤ 8 }
        ensures { self.new ≡ bytes.now }
    {
        let len = bytes.len();
        self.bytes[..len].copy_from_slice(bytes);
        self.len = len;
    }
}
