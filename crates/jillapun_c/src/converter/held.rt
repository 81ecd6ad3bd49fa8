//! Bytes that a converter made and that wait for room.

ghost use Rattle.std.specs.Prelude.{◌≡◌, ℕ, ◌+◌, ◌≤◌, ◌↔◌, ◌++◌, IsTrue, List, [], length, take};

use crate::converter::made::fill;
use std::marker::Model;

/// Bytes that were made and wait for room, at most 32.
#[derive(Drop)]
pub struct Held {
    bytes: [u8; 32],
    len: usize,
}

impl Model for Held {
    ghost Value = { List ℕ };

    ghost view = { λ h. take h.len h.bytes };

    ghost invariant = { λ h. h.len ≤ 32 };
}

impl Held {
    ghost use Rattle.jillapun_c.specs.Room.{FillsRoom};

    /// No bytes.
    pub(crate) fn none() -> Held
        ensures { result ≡ [] }
    {
        Held {
            bytes: [0; 32],
            len: 0,
        }
    }

    /// The first of some bytes.
    #[inline(always)]
    pub(crate) fn of(bytes: [u8; 32], count: usize) -> Held
        ensures { result ≡ take count bytes }
    {
        Held {
            bytes,
            len: count.min(32),
        }
    }

    /// Bytes, and how many of them wait: these are the first.
    #[inline(always)]
    pub(crate) fn parts(&self) -> ([u8; 32], usize)
        ensures { take result.1 result.0 ≡ self.now }
    {
        let bytes = self.bytes;
        (bytes, self.len)
    }

    /// Whether no byte waits.
    pub(crate) fn is_empty(&self) -> bool
        ensures { IsTrue result ↔ (self.now ≡ []) }
    {
        self.len == 0
    }

    /// Holds more bytes, after those that wait.
    pub(crate) fn push(&mut self, bytes: &[u8])
        requires { length self.old + length bytes.now ≤ 32 }
        ensures { self.new ≡ self.old ++ bytes.now }
    {
        let end = self.len + bytes.len();
        self.bytes[self.len..end].copy_from_slice(bytes);
        self.len = end;
    }

    /// Hands out what waits, into a room that is filled up to a place, as far as there is room.
    /// Returns up to where it is filled then.
    pub(crate) fn hand_out(&mut self, room: &mut [u8], at: usize) -> usize
        requires { at ≤ length room.old }
        ensures fills { FillsRoom self.old self.new room.old room.new at result }
        ensures small { length self.old ≤ 32 }
    {
        let to = fill(&self.bytes[..self.len], room, at);
        let given = to - at;
        self.bytes.copy_within(given..self.len, 0);
        self.len -= given;
        to
    }
}
