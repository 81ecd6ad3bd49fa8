//! A room that something is put into as far as it fits, and how long that is.

ghost use Rattle.std.specs.Prelude.{◌≡◌, ◌≤◌, ◌++◌, List, ℕ, length, take, false, true};
ghost use Rattle.jillapun_c.specs.Room.{HoldsFront};
ghost use Rattle.jillapun_c.specs.Whole.{filled_status};

use crate::status::{LOSSY, OK, ROOM};

/// How many bytes are made at a time that find no room with the caller.
pub(crate) const PART: usize = 1024;

/// How far an output, or records, made part by part, were put into a room.
#[derive(Clone, Copy)]
pub struct Filled {
    /// How many elements stand at the start of the room.
    pub put: usize,
    /// How many there are so far; `usize::MAX` if there are more.
    pub length: usize,
    /// Whether all that was made was put.
    pub is_whole: bool,
}

impl Filled {
    /// After the first part, of so many elements, which was made in the room.
    pub(crate) fn first(written: usize) -> Filled
        ensures put { result.put ≡ written }
        ensures length { result.length ≡ written }
        ensures whole { result.is_whole ≡ true }
    {
        Filled {
            put: written,
            length: written,
            is_whole: true,
        }
    }

    /// Puts the next part behind all before it, if these were put, and it fits.
    pub(crate) fn add<T: Copy>(&mut self, part: &[T], room: &mut [T])
        requires { self.old.put ≤ length room.old }
        ensures holds { (made old : List T) → length old ≡ length room.old
            → HoldsFront made old room.old self.old
            → HoldsFront (made ++ part.now) old room.new self.new }
        ensures kept { self.new.is_whole ≡ false
            → take self.new.put room.new ≡ take self.old.put room.old }
    {
        self.is_whole = self.is_whole && part.len() <= room.len() - self.put;
        if self.is_whole {
            let end = self.put + part.len();
            room[self.put..end].copy_from_slice(part);
            self.put = end;
        }
        self.length = self.length.saturating_add(part.len());
    }

    /// The status of a call that made all of the output.
    pub(crate) fn status(self, is_lossy: bool) -> u8
        ensures { result ≡ filled_status self is_lossy }
    {
        if !self.is_whole {
            return ROOM;
        }
        if is_lossy { LOSSY } else { OK }
    }
}
