//! Conversions from UTF-16 to UTF-8. A surrogate in no pair gives U+FFFD.

ghost use Rattle.std.specs.Prelude.{◌≡◌, ◌*◌, ◌≤◌, length, take, drop};
ghost use Rattle.encoding_mem.specs.Conversions.{IsLongest, IsUnitBoundary, units_in_utf8};

use crate::codec::source::first_of_units;
use crate::mem::first::{UNIT_BLOCK, UNIT_LANES};
use crate::mem::plain_units::{put_block, put_char, put_chars, put_lanes};

/// Converts the longest prefix of UTF-16 whose UTF-8 fits into `dst`, and returns how many units
/// were read and how many bytes were written; nothing after these changes. No pair is split; a
/// surrogate in no pair of `src` becomes U+FFFD. The caller goes on with the unread units.
pub fn convert_utf16_to_utf8_partial(src: &[u16], dst: &mut [u8]) -> (usize, usize)
    ensures longest { IsLongest (IsUnitBoundary src.now) (λ i. length (units_in_utf8 (take i src.now)))
        (length src.now) (length dst.old) result.0 }
    ensures fits { result.1 ≤ length dst.new }
    ensures text { take result.1 dst.new ≡ units_in_utf8 (take result.0 src.now) }
    ensures few { result.1 ≤ 3 * result.0 }
    ensures behind { drop result.1 dst.new ≡ drop result.1 dst.old }
{
    let mut read = 0;
    let mut written = 0;
    // Four bytes of room for each unit of a block: none of its characters asks for room.
    'wide: while src.len() - read >= UNIT_BLOCK && dst.len() - written >= 4 * UNIT_BLOCK {
        let (units, bytes) = put_block(&src[read..], &mut dst[written..]);
        read += units;
        written += bytes;
    }
    // As much room for each unit of a vector, by which what is too short for a block goes.
    'lanes: while src.len() - read >= UNIT_LANES && dst.len() - written >= 4 * UNIT_LANES {
        let (units, bytes) = put_lanes(&src[read..], &mut dst[written..]);
        read += units;
        written += bytes;
    }
    // Nor do the last characters ask, if three bytes a unit are left.
    if src.len() - read <= (dst.len() - written) / 3 {
        let (units, bytes) = put_chars(&src[read..], 0, src.len() - read, &mut dst[written..]);
        read += units;
        written += bytes;
    }
    'characters: while let Some((c, count)) = first_of_units(&src[read..]) {
        if dst.len() - written < c.len_utf8() {
            break;
        }
        written += put_char(c, &mut dst[written..]);
        read += count;
    }
    (read, written)
}

/// Converts UTF-16 to UTF-8 at the start of `dst`, and returns how many bytes were written; nothing
/// after them changes. A surrogate in no pair becomes U+FFFD. `dst` has at least three times as
/// many bytes as `src` has units, which a comparison of lengths tests.
pub fn convert_utf16_to_utf8(src: &[u16], dst: &mut [u8]) -> usize
    requires { 3 * length src.now ≤ length dst.old }
    ensures fits { result ≤ length dst.new }
    ensures text { take result dst.new ≡ units_in_utf8 src.now }
    ensures behind { drop result dst.new ≡ drop result dst.old }
{
    let (_, written) = convert_utf16_to_utf8_partial(src, dst);
    written
}
