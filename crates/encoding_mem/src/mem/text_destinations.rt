//! Conversions to UTF-8 in a destination that is text before the call and after it.

ghost use Rattle.std.specs.Prelude.{◌≡◌, ℕ, ◌*◌, ◌≤◌, true, List, length, take, drop};
ghost use Rattle.std.specs.Prelude.{encode_utf8_all};
ghost use Rattle.std.specs.Str.{IsUtf8, all_scalars};
ghost use Rattle.encoding_mem.specs.Conversions.{IsLongest, IsUnitBoundary, units_in_utf8};
ghost use Rattle.encoding_mem.specs.calls.TextDestination.{cleared};

use crate::mem::latin1_conversions::convert_latin1_to_utf8_partial;
use crate::mem::utf16_conversions::convert_utf16_to_utf8_partial;

// Sets the continuation bytes at the start to 00.
fn clear_prefix(bytes: &mut [u8])
    ensures { bytes.new ≡ cleared bytes.old }
{
    let mut offset = 0;
    'bytes: while offset < bytes.len() && bytes[offset] >= 0x80 && bytes[offset] <= 0xBF {
        bytes[offset] = 0;
        offset += 1;
    }
}

/// Clears what stands after the first `written` bytes of a destination that was a text before these
/// were overwritten: the continuation bytes there, of a character whose first bytes are gone,
/// become 00. So the whole is a text again if what was written is one; nothing else changes. The
/// condition, that `written` is at most the length of `dst`, is tested by comparing.
pub fn clear_behind(dst: &mut [u8], written: usize)
    requires { written ≤ length dst.old }
    ensures prefix { take written dst.new ≡ take written dst.old }
    ensures behind { drop written dst.new ≡ cleared (drop written dst.old) }
    ensures utf8 { (text before : List ℕ) → all_scalars text ≡ true → IsUtf8 before → take written dst.old ≡ encode_utf8_all text
        → drop written dst.old ≡ drop written before → IsUtf8 dst.new }
{
    clear_prefix(&mut dst[written..]);
}

/// Converts the longest prefix of UTF-16 whose UTF-8 fits into a text, which stays one, and returns
/// how many units were read and how many bytes were written. No pair is split; a surrogate in no
/// pair of `src` becomes U+FFFD. If a character of `dst` is overwritten in part, its other bytes
/// become 00.
///
/// The condition is that `dst` is well-formed UTF-8, which `utf8_valid_up_to(dst) == dst.len()`
/// tests.
pub fn convert_utf16_to_str_partial(src: &[u16], dst: &mut [u8]) -> (usize, usize)
    requires { IsUtf8 dst.old }
    ensures longest { IsLongest (IsUnitBoundary src.now) (λ i. length (units_in_utf8 (take i src.now)))
        (length src.now) (length dst.old) result.0 }
    ensures fits { result.1 ≤ length dst.new }
    ensures text { take result.1 dst.new ≡ units_in_utf8 (take result.0 src.now) }
    ensures behind { drop result.1 dst.new ≡ cleared (drop result.1 dst.old) }
    ensures utf8 { IsUtf8 dst.new }
{
    let (read, written) = convert_utf16_to_utf8_partial(src, dst);
    clear_behind(dst, written);
    (read, written)
}

/// Converts UTF-16 to UTF-8 at the start of a text, which stays one, and returns how many bytes
/// were written. A surrogate in no pair becomes U+FFFD. If a character of `dst` is overwritten in
/// part, its other bytes become 00.
///
/// The conditions are that `dst` is well-formed UTF-8, which `utf8_valid_up_to(dst) == dst.len()`
/// tests, and that it has at least three times as many bytes as `src` has units, which a comparison
/// of lengths tests.
pub fn convert_utf16_to_str(src: &[u16], dst: &mut [u8]) -> usize
    requires utf8 { IsUtf8 dst.old }
    requires room { 3 * length src.now ≤ length dst.old }
    ensures fits { result ≤ length dst.new }
    ensures text { take result dst.new ≡ units_in_utf8 src.now }
    ensures behind { drop result dst.new ≡ cleared (drop result dst.old) }
    ensures utf8 { IsUtf8 dst.new }
{
    let (_, written) = convert_utf16_to_str_partial(src, dst);
    written
}

/// Converts the longest prefix of Latin1 whose UTF-8 fits into a text, which stays one, and returns
/// how many bytes were read and how many were written. If a character of `dst` is overwritten in
/// part, its other bytes become 00.
///
/// The condition is that `dst` is well-formed UTF-8, which `utf8_valid_up_to(dst) == dst.len()`
/// tests.
pub fn convert_latin1_to_str_partial(src: &[u8], dst: &mut [u8]) -> (usize, usize)
    requires { IsUtf8 dst.old }
    ensures longest { IsLongest (λ _. Unit {0}) (λ i. length (encode_utf8_all (take i src.now)))
        (length src.now) (length dst.old) result.0 }
    ensures fits { result.1 ≤ length dst.new }
    ensures text { take result.1 dst.new ≡ encode_utf8_all (take result.0 src.now) }
    ensures behind { drop result.1 dst.new ≡ cleared (drop result.1 dst.old) }
    ensures utf8 { IsUtf8 dst.new }
{
    let (read, written) = convert_latin1_to_utf8_partial(src, dst);
    clear_behind(dst, written);
    (read, written)
}

/// Converts Latin1 to UTF-8 at the start of a text, which stays one, and returns how many bytes
/// were written. If a character of `dst` is overwritten in part, its other bytes become 00.
///
/// The conditions are that `dst` is well-formed UTF-8, which `utf8_valid_up_to(dst) == dst.len()`
/// tests, and that it is at least twice as long as `src`, which a comparison of lengths tests.
pub fn convert_latin1_to_str(src: &[u8], dst: &mut [u8]) -> usize
    requires utf8 { IsUtf8 dst.old }
    requires room { 2 * length src.now ≤ length dst.old }
    ensures fits { result ≤ length dst.new }
    ensures text { take result dst.new ≡ encode_utf8_all src.now }
    ensures behind { drop result dst.new ≡ cleared (drop result dst.old) }
    ensures utf8 { IsUtf8 dst.new }
{
    let (_, written) = convert_latin1_to_str_partial(src, dst);
    written
}
