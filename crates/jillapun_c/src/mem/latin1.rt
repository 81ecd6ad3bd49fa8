//! Latin1: checks and conversions. Its bytes are the characters U+0000 to U+00FF.

ghost use Rattle.std.specs.Prelude.{◌≡◌, ◌↔◌, ◌*◌, ◌<◌, ◌≤◌, IsTrue, length, encode_utf8_all};
ghost use Rattle.std.specs.Str.{chars};
ghost use Rattle.encoding_mem.specs.Conversions.{low_bytes};
ghost use Rattle.encoding_mem.specs.Latin1.{AllLatin1, IsLatin1Text};
ghost use Rattle.encoding_mem.specs.LongestPrefix.{IsLongestPrefix};
ghost use Rattle.jillapun_c.specs.Room.{IsPut, TextIsPut, IsUnwritten, WantsRoom};

use crate::mem::text_room::clear_rest;
use crate::status::REFUSED;

/// Returns whether the bytes are UTF-8 without characters above U+00FF.
#[unsafe(no_mangle)]
pub extern "C" fn jillapun_mem_is_utf8_latin1(buffer: &[u8]) -> bool
    ensures { IsTrue result ↔ IsLatin1Text buffer.now }
{
    encoding_mem::is_utf8_latin1(buffer)
}

/// The same as `jillapun_mem_is_utf8_latin1`.
#[unsafe(no_mangle)]
pub extern "C" fn jillapun_mem_is_str_latin1(buffer: &[u8]) -> bool
    ensures { IsTrue result ↔ IsLatin1Text buffer.now }
{
    encoding_mem::is_utf8_latin1(buffer)
}

/// Returns whether no UTF-16 code unit is above 0xFF.
#[unsafe(no_mangle)]
pub extern "C" fn jillapun_mem_is_utf16_latin1(buffer: &[u16]) -> bool
    ensures { IsTrue result ↔ AllLatin1 buffer.now }
{
    encoding_mem::is_utf16_latin1(buffer)
}

/// Returns the length in bytes of the longest prefix that is UTF-8 without characters above U+00FF.
#[unsafe(no_mangle)]
pub extern "C" fn jillapun_mem_utf8_latin1_up_to(buffer: &[u8]) -> usize
    ensures { IsLongestPrefix IsLatin1Text buffer.now result }
{
    encoding_mem::utf8_latin1_up_to(buffer)
}

/// The same as `jillapun_mem_utf8_latin1_up_to`.
#[unsafe(no_mangle)]
pub extern "C" fn jillapun_mem_str_latin1_up_to(buffer: &[u8]) -> usize
    ensures { IsLongestPrefix IsLatin1Text buffer.now result }
{
    encoding_mem::utf8_latin1_up_to(buffer)
}

/// Converts Latin1 to UTF-16, one code unit for each byte, and returns the number of code units
/// written. Required `dst_len`: `src_len`.
#[unsafe(no_mangle)]
pub extern "C" fn jillapun_mem_convert_latin1_to_utf16(src: &[u8], dst: &mut [u16]) -> usize
    ensures count { length src.now ≤ length dst.old → result ≡ length src.now }
    ensures converts { length src.now ≤ length dst.old → IsPut dst.old src.now dst.new result }
    ensures refuses { length dst.old < length src.now
        → WantsRoom (length src.now) dst.old dst.new result }
{
    if dst.len() < src.len() {
        return src.len();
    }
    encoding_mem::convert_latin1_to_utf16(src, dst);
    src.len()
}

/// Writes the low byte of each UTF-16 code unit, and returns the number of bytes written. They are
/// the text in Latin1 only if `jillapun_mem_is_utf16_latin1` returns true for `src`. Required
/// `dst_len`: `src_len`.
#[unsafe(no_mangle)]
pub extern "C" fn jillapun_mem_convert_utf16_to_latin1_lossy(src: &[u16], dst: &mut [u8]) -> usize
    ensures count { length src.now ≤ length dst.old → result ≡ length src.now }
    ensures converts { length src.now ≤ length dst.old
        → IsPut dst.old (low_bytes src.now) dst.new result }
    ensures refuses { length dst.old < length src.now
        → WantsRoom (length src.now) dst.old dst.new result }
{
    if dst.len() < src.len() {
        return src.len();
    }
    encoding_mem::convert_utf16_to_latin1_lossy(src, dst);
    src.len()
}

/// Converts UTF-8 to Latin1, one byte for each character, and returns the number of bytes written;
/// `SIZE_MAX`, with nothing written, if `jillapun_mem_is_utf8_latin1` returns false for `src`.
/// Required `dst_len`, which is checked first: `src_len`.
#[unsafe(no_mangle)]
pub extern "C" fn jillapun_mem_convert_utf8_to_latin1_lossy(src: &[u8], dst: &mut [u8]) -> usize
    ensures converts { IsLatin1Text src.now → length src.now ≤ length dst.old
        → IsPut dst.old (chars src.now) dst.new result }
    ensures not_latin1 { ¬ (IsLatin1Text src.now) → length src.now ≤ length dst.old
        → IsUnwritten dst.old dst.new result }
    ensures refuses { length dst.old < length src.now
        → WantsRoom (length src.now) dst.old dst.new result }
{
    if dst.len() < src.len() {
        return src.len();
    }
    if !encoding_mem::is_utf8_latin1(src) {
        return REFUSED;
    }
    encoding_mem::convert_utf8_to_latin1_lossy(src, dst)
}

/// Converts Latin1 to UTF-8, and returns the number of bytes written. Required `dst_len`: twice
/// `src_len`.
#[unsafe(no_mangle)]
pub extern "C" fn jillapun_mem_convert_latin1_to_utf8(src: &[u8], dst: &mut [u8]) -> usize
    ensures converts { 2 * length src.now ≤ length dst.old
        → IsPut dst.old (encode_utf8_all src.now) dst.new result }
    ensures refuses { length dst.old < 2 * length src.now
        → WantsRoom (2 * length src.now) dst.old dst.new result }
{
    if dst.len() / 2 < src.len() {
        return 2 * src.len();
    }
    encoding_mem::convert_latin1_to_utf8(src, dst)
}

/// Like `jillapun_mem_convert_latin1_to_utf8`, but keeps `dst` valid UTF-8 (see Texts).
#[unsafe(no_mangle)]
pub extern "C" fn jillapun_mem_convert_latin1_to_str(src: &[u8], dst: &mut [u8]) -> usize
    ensures converts { 2 * length src.now ≤ length dst.old
        → TextIsPut dst.old (encode_utf8_all src.now) dst.new result }
    ensures refuses { length dst.old < 2 * length src.now
        → WantsRoom (2 * length src.now) dst.old dst.new result }
{
    if dst.len() / 2 < src.len() {
        return 2 * src.len();
    }
    let written = encoding_mem::convert_latin1_to_utf8(src, dst);
    clear_rest(dst, written);
    written
}
