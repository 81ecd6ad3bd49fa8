//! UTF-16: validity, and conversions to UTF-8.

ghost use Rattle.std.specs.Prelude.{◌*◌, ◌<◌, ◌≤◌, length};
ghost use Rattle.encoding_mem.specs.Conversions.{units_in_utf8};
ghost use Rattle.encoding_mem.specs.LongestPrefix.{IsLongestPrefix};
ghost use Rattle.encoding_mem.specs.Surrogates.{IsMended, IsUtf16};
ghost use Rattle.jillapun_c.specs.Room.{IsPut, TextIsPut, WantsRoom};

use crate::mem::text_room::clear_rest;

/// Returns the length in code units of the longest prefix that is valid UTF-16: it ends before the
/// first unpaired surrogate.
#[unsafe(no_mangle)]
pub extern "C" fn jillapun_mem_utf16_valid_up_to(buffer: &[u16]) -> usize
    ensures { IsLongestPrefix IsUtf16 buffer.now result }
{
    encoding_mem::utf16_valid_up_to(buffer)
}

/// Replaces each unpaired surrogate with U+FFFD, in place.
#[unsafe(no_mangle)]
pub extern "C" fn jillapun_mem_ensure_utf16_validity(buffer: &mut [u16])
    ensures mended { IsMended buffer.old buffer.new }
    ensures valid { IsUtf16 buffer.new }
{
    encoding_mem::ensure_utf16_validity(buffer);
}

/// Converts UTF-16 to UTF-8, with U+FFFD for each unpaired surrogate, and returns the number of
/// bytes written. Required `dst_len`: 3 times `src_len`.
#[unsafe(no_mangle)]
pub extern "C" fn jillapun_mem_convert_utf16_to_utf8(src: &[u16], dst: &mut [u8]) -> usize
    ensures converts { 3 * length src.now ≤ length dst.old
        → IsPut dst.old (units_in_utf8 src.now) dst.new result }
    ensures refuses { length dst.old < 3 * length src.now
        → WantsRoom (3 * length src.now) dst.old dst.new result }
{
    if dst.len() / 3 < src.len() {
        return 3 * src.len();
    }
    encoding_mem::convert_utf16_to_utf8(src, dst)
}

/// Like `jillapun_mem_convert_utf16_to_utf8`, but keeps `dst` valid UTF-8 (see Texts).
#[unsafe(no_mangle)]
pub extern "C" fn jillapun_mem_convert_utf16_to_str(src: &[u16], dst: &mut [u8]) -> usize
    ensures converts { 3 * length src.now ≤ length dst.old
        → TextIsPut dst.old (units_in_utf8 src.now) dst.new result }
    ensures refuses { length dst.old < 3 * length src.now
        → WantsRoom (3 * length src.now) dst.old dst.new result }
{
    if dst.len() / 3 < src.len() {
        return 3 * src.len();
    }
    let written = encoding_mem::convert_utf16_to_utf8(src, dst);
    clear_rest(dst, written);
    written
}
