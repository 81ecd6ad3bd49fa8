//! UTF-8: validity, and conversions to UTF-16.

ghost use Rattle.std.specs.Prelude.{◌≡◌, ◌↔◌, ◌+◌, ◌<◌, ◌≤◌, IsTrue, length};
ghost use Rattle.std.specs.Str.{IsUtf8};
ghost use Rattle.encoding_mem.specs.Conversions.{text_in_utf16, text_prefix};
ghost use Rattle.encoding_mem.specs.LongestPrefix.{IsLongestPrefix};
ghost use Rattle.encoding_mem.specs.Piece.{text};
ghost use Rattle.encoding_mem.specs.Utf8.{pieces_utf8};
ghost use Rattle.encoding_mem.specs.calls.Writing.{encode_utf16_all};
ghost use Rattle.jillapun_c.specs.Room.{IsPut, WantsRoom};

use crate::status::REFUSED;

/// Returns the length in bytes of the longest prefix that is valid UTF-8 (RFC 3629): it ends before
/// the first malformed sequence.
#[unsafe(no_mangle)]
pub extern "C" fn jillapun_utf8_valid_up_to(buffer: &[u8]) -> usize
    ensures { IsLongestPrefix IsUtf8 buffer.now result }
{
    encoding_mem::utf8_valid_up_to(buffer)
}

/// Whether the bytes are UTF-8.
pub(crate) fn is_text(bytes: &[u8]) -> bool
    ensures { IsTrue result ↔ IsUtf8 bytes.now }
{
    encoding_mem::utf8_valid_up_to(bytes) == bytes.len()
}

/// Converts UTF-8 to UTF-16, with U+FFFD for each malformed sequence, and returns the number of
/// code units written. Required `dst_len`: `src_len` + 1.
#[unsafe(no_mangle)]
pub extern "C" fn jillapun_mem_convert_utf8_to_utf16(src: &[u8], dst: &mut [u16]) -> usize
    ensures converts { length src.now < length dst.old
        → IsPut dst.old (encode_utf16_all (text (pieces_utf8 src.now))) dst.new result }
    ensures refuses { length dst.old ≤ length src.now
        → WantsRoom (1 + length src.now) dst.old dst.new result }
{
    if dst.len() <= src.len() {
        return 1 + src.len();
    }
    encoding_mem::convert_utf8_to_utf16(src, dst)
}

/// Converts UTF-8 to UTF-16, and returns the number of code units written. If `src` is not UTF-8,
/// returns `SIZE_MAX`, and `dst` begins with the text before the first malformed sequence. Required
/// `dst_len`, which is checked first: `src_len`.
#[unsafe(no_mangle)]
pub extern "C" fn jillapun_mem_convert_utf8_to_utf16_without_replacement(
    src: &[u8],
    dst: &mut [u16],
) -> usize
    ensures counts { IsUtf8 src.now → length src.now ≤ length dst.old
        → result ≡ length (text_in_utf16 src.now) }
    ensures malformed { ¬ (IsUtf8 src.now) → length src.now ≤ length dst.old
        → result ≡ REFUSED }
    ensures converts { length src.now ≤ length dst.old
        → let units = text_in_utf16 (text_prefix src.now) in
        IsPut dst.old units dst.new (length units) }
    ensures refuses { length dst.old < length src.now
        → WantsRoom (length src.now) dst.old dst.new result }
{
    if dst.len() < src.len() {
        return src.len();
    }
    match encoding_mem::convert_utf8_to_utf16_without_replacement(src, dst) {
        Some(written) => written,
        None => REFUSED,
    }
}

/// The same as `jillapun_mem_convert_utf8_to_utf16_without_replacement`.
#[unsafe(no_mangle)]
pub extern "C" fn jillapun_mem_convert_str_to_utf16(src: &[u8], dst: &mut [u16]) -> usize
    ensures counts { IsUtf8 src.now → length src.now ≤ length dst.old
        → result ≡ length (text_in_utf16 src.now) }
    ensures malformed { ¬ (IsUtf8 src.now) → length src.now ≤ length dst.old
        → result ≡ REFUSED }
    ensures converts { length src.now ≤ length dst.old
        → let units = text_in_utf16 (text_prefix src.now) in
        IsPut dst.old units dst.new (length units) }
    ensures refuses { length dst.old < length src.now
        → WantsRoom (length src.now) dst.old dst.new result }
{
    jillapun_mem_convert_utf8_to_utf16_without_replacement(src, dst)
}
