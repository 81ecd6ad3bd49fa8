//! ASCII: checks and copies, in bytes and UTF-16 code units.

ghost use Rattle.std.specs.Prelude.{◌↔◌, ◌<◌, ◌≤◌, IsTrue, length, take};
ghost use Rattle.std.specs.Str.{IsAscii};
ghost use Rattle.encoding_mem.specs.Iso2022JpAscii.{IsIso2022JpAscii};
ghost use Rattle.encoding_mem.specs.LongestPrefix.{IsLongestPrefix};
ghost use Rattle.jillapun_c.specs.Room.{IsPut, WantsRoom};

/// Returns whether all bytes are ASCII: below 0x80.
#[unsafe(no_mangle)]
pub extern "C" fn jillapun_mem_is_ascii(buffer: &[u8]) -> bool
    ensures { IsTrue result ↔ IsAscii buffer.now }
{
    encoding_mem::is_ascii(buffer)
}

/// Returns whether all UTF-16 code units are ASCII: below 0x80.
#[unsafe(no_mangle)]
pub extern "C" fn jillapun_mem_is_basic_latin(buffer: &[u16]) -> bool
    ensures { IsTrue result ↔ IsAscii buffer.now }
{
    encoding_mem::is_basic_latin(buffer)
}

/// Returns the length in bytes of the longest ASCII prefix.
#[unsafe(no_mangle)]
pub extern "C" fn jillapun_ascii_valid_up_to(buffer: &[u8]) -> usize
    ensures { IsLongestPrefix IsAscii buffer.now result }
{
    encoding_mem::ascii_valid_up_to(buffer)
}

/// Returns the length in bytes of the longest prefix that ISO-2022-JP, at the start of an input,
/// decodes as ASCII: it ends before the first byte that is 0x0E, 0x0F, 0x1B or not ASCII (section
/// 12.2.1).
#[unsafe(no_mangle)]
pub extern "C" fn jillapun_iso_2022_jp_ascii_valid_up_to(buffer: &[u8]) -> usize
    ensures { IsLongestPrefix IsIso2022JpAscii buffer.now result }
{
    encoding_mem::iso_2022_jp_ascii_valid_up_to(buffer)
}

/// Copies the longest ASCII prefix of `src` and returns its length in bytes. Required `dst_len`:
/// `src_len`.
#[unsafe(no_mangle)]
pub extern "C" fn jillapun_mem_copy_ascii_to_ascii(src: &[u8], dst: &mut [u8]) -> usize
    ensures prefix { length src.now ≤ length dst.old → IsLongestPrefix IsAscii src.now result }
    ensures copies { length src.now ≤ length dst.old
        → IsPut dst.old (take result src.now) dst.new result }
    ensures refuses { length dst.old < length src.now
        → WantsRoom (length src.now) dst.old dst.new result }
{
    if dst.len() < src.len() {
        return src.len();
    }
    encoding_mem::copy_ascii_to_ascii(src, dst)
}

/// Copies the longest ASCII prefix of `src`, each byte as a UTF-16 code unit, and returns its
/// length. Required `dst_len`: `src_len`.
#[unsafe(no_mangle)]
pub extern "C" fn jillapun_mem_copy_ascii_to_basic_latin(src: &[u8], dst: &mut [u16]) -> usize
    ensures prefix { length src.now ≤ length dst.old → IsLongestPrefix IsAscii src.now result }
    ensures copies { length src.now ≤ length dst.old
        → IsPut dst.old (take result src.now) dst.new result }
    ensures refuses { length dst.old < length src.now
        → WantsRoom (length src.now) dst.old dst.new result }
{
    if dst.len() < src.len() {
        return src.len();
    }
    encoding_mem::copy_ascii_to_basic_latin(src, dst)
}

/// Copies the longest ASCII prefix of `src`, each UTF-16 code unit as a byte, and returns its
/// length. Required `dst_len`: `src_len`.
#[unsafe(no_mangle)]
pub extern "C" fn jillapun_mem_copy_basic_latin_to_ascii(src: &[u16], dst: &mut [u8]) -> usize
    ensures prefix { length src.now ≤ length dst.old → IsLongestPrefix IsAscii src.now result }
    ensures copies { length src.now ≤ length dst.old
        → IsPut dst.old (take result src.now) dst.new result }
    ensures refuses { length dst.old < length src.now
        → WantsRoom (length src.now) dst.old dst.new result }
{
    if dst.len() < src.len() {
        return src.len();
    }
    encoding_mem::copy_basic_latin_to_ascii(src, dst)
}
