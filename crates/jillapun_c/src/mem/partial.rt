//! Conversions of as much as fits. Each reports how much was read and written; continue with what
//! is unread.

ghost use Rattle.std.specs.Prelude.{length, take, encode_utf8_all};
ghost use Rattle.std.specs.Str.{IsUtf8};
ghost use Rattle.encoding_mem.specs.Conversions.{IsLongest, IsUnitBoundary};
ghost use Rattle.encoding_mem.specs.Conversions.{text_in_utf16, units_in_utf8};
ghost use Rattle.jillapun_c.specs.Room.{IsPut, TextIsPut};

use crate::mem::text_room::clear_rest;

/// Converts the longest prefix of `src` that is UTF-8 and fits into `dst` as UTF-16: it ends before
/// the first malformed sequence at the latest. `read` is in bytes, `written` in code units. At most
/// 3 bytes of `src` are examined for each code unit of `dst`.
#[unsafe(no_mangle)]
pub extern "C" fn jillapun_mem_convert_utf8_to_utf16_up_to_invalid(
    src: &[u8],
    dst: &mut [u16],
    read: &mut usize,
    written: &mut usize,
)
    ensures longest { IsLongest (λ i. IsUtf8 (take i src.now))
        (λ i. length (text_in_utf16 (take i src.now))) (length src.now) (length dst.old) read.new }
    ensures writes { let units = text_in_utf16 (take read.new src.now) in
        IsPut dst.old units dst.new written.new }
{
    // A unit stands for three bytes at most: no longer prefix fits.
    let end = if src.len() / 3 < dst.len() {
        src.len()
    } else {
        3 * dst.len()
    };
    let (bytes, units) = encoding_mem::convert_utf8_to_utf16_up_to_invalid(&src[..end], dst);
    *read = bytes;
    *written = units;
}

/// Converts the longest prefix of UTF-16 that fits into `dst` as UTF-8, with U+FFFD for each
/// surrogate that is unpaired in `src`. It never ends within a surrogate pair. `read` is in code
/// units, `written` in bytes.
#[unsafe(no_mangle)]
pub extern "C" fn jillapun_mem_convert_utf16_to_utf8_partial(
    src: &[u16],
    dst: &mut [u8],
    read: &mut usize,
    written: &mut usize,
)
    ensures longest { IsLongest (IsUnitBoundary src.now)
        (λ i. length (units_in_utf8 (take i src.now))) (length src.now) (length dst.old) read.new }
    ensures writes { let bytes = units_in_utf8 (take read.new src.now) in
        IsPut dst.old bytes dst.new written.new }
{
    let (units, bytes) = encoding_mem::convert_utf16_to_utf8_partial(src, dst);
    *read = units;
    *written = bytes;
}

/// Converts the longest prefix of Latin1 that fits into `dst` as UTF-8. `read` and `written` are in
/// bytes.
#[unsafe(no_mangle)]
pub extern "C" fn jillapun_mem_convert_latin1_to_utf8_partial(
    src: &[u8],
    dst: &mut [u8],
    read: &mut usize,
    written: &mut usize,
)
    ensures longest { IsLongest (λ _. Unit {0})
        (λ i. length (encode_utf8_all (take i src.now))) (length src.now) (length dst.old)
        read.new }
    ensures writes { let bytes = encode_utf8_all (take read.new src.now) in
        IsPut dst.old bytes dst.new written.new }
{
    let (bytes, more) = encoding_mem::convert_latin1_to_utf8_partial(src, dst);
    *read = bytes;
    *written = more;
}

/// Like `jillapun_mem_convert_utf16_to_utf8_partial`, but keeps `dst` valid UTF-8 (see Texts).
#[unsafe(no_mangle)]
pub extern "C" fn jillapun_mem_convert_utf16_to_str_partial(
    src: &[u16],
    dst: &mut [u8],
    read: &mut usize,
    written: &mut usize,
)
    ensures longest { IsLongest (IsUnitBoundary src.now)
        (λ i. length (units_in_utf8 (take i src.now))) (length src.now) (length dst.old) read.new }
    ensures writes { TextIsPut dst.old (units_in_utf8 (take read.new src.now)) dst.new written.new }
{
    let (count, len) = encoding_mem::convert_utf16_to_utf8_partial(src, dst);
    clear_rest(dst, len);
    *read = count;
    *written = len;
}

/// Like `jillapun_mem_convert_latin1_to_utf8_partial`, but keeps `dst` valid UTF-8 (see Texts).
#[unsafe(no_mangle)]
pub extern "C" fn jillapun_mem_convert_latin1_to_str_partial(
    src: &[u8],
    dst: &mut [u8],
    read: &mut usize,
    written: &mut usize,
)
    ensures longest { IsLongest (λ _. Unit {0})
        (λ i. length (encode_utf8_all (take i src.now))) (length src.now) (length dst.old)
        read.new }
    ensures writes { TextIsPut dst.old (encode_utf8_all (take read.new src.now)) dst.new
        written.new }
{
    let (count, len) = encoding_mem::convert_latin1_to_utf8_partial(src, dst);
    clear_rest(dst, len);
    *read = count;
    *written = len;
}
