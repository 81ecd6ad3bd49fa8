//! Conversions from Latin1, whose bytes are scalars, and into it.

ghost use Rattle.std.specs.Prelude.{◌≡◌, ◌*◌, ◌≤◌, [], ◌∷◌, length, take, drop, encode_utf8_all};
ghost use Rattle.std.specs.Str.{chars};
ghost use Rattle.encoding_mem.specs.Conversions.{IsLongest, low_bytes};
ghost use Rattle.encoding_mem.specs.Latin1.{AllLatin1, IsLatin1Text};
ghost use Rattle.encoding_mem.specs.calls.Writing.{Adds};

use crate::mem::ascii_copies::{copy_ascii_run, copy_short_run};

/// Converts Latin1 to UTF-16 at the start of `dst`: each byte is a unit, and nothing after them
/// changes. `dst` has at least as many units as `src` has bytes, which a comparison of lengths
/// tests.
pub fn convert_latin1_to_utf16(src: &[u8], dst: &mut [u16])
    requires { length src.now ≤ length dst.old }
    ensures units { take (length src.now) dst.new ≡ src.now }
    ensures behind { drop (length src.now) dst.new ≡ drop (length src.now) dst.old }
{
    for (i, b) in src.iter().enumerate() {
        dst[i] = *b as u16;
    }
}

/// Takes the low eight bits of each unit of UTF-16, into the start of `dst`; nothing after them
/// changes. If `is_utf16_latin1` holds of `src`, that is its text in Latin1; else, also of
/// surrogates, it is not. `dst` has at least as many bytes as `src` has units, which a comparison
/// of lengths tests.
pub fn convert_utf16_to_latin1_lossy(src: &[u16], dst: &mut [u8])
    requires { length src.now ≤ length dst.old }
    ensures bytes { take (length src.now) dst.new ≡ low_bytes src.now }
    ensures behind { drop (length src.now) dst.new ≡ drop (length src.now) dst.old }
{
    for (i, u) in src.iter().enumerate() {
        dst[i] = (*u % 256) as u8;
    }
}

/// Converts UTF-8 to Latin1 at the start of `dst`, a byte for each character, and returns how many
/// bytes were written; nothing after them changes.
///
/// The conditions are that `src` is well-formed with no character above U+00FF, which
/// `is_utf8_latin1` tests, and that `dst` is at least as long as `src`, which a comparison of
/// lengths tests.
pub fn convert_utf8_to_latin1_lossy(src: &[u8], dst: &mut [u8]) -> usize
    requires latin1 { IsLatin1Text src.now }
    requires room { length src.now ≤ length dst.old }
    ensures fits { result ≤ length dst.new }
    ensures bytes { take result dst.new ≡ chars src.now }
    ensures behind { drop result dst.new ≡ drop result dst.old }
{
    narrow_text(unsafe { std::str::from_utf8_unchecked(src) }, dst)
}

// The scalars of a text, each as a byte.
pub(crate) fn narrow_text(text: &str, dst: &mut [u8]) -> usize
    requires latin1 { AllLatin1 (chars text.now) }
    requires room { length text.now ≤ length dst.old }
    ensures fits { result ≤ length dst.new }
    ensures bytes { take result dst.new ≡ chars text.now }
    ensures behind { drop result dst.new ≡ drop result dst.old }
{
    let bytes = text.as_bytes();
    let mut read = 0;
    let mut written = 0;
    // A run may change a byte for every two that are left to read. What follows it has at least as
    // many characters, and is written over them.
    'runs: while read < bytes.len() {
        let run = copy_short_run(&bytes[read..], &mut dst[written..]);
        read += run;
        written += run;
        if read < bytes.len() {
            // The UTF-8 of this character has two bytes.
            dst[written] = bytes[read] % 4 * 64 + bytes[read + 1] % 64;
            read += 2;
            written += 1;
        }
    }
    written
}

// Puts a byte of Latin1 that is not ASCII at the start: its UTF-8 has two bytes.
#[inline(always)]
fn put_two_bytes(byte: u8, dst: &mut [u8])
    requires high { 0x80 ≤ byte }
    requires room { 2 ≤ length dst.old }
    ensures { Adds dst.old 0 (encode_utf8_all (byte ∷ [])) dst.new 2 }
{
    dst[1] = 0x80 + byte % 64;
    dst[0] = 0xC0 + byte / 64;
}

/// Converts the longest prefix of Latin1 whose UTF-8 fits into `dst`, and returns how many bytes
/// were read and how many were written; nothing after these changes. The caller goes on with the
/// unread bytes.
pub fn convert_latin1_to_utf8_partial(src: &[u8], dst: &mut [u8]) -> (usize, usize)
    ensures longest { IsLongest (λ _. Unit {0}) (λ i. length (encode_utf8_all (take i src.now)))
        (length src.now) (length dst.old) result.0 }
    ensures fits { result.1 ≤ length dst.new }
    ensures text { take result.1 dst.new ≡ encode_utf8_all (take result.0 src.now) }
    ensures behind { drop result.1 dst.new ≡ drop result.1 dst.old }
{
    let mut read = 0;
    let mut written = 0;
    // As many bytes as surely fit, until no two bytes of room are left.
    'parts: loop {
        let sure = (src.len() - read).min((dst.len() - written) / 2);
        if sure == 0 {
            break;
        }
        written += convert_latin1_to_utf8(&src[read..read + sure], &mut dst[written..]);
        read += sure;
    }
    if read < src.len() && written < dst.len() && src[read] < 0x80 {
        dst[written] = src[read];
        return (read + 1, written + 1);
    }
    (read, written)
}

/// Converts Latin1 to UTF-8 at the start of `dst`, and returns how many bytes were written; nothing
/// after them changes. `dst` is at least twice as long as `src`, which a comparison of lengths
/// tests.
pub fn convert_latin1_to_utf8(src: &[u8], dst: &mut [u8]) -> usize
    requires { 2 * length src.now ≤ length dst.old }
    ensures fits { result ≤ length dst.new }
    ensures text { take result dst.new ≡ encode_utf8_all src.now }
    ensures behind { drop result dst.new ≡ drop result dst.old }
{
    let mut read = 0;
    let mut written = 0;
    // A run may change as many bytes as are left to read. What follows it has no fewer, and is
    // written over them.
    'runs: while read < src.len() {
        let run = copy_ascii_run(&src[read..], &mut dst[written..]);
        read += run;
        written += run;
        if read < src.len() {
            put_two_bytes(src[read], &mut dst[written..]);
            read += 1;
            written += 2;
        }
    }
    written
}
