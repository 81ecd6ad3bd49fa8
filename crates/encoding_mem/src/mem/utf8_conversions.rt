//! Conversions from UTF-8 to UTF-16.

ghost use Rattle.std.specs.Prelude.{◌≡◌, ℕ, ◌+◌, ◌<◌, ◌≤◌, List, ◌∷◌, length, take, drop};
ghost use Rattle.std.specs.Prelude.{MatchOption};
ghost use Rattle.std.specs.Str.{chars, IsUtf8, IsCharBoundary};
ghost use Rattle.std.specs.Str.Lossy.{utf8_valid_len};
ghost use Rattle.encoding_mem.specs.Conversions.{IsLongest, text_in_utf16, text_prefix};
ghost use Rattle.encoding_mem.specs.Piece.{text};
ghost use Rattle.encoding_mem.specs.Utf8.{pieces_utf8};
ghost use Rattle.encoding_mem.specs.calls.Writing.{len_utf16, encode_utf16_all};

use crate::codec::decoder_result::DecoderResult;
use crate::codec::sink::Sink;
use crate::codec::sink_decoder::SinkDecoder;
use crate::codec::source::first_char;
use crate::codec::utf16_sink::Utf16Sink;
use crate::mem::latin1_bytes::is_latin1_text;
use crate::mem::text_units::{put_ascii, put_next, put_run, size_of_lead};
use crate::utf8::decoder::Utf8Decoder;

/// Converts a text to UTF-16 at the start of `dst`, and returns how many units were written;
/// nothing after them changes. `dst` has at least as many units as `src` has bytes, which a
/// comparison of lengths tests.
pub fn convert_str_to_utf16(src: &str, dst: &mut [u16]) -> usize
    requires { length src.now ≤ length dst.old }
    ensures fits { result ≤ length dst.new }
    ensures units { take result dst.new ≡ text_in_utf16 src.now }
    ensures behind { drop result dst.new ≡ drop result dst.old }
{
    let mut read = 0;
    let mut written = 0;
    'runs: while read < src.len() {
        let (more, units) = match size_of_lead(src.as_bytes()[read]) {
            1 => put_ascii(src, read, dst, written),
            2 => put_run(src, read, 2, dst, written),
            3 => put_run(src, read, 3, dst, written),
            _ => put_next(src, read, dst, written),
        };
        read = more;
        written = units;
    }
    written
}

/// Converts UTF-8 to UTF-16 at the start of `dst`, and returns how many units were written, or
/// `None` if `src` is not well-formed: `dst` then begins with the text before the first malformed
/// sequence. Nothing after what is written changes. `dst` has at least as many units as `src` has
/// bytes, which a comparison of lengths tests.
pub fn convert_utf8_to_utf16_without_replacement(src: &[u8], dst: &mut [u16]) -> Option<usize>
    requires { length src.now ≤ length dst.old }
    ensures answer { MatchOption result (¬ (IsUtf8 src.now))
        (λ n. IsUtf8 src.now × (n ≡ length (text_in_utf16 src.now))) }
    ensures fits { length (text_in_utf16 (text_prefix src.now)) ≤ length dst.new }
    ensures units { let units = text_in_utf16 (text_prefix src.now) in take (length units) dst.new ≡ units }
    ensures behind { let count = length (text_in_utf16 (text_prefix src.now)) in drop count dst.new ≡ drop count dst.old }
{
    let text = text_prefix(src);
    let written = convert_str_to_utf16(text, dst);
    if text.len() < src.len() {
        None
    } else {
        Some(written)
    }
}

/// Converts the longest well-formed prefix of UTF-8 whose UTF-16 fits into `dst`, and returns how
/// many bytes were read and how many units were written; nothing after these changes. It ends
/// before the first malformed sequence, if one comes before the room ends.
pub fn convert_utf8_to_utf16_up_to_invalid(src: &[u8], dst: &mut [u16]) -> (usize, usize)
    ensures longest { IsLongest (λ i. IsUtf8 (take i src.now)) (λ i. length (text_in_utf16 (take i src.now)))
        (length src.now) (length dst.old) result.0 }
    ensures fits { result.1 ≤ length dst.new }
    ensures units { take result.1 dst.new ≡ text_in_utf16 (take result.0 src.now) }
    ensures behind { drop result.1 dst.new ≡ drop result.1 dst.old }
{
    let mut sink = Utf16Sink::new(dst);
    let read = put_prefix(text_prefix(src), &mut sink);
    (read, sink.written())
}

/// Converts UTF-8 to UTF-16 at the start of `dst`, with U+FFFD for each malformed sequence, and
/// returns how many units were written; nothing after them changes. `dst` has more units than `src`
/// has bytes, at least one, which a comparison of lengths tests.
pub fn convert_utf8_to_utf16(src: &[u8], dst: &mut [u16]) -> usize
    requires { length src.now < length dst.old }
    ensures fits { result ≤ length dst.new }
    ensures units { take result dst.new ≡ encode_utf16_all (text (pieces_utf8 src.now)) }
    ensures behind { drop result dst.new ≡ drop result dst.old }
{
    // Latin1 needs no tables, which the test of UTF-8 sets up, and well-formed text no decoder.
    if is_latin1_text(src) {
        return convert_str_to_utf16(unsafe { std::str::from_utf8_unchecked(src) }, dst);
    }
    if let Ok(text) = simdutf8::compat::from_utf8(src) {
        return convert_str_to_utf16(text, dst);
    }
    let mut sink = Utf16Sink::new(dst);
    put_replaced(src, &mut sink);
    sink.written()
}

// The longest text at the start.
fn text_prefix(bytes: &[u8]) -> &str
    ensures prefix { result.now ≡ text_prefix bytes.now }
    ensures within { length result.now ≤ length bytes.now }
    ensures longest { (i : ℕ) → utf8_valid_len bytes.now < i → i ≤ length bytes.now → ¬ (IsUtf8 (take i bytes.now)) }
{
    if is_latin1_text(bytes) {
        return unsafe { std::str::from_utf8_unchecked(bytes) };
    }
    match simdutf8::compat::from_utf8(bytes) {
        Ok(text) => text,
        Err(e) => unsafe { std::str::from_utf8_unchecked(&bytes[..e.valid_up_to()]) },
    }
}

// Puts the longest prefix that fits, and returns its length in bytes.
fn put_prefix<'a>(text: &str, sink: &mut Utf16Sink<'a>) -> usize
    ensures boundary { IsCharBoundary text.now result }
    ensures writes { ⟦<Utf16Sink<'a> as Sink>⟧.writes sink.old (chars (take result text.now)) sink.new }
    ensures next { (c : ℕ) (rest : List ℕ) → chars (drop result text.now) ≡ c ∷ rest
        → ⟦<Utf16Sink<'a> as Sink>⟧.free sink.new < len_utf16 c }
{
    let mut read = 0;
    'parts: loop {
        let rest = &text[read..];
        let sure = rest.floor_char_boundary(sink.free_len());
        if sure > 0 {
            sink.put_text(&rest[..sure]);
            read += sure;
            continue;
        }
        match first_char(rest) {
            Some((c, _)) if sink.fits(c) => {
                sink.put(c);
                read += c.len_utf8();
            }
            _ => return read,
        }
    }
}

// Puts the text of bytes, with U+FFFD for each malformed sequence.
fn put_replaced<'a>(src: &[u8], sink: &mut Utf16Sink<'a>)
    requires { length src.now < ⟦<Utf16Sink<'a> as Sink>⟧.free sink.old }
    ensures { ⟦<Utf16Sink<'a> as Sink>⟧.writes sink.old (text (pieces_utf8 src.now)) sink.new }
{
    let mut decoder = Utf8Decoder::new();
    let mut read = 0;
    'parts: loop {
        let (outcome, more) = decoder.decode_into(&src[read..], sink, true);
        read += more;
        match outcome {
            DecoderResult::Malformed(_, _) => sink.put('\u{FFFD}'),
            DecoderResult::InputEmpty => return,
            DecoderResult::OutputFull => unreachable!(),
        }
    }
}
