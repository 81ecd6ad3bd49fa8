//! Whole inputs: decoding and encoding in one call.

ghost use Rattle.std.specs.Prelude.{◌≡◌, ◌≢◌, IfErr, IfOk, MatchResult, OnErr, false};
ghost use Rattle.std.specs.Str.{IsUtf8};
ghost use Rattle.jillapun_c.specs.Conversions.{IsVerdict};
ghost use Rattle.jillapun_c.specs.HeldTables.{held_lists};
ghost use Rattle.jillapun_c.specs.Room.{IsPut, TextIsPut};
ghost use Rattle.jillapun_c.specs.Whole.{BeginsWithText, DecodesIfReady, DecodesWellFormed};
ghost use Rattle.jillapun_c.specs.Whole.{EncodesIfReady, HasDecoded, HasNotDecoded, IfCanDecode};
ghost use Rattle.jillapun_c.specs.declared.decoded.TheConstants.Decoded.{NONE};
ghost use Rattle.jillapun_c.specs.declared.status.TheConstants.{LOSSY, NOT_UTF8};
ghost use Rattle.jillapun_c.specs.declared.status.TheConstants.{NOT_WELL_FORMED, OK, ROOM};

mod decoding;
mod encoding;

use crate::decoded::{Decoded, source_of};
use crate::encoding_number::{encoding_of, mark_of, number_of};
use crate::mem::text_room::clear_rest;
use crate::mem::utf8::is_text;
use crate::status::{NOT_READY, NOT_UTF8, NOT_WELL_FORMED, Status, UNKNOWN};
use crate::tables_handle::TablesHandle;
use crate::whole::decoding::{Whole, decode_whole};
use crate::whole::encoding::encode_whole;
use encoding_front::{Decoder, Encoder};
use std::str;

/// Decodes a whole input to UTF-8, with U+FFFD for each malformed sequence. `mark` (`SNIFF`,
/// `REMOVE` or `KEEP`) says what happens to a BOM at its start. `dst` after the text is unchanged.
///
/// - `OK`: no sequence was malformed.
/// - `LOSSY`: a malformed sequence was replaced.
/// - `ROOM`: `dst` is too small and holds only the beginning of the text. `decoded` is as after a
///   call with enough space: call again with space for `written` bytes or, if the text `is_own`,
///   use the input.
///
/// Errors: `UNKNOWN`, `NOT_READY`. `decoded` then has `NO_ENCODING` and is otherwise 0.
#[unsafe(no_mangle)]
pub extern "C" fn jillapun_decode(
    tables: TablesHandle,
    encoding: u8,
    mark: u8,
    src: &[u8],
    dst: &mut [u8],
    decoded: &mut Decoded,
) -> Status
    ensures decodes { DecodesIfReady IsPut (held_lists tables.tables) encoding mark src.now dst.old
        dst.new decoded.new result }
    ensures text { IsVerdict result → BeginsWithText dst.new decoded.new.written }
    ensures kept { result ≢ OK → result ≢ LOSSY → result ≢ ROOM → dst.new ≡ dst.old }
    ensures nothing { result ≢ OK → result ≢ LOSSY → result ≢ ROOM → decoded.new ≡ NONE }
{
    match decode_input(tables, encoding, mark, true, src, dst, decoded) {
        Ok(whole) => whole.filled.status(whole.had_errors),
        Err(status) => status,
    }
}

/// Like `jillapun_decode`, but keeps `dst` valid UTF-8 (see Texts).
#[unsafe(no_mangle)]
pub extern "C" fn jillapun_decode_to_str(
    tables: TablesHandle,
    encoding: u8,
    mark: u8,
    src: &[u8],
    dst: &mut [u8],
    decoded: &mut Decoded,
) -> Status
    ensures decodes { DecodesIfReady TextIsPut (held_lists tables.tables) encoding mark src.now
        dst.old dst.new decoded.new result }
    ensures kept { result ≢ OK → result ≢ LOSSY → result ≢ ROOM → dst.new ≡ dst.old }
    ensures nothing { result ≢ OK → result ≢ LOSSY → result ≢ ROOM → decoded.new ≡ NONE }
{
    match decode_input(tables, encoding, mark, true, src, dst, decoded) {
        Ok(whole) => {
            clear_rest(dst, whole.filled.put);
            whole.filled.status(whole.had_errors)
        }
        Err(status) => status,
    }
}

/// Like `jillapun_decode`, but never returns `LOSSY`. A further error is `NOT_WELL_FORMED`, after
/// which `dst` may have been written to.
#[unsafe(no_mangle)]
pub extern "C" fn jillapun_decode_without_replacement(
    tables: TablesHandle,
    encoding: u8,
    mark: u8,
    src: &[u8],
    dst: &mut [u8],
    decoded: &mut Decoded,
) -> Status
    ensures decodes { IfCanDecode (held_lists tables.tables) encoding mark
        (DecodesWellFormed (held_lists tables.tables) src.now dst.old dst.new decoded.new result)
        result }
    ensures kept { result ≢ OK → result ≢ ROOM → result ≢ NOT_WELL_FORMED → dst.new ≡ dst.old }
    ensures nothing { result ≢ OK → result ≢ ROOM → decoded.new ≡ NONE }
{
    match decode_input(tables, encoding, mark, false, src, dst, decoded) {
        Ok(whole) => whole.filled.status(whole.had_errors),
        Err(status) => status,
    }
}

// Decodes a whole input, and reports on it. If malformed sequences are not replaced, the first ends
// it.
fn decode_input(
    tables: TablesHandle,
    encoding: u8,
    mark: u8,
    replaces: bool,
    src: &[u8],
    dst: &mut [u8],
    decoded: &mut Decoded,
) -> Result<Whole, u8>
    ensures decodes { MatchResult result
        (HasDecoded (held_lists tables.tables) encoding mark src.now dst.old dst.new decoded.new)
        (HasNotDecoded (held_lists tables.tables) encoding mark replaces src.now) }
    ensures lossless { replaces ≡ false → IfOk result (λ whole. whole.had_errors ≡ false) }
    ensures refused { IfErr result (λ status. ¬ (IsVerdict status)) }
    ensures kept { IfErr result (λ status. status ≢ NOT_WELL_FORMED → dst.new ≡ dst.old) }
    ensures nothing { OnErr result (decoded.new ≡ NONE) }
{
    *decoded = Decoded::NONE;
    let Some(encoding) = encoding_of(encoding) else {
        return Err(UNKNOWN);
    };
    let Some(mark) = mark_of(mark) else {
        return Err(UNKNOWN);
    };
    if !tables.are_ready(encoding) {
        return Err(NOT_READY);
    }
    let (source, mark_len) = source_of(encoding, mark, src);
    let mut decoder = Decoder::new(encoding, mark, tables.lent());
    let Some(whole) = decode_whole(&mut decoder, replaces, src, &src[mark_len..], dst) else {
        return Err(NOT_WELL_FORMED);
    };
    *decoded = Decoded {
        written: whole.filled.length,
        mark_len,
        encoding: number_of(source),
        is_own: whole.is_own,
    };
    Ok(whole)
}

/// Encodes a whole text in UTF-8 into the output encoding of `encoding` ("encode", section 6), with
/// a decimal numeric character reference (`&#8364;`) for each unmappable character. Stores the
/// length of the output in bytes in `written`, or `SIZE_MAX` if it exceeds a `size_t`. `dst` after
/// the output is unchanged.
///
/// - `OK`: no character was unmappable. One-way mappings are not reported; `jillapun_convert` does
///   that.
/// - `LOSSY`: a reference was written.
/// - `ROOM`: `dst` is too small and holds only the beginning of the output. Call again with space
///   for `written` bytes.
///
/// Errors: `NOT_UTF8`, `UNKNOWN`, `NOT_READY`.
#[unsafe(no_mangle)]
pub extern "C" fn jillapun_encode(
    tables: TablesHandle,
    encoding: u8,
    text: &[u8],
    dst: &mut [u8],
    written: &mut usize,
) -> Status
    ensures text { (¬ (IsUtf8 text.now)) → result ≡ NOT_UTF8 }
    ensures encodes { IsUtf8 text.now → EncodesIfReady (held_lists tables.tables) encoding text.now
        dst.old dst.new written.new result }
    ensures kept { result ≢ OK → result ≢ LOSSY → result ≢ ROOM → dst.new ≡ dst.old }
    ensures nothing { result ≢ OK → result ≢ LOSSY → result ≢ ROOM → written.new ≡ 0 }
{
    *written = 0;
    if !is_text(text) {
        return NOT_UTF8;
    }
    let text = unsafe { str::from_utf8_unchecked(text) };
    let Some(encoding) = encoding_of(encoding) else {
        return UNKNOWN;
    };
    if !tables.are_ready(encoding.output_encoding()) {
        return NOT_READY;
    }
    let mut encoder = Encoder::new(encoding, tables.lent());
    let (filled, has_lost) = encode_whole(&mut encoder, text, dst);
    *written = filled.length;
    filled.status(has_lost)
}
