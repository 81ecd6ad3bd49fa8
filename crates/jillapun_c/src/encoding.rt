//! Encodings: found by a label or a byte order mark (BOM), and their properties.

ghost use Rattle.std.specs.Prelude.{◌≡◌, ◌↔◌, false, IsTrue, MatchOption};
ghost use Rattle.std.specs.Option.{option_map};
ghost use Rattle.encoding_front.specs.EncodingTable.{encoding_name, number_of};
ghost use Rattle.encoding_front.specs.Encodings.{HasLabel, IsUtf8Encoding, mark_at_start};
ghost use Rattle.encoding_front.specs.Encodings.{is_ascii_compatible_of, is_single_byte_of};
ghost use Rattle.encoding_front.specs.Encodings.{output_encoding_of};
ghost use Rattle.encoding_front.specs.declared.encoding.Encoding.{Encoding};
ghost use Rattle.jillapun_c.specs.EncodingNumbers.{IsReadyStatus, Writes, WritesIfAny};
ghost use Rattle.jillapun_c.specs.HeldTables.{held_lists};
ghost use Rattle.jillapun_c.specs.EncodingNumbers.{encoding_at, needed_file};
ghost use Rattle.jillapun_c.specs.declared.status.TheConstants.{NO_ENCODING};

use crate::encoding_number::{encoding_of, number_of};
use crate::status::{NO_ENCODING, NOT_READY, OK, REFUSED, Status, UNKNOWN};
use crate::tables_handle::TablesHandle;
use encoding_front::Encoding;

/// Returns the encoding that has this label, or `NO_ENCODING` if none has ("get an encoding",
/// section 4.2). ASCII whitespace at both ends (0x09, 0x0A, 0x0C, 0x0D, 0x20) and ASCII case are
/// ignored.
#[unsafe(no_mangle)]
pub extern "C" fn jillapun_for_label(label: &[u8]) -> u8
    ensures found { (e : Encoding) → HasLabel e label.now → result ≡ number_of e }
    ensures none { ((e : Encoding) → ¬ (HasLabel e label.now)) → result ≡ NO_ENCODING }
{
    match Encoding::for_label(label) {
        Some(encoding) => number_of(encoding),
        None => NO_ENCODING,
    }
}

/// Like `jillapun_for_label`, but returns `NO_ENCODING` for labels of replacement too. Use it if
/// these are errors, as unknown labels are.
#[unsafe(no_mangle)]
pub extern "C" fn jillapun_for_label_no_replacement(label: &[u8]) -> u8
    ensures found { (e : Encoding) → HasLabel e label.now → ¬ (e ≡ Encoding.Replacement)
        → result ≡ number_of e }
    ensures none { ((e : Encoding) → HasLabel e label.now → e ≡ Encoding.Replacement)
        → result ≡ NO_ENCODING }
{
    match Encoding::for_label_no_replacement(label) {
        Some(encoding) => number_of(encoding),
        None => NO_ENCODING,
    }
}

/// Returns the encoding whose BOM is at the start of `bytes`, and stores the length of the BOM in
/// bytes in `length`; `NO_ENCODING` and 0 if there is none ("BOM sniff", section 6). The BOMs are
/// EF BB BF (UTF-8), FE FF (UTF-16BE) and FF FE (UTF-16LE).
#[unsafe(no_mangle)]
pub extern "C" fn jillapun_for_bom(bytes: &[u8], length: &mut usize) -> u8
    ensures { MatchOption (mark_at_start bytes.now) ((result ≡ NO_ENCODING) × (length.new ≡ 0))
        (λ mark. (result ≡ number_of mark.0) × (length.new ≡ mark.1)) }
{
    match Encoding::for_bom(bytes) {
        Some((encoding, len)) => {
            *length = len;
            number_of(encoding)
        }
        None => {
            *length = 0;
            NO_ENCODING
        }
    }
}

/// Writes the name of an encoding as the Encoding Standard spells it (`Shift_JIS`), without a
/// terminating NUL, and returns its length in bytes, at most 14.
#[unsafe(no_mangle)]
pub extern "C" fn jillapun_name(encoding: u8, name: &mut [u8]) -> usize
    ensures { WritesIfAny (option_map encoding_name (encoding_at encoding)) name.old name.new
        result }
{
    match encoding_of(encoding) {
        Some(encoding) => write_word(encoding.name().as_bytes(), name),
        None => REFUSED,
    }
}

/// Returns the output encoding of an encoding ("get an output encoding", section 4.3): UTF-8 for
/// UTF-16BE, UTF-16LE and replacement, else the encoding itself.
#[unsafe(no_mangle)]
pub extern "C" fn jillapun_output_encoding(encoding: u8) -> u8
    ensures { MatchOption (encoding_at encoding) (result ≡ NO_ENCODING)
        (λ e. result ≡ number_of (output_encoding_of e)) }
{
    match encoding_of(encoding) {
        Some(encoding) => number_of(encoding.output_encoding()),
        None => NO_ENCODING,
    }
}

/// Returns whether every character is one byte: true for the single-byte encodings of section 9 and
/// for x-user-defined (section 14.5).
#[unsafe(no_mangle)]
pub extern "C" fn jillapun_is_single_byte(encoding: u8) -> bool
    ensures { MatchOption (encoding_at encoding) (result ≡ false)
        (λ e. result ≡ is_single_byte_of e) }
{
    match encoding_of(encoding) {
        Some(encoding) => encoding.is_single_byte(),
        None => false,
    }
}

/// Returns whether ASCII characters are encoded as themselves, and bytes below 0x80 decoded as
/// themselves where a character begins: true for all encodings but UTF-16BE, UTF-16LE, replacement
/// and ISO-2022-JP.
#[unsafe(no_mangle)]
pub extern "C" fn jillapun_is_ascii_compatible(encoding: u8) -> bool
    ensures { MatchOption (encoding_at encoding) (result ≡ false)
        (λ e. result ≡ is_ascii_compatible_of e) }
{
    match encoding_of(encoding) {
        Some(encoding) => encoding.is_ascii_compatible(),
        None => false,
    }
}

/// Returns whether the output encoding is UTF-8, which can encode every character (gb18030 cannot:
/// section 10.2.2).
#[unsafe(no_mangle)]
pub extern "C" fn jillapun_can_encode_everything(encoding: u8) -> bool
    ensures { MatchOption (encoding_at encoding) (result ≡ false)
        (λ e. IsTrue result ↔ IsUtf8Encoding (output_encoding_of e)) }
{
    match encoding_of(encoding) {
        Some(encoding) => encoding.can_encode_everything(),
        None => false,
    }
}

/// Writes the file name of an index that the encoding needs, such as `index-jis0208.txt`, without a
/// terminating NUL, and returns its length in bytes, at most 30. `place` is the number of the index
/// among those needed, from 0; the result is 0 if there is none.
#[unsafe(no_mangle)]
pub extern "C" fn jillapun_needs(encoding: u8, place: usize, name: &mut [u8]) -> usize
    ensures { WritesIfAny (needed_file encoding place) name.old name.new result }
{
    let Some(encoding) = encoding_of(encoding) else {
        return REFUSED;
    };
    match encoding.needs().get(place) {
        Some(kind) => write_word(kind.file_name().as_bytes(), name),
        None => 0,
    }
}

/// Checks whether `tables` has all indexes that an encoding needs. UTF-8, UTF-16BE, UTF-16LE,
/// replacement and x-user-defined need none. Returns `OK` if it has them, else `NOT_READY` or
/// `UNKNOWN`.
#[unsafe(no_mangle)]
pub extern "C" fn jillapun_tables_is_ready(tables: TablesHandle, encoding: u8) -> Status
    ensures { IsReadyStatus (held_lists tables.tables) encoding result }
{
    match encoding_of(encoding) {
        Some(encoding) if tables.are_ready(encoding) => OK,
        Some(_) => NOT_READY,
        None => UNKNOWN,
    }
}

// Writes a word at the start of the room.
fn write_word(word: &[u8], room: &mut [u8]) -> usize
    ensures { Writes room.old word.now room.new result }
{
    if room.len() < word.len() {
        return word.len();
    }
    room[..word.len()].copy_from_slice(word);
    word.len()
}
