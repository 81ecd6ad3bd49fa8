//! Latin1 to text and back, borrowed if nothing changes.

ghost use Rattle.std.specs.Prelude.{◌≡◌, ◌↔◌, ◌+◌, ◌*◌, ◌≤◌, ◌++◌};
ghost use Rattle.std.specs.Prelude.{IfOk, IsOk, encode_utf8_all, length, take};
ghost use Rattle.std.specs.Cow.{cow_str_bytes, IsBorrowedStr};
ghost use Rattle.std.specs.Str.{chars, IsAscii};
ghost use Rattle.encoding_mem.specs.Latin1.{AllLatin1};
ghost use Rattle.encoding_mem.specs.calls.Latin1Texts.{latin1_bytes, AreBorrowed};

use crate::mem::ascii::ascii_prefix;
use crate::mem::latin1_conversions::{convert_latin1_to_utf8, narrow_text};
use std::alloc::{AllocError, Global};
use std::borrow::CowStr;

/// Bytes of Latin1: borrowed from a text, or in memory of their own.
#[derive(Debug, PartialEq, Eq, Drop)]
pub enum Latin1Bytes<'a> {
    /// The bytes of the text itself, which is ASCII.
    Borrowed(&'a [u8]),
    /// New bytes, of a text that is not ASCII.
    Owned(Vec<u8>),
}

// Puts a text, and after it Latin1 in UTF-8, at the start. Returns how many bytes were written.
fn put_both(text: &str, latin1: &[u8], dst: &mut [u8]) -> usize
    requires { length text.now + 2 * length latin1.now ≤ length dst.old }
    ensures fits { result ≤ length dst.new }
    ensures text { take result dst.new ≡ text.now ++ encode_utf8_all latin1.now }
{
    let end = text.len();
    dst[..end].copy_from_slice(text.as_bytes());
    end + convert_latin1_to_utf8(latin1, &mut dst[end..])
}

/// Decodes Latin1 to text: borrowed if the bytes are ASCII, which asks for no memory, and else new.
/// The error is that memory was refused.
pub fn decode_latin1(alloc: Global, bytes: &[u8]) -> Result<CowStr<'_>, AllocError>
    ensures text { IfOk result (λ t. cow_str_bytes t ≡ encode_utf8_all bytes.now) }
    ensures borrowed { IfOk result (λ t. IsBorrowedStr t ↔ IsAscii bytes.now) }
    ensures free { IsAscii bytes.now → IsOk result }
{
    let run = ascii_prefix(bytes);
    if run.len() == bytes.len() {
        return Ok(CowStr::Borrowed(run));
    }
    // Each of the others has two bytes at most.
    let rest = &bytes[run.len()..];
    let mut text = vec![in alloc; 0u8; bytes.len().saturating_add(rest.len())]?;
    let written = put_both(run, rest, &mut text);
    text.truncate(written);
    Ok(CowStr::Owned(unsafe { String::from_utf8_unchecked(text) }))
}

/// Encodes a text as Latin1, a byte for each character: borrowed if it is ASCII, which asks for no
/// memory, and else new. The error is that memory was refused. The condition, that no character is
/// above U+00FF, is tested by `is_str_latin1`.
pub fn encode_latin1_lossy(alloc: Global, text: &str) -> Result<Latin1Bytes<'_>, AllocError>
    requires { AllLatin1 (chars text.now) }
    ensures bytes { IfOk result (λ b. latin1_bytes b ≡ chars text.now) }
    ensures borrowed { IfOk result (λ b. AreBorrowed b ↔ IsAscii text.now) }
    ensures free { IsAscii text.now → IsOk result }
{
    let run = ascii_prefix(text.as_bytes());
    if run.len() == text.len() {
        return Ok(Latin1Bytes::Borrowed(run.as_bytes()));
    }
    let mut bytes = vec![in alloc; 0u8; text.len()]?;
    let count = narrow_text(text, &mut bytes);
    bytes.truncate(count);
    Ok(Latin1Bytes::Owned(bytes))
}
