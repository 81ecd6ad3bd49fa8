//! The encoder that callers use: its calls from text and units, and its queries.

ghost use Rattle.std.specs.Prelude.{◌≡◌, ◌≢◌, ◌↔◌, ◌-◌, ◌≤◌, IsTrue, length, take, drop};
ghost use Rattle.std.specs.Str.{chars, IsCharBoundary};
ghost use Rattle.std.specs.Char.Utf16.{utf16_lossy_chars};
ghost use Rattle.encoding_mem.specs.Coding.{IsCoding};
ghost use Rattle.encoding_mem.specs.Conversions.{IsUnitBoundary};
ghost use Rattle.encoding_mem.specs.calls.DecodedLength.{checked, bound_at};
ghost use Rattle.encoding_mem.specs.calls.EncoderRule.{EncoderCall, EncoderParts, WritesBytes};
ghost use Rattle.encoding_mem.specs.declared.codec.form.EscapeState.TheVariants.{Ascii};

use crate::codec::encoder_result::EncoderResult;

/// An encoder that is fed text in cuts of any size, and writes bytes into room of any size. It
/// reports each character without bytes, and does not write its reference.
///
/// It keeps only the set in force, which ISO-2022-JP alone has. The caller keeps the unread text,
/// which comes first in the next call. `last` says that the text ends with `src`. If such a call
/// returns `InputEmpty`, the encoder is as a new one.
pub trait RawEncoder {
    /// What an encoder is to its callers.
    ghost parts: { Self → EncoderParts };

    /// Encodes text up to the first character without bytes. Returns how the call ended, how many
    /// bytes of `src` were read, and how many bytes of `dst` were written.
    ///
    /// What was read ends between characters, and nothing after what is written changes.
    /// `OutputFull` does not come if `dst` is as long as
    /// `max_buffer_length_from_utf8_without_replacement` returns.
    fn encode_from_utf8_raw(
        &mut self,
        src: &str,
        dst: &mut [u8],
        last: bool,
    ) -> (EncoderResult, usize, usize)
        ensures read { result.1 ≤ length src.now }
        ensures boundary { IsCharBoundary src.now result.1 }
        ensures wrote { WritesBytes dst.old dst.new result.2 }
        ensures call { EncoderCall (parts self.old) (parts self.new) last result.0 (chars src.now)
            (take result.2 dst.new) (chars (drop result.1 src.now)) (length dst.new - result.2) }
        ensures enough { bound_at (parts self.old).limits.bytes (length src.now) ≤ length dst.old
            → result.0 ≢ EncoderResult.OutputFull };

    /// Encodes units of UTF-16 up to the first character without bytes. Returns how the call ended,
    /// how many units of `src` were read, and how many bytes of `dst` were written.
    ///
    /// A surrogate in no pair of `src` is encoded as U+FFFD: the slice is read by itself. What was
    /// read ends at no place between the two units of a pair, and nothing after what is written
    /// changes. `OutputFull` does not come if `dst` is as long as
    /// `max_buffer_length_from_utf16_without_replacement` returns.
    fn encode_from_utf16_raw(
        &mut self,
        src: &[u16],
        dst: &mut [u8],
        last: bool,
    ) -> (EncoderResult, usize, usize)
        ensures read { result.1 ≤ length src.now }
        ensures boundary { IsUnitBoundary src.now result.1 }
        ensures wrote { WritesBytes dst.old dst.new result.2 }
        ensures call { EncoderCall (parts self.old) (parts self.new) last result.0 (utf16_lossy_chars src.now)
            (take result.2 dst.new) (utf16_lossy_chars (drop result.1 src.now)) (length dst.new - result.2) }
        ensures enough { bound_at (parts self.old).limits.units (length src.now) ≤ length dst.old
            → result.0 ≢ EncoderResult.OutputFull };

    /// How many bytes are room enough for what `n` units of UTF-16 are encoded to, and for the last
    /// escape; `None` if the number passes a `usize`. References are not counted.
    fn max_buffer_length_from_utf16_without_replacement(&self, n: usize) -> Option<usize>
        ensures { result ≡ checked (bound_at (parts self.now).limits.units n) };

    /// How many bytes are room enough for what `n` bytes of UTF-8 are encoded to, and for the last
    /// escape; `None` if the number passes a `usize`. References are not counted.
    fn max_buffer_length_from_utf8_without_replacement(&self, n: usize) -> Option<usize>
        ensures { result ≡ checked (bound_at (parts self.now).limits.bytes n) };

    /// Whether an escape to ASCII is still to be written at the end: so only in ISO-2022-JP, if
    /// another set is in force.
    fn has_pending_state(&self) -> bool
        ensures { IsTrue result ↔ ((parts self.now).set ≢ Ascii) };

    /// That no escape and no character has more bytes than `need` of its parts, and what else is
    /// true of every target.
    ghost laws: { (x : Self) → IsCoding (parts x).need (parts x).coding };
}
