//! The decoder that callers use: its calls into bytes and units, and its queries.

ghost use Rattle.std.specs.Prelude.{◌≢◌, ◌≡◌, ◌+◌, ◌-◌, ◌≤◌, length, drop};
ghost use Rattle.std.specs.Prelude.{encode_utf8_all};
ghost use Rattle.encoding_mem.specs.calls.Writing.{Adds, encode_utf16_all};
ghost use Rattle.encoding_mem.specs.calls.Decoding.{DecoderState, StateCall};
ghost use Rattle.encoding_mem.specs.calls.Decoding.{bytes_room, units_room};
ghost use Rattle.encoding_mem.specs.calls.DecodedLength.{decoded_length, queried};
ghost use Rattle.encoding_mem.specs.declared.codec.room.OutputUnit.TheVariants.{Units, Bytes};
ghost use Rattle.encoding_mem.specs.declared.codec.room.OutputUnit.TheVariants.{Replaced};

use crate::codec::decoder_result::DecoderResult;

/// A decoder that is fed bytes in cuts of any size, and writes text into room of any size. It
/// reports each malformed sequence, and does not replace it.
///
/// It keeps the bytes that are not decided and the mode. The caller keeps the unread bytes, which
/// come first in the next call. `last` says that the stream ends with `src`. No call follows a call
/// with `last` that returned `InputEmpty`.
pub trait RawDecoder {
    /// What contracts say of a decoder: the pieces that the bytes to come will give, how many bytes
    /// are pending, and the room that is enough.
    ghost state: { Self → DecoderState };

    /// Decodes bytes to UTF-8 up to the first malformed sequence. Returns how the call ended, how
    /// many bytes of `src` were read, and how many bytes of `dst` were written.
    ///
    /// A character is never split, and nothing after what is written changes. `OutputFull` does not
    /// come if `dst` is as long as `max_utf8_buffer_length_without_replacement` returns.
    fn decode_to_utf8_raw(
        &mut self,
        src: &[u8],
        dst: &mut [u8],
        last: bool,
    ) -> (DecoderResult, usize, usize)
        ensures call { StateCall (state self.old) (state self.new) src.now last result.1
            (λ text. Adds dst.old 0 (encode_utf8_all text) dst.new result.2)
            (bytes_room (length dst.old) (length (drop result.2 dst.new))) result.0 }
        ensures enough { decoded_length (state self.old).room Bytes ((state self.old).pending + length src.now) ≤ length dst.old
            → result.0 ≢ DecoderResult.OutputFull }
        ensures replaced { decoded_length (state self.old).room Replaced
            ((state self.old).pending + length src.now) ≤ length dst.old
            → result.0 ≢ DecoderResult.OutputFull };

    /// Decodes bytes to UTF-16 up to the first malformed sequence. Returns how the call ended, how
    /// many bytes of `src` were read, and how many units of `dst` were written.
    ///
    /// A surrogate pair is never split, and nothing after what is written changes. `OutputFull`
    /// does not come if `dst` is as long as `max_utf16_buffer_length` returns.
    fn decode_to_utf16_raw(
        &mut self,
        src: &[u8],
        dst: &mut [u16],
        last: bool,
    ) -> (DecoderResult, usize, usize)
        ensures call { StateCall (state self.old) (state self.new) src.now last result.1
            (λ text. Adds dst.old 0 (encode_utf16_all text) dst.new result.2)
            (units_room (length dst.old) (length (drop result.2 dst.new))) result.0 }
        ensures enough { decoded_length (state self.old).room Units ((state self.old).pending + length src.now) ≤ length dst.old
            → result.0 ≢ DecoderResult.OutputFull };

    /// How many units of UTF-16 are room enough for the text of `n` more bytes and of what is
    /// pending, whether malformed sequences are reported or written as U+FFFD; `None` if the number
    /// passes a `usize`.
    fn max_utf16_buffer_length(&self, n: usize) -> Option<usize>
        ensures { result ≡ queried (state self.now).room Units ((state self.now).pending + n) };

    /// How many bytes of UTF-8 are room enough for the text of `n` more bytes and of what is
    /// pending, up to the first malformed sequence, and for one U+FFFD there; `None` if the number
    /// passes a `usize`.
    fn max_utf8_buffer_length_without_replacement(&self, n: usize) -> Option<usize>
        ensures { result ≡ queried (state self.now).room Bytes ((state self.now).pending + n) };

    /// How many bytes of UTF-8 are room enough for the text of `n` more bytes and of what is
    /// pending, with U+FFFD for each malformed sequence; `None` if the number passes a `usize`.
    fn max_utf8_buffer_length(&self, n: usize) -> Option<usize>
        ensures { result ≡ queried (state self.now).room Replaced ((state self.now).pending + n) };

    /// How many bytes are pending: read, but in no piece that is decided. The offset of what comes
    /// next is the number of bytes read so far less this.
    fn pending_len(&self) -> usize
        ensures { result ≡ (state self.now).pending };
}
