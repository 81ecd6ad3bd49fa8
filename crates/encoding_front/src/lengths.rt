//! The room that is enough in an encoding, as numbers.

ghost use Rattle.std.specs.Prelude.{◌≡◌, true, false};
ghost use Rattle.encoding_front.specs.calls.CodecBounds.{decoded_length_of, encoded_length_of};
ghost use Rattle.encoding_front.specs.calls.Encoder.{kept_back, queried_room, queried_with_kept};

use crate::codec_kind::CodecKind;
use crate::encoding::Encoding;
use encoding_mem::room::{DecodedLength, EncodedLength};

impl Encoding {
    /// How many bytes are room enough for what `n` bytes of UTF-8 are encoded to without
    /// replacement, and for the last escape; `None` if the number passes a `usize`. References are
    /// not counted.
    pub fn max_length_from_utf8_without_replacement(self, n: usize) -> Option<usize>
        ensures { result ≡ queried_room self false n }
    {
        self.encoded_length().bytes.at(n)
    }

    /// How many bytes are room enough for what `n` units of UTF-16 are encoded to without
    /// replacement, and for the last escape; `None` if the number passes a `usize`. References are
    /// not counted.
    pub fn max_length_from_utf16_without_replacement(self, n: usize) -> Option<usize>
        ensures { result ≡ queried_room self true n }
    {
        self.encoded_length().units.at(n)
    }

    /// How many bytes are room enough for what `n` bytes of UTF-8 are encoded to with replacement,
    /// if each character has bytes; `None` if the number passes a `usize`. It is the number for a
    /// call without replacement, and 10 more for a reference unless the output encoding is UTF-8.
    pub fn max_length_from_utf8_if_no_unmappables(self, n: usize) -> Option<usize>
        ensures { result ≡ queried_with_kept self false n }
    {
        let room = self.max_length_from_utf8_without_replacement(n)?;
        room.checked_add(self.kept_back())
    }

    /// How many bytes are room enough for what `n` units of UTF-16 are encoded to with replacement,
    /// if each character has bytes; `None` if the number passes a `usize`. It is the number for a
    /// call without replacement, and 10 more for a reference unless the output encoding is UTF-8.
    pub fn max_length_from_utf16_if_no_unmappables(self, n: usize) -> Option<usize>
        ensures { result ≡ queried_with_kept self true n }
    {
        let room = self.max_length_from_utf16_without_replacement(n)?;
        room.checked_add(self.kept_back())
    }

    // The bytes that are kept for a reference.
    fn kept_back(self) -> usize
        ensures { result ≡ kept_back self }
    {
        if self.can_encode_everything() { 0 } else { 10 }
    }

    /// The room that is enough for the text of bytes in this encoding.
    pub(crate) fn text_room(self) -> DecodedLength
        ensures { result ≡ decoded_length_of self }
    {
        match self.codec_kind() {
            CodecKind::Utf8 => DecodedLength::utf8(),
            CodecKind::Utf16 { .. } => DecodedLength::utf16(),
            CodecKind::Replacement => DecodedLength::replacement(),
            CodecKind::SingleByte(_) | CodecKind::UserDefined => DecodedLength::single_byte(),
            _ => DecodedLength::multibyte(),
        }
    }

    // The room that is enough for a text in the output encoding.
    fn encoded_length(self) -> EncodedLength
        ensures { result ≡ encoded_length_of self }
    {
        match self.output_encoding().codec_kind() {
            CodecKind::SingleByte(_) | CodecKind::UserDefined => EncodedLength::single_byte(),
            CodecKind::Gb18030 { extended } => {
                if extended {
                    EncodedLength::gb18030()
                } else {
                    EncodedLength::two_byte()
                }
            }
            CodecKind::Iso2022Jp => EncodedLength::iso_2022_jp(),
            CodecKind::Utf8 | CodecKind::Utf16 { .. } | CodecKind::Replacement => {
                EncodedLength::utf8()
            }
            _ => EncodedLength::two_byte(),
        }
    }
}
