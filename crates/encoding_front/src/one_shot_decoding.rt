//! A whole input at once.

ghost use Rattle.std.specs.Prelude.{◌≡◌, ◌↔◌, ◌<◌, None, Some, length, IfOk, IfSome};
ghost use Rattle.std.specs.Prelude.{encode_utf8_all, string_bytes};
ghost use Rattle.encoding_mem.specs.Piece.{malformed_count};
ghost use Rattle.encoding_mem.specs.declared.codec.room.OutputUnit.TheVariants.{Bytes, Replaced};
ghost use Rattle.encoding_front.specs.Encodings.{IsReady};
ghost use Rattle.encoding_front.specs.Marks.{marked_pieces, marked_text, source_of};
ghost use Rattle.encoding_front.specs.calls.OneShot.{FailsFor, IsDecoded, room_at_start};

use crate::decoder::{Decoder, StreamDecoder};
use crate::encoding::Encoding;
use crate::mark::Mark;
use crate::one_shot_fault::OneShotFault;
use encoding_mem::DecoderResult;
use encoding_tables::Tables;
use std::alloc::Global;

impl Encoding {
    /// Decodes a whole input, from which any of the three byte order marks is skipped, by the
    /// encoding of the mark or else by this one (the Encoding Standard, section 6, "decode").
    /// Returns the text, with U+FFFD for each malformed sequence, the encoding that it was decoded
    /// by, and whether there was a malformed sequence.
    ///
    /// `Overflow` is returned if the room that a new decoder asks for passes a `usize`, `Memory` if
    /// that room was refused. The condition, that the indexes of this encoding are in `tables`, is
    /// tested by `is_ready`.
    pub fn decode(
        self,
        alloc: Global,
        tables: &Tables,
        bytes: &[u8],
    ) -> Result<(String, Encoding, bool), OneShotFault>
        requires { IsReady tables.now self }
        ensures text { IfOk result (λ r. IsDecoded tables.now Mark.Sniff self bytes.now
            (string_bytes r.0) r.2) }
        ensures encoding { IfOk result (λ r. r.1 ≡ (source_of Mark.Sniff self bytes.now).0) }
        ensures fault { FailsFor
            (room_at_start Mark.Sniff self Replaced (length bytes.now)) result }
    {
        self.decode_behind_bom(Mark::Sniff, alloc, tables, bytes)
    }

    /// Decodes a whole input by this encoding, and skips its own byte order mark if the input
    /// begins with it (for UTF-8: the Encoding Standard, section 6, "UTF-8 decode"). Returns the
    /// text, with U+FFFD for each malformed sequence, and whether there was one.
    ///
    /// `Overflow` is returned if the room that a new decoder asks for passes a `usize`, `Memory` if
    /// that room was refused. The condition, that the indexes of this encoding are in `tables`, is
    /// tested by `is_ready`.
    pub fn decode_with_bom_removal(
        self,
        alloc: Global,
        tables: &Tables,
        bytes: &[u8],
    ) -> Result<(String, bool), OneShotFault>
        requires { IsReady tables.now self }
        ensures text { IfOk result (λ r. IsDecoded tables.now Mark.Remove self bytes.now
            (string_bytes r.0) r.1) }
        ensures fault { FailsFor
            (room_at_start Mark.Remove self Replaced (length bytes.now)) result }
    {
        let (text, _, had_errors) = self.decode_behind_bom(Mark::Remove, alloc, tables, bytes)?;
        Ok((text, had_errors))
    }

    /// Decodes a whole input by this encoding, to which a byte order mark is text (for UTF-8: the
    /// Encoding Standard, section 6, "UTF-8 decode without BOM"). Returns the text, with U+FFFD for
    /// each malformed sequence, and whether there was one.
    ///
    /// `Overflow` is returned if the room that a new decoder asks for passes a `usize`, `Memory` if
    /// that room was refused. The condition, that the indexes of this encoding are in `tables`, is
    /// tested by `is_ready`.
    pub fn decode_without_bom_handling(
        self,
        alloc: Global,
        tables: &Tables,
        bytes: &[u8],
    ) -> Result<(String, bool), OneShotFault>
        requires { IsReady tables.now self }
        ensures text { IfOk result (λ r. IsDecoded tables.now Mark.Keep self bytes.now
            (string_bytes r.0) r.1) }
        ensures fault { FailsFor (room_at_start Mark.Keep self Replaced (length bytes.now)) result }
    {
        let (text, _, had_errors) = self.decode_behind_bom(Mark::Keep, alloc, tables, bytes)?;
        Ok((text, had_errors))
    }

    /// Decodes a whole input by this encoding, to which a byte order mark is text, unless a
    /// sequence is malformed (for UTF-8: the Encoding Standard, section 6, "UTF-8 decode without
    /// BOM or fail"). Returns the text, or `None` if there is a malformed sequence.
    ///
    /// `Overflow` is returned if the room that a new decoder asks for without replacement passes a
    /// `usize`, `Memory` if that room was refused. The condition, that the indexes of this encoding
    /// are in `tables`, is tested by `is_ready`.
    pub fn decode_without_bom_handling_and_without_replacement(
        self,
        alloc: Global,
        tables: &Tables,
        bytes: &[u8],
    ) -> Result<Option<String>, OneShotFault>
        requires { IsReady tables.now self }
        ensures text { IfOk result (λ r. IfSome r (λ text. string_bytes text
            ≡ encode_utf8_all (marked_text tables.now Mark.Keep self bytes.now))) }
        ensures malformed { IfOk result (λ r. (r ≡ None)
            ↔ (0 < malformed_count (marked_pieces tables.now Mark.Keep self bytes.now))) }
        ensures fault { FailsFor (room_at_start Mark.Keep self Bytes (length bytes.now)) result }
    {
        let mut decoder = self.new_decoder_without_bom_handling(tables);
        let room = decoder.max_utf8_buffer_length_without_replacement(bytes.len());
        let mut text = filled(alloc, room)?;
        let (outcome, _, written) = decoder.decode_to_utf8_without_replacement(
            bytes, &mut text, true,
        );
        if let DecoderResult::Malformed(..) = outcome {
            return Ok(None);
        }
        text.truncate(written);
        Ok(Some(unsafe { String::from_utf8_unchecked(text) }))
    }

    // The text, the encoding in force, and whether there was a malformed sequence.
    fn decode_behind_bom(
        self,
        mark: Mark,
        alloc: Global,
        tables: &Tables,
        bytes: &[u8],
    ) -> Result<(String, Encoding, bool), OneShotFault>
        requires { IsReady tables.now self }
        ensures text { IfOk result (λ r. IsDecoded tables.now mark self bytes.now
            (string_bytes r.0) r.2) }
        ensures encoding { IfOk result (λ r. r.1 ≡ (source_of mark self bytes.now).0) }
        ensures fault { FailsFor (room_at_start mark self Replaced (length bytes.now)) result }
    {
        let mut decoder = Decoder::new(self, mark, Some(tables));
        let room = decoder.max_utf8_buffer_length(bytes.len());
        let mut text = filled(alloc, room)?;
        let (_, _, written, had_errors) = decoder.decode_to_utf8(bytes, &mut text, true);
        text.truncate(written);
        let text = unsafe { String::from_utf8_unchecked(text) };
        Ok((text, decoder.encoding(), had_errors))
    }
}

// So many zeros.
fn filled(alloc: Global, room: Option<usize>) -> Result<Vec<u8>, OneShotFault>
    ensures len { IfOk result (λ v. room ≡ Some (length v.items)) }
    ensures fault { FailsFor room result }
{
    let Some(room) = room else {
        return Err(OneShotFault::Overflow);
    };
    let mut bytes = Vec::new(alloc);
    bytes.resize(room, 0)?;
    Ok(bytes)
}
