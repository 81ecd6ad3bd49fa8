//! A whole text at once.

ghost use Rattle.std.specs.Prelude.{◌≡◌, ◌↔◌, ◌-◌, ◌<◌, ◌≤◌, false, IsTrue, length, IfOk};
ghost use Rattle.std.specs.Prelude.{vec_capacity, vec_len};
ghost use Rattle.std.specs.Str.{chars};
ghost use Rattle.encoding_mem.specs.declared.codec.reference.Reference.TheVariants.{Decimal};
ghost use Rattle.encoding_mem.specs.Coding.{lost_count, output};
ghost use Rattle.encoding_front.specs.calls.Encoder.{queried_with_kept, room_with_reference};
ghost use Rattle.encoding_front.specs.Encodings.{IsReady, coding_of, output_encoding_of};
ghost use Rattle.encoding_front.specs.calls.OneShot.{FailsFor};

use crate::coder_result::CoderResult;
use crate::encoder::Encoder;
use crate::encoding::Encoding;
use crate::one_shot_fault::OneShotFault;
use encoding_tables::Tables;
use std::alloc::Global;

impl Encoding {
    /// Encodes a whole text into the output encoding of this one, with a decimal numeric character
    /// reference for each character without bytes (the Encoding Standard, section 6, "encode").
    /// Returns the bytes, the output encoding, and whether a reference was written.
    ///
    /// `Overflow` is returned if the room that a new encoder asks for with replacement passes a
    /// `usize`; `Memory` if room was refused. The condition, that the indexes of the output
    /// encoding are in `tables`, is tested by `is_ready` of `output_encoding`.
    pub fn encode(
        self,
        alloc: Global,
        tables: &Tables,
        text: &str,
    ) -> Result<(Vec<u8>, Encoding, bool), OneShotFault>
        requires { IsReady tables.now (output_encoding_of self) }
        ensures bytes { IfOk result (λ r. r.0.items
            ≡ output Decimal (coding_of tables.now self) (chars text.now)) }
        ensures encoding { IfOk result (λ r. r.1 ≡ output_encoding_of self) }
        ensures lost { IfOk result (λ r. IsTrue r.2
            ↔ (0 < lost_count (coding_of tables.now self) (chars text.now))) }
        ensures fault { FailsFor
            (queried_with_kept (output_encoding_of self) false (length text.now)) result }
    {
        let mut encoder = self.new_encoder(tables);
        let mut bytes = Vec::new(alloc);
        let mut rest = text;
        let mut has_lost = false;
        'text: loop {
            reserve_for(&encoder, rest.len(), &mut bytes)?;
            let (result, read, lost) = encoder.encode_from_utf8_to_vec(rest, &mut bytes, true);
            has_lost |= lost;
            match result {
                CoderResult::InputEmpty => return Ok((bytes, encoder.encoding(), has_lost)),
                CoderResult::OutputFull => rest = &rest[read..],
            }
        }
    }
}

// Makes room after the bytes for so many bytes of text, if each character of it has bytes.
fn reserve_for(encoder: &Encoder<'_>, len: usize, bytes: &mut Vec<u8>) -> Result<(), OneShotFault>
    ensures items { bytes.new.items ≡ bytes.old.items }
    ensures room { IfOk result (λ _. room_with_reference encoder.now.encoding false len
        ≤ vec_capacity bytes.new - vec_len bytes.new) }
    ensures fault { FailsFor (queried_with_kept encoder.now.encoding false len) result }
{
    match encoder.max_buffer_length_from_utf8_if_no_unmappables(len) {
        Some(room) => Ok(bytes.reserve_exact(room)?),
        None => Err(OneShotFault::Overflow),
    }
}
