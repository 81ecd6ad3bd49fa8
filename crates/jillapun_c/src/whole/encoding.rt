//! A whole text, encoded part by part: straight into the room of the caller, and what does not fit
//! there into room of ours, so that its length is known.

ghost use Rattle.std.specs.Prelude.{◌≡◌, ◌↔◌, ◌<◌, IsTrue};
ghost use Rattle.std.specs.Str.{chars};
ghost use Rattle.encoding_mem.specs.Coding.{lost_count, whole_from};
ghost use Rattle.encoding_mem.specs.declared.codec.reference.Reference.TheVariants.{Decimal};
ghost use Rattle.encoding_front.specs.calls.Encoder.{coding_in};
ghost use Rattle.jillapun_c.specs.Room.{HoldsFront};

use crate::filled::{Filled, PART};
use encoding_front::{CoderResult, Encoder};

/// Encodes all of a text, at the start of `dst` as far as it fits. Returns how far it was put
/// there, and whether a reference was written.
pub(crate) fn encode_whole(encoder: &mut Encoder<'_>, text: &str, dst: &mut [u8]) -> (Filled, bool)
    ensures filled { HoldsFront (whole_from Decimal (coding_in encoder.old) encoder.old.set
        (chars text.now)) dst.old dst.new result.0 }
    ensures lost { IsTrue result.1 ↔ (0 < lost_count (coding_in encoder.old) (chars text.now)) }
{
    let (mut result, read, written, mut has_lost) = encoder.encode_from_utf8(text, dst, true);
    let mut filled = Filled::first(written);
    let mut rest = &text[read..];
    let mut room = [0; PART];
    'parts: while let CoderResult::OutputFull = result {
        let (next, read, written, lost) = encoder.encode_from_utf8(rest, &mut room, true);
        result = next;
        rest = &rest[read..];
        has_lost |= lost;
        filled.add(&room[..written], dst);
    }
    (filled, has_lost)
}
