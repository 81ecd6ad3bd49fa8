//! A function of a user, whose contract says how many characters of a text an encoding lacks.

ghost use Rattle.std.specs.Prelude.{◌≡◌, IfSome};
ghost use Rattle.std.specs.Str.{chars};
ghost use Rattle.encoding_mem.specs.Coding.{lost_count};
ghost use Rattle.encoding_front.specs.Encodings.{IsReady, coding_of, output_encoding_of};

use encoding_front::{EncoderResult, Encoding};
use encoding_tables::Tables;

/// Returns how many characters of a text have no bytes in the output encoding, or `None` if there
/// was no room to encode it in.
///
/// The condition is tested by `is_ready` of the output encoding.
pub(crate) fn count_lost(
    tables: &Tables,
    encoding: Encoding,
    text: &str,
    room: &mut [u8],
) -> Option<usize>
    requires { IsReady tables.now (output_encoding_of encoding) }
    ensures { IfSome result
        (λ n. n ≡ lost_count (coding_of tables.now encoding) (chars text.now)) }
{
    let mut encoder = encoding.new_encoder(tables);
    let mut rest = text;
    let mut lost: usize = 0;
    'turns: for _ in 0..u64::MAX {
        let (result, read, _) = encoder.encode_from_utf8_without_replacement(rest, room, true);
        rest = &rest[read..];
        match result {
            EncoderResult::InputEmpty => return Some(lost),
            EncoderResult::OutputFull => return None,
            EncoderResult::Unmappable(_) => lost = lost.checked_add(1)?,
        }
    }
    None
}
