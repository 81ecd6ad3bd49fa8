//! A function of a user, whose contract says where an input that comes in two parts is first
//! malformed.

ghost use Rattle.std.specs.Prelude.{◌++◌, length};
ghost use Rattle.encoding_front.specs.Encodings.{IsReady};
ghost use Rattle.encoding_front.specs.Marks.{marked_pieces};
ghost use Rattle.encoding_front.specs.declared.mark.Mark.{Mark};
ghost use Rattle.test_examples.specs.FirstFaults.{TellsFirstFault};

use encoding_front::{DecoderResult, Encoding};
use encoding_tables::Tables;

/// What was found of an input.
#[derive(Clone, Copy, Debug)]
pub(crate) enum FirstFault {
    /// Nothing in it is malformed.
    Absent,
    /// A malformed sequence of `length` bytes stands at `offset`, and none stands before it.
    At { offset: usize, length: u8 },
    /// The room was too small: text before any malformed sequence leaves fewer than 4 bytes of it.
    Unknown,
}

/// Finds the first malformed sequence of an input that comes in two parts. The offset is one in the
/// whole input, its byte order mark counted, also if the sequence begins in the first part and ends
/// in the second.
///
/// `Malformed` says how many bytes the sequence has, and how many were read after it. So its offset
/// is the number of all bytes that were read, less both. Room for 4 bytes more than the whole text
/// has in UTF-8 is always enough. The condition is tested by `is_ready`.
pub(crate) fn find_first_fault(
    tables: &Tables,
    encoding: Encoding,
    first: &[u8],
    second: &[u8],
    room: &mut [u8],
) -> FirstFault
    requires { IsReady tables.now encoding }
    ensures { TellsFirstFault (length room.old) result
        (marked_pieces tables.now Mark.Sniff encoding (first.now ++ second.now)) }
{
    let mut decoder = encoding.new_decoder(tables);
    let (result, read, _) = decoder.decode_to_utf8_without_replacement(first, room, false);
    match result {
        DecoderResult::InputEmpty => {}
        DecoderResult::OutputFull => return FirstFault::Unknown,
        DecoderResult::Malformed(length, more) => {
            let offset = read - more as usize - length as usize;
            return FirstFault::At { offset, length };
        }
    }
    let (result, read, _) = decoder.decode_to_utf8_without_replacement(second, room, true);
    match result {
        DecoderResult::InputEmpty => FirstFault::Absent,
        DecoderResult::OutputFull => FirstFault::Unknown,
        DecoderResult::Malformed(length, more) => {
            let offset = first.len() + read - more as usize - length as usize;
            FirstFault::At { offset, length }
        }
    }
}
