//! Decoding to UTF-8.

ghost use Rattle.std.specs.Prelude.{◌≡◌, ◌≢◌};
ghost use Rattle.encoding_mem.specs.declared.codec.room.OutputUnit.TheVariants.{Bytes, Replaced};
ghost use Rattle.encoding_front.specs.calls.DecoderCall.{free_bytes};
ghost use Rattle.jillapun_c.specs.DecoderCalls.{DecodesInto, DecodesIntoUpToFault, StandsAsUtf8};
ghost use Rattle.jillapun_c.specs.declared.progress.TheConstants.Progress.{NONE};
ghost use Rattle.jillapun_c.specs.declared.status.TheConstants.{OK};

use crate::decoder::DecoderHandle;
use crate::progress::{Progress, outcome_of, part_outcome_of};
use crate::status::{OK, Status};

/// Decodes the next bytes of a stream to UTF-8, with U+FFFD for each malformed sequence. `last`
/// says that the stream ends with `src`. The output never ends within a character, and `dst` after
/// it is unchanged.
///
/// Returns `OK`, `CLOSED` or `FINISHED`. At `OK` `progress` has the counts and an outcome:
///
/// - `INPUT_EMPTY`: all of `src` was read. Pass the bytes that follow; after `last` the stream has
///   ended.
/// - `OUTPUT_FULL`: fewer than 4 bytes of `dst` are free. Call again with free space, the unread
///   bytes and the same `last`, even if no byte is unread. This does not occur if `dst` has the
///   length that `jillapun_decoder_max_utf8_length` gives.
#[unsafe(no_mangle)]
pub extern "C" fn jillapun_decoder_decode_to_utf8(
    decoder: &mut DecoderHandle,
    src: &[u8],
    dst: &mut [u8],
    last: bool,
    progress: &mut Progress,
) -> Status
    ensures decodes { DecodesInto Replaced StandsAsUtf8 free_bytes decoder.old decoder.new src.now
        last dst.old dst.new progress.new result }
    ensures unchanged { result ≢ OK → (dst.new ≡ dst.old) × (decoder.new ≡ decoder.old) }
    ensures nothing { result ≢ OK → progress.new ≡ NONE }
    ensures tables { decoder.new.tables.tables ≡ decoder.old.tables.tables }
{
    *progress = Progress::NONE;
    let mut opened = match decoder.opened() {
        Ok(opened) => opened,
        Err(status) => return status,
    };
    let (outcome, read, written, had_errors) = opened.decode_to_utf8(src, dst, last);
    decoder.keep(&opened);
    *progress = Progress {
        read,
        written,
        outcome: outcome_of(outcome),
        malformed_length: 0,
        malformed_after: 0,
        had_errors,
    };
    OK
}

/// Like `jillapun_decoder_decode_to_utf8`, but stops after a malformed sequence and writes nothing
/// for it; `jillapun_decoder_max_utf8_length_without_replacement` gives a sufficient length. A
/// further outcome:
///
/// - `MALFORMED`: a sequence of `malformed_length` bytes is malformed. It ends `malformed_after`
///   bytes before the end of the bytes read. 3 bytes of `dst` are free: write U+FFFD or not, and
///   continue as after `OUTPUT_FULL`.
#[unsafe(no_mangle)]
pub extern "C" fn jillapun_decoder_decode_to_utf8_without_replacement(
    decoder: &mut DecoderHandle,
    src: &[u8],
    dst: &mut [u8],
    last: bool,
    progress: &mut Progress,
) -> Status
    ensures decodes { DecodesIntoUpToFault Bytes StandsAsUtf8 free_bytes decoder.old decoder.new
        src.now last dst.old dst.new progress.new result }
    ensures unchanged { result ≢ OK → (dst.new ≡ dst.old) × (decoder.new ≡ decoder.old) }
    ensures nothing { result ≢ OK → progress.new ≡ NONE }
    ensures tables { decoder.new.tables.tables ≡ decoder.old.tables.tables }
{
    *progress = Progress::NONE;
    let mut opened = match decoder.opened() {
        Ok(opened) => opened,
        Err(status) => return status,
    };
    let (outcome, read, written) = opened.decode_to_utf8_without_replacement(src, dst, last);
    decoder.keep(&opened);
    let (outcome, malformed_length, malformed_after) = part_outcome_of(outcome);
    *progress = Progress {
        read,
        written,
        outcome,
        malformed_length,
        malformed_after,
        had_errors: false,
    };
    OK
}
