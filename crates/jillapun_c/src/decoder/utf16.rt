//! Decoding to UTF-16.

ghost use Rattle.std.specs.Prelude.{◌≡◌, ◌≢◌};
ghost use Rattle.encoding_mem.specs.declared.codec.room.OutputUnit.TheVariants.{Units};
ghost use Rattle.encoding_front.specs.calls.DecoderCall.{free_units};
ghost use Rattle.jillapun_c.specs.DecoderCalls.{DecodesInto, DecodesIntoUpToFault, StandsAsUtf16};
ghost use Rattle.jillapun_c.specs.declared.progress.TheConstants.Progress.{NONE};
ghost use Rattle.jillapun_c.specs.declared.status.TheConstants.{OK};

use crate::decoder::DecoderHandle;
use crate::progress::{Progress, outcome_of, part_outcome_of};
use crate::status::{OK, Status};

/// Like `jillapun_decoder_decode_to_utf8`, but writes UTF-16 and never splits a surrogate pair. At
/// `OUTPUT_FULL` fewer than 2 code units of `dst` are free; it does not occur if `dst` has the
/// length that `jillapun_decoder_max_utf16_length` gives.
#[unsafe(no_mangle)]
pub extern "C" fn jillapun_decoder_decode_to_utf16(
    decoder: &mut DecoderHandle,
    src: &[u8],
    dst: &mut [u16],
    last: bool,
    progress: &mut Progress,
) -> Status
    ensures decodes { DecodesInto Units StandsAsUtf16 free_units decoder.old decoder.new src.now
        last dst.old dst.new progress.new result }
    ensures unchanged { result ≢ OK → (dst.new ≡ dst.old) × (decoder.new ≡ decoder.old) }
    ensures nothing { result ≢ OK → progress.new ≡ NONE }
    ensures tables { decoder.new.tables.tables ≡ decoder.old.tables.tables }
{
    *progress = Progress::NONE;
    let mut opened = match decoder.opened() {
        Ok(opened) => opened,
        Err(status) => return status,
    };
    let (outcome, read, written, had_errors) = opened.decode_to_utf16(src, dst, last);
    decoder.keep(&opened);
    *progress = Progress {
        read,
        written,
        outcome: outcome_of(outcome),
        malformed_length: 0,
        malformed_after: 0,
        had_errors,
    };
    OK
}

/// Like `jillapun_decoder_decode_to_utf16`, but stops after a malformed sequence, as
/// `jillapun_decoder_decode_to_utf8_without_replacement` does. At `MALFORMED` a code unit of `dst`
/// is free.
#[unsafe(no_mangle)]
pub extern "C" fn jillapun_decoder_decode_to_utf16_without_replacement(
    decoder: &mut DecoderHandle,
    src: &[u8],
    dst: &mut [u16],
    last: bool,
    progress: &mut Progress,
) -> Status
    ensures decodes { DecodesIntoUpToFault Units StandsAsUtf16 free_units decoder.old decoder.new
        src.now last dst.old dst.new progress.new result }
    ensures unchanged { result ≢ OK → (dst.new ≡ dst.old) × (decoder.new ≡ decoder.old) }
    ensures nothing { result ≢ OK → progress.new ≡ NONE }
    ensures tables { decoder.new.tables.tables ≡ decoder.old.tables.tables }
{
    *progress = Progress::NONE;
    let mut opened = match decoder.opened() {
        Ok(opened) => opened,
        Err(status) => return status,
    };
    let (outcome, read, written) = opened.decode_to_utf16_without_replacement(src, dst, last);
    decoder.keep(&opened);
    let (outcome, malformed_length, malformed_after) = part_outcome_of(outcome);
    *progress = Progress {
        read,
        written,
        outcome,
        malformed_length,
        malformed_after,
        had_errors: false,
    };
    OK
}
