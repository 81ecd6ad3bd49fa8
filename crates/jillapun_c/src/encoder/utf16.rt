//! Encoding UTF-16.

ghost use Rattle.std.specs.Prelude.{◌≡◌, ◌≢◌, ◌≤◌, true, length};
ghost use Rattle.std.specs.Char.Utf16.{utf16_lossy_chars};
ghost use Rattle.encoding_mem.specs.Conversions.{IsUnitBoundary};
ghost use Rattle.jillapun_c.specs.EncodedTexts.{EncodesFrom, EncodesFromUpToLost};
ghost use Rattle.jillapun_c.specs.declared.encoder_progress.TheConstants.EncoderProgress.{NONE};
ghost use Rattle.jillapun_c.specs.declared.status.TheConstants.{OK};

use crate::encoder::handle::EncoderHandle;
use crate::encoder_progress::{EncoderProgress, encoder_outcome_of};
use crate::progress::outcome_of;
use crate::status::{CLOSED, OK, Status};

/// Like `jillapun_encoder_encode_from_utf8`, for a text in UTF-16, which is not tested first. An
/// unpaired surrogate is encoded as U+FFFD, so do not end `text` within a surrogate pair; a call
/// never stops within one. The only error is `CLOSED`.
#[unsafe(no_mangle)]
pub extern "C" fn jillapun_encoder_encode_from_utf16(
    encoder: &mut EncoderHandle,
    text: &[u16],
    dst: &mut [u8],
    last: bool,
    progress: &mut EncoderProgress,
) -> Status
    ensures encodes { EncodesFrom true utf16_lossy_chars encoder.old encoder.new text.now last
        dst.old dst.new progress.new result }
    ensures read { result ≡ OK → (progress.new.read ≤ length text.now)
        × IsUnitBoundary text.now progress.new.read }
    ensures unchanged { result ≢ OK → (dst.new ≡ dst.old) × (encoder.new ≡ encoder.old) }
    ensures nothing { result ≢ OK → progress.new ≡ NONE }
{
    *progress = EncoderProgress::NONE;
    let Some(mut opened) = encoder.opened() else {
        return CLOSED;
    };
    let (outcome, read, written, had_unmappable) = opened.encode_from_utf16(text, dst, last);
    encoder.keep(&opened);
    *progress = EncoderProgress {
        read,
        written,
        outcome: outcome_of(outcome),
        had_unmappable,
        scalar: 0,
    };
    OK
}

/// Like `jillapun_encoder_encode_from_utf16`, but stops after an unmappable character, as
/// `jillapun_encoder_encode_from_utf8_without_replacement` does.
#[unsafe(no_mangle)]
pub extern "C" fn jillapun_encoder_encode_from_utf16_without_replacement(
    encoder: &mut EncoderHandle,
    text: &[u16],
    dst: &mut [u8],
    last: bool,
    progress: &mut EncoderProgress,
) -> Status
    ensures encodes { EncodesFromUpToLost true utf16_lossy_chars encoder.old encoder.new text.now
        last dst.old dst.new progress.new result }
    ensures read { result ≡ OK → (progress.new.read ≤ length text.now)
        × IsUnitBoundary text.now progress.new.read }
    ensures unchanged { result ≢ OK → (dst.new ≡ dst.old) × (encoder.new ≡ encoder.old) }
    ensures nothing { result ≢ OK → progress.new ≡ NONE }
{
    *progress = EncoderProgress::NONE;
    let Some(mut opened) = encoder.opened() else {
        return CLOSED;
    };
    let (outcome, read, written) = opened.encode_from_utf16_without_replacement(text, dst, last);
    encoder.keep(&opened);
    let (outcome, scalar) = encoder_outcome_of(outcome);
    *progress = EncoderProgress {
        read,
        written,
        outcome,
        had_unmappable: false,
        scalar,
    };
    OK
}
