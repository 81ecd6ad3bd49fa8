//! Encoding UTF-8.

ghost use Rattle.std.specs.Prelude.{◌≡◌, ◌≢◌, [], false};
ghost use Rattle.std.specs.Str.{IsUtf8, chars};
ghost use Rattle.encoding_mem.specs.Conversions.{text_prefix};
ghost use Rattle.encoding_front.specs.calls.Encoder.{ReadsText};
ghost use Rattle.jillapun_c.specs.EncodedTexts.{EncodesBefore, EncodesBeforeUpToLost};
ghost use Rattle.jillapun_c.specs.EncodedTexts.{EncodesFrom, EncodesFromUpToLost};
ghost use Rattle.jillapun_c.specs.TextParts.{BeginsMalformed};
ghost use Rattle.jillapun_c.specs.declared.encoder_progress.TheConstants.EncoderProgress.{NONE};
ghost use Rattle.jillapun_c.specs.declared.status.TheConstants.{NOT_UTF8, OK};

use crate::encoder::handle::EncoderHandle;
use crate::encoder::part::{first_part, most_read};
use crate::encoder_progress::{EncoderProgress, encoder_outcome_of, told_outcome};
use crate::progress::outcome_of;
use crate::status::{CLOSED, NOT_UTF8, OK, Status};

/// Encodes the next part of a text in UTF-8, with a decimal numeric character reference (`&#8364;`)
/// for each unmappable character. `last` says that `text` ends it: then the final escape sequence
/// is written too, and a new text may follow. `dst` after the output is unchanged.
///
/// At `OK` `progress` has the counts and an outcome:
///
/// - `INPUT_EMPTY`: everything was read and written.
/// - `OUTPUT_FULL`: something is left to do. Call again with free space, the unread text and the
///   same `last`, even if no text is unread.
///
/// Errors: `CLOSED`; `NOT_UTF8` if `text` begins with a malformed sequence or an incomplete
/// character.
///
/// 14 bytes of `dst` always suffice to continue: unless the encoding is UTF-8, the last 10 bytes
/// are reserved for a reference.
///
/// End `text` between characters. Text that is not UTF-8 is encoded up to its first malformed
/// sequence: the call that reaches it ends with `OUTPUT_FULL`, whatever the length of `dst`, and
/// the next call, with the unread text, returns `NOT_UTF8`.
///
/// A call examines at most `dst_len` + 7 bytes of `text`, or 4 * `dst_len` + 7 if the encoding is
/// not UTF-8: it takes no longer if more text is passed.
#[unsafe(no_mangle)]
pub extern "C" fn jillapun_encoder_encode_from_utf8(
    encoder: &mut EncoderHandle,
    text: &[u8],
    dst: &mut [u8],
    last: bool,
    progress: &mut EncoderProgress,
) -> Status
    ensures malformed { BeginsMalformed text.now → result ≡ NOT_UTF8 }
    ensures encodes { IsUtf8 text.now → EncodesFrom false chars encoder.old encoder.new text.now
        last dst.old dst.new progress.new result }
    ensures encodes_before { ¬ (IsUtf8 text.now) → text_prefix text.now ≢ []
        → EncodesBefore encoder.old encoder.new text.now dst.old dst.new progress.new result }
    ensures read { result ≡ OK → ReadsText (text_prefix text.now) progress.new.read }
    ensures unchanged { result ≢ OK → (dst.new ≡ dst.old) × (encoder.new ≡ encoder.old) }
    ensures nothing { result ≢ OK → progress.new ≡ NONE }
{
    *progress = EncoderProgress::NONE;
    let most = most_read(encoder, dst.len());
    let Some((part, is_whole)) = first_part(text, most) else {
        return NOT_UTF8;
    };
    let Some(mut opened) = encoder.opened() else {
        return CLOSED;
    };
    let is_last = last & is_whole;
    let (outcome, read, written, had_unmappable) = opened.encode_from_utf8(part, dst, is_last);
    encoder.keep(&opened);
    *progress = EncoderProgress {
        read,
        written,
        outcome: told_outcome(is_whole, outcome_of(outcome)),
        had_unmappable,
        scalar: 0,
    };
    OK
}

/// Like `jillapun_encoder_encode_from_utf8`, but stops after an unmappable character and writes
/// nothing for it. 4 bytes of `dst` always suffice to continue; none are reserved. A further
/// outcome:
///
/// - `UNMAPPABLE`: the last character read is unmappable. Write its numeric character reference, or
///   other printable ASCII without backslash and tilde, and continue as after `OUTPUT_FULL`.
///
/// In ISO-2022-JP the active character set may be Roman, where the bytes of backslash and tilde,
/// 0x5C and 0x7E, are U+00A5 and U+203E; 0x0E, 0x0F and 0x1B are no characters.
#[unsafe(no_mangle)]
pub extern "C" fn jillapun_encoder_encode_from_utf8_without_replacement(
    encoder: &mut EncoderHandle,
    text: &[u8],
    dst: &mut [u8],
    last: bool,
    progress: &mut EncoderProgress,
) -> Status
    ensures malformed { BeginsMalformed text.now → result ≡ NOT_UTF8 }
    ensures encodes { IsUtf8 text.now → EncodesFromUpToLost false chars encoder.old encoder.new
        text.now last dst.old dst.new progress.new result }
    ensures encodes_before { ¬ (IsUtf8 text.now) → text_prefix text.now ≢ [] → EncodesBeforeUpToLost
        encoder.old encoder.new text.now dst.old dst.new progress.new result }
    ensures read { result ≡ OK → ReadsText (text_prefix text.now) progress.new.read }
    ensures unchanged { result ≢ OK → (dst.new ≡ dst.old) × (encoder.new ≡ encoder.old) }
    ensures nothing { result ≢ OK → progress.new ≡ NONE }
{
    *progress = EncoderProgress::NONE;
    let most = most_read(encoder, dst.len());
    let Some((part, is_whole)) = first_part(text, most) else {
        return NOT_UTF8;
    };
    let Some(mut opened) = encoder.opened() else {
        return CLOSED;
    };
    let is_last = last & is_whole;
    let (outcome, read, written) = opened.encode_from_utf8_without_replacement(part, dst, is_last);
    encoder.keep(&opened);
    let (outcome, scalar) = encoder_outcome_of(outcome);
    *progress = EncoderProgress {
        read,
        written,
        outcome: told_outcome(is_whole, outcome),
        had_unmappable: false,
        scalar,
    };
    OK
}
