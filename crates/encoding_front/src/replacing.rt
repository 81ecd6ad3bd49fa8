//! Encoding with references for characters without bytes, once for both kinds of source.

ghost use Rattle.std.specs.Prelude.{◌≡◌, ◌≢◌, false, ◌+◌, ◌-◌, ◌≤◌, length, take};
ghost use Rattle.encoding_mem.specs.calls.EncoderRule.{WritesBytes, left};
ghost use Rattle.encoding_front.specs.calls.Encoder.{ReplacingEndsWith, Replaces, Turned};
ghost use Rattle.encoding_front.specs.calls.Encoder.{kept_back, room_without_reference};
ghost use Rattle.encoding_front.specs.calls.Encoder.{room_with_reference};

use crate::coder_result::CoderResult;
use crate::encoder::Encoder;
use crate::reference::write_reference;
use encoding_mem::encode::put_all;
use encoding_mem::source::Source;
use encoding_mem::{EncoderResult, Reference};

// One call without replacement into the part of `dst` before `end`, and the reference that it asks
// for, which may reach beyond that part. Returns as the call does, and counts the reference as
// written.
fn encode_turn<S: Source>(
    encoder: &mut Encoder<'_>,
    source: &mut S,
    dst: &mut [u8],
    end: usize,
    last: bool,
) -> (EncoderResult, usize)
    requires { end + kept_back encoder.old.encoding ≡ length dst.old }
    ensures source { S.all source.new ≡ S.all source.old }
    ensures wrote { WritesBytes dst.old dst.new result.1 }
    ensures enough { room_without_reference encoder.old.encoding S.is_units
        (length (S.all source.old) - S.offset source.old) ≤ end
        → result.0 ≢ EncoderResult.OutputFull }
    ensures turn { Turned encoder.old last result.0
        (left S.text (S.all source.old) (S.offset source.old)) (take result.1 dst.new)
        encoder.new (left S.text (S.all source.new) (S.offset source.new)) end }
{
    let (result, written) = encoder.encode_source(source, &mut dst[..end], last);
    match result {
        EncoderResult::Unmappable(c) => {
            let mut bytes = [0; 10];
            let len = write_reference(c, Reference::Decimal, &mut bytes);
            (result, put_all(dst, written, &bytes[..len]))
        }
        _ => (result, written),
    }
}

// How a call that has done what it could ends: whether something is left to do.
fn outcome<S: Source>(encoder: &Encoder<'_>, source: &S, last: bool) -> CoderResult
    ensures { ReplacingEndsWith last result encoder.now.set
        (left S.text (S.all source.now) (S.offset source.now)) }
{
    if source.peek().is_none() && !(last && encoder.has_pending_state()) {
        CoderResult::InputEmpty
    } else {
        CoderResult::OutputFull
    }
}

/// Encodes what is left of a source, and writes a reference for each character without bytes.
/// Returns how the call ended, the bytes written, and whether a reference was written.
pub(crate) fn encode_replacing<S: Source>(
    encoder: &mut Encoder<'_>,
    source: &mut S,
    dst: &mut [u8],
    last: bool,
) -> (CoderResult, usize, bool)
    ensures source { S.all source.new ≡ S.all source.old }
    ensures wrote { WritesBytes dst.old dst.new result.1 }
    ensures call { Replaces encoder.old last result.0
        (left S.text (S.all source.old) (S.offset source.old)) (take result.1 dst.new)
        encoder.new (left S.text (S.all source.new) (S.offset source.new))
        result.2 (length dst.new) }
    ensures enough { room_with_reference encoder.old.encoding S.is_units
        (length (S.all source.old) - S.offset source.old) ≤ length dst.old
        → result.2 ≡ false → result.0 ≢ CoderResult.OutputFull }
{
    let kept = encoder.kept_back();
    if dst.len() < kept {
        return (outcome(encoder, source, last), 0, false);
    }
    let end = dst.len() - kept;
    let mut written = 0;
    let mut has_lost = false;
    'turns: loop {
        let (result, more) = encode_turn(encoder, source, &mut dst[written..], end - written, last);
        written += more;
        match result {
            EncoderResult::InputEmpty => return (CoderResult::InputEmpty, written, has_lost),
            EncoderResult::OutputFull => return (CoderResult::OutputFull, written, has_lost),
            EncoderResult::Unmappable(_) => has_lost = true,
        }
        if end <= written {
            return (outcome(encoder, source, last), written, has_lost);
        }
    }
}
