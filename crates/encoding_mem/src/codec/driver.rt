//! The decoding driver, one for all rules and destinations: cuts, pending bytes, room, runs of
//! text, pairs of bytes.

ghost use Rattle.std.specs.Prelude.{◌-◌, ◌≡◌, ◌<◌, [], None, Some, false, length};
ghost use Rattle.encoding_mem.specs.Piece.{AreWellFormed};
ghost use Rattle.encoding_mem.specs.calls.Decoding.{Takes, sink_room};
ghost use Rattle.encoding_mem.specs.calls.Driver.{DriverCall, IsNear, IsStep, IsRoomyStep};
ghost use Rattle.encoding_mem.specs.calls.Driver.{PartSuffices, Remains, driver_state};

use crate::codec::decoder_result::DecoderResult;
use crate::codec::first_piece::{DecoderRule, FirstPiece, UNIT_RUN};
use crate::codec::pending::Pending;
use crate::codec::sink::Sink;

// `#[inline(always)]`, here and at rules and sinks in any crate, brings what is done for each piece
// into the loops below: so what a rule returns and what a step did stay in registers. What is rare
// keeps its calls.

// What one step did: nothing, since the piece is not decided, or since it has no room; or it took a
// piece of so many bytes, which is well-formed, or malformed.
enum Step {
    Wait,
    Full,
    Took(usize),
    Broke(usize),
}

// Takes the first piece of these bytes, if it is decided and has room. That it is decided is asked first.
#[inline(always)]
fn take_piece<F: DecoderRule, S: Sink>(
    codec: &mut F,
    bytes: &[u8],
    last: bool,
    sink: &mut S,
) -> Step
    requires { 0 < length bytes.now }
    ensures step { IsStep F.pieces S.writes S.free S.room (S.cost 0xFFFD)
        codec.old codec.new bytes.now last sink.old sink.new result }
    ensures room { IsRoomyStep (F.needs codec.old) (F.needs codec.new) S.is_units last
        (length bytes.now) (S.free sink.old) (S.free sink.new) result }
    ensures limits { F.limits codec.new ≡ F.limits codec.old }
    ensures modes { F.in_mode codec.new ≡ F.in_mode codec.old }
{
    match codec.first_piece(bytes, last) {
        FirstPiece::More => Step::Wait,
        FirstPiece::One(c, n) => {
            if !sink.fits(c) {
                return Step::Full;
            }
            sink.put(c);
            codec.pass(bytes);
            Step::Took(n)
        }
        FirstPiece::Two(c, d, n) => {
            if !sink.has_room() {
                return Step::Full;
            }
            sink.put(c);
            sink.put(d);
            codec.pass(bytes);
            Step::Took(n)
        }
        FirstPiece::Ignored(n) => {
            codec.pass(bytes);
            Step::Took(n)
        }
        FirstPiece::Malformed(n) => {
            if !sink.fits('\u{FFFD}') {
                return Step::Full;
            }
            codec.pass(bytes);
            Step::Broke(n)
        }
    }
}

// Takes pairs of bytes, as long as each is a character from U+0800 to U+FFFF and has room, and the
// single ASCII characters between them, and returns how many bytes they are. Text has words of such
// characters with spaces between them, and no character of it asks for room by itself, or for a run
// of text.
#[inline(always)]
fn take_pairs<F: DecoderRule, S: Sink>(codec: &mut F, src: &[u8], sink: &mut S) -> usize
    ensures law { Takes AreWellFormed (F.pieces codec.old) (F.pieces codec.new)
        src.now false 0 0 result (λ text. S.writes sink.old text sink.new) }
    ensures enough { PartSuffices (F.needs codec.old) (F.needs codec.new) false (length src.now)
        (length src.now - result) (sink_room S.is_units S.free sink.old sink.new) None }
    ensures limits { F.limits codec.new ≡ F.limits codec.old }
    ensures modes { F.in_mode codec.new ≡ F.in_mode codec.old }
{
    if src.is_empty() || !codec.seeks_pairs(src[0]) {
        return 0;
    }
    let mut rest = src;
    // Each has at most three bytes of UTF-8. If units are written, a third of the room would do.
    let mut pairs_left = (src.len() / 2).min(sink.free_len() / 3);
    'pairs: while pairs_left > 0 {
        let pair = &rest[..2];
        match codec.first_piece(pair, false) {
            FirstPiece::One(c, 2) if c >= '\u{800}' && c <= '\u{FFFF}' => {
                sink.put(c);
                codec.pass(pair);
                rest = &rest[2..];
                pairs_left -= 1;
                continue;
            }
            _ if pair[0] < 0x80 && pair[1] >= 0x80 => {}
            _ => break,
        }
        // Asked apart, so that nothing but a pair is tested for in a run of pairs.
        match codec.first_piece(pair, false) {
            FirstPiece::One(c, 1) if c < '\u{80}' => {
                sink.put(c);
                codec.pass(pair);
                rest = &rest[1..];
                pairs_left -= 1;
            }
            _ => break,
        }
    }
    src.len() - rest.len()
}

/// Takes the pieces that begin with what is pending, with as many bytes of the source as they need.
/// Returns how the call ended, if it has, and the bytes read; if not, nothing is pending any more.
#[inline(always)]
pub(crate) fn finish_pending<F: DecoderRule, S: Sink>(
    codec: &mut F,
    pending: &mut Pending,
    src: &[u8],
    sink: &mut S,
    last: bool,
) -> (Option<DecoderResult>, usize)
    requires short { length pending.old < 7 }
    requires near { IsNear (F.pieces codec.old) pending.old }
    ensures call { DriverCall (driver_state F.pieces F.needs codec.old pending.old)
        (driver_state F.pieces F.needs codec.new pending.new) src.now last result.1
        (λ text. S.writes sink.old text sink.new) (sink_room S.is_units S.free sink.old sink.new)
        result.0 }
    ensures limits { F.limits codec.new ≡ F.limits codec.old }
    ensures modes { F.in_mode codec.new ≡ F.in_mode codec.old }
{
    let mut read = 0;
    'pieces: while pending.len() > 0 {
        let at_end = read == src.len();
        match take_piece(codec, pending.as_slice(), last && at_end, sink) {
            Step::Wait => {
                if at_end {
                    return (Some(DecoderResult::InputEmpty), read);
                }
                pending.push(src[read]);
                read += 1;
            }
            Step::Full => return (Some(DecoderResult::OutputFull), read),
            Step::Took(n) => pending.remove_prefix(n),
            Step::Broke(n) => {
                pending.remove_prefix(n);
                let behind = pending.len() as u8;
                return (Some(DecoderResult::Malformed(n as u8, behind)), read);
            }
        }
    }
    (None, read)
}

/// Decodes a source with nothing pending: runs of text as a whole, and what else there is by
/// pieces. Returns how the call ended, and the bytes read.
///
/// `OWN` says whether the sink was detached, and changes nothing that is done. By it each of the
/// two calls below is of a function of its own: in some codecs it is too long to be inlined unless
/// it is called at one place alone, and a call for each run cost them a tenth of their time.
#[inline(always)]
fn decode_pieces<F: DecoderRule, S: Sink, const OWN: bool>(
    codec: &mut F,
    pending: &mut Pending,
    src: &[u8],
    sink: &mut S,
    last: bool,
) -> (DecoderResult, usize)
    requires { pending.old ≡ [] }
    ensures call { DriverCall (driver_state F.pieces F.needs codec.old [])
        (driver_state F.pieces F.needs codec.new pending.new) src.now last result.1
        (λ text. S.writes sink.old text sink.new) (sink_room S.is_units S.free sink.old sink.new)
        (Some result.0) }
    ensures limits { F.limits codec.new ≡ F.limits codec.old }
    ensures modes { F.in_mode codec.new ≡ F.in_mode codec.old }
    ensures waits { Remains (F.pieces codec.new) pending.new }
{
    let mut rest = src;
    'pieces: while !rest.is_empty() {
        let text = codec.text_at(rest, sink.free_len());
        if !text.is_empty() {
            sink.put_text(text);
            rest = &rest[text.len()..];
            continue;
        }
        // Three bytes a unit; if units are written, a third of it would do.
        if sink.free_len() >= 3 * UNIT_RUN {
            let (units, count) = codec.units_at(rest);
            if count > 0 {
                sink.put_units(&units[..count]);
                rest = &rest[2 * count..];
                continue;
            }
        }
        match take_piece(codec, rest, last, sink) {
            Step::Wait => {
                pending.fill(rest);
                return (DecoderResult::InputEmpty, src.len());
            }
            Step::Full => return (DecoderResult::OutputFull, src.len() - rest.len()),
            Step::Took(n) => {
                rest = &rest[n..];
                let pairs = take_pairs(codec, rest, sink);
                rest = &rest[pairs..];
            }
            Step::Broke(n) => {
                let read = src.len() - rest.len() + n;
                return (DecoderResult::Malformed(n as u8, 0), read);
            }
        }
    }
    (DecoderResult::InputEmpty, src.len())
}

/// Decodes a source with nothing pending (`decode_pieces`), for speed by a sink that this call
/// owns, if it can be detached (`Sink::detach`).
#[inline(always)]
pub(crate) fn decode_detached<F: DecoderRule, S: Sink>(
    codec: &mut F,
    pending: &mut Pending,
    src: &[u8],
    sink: &mut S,
    last: bool,
) -> (DecoderResult, usize)
    requires { pending.old ≡ [] }
    ensures call { DriverCall (driver_state F.pieces F.needs codec.old [])
        (driver_state F.pieces F.needs codec.new pending.new) src.now last result.1
        (λ text. S.writes sink.old text sink.new) (sink_room S.is_units S.free sink.old sink.new)
        (Some result.0) }
    ensures limits { F.limits codec.new ≡ F.limits codec.old }
    ensures modes { F.in_mode codec.new ≡ F.in_mode codec.old }
    ensures waits { Remains (F.pieces codec.new) pending.new }
{
    match sink.detach() {
        Some(mut own) => {
            let ended = decode_pieces::<F, S, true>(codec, pending, src, &mut own, last);
            *sink = own;
            ended
        }
        None => decode_pieces::<F, S, false>(codec, pending, src, sink, last),
    }
}
