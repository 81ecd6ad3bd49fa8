//! The encoding driver, tested with a small target that has three character sets.

ghost use Rattle.std.specs.Prelude.{length};
ghost use Rattle.encoding_mem.specs.examples.SampleCoding.{sample_coding, sample_room};
ghost use Rattle.encoding_mem.specs.laws.SampleCoding.{sample_coding_laws, sample_fits};

use encoding_mem::encode::EncoderRule;
use encoding_mem::form::{Bytes, EscapeState, Form};
use encoding_mem::room::{Bound, EncodedLength};
use encoding_mem::source::{Source, Utf8Source, Utf16Source};
use encoding_mem::source_encoder::SourceEncoder;
use encoding_mem::{EncoderResult, RawEncoder};

// The encoder of the small target. Its state is the character set that it is in.
#[derive(Drop)]
struct Sample {
    set: EscapeState,
}

fn new_sample() -> Sample {
    Sample {
        set: EscapeState::Ascii,
    }
}

impl EncoderRule for Sample {
    ghost parts = { λ s. record {
      need = 3;
      coding = sample_coding;
      set = s.set;
      limits = sample_room;
    } };

    ghost laws = { λ _. sample_coding_laws };

    ghost fits = { λ _. sample_fits };

    fn step(&self, from: EscapeState, c: char) -> (EscapeState, Form) {
        let stays = match from {
            EscapeState::Ascii => EscapeState::Ascii,
            EscapeState::Roman => EscapeState::Roman,
            EscapeState::Jis => EscapeState::Ascii,
        };
        let code = c as u32;
        if code == 0xa5 {
            (EscapeState::Roman, Form::Mapped(Bytes::one(0x5c)))
        } else if code == 0x3042 {
            (EscapeState::Jis, Form::Mapped(Bytes::two(0x24, 0x22)))
        } else if code < 0x80 {
            (stays, Form::Mapped(Bytes::one(code as u8)))
        } else {
            (stays, Form::Unmapped(c))
        }
    }

    fn copies_ascii(&self, from: EscapeState) -> bool {
        matches!(from, EscapeState::Ascii | EscapeState::Roman)
    }

    fn copies_utf8(&self, _from: EscapeState) -> bool {
        false
    }

    fn current_set(&self) -> EscapeState {
        self.set
    }

    fn enter(&mut self, next: EscapeState) {
        self.set = next;
    }

    fn encoded_length(&self) -> EncodedLength {
        EncodedLength {
            units: Bound::new(6, 3),
            bytes: Bound::new(6, 3),
        }
    }

    fn escape(&self, from: EscapeState, to: EscapeState) -> Bytes {
        match (from, to) {
            (EscapeState::Ascii, EscapeState::Ascii)
            | (EscapeState::Roman, EscapeState::Roman)
            | (EscapeState::Jis, EscapeState::Jis) => Bytes::none(),
            (_, EscapeState::Ascii) => Bytes::three(0x1b, 0x28, 0x42),
            (_, EscapeState::Roman) => Bytes::three(0x1b, 0x28, 0x4a),
            (_, EscapeState::Jis) => Bytes::three(0x1b, 0x24, 0x42),
        }
    }
}

#[test]
fn escapes_into_tiny_rooms(rt: HostRuntime) {
    let mut encoder = new_sample();
    let mut source = Utf8Source::new("あé¥a");
    let mut dst = [0xff; 4];
    // The room ends between the escape and its character.
    let ended = encoder.encode_from(&mut source, &mut dst[..3], true);
    assert_eq!(rt; ended, (EncoderResult::OutputFull, 3));
    assert_eq!(rt; (source.read(), encoder.set), (0, EscapeState::Jis));
    assert_eq!(rt; dst, [0x1b, 0x24, 0x42, 0xff]);
    // There is no room for the escape that comes before a character without bytes.
    let ended = encoder.encode_from(&mut source, &mut dst, true);
    assert_eq!(rt; ended, (EncoderResult::OutputFull, 2));
    assert_eq!(rt; (source.read(), encoder.set), (3, EscapeState::Jis));
    assert_eq!(rt; dst, [0x24, 0x22, 0x42, 0xff]);
    // Only the escape before the reference is written. The reference itself is left to the caller.
    let ended = encoder.encode_from(&mut source, &mut dst[..3], true);
    assert_eq!(rt; ended, (EncoderResult::Unmappable('é'), 3));
    assert_eq!(rt; (source.read(), encoder.set), (5, EscapeState::Ascii));
    assert_eq!(rt; dst, [0x1b, 0x28, 0x42, 0xff]);
    // An escape and its character are written.
    let ended = encoder.encode_from(&mut source, &mut dst, true);
    assert_eq!(rt; ended, (EncoderResult::OutputFull, 4));
    assert_eq!(rt; (source.read(), encoder.set), (7, EscapeState::Roman));
    assert_eq!(rt; dst, [0x1b, 0x28, 0x4a, 0x5c]);
    // `a` has its ASCII byte in the Roman set, too. There is no room for the final escape.
    let ended = encoder.encode_from(&mut source, &mut dst[..3], true);
    assert_eq!(rt; ended, (EncoderResult::OutputFull, 1));
    assert_eq!(rt; (source.read(), encoder.set), (8, EscapeState::Roman));
    // The final escape is written.
    let ended = encoder.encode_from(&mut source, &mut dst[..3], true);
    assert_eq!(rt; ended, (EncoderResult::InputEmpty, 3));
    assert_eq!(rt; (source.read(), encoder.set), (8, EscapeState::Ascii));
    assert_eq!(rt; dst, [0x1b, 0x28, 0x42, 0x5c]);
}

#[test]
fn escapes_of_units(rt: HostRuntime) {
    let mut encoder = new_sample();
    let units = [0x3042, 0xd83d, 0xdca9, 0x61];
    let mut dst = [0xff; 16];
    let ended = encoder.encode_from_utf16_raw(&units, &mut dst, true);
    assert_eq!(rt; ended, (EncoderResult::Unmappable('💩'), 3, 8));
    assert!(rt; !encoder.has_pending_state());
    // A call that is not the last writes no final escape.
    let ended = encoder.encode_from_utf16_raw(&units[..1], &mut dst, false);
    assert_eq!(rt; ended, (EncoderResult::InputEmpty, 1, 5));
    assert!(rt; encoder.has_pending_state());
    assert_eq!(rt; encoder.set, EscapeState::Jis);
}

// A source advances by the length that `peek` returns: by one byte, by two bytes, and then by a
// pair of units.
#[test]
fn sources_are_passed_by_what_peek_returns(rt: HostRuntime) {
    let mut source = Utf8Source::new("aé");
    if let Some((_, len)) = source.peek() {
        source.advance_by(len);
    }
    assert_eq!(rt; (source.read(), source.peek()), (1, Some(('é', 2))));
    if let Some((_, len)) = source.peek() {
        source.advance_by(len);
    }
    assert_eq!(rt; (source.read(), source.peek()), (3, None));
    let mut source = Utf16Source::new(&[0xD83D, 0xDCA9, 0x41]);
    if let Some((_, len)) = source.peek() {
        source.advance_by(len);
    }
    assert_eq!(rt; (source.read(), source.peek()), (2, Some(('A', 1))));
}
