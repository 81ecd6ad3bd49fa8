//! What an encoder makes of each character, and one driver for all encoders.

ghost use Rattle.std.specs.Prelude.{◌≡◌, ◌≢◌, true, ℕ, ◌+◌, ◌-◌, ◌<◌, ◌≤◌, List, [], ◌∷◌, ◌++◌};
ghost use Rattle.std.specs.Prelude.{length, take, drop};
ghost use Rattle.encoding_mem.specs.Coding.{IsCoding};
ghost use Rattle.encoding_mem.specs.calls.DecodedLength.{bound_at};
ghost use Rattle.encoding_mem.specs.calls.EncodedLength.{IsRoomFor, bound_for};
ghost use Rattle.encoding_mem.specs.declared.codec.room.EncodedLength.{EncodedLength};
ghost use Rattle.encoding_mem.specs.calls.EncoderRule.{CopiesAscii, CopiesUtf8, EncoderCall};
ghost use Rattle.encoding_mem.specs.calls.EncoderRule.{EncoderParts, IsRun, Moves, WritesBytes};
ghost use Rattle.encoding_mem.specs.calls.EncoderRule.{left};
ghost use Rattle.encoding_mem.specs.Stateless.{stateless};
ghost use Rattle.encoding_mem.specs.declared.codec.form.Form.{Form};
ghost use Rattle.encoding_mem.specs.declared.codec.form.Form.TheVariants.{Mapped};
ghost use Rattle.encoding_mem.specs.declared.codec.form.EscapeState.{EscapeState};
ghost use Rattle.encoding_mem.specs.declared.codec.form.EscapeState.TheVariants.{Ascii};

use crate::codec::encoder_result::EncoderResult;
use crate::codec::form::{Bytes, EscapeState, Form};
use crate::codec::room::EncodedLength;
use crate::codec::source::Source;

/// The rule of an encoder: what it makes of each character, its sets, and which of them is in
/// force. How a call reads, writes and stops is the driver's. A type that has one is a
/// `SourceEncoder` and a `RawEncoder`.
pub trait EncoderRule {
    /// What an encoder is to its callers.
    ghost parts: { Self → EncoderParts };

    /// The set in which a character is written after the set `from`, and its bytes there, or the
    /// scalar that is reported.
    fn step(&self, from: EscapeState, c: char) -> (EscapeState, Form)
        ensures set { result.0 ≡ (parts self.now).coding.set from c }
        ensures form { result.1 ≡ (parts self.now).coding.form c };

    /// The bytes of the escape from one set to another: none if they are equal.
    fn escape(&self, from: EscapeState, to: EscapeState) -> Bytes
        ensures { result ≡ (parts self.now).coding.escape from to };

    /// Whether in this set each ASCII character is its own byte and leaves the set as it is, so that a run
    /// of them can be copied.
    fn copies_ascii(&self, from: EscapeState) -> bool
        ensures { result ≡ true → CopiesAscii (parts self.now).coding from };

    /// Whether in this set each character is its UTF-8 and leaves the set as it is, so that a
    /// source can copy its text, or write it in UTF-8, by itself.
    fn copies_utf8(&self, from: EscapeState) -> bool
        ensures { result ≡ true → CopiesUtf8 (parts self.now).coding from };

    /// The set that is in force.
    fn current_set(&self) -> EscapeState
        ensures { result ≡ (parts self.now).set };

    /// Takes `next` as the set in force, if it is one that the driver may leave: the set in force,
    /// ASCII, or a set that some character is written in. Another may be taken or not. Nothing but
    /// the set in force changes.
    fn enter(&mut self, next: EscapeState)
        ensures same { parts self.new ≡ record (parts self.old) { set = (parts self.new).set } }
        ensures set { Moves (parts self.old).coding (parts self.old).set next
            → (parts self.new).set ≡ next };

    /// The numbers by which the length queries are computed.
    fn encoded_length(&self) -> EncodedLength
        ensures { result ≡ (parts self.now).limits };

    /// That no escape and no character has more bytes than `need` of its parts, and what else is
    /// true of every target.
    ghost laws: { (x : Self) → IsCoding (parts x).need (parts x).coding };

    /// The room of the length queries is enough.
    ghost fits: { (x : Self) → IsRoomFor (parts x).coding (parts x).limits };
}

/// The rule of an encoder with one set, in which each ASCII character is its own byte: the bytes of
/// each character. A type that has one is an `EncoderRule`.
pub trait StatelessRule {
    /// The most bytes that a character has.
    ghost need: { Self → ℕ };

    /// The bytes of a scalar, or what is reported in place of one without bytes.
    ghost form: { Self → ℕ → Form };

    /// The numbers by which the length queries are computed.
    ghost limits: { Self → EncodedLength };

    /// The bytes of a character, or the scalar that is reported if it has none.
    fn form_of(&self, c: char) -> Form
        ensures { result ≡ form self.now c };

    /// The numbers by which the length queries are computed.
    fn encoded_length(&self) -> EncodedLength
        ensures { result ≡ limits self.now };

    /// That no character has more than `need` bytes, and what else is true of every target.
    ghost laws: { (x : Self) → IsCoding (need x) (stateless (form x)) };

    /// The room of `limits` is enough.
    ghost fits: { (x : Self) → IsRoomFor (stateless (form x)) (limits x) };

    /// Each ASCII character is its own byte.
    ghost ascii: { (x : Self) (c : ℕ) → c < 0x80 → form x c ≡ Mapped (c ∷ []) };
}

impl<R: StatelessRule> EncoderRule for R {
    ghost parts = { λ x. record {
      need = R.need x;
      coding = stateless (R.form x);
      set = Ascii;
      limits = R.limits x;
    } };

    ghost laws = { R.laws };

    ghost fits = { R.fits };

    #[inline(always)]
    fn step(&self, _from: EscapeState, c: char) -> (EscapeState, Form) {
        (EscapeState::Ascii, self.form_of(c))
    }

    #[inline(always)]
    fn escape(&self, _from: EscapeState, _to: EscapeState) -> Bytes {
        Bytes::none()
    }

    #[inline(always)]
    fn copies_ascii(&self, from: EscapeState) -> bool {
        matches!(from, EscapeState::Ascii)
    }

    #[inline(always)]
    fn copies_utf8(&self, _from: EscapeState) -> bool {
        false
    }

    fn current_set(&self) -> EscapeState {
        EscapeState::Ascii
    }

    fn enter(&mut self, _next: EscapeState) {}

    fn encoded_length(&self) -> EncodedLength {
        StatelessRule::encoded_length(self)
    }
}

// `#[inline(always)]` at targets and sources is for the loop below, as in `driver.rt`.

/// Copies `bytes` to the offset `at` of `dst`, and returns the offset after them. The condition,
/// that there is room, is tested by comparing lengths.
#[inline(always)]
pub fn put_all(dst: &mut [u8], at: usize, bytes: &[u8]) -> usize
    requires { at + length bytes.now ≤ length dst.old }
    ensures end { result ≡ at + length bytes.now }
    ensures prefix { take result dst.new ≡ take at dst.old ++ bytes.now }
    ensures back { drop result dst.new ≡ drop result dst.old }
{
    let end = at + bytes.len();
    dst[at..end].copy_from_slice(bytes);
    end
}

// Copies the few bytes of an escape or of a character to the offset `at`, and returns the offset
// after them. If the compiler knows how many there are, it makes one store of them.
#[inline(always)]
fn put(dst: &mut [u8], at: usize, bytes: &[u8]) -> usize
    requires { at + length bytes.now ≤ length dst.old }
    ensures end { result ≡ at + length bytes.now }
    ensures prefix { take result dst.new ≡ take at dst.old ++ bytes.now }
    ensures back { drop result dst.new ≡ drop result dst.old }
{
    match *bytes {
        [] => at,
        [a] => put_all(dst, at, &[a]),
        [a, b] => put_all(dst, at, &[a, b]),
        [a, b, c] => put_all(dst, at, &[a, b, c]),
        [a, b, c, d] => put_all(dst, at, &[a, b, c, d]),
        _ => put_all(dst, at, bytes),
    }
}

// Copies the next run of ASCII to an offset, as much of it as fits, and returns the offset after
// it.
#[inline(always)]
fn copy_run<S: Source>(source: &mut S, dst: &mut [u8], at: usize) -> usize
    requires { at ≤ length dst.old }
    ensures same { S.all source.new ≡ S.all source.old }
    ensures room { result ≤ length dst.new }
    ensures run { IsRun (left S.text (S.all source.old) (S.offset source.old)) (left S.text (S.all source.old) (S.offset source.new))
        (take at dst.old) (take result dst.new) }
    ensures behind { drop result dst.new ≡ drop result dst.old }
    ensures after { at ≤ result }
    ensures offset { S.offset source.new ≡ S.offset source.old + (result - at) }
    ensures some { (c : ℕ) (rest : List ℕ) → left S.text (S.all source.old) (S.offset source.old) ≡ c ∷ rest
        → c < 0x80 → at < length dst.old
        → length (left S.text (S.all source.old) (S.offset source.new)) < length (left S.text (S.all source.old) (S.offset source.old)) }
{
    at + source.copy_ascii(&mut dst[at..])
}

// The call below, character by character but for runs of ASCII.
fn encode_each<T: EncoderRule, S: Source>(
    target: &T,
    set: &mut EscapeState,
    source: &mut S,
    dst: &mut [u8],
    last: bool,
) -> (EncoderResult, usize)
    ensures source { S.all source.new ≡ S.all source.old }
    ensures wrote { WritesBytes dst.old dst.new result.1 }
    ensures call { EncoderCall (record (T.parts target.now) { set = set.old })
        (record (T.parts target.now) { set = set.new }) last result.0
        (left S.text (S.all source.old) (S.offset source.old)) (take result.1 dst.new)
        (left S.text (S.all source.old) (S.offset source.new)) (length dst.new - result.1) }
    ensures enough { bound_at (bound_for (T.parts target.now).limits S.is_units)
        (length (S.all source.old) - S.offset source.old) ≤ length dst.old
        → result.0 ≢ EncoderResult.OutputFull }
{
    let mut written = 0;
    while let Some((c, len)) = source.peek() {
        let is_run = u32::from(c) < 0x80 && source.is_second_ascii();
        if is_run && written < dst.len() && target.copies_ascii(*set) {
            written = copy_run(source, dst, written);
            continue;
        }
        let (next, form) = target.step(*set, c);
        let escape = target.escape(*set, next);
        let bytes = escape.as_slice();
        if dst.len() - written < bytes.len() {
            return (EncoderResult::OutputFull, written);
        }
        written = put(dst, written, bytes);
        *set = next;
        match form {
            Form::Mapped(form) => {
                let bytes = form.as_slice();
                if dst.len() - written < bytes.len() {
                    return (EncoderResult::OutputFull, written);
                }
                written = put(dst, written, bytes);
                source.advance_by(len);
            }
            Form::Unmapped(reported) => {
                source.advance_by(len);
                return (EncoderResult::Unmappable(reported), written);
            }
        }
    }
    if last {
        let escape = target.escape(*set, EscapeState::Ascii);
        let bytes = escape.as_slice();
        if dst.len() - written < bytes.len() {
            return (EncoderResult::OutputFull, written);
        }
        written = put(dst, written, bytes);
        *set = EscapeState::Ascii;
    }
    (EncoderResult::InputEmpty, written)
}

/// The driver of all encoders: encodes what is left of a source, from the set in `set`, and leaves
/// there the set that is then in force. Returns how the call ended, and how many bytes of `dst`
/// were written.
///
/// It ends when all is read, at the first character without bytes, whose escape is written, and
/// when the next escape or character does not fit. After a call with `last` that read all, the set
/// is ASCII.
pub fn encode<T: EncoderRule, S: Source>(
    target: &T,
    set: &mut EscapeState,
    source: &mut S,
    dst: &mut [u8],
    last: bool,
) -> (EncoderResult, usize)
    ensures source { S.all source.new ≡ S.all source.old }
    ensures wrote { WritesBytes dst.old dst.new result.1 }
    ensures call { EncoderCall (record (T.parts target.now) { set = set.old })
        (record (T.parts target.now) { set = set.new }) last result.0
        (left S.text (S.all source.old) (S.offset source.old)) (take result.1 dst.new)
        (left S.text (S.all source.old) (S.offset source.new)) (length dst.new - result.1) }
    ensures enough { bound_at (bound_for (T.parts target.now).limits S.is_units)
        (length (S.all source.old) - S.offset source.old) ≤ length dst.old
        → result.0 ≢ EncoderResult.OutputFull }
{
    if !target.copies_utf8(*set) {
        return encode_each(target, set, source, dst, last);
    }
    let copied = source.copy_text(dst);
    let (result, written) = encode_each(target, set, source, &mut dst[copied..], last);
    (result, copied + written)
}
