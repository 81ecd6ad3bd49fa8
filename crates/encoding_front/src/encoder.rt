//! The encoder of a stream: its queries and its calls, with references and without.

ghost use Rattle.std.specs.Prelude.{◌≡◌, ◌≢◌, ◌↔◌, ℕ, ◌+◌, ◌-◌, ◌≤◌, ◌++◌, true, false, IsTrue};
ghost use Rattle.std.specs.Prelude.{List, length, take, drop, vec_capacity, vec_len};
ghost use Rattle.std.specs.Str.{chars};
ghost use Rattle.std.specs.Char.Utf16.{utf16_lossy_chars};
ghost use Rattle.encoding_mem.specs.Conversions.{IsUnitBoundary};
ghost use Rattle.encoding_mem.specs.calls.EncoderRule.{WritesBytes, left};
ghost use Rattle.encoding_mem.specs.declared.codec.form.EscapeState.TheVariants.{Ascii};
ghost use Rattle.encoding_front.specs.calls.Encoder.{Encoded, EncoderState, IsCodecOf, ReadsText};
ghost use Rattle.encoding_front.specs.calls.Encoder.{Replaces, kept_back, new_state, parts_in};
ghost use Rattle.encoding_front.specs.calls.Encoder.{queried_room, queried_with_kept};
ghost use Rattle.encoding_front.specs.calls.Encoder.{room_without_reference, room_with_reference};
ghost use Rattle.encoding_front.specs.laws.Encoder.{coding_laws};
ghost use Rattle.encoding_front.specs.Encodings.{IsReady, coding_of, output_encoding_of};

pub mod saved_encoder;

use crate::coder_result::CoderResult;
use crate::encoding::Encoding;
use crate::replacing::encode_replacing;
use crate::variant_encoder::VariantEncoder;
use encoding_mem::form::EscapeState;
use encoding_mem::room::EncodedLength;
use encoding_mem::source::{Source, Utf8Source, Utf16Source};
use encoding_mem::source_encoder::SourceEncoder;
use encoding_mem::{EncoderResult, RawEncoder};
use encoding_tables::Tables;
use std::fmt;
use std::marker::Model;

/// An encoder of one stream of text into an output encoding. It is made by `Encoding::new_encoder`,
/// or by `Encoder::new`.
///
/// Between calls it keeps only the set in force, which ISO-2022-JP alone has; the caller keeps the
/// unread text. How it is used:
///
/// - A call is given the next text, room for bytes, and `last`, which is true if the text ends with
///   it. A stream that ends is ended by one call with `last`, which may have no text.
/// - A call returns how many bytes or units of text it read, and how many bytes it wrote. Unread
///   text is handed in again, first, in the next call.
/// - `InputEmpty`: all is read. A call with `last` has then written the bytes of its whole text
///   (`laws::last_calls_write_all_bytes`); the set is ASCII again, and the encoder is as a new one.
/// - `OutputFull`: make room, and call again with the unread text and `last` as it was, even if
///   nothing is unread. Room for 4 bytes is always enough to go on without replacement, and for 14
///   with it.
/// - `Unmappable`, in calls without replacement: the character that was read last has no bytes.
///   Write its reference (`write_reference`) or other printable ASCII but `\` and `~`, and call
///   again as after `OutputFull`. In ISO-2022-JP the set in force may be Roman, where the bytes of
///   these two, 5C and 7E, are U+00A5 and U+203E. Calls with replacement write the reference
///   themselves.
///
/// A surrogate in no pair, in UTF-16, is encoded as U+FFFD. A pair must not be cut between two
/// calls: each slice is read by itself.
#[derive(Drop)]
pub struct Encoder<'t> {
    tables: Option<&'t Tables>,
    encoding: Encoding,
    variant: VariantEncoder<'t>,
}

impl<'t> Model for Encoder<'t> {
    ghost use Rattle.std.specs.Coded.{codes};
    ghost use Rattle.encoding_tables.specs.laws.Kinds.{index_lists_code};
    ghost use Rattle.encoding_front.specs.Encodings.{lists_of};
    ghost use Rattle.encoding_front.specs.calls.Encoder.{EncoderState, IsCodecOf};

    ghost Value = { EncoderState };

    ghost coded = { Prim.hlevel (codes, index_lists_code) };

    ghost view = { λ s. record {
      tables = lists_of s.tables;
      encoding = s.encoding;
      set = (⟦<VariantEncoder<'static> as RawEncoder>⟧.parts s.variant).set;
    } };

    ghost invariant = { λ s. IsCodecOf (lists_of s.tables) s.encoding
        (⟦<VariantEncoder<'static> as RawEncoder>⟧.parts s.variant) };
}

impl Encoding {
    /// An encoder of a new stream into the output encoding of this one (`output_encoding`; the
    /// Encoding Standard, section 4.3).
    ///
    /// The condition, that the indexes of the output encoding are in `tables`, is tested by
    /// `is_ready` of the output encoding.
    pub fn new_encoder(self, tables: &Tables) -> Encoder<'_>
        requires { IsReady tables.now (output_encoding_of self) }
        ensures state { result ≡ new_state tables.now self }
        ensures coding { (⟦<Encoder<'static> as RawEncoder>⟧.parts result).coding
            ≡ coding_of tables.now self }
    {
        Encoder::new(self, Some(tables))
    }
}

impl<'t> Encoder<'t> {
    ghost use Rattle.encoding_front.specs.Encodings.{lists_of};

    /// An encoder of a new stream into the output encoding of `encoding`
    /// (`Encoding::output_encoding`; the Encoding Standard, section 4.3).
    ///
    /// The condition, that the indexes of the output encoding are in `tables`, is tested by
    /// `Encoding::is_ready` of the output encoding. If that needs none (`Encoding::needs`), `None`
    /// will do.
    pub fn new(encoding: Encoding, tables: Option<&'t Tables>) -> Self
        requires { IsReady (lists_of tables) (output_encoding_of encoding) }
        ensures state { result ≡ new_state (lists_of tables.entry) encoding }
        ensures coding { (⟦<Encoder<'static> as RawEncoder>⟧.parts result).coding
            ≡ coding_of (lists_of tables.entry) encoding }
    {
        let encoding = encoding.output_encoding();
        Encoder {
            tables,
            encoding,
            variant: VariantEncoder::new(encoding, tables),
        }
    }

    /// The output encoding, in which it writes.
    pub fn encoding(&self) -> Encoding
        ensures { result ≡ self.now.encoding }
    {
        self.encoding
    }

    /// Whether an escape to ASCII is still to be written at the end of the stream: so only in
    /// ISO-2022-JP, if another set is in force.
    pub fn has_pending_state(&self) -> bool
        ensures { IsTrue result ↔ (self.now.set ≢ Ascii) }
    {
        self.variant.has_pending_state()
    }

    /// How many bytes are room enough for what `n` bytes of UTF-8 are encoded to without
    /// replacement, and for the last escape; `None` if the number passes a `usize`. References are
    /// not counted.
    pub fn max_buffer_length_from_utf8_without_replacement(&self, n: usize) -> Option<usize>
        ensures { result ≡ queried_room self.now.encoding false n }
    {
        self.variant
            .max_buffer_length_from_utf8_without_replacement(n)
    }

    /// How many bytes are room enough for what `n` units of UTF-16 are encoded to without
    /// replacement, and for the last escape; `None` if the number passes a `usize`. References are
    /// not counted.
    pub fn max_buffer_length_from_utf16_without_replacement(&self, n: usize) -> Option<usize>
        ensures { result ≡ queried_room self.now.encoding true n }
    {
        self.variant
            .max_buffer_length_from_utf16_without_replacement(n)
    }

    /// How many bytes are room enough for what `n` bytes of UTF-8 are encoded to with replacement,
    /// if each character has bytes; `None` if the number passes a `usize`. It is the number for a
    /// call without replacement, and 10 more for a reference unless the output encoding is UTF-8.
    pub fn max_buffer_length_from_utf8_if_no_unmappables(&self, n: usize) -> Option<usize>
        ensures { result ≡ queried_with_kept self.now.encoding false n }
    {
        let room = self.max_buffer_length_from_utf8_without_replacement(n)?;
        room.checked_add(self.kept_back())
    }

    /// How many bytes are room enough for what `n` units of UTF-16 are encoded to with replacement,
    /// if each character has bytes; `None` if the number passes a `usize`. It is the number for a
    /// call without replacement, and 10 more for a reference unless the output encoding is UTF-8.
    pub fn max_buffer_length_from_utf16_if_no_unmappables(&self, n: usize) -> Option<usize>
        ensures { result ≡ queried_with_kept self.now.encoding true n }
    {
        let room = self.max_buffer_length_from_utf16_without_replacement(n)?;
        room.checked_add(self.kept_back())
    }

    /// The bytes that a call with replacement keeps back for a reference: none in UTF-8.
    pub(crate) fn kept_back(&self) -> usize
        ensures { result ≡ kept_back self.now.encoding }
    {
        if self.encoding.can_encode_everything() {
            0
        } else {
            10
        }
    }

    // Encodes what is left of a source, and stops after a character without bytes. Returns how the
    // call ended and the bytes written.
    pub(crate) fn encode_source<S: Source>(
        &mut self,
        source: &mut S,
        dst: &mut [u8],
        last: bool,
    ) -> (EncoderResult, usize)
        ensures source { S.all source.new ≡ S.all source.old }
        ensures wrote { WritesBytes dst.old dst.new result.1 }
        ensures call { Encoded self.old last result.0
            (left S.text (S.all source.old) (S.offset source.old)) (take result.1 dst.new)
            self.new (left S.text (S.all source.new) (S.offset source.new))
            (length dst.new - result.1) }
        ensures enough { room_without_reference self.old.encoding S.is_units
            (length (S.all source.old) - S.offset source.old) ≤ length dst.old
            → result.0 ≢ EncoderResult.OutputFull }
    {
        self.variant.encode_from(source, dst, last)
    }

    /// Encodes text up to the first character without bytes (an encoder of the Encoding Standard,
    /// section 4.1, which ends at an error). Returns how the call ended, how many bytes of `src`
    /// were read, and how many bytes of `dst` were written.
    ///
    /// - `InputEmpty`: all of `src` is read and written; with `last` the last escape is written
    ///   too.
    /// - `OutputFull`: the next escape or character does not fit into what is free, and something
    ///   is left to do.
    /// - `Unmappable(c)`: the character that was read last has no bytes. The escape to the set that
    ///   its reference is written in is written; the reference is the caller's. `c` is the
    ///   character, or U+FFFD for U+000E, U+000F and U+001B in ISO-2022-JP.
    ///
    /// What was read ends between characters, and nothing after what is written changes.
    /// `OutputFull` does not come if `dst` is as long as
    /// `max_buffer_length_from_utf8_without_replacement` returns.
    pub fn encode_from_utf8_without_replacement(
        &mut self,
        src: &str,
        dst: &mut [u8],
        last: bool,
    ) -> (EncoderResult, usize, usize)
        ensures read { ReadsText src.now result.1 }
        ensures wrote { WritesBytes dst.old dst.new result.2 }
        ensures call { Encoded self.old last result.0 (chars src.now) (take result.2 dst.new)
            self.new (chars (drop result.1 src.now)) (length dst.new - result.2) }
        ensures enough { room_without_reference self.old.encoding false (length src.now)
            ≤ length dst.old
            → result.0 ≢ EncoderResult.OutputFull }
    {
        let mut source = Utf8Source::new(src);
        let (result, written) = self.encode_source(&mut source, dst, last);
        (result, source.read(), written)
    }

    /// Encodes units of UTF-16 up to the first character without bytes. Returns how the call ended,
    /// how many units of `src` were read, and how many bytes of `dst` were written. Results are
    /// those of `encode_from_utf8_without_replacement`.
    ///
    /// A surrogate in no pair of `src` is encoded as U+FFFD. What was read ends at no place between
    /// the two units of a pair, and nothing after what is written changes. `OutputFull` does not
    /// come if `dst` is as long as `max_buffer_length_from_utf16_without_replacement` returns.
    pub fn encode_from_utf16_without_replacement(
        &mut self,
        src: &[u16],
        dst: &mut [u8],
        last: bool,
    ) -> (EncoderResult, usize, usize)
        ensures read { result.1 ≤ length src.now }
        ensures boundary { IsUnitBoundary src.now result.1 }
        ensures wrote { WritesBytes dst.old dst.new result.2 }
        ensures call { Encoded self.old last result.0 (utf16_lossy_chars src.now)
            (take result.2 dst.new) self.new (utf16_lossy_chars (drop result.1 src.now))
            (length dst.new - result.2) }
        ensures enough { room_without_reference self.old.encoding true (length src.now)
            ≤ length dst.old
            → result.0 ≢ EncoderResult.OutputFull }
    {
        let mut source = Utf16Source::new(src);
        let (result, written) = self.encode_source(&mut source, dst, last);
        (result, source.read(), written)
    }

    /// Encodes text, and writes the decimal numeric character reference (`&#8364;`) of each
    /// character without bytes. Returns how the call ended, how many bytes of `src` were read, how
    /// many bytes of `dst` were written, and whether a reference was written (the Encoding
    /// Standard, section 6, "encode", in the mode "html").
    ///
    /// - `InputEmpty`: all of `src` is read and written; with `last` the last escape is written
    ///   too.
    /// - `OutputFull`: something is left to do, and fewer bytes are free than the next step may
    ///   need, at most 4, not counting those that are kept back. The escape to the set of the next
    ///   character may be written already; that set is then in force.
    ///
    /// Unless the output encoding is UTF-8, the last ten bytes of `dst` are kept back, so that a
    /// reference is never cut. Only a reference that begins before them, or where they begin,
    /// reaches into them, and it ends the call. A `dst` of fewer than ten bytes then takes nothing.
    /// In the room that `max_buffer_length_from_utf8_if_no_unmappables` returns only a reference
    /// ends a call before the text ends. What was read ends between characters; nothing after what
    /// is written changes.
    pub fn encode_from_utf8(
        &mut self,
        src: &str,
        dst: &mut [u8],
        last: bool,
    ) -> (CoderResult, usize, usize, bool)
        ensures read { ReadsText src.now result.1 }
        ensures wrote { WritesBytes dst.old dst.new result.2 }
        ensures call { Replaces self.old last result.0 (chars src.now) (take result.2 dst.new)
            self.new (chars (drop result.1 src.now)) result.3 (length dst.new) }
        ensures enough { room_with_reference self.old.encoding false (length src.now)
            ≤ length dst.old
            → result.3 ≡ false → result.0 ≢ CoderResult.OutputFull }
    {
        let mut source = Utf8Source::new(src);
        let (result, written, had_unmappables) = encode_replacing(self, &mut source, dst, last);
        (result, source.read(), written, had_unmappables)
    }

    /// Encodes units of UTF-16, and writes the decimal numeric character reference of each
    /// character without bytes. Returns how the call ended, how many units of `src` were read, how
    /// many bytes of `dst` were written, and whether a reference was written. Results and room are
    /// those of `encode_from_utf8`, with `max_buffer_length_from_utf16_if_no_unmappables`.
    ///
    /// A surrogate in no pair of `src` is encoded as U+FFFD. What was read ends at no place between
    /// the two units of a pair.
    pub fn encode_from_utf16(
        &mut self,
        src: &[u16],
        dst: &mut [u8],
        last: bool,
    ) -> (CoderResult, usize, usize, bool)
        ensures read { result.1 ≤ length src.now }
        ensures boundary { IsUnitBoundary src.now result.1 }
        ensures wrote { WritesBytes dst.old dst.new result.2 }
        ensures call { Replaces self.old last result.0 (utf16_lossy_chars src.now)
            (take result.2 dst.new) self.new (utf16_lossy_chars (drop result.1 src.now))
            result.3 (length dst.new) }
        ensures enough { room_with_reference self.old.encoding true (length src.now)
            ≤ length dst.old
            → result.3 ≡ false → result.0 ≢ CoderResult.OutputFull }
    {
        let mut source = Utf16Source::new(src);
        let (result, written, had_unmappables) = encode_replacing(self, &mut source, dst, last);
        (result, source.read(), written, had_unmappables)
    }

    /// Encodes text into the spare capacity of a vector, after what it holds, with references as
    /// `encode_from_utf8` writes them. Returns how the call ended, how many bytes of `src` were
    /// read, and whether a reference was written.
    ///
    /// The capacity stays as it is. `OutputFull` comes as in a slice of the size of what is spare.
    pub fn encode_from_utf8_to_vec(
        &mut self,
        src: &str,
        dst: &mut Vec<u8>,
        last: bool,
    ) -> (CoderResult, usize, bool)
        ensures read { ReadsText src.now result.1 }
        ensures capacity { vec_capacity dst.new ≡ vec_capacity dst.old }
        ensures call { (written : List ℕ) × (dst.new.items ≡ dst.old.items ++ written)
            × Replaces self.old last result.0 (chars src.now) written self.new
            (chars (drop result.1 src.now)) result.2 (vec_capacity dst.old - vec_len dst.old) }
        ensures enough { room_with_reference self.old.encoding false (length src.now)
            ≤ vec_capacity dst.old - vec_len dst.old → result.2 ≡ false
            → result.0 ≢ CoderResult.OutputFull }
    {
        let len = fill_spare(dst);
        let spare = &mut dst[len..];
        let (result, read, written, had_unmappables) = self.encode_from_utf8(src, spare, last);
        dst.truncate(len + written);
        (result, read, had_unmappables)
    }

    /// Encodes text into the spare capacity of a vector, after what it holds, up to the first
    /// character without bytes. Returns how the call ended, as
    /// `encode_from_utf8_without_replacement` does, and how many bytes of `src` were read.
    ///
    /// The capacity stays as it is. `OutputFull` comes as in a slice of the size of what is spare.
    pub fn encode_from_utf8_to_vec_without_replacement(
        &mut self,
        src: &str,
        dst: &mut Vec<u8>,
        last: bool,
    ) -> (EncoderResult, usize)
        ensures read { ReadsText src.now result.1 }
        ensures capacity { vec_capacity dst.new ≡ vec_capacity dst.old }
        ensures call { (written : List ℕ) × (dst.new.items ≡ dst.old.items ++ written)
            × Encoded self.old last result.0 (chars src.now) written self.new
            (chars (drop result.1 src.now))
            (vec_capacity dst.old - vec_len dst.old - length written) }
        ensures enough { room_without_reference self.old.encoding false (length src.now)
            ≤ vec_capacity dst.old - vec_len dst.old → result.0 ≢ EncoderResult.OutputFull }
    {
        let len = fill_spare(dst);
        let spare = &mut dst[len..];
        let (result, read, written) = self.encode_from_utf8_without_replacement(src, spare, last);
        dst.truncate(len + written);
        (result, read)
    }
}

impl<'t> SourceEncoder for Encoder<'t> {
    ghost parts = { parts_in };

    ghost laws = { λ x. coding_laws x.tables x.encoding };

    fn encode_from<S: Source>(
        &mut self,
        source: &mut S,
        dst: &mut [u8],
        last: bool,
    ) -> (EncoderResult, usize) {
        self.encode_source(source, dst, last)
    }

    fn encoded_length(&self) -> EncodedLength {
        self.variant.encoded_length()
    }

    fn current_set(&self) -> EscapeState {
        self.variant.current_set()
    }

    fn enter(&mut self, next: EscapeState) {
        self.variant.enter(next);
    }
}

// Fills the spare capacity with zeros, and returns the length before.
pub(crate) fn fill_spare(dst: &mut Vec<u8>) -> usize
    ensures len { result ≡ vec_len dst.old }
    ensures items { take result dst.new.items ≡ dst.old.items }
    ensures within { result ≤ length dst.new.items }
    ensures full { length dst.new.items ≡ vec_capacity dst.old }
    ensures capacity { vec_capacity dst.new ≡ vec_capacity dst.old }
{
    let len = dst.len();
    while dst.len() < dst.capacity() {
        dst.push_reserved(0);
    }
    len
}

impl<'t> fmt::Debug for Encoder<'t> {
    fn fmt<W: fmt::Write>(&self, f: &mut fmt::Formatter<W>) -> fmt::Result {
        f.debug_struct("Encoder")
            .field("encoding", &self.encoding.name())
            .finish()
    }
}
