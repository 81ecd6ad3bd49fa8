//! The decoder of a stream: a byte order mark is taken first, and U+FFFD is written if it is asked
//! for.

ghost use Rattle.std.specs.Prelude.{◌≡◌, ◌≢◌, ℕ, ◌<◌, ◌≤◌, ◌+◌, ◌-◌, ◌++◌, true, false, IsTrue};
ghost use Rattle.std.specs.Prelude.{List, [], None, Some, length, take, drop, encode_utf8_all, refl};
ghost use Rattle.std.specs.Prelude.{string_bytes, string_capacity, string_len, vec_capacity};
ghost use Rattle.std.specs.Prelude.{vec_len};
ghost use Rattle.std.specs.Str.{IsUtf8};
ghost use Rattle.encoding_mem.specs.calls.Decoding.{Suffices};
ghost use Rattle.encoding_mem.specs.calls.TextDestination.{Overwrites};
ghost use Rattle.encoding_mem.specs.calls.Writing.{Adds, encode_utf16_all};
ghost use Rattle.encoding_mem.specs.declared.codec.room.OutputUnit.TheVariants.{Units, Bytes};
ghost use Rattle.encoding_mem.specs.declared.codec.room.OutputUnit.TheVariants.{Replaced};
ghost use Rattle.encoding_tables.specs.IndexLists.{IndexLists};
ghost use Rattle.encoding_front.specs.calls.BomDecoderState.{bom_decoder_state};
ghost use Rattle.encoding_front.specs.calls.DecodedText.{NeverFull};
ghost use Rattle.encoding_front.specs.calls.DecoderCall.{DecoderCall, IfRoomAsked, TextCall};
ghost use Rattle.encoding_front.specs.calls.DecoderCall.{free_bytes, free_in_sink, free_units};
ghost use Rattle.encoding_front.specs.Encodings.{IsReady, lists_of};
ghost use Rattle.encoding_front.specs.calls.CodecBounds.{decoded_length_of};
ghost use Rattle.encoding_front.specs.calls.Latin1Prefix.{latin1_rule};
ghost use Rattle.encoding_front.specs.calls.Seeking.{find_mark, is_sought, sought_encoding};
ghost use Rattle.encoding_front.specs.calls.Stream.{IsNewDecoder, DecoderView, IsOpenedBy};
ghost use Rattle.encoding_front.specs.calls.Stream.{TellsLatin1Prefix, ahead};
ghost use Rattle.encoding_front.specs.calls.Stream.{IsMadeFrom, finishes, greater_if, room_asked};
ghost use Rattle.encoding_front.specs.calls.TakesMark.{TakesMark};
ghost use Rattle.encoding_front.specs.calls.VariantDecoders.{resumed_of, rule_of, state_of};
ghost use Rattle.encoding_front.specs.laws.Stream.{named_by, room_named, widest_by};
ghost use Rattle.encoding_front.specs.declared.mark.Mark.{Mark};
ghost use Rattle.encoding_front.specs.declared.seeking.BomMatch.{BomMatch};

pub(crate) mod room_rule;
pub(crate) mod saved_decoder;

use crate::coder_result::CoderResult;
use crate::encoder::fill_spare;
use crate::encoding::Encoding;
use crate::mark::Mark;
use crate::seeking::{BomMatch, BomSet, ByteOrderMark, find_mark};
use crate::variant_decoder::VariantDecoder;
use encoding_mem::pending::Pending;
use encoding_mem::room::{DecodedLength, OutputUnit};
use encoding_mem::sink::Sink;
use encoding_mem::sink_decoder::SinkDecoder;
use encoding_mem::utf8_sink::Utf8Sink;
use encoding_mem::utf16_sink::Utf16Sink;
use encoding_mem::{DecoderResult, clear_behind};
use encoding_tables::Tables;
use std::{fmt, mem};

/// A decoder of a stream that may begin with a byte order mark, for code that takes any such
/// decoder and any destination. `Decoder` is one.
///
/// The rule of use is that of `Decoder`: bytes that a call left unread come first in the next call,
/// and nothing follows a last call that returned `InputEmpty`.
pub trait StreamDecoder {
    /// What contracts say of a decoder: what the bytes to come will give, the encoding that they
    /// turn out to be in, what the length queries depend on, and whether it is finished.
    ghost view: { Self → DecoderView };

    /// How the parts of that view belong together: the pieces to come are those of the held bytes
    /// and of what follows, in the encoding in force or after a mark.
    ghost opened: { (d : Self) → IsOpenedBy (view d) };

    /// Decodes bytes into a destination up to the first malformed sequence. Returns how the call
    /// ended and how many bytes of `src` were read.
    ///
    /// `last` says that the stream ends with `src`. The condition, that the decoder is not
    /// finished, is tested by `is_finished`. `DecoderResult` says what each result asks for.
    fn decode_into<S: Sink>(
        &mut self,
        src: &[u8],
        sink: &mut S,
        last: bool,
    ) -> (DecoderResult, usize)
        requires { (view self.old).finished ≡ false }
        ensures call { DecoderCall (view self.old) (view self.new) src.now last result.1
            (λ text. S.writes sink.old text sink.new)
            (free_in_sink S.is_units (S.free sink.new)) result.0 }
        ensures enough { Suffices (view self.old).state.needs (view self.new).state.needs
            S.is_units last (length src.now) (length src.now - result.1)
            (S.free sink.old) (S.free sink.new) result.0 };

    /// Whether a call with `last` has returned `InputEmpty`. No call that decodes may follow.
    fn is_finished(&self) -> bool
        ensures { result ≡ (view self.now).finished };

    /// The encoding in force: the one that the decoder was made for, or that of the byte order mark
    /// once all of it was read.
    fn encoding(&self) -> Encoding
        ensures { result ≡ (view self.now).source [] };
}

/// A decoder of one stream, with or without byte order mark, into UTF-8 or UTF-16. It is made by
/// `Encoding::new_decoder` and its two variants, or by `Decoder::new`.
///
/// It keeps all state between calls: the bytes of a sequence or of a mark that is not decided yet,
/// the mode of ISO-2022-JP, and whether a mark is still looked for. The caller keeps the unread
/// bytes. How it is used:
///
/// - A call is given the next bytes, room for text, and `last`, which is true if the stream ends
///   with these bytes. A stream that ends is ended by one call with `last`, which may have no
///   bytes.
/// - A call returns how many bytes it read, and how many bytes or units of text it wrote. Unread
///   bytes are handed in again, first, in the next call.
/// - `InputEmpty`: all is read. A call with `last` has then written the text of all that was to
///   come (`laws::last_calls_write_all_text`), and the decoder is finished: `is_finished` returns
///   true, and no call that decodes or asks for a length may follow.
/// - `OutputFull`: make room, and call again with the unread bytes and `last` as it was, even if
///   nothing is unread. Room for 4 bytes or 2 units is always enough to go on.
/// - `Malformed`, in calls without replacement: write U+FFFD or not, and call again as after
///   `OutputFull`. Calls with replacement write U+FFFD themselves.
/// - Room of the size that the length query returns for the next bytes is enough for them, whatever
///   they are; without replacement up to the first malformed sequence.
///
/// Calls with and without replacement, and into UTF-8 and UTF-16, may be mixed on one stream.
#[derive(Drop)]
pub struct Decoder<'t> {
    inner: VariantDecoder<'t>,
    encoding: Encoding,
    sought: BomSet,
    held: Pending,
    is_finished: bool,
    ghost few: { 0 < length held → (state_of inner).pending + length held ≤ 2 },
    ghost fresh: { IsTrue (is_sought sought) → (state_of inner).pending ≡ 0 },
    ghost prefix: { IsTrue (is_sought sought) → find_mark sought held ≡ BomMatch.Prefix },
    ghost room: { (state_of inner).room ≡ decoded_length_of encoding },
    ghost rule: { rule_of inner ≡ latin1_rule encoding },
}

impl Encoding {
    ghost use Rattle.encoding_front.specs.calls.DecoderViews.{decoder_view};

    /// A decoder of a new stream that takes any of the three byte order marks, and then decodes by
    /// the encoding of the mark; without one, by this encoding (the Encoding Standard, section 6,
    /// "decode").
    ///
    /// The condition, that the indexes of this encoding are in `tables`, is tested by `is_ready`.
    pub fn new_decoder<'t>(self, tables: &'t Tables) -> Decoder<'t>
        requires { IsReady tables.now self }
        ensures begins { IsNewDecoder (decoder_view result) tables.now Mark.Sniff self }
    {
        Decoder::new(self, Mark::Sniff, Some(tables))
    }

    /// A decoder of a new stream that skips the byte order mark of this encoding, if the stream
    /// begins with it, and decodes by this encoding (for UTF-8: the Encoding Standard, section 6,
    /// "UTF-8 decode"). The marks of other encodings are bytes like any others. Only UTF-8,
    /// UTF-16BE and UTF-16LE have a mark.
    ///
    /// The condition, that the indexes of this encoding are in `tables`, is tested by `is_ready`.
    pub fn new_decoder_with_bom_removal<'t>(self, tables: &'t Tables) -> Decoder<'t>
        requires { IsReady tables.now self }
        ensures begins { IsNewDecoder (decoder_view result) tables.now Mark.Remove self }
    {
        Decoder::new(self, Mark::Remove, Some(tables))
    }

    /// A decoder of a new stream to which a byte order mark is text: U+FEFF in its own encoding
    /// (for UTF-8: the Encoding Standard, section 6, "UTF-8 decode without BOM").
    ///
    /// The condition, that the indexes of this encoding are in `tables`, is tested by `is_ready`.
    pub fn new_decoder_without_bom_handling<'t>(self, tables: &'t Tables) -> Decoder<'t>
        requires { IsReady tables.now self }
        ensures begins { IsNewDecoder (decoder_view result) tables.now Mark.Keep self }
    {
        Decoder::new(self, Mark::Keep, Some(tables))
    }
}

impl<'t> StreamDecoder for Decoder<'t> {
    ghost view = { λ d. record {
      state = bom_decoder_state d.sought (state_of d.inner) d.held d.fresh (widest_by _ _ d.room);
      source = λ x. sought_encoding d.sought d.encoding (d.held ++ x);
      opening = record {
        sought = d.sought;
        held = d.held;
        room = (state_of d.inner).room;
        pending = (state_of d.inner).pending;
      };
      own = state_of d.inner;
      resumed = resumed_of d.inner;
      finished = d.is_finished;
    } };

    ghost opened = { λ d. record {
      pieces = λ x. refl;
      pending = refl;
      own_pending = refl;
      own_room = refl;
      prefix = d.prefix;
      fresh = d.fresh;
      named = named_by d.encoding d.sought d.held d.prefix;
      room = room_named d.encoding d.sought d.held _ d.prefix d.room;
    } };

    fn decode_into<S: Sink>(
        &mut self,
        src: &[u8],
        sink: &mut S,
        last: bool,
    ) -> (DecoderResult, usize) {
        match self.take_mark(src, last) {
            None => (DecoderResult::InputEmpty, src.len()),
            Some(taken) => {
                let rest = &src[taken..];
                let (outcome, read) = self.inner.decode_held(&mut self.held, rest, sink, last);
                self.is_finished = finishes(last, outcome);
                (outcome, taken + read)
            }
        }
    }

    fn is_finished(&self) -> bool {
        self.is_finished
    }

    fn encoding(&self) -> Encoding {
        self.encoding
    }
}

impl<'t> Decoder<'t> {
    ghost use Rattle.encoding_front.specs.calls.DecoderViews.{decoder_view};

    /// A decoder of a new stream in `encoding`; `mark` says which byte order marks are taken.
    ///
    /// The condition, that the indexes of `encoding` are in `tables`, is tested by
    /// `Encoding::is_ready`. If `encoding` needs none (`Encoding::needs`), `None` will do.
    pub fn new(encoding: Encoding, mark: Mark, tables: Option<&'t Tables>) -> Self
        requires { IsReady (lists_of tables) encoding }
        ensures begins { IsNewDecoder (decoder_view result) (lists_of tables.entry) mark encoding }
    {
        Decoder {
            inner: VariantDecoder::new(encoding, tables),
            encoding,
            sought: BomSet::new(mark, encoding),
            held: Pending::new(),
            is_finished: false,
        }
    }

    // Looks for a mark, and returns how many bytes were read with it: none if what is there may
    // still become one, and all is held.
    fn take_mark(&mut self, src: &[u8], last: bool) -> Option<usize>
        ensures takes { TakesMark (decoder_view self.old).state (decoder_view self.new).state
            src.now last (decoder_view self.new).opening.sought result }
        ensures source { (r : List ℕ) → (IsTrue last → r ≡ [])
            → (decoder_view self.old).source (src.now ++ r) ≡ (decoder_view self.new).source r }
        ensures marks { result ≡ None
            → (decoder_view self.new).opening.sought ≡ (decoder_view self.old).opening.sought }
        ensures finished { (decoder_view self.new).finished ≡ (decoder_view self.old).finished }
        ensures made { (t : IndexLists) → IsMadeFrom t (decoder_view self.old)
            → IsMadeFrom t (decoder_view self.new) }
    {
        if !self.sought.is_any() {
            return Some(0);
        }
        let window = Pending::prefix_of(&self.held, src, 3);
        match find_mark(self.sought, window.as_slice()) {
            BomMatch::Prefix if !last => {
                self.held = window;
                return None;
            }
            BomMatch::Whole(mark) => {
                let read = mark.len() - self.held.len();
                self.held = Pending::new();
                self.sought = BomSet::nothing();
                self.encoding = mark.encoding();
                self.inner = VariantDecoder::without_tables(self.encoding);
                Some(read)
            }
            _ => {
                self.sought = BomSet::nothing();
                Some(0)
            }
        }
    }

    /// The encoding in force: the one that the decoder was made for, or that of the byte order mark
    /// once all of it was read.
    pub fn encoding(&self) -> Encoding
        ensures { result ≡ (decoder_view self.now).source [] }
    {
        StreamDecoder::encoding(self)
    }

    /// Decodes bytes to UTF-8 up to the first malformed sequence. Returns how the call ended, how
    /// many bytes of `src` were read, and how many bytes of `dst` were written.
    ///
    /// - `InputEmpty`: all of `src` is read; with `last` the stream is decoded, and the decoder is
    ///   finished.
    /// - `OutputFull`: fewer than 4 bytes are free after what is written, and something is left to
    ///   do.
    /// - `Malformed(length, behind)`: a malformed sequence of `length` bytes (1 to 4) ends `behind`
    ///   bytes (0 to 3) before the end of what was read; at least 3 bytes are free, enough for
    ///   U+FFFD.
    ///
    /// A character is never split, and nothing after what is written changes. `OutputFull` does not
    /// come if `dst` is as long as `max_utf8_buffer_length_without_replacement` returns. The
    /// condition, that the decoder is not finished, is tested by `is_finished`.
    pub fn decode_to_utf8_without_replacement(
        &mut self,
        src: &[u8],
        dst: &mut [u8],
        last: bool,
    ) -> (DecoderResult, usize, usize)
        requires { (decoder_view self.old).finished ≡ false }
        ensures call { DecoderCall (decoder_view self.old) (decoder_view self.new) src.now last
            result.1 (λ text. Adds dst.old 0 (encode_utf8_all text) dst.new result.2)
            (free_bytes (length (drop result.2 dst.new))) result.0 }
        ensures enough { IfRoomAsked (decoder_view self.old) Bytes (length src.now)
            (length dst.old) (result.0 ≢ DecoderResult.OutputFull) }
    {
        let mut sink = Utf8Sink::new(dst);
        let (outcome, read) = self.decode_into(src, &mut sink, last);
        let written = sink.written();
        (outcome, read, written)
    }

    /// Decodes bytes to UTF-16 up to the first malformed sequence. Returns how the call ended, how
    /// many bytes of `src` were read, and how many units of `dst` were written.
    ///
    /// - `InputEmpty`: all of `src` is read; with `last` the stream is decoded, and the decoder is
    ///   finished.
    /// - `OutputFull`: fewer than 2 units are free after what is written, and something is left to
    ///   do.
    /// - `Malformed(length, behind)`: a malformed sequence of `length` bytes (1 to 4) ends `behind`
    ///   bytes (0 to 3) before the end of what was read; at least 1 unit is free, enough for
    ///   U+FFFD.
    ///
    /// A surrogate pair is never split, and nothing after what is written changes. `OutputFull`
    /// does not come if `dst` is as long as `max_utf16_buffer_length` returns. The condition, that
    /// the decoder is not finished, is tested by `is_finished`.
    pub fn decode_to_utf16_without_replacement(
        &mut self,
        src: &[u8],
        dst: &mut [u16],
        last: bool,
    ) -> (DecoderResult, usize, usize)
        requires { (decoder_view self.old).finished ≡ false }
        ensures call { DecoderCall (decoder_view self.old) (decoder_view self.new) src.now last
            result.1 (λ text. Adds dst.old 0 (encode_utf16_all text) dst.new result.2)
            (free_units (length (drop result.2 dst.new))) result.0 }
        ensures enough { IfRoomAsked (decoder_view self.old) Units (length src.now)
            (length dst.old) (result.0 ≢ DecoderResult.OutputFull) }
    {
        let mut sink = Utf16Sink::new(dst);
        let (outcome, read) = self.decode_into(src, &mut sink, last);
        let written = sink.written();
        (outcome, read, written)
    }

    /// Whether a call with `last` has returned `InputEmpty`. No call that decodes or asks for a
    /// length may follow.
    pub fn is_finished(&self) -> bool
        ensures { result ≡ (decoder_view self.now).finished }
    {
        self.is_finished
    }

    /// How many of `bytes`, if they come next, stand for the characters of their own numbers, as in
    /// Latin1: a caller may copy these, and hand in the rest.
    ///
    /// - `Some(n)`: the first `n` bytes do. In a single-byte encoding the index decides, and `n` is
    ///   the most that is true. In the others `n` ends before the first byte that is not ASCII, in
    ///   ISO-2022-JP also before the first 0E, 0F or 1B.
    /// - `None`: it is not known. A byte order mark may still come, bytes are pending, ISO-2022-JP
    ///   is in another mode than ASCII, or the encoding is UTF-16BE, UTF-16LE or replacement.
    ///
    /// The condition, that the decoder is not finished, is tested by `is_finished`.
    pub fn latin1_byte_compatible_up_to(&self, bytes: &[u8]) -> Option<usize>
        requires { (decoder_view self.now).finished ≡ false }
        ensures { TellsLatin1Prefix (decoder_view self.now) bytes.now result }
    {
        if self.sought.is_any() || self.held.len() > 0 {
            return None;
        }
        self.inner.latin1_byte_compatible_up_to(bytes)
    }

    /// How many units of UTF-16 are room enough for the text of `n` more bytes, whether malformed
    /// sequences are reported or written as U+FFFD; `None` if the number passes a `usize`.
    ///
    /// What is pending counts too. While a byte order mark is looked for, the number is enough for
    /// each encoding that may come. The condition, that the decoder is not finished, is tested by
    /// `is_finished`.
    pub fn max_utf16_buffer_length(&self, n: usize) -> Option<usize>
        requires { (decoder_view self.now).finished ≡ false }
        ensures { result ≡ room_asked (decoder_view self.now).opening Units n }
    {
        self.query(OutputUnit::Units, n)
    }

    /// How many bytes of UTF-8 are room enough for the text of `n` more bytes up to the first
    /// malformed sequence, and for one U+FFFD there; `None` if the number passes a `usize`.
    ///
    /// What is pending counts too. While a byte order mark is looked for, the number is enough for
    /// each encoding that may come. The condition, that the decoder is not finished, is tested by
    /// `is_finished`.
    pub fn max_utf8_buffer_length_without_replacement(&self, n: usize) -> Option<usize>
        requires { (decoder_view self.now).finished ≡ false }
        ensures { result ≡ room_asked (decoder_view self.now).opening Bytes n }
    {
        self.query(OutputUnit::Bytes, n)
    }

    /// How many bytes of UTF-8 are room enough for the text of `n` more bytes, with U+FFFD for each
    /// malformed sequence; `None` if the number passes a `usize`.
    ///
    /// What is pending counts too. While a byte order mark is looked for, the number is enough for
    /// each encoding that may come. The condition, that the decoder is not finished, is tested by
    /// `is_finished`.
    pub fn max_utf8_buffer_length(&self, n: usize) -> Option<usize>
        requires { (decoder_view self.now).finished ≡ false }
        ensures { result ≡ room_asked (decoder_view self.now).opening Replaced n }
    {
        self.query(OutputUnit::Replaced, n)
    }

    // The room that is enough for the text of `n` more bytes; none if it passes a `usize`.
    fn query(&self, count: OutputUnit, n: usize) -> Option<usize>
        ensures { result ≡ room_asked (decoder_view self.now).opening count n }
    {
        let held = self.held.as_slice();
        let n = n.checked_add(ahead(held))?;
        let own = self.inner.room().query(count, self.inner.held_len(), n)?;
        let is_utf8 = self.sought.can_be(held, ByteOrderMark::Utf8);
        let is_utf16 = self.sought.can_be_utf16(held);
        let own = greater_if(is_utf8, DecodedLength::utf8().query(count, 0, n), own)?;
        greater_if(is_utf16, DecodedLength::utf16().query(count, 0, n), own)
    }

    // Decodes into any destination, with U+FFFD for each malformed sequence.
    fn decode_text_into<S: Sink>(
        &mut self,
        src: &[u8],
        sink: &mut S,
        last: bool,
    ) -> (CoderResult, usize, bool)
        requires { (decoder_view self.old).finished ≡ false }
        ensures call { TextCall (decoder_view self.old) (decoder_view self.new) src.now last
            result.1 (λ text. S.writes sink.old text sink.new)
            (free_in_sink S.is_units (S.free sink.new)) result.0 result.2 }
        ensures enough { NeverFull (decoder_view self.old).state.needs S.is_units last
            (length src.now) (S.free sink.old) result.0 }
    {
        let mut read = 0;
        let mut had_errors = false;
        'pieces: loop {
            let (outcome, more) = self.decode_into(&src[read..], sink, last);
            read += more;
            match outcome {
                DecoderResult::InputEmpty => return (CoderResult::InputEmpty, read, had_errors),
                DecoderResult::OutputFull => return (CoderResult::OutputFull, read, had_errors),
                DecoderResult::Malformed(..) => {
                    sink.put('\u{FFFD}');
                    had_errors = true;
                }
            }
        }
    }

    /// Decodes bytes to UTF-8, with U+FFFD for each malformed sequence. Returns how the call ended,
    /// how many bytes of `src` were read, how many bytes of `dst` were written, and whether a
    /// malformed sequence was replaced.
    ///
    /// - `InputEmpty`: all of `src` is read; with `last` the stream is decoded, and the decoder is
    ///   finished.
    /// - `OutputFull`: fewer than 4 bytes are free after what is written, and something is left to
    ///   do.
    ///
    /// A character is never split, and nothing after what is written changes. `OutputFull` does not
    /// come if `dst` is as long as `max_utf8_buffer_length` returns. The condition, that the
    /// decoder is not finished, is tested by `is_finished`.
    pub fn decode_to_utf8(
        &mut self,
        src: &[u8],
        dst: &mut [u8],
        last: bool,
    ) -> (CoderResult, usize, usize, bool)
        requires { (decoder_view self.old).finished ≡ false }
        ensures call { TextCall (decoder_view self.old) (decoder_view self.new) src.now last
            result.1 (λ text. Adds dst.old 0 (encode_utf8_all text) dst.new result.2)
            (free_bytes (length (drop result.2 dst.new))) result.0 result.3 }
        ensures enough { IfRoomAsked (decoder_view self.old) Replaced (length src.now)
            (length dst.old) (result.0 ≢ CoderResult.OutputFull) }
    {
        let mut sink = Utf8Sink::new(dst);
        let (outcome, read, had_errors) = self.decode_text_into(src, &mut sink, last);
        let written = sink.written();
        (outcome, read, written, had_errors)
    }

    /// Decodes bytes to UTF-16, with U+FFFD for each malformed sequence. Returns how the call
    /// ended, how many bytes of `src` were read, how many units of `dst` were written, and whether
    /// a malformed sequence was replaced.
    ///
    /// - `InputEmpty`: all of `src` is read; with `last` the stream is decoded, and the decoder is
    ///   finished.
    /// - `OutputFull`: fewer than 2 units are free after what is written, and something is left to
    ///   do.
    ///
    /// A surrogate pair is never split, and nothing after what is written changes. `OutputFull`
    /// does not come if `dst` is as long as `max_utf16_buffer_length` returns. The condition, that
    /// the decoder is not finished, is tested by `is_finished`.
    pub fn decode_to_utf16(
        &mut self,
        src: &[u8],
        dst: &mut [u16],
        last: bool,
    ) -> (CoderResult, usize, usize, bool)
        requires { (decoder_view self.old).finished ≡ false }
        ensures call { TextCall (decoder_view self.old) (decoder_view self.new) src.now last
            result.1 (λ text. Adds dst.old 0 (encode_utf16_all text) dst.new result.2)
            (free_units (length (drop result.2 dst.new))) result.0 result.3 }
        ensures enough { IfRoomAsked (decoder_view self.old) Units (length src.now)
            (length dst.old) (result.0 ≢ CoderResult.OutputFull) }
    {
        let mut sink = Utf16Sink::new(dst);
        let (outcome, read, had_errors) = self.decode_text_into(src, &mut sink, last);
        let written = sink.written();
        (outcome, read, written, had_errors)
    }

    /// Decodes bytes into the bytes of a text, with U+FFFD for each malformed sequence, so that the
    /// destination is well-formed UTF-8 again. Results, and what they ask for, are those of
    /// `decode_to_utf8`.
    ///
    /// If a character of `dst` is overwritten in part, its other bytes become 00; nothing else
    /// after what is written changes. The conditions are that the decoder is not finished
    /// (`is_finished`) and that `dst` is well-formed: `utf8_valid_up_to(dst)` is its length.
    pub fn decode_to_str(
        &mut self,
        src: &[u8],
        dst: &mut [u8],
        last: bool,
    ) -> (CoderResult, usize, usize, bool)
        requires finished { (decoder_view self.old).finished ≡ false }
        requires utf8 { IsUtf8 dst.old }
        ensures call { TextCall (decoder_view self.old) (decoder_view self.new) src.now last
            result.1 (λ text. Overwrites dst.old (encode_utf8_all text) dst.new result.2)
            (free_bytes (length (drop result.2 dst.new))) result.0 result.3 }
        ensures enough { IfRoomAsked (decoder_view self.old) Replaced (length src.now)
            (length dst.old) (result.0 ≢ CoderResult.OutputFull) }
        ensures utf8 { IsUtf8 dst.new }
    {
        let (outcome, read, written, had_errors) = self.decode_to_utf8(src, dst, last);
        clear_behind(dst, written);
        (outcome, read, written, had_errors)
    }

    /// Decodes bytes into the bytes of a text up to the first malformed sequence, so that the
    /// destination is well-formed UTF-8 again. Results, and what they ask for, are those of
    /// `decode_to_utf8_without_replacement`.
    ///
    /// If a character of `dst` is overwritten in part, its other bytes become 00; nothing else
    /// after what is written changes. The conditions are that the decoder is not finished
    /// (`is_finished`) and that `dst` is well-formed: `utf8_valid_up_to(dst)` is its length.
    pub fn decode_to_str_without_replacement(
        &mut self,
        src: &[u8],
        dst: &mut [u8],
        last: bool,
    ) -> (DecoderResult, usize, usize)
        requires finished { (decoder_view self.old).finished ≡ false }
        requires utf8 { IsUtf8 dst.old }
        ensures call { DecoderCall (decoder_view self.old) (decoder_view self.new) src.now last
            result.1 (λ text. Overwrites dst.old (encode_utf8_all text) dst.new result.2)
            (free_bytes (length (drop result.2 dst.new))) result.0 }
        ensures enough { IfRoomAsked (decoder_view self.old) Bytes (length src.now)
            (length dst.old) (result.0 ≢ DecoderResult.OutputFull) }
        ensures utf8 { IsUtf8 dst.new }
    {
        let (outcome, read, written) = self.decode_to_utf8_without_replacement(src, dst, last);
        clear_behind(dst, written);
        (outcome, read, written)
    }

    /// Decodes bytes into the spare capacity of a text, after what it has, with U+FFFD for each
    /// malformed sequence. Returns how the call ended, how many bytes of `src` were read, and
    /// whether a malformed sequence was replaced.
    ///
    /// The capacity stays as it is: `OutputFull` comes only if fewer than 4 bytes of it are spare
    /// then and something is left to do, and not if as many were spare as `max_utf8_buffer_length`
    /// returns.
    /// The condition, that the decoder is not finished, is tested by `is_finished`.
    pub fn decode_to_string(
        &mut self,
        src: &[u8],
        dst: &mut String,
        last: bool,
    ) -> (CoderResult, usize, bool)
        requires { (decoder_view self.old).finished ≡ false }
        ensures capacity { string_capacity dst.new ≡ string_capacity dst.old }
        ensures call { TextCall (decoder_view self.old) (decoder_view self.new) src.now last
            result.1 (λ text. string_bytes dst.new ≡ string_bytes dst.old ++ encode_utf8_all text)
            (free_bytes (string_capacity dst.new - string_len dst.new)) result.0 result.2 }
        ensures enough { IfRoomAsked (decoder_view self.old) Replaced (length src.now)
            (string_capacity dst.old - string_len dst.old) (result.0 ≢ CoderResult.OutputFull) }
    {
        let mut bytes = take_bytes(dst);
        let len = fill_spare(&mut bytes);
        let spare = &mut bytes[len..];
        let (outcome, read, written, had_errors) = self.decode_to_utf8(src, spare, last);
        put_bytes(dst, bytes, len + written);
        (outcome, read, had_errors)
    }

    /// Decodes bytes into the spare capacity of a text, after what it has, up to the first
    /// malformed sequence. Returns how the call ended, as `decode_to_utf8_without_replacement`
    /// does, and how many bytes of `src` were read.
    ///
    /// The capacity stays as it is: `OutputFull` comes only if fewer than 4 bytes of it are spare
    /// then and something is left to do, and not if as many were spare as
    /// `max_utf8_buffer_length_without_replacement` returns. The condition, that the decoder is not
    /// finished, is tested by `is_finished`.
    pub fn decode_to_string_without_replacement(
        &mut self,
        src: &[u8],
        dst: &mut String,
        last: bool,
    ) -> (DecoderResult, usize)
        requires { (decoder_view self.old).finished ≡ false }
        ensures capacity { string_capacity dst.new ≡ string_capacity dst.old }
        ensures call { DecoderCall (decoder_view self.old) (decoder_view self.new) src.now last
            result.1 (λ text. string_bytes dst.new ≡ string_bytes dst.old ++ encode_utf8_all text)
            (free_bytes (string_capacity dst.new - string_len dst.new)) result.0 }
        ensures enough { IfRoomAsked (decoder_view self.old) Bytes (length src.now)
            (string_capacity dst.old - string_len dst.old) (result.0 ≢ DecoderResult.OutputFull) }
    {
        let mut bytes = take_bytes(dst);
        let len = fill_spare(&mut bytes);
        let spare = &mut bytes[len..];
        let (outcome, read, added) = self.decode_to_utf8_without_replacement(src, spare, last);
        put_bytes(dst, bytes, len + added);
        (outcome, read)
    }
}

// Whether nothing may follow a call that ended so.
fn finishes(last: bool, outcome: DecoderResult) -> bool
    ensures { result ≡ finishes last outcome }
{
    last && matches!(outcome, DecoderResult::InputEmpty)
}

// What is counted for bytes that are held.
fn ahead(held: &[u8]) -> usize
    ensures { result ≡ ahead held.now }
{
    match held {
        [] => 0,
        _ => 2,
    }
}

// The greater of two numbers if the second is asked for, and there.
fn greater_if(is_asked: bool, other: Option<usize>, number: usize) -> Option<usize>
    ensures { result ≡ greater_if is_asked other (Some number) }
{
    if !is_asked {
        return Some(number);
    }
    Some(number.max(other?))
}

// Takes the bytes of a text, and leaves none.
fn take_bytes(text: &mut String) -> Vec<u8>
    ensures bytes { result.items ≡ string_bytes text.old }
    ensures len { vec_len result ≡ string_len text.old }
    ensures capacity { vec_capacity result ≡ string_capacity text.old }
    ensures utf8 { IsUtf8 result.items }
{
    // For the proof alone: `as_str` promises that the bytes are UTF-8, `into_bytes` does not.
    let _ = text.as_str();
    let empty = String::new(*text.allocator());
    mem::replace(text, empty).into_bytes()
}

// Makes the first bytes of these a text.
fn put_bytes(text: &mut String, mut bytes: Vec<u8>, len: usize)
    requires utf8 { IsUtf8 (take len bytes.items) }
    requires within { len ≤ length bytes.items }
    ensures bytes { string_bytes text.new ≡ take len bytes.items }
    ensures len { string_len text.new ≡ len }
    ensures capacity { string_capacity text.new ≡ vec_capacity bytes }
{
    bytes.truncate(len);
    *text = unsafe { String::from_utf8_unchecked(bytes) };
}

impl<'t> fmt::Debug for Decoder<'t> {
    fn fmt<W: fmt::Write>(&self, f: &mut fmt::Formatter<W>) -> fmt::Result {
        f.debug_struct("Decoder")
            .field("encoding", &self.encoding().name())
            .finish()
    }
}
