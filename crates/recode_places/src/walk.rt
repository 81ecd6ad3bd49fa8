//! A walk over an input, which reports what is chosen with its place.

ghost use Rattle.std.specs.Prelude.{◌≡◌, ◌^◌, ◌<◌, ◌≤◌, ◌+◌, ◌++◌, ◌∷◌, [], ℕ, List};
ghost use Rattle.std.specs.Prelude.{IfErr, IfOk, IfSome, MatchResult, OnErr, OnOk, Some, drop};
ghost use Rattle.std.specs.Prelude.{false, length, true};
ghost use Rattle.std.specs.Io.KnownBytes.{IsAtEnd};
ghost use Rattle.std.specs.Str.{chars};
ghost use Rattle.encoding_mem.specs.Piece.{Piece, malformed, sizes, text};
ghost use Rattle.encoding_front.specs.Encodings.{IsReady};
ghost use Rattle.encoding_front.specs.Marks.{marked_pieces};
ghost use Rattle.recode_places.specs.Places.{IsPlaceAfter};
ghost use Rattle.recode_places.specs.Entries.{RisesTo, TellsInOrder, TellsTrue, TellsTrueIn};
ghost use Rattle.recode_places.specs.Findings.{TellsFound, found_in, found_in_text};
ghost use Rattle.recode_places.specs.Fits.{Fits, FitsFrom, GoesOn, IsLeftOfLog, IsNotUnfit};
ghost use Rattle.recode_places.specs.Logs.{TellsLines, bytes, ended};
ghost use Rattle.recode_places.specs.Stops.{CanStopWalk, IsOfLogOrVisitor};
ghost use Rattle.recode_places.specs.declared.entry.Finding.{Finding};
ghost use Rattle.recode_places.specs.calls.LogViews.{choice_left};
ghost use Rattle.recode_places.specs.calls.FatesViews.{TellsFates, asked_by};
ghost use Rattle.recode_places.specs.calls.Walks.{CanWalk, TellsPrefix, WalksChunk, WalksPart};
ghost use Rattle.recode_places.specs.calls.Walks.{FitsAhead, TellsPassed, has_ended};
ghost use Rattle.recode_places.specs.calls.Walks.{walk_state};

use crate::choice::Choice;
use crate::entry::{Entry, Finding, Stop};
use crate::place::Place;
use crate::visitor::Visitor;
use encoding_front::{Decoder, DecoderResult, Encoding, Mark};
use encoding_tables::Tables;
use recode_log::GREATEST_OFFSET;
use std::io::Read;
use std::str;

// How many bytes are read at once, and how many bytes of text are decoded at once.
const CHUNK: usize = 4096;

const TEXT: usize = 8192;

/// How an input is read.
#[derive(Clone, Copy)]
pub struct Reading<'t> {
    /// The encoding of the input, unless a byte order mark says another.
    pub from: Encoding,
    /// What is done with a byte order mark at the start of the input.
    pub mark: Mark,
    /// The indexes that the encoding needs (`Encoding::needs`).
    pub tables: &'t Tables,
}

// How far a walk is.
#[derive(Drop)]
struct Walk<'t> {
    decoder: Decoder<'t>,
    // The place of the next character.
    place: Place,
    // How many bytes the decoder has read.
    read: u64,
    tail: Tail,
}

// What a call of the decoder did: whether it read all bytes and handed over all of their text, and
// how many bytes it read.
#[derive(Clone, Copy)]
struct Part {
    is_done: bool,
    read: usize,
}

// The last bytes that the decoder has read. A malformed sequence ends at most 3 bytes before the
// end of what was read, and has at most 4 bytes: it stands in these.
#[derive(Drop)]
struct Tail {
    bytes: [u8; 8],
}

impl Tail {
    // Takes what was read.
    fn push(&mut self, read: &[u8]) {
        let from = read.len().saturating_sub(8);
        for byte in &read[from..] {
            self.bytes.rotate_left(1);
            self.bytes[7] = *byte;
        }
    }

    // The malformed sequence of this length that ends so many bytes before the end.
    fn sequence(&self, length: u8, after: u8) -> &[u8] {
        let end = 8usize.saturating_sub(usize::from(after));
        let start = end.saturating_sub(usize::from(length));
        &self.bytes[start..end]
    }
}

// Tells a character with its place, and goes past it.
fn tell_character<L: Read, V: Visitor>(
    place: &mut Place,
    c: char,
    choice: &mut Choice<'_, L>,
    visitor: &mut V,
) -> Result<(), Stop>
    requires { place.old.index < 2 ^ 63 }
    ensures told { (ps : List Piece) (t : List ℕ) → IsPlaceAfter place.old t
        → TellsTrue ps (t ++ (c ∷ [])) (V.told visitor.old) (V.told visitor.new) }
    ensures place { OnOk result ((t : List ℕ) → IsPlaceAfter place.old t
        → IsPlaceAfter place.new (t ++ (c ∷ []))) }
    ensures index { OnOk result (place.new.index ≡ place.old.index + 1) }
    ensures lines { OnOk result (TellsLines (choice_left L.remaining choice.old)
        (choice_left L.remaining choice.new) (V.told visitor.old) (V.told visitor.new)) }
    ensures fates { TellsFates (asked_by choice.old) (asked_by choice.new)
        (V.told visitor.old) (V.told visitor.new) }
    ensures rising { RisesTo result place.old.index place.new.index
        (V.told visitor.old) (V.told visitor.new) }
    ensures finds { OnOk result (TellsFound (asked_by choice.old)
        (found_in_text (asked_by choice.old) place.old.index (c ∷ [])) []
        (V.told visitor.old) (V.told visitor.new)) }
    ensures fits { (offset : ℕ) (t : List ℕ) (ps : List Piece)
        → IsLeftOfLog (FitsFrom place.old.index offset (c ∷ t) ps)
        (choice_left L.remaining choice.old)
        → GoesOn result (FitsFrom (place.old.index + 1) offset t ps)
        (choice_left L.remaining choice.new) }
    ensures stop { IfErr result (IsOfLogOrVisitor (asked_by choice.old)) }
{
    match choice.character(place.index, c)? {
        Some(finding) => visitor.entry(Entry {
            place: *place,
            finding,
        })?,
        None => {}
    }
    visitor.characters(c.encode_utf8(&mut [0; 4]))?;
    place.pass(c);
    Ok(())
}

// Tells a text, the first character of which has this place, and goes past it.
fn tell_text<L: Read, V: Visitor>(
    place: &mut Place,
    text: &str,
    choice: &mut Choice<'_, L>,
    visitor: &mut V,
) -> Result<(), Stop>
    requires { place.old.index + length text.now ≤ 2 ^ 63 }
    ensures told { (ps : List Piece) (t : List ℕ) → IsPlaceAfter place.old t
        → TellsTrue ps (t ++ chars text.now) (V.told visitor.old) (V.told visitor.new) }
    ensures place { OnOk result ((t : List ℕ) → IsPlaceAfter place.old t
        → IsPlaceAfter place.new (t ++ chars text.now)) }
    ensures index { OnOk result (place.new.index ≡ place.old.index + length (chars text.now)) }
    ensures lines { OnOk result (TellsLines (choice_left L.remaining choice.old)
        (choice_left L.remaining choice.new) (V.told visitor.old) (V.told visitor.new)) }
    ensures fates { TellsFates (asked_by choice.old) (asked_by choice.new)
        (V.told visitor.old) (V.told visitor.new) }
    ensures rising { RisesTo result place.old.index place.new.index
        (V.told visitor.old) (V.told visitor.new) }
    ensures finds { OnOk result (TellsFound (asked_by choice.old)
        (found_in_text (asked_by choice.old) place.old.index (chars text.now)) []
        (V.told visitor.old) (V.told visitor.new)) }
    ensures fits { (offset : ℕ) (ps : List Piece)
        → IsLeftOfLog (FitsFrom place.old.index offset (chars text.now) ps)
        (choice_left L.remaining choice.old)
        → GoesOn result (Fits place.new.index offset ps) (choice_left L.remaining choice.new) }
    ensures stop { IfErr result (IsOfLogOrVisitor (asked_by choice.old)) }
{
    if choice.passes_over(place.index, text) {
        place.pass_text(text);
        visitor.characters(text)?;
        return Ok(());
    }
    for c in text.chars() {
        tell_character(place, c, choice, visitor)?;
    }
    Ok(())
}

// Tells a malformed sequence, whose U+FFFD has this place.
fn tell_malformed<L: Read, V: Visitor>(
    place: Place,
    offset: u64,
    length: u8,
    choice: &mut Choice<'_, L>,
    visitor: &mut V,
) -> Result<(), Stop>
    ensures told { (ps : List Piece) → IsPlaceAfter place (text ps) → offset ≡ sizes ps
        → TellsTrueIn (ps ++ (malformed length ∷ [])) (V.told visitor.old) (V.told visitor.new) }
    ensures lines { OnOk result (TellsLines (choice_left L.remaining choice.old)
        (choice_left L.remaining choice.new) (V.told visitor.old) (V.told visitor.new)) }
    ensures fates { TellsFates (asked_by choice.old) (asked_by choice.new)
        (V.told visitor.old) (V.told visitor.new) }
    ensures rising { RisesTo result place.index (place.index + 1)
        (V.told visitor.old) (V.told visitor.new) }
    ensures finds { OnOk result (TellsFound (asked_by choice.old)
        ((place.index, Finding.Malformed offset length) ∷ []) []
        (V.told visitor.old) (V.told visitor.new)) }
    ensures fits { (ps : List Piece) → 0 < length
        → IsLeftOfLog (Fits place.index offset (malformed length ∷ ps))
        (choice_left L.remaining choice.old)
        → GoesOn result (Fits (place.index + 1) (offset + length) ps)
        (choice_left L.remaining choice.new) }
    ensures stop { IfErr result (IsOfLogOrVisitor (asked_by choice.old)) }
{
    if choice.malformed(place.index, offset, length)? {
        visitor.entry(Entry {
            place,
            finding: Finding::Malformed { offset, length },
        })?;
    }
    Ok(())
}

impl<'t> Walk<'t> {
    // One call of the decoder. What it gives is handed to the visitor.
    fn part<L: Read, V: Visitor>(
        &mut self,
        chunk: &[u8],
        last: bool,
        buffer: &mut [u8; TEXT],
        choice: &mut Choice<'_, L>,
        visitor: &mut V,
    ) -> Result<Part, Stop>
        requires ready { CanWalk (walk_state self.old) }
        requires limit { self.old.read + length chunk.now ≤ 2 ^ 48 }
        ensures part { IfOk result (λ p. WalksPart (V.told visitor.old) (V.told visitor.new)
            (walk_state self.old) (walk_state self.new) chunk.now last p.read p.is_done) }
        ensures lines { OnOk result (TellsLines (choice_left L.remaining choice.old)
            (choice_left L.remaining choice.new) (V.told visitor.old) (V.told visitor.new)) }
        ensures fates { TellsFates (asked_by choice.old) (asked_by choice.new)
            (V.told visitor.old) (V.told visitor.new) }
        ensures rising { RisesTo result self.old.place.index self.new.place.index
            (V.told visitor.old) (V.told visitor.new) }
        ensures finds { IfOk result (λ p. (r : List ℕ) → (last ≡ true → r ≡ [])
            → TellsPassed (asked_by choice.old) (walk_state self.old) (walk_state self.new)
            (chunk.now ++ r) (drop p.read chunk.now ++ r)
            (V.told visitor.old) (V.told visitor.new)) }
        ensures err { OnErr result (TellsPrefix (V.told visitor.old) (V.told visitor.new)
            (walk_state self.old) chunk.now last) }
        ensures fits { (r : List ℕ) → (last ≡ true → r ≡ [])
            → FitsAhead (walk_state self.old) (choice_left L.remaining choice.old)
            (chunk.now ++ r)
            → MatchResult result (λ p. FitsAhead (walk_state self.new)
            (choice_left L.remaining choice.new) (drop p.read chunk.now ++ r)) IsNotUnfit }
        ensures stop { IfErr result (IsOfLogOrVisitor (asked_by choice.old)) }
    {
        let (outcome, read, written) = self
            .decoder
            .decode_to_utf8_without_replacement(chunk, buffer, last);
        self.read += read as u64;
        self.tail.push(&chunk[..read]);
        // The decoder wrote text: no second check.
        let text = unsafe { str::from_utf8_unchecked(&buffer[..written]) };
        tell_text(&mut self.place, text, choice, visitor)?;
        match outcome {
            DecoderResult::InputEmpty => Ok(Part {
                is_done: true,
                read,
            }),
            DecoderResult::OutputFull => Ok(Part {
                is_done: false,
                read,
            }),
            DecoderResult::Malformed(length, after) => {
                let offset = self.read - u64::from(after) - u64::from(length);
                tell_malformed(self.place, offset, length, choice, visitor)?;
                let bytes = self.tail.sequence(length, after);
                visitor.malformed(bytes, self.decoder.encoding())?;
                self.place.pass('\u{FFFD}');
                Ok(Part {
                    is_done: false,
                    read,
                })
            }
        }
    }

    // Tells all that was read. No bytes are the end of the input.
    fn chunk<L: Read, V: Visitor>(
        &mut self,
        chunk: &[u8],
        choice: &mut Choice<'_, L>,
        visitor: &mut V,
    ) -> Result<(), Stop>
        requires ready { CanWalk (walk_state self.old) }
        requires limit { self.old.read + length chunk.now ≤ 2 ^ 48 }
        ensures chunk { OnOk result (WalksChunk (V.told visitor.old) (V.told visitor.new)
            (walk_state self.old) (walk_state self.new) chunk.now (has_ended chunk.now)) }
        ensures lines { OnOk result (TellsLines (choice_left L.remaining choice.old)
            (choice_left L.remaining choice.new) (V.told visitor.old) (V.told visitor.new)) }
        ensures fates { TellsFates (asked_by choice.old) (asked_by choice.new)
            (V.told visitor.old) (V.told visitor.new) }
        ensures rising { RisesTo result self.old.place.index self.new.place.index
            (V.told visitor.old) (V.told visitor.new) }
        ensures finds { OnOk result ((r : List ℕ) → (has_ended chunk.now ≡ true → r ≡ [])
            → TellsPassed (asked_by choice.old) (walk_state self.old) (walk_state self.new)
            (chunk.now ++ r) r (V.told visitor.old) (V.told visitor.new)) }
        ensures err { OnErr result (TellsPrefix (V.told visitor.old) (V.told visitor.new)
            (walk_state self.old) chunk.now (has_ended chunk.now)) }
        ensures fits { (r : List ℕ) → (has_ended chunk.now ≡ true → r ≡ [])
            → FitsAhead (walk_state self.old) (choice_left L.remaining choice.old)
            (chunk.now ++ r)
            → MatchResult result (λ _. FitsAhead (walk_state self.new)
            (choice_left L.remaining choice.new) r) IsNotUnfit }
        ensures stop { IfErr result (IsOfLogOrVisitor (asked_by choice.old)) }
    {
        let last = chunk.is_empty();
        let mut buffer = [0; TEXT];
        let mut rest = chunk;
        'chunk: loop {
            let part = self.part(rest, last, &mut buffer, choice, visitor)?;
            if part.is_done {
                return Ok(());
            }
            rest = &rest[part.read..];
        }
    }
}

/// Reads an input to its end, and hands the visitor its text, its malformed bytes, and an entry for
/// each thing that is chosen, with its place. An entry is true, also if the call ends with an
/// error: it names a malformed sequence, or a character of the text, of the whole input, read as
/// `reading` says, and its place. A character that is reported is folded in the target that the
/// choice asks, where folds are asked for, or lost there; or the choice goes by a log. Entries come
/// in the order of the input, at most one of each character and of each malformed sequence.
///
/// On success, if the choice goes by a log, the log has the lines of the entries, in their order,
/// and then its end: none was passed over. On success, if the choice goes by no log, nothing
/// is left out: each malformed sequence is reported once, and so is each character that its target
/// loses, or folds, if folds are asked for, each with its place, in the order of the input. The
/// U+FFFD of a malformed sequence is not reported by itself.
///
/// On success the input was read to its end. The error is what the visitor ended with (`Write`,
/// `Memory`), what the log did, if the choice goes by one (`Unfit`, `Log`), `Input` if a read
/// fails, or `TooLong`, which comes only if the input has more than 2^48 bytes. It is not `Unfit`
/// if the log fits the input: if each line names what stands in the input, in its order. The
/// condition, that the indexes of the encoding are there, is tested by `Encoding::is_ready`.
///
/// The clauses on an input or a log speak of a reader that says its bytes, as one over memory does.
/// A file or a standard stream does not say them: of these the clauses promise only that entries
/// come in order, which folds and losses they name, and which errors can come.
pub fn tell_places<R: Read, L: Read, V: Visitor>(
    reader: &mut R,
    reading: Reading<'_>,
    choice: &mut Choice<'_, L>,
    visitor: &mut V,
) -> Result<(), Stop>
    requires { IsReady reading.tables.now reading.from }
    ensures told { IfSome (R.remaining reader.old) (λ x. TellsTrueIn
        (marked_pieces reading.entry.tables.now reading.entry.mark reading.entry.from x)
        (V.told visitor.old) (V.told visitor.new)) }
    ensures lines { OnOk result (TellsLines (choice_left L.remaining choice.old) ended
        (V.told visitor.old) (V.told visitor.new)) }
    ensures fates { TellsFates (asked_by choice.old) (asked_by choice.new)
        (V.told visitor.old) (V.told visitor.new) }
    ensures rising { TellsInOrder (V.told visitor.old) (V.told visitor.new) }
    ensures finds { (x : List ℕ) → R.remaining reader.old ≡ Some x
        → OnOk result (TellsFound (asked_by choice.old) (found_in (asked_by choice.old) 0 0
        (marked_pieces reading.entry.tables.now reading.entry.mark reading.entry.from x)) []
        (V.told visitor.old) (V.told visitor.new)) }
    ensures fits { (x : List ℕ) → R.remaining reader.old ≡ Some x
        → IsLeftOfLog (Fits 0 0
        (marked_pieces reading.entry.tables.now reading.entry.mark reading.entry.from x))
        (choice_left L.remaining choice.old) → IfErr result IsNotUnfit }
    ensures stop { IfErr result (CanStopWalk (asked_by choice.old) (R.remaining reader.old)) }
    ensures end { OnOk result (IsAtEnd (R.remaining reader.new)) }
{
    let mut walk = Walk {
        decoder: Decoder::new(reading.from, reading.mark, Some(reading.tables)),
        place: Place::first(),
        read: 0,
        tail: Tail { bytes: [0; 8] },
    };
    let mut bytes = [0; CHUNK];
    'input: loop {
        let Ok(count) = reader.read(&mut bytes) else {
            return Err(Stop::Input);
        };
        if count as u64 > GREATEST_OFFSET - walk.read {
            return Err(Stop::TooLong);
        }
        walk.chunk(&bytes[..count], choice, visitor)?;
        if count == 0 {
            return choice.finish();
        }
    }
}
