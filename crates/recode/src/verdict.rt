//! Whether what is written reads back as the text that it is written for: it is read back beside
//! that text, as it is written, and nothing is kept.

use crate::codec_calls::{PivotText, decode_to_pivot, text_in};
use crate::job::Pivot;
use encoding_front::StreamDecoder;
use encoding_mem::DecoderResult;

/// What can be said so far of whether the output reads back as the text.
#[derive(Drop)]
pub struct Verdict<D> {
    /// What reads the output back: a decoder of its encoding, without mark handling.
    pub reader: D,
    /// Whether the log alone says what is lost: each character that has bytes reads back as itself,
    /// so nothing is read back.
    pub by_log: bool,
    /// Whether nothing was lost so far. What is lost stays lost.
    pub faithful: bool,
}

impl<D: StreamDecoder> Verdict<D> {
    ghost use Rattle.std.specs.Prelude.{◌≡◌, ◌+◌, false, length};
    ghost use Rattle.encoding_front.specs.calls.Stream.{IsMadeFrom};
    ghost use Rattle.encoding_tables.specs.IndexLists.{IndexLists};
    ghost use Rattle.recode.specs.calls.Buffers.{HoldsAnyCharacter, KeepsRoom, is_wide};
    ghost use Rattle.recode.specs.calls.PivotText.{is_in_units, pivot_chars, IsWholeText};
    ghost use Rattle.recode.specs.calls.Verdict.{IsCompared, IsReadBack, NeedsForm};
    ghost use Rattle.recode.specs.calls.VerdictView.{verdict_view};
    ghost use Rattle.recode.specs.Work.{IsCounted};

    // Reads back what was written for a text, and compares it with that, part by part: at most a
    // call for each character, and one more.
    fn compare(
        &mut self,
        written: &[u8],
        text: PivotText<'_>,
        check: &mut Pivot<'_>,
        calls: &mut u64,
    )
        requires open_ { (D.view self.old.reader).finished ≡ false }
        requires check { HoldsAnyCharacter check.old }
        requires form { is_wide check.old ≡ is_in_units text }
        requires text { IsWholeText text }
        ensures open_ { (D.view self.new.reader).finished ≡ false }
        ensures by_log { self.new.by_log ≡ self.old.by_log }
        ensures verdict { IsCompared (verdict_view D.view self.old) (verdict_view D.view self.new)
            written.now (pivot_chars text.entry) }
        ensures calls { IsCounted 1 (length (pivot_chars text.entry) + 1) calls.old calls.new }
        ensures made { (t : IndexLists) → IsMadeFrom t (D.view self.old.reader)
            → IsMadeFrom t (D.view self.new.reader) }
        ensures check { KeepsRoom check.old check.new }
    {
        let mut left = written;
        let mut expected = text;
        'parts: loop {
            let call = decode_to_pivot(&mut self.reader, left, check, false, calls);
            let part = text_in(check, call.written);
            let Some(rest) = expected.strip_prefix(part) else {
                self.faithful = false;
                return;
            };
            match call.answer {
                DecoderResult::InputEmpty => {
                    self.faithful = rest.is_empty();
                    return;
                }
                DecoderResult::OutputFull => {}
                DecoderResult::Malformed(_, _) => {
                    self.faithful = false;
                    return;
                }
            }
            left = &left[call.read..];
            expected = rest;
        }
    }

    /// Reads back what a call of an encoder wrote for the text that it read, if that has to be: not
    /// if the log alone says what is lost, and not once something is lost.
    pub fn read_back(
        &mut self,
        written: &[u8],
        text: PivotText<'_>,
        check: &mut Pivot<'_>,
        calls: &mut u64,
    )
        requires open_ { (D.view self.old.reader).finished ≡ false }
        requires check { HoldsAnyCharacter check.old }
        requires form { NeedsForm (verdict_view D.view self.old) check.old text }
        requires text { IsWholeText text }
        ensures verdict { IsReadBack (verdict_view D.view self.old) (verdict_view D.view self.new)
            written.now (pivot_chars text.entry) }
        ensures calls { IsCounted 0 (length (pivot_chars text.entry) + 1) calls.old calls.new }
        ensures made { (t : IndexLists) → IsMadeFrom t (D.view self.old.reader)
            → IsMadeFrom t (D.view self.new.reader) }
        ensures check { KeepsRoom check.old check.new }
    {
        if !self.by_log && self.faithful {
            self.compare(written, text, check, calls);
        }
    }
}
