//! The encoder of ISO-2022-JP (the Encoding Standard, section 12.2.2, "ISO-2022-JP encoder").

ghost use Rattle.std.specs.Prelude.{◌≡◌, ◌+◌, ◌/◌, ◌%◌, ◌<◌, IfSome, true, [], ◌∷◌};
ghost use Rattle.encoding_mem.specs.calls.EncoderRule.{IsFreshEncoder};
ghost use Rattle.encoding_mem.specs.calls.EncodedLength.{encoded_length_iso_2022_jp};
ghost use Rattle.encoding_tables.specs.IndexLists.{has, index_entries};
ghost use Rattle.encoding_tables.specs.declared.index_kind.IndexKind.{IndexKind};
ghost use Rattle.encoding_codecs.specs.Iso2022JpForms.{looked_up, iso_2022_jp_pointer, ascii_form};
ghost use Rattle.encoding_codecs.specs.Iso2022JpForms.{ascii_or_roman, iso_2022_jp_coding};
ghost use Rattle.encoding_codecs.specs.laws.Iso2022JpForms.{iso_2022_jp_laws, iso_2022_jp_fits};

use crate::jis::{folded, is_katakana};
use encoding_mem::encode::EncoderRule;
use encoding_mem::form::{Bytes, EscapeState, Form};
use encoding_mem::room::EncodedLength;
use encoding_mem::source_encoder::SourceEncoder;
use encoding_tables::{Flat, IndexKind, Tables};

/// The encoder of ISO-2022-JP, by the indexes jis0208 and iso-2022-jp-katakana (the Encoding
/// Standard, section 12.2.2). An output begins in ASCII, and a call with `last` ends it there.
/// Before a character that the set in force lacks comes the escape to its set, 3 bytes.
///
/// ASCII is one byte, in ASCII or Roman (5C and 7E in ASCII alone). U+00A5 and U+203E are one byte
/// in Roman. Another character is two bytes in the set of JIS X 0208, by its least pointer below
/// 8836 (U+2212 is looked up as U+FF0D, and halfwidth katakana as the index iso-2022-jp-katakana
/// has it). U+000E, U+000F and U+001B are reported as U+FFFD; any other character without a pointer
/// is unmappable.
#[derive(Drop)]
pub struct Iso2022JpEncoder<'a> {
    jis0208: Flat<'a>,
    katakana: Flat<'a>,
    set: EscapeState,
}

impl<'a> Iso2022JpEncoder<'a> {
    /// An encoder of a new stream, in ASCII. The conditions, that both indexes are in `tables`, are
    /// tested by `Tables::has`.
    pub fn new(tables: &'a Tables) -> Self
        requires jis0208 { has tables.now IndexKind.Jis0208 ≡ true }
        requires katakana { has tables.now IndexKind.Iso2022JpKatakana ≡ true }
        ensures { IsFreshEncoder (⟦<Iso2022JpEncoder<'a> as SourceEncoder>⟧.parts result) 3
            (iso_2022_jp_coding (index_entries tables.now IndexKind.Jis0208)
            (index_entries tables.now IndexKind.Iso2022JpKatakana))
            encoded_length_iso_2022_jp }
    {
        Iso2022JpEncoder {
            jis0208: tables.flat(IndexKind::Jis0208),
            katakana: tables.flat(IndexKind::Iso2022JpKatakana),
            set: EscapeState::Ascii,
        }
    }

    // What is looked up for a character: a half-width katakana as its full-width one, and the minus sign as
    // the full-width hyphen.
    #[inline(always)]
    fn looked_up(&self, c: char) -> Option<char>
        ensures { result ≡ looked_up self.now.katakana c }
    {
        if is_katakana(c) {
            self.katakana.value(c as u32 - 0xFF61)
        } else {
            Some(folded(c))
        }
    }

    // The least pointer of a character.
    #[inline(always)]
    fn pointer(&self, c: char) -> Option<u32>
        ensures pointer { result ≡ iso_2022_jp_pointer self.now.jis0208 self.now.katakana c }
        ensures before { IfSome result (λ p. p < 8836) }
    {
        match self.looked_up(c) {
            Some(c) => self.jis0208.first_pointer(c, 0, 8836),
            None => None,
        }
    }
}

impl<'a> EncoderRule for Iso2022JpEncoder<'a> {
    ghost parts = { λ e. record {
      need = 3;
      coding = iso_2022_jp_coding e.jis0208 e.katakana;
      set = e.set;
      limits = encoded_length_iso_2022_jp;
    } };

    ghost laws = { λ e. iso_2022_jp_laws e.jis0208 e.katakana };

    ghost fits = { λ e. iso_2022_jp_fits e.jis0208 e.katakana };

    #[inline(always)]
    fn step(&self, from: EscapeState, c: char) -> (EscapeState, Form) {
        if c < '\u{80}' {
            let next = if c == '\\' || c == '~' {
                EscapeState::Ascii
            } else {
                ascii_or_roman(from)
            };
            return (next, ascii_form(c as u8));
        }
        if c == '\u{A5}' {
            return (EscapeState::Roman, Form::Mapped(Bytes::one(0x5C)));
        }
        if c == '\u{203E}' {
            return (EscapeState::Roman, Form::Mapped(Bytes::one(0x7E)));
        }
        match self.pointer(c) {
            Some(pointer) => (EscapeState::Jis, Form::Mapped(pair(pointer))),
            None => (ascii_or_roman(from), Form::Unmapped(c)),
        }
    }

    #[inline(always)]
    fn copies_ascii(&self, _from: EscapeState) -> bool {
        false
    }

    #[inline(always)]
    fn copies_utf8(&self, _from: EscapeState) -> bool {
        false
    }

    fn current_set(&self) -> EscapeState {
        self.set
    }

    fn enter(&mut self, next: EscapeState) {
        self.set = next;
    }

    fn encoded_length(&self) -> EncodedLength {
        EncodedLength::iso_2022_jp()
    }

    #[inline(always)]
    fn escape(&self, from: EscapeState, to: EscapeState) -> Bytes {
        match (from, to) {
            (EscapeState::Ascii, EscapeState::Ascii)
            | (EscapeState::Roman, EscapeState::Roman)
            | (EscapeState::Jis, EscapeState::Jis) => Bytes::none(),
            (_, EscapeState::Ascii) => Bytes::three(0x1B, 0x28, 0x42),
            (_, EscapeState::Roman) => Bytes::three(0x1B, 0x28, 0x4A),
            (_, EscapeState::Jis) => Bytes::three(0x1B, 0x24, 0x42),
        }
    }
}

// The set of a character that may be written in ASCII and in Roman.
#[inline(always)]
fn ascii_or_roman(set: EscapeState) -> EscapeState
    ensures { result ≡ ascii_or_roman set }
{
    match set {
        EscapeState::Jis => EscapeState::Ascii,
        set => set,
    }
}

// A control that would read as a shift or an escape is not written.
#[inline(always)]
fn ascii_form(c: u8) -> Form
    ensures { result ≡ ascii_form c }
{
    match c {
        0x0E | 0x0F | 0x1B => Form::Unmapped('\u{FFFD}'),
        _ => Form::Mapped(Bytes::one(c)),
    }
}

// The two bytes of a pointer.
#[inline(always)]
fn pair(pointer: u32) -> Bytes
    requires { pointer < 8836 }
    ensures { result ≡ (0x21 + pointer / 94) ∷ (0x21 + pointer % 94) ∷ [] }
{
    Bytes::two(0x21 + (pointer / 94) as u8, 0x21 + (pointer % 94) as u8)
}
