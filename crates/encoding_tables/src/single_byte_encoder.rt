//! The encoder of the single-byte encodings (the Encoding Standard, section 9.2, "single-byte
//! encoder").

ghost use Rattle.std.specs.Prelude.{◌≡◌, ◌+◌, true, [], ◌∷◌};
ghost use Rattle.std.specs.Option.{option_map};
ghost use Rattle.encoding_mem.specs.Coding.{form_of_bytes};
ghost use Rattle.encoding_mem.specs.calls.EncoderRule.{IsFreshEncoder};
ghost use Rattle.encoding_mem.specs.calls.EncodedLength.{encoded_length_single_byte};
ghost use Rattle.encoding_tables.specs.EachByte.{form_by_byte};
ghost use Rattle.encoding_tables.specs.IndexLists.{has, index_entries};
ghost use Rattle.encoding_tables.specs.Kinds.{is_single_byte_kind};
ghost use Rattle.encoding_tables.specs.SingleByte.{single_byte_of_char, single_byte_coding};
ghost use Rattle.encoding_tables.specs.laws.SingleByte.{single_byte_ascii, single_byte_fits};
ghost use Rattle.encoding_tables.specs.laws.SingleByte.{single_byte_laws};

use crate::flat::Flat;
use crate::index_kind::IndexKind;
use crate::tables::Tables;
use encoding_mem::encode::StatelessRule;
use encoding_mem::form::{Bytes, Form};
use encoding_mem::room::EncodedLength;
use encoding_mem::source_encoder::SourceEncoder;

/// The encoder of a single-byte encoding, by its index (the Encoding Standard, section 9.2): ASCII
/// is itself, another character the byte that is 80 more than the least pointer with it; one
/// without a pointer is unmappable. It has no state.
#[derive(Drop)]
pub struct SingleByteEncoder<'a> {
    flat: Flat<'a>,
}

impl<'a> SingleByteEncoder<'a> {
    /// An encoder of a new stream. The conditions are that the index is there, which `Tables::has`
    /// tests, and that it is that of a single-byte encoding, which `IndexKind::is_single_byte`
    /// tests.
    pub fn new(tables: &'a Tables, kind: IndexKind) -> Self
        requires there { has tables.now kind ≡ true }
        requires single { is_single_byte_kind kind ≡ true }
        ensures { IsFreshEncoder (⟦<SingleByteEncoder<'a> as SourceEncoder>⟧.parts result) 1
            (single_byte_coding (index_entries tables.now kind)) encoded_length_single_byte }
    {
        SingleByteEncoder {
            flat: tables.single_byte(kind),
        }
    }
}

impl<'a> StatelessRule for SingleByteEncoder<'a> {
    ghost need = { λ _. 1 };

    ghost form = { λ s. form_by_byte (single_byte_of_char s.flat) };

    ghost limits = { λ _. encoded_length_single_byte };

    ghost laws = { λ s. single_byte_laws s.flat };

    ghost fits = { λ s. single_byte_fits s.flat };

    ghost ascii = { λ s. single_byte_ascii s.flat };

    #[inline(always)]
    fn form_of(&self, c: char) -> Form {
        form_of_byte(c, byte_of(&self.flat, c))
    }

    fn encoded_length(&self) -> EncodedLength {
        EncodedLength::single_byte()
    }
}

// The byte of a character. ASCII is not looked up.
#[inline(always)]
fn byte_of(flat: &Flat<'_>, c: char) -> Option<u8>
    ensures { result ≡ single_byte_of_char flat.now c }
{
    if c < '\u{80}' {
        return Some(c as u8);
    }
    match flat.first_pointer(c, 0, 128) {
        Some(pointer) => Some(0x80 + pointer as u8),
        None => None,
    }
}

// The form of a character, by its byte. One without a byte is reported as it is.
#[inline(always)]
pub(crate) fn form_of_byte(c: char, byte: Option<u8>) -> Form
    ensures { result ≡ form_of_bytes c (option_map (λ b. b ∷ []) byte) }
{
    match byte {
        Some(byte) => Form::Mapped(Bytes::one(byte)),
        None => Form::Unmapped(c),
    }
}
