//! The encoder of x-user-defined (the Encoding Standard, section 14.5.2, "x-user-defined encoder").

ghost use Rattle.std.specs.Prelude.{◌≡◌};
ghost use Rattle.encoding_mem.specs.calls.EncoderRule.{IsFreshEncoder};
ghost use Rattle.encoding_mem.specs.calls.EncodedLength.{encoded_length_single_byte};
ghost use Rattle.encoding_tables.specs.EachByte.{form_by_byte};
ghost use Rattle.encoding_tables.specs.laws.EachByte.{fits_by_byte};
ghost use Rattle.encoding_tables.specs.UserDefined.{byte_of_user_char, user_defined_coding};
ghost use Rattle.encoding_tables.specs.laws.UserDefined.{user_defined_ascii, user_defined_laws};

use crate::single_byte_encoder::form_of_byte;
use encoding_mem::encode::StatelessRule;
use encoding_mem::form::Form;
use encoding_mem::room::EncodedLength;
use encoding_mem::source_encoder::SourceEncoder;

/// The encoder of x-user-defined (the Encoding Standard, section 14.5.2), which needs no index:
/// ASCII is itself, and U+F780 to U+F7FF are the bytes from 80; any other character is unmappable.
/// It has no state.
#[derive(Drop)]
pub struct UserDefinedEncoder {}

impl UserDefinedEncoder {
    /// An encoder of a new stream.
    pub fn new() -> Self
        ensures { IsFreshEncoder (⟦<UserDefinedEncoder as SourceEncoder>⟧.parts result) 1
            user_defined_coding encoded_length_single_byte }
    {
        UserDefinedEncoder {}
    }
}

impl StatelessRule for UserDefinedEncoder {
    ghost need = { λ _. 1 };

    ghost form = { λ _. form_by_byte byte_of_user_char };

    ghost limits = { λ _. encoded_length_single_byte };

    ghost laws = { λ _. user_defined_laws };

    ghost fits = { λ _. fits_by_byte byte_of_user_char };

    ghost ascii = { λ _. user_defined_ascii };

    #[inline(always)]
    fn form_of(&self, c: char) -> Form {
        form_of_byte(c, byte_of(c))
    }

    fn encoded_length(&self) -> EncodedLength {
        EncodedLength::single_byte()
    }
}

// The byte of a character.
#[inline(always)]
fn byte_of(c: char) -> Option<u8>
    ensures { result ≡ byte_of_user_char c }
{
    match c {
        '\0'..='\x7F' => Some(c as u8),
        '\u{F780}'..='\u{F7FF}' => Some((0x80 + (c as u32 - 0xF780)) as u8),
        _ => None,
    }
}
