//! What Shift_JIS, EUC-JP and ISO-2022-JP share.

ghost use Rattle.std.specs.Prelude.{◌≡◌, true};
ghost use Rattle.encoding_codecs.specs.JisForms.{is_katakana_byte, katakana_of_byte, is_katakana};
ghost use Rattle.encoding_codecs.specs.JisForms.{byte_of_katakana, folded};

// Whether a byte is one of halfwidth katakana.
#[inline(always)]
pub(crate) fn is_katakana_byte(byte: u8) -> bool
    ensures { result ≡ is_katakana_byte byte }
{
    matches!(byte, 0xA1..=0xDF)
}

// The halfwidth katakana of a byte.
#[inline(always)]
pub(crate) fn katakana_of_byte(byte: u8) -> char
    requires { is_katakana_byte byte ≡ true }
    ensures { result ≡ katakana_of_byte byte }
{
    char::from_u32(0xFF61 + (byte as u32 - 0xA1)).unwrap()
}

// Whether a character is halfwidth katakana.
#[inline(always)]
pub(crate) fn is_katakana(c: char) -> bool
    ensures { result ≡ is_katakana c }
{
    matches!(c, '\u{FF61}'..='\u{FF9F}')
}

// The byte of halfwidth katakana.
#[inline(always)]
pub(crate) fn byte_of_katakana(c: char) -> u8
    requires { is_katakana c ≡ true }
    ensures { result ≡ byte_of_katakana c }
{
    0xA1 + (c as u32 - 0xFF61) as u8
}

// The character that is looked up for a character.
#[inline(always)]
pub(crate) fn folded(c: char) -> char
    ensures { result ≡ folded c }
{
    if c == '\u{2212}' { '\u{FF0D}' } else { c }
}
