//! Numeric character references, as they are written for characters without bytes.

ghost use Rattle.std.specs.Prelude.{◌≡◌, ◌≤◌, ◌<◌, ◌+◌, ◌^◌, ◌++◌};
ghost use Rattle.std.specs.Prelude.{codes, drop, length, take, true};
ghost use Rattle.std.specs.Fmt.{digit_glyph, digits};
ghost use Rattle.encoding_mem.specs.Coding.{reference_bytes};

use encoding_mem::Reference;
use encoding_mem::encode::put_all;
use itoa::Buffer;

/// Writes the numeric character reference of `c` (the HTML Standard, section 13.1.4) in the given
/// form at the start of `dst`, and returns its length in bytes. The bytes after it stay as they
/// were.
///
/// `Reference::Decimal` is `&#`, the number of `c` in decimal, `;`. `Reference::Hexadecimal` is
/// `&#x`, the number in hexadecimal with `A` to `F` in upper case, `;`. Neither has a zero before
/// its first other digit; that of U+0000 is `0`.
///
/// Ten bytes are enough: no number is above 1114111, hexadecimal 10FFFF, so at most seven digits
/// stand between three bytes, or six between four.
pub fn write_reference(c: char, form: Reference, dst: &mut [u8; 10]) -> usize
    ensures size { result ≡ length (reference_bytes form c) }
    ensures fits { result ≤ 10 }
    ensures reference { take result dst.new ≡ reference_bytes form c }
    ensures behind { drop result dst.new ≡ drop result dst.old }
{
    let number = u32::from(c);
    match form {
        Reference::Decimal => {
            let mut buffer = Buffer::new();
            put_parts(b"&#", buffer.format(number).as_bytes(), dst)
        }
        Reference::Hexadecimal => {
            let mut buffer = [0; 6];
            put_parts(b"&#x", hexadecimal_digits(number, &mut buffer), dst)
        }
    }
}

// Puts the mark before the digits, the digits and the semicolon at the start of `dst`, and returns
// how many bytes they are.
fn put_parts(mark: &[u8], digits: &[u8], dst: &mut [u8; 10]) -> usize
    requires { length mark.now + length digits.now < 10 }
    ensures size { result ≡ length mark.now + length digits.now + 1 }
    ensures parts { take result dst.new ≡ mark.now ++ (digits.now ++ codes ";") }
    ensures behind { drop result dst.new ≡ drop result dst.old }
{
    let digits_at = put_all(dst, 0, mark);
    let end_at = put_all(dst, digits_at, digits);
    put_all(dst, end_at, b";")
}

// The hexadecimal digits of a number that has six at most, in upper case and with no zero before
// them, as the end of `buffer`.
fn hexadecimal_digits(number: u32, buffer: &mut [u8; 6]) -> &[u8]
    requires { number < 16 ^ 6 }
    ensures digits { result.now ≡ digits 16 true number }
    ensures few { length result.now ≤ 6 }
{
    let mut start = buffer.len();
    let mut rest = number;
    'digits: loop {
        start -= 1;
        buffer[start] = hexadecimal_digit(rest % 16);
        rest /= 16;
        if rest == 0 {
            break;
        }
    }
    &buffer[start..]
}

fn hexadecimal_digit(value: u32) -> u8
    requires { value < 16 }
    ensures { result ≡ digit_glyph true value }
{
    if value < 10 {
        b'0' + value as u8
    } else {
        b'A' + (value as u8 - 10)
    }
}
