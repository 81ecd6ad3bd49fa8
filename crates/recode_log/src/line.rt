//! The lines of the log, to bytes and back.

ghost use Rattle.std.specs.Prelude.{◌≡◌, ℕ, ◌+◌, ◌^◌, ◌<◌, ◌≤◌, ◌↔◌, ◌++◌, length, take, drop};
ghost use Rattle.std.specs.Prelude.{position, ◌==◌, IsTrue, IfSome};
ghost use Rattle.std.specs.Fmt.{decimal};
ghost use Rattle.recode_log.specs.Line.{row_bytes, two_numbers};

use itoa::Buffer;
use std::str;

/// The greatest offset, in bytes, and the greatest index, in characters, that a line of the log can
/// name: 2^48.
pub const GREATEST_OFFSET: u64 = 1 << 48;

/// One line of the log: a word and two decimal numbers with a space between, and a line feed at the
/// end, as in `bad 6 1` and `lost 1 128169`.
#[derive(Clone, Copy, PartialEq, Eq, Debug)]
pub enum LogLine {
    /// A run of bytes that stands for no character. `offset` is where it begins, in bytes from the
    /// start of the input, and `length` is how many bytes it has.
    Bad { offset: u64, length: u8 },
    /// A character that the target encoding has no bytes for. `index` is how many characters of
    /// the text stand before it, and `scalar` is the character, which the line gives by its number;
    /// U+FFFD for U+000E, U+000F and U+001B, which ISO-2022-JP refuses (the Encoding Standard,
    /// section 12.2.2).
    Lost { index: u64, scalar: char },
}

impl LogLine {
    ghost use Rattle.recode_log.specs.Line.{IsValid, HasScalar, line_bytes};
    ghost use Rattle.recode_log.specs.declared.line.LogLine.{LogLine};

    /// Whether the offset or the index is at most `GREATEST_OFFSET`, and the length is 1 to 4
    /// bytes: the test of the condition of `write_into`.
    pub fn is_valid(&self) -> bool
        ensures { IsTrue result ↔ IsValid self.now }
    {
        match *self {
            LogLine::Bad { offset, length } => {
                offset <= GREATEST_OFFSET && (1..=4).contains(&length)
            }
            LogLine::Lost { index, scalar: _ } => index <= GREATEST_OFFSET,
        }
    }

    /// Writes the line at the start of `dst`, and returns its length in bytes, line feed included;
    /// the bytes after it stay as they were. A valid line always fits. The condition, that the line
    /// is valid, is tested by `is_valid`.
    pub fn write_into(&self, dst: &mut [u8; 32]) -> usize
        requires { IsValid self.now }
        ensures size { result ≡ length (line_bytes self.now) }
        ensures line { take result dst.new ≡ line_bytes self.now }
        ensures behind { drop result dst.new ≡ drop result dst.old }
        ensures fits { result ≤ 32 }
    {
        match *self {
            LogLine::Bad { offset, length } => write_row(dst, b"bad ", offset, u32::from(length)),
            LogLine::Lost { index, scalar } => write_row(dst, b"lost ", index, u32::from(scalar)),
        }
    }

    /// Reads one line: the valid line for which `write_into` writes exactly these bytes, line feed
    /// included, or `None` if there is no such line.
    ///
    /// No two valid lines have the same bytes. Nothing else is accepted: no sign, no leading zero,
    /// no second space, no carriage return, and no byte after the line feed.
    pub fn parse(bytes: &[u8]) -> Option<LogLine>
        ensures valid { IfSome result IsValid }
        ensures line { IfSome result (λ line. line_bytes line ≡ bytes.now) }
        ensures only { (line : LogLine) → IsValid line → HasScalar line →
            line_bytes line ≡ bytes.now → result ≡ Some line }
    {
        let line = if let Some((offset, length)) = read_row(bytes, b"bad ") {
            let length = u8::try_from(length).ok()?;
            LogLine::Bad { offset, length }
        } else {
            let (index, scalar) = read_row(bytes, b"lost ")?;
            let scalar = char::from_u32(u32::try_from(scalar).ok()?)?;
            LogLine::Lost { index, scalar }
        };
        line.is_valid().then_some(line)
    }
}

/// Writes a row of a message at the start of `dst`, in the form of a line of the log with another
/// word. The row is that word, which is at most 32 bytes, two decimal numbers with a space between,
/// and a line feed. Returns its length in bytes, line feed included. The bytes after it stay as
/// they were.
pub fn write_message(dst: &mut [u8; 64], word: &[u8], first: u64, second: u32) -> usize
    requires { length word.now ≤ 32 }
    ensures size { result ≡ length (row_bytes word.now first second) }
    ensures line { take result dst.new ≡ row_bytes word.now first second }
    ensures behind { drop result dst.new ≡ drop result dst.old }
    ensures fits { result ≤ 64 }
{
    write_row(dst, word, first, second)
}

// Writes a line at the start, and returns where it ends.
fn write_row(dst: &mut [u8], word: &[u8], offset: u64, value: u32) -> usize
    requires { length (row_bytes word.now offset value) ≤ length dst.old }
    ensures size { result ≡ length (row_bytes word.now offset value) }
    ensures line { take result dst.new ≡ row_bytes word.now offset value }
    ensures behind { drop result dst.new ≡ drop result dst.old }
    ensures room { length dst.new ≡ length dst.old }
{
    let mut digits = Buffer::new();
    let offset_at = put(dst, 0, word);
    let space_at = put(dst, offset_at, digits.format(offset).as_bytes());
    let value_at = put(dst, space_at, b" ");
    let end_at = put(dst, value_at, digits.format(value).as_bytes());
    put(dst, end_at, b"\n")
}

// Copies the bytes to `at`, and returns where they end.
fn put(dst: &mut [u8], at: usize, bytes: &[u8]) -> usize
    requires { at + length bytes.now ≤ length dst.old }
    ensures size { result ≡ at + length bytes.now }
    ensures prefix { take result dst.new ≡ take at dst.old ++ bytes.now }
    ensures behind { drop result dst.new ≡ drop result dst.old }
    ensures room { length dst.new ≡ length dst.old }
{
    let end = at + bytes.len();
    dst[at..end].copy_from_slice(bytes);
    end
}

// Reads the two numbers of a line with this word, as `write_row` writes them.
fn read_row(bytes: &[u8], word: &[u8]) -> Option<(u64, u64)>
    ensures row { IfSome result (λ numbers. row_bytes word.now numbers.0 numbers.1 ≡ bytes.now) }
    ensures only { (offset value : ℕ) → offset < 2 ^ 64 → value < 2 ^ 64 →
        row_bytes word.now offset value ≡ bytes.now → result ≡ Some (offset, value) }
{
    read_pair(bytes.strip_prefix(word)?.strip_suffix(b"\n")?)
}

// Reads two numbers with a space between them.
fn read_pair(bytes: &[u8]) -> Option<(u64, u64)>
    ensures pair { IfSome result (λ numbers. two_numbers numbers.0 numbers.1 ≡ bytes.now) }
    ensures only { (offset value : ℕ) → offset < 2 ^ 64 → value < 2 ^ 64 →
        two_numbers offset value ≡ bytes.now → result ≡ Some (offset, value) }
{
    let space = first_space(bytes)?;
    let offset = read_number(&bytes[..space])?;
    let value = read_number(&bytes[space + 1..])?;
    Some((offset, value))
}

// Where the first space stands.
fn first_space(bytes: &[u8]) -> Option<usize>
    ensures { result ≡ position (λ byte. byte == 32) bytes.now }
{
    bytes.iter().position(|byte| *byte == b' ')
}

// Reads a number in decimal digits, with no sign and no leading zero.
fn read_number(digits: &[u8]) -> Option<u64>
    ensures digits { IfSome result (λ number. decimal number ≡ digits.now) }
    ensures only { (number : ℕ) → number < 2 ^ 64 → decimal number ≡ digits.now →
        result ≡ Some number }
{
    let number = str::from_utf8(digits).ok()?.parse::<u64>().ok()?;
    let mut written = Buffer::new();
    (written.format(number).as_bytes() == digits).then_some(number)
}
