//! One line of an index text: whether it is skipped, and what row it is.

ghost use Rattle.std.specs.Prelude.{◌≡◌, ◌^◌, ◌<◌, ◌≤◌, true, length, Some, None, IfSome};
ghost use Rattle.std.specs.List.{prefix_len, list_all};
ghost use Rattle.encoding_index.specs.IndexLine.{is_hex_digit, is_space, is_blank, is_skipped};
ghost use Rattle.encoding_index.specs.IndexLine.{is_row_end, pointer_in, code_in, row_in};
ghost use Rattle.encoding_index.specs.laws.Digits.{hex_or_none, HaveDigits, AreEnded};
ghost use Rattle.encoding_index.specs.laws.RowStarts.{row_start};

// Whether a line has blanks alone.
fn is_blank(line: &[u8]) -> bool
    ensures { result ≡ list_all is_blank line.now }
{
    line.iter().all(|b| *b == b' ' || *b == b'\t')
}

/// Whether a line has blanks alone, or is a comment.
#[tactic(auto, unfolding(crate::specs::IndexLine::is_skipped))]
pub(crate) fn is_skipped(line: &[u8]) -> bool
    ensures { result ≡ is_skipped line.now }
{
    is_blank(line) || line.starts_with(b"#")
}

// The value of each byte that is a hexadecimal digit in upper case, and 16 for any other. Digits
// are most of what is read of a text, and a table has no branch.
const HEX_VALUES: [u8; 256] = [
    16, 16, 16, 16, 16, 16, 16, 16, 16, 16, 16, 16, 16, 16, 16, 16, 16, 16, 16, 16, 16, 16, 16, 16,
    16, 16, 16, 16, 16, 16, 16, 16, 16, 16, 16, 16, 16, 16, 16, 16, 16, 16, 16, 16, 16, 16, 16, 16,
    0, 1, 2, 3, 4, 5, 6, 7, 8, 9, 16, 16, 16, 16, 16, 16, 16, 10, 11, 12, 13, 14, 15, 16, 16, 16,
    16, 16, 16, 16, 16, 16, 16, 16, 16, 16, 16, 16, 16, 16, 16, 16, 16, 16, 16, 16, 16, 16, 16, 16,
    16, 16, 16, 16, 16, 16, 16, 16, 16, 16, 16, 16, 16, 16, 16, 16, 16, 16, 16, 16, 16, 16, 16, 16,
    16, 16, 16, 16, 16, 16, 16, 16, 16, 16, 16, 16, 16, 16, 16, 16, 16, 16, 16, 16, 16, 16, 16, 16,
    16, 16, 16, 16, 16, 16, 16, 16, 16, 16, 16, 16, 16, 16, 16, 16, 16, 16, 16, 16, 16, 16, 16, 16,
    16, 16, 16, 16, 16, 16, 16, 16, 16, 16, 16, 16, 16, 16, 16, 16, 16, 16, 16, 16, 16, 16, 16, 16,
    16, 16, 16, 16, 16, 16, 16, 16, 16, 16, 16, 16, 16, 16, 16, 16, 16, 16, 16, 16, 16, 16, 16, 16,
    16, 16, 16, 16, 16, 16, 16, 16, 16, 16, 16, 16, 16, 16, 16, 16, 16, 16, 16, 16, 16, 16, 16, 16,
    16, 16, 16, 16, 16, 16, 16, 16, 16, 16, 16, 16, 16, 16,
];

#[inline(always)]
fn hex_value(b: u8) -> u32
    ensures { result ≡ hex_or_none b }
{
    HEX_VALUES[b as usize] as u32
}

#[inline(always)]
fn is_hex_digit(b: u8) -> bool
    ensures { result ≡ is_hex_digit b }
{
    hex_value(b) < 16
}

// How many spaces stand at the start.
#[inline(always)]
fn spaces_len(bytes: &[u8]) -> usize
    ensures count { result ≡ prefix_len is_space bytes.now }
    ensures within { result ≤ length bytes.now }
{
    bytes.iter().take_while(|b| **b == b' ').count()
}

// The pointer at the start, and the bytes after it. At most one digit more than a pointer has is
// looked at.
#[inline(always)]
fn pointer_in(bytes: &[u8]) -> Option<(u32, &[u8])>
    ensures none { result ≡ None → pointer_in bytes.now ≡ None }
    ensures some { IfSome result (λ p. pointer_in bytes.now ≡ Some (p.0, p.1.now)) }
    ensures small { IfSome result (λ p. p.0 < 10 ^ 7) }
{
    let mut pointer = 0;
    let mut count = 0;
    'digits: while count < bytes.len() && count < 8 && bytes[count].is_ascii_digit() {
        pointer = pointer * 10 + (bytes[count] - b'0') as u32;
        count += 1;
    }
    if count == 0 || count > 7 {
        return None;
    }
    Some((pointer, &bytes[count..]))
}

// The number that the hexadecimal digits at the start write, of which at most `most` are read, and
// how many they are.
#[inline(always)]
fn hex_digits_in(bytes: &[u8], most: usize) -> (u32, usize)
    requires { most ≤ 7 }
    ensures counted { HaveDigits is_hex_digit 16 bytes.now result.1 result.0 }
    ensures few { result.1 ≤ most }
    ensures ends { result.1 < most → AreEnded is_hex_digit bytes.now result.1 }
{
    let mut code = 0;
    let mut count = 0;
    'digits: while count < bytes.len() && count < most && is_hex_digit(bytes[count]) {
        code = code * 16 + hex_value(bytes[count]);
        count += 1;
    }
    (code, count)
}

// The code point at the start, and the bytes after it. Most have four digits and a tab after them:
// these are read by a loop of fixed length, which the compiler unrolls.
#[inline(always)]
fn code_in(bytes: &[u8]) -> Option<(u32, &[u8])>
    ensures none { result ≡ None → code_in bytes.now ≡ None }
    ensures some { IfSome result (λ p. code_in bytes.now ≡ Some (p.0, p.1.now)) }
{
    if bytes.len() > 4 && bytes[4] == b'\t' {
        let (code, count) = hex_digits_in(bytes, 4);
        if count == 4 {
            return Some((code, &bytes[4..]));
        }
    }
    longer_code_in(bytes)
}

// The code point at the start, whatever its length. It stands out of line, so that a plain row
// stays in registers.
#[inline(never)]
fn longer_code_in(bytes: &[u8]) -> Option<(u32, &[u8])>
    ensures none { result ≡ None → code_in bytes.now ≡ None }
    ensures some { IfSome result (λ p. code_in bytes.now ≡ Some (p.0, p.1.now)) }
{
    let (code, count) = hex_digits_in(bytes, 7);
    if count < 4 || count > 6 {
        return None;
    }
    Some((code, &bytes[count..]))
}

// Whether a row ends before these bytes.
fn is_row_end(bytes: &[u8]) -> bool
    ensures { result ≡ is_row_end bytes.now }
{
    match bytes {
        [] => true,
        [b, ..] => *b == b'\t',
    }
}

/// The pointer and the code point at the start, and the bytes after them.
#[inline(always)]
#[tactic(auto, unfolding(crate::specs::laws::RowStarts::row_start))]
pub(crate) fn row_start(bytes: &[u8]) -> Option<(u32, u32, &[u8])>
    ensures none { result ≡ None → row_start bytes.now ≡ None }
    ensures some { IfSome result (λ r. row_start bytes.now ≡ Some (r.0, r.1, r.2.now)) }
    ensures small { IfSome result (λ r. r.0 < 10 ^ 7) }
{
    let (pointer, rest) = pointer_in(&bytes[spaces_len(bytes)..])?;
    let [b'\t', b'0', b'x', numeral @ ..] = rest else {
        return None;
    };
    let (code, rest) = code_in(numeral)?;
    Some((pointer, code, rest))
}

/// The pointer and the code point of a line that is a row.
pub(crate) fn row_of(line: &[u8]) -> Option<(u32, u32)>
    ensures row { result ≡ row_in line.now }
    ensures small { IfSome result (λ row. row.0 < 10 ^ 7) }
{
    let (pointer, code, rest) = row_start(line)?;
    if code == 0 || !is_row_end(rest) {
        None
    } else {
        Some((pointer, code))
    }
}
