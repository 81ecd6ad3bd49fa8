//! Latin1 in UTF-8, recognized by which bytes stand side by side.

ghost use Rattle.std.specs.Prelude.{◌≡◌, ℕ, ◌+◌, ◌<◌, IsTrue, length, slice_index};
ghost use Rattle.encoding_mem.specs.Latin1.{IsLatin1Text};
ghost use Rattle.encoding_mem.specs.Latin1Bytes.{is_latin1_pair};

// How many bytes are tested at a time, each with the one after it and without a look at which of
// them fails, so that the compiler tests them by vectors.
const BLOCK: usize = 32;

// Whether a byte and the one after it may stand so in Latin1.
#[inline(always)]
fn is_latin1_pair(byte: u8, next: u8) -> bool
    ensures { result ≡ is_latin1_pair byte next }
{
    let begins = (byte >= 0xC2) & (byte <= 0xC3);
    let continues = (next >= 0x80) & (next <= 0xBF);
    begins & continues | (byte < 0xC0) & !continues
}

// Whether each of the first bytes does.
#[inline(always)]
fn are_latin1_pairs(bytes: &[u8]) -> bool
    requires { 32 < length bytes.now }
    ensures { IsTrue result → (k : ℕ) → k < 32
        → IsTrue (is_latin1_pair (slice_index bytes.now k) (slice_index bytes.now (k + 1))) }
{
    let mut all = true;
    for i in 0..BLOCK {
        all &= is_latin1_pair(bytes[i], bytes[i + 1]);
    }
    all
}

// Whether some bytes are well-formed UTF-8 with characters up to U+00FF only. It needs no tables,
// and stops at the first block with something else, so that it can stand before the test of UTF-8.
pub(crate) fn is_latin1_text(bytes: &[u8]) -> bool
    ensures { IsTrue result → IsLatin1Text bytes.now }
{
    if bytes.is_empty() {
        return true;
    }
    // A continuation byte begins no text.
    if !is_latin1_pair(0, bytes[0]) {
        return false;
    }
    let mut at = 0;
    'wide: while bytes.len() - at > BLOCK {
        if !are_latin1_pairs(&bytes[at..]) {
            return false;
        }
        at += BLOCK;
    }
    // The last block may begin within what was tested. No continuation byte stands after it.
    if bytes.len() > BLOCK {
        let last = bytes.len() - 1;
        return are_latin1_pairs(&bytes[last - BLOCK..]) && is_latin1_pair(bytes[last], 0);
    }
    'bytes: while bytes.len() - at > 1 {
        if !is_latin1_pair(bytes[at], bytes[at + 1]) {
            return false;
        }
        at += 1;
    }
    is_latin1_pair(bytes[at], 0)
}
