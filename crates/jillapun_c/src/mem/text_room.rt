//! Room whose text stays one if a part of it is overwritten.

ghost use Rattle.std.specs.Prelude.{◌≡◌, ℕ, ◌≤◌, true, List, length, take, drop};
ghost use Rattle.std.specs.Prelude.{encode_utf8_all};
ghost use Rattle.std.specs.Str.{all_scalars};
ghost use Rattle.jillapun_c.specs.Room.{TextIsPut, rest_cleared};

// Clears the rest of a character at the start, at most three bytes that go on with one.
fn clear_start(bytes: &mut [u8])
    ensures { bytes.new ≡ rest_cleared bytes.old }
{
    let few = bytes.len().min(3);
    encoding_mem::clear_behind(&mut bytes[..few], 0);
}

/// Clears what stands after the first `written` bytes, which are a text that was put over another:
/// at most three bytes, the rest of a character whose first bytes are gone, become 00.
pub(crate) fn clear_rest(dst: &mut [u8], written: usize)
    requires { written ≤ length dst.old }
    ensures prefix { take written dst.new ≡ take written dst.old }
    ensures behind { drop written dst.new ≡ rest_cleared (drop written dst.old) }
    ensures put { (text old : List ℕ) → all_scalars text ≡ true
        → take written dst.old ≡ encode_utf8_all text → drop written dst.old ≡ drop written old
        → TextIsPut old (encode_utf8_all text) dst.new written }
{
    clear_start(&mut dst[written..]);
}
