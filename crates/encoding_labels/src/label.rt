//! The search for a label.

ghost use Rattle.std.specs.Prelude.{◌≡◌, ℕ, ◌<◌, ◌↔◌, Option, Some, IfSome, OnSome, map};
ghost use Rattle.std.specs.Char.{to_ascii_lowercase};
ghost use Rattle.encoding_labels.specs.Labels.{label_text, trimmed, IsLabelOf, IsLabelText};
ghost use Rattle.encoding_labels.specs.Labels.{label_number_in, number_of_label};
ghost use Rattle.encoding_labels.specs.laws.ByLength.{entries};

use crate::places::ENCODING_COUNT;
use crate::table::rows_of_length;

/// The number of the encoding that has this label, as in `places`, or `None` if no encoding has it:
/// "get an encoding" of the Encoding Standard, section 4.2.
///
/// White space at both ends (the bytes 09, 0A, 0C, 0D and 20) and the case of ASCII letters do not
/// matter. The label may have any length. It is not copied, and what is left of it between the
/// white space is compared with the labels of its own length alone, of which there are 38 at most.
pub fn label_number(label: &[u8]) -> Option<usize>
    ensures labels { (number : ℕ) → (result ≡ Some number) ↔ IsLabelOf number label.now }
    ensures value { result ≡ number_of_label label.now }
    ensures below { IfSome result (λ number. number < ENCODING_COUNT) }
    ensures text { OnSome result (IsLabelText (label_text label.now)) }
{
    let text = trim(label);
    find(rows_of_length(text.len()), text)
}

// The label without the white space at both ends.
fn trim(label: &[u8]) -> &[u8]
    ensures { result.now ≡ trimmed label.now }
{
    label.trim_ascii()
}

// The number in the first row whose label is the text; ASCII case does not matter.
fn find(rows: &[(&str, usize)], text: &[u8]) -> Option<usize>
    ensures { result ≡ label_number_in (entries rows.now) (map to_ascii_lowercase text.now) }
{
    for (label, number) in rows {
        if label.as_bytes().eq_ignore_ascii_case(text) {
            return Some(*number);
        }
    }
    None
}
