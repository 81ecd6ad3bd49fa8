//! What stands in a line, and how it is shown, so that no input can write to a terminal what a
//! terminal obeys.

ghost use Rattle.std.specs.Prelude.{◌≡◌, ◌||◌, ◌++◌, IfOk, OnOk, string_bytes};
ghost use Rattle.std.specs.Char.{is_control};
ghost use Rattle.std.specs.Str.{chars};
ghost use Rattle.recode_places_report.specs.Shown.{is_unseen, shown_as, shown_text};

use std::alloc::{AllocError, Global};

// What stands in a line: a character, or a byte of a malformed sequence.
#[derive(Clone, Copy, PartialEq, Eq, Debug)]
pub(crate) enum Cell {
    Character(char),
    Byte(u8),
}

// Whether a character is shown by its number: a control, or one that can't be seen. These are what
// Unicode says a display may ignore (Default_Ignorable_Code_Point), among them what turns the
// direction of a text, the separators of lines and paragraphs, and those of annotations.
pub(crate) fn is_shown_by_number(c: char) -> bool
    ensures { result ≡ (is_control c || is_unseen c) }
{
    c.is_control()
        || matches!(
            c,
            '\u{AD}' | '\u{34F}' | '\u{61C}'
                | '\u{115F}'..='\u{1160}'
                | '\u{17B4}'..='\u{17B5}'
                | '\u{180B}'..='\u{180F}'
                | '\u{200B}'..='\u{200F}'
                | '\u{2028}'..='\u{202E}'
                | '\u{2060}'..='\u{206F}'
                | '\u{3164}'
                | '\u{FE00}'..='\u{FE0F}'
                | '\u{FEFF}'
                | '\u{FFA0}'
                | '\u{FFF0}'..='\u{FFFB}'
                | '\u{1BCA0}'..='\u{1BCA3}'
                | '\u{1D173}'..='\u{1D17A}'
                | '\u{E0000}'..='\u{E0FFF}'
        )
}

// Adds what a cell is shown as: a tab as one space, a control or what can't be seen by its number,
// as `<U+202E>`, a byte as `<FF>`.
pub(crate) fn push_cell(text: &mut String, cell: Cell) -> Result<(), AllocError>
    ensures { OnOk result (string_bytes text.new ≡ string_bytes text.old ++ shown_as cell) }
{
    match cell {
        Cell::Character('\t') => text.push(' '),
        Cell::Character(c) if is_shown_by_number(c) => write!(text, "<U+{:04X}>", u32::from(c)),
        Cell::Character(c) => text.push(c),
        Cell::Byte(byte) => write!(text, "<{byte:02X}>"),
    }
}

/// A text as it is shown: each tab as one space, and each control and each character that can't be
/// seen by its number, as `<U+202E>`. The error is that memory was refused.
pub fn shown(alloc: Global, text: &str) -> Result<String, AllocError>
    ensures { IfOk result (λ all. string_bytes all ≡ shown_text (chars text.now)) }
{
    let mut all = String::new(alloc);
    for c in text.chars() {
        push_cell(&mut all, Cell::Character(c))?;
    }
    Ok(all)
}
