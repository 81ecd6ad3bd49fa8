//! The two forms of a numeric character reference.

/// How the numeric character reference of a character without bytes is written (the HTML Standard,
/// section 13.1.4).
#[derive(Clone, Copy, Debug, PartialEq, Eq)]
pub enum Reference {
    /// `&#`, the decimal digits of its number, `;`.
    Decimal,
    /// `&#x`, the hexadecimal digits of its number, in upper case, `;`.
    Hexadecimal,
}
