//! The numbers that cross: statuses, and the words of calls. The header has them as constants, with
//! `JILLAPUN_` before each name.

/// What a call returns: one of the numbers that follow.
pub type Status = u8;

// Statuses of calls.

/// Success. For a conversion: nothing was lost.
pub const OK: u8 = 0;
/// Success, with losses: a malformed sequence or an unmappable character was replaced or, for a
/// conversion, the output decodes to a different text.
pub const LOSSY: u8 = 1;
/// No encoding, BOM handling or policy has the number, or no index file has the name.
pub const UNKNOWN: u8 = 2;
/// The tables lack an index that the encoding needs: load its file.
pub const NOT_READY: u8 = 3;
/// The text of an index file is invalid (the fault has the line), or an earlier file of the call is
/// of the same index.
pub const BAD_INDEX: u8 = 4;
/// Memory allocation failed. Nothing was loaded, and the call can be repeated.
pub const NO_MEMORY: u8 = 5;
/// The handle is empty (`{0}`): no stream or conversion was begun with it.
pub const CLOSED: u8 = 6;
/// The handle to be filled is not empty.
pub const IN_USE: u8 = 7;
/// The stream has ended: an earlier call reported its end.
pub const FINISHED: u8 = 8;
/// The text is not UTF-8 or, for an encoder, the rest of the text begins with a malformed sequence.
pub const NOT_UTF8: u8 = 9;
/// A buffer is too small and holds only the beginning of the output. The report, or `written`,
/// gives the space needed: everything was converted to find it.
pub const ROOM: u8 = 10;
/// The conversion is not finished: call again, with the bytes that follow or with free space.
pub const GOES_ON: u8 = 11;
/// The policy is `STOP`, and the report gives the unmappable character. Everything before it was
/// converted.
pub const STOPPED: u8 = 12;
/// The input is longer than the limit.
pub const TOO_LONG: u8 = 13;
/// The input has a malformed sequence, and the call does not replace it.
pub const NOT_WELL_FORMED: u8 = 14;

// The outcome of a call of a decoder or an encoder.

/// All input was read.
pub const INPUT_EMPTY: u8 = 0;
/// The free space of the buffer is too small, or the text to encode is not UTF-8 at this point.
/// Pass the unread input again with free space.
pub const OUTPUT_FULL: u8 = 1;
/// A malformed sequence was read, and nothing was written for it.
pub const MALFORMED: u8 = 2;
/// An unmappable character was read, and nothing was written for it.
pub const UNMAPPABLE: u8 = 3;

// Handling of a byte order mark (BOM) at the start of an input.

/// The BOM of UTF-8, UTF-16BE or UTF-16LE selects the encoding and is removed.
pub const SNIFF: u8 = 0;
/// The BOM of the encoding itself is removed.
pub const REMOVE: u8 = 1;
/// No BOM is looked for; one is decoded as text.
pub const KEEP: u8 = 2;

// Policies: what is written for an unmappable character.

/// A decimal numeric character reference: `&#26085;`.
pub const DECIMAL: u8 = 0;
/// A hexadecimal numeric character reference: `&#x65E5;`.
pub const HEXADECIMAL: u8 = 1;
/// Nothing: the conversion stops.
pub const STOP: u8 = 2;

// Kinds of losses.

/// A malformed sequence of the input: its offset and its length in bytes.
pub const BAD: u8 = 0;
/// An unmappable character: its position in the text, in characters, and its code point.
pub const LOST: u8 = 1;

// Kinds of text, for layout.

/// No character is above U+00FF.
pub const LATIN1: u32 = 0;
/// Some character is above U+00FF, and none is right-to-left.
pub const LEFT_TO_RIGHT: u32 = 1;
/// Some character may be right-to-left, or the bytes are not UTF-8.
pub const BIDI: u32 = 2;

// Values in place of an encoding or a length.

/// No encoding.
pub const NO_ENCODING: u8 = 255;
/// In place of a length: no encoding has the number, the input is not valid for the function, or
/// the length does not fit into a `size_t`.
pub const REFUSED: usize = usize::MAX;
