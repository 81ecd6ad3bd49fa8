//! What to recode and how, the room that it is lent, and how steps and runs end.

use encoding_front::{Encoding, Mark, Reference};
use encoding_tables::Tables;
use recode_words::GREATEST_LIMIT;
use thiserror::Error;

/// What to recode, and how.
#[derive(Clone, Copy)]
pub struct Job<'t> {
    /// The encoding of the input, unless a byte order mark says another.
    pub from: Encoding,
    /// The encoding that is asked for. What is written is in its output encoding.
    pub to: Encoding,
    /// What is done with a byte order mark at the start of the input.
    pub mark: Mark,
    /// What is done about a character that has no bytes in the output's encoding.
    pub policy: Policy,
    /// How many bytes the input may have, at most `GREATEST_LIMIT`.
    pub limit: u64,
    /// The indexes that the two encodings need (`Encoding::needs`).
    pub tables: &'t Tables,
}

/// What is done about a character that has no bytes in the output's encoding. Its line in the log
/// is written with each of these.
#[derive(Clone, Copy, PartialEq, Eq, Debug)]
pub enum Policy {
    /// Its reference is written in decimal: `&#`, its number, `;`.
    Decimal,
    /// Its reference is written in hexadecimal: `&#x`, the digits of its number in upper case, `;`.
    Hexadecimal,
    /// The run ends at the first one, with `Fault::Unmappable`: its line is the last that is
    /// written. Neither a reference nor anything after it is.
    Stop,
}

impl Policy {
    ghost use Rattle.std.specs.Prelude.{◌≡◌, IfErr, IfOk, None, Some};
    ghost use Rattle.recode.specs.Policy.{reference_of};

    /// The form of the references that are written, or `None` if none is.
    pub fn reference(self) -> Option<Reference>
        ensures { result ≡ reference_of self }
    {
        match self {
            Policy::Decimal => Some(Reference::Decimal),
            Policy::Hexadecimal => Some(Reference::Hexadecimal),
            Policy::Stop => None,
        }
    }

    // The form of the reference of this character, or the fault that stops the run at it.
    pub(crate) fn reference_at(self, index: u64, scalar: char) -> Result<Reference, Fault>
        ensures ok { IfOk result (λ form. reference_of self ≡ Some form) }
        ensures err { IfErr result (λ f. (reference_of self ≡ None)
            × (f ≡ Fault.Unmappable index scalar)) }
    {
        match self.reference() {
            Some(form) => Ok(form),
            None => Err(Fault::Unmappable { index, scalar }),
        }
    }
}

impl<'t> Job<'t> {
    ghost use Rattle.std.specs.Prelude.{IsTrue, ◌↔◌};
    ghost use Rattle.recode.specs.Job.{IsValidJob};

    /// Whether the job can be run: the indexes that `from` and the output encoding of `to` need are
    /// in `tables`, and the limit is at most `GREATEST_LIMIT`. The test of the condition of
    /// `Session::new`, `run` and `convert`.
    pub fn is_valid(&self) -> bool
        ensures { IsTrue result ↔ IsValidJob self.now }
    {
        self.limit <= GREATEST_LIMIT
            && self.from.is_ready(self.tables)
            && self.to.output_encoding().is_ready(self.tables)
    }
}

/// Room for text on its way from the decoder to the encoder, in one of two forms. What is written
/// is the same with each.
#[derive(Drop)]
pub enum Pivot<'b> {
    /// Text in UTF-8, room in bytes.
    Utf8(&'b mut [u8]),
    /// Text in UTF-16, room in units.
    Utf16(&'b mut [u16]),
}

/// The room that a step is lent. Sizes change how fast a conversion is, how many calls of devices
/// it makes, and the count of calls of codecs (`Report::calls`). They change nothing that is
/// written by a run that ends well.
///
/// Each `Pivot` has to stand in a variable of its own before it is lent: the borrow checker refuses
/// one that is made inside the braces of `Buffers`.
#[derive(Drop)]
pub struct Buffers<'b> {
    /// What is read from the input, in bytes.
    pub input: &'b mut [u8],
    /// The text on its way from the decoder to the encoder.
    pub pivot: Pivot<'b>,
    /// What is written to the output, in bytes.
    pub output: &'b mut [u8],
    /// The text that the output is read back to, of the pivot's form.
    pub check: Pivot<'b>,
}

impl<'b> Pivot<'b> {
    ghost use Rattle.std.specs.Prelude.{IsTrue, ◌≡◌, ◌↔◌};
    ghost use Rattle.recode.specs.calls.Buffers.{HoldsAnyCharacter, is_wide};

    // Whether it can hold any character.
    fn is_roomy(&self) -> bool
        ensures { IsTrue result ↔ HoldsAnyCharacter self.now }
    {
        match self {
            Pivot::Utf8(bytes) => bytes.len() >= 4,
            Pivot::Utf16(units) => units.len() >= 2,
        }
    }

    // Whether it is of UTF-16.
    pub(crate) fn is_wide(&self) -> bool
        ensures { result ≡ is_wide self.now }
    {
        match self {
            Pivot::Utf8(_) => false,
            Pivot::Utf16(_) => true,
        }
    }
}

impl<'b> Buffers<'b> {
    ghost use Rattle.std.specs.Prelude.{IsTrue, ◌↔◌};
    ghost use Rattle.recode.specs.calls.Buffers.{AreEnough};

    /// Whether a step can be lent these: at least 1 byte of input, at least 4 bytes of output,
    /// pivot and check of one form, each with at least 4 bytes or 2 units. The test of the
    /// condition of `Session::step`, `run` and `convert`.
    pub fn is_enough(&self) -> bool
        ensures { IsTrue result ↔ AreEnough self.now }
    {
        !self.input.is_empty()
            && self.pivot.is_roomy()
            && self.output.len() >= 4
            && self.check.is_roomy()
            && self.pivot.is_wide() == self.check.is_wide()
    }
}

/// How a step that met no fault ended.
#[derive(Clone, Copy, PartialEq, Eq, Debug)]
pub enum Progress {
    /// At least one byte was read; call `step` again.
    More,
    /// The end of the input was read, and all is written: `Session::report` has the rest.
    Done,
}

/// What a run that came to its end reports.
#[derive(Clone, Copy, PartialEq, Eq, Debug)]
pub struct Report {
    /// The bytes of the input.
    pub read: u64,
    /// The lines of the log that report a malformed sequence.
    pub bad: u64,
    /// The lines of the log that report a lost character.
    pub lost: u64,
    /// The calls of codecs, those that read the output back among them. A run or a session reports,
    /// whatever the sizes of the buffers, at least `3 * bad + lost + 2`, two more if the input has
    /// a byte, and at most `37 * read + 9`. For a `Converter` no bound is promised.
    pub calls: u64,
    /// The encoding of the input, as its byte order mark says if one of another encoding is taken.
    pub encoding: Encoding,
    /// Whether nothing was lost: no piece of the input is malformed, and the output, decoded in its
    /// encoding without mark handling, has no malformed sequence and is the input's text. It can be
    /// false even if the log is empty: some encodings write a character as bytes that do not read
    /// back as it.
    pub faithful: bool,
}

/// What ended a run before its time.
#[derive(Clone, Copy, PartialEq, Eq, Debug, Error)]
pub enum Fault {
    /// A call of the reader failed.
    #[error("read fault")]
    Read,
    /// A call of the writer failed.
    #[error("write fault")]
    Write,
    /// A call of the log failed.
    #[error("log fault")]
    Log,
    /// The input has more bytes than the job's limit.
    #[error("input too long")]
    TooLong,
    /// The policy is `Policy::Stop`, and a character has no bytes in the output's encoding. `index`
    /// is how many characters of the text stand before it, and `scalar` is what its line names: the
    /// character, or U+FFFD if ISO-2022-JP refuses a control.
    #[error("unmappable {index} {}", u32::from(*scalar))]
    Unmappable { index: u64, scalar: char },
}
