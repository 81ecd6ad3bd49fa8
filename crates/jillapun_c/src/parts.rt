//! Conversions in parts: an input that is split, and whose parts are converted separately.

ghost use Rattle.std.specs.Prelude.{◌≡◌, ◌⊎◌, ◌≤◌, ◌^◌, IfNone, IfSome, MatchOption};
ghost use Rattle.std.specs.Prelude.{None, true, false};
ghost use Rattle.encoding_front.specs.EncodingTable.{number_of};
ghost use Rattle.encoding_front.specs.Marks.{source_of};
ghost use Rattle.jillapun_c.specs.Losses.{line_of};
ghost use Rattle.jillapun_c.specs.Parts.{AddsReports, PassesCount, encoding_of_parts};
ghost use Rattle.jillapun_c.specs.Parts.{encoding_of_parts_at, loss_in_whole};
ghost use Rattle.jillapun_c.specs.declared.status.TheConstants.{NO_ENCODING};

use crate::encoding_number::{encoding_of, mark_of, number_of};
use crate::losses::Loss;
use crate::report::Report;
use crate::status::{BAD, LOST, NO_ENCODING};
use encoding_front::{Encoding, Mark};

/// Returns the encoding to pass as `from`, with `KEEP`, to convert each part of an input but the
/// first; `NO_ENCODING` if the input cannot be split. The first part is converted as the whole
/// would be. Each part but the last must end in a byte below 0x30, such as a line feed.
///
/// `first` is the beginning of the input: three bytes or more, or all if it has fewer. `from`, `to`
/// and `mark` are as for `jillapun_convert`. The result is the encoding of a BOM that `mark`
/// removes, else `from`. It is `NO_ENCODING` if this encoding or the output encoding of `to` is not
/// ASCII-compatible (UTF-16BE, UTF-16LE, ISO-2022-JP, replacement), or if no encoding or BOM
/// handling has the number.
///
/// If the whole is within the limit, which is checked for each part alone, the outputs of the
/// parts, concatenated, are the output for the whole. So are the records, moved by
/// `jillapun_join_loss`, and the reports, added by `jillapun_join_reports`. If no part lost
/// anything, the whole lost nothing. If the policy stops a part, it is the last. Do not add its
/// report: its `scalar` holds for the whole, and so does its `index` plus the `characters` of the
/// earlier parts.
#[unsafe(no_mangle)]
pub extern "C" fn jillapun_part_encoding(from: u8, to: u8, mark: u8, first: &[u8]) -> u8
    ensures { MatchOption (encoding_of_parts_at from to mark first.now) (result ≡ NO_ENCODING)
        (λ e. result ≡ number_of e) }
{
    let Some(from) = encoding_of(from) else {
        return NO_ENCODING;
    };
    let Some(to) = encoding_of(to) else {
        return NO_ENCODING;
    };
    let Some(mark) = mark_of(mark) else {
        return NO_ENCODING;
    };
    match encoding_of_parts(from, to, mark, first) {
        Some(encoding) => number_of(encoding),
        None => NO_ENCODING,
    }
}

// The encoding of the parts, if the input can be cut.
fn encoding_of_parts(from: Encoding, to: Encoding, mark: Mark, first: &[u8]) -> Option<Encoding>
    ensures { result ≡ encoding_of_parts from to mark first.now }
{
    let encoding = input_encoding(from, mark, first);
    let can_be_cut = encoding.is_ascii_compatible() && to.output_encoding().is_ascii_compatible();
    can_be_cut.then_some(encoding)
}

// The encoding of an input that begins so.
fn input_encoding(from: Encoding, mark: Mark, first: &[u8]) -> Encoding
    ensures { result ≡ (source_of mark from first.now).0 }
{
    match Encoding::for_bom(first) {
        Some((other, _)) => { if mark.takes(from, other) { other } else { from } }
        None => from,
    }
}

/// Turns a loss record of the next part into one of the whole. `before` is the report of the parts
/// before it: its `read` is added to the place of a record of kind `BAD`, its `characters` to that
/// of kind `LOST`.
///
/// Returns whether it did so. Otherwise the record is unchanged: its kind is another, or its place
/// would be 2^64 or more, which no record of a conversion reaches.
#[unsafe(no_mangle)]
pub extern "C" fn jillapun_join_loss(before: &Report, loss: &mut Loss) -> bool
    ensures joined { result ≡ true → loss.new ≡ loss_in_whole before.now loss.old }
    ensures unchanged { result ≡ false → loss.new ≡ loss.old }
    ensures why { result ≡ false → (line_of loss.old ≡ None)
        ⊎ (2 ^ 64 ≤ (loss_in_whole before.now loss.old).place) }
    ensures other { line_of loss.old ≡ None → result ≡ false }
{
    let moved = if loss.kind == BAD {
        loss.place.checked_add(before.read)
    } else if loss.kind == LOST {
        loss.place.checked_add(before.characters)
    } else {
        None
    };
    let Some(place) = moved else {
        return false;
    };
    loss.place = place;
    true
}

/// Adds the report of the next part to that of the parts before it: `read`, `bad`, `lost`,
/// `characters`, `written` and `losses`; `index` and `scalar` are unchanged. The status of both is
/// `LOSSY` if either is.
///
/// Returns whether it did so. Otherwise nothing is changed: a sum would be 2^64 or more, which
/// parts of an input within a limit never reach.
#[unsafe(no_mangle)]
pub extern "C" fn jillapun_join_reports(whole: &mut Report, next: &Report) -> bool
    ensures joined { result ≡ true → AddsReports whole.old next.now whole.new }
    ensures unchanged { result ≡ false → whole.new ≡ whole.old }
    ensures why { result ≡ false → PassesCount whole.old next.now }
{
    let Some(sum) = sum_of(*whole, *next) else {
        return false;
    };
    *whole = sum;
    true
}

// Two reports, added.
fn sum_of(first: Report, next: Report) -> Option<Report>
    ensures some { IfSome result (AddsReports first next) }
    ensures none { IfNone result (PassesCount first next) }
{
    Some(Report {
        read: first.read.checked_add(next.read)?,
        bad: first.bad.checked_add(next.bad)?,
        lost: first.lost.checked_add(next.lost)?,
        characters: first.characters.checked_add(next.characters)?,
        written: first.written.checked_add(next.written)?,
        losses: first.losses.checked_add(next.losses)?,
        ..first
    })
}
