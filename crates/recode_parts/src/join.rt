//! Joins the log of a part to the log of what stands before the part.

ghost use Rattle.std.specs.Prelude.{◌≡◌, ◌+◌, ◌-◌, ◌<◌, ◌^◌, IfErr, OnErr, OnOk};
ghost use Rattle.recode_log.specs.Counted.{failures_of, inner_of, passed_of};
ghost use Rattle.recode_log.specs.Told.{TellsReads, TellsTaken};
ghost use Rattle.recode.specs.Devices.{reads_of};
ghost use Rattle.recode_parts.specs.Fault.{IsJoinFaultOf, failures_of_part, failures_of_whole};
ghost use Rattle.recode_parts.specs.Joins.{JoinCalls, JoinsFirst, JoinsLog};

use crate::before::Before;
use crate::held::Held;
use crate::lines::move_lines;
use recode_log::Counted;
use recode_log::deliver::deliver;
use recode_places::laws::{lines_are_told_apart, lines_end_in_feeds};
use std::io::{Read, Write};
use thiserror::Error;

/// The greatest length of a log that is joined, 2^55 bytes. No log of a run is longer
/// (`laws::logs_of_parts_can_be_joined`).
pub const GREATEST_LOG: u64 = 1 << 55;

/// Why a log was not joined.
#[derive(Clone, Copy, PartialEq, Eq, Debug, Error)]
pub enum JoinFault {
    /// A call of the reader failed.
    #[error("read fault")]
    Read,
    /// A call of the writer failed.
    #[error("write fault")]
    Write,
    /// What was read is no log, or it is one with a line that, moved, would be none, since its
    /// offset or index would be over 2^48. Or it is longer than `GREATEST_LOG`.
    #[error("not a log")]
    NotALog,
}

// Lines are read and written again: a log has one reading as lines, so what is written is the log
// of the whole. To add to the digits where they stand would be faster, and its contract its code.
/// Joins the log of a part to that of what stands before it: reads the lines of the first to its
/// end, and writes them to the second, with the bytes and the characters before the part added to
/// their offsets and indexes. It holds 4 KiB of each, however long the log is.
///
/// - `Ok`: what was read is a log, and exactly its lines were written, moved.
/// - `Err`: a prefix of the bytes of moved lines was written. The last call of the reader (`Read`)
///   or of the writer (`Write`) failed, and no other. Or none failed, and what was read is of no
///   log that can be moved, however the reader goes on, or has more than 2^55 bytes (`NotALog`).
///
/// A message of `recode`, as stands behind the lines of a conversion that ended early, is no line
/// of a log. Each call of the reader is a read with room for some bytes, and each of the writer a
/// write of some. The condition, that fewer than 2^64 - 1 calls of each have failed, is tested by
/// `Counted::failures`.
pub fn join_log<R: Read, W: Write>(
    part: &mut Counted<R>,
    before: Before,
    whole: &mut Counted<W>,
) -> Result<(), JoinFault>
    requires part { failures_of part.old < 2 ^ 64 - 1 }
    requires whole { failures_of whole.old < 2 ^ 64 - 1 }
    ensures ok { OnOk result (JoinsLog before.bytes before.characters (reads_of part.old)
        (reads_of part.new) (passed_of whole.old) (passed_of whole.new)) }
    ensures err { OnErr result (JoinsFirst before.bytes before.characters (reads_of part.old)
        (reads_of part.new) (passed_of whole.old) (passed_of whole.new)) }
    ensures calls { JoinCalls part.old part.new whole.old whole.new }
    ensures fault { IfErr result (IsJoinFaultOf before.bytes before.characters part.old part.new
        whole.new) }
    ensures part { failures_of part.new ≡ failures_of part.old + failures_of_part result }
    ensures whole { failures_of whole.new ≡ failures_of whole.old + failures_of_whole result }
    ensures part_told { TellsReads (reads_of part.old) (reads_of part.new)
        (R.remaining (inner_of part.old)) (R.remaining (inner_of part.new)) }
    ensures whole_told { TellsTaken (passed_of whole.old) (passed_of whole.new)
        (W.contents (inner_of whole.old)) (W.contents (inner_of whole.new)) }
{
    lines_are_told_apart();
    lines_end_in_feeds();
    let mut held = Held::none();
    let mut dst = [0; 4096];
    let mut left = GREATEST_LOG;
    'log: loop {
        let Some(moved) = move_lines(held.as_slice(), before, &mut dst) else {
            return Err(JoinFault::NotALog);
        };
        deliver(whole, &dst[..moved.written], JoinFault::Write)?;
        held.drop_first(moved.read);
        if moved.read == 0 {
            if held.is_full() {
                return Err(JoinFault::NotALog);
            }
            let count = held.read(part)?;
            if count == 0 {
                return if held.is_empty() {
                    Ok(())
                } else {
                    Err(JoinFault::NotALog)
                };
            }
            if count as u64 > left {
                return Err(JoinFault::NotALog);
            }
            left -= count as u64;
        }
    }
}
