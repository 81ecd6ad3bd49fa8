//! Writes all of some bytes, or as much of a message as a writer takes.

ghost use Rattle.std.specs.Prelude.{◌≡◌, ℕ, ◌+◌, ◌-◌, ◌^◌, ◌<◌, [], ◌++◌, take, length};
ghost use Rattle.std.specs.Prelude.{IsOk, OnOk, OnErr, IfErr};
ghost use Rattle.std.specs.Io.KnownBytes.{Appends};
ghost use Rattle.recode_log.specs.Call.{EndsInFailedWrite};
ghost use Rattle.recode_log.specs.Counted.{OffersAll, TellsMessage, inner_of, failures_of};
ghost use Rattle.recode_log.specs.Counted.{history_of, passed_of};
ghost use Rattle.recode_log.specs.Told.{TellsTaken};

use crate::counted::Counted;
use std::io::Write;

/// Writes all of the bytes, in as many calls as the writer needs, and none for no bytes. Each call
/// offers the writer all that it has not taken yet.
///
/// Returns `fault` at the first call that fails, an interrupted one too. The writer then took
/// exactly a prefix of the bytes, and not all of them, and that call is the last of its history.
/// The condition, that fewer than 2^64 - 1 calls of the writer have failed, is tested by
/// `Counted::failures`.
pub fn deliver<W: Write, F: Drop>(writer: &mut Counted<W>, bytes: &[u8], fault: F) -> Result<(), F>
    requires { failures_of writer.old < 2 ^ 64 - 1 }
    ensures ok { OnOk result (
        Appends (W.contents (inner_of writer.old)) (W.contents (inner_of writer.new)) bytes.now
        × (failures_of writer.new ≡ failures_of writer.old)
        × (passed_of writer.new ≡ passed_of writer.old ++ bytes.now)) }
    ensures err { OnErr result ((n : ℕ) × (n < length bytes.now)
        × Appends (W.contents (inner_of writer.old)) (W.contents (inner_of writer.new))
        (take n bytes.now)
        × (failures_of writer.new ≡ failures_of writer.old + 1)
        × (passed_of writer.new ≡ passed_of writer.old ++ take n bytes.now)) }
    ensures failed { OnErr result (EndsInFailedWrite (history_of writer.new)) }
    ensures offers { OffersAll writer.old writer.new (length bytes.now) }
    ensures fault { IfErr result (λ f. f ≡ fault) }
    ensures empty { bytes.now ≡ [] → IsOk result × (writer.new ≡ writer.old) }
{
    let mut at = 0;
    while at < bytes.len() {
        match writer.write(&bytes[at..]) {
            Ok(taken) if taken > 0 => at += taken,
            _ => return Err(fault),
        }
    }
    Ok(())
}

/// Writes a message for a person to read, as `deliver` does. If a call fails, the rest of the
/// message is dropped: there is nowhere else to write it. The condition, that fewer than 2^64 - 1
/// calls of the writer have failed, is tested by `Counted::failures`.
pub fn tell<W: Write>(writer: &mut Counted<W>, message: &[u8])
    requires { failures_of writer.old < 2 ^ 64 - 1 }
    ensures tells { TellsMessage writer.old writer.new message.now }
    ensures told { TellsTaken (passed_of writer.old) (passed_of writer.new)
        (W.contents (inner_of writer.old)) (W.contents (inner_of writer.new)) }
{
    match deliver(writer, message, ()) {
        Ok(()) => {}
        Err(()) => {}
    }
}
