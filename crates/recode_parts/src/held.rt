//! Bytes of a log that were read, and whose lines are not moved yet.

ghost use Rattle.std.specs.Prelude.{◌≡◌, ◌≢◌, ℕ, ◌+◌, ◌-◌, ◌<◌, ◌^◌, ◌≤◌, ◌↔◌, IsTrue, List, []};
ghost use Rattle.std.specs.Prelude.{length, take, drop, IfErr, IfOk, OnErr, ◌∷◌};
ghost use Rattle.recode_log.specs.Counted.{failures_of};

use crate::join::JoinFault;
use recode_log::Counted;
use std::io::Read;
use std::marker::Model;

/// Bytes of a log that were read, and whose lines are not moved yet: at most 4096.
#[derive(Drop)]
pub(crate) struct Held {
    bytes: [u8; 4096],
    len: usize,
}

impl Model for Held {
    ghost Value = { List ℕ };

    ghost view = { λ h. take h.len h.bytes };

    ghost invariant = { λ h. h.len ≤ 4096 };
}

impl Held {
    ghost use Rattle.recode.specs.Devices.{reads_of};
    ghost use Rattle.recode_log.specs.Call.{Call};
    ghost use Rattle.recode_log.specs.Counted.{history_of, inner_of};
    ghost use Rattle.recode_log.specs.Told.{TellsReads};
    ghost use Rattle.recode_parts.specs.Fault.{EndsInFailedRead};
    ghost use Rattle.recode_parts.specs.Joins.{MadeReads, ReadsMore};
    ghost use Rattle.recode_parts.specs.declared.join.JoinFault.{JoinFault};

    /// No bytes.
    pub(crate) fn none() -> Held
        ensures { result ≡ [] }
    {
        Held {
            bytes: [0; 4096],
            len: 0,
        }
    }

    /// The bytes.
    pub(crate) fn as_slice(&self) -> &[u8]
        ensures { result.now ≡ self.now }
    {
        &self.bytes[..self.len]
    }

    /// Whether no byte is held.
    pub(crate) fn is_empty(&self) -> bool
        ensures { IsTrue result ↔ (self.now ≡ []) }
    {
        self.len == 0
    }

    /// Whether no byte more can be held.
    pub(crate) fn is_full(&self) -> bool
        ensures { IsTrue result ↔ (length self.now ≡ 4096) }
    {
        self.len == 4096
    }

    /// Forgets the first bytes.
    pub(crate) fn drop_first(&mut self, count: usize)
        requires { count ≤ length self.old }
        ensures { self.new ≡ drop count self.old }
    {
        self.bytes.copy_within(count..self.len, 0);
        self.len -= count;
    }

    /// Reads once, and holds what it gives, behind what is held. Returns how many bytes that is: 0
    /// at the end.
    pub(crate) fn read<R: Read>(&mut self, reader: &mut Counted<R>) -> Result<usize, JoinFault>
        requires room { length self.old ≢ 4096 }
        requires failures { failures_of reader.old < 2 ^ 64 - 1 }
        ensures call { (call : Call) × MadeReads reader.old reader.new (call ∷ []) }
        ensures ok { IfOk result (ReadsMore reader.old reader.new self.old self.new) }
        ensures err { OnErr result ((reads_of reader.new ≡ reads_of reader.old)
            × (failures_of reader.new ≡ failures_of reader.old + 1)
            × EndsInFailedRead (history_of reader.new)) }
        ensures fault { IfErr result (λ f. f ≡ JoinFault.Read) }
        ensures told { TellsReads (reads_of reader.old) (reads_of reader.new)
            (R.remaining (inner_of reader.old)) (R.remaining (inner_of reader.new)) }
    {
        let Ok(count) = reader.read(&mut self.bytes[self.len..]) else {
            return Err(JoinFault::Read);
        };
        self.len += count;
        Ok(count)
    }
}
