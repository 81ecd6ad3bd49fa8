//! What is lost in an input, and how often.

ghost use Rattle.std.specs.Prelude.{None};

use crate::loss::{Loss, Sequence};
use encoding_front::Encoding;
use recode_places::{Entry, Finding, Refusal, Visitor};
use std::alloc::{AllocError, Global};
use std::cmp::Reverse;
use std::collections::BTreeMap;
use std::io::Write;

/// Counts what is lost: each malformed sequence by its bytes, each character by itself.
#[derive(Drop)]
pub struct Counts {
    alloc: Global,
    table: BTreeMap<Loss, u64>,
    target: &'static str,
    // Whether the malformed sequence whose bytes come next is reported.
    is_told: bool,
}

impl Counts {
    /// Counts of nothing, for an input that is written in the output encoding of `to`.
    pub fn new(alloc: Global, to: Encoding) -> Counts {
        Counts {
            alloc,
            table: BTreeMap::new(alloc),
            target: to.output_encoding().name(),
            is_told: false,
        }
    }

    /// Whether nothing was counted.
    pub fn is_empty(&self) -> bool {
        self.table.is_empty()
    }

    fn count(&mut self, loss: Loss) -> Result<(), Refusal> {
        if let Some(count) = self.table.get_mut(&loss) {
            *count = count.saturating_add(1);
            return Ok(());
        }
        match self.table.insert(loss, 1) {
            Ok(_) => Ok(()),
            Err(_) => Err(Refusal::Memory),
        }
    }

    // What was counted, the most frequent first, and what is as frequent in the order of `Loss`.
    fn rows(&self) -> Result<Vec<(u64, Loss)>, AllocError> {
        let mut rows = Vec::new(self.alloc);
        for (loss, count) in self.table.iter() {
            rows.push((*count, *loss))?;
        }
        rows.sort_by_key(|row| Reverse(row.0))?;
        Ok(rows)
    }

    /// Writes a line for each thing that was counted, the most frequent first: how often, and the
    /// words of a report. Flushes the writer.
    pub fn write<W: Write>(&self, writer: &mut W) -> Result<(), Refusal> {
        let Ok(rows) = self.rows() else {
            return Err(Refusal::Memory);
        };
        for (count, loss) in rows.iter() {
            if writeln!(writer, "{count:>8}  {loss}").is_err() {
                return Err(Refusal::Write);
            }
        }
        match writer.flush() {
            Ok(()) => Ok(()),
            Err(_) => Err(Refusal::Write),
        }
    }
}

impl Visitor for Counts {
    // It keeps no list of the entries.
    ghost told = { λ _. None };

    fn characters(&mut self, _text: &str) -> Result<(), Refusal> {
        Ok(())
    }

    fn malformed(&mut self, bytes: &[u8], encoding: Encoding) -> Result<(), Refusal> {
        if !self.is_told {
            return Ok(());
        }
        self.is_told = false;
        self.count(Loss::Malformed {
            bytes: Sequence::new(bytes),
            encoding: encoding.name(),
        })
    }

    fn entry(&mut self, entry: Entry) -> Result<(), Refusal> {
        let encoding = self.target;
        match entry.finding {
            Finding::Malformed { .. } => {
                self.is_told = true;
                Ok(())
            }
            Finding::Lost { scalar } => self.count(Loss::Lost { scalar, encoding }),
            Finding::Folded { scalar, becomes } => {
                self.count(Loss::Folded {
                    scalar,
                    becomes,
                    encoding,
                })
            }
        }
    }
}
