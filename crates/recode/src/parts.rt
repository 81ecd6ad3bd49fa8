//! An input that is converted part by part: whether it can be cut, and the job of later parts.

ghost use Rattle.std.specs.Prelude.{IsTrue, ◌↔◌};
ghost use Rattle.encoding_mem.specs.Parts.{EndsInCut};

use crate::job::Job;
use encoding_front::{Encoding, Mark};

// Whether the last byte is one behind which an input can be cut.
fn ends_in_cut(bytes: &[u8]) -> bool
    ensures { IsTrue result ↔ EndsInCut bytes.now }
{
    if bytes.is_empty() {
        return false;
    }
    bytes[bytes.len() - 1] < 0x30
}

impl<'t> Job<'t> {
    ghost use Rattle.std.specs.Prelude.{IsTrue, ◌≡◌, ◌↔◌};
    ghost use Rattle.recode.specs.Job.{source_in};
    ghost use Rattle.recode.specs.Parts.{CanBeCut, later};

    /// The encoding of an input that begins with `bytes`: that of the byte order mark which is
    /// taken from it, or `from`.
    pub fn source(&self, bytes: &[u8]) -> Encoding
        ensures { result ≡ source_in self.now bytes.now }
    {
        match Encoding::for_bom(bytes) {
            Some((other, _)) => {
                if self.mark.takes(self.from, other) {
                    other
                } else {
                    self.from
                }
            }
            None => self.from,
        }
    }

    /// Whether the input can be cut behind its first part, and the others converted by themselves:
    /// the part ends in a byte below 30, as a line feed is, and both encodings are compatible with
    /// ASCII.
    pub fn can_be_cut(&self, first: &[u8]) -> bool
        ensures { IsTrue result ↔ CanBeCut self.now first.now }
    {
        if !ends_in_cut(first) {
            return false;
        }
        if !self.source(first).is_ascii_compatible() {
            return false;
        }
        self.to.output_encoding().is_ascii_compatible()
    }

    /// The job of each part but the first.
    pub fn later(&self, first: &[u8]) -> Job<'t>
        ensures { result ≡ later self.now first.now }
    {
        Job {
            from: self.source(first),
            mark: Mark::Keep,
            ..*self
        }
    }
}
