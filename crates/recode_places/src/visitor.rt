//! Who is handed the places.

ghost use Rattle.std.specs.Prelude.{◌≡◌, ◌++◌, ◌∷◌, [], List, Option};
ghost use Rattle.std.specs.Prelude.{IfErr, IsOk, OnErr, OnOk, Some};
ghost use Rattle.recode_places.specs.Entries.{HasOneMore};
ghost use Rattle.recode_places.specs.declared.entry.Entry.{Entry};

use crate::entry::{Entry, Refusal};
use encoding_front::Encoding;

/// Who is handed an input: its text and its malformed bytes, in their order, and each entry
/// directly before the character or the malformed bytes that it is of. An error ends the walk.
pub trait Visitor {
    /// The entries that it was handed so far, if it says which.
    ghost told: { Self → Option (List Entry) };

    /// The next characters of the text.
    fn characters(&mut self, text: &str) -> Result<(), Refusal>
        ensures { told self.new ≡ told self.old };

    /// The bytes of a malformed sequence, which stand for one U+FFFD of the text, and the encoding
    /// that they are malformed in: the one that the byte order mark says, if one is taken.
    fn malformed(&mut self, bytes: &[u8], encoding: Encoding) -> Result<(), Refusal>
        ensures { told self.new ≡ told self.old };

    /// What stands at the place of the next character, or of the next malformed bytes.
    fn entry(&mut self, entry: Entry) -> Result<(), Refusal>
        ensures ok { OnOk result (HasOneMore (told self.old) (told self.new) entry) }
        ensures err { OnErr result (told self.new ≡ told self.old) };
}

/// A vector takes the entries alone. An entry is refused with `Memory`, and nothing else is.
impl Visitor for Vec<Entry> {
    ghost use Rattle.recode_places.specs.declared.entry.Refusal.TheVariants.{Memory};

    ghost told = { λ s. Some s.items };

    fn characters(&mut self, _text: &str) -> Result<(), Refusal>
        ensures told { self.new.items ≡ self.old.items }
        ensures ok { IsOk result }
    {
        Ok(())
    }

    fn malformed(&mut self, _bytes: &[u8], _encoding: Encoding) -> Result<(), Refusal>
        ensures told { self.new.items ≡ self.old.items }
        ensures ok { IsOk result }
    {
        Ok(())
    }

    fn entry(&mut self, entry: Entry) -> Result<(), Refusal>
        ensures ok { OnOk result (self.new.items ≡ self.old.items ++ (entry ∷ [])) }
        ensures err { OnErr result (self.new.items ≡ self.old.items) }
        ensures refusal { IfErr result (λ refusal. refusal ≡ Memory) }
    {
        match self.push(entry) {
            Ok(()) => Ok(()),
            Err(_) => Err(Refusal::Memory),
        }
    }
}
