//! What the room that is enough depends on, as plain values.

ghost use Rattle.std.specs.Prelude.{◌≡◌, ℕ};
ghost use Rattle.encoding_mem.specs.declared.codec.room.OutputUnit.{OutputUnit};
ghost use Rattle.encoding_front.specs.calls.DecoderViews.{decoder_view};
ghost use Rattle.encoding_front.specs.calls.RoomRules.{room_by, room_rule_of};
ghost use Rattle.encoding_front.specs.calls.Stream.{room_asked};

use crate::decoder::{Decoder, greater_if};
use crate::encoding::Encoding;
use encoding_mem::room::{DecodedLength, OutputUnit};

/// What the length queries of a decoder depend on, as it stands: for a caller that keeps these
/// values, and asks them in place of the decoder. [`Decoder::room_rule`] returns them.
#[derive(Clone, Copy)]
pub struct RoomRule {
    /// The encoding in force.
    pub encoding: Encoding,
    /// Whether the input may still turn out to begin with the byte order mark of UTF-8.
    pub may_be_utf8: bool,
    /// Whether the input may still turn out to begin with that of UTF-16BE or UTF-16LE.
    pub may_be_utf16: bool,
    /// What is counted for bytes that were held while a mark was looked for, and are in no piece
    /// yet: 2 if there are any, else 0.
    pub ahead: usize,
    /// How many bytes of a sequence are pending.
    pub pending: usize,
}

impl RoomRule {
    /// How much room is enough for the text of `n` more bytes: what the decoder's query for this
    /// count returns, as `max_utf16_buffer_length` for units.
    pub fn max_buffer_length(self, count: OutputUnit, n: usize) -> Option<usize>
        ensures { result ≡ room_by self count n }
    {
        let n = n.checked_add(self.ahead)?;
        let own = self.encoding.text_room().query(count, self.pending, n)?;
        let own = greater_if(
            self.may_be_utf8,
            DecodedLength::utf8().query(count, 0, n),
            own,
        )?;
        greater_if(
            self.may_be_utf16,
            DecodedLength::utf16().query(count, 0, n),
            own,
        )
    }
}

impl<'t> Decoder<'t> {
    /// What the length queries depend on, as the decoder stands: they return what it says.
    pub fn room_rule(&self) -> RoomRule
        ensures rule { result ≡ room_rule_of (decoder_view self.now) }
        ensures asked { (k : OutputUnit) (n : ℕ)
            → room_asked (decoder_view self.now).opening k n ≡ room_by result k n }
    {
        self.saved().room_rule()
    }
}
