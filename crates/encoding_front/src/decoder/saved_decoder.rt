//! What a decoder keeps between calls, as plain words, and a decoder that goes on from them.

ghost use Rattle.std.specs.Prelude.{◌≡◌};
ghost use Rattle.encoding_tables.specs.IndexLists.{AreAcceptedTables, IndexLists};
ghost use Rattle.encoding_front.specs.Encodings.{IsReady, lists_of};
ghost use Rattle.encoding_front.specs.calls.DecoderViews.{decoder_view};
ghost use Rattle.encoding_front.specs.calls.RoomRules.{saved_rule};
ghost use Rattle.encoding_front.specs.calls.SavedDecoders.{CanBeResumed, HasReadNothing};
ghost use Rattle.encoding_front.specs.calls.SavedDecoders.{IsSavedOfNew, Saves};
ghost use Rattle.encoding_front.specs.calls.Stream.{IsMadeFrom};

use crate::decoder::room_rule::RoomRule;
use crate::decoder::{Decoder, ahead};
use crate::encoding::Encoding;
use crate::mark::Mark;
use crate::seeking::{BomSet, ByteOrderMark};
use crate::variant_decoder::VariantDecoder;
use encoding_mem::pending::Pending;
use encoding_mem::saved_pieces::{SavedBytes, SavedPieces};
use encoding_mem::sink_decoder::SinkDecoder;
use encoding_tables::Tables;

/// What a `Decoder` keeps between calls, as plain words that can be copied, without the indexes.
/// [`Decoder::saved`] and [`SavedDecoder::new`] return it, and [`Decoder::resumed`] makes a decoder
/// of it that goes on.
#[derive(Clone, Copy)]
pub struct SavedDecoder {
    /// The encoding in force, as [`Decoder::encoding`] returns it.
    pub encoding: Encoding,
    /// The marks that it still looks for.
    pub sought: BomSet,
    /// The bytes that it held while it looked for a mark, and that are in no piece yet.
    pub held: SavedBytes,
    /// Whether its stream has ended.
    pub is_finished: bool,
    /// What the decoder of the encoding in force keeps.
    pub pieces: SavedPieces,
}

impl SavedDecoder {
    /// What is saved of a decoder of a new stream in `encoding`, as [`Decoder::new`] makes it;
    /// `mark` says which byte order marks are taken.
    ///
    /// [`Decoder::resumed`] takes it with tables in which the indexes of `encoding` are
    /// (`Encoding::is_ready`), or with `None` if it needs none (`Encoding::needs`).
    pub fn new(encoding: Encoding, mark: Mark) -> Self
        ensures words { HasReadNothing mark encoding result }
        ensures goes_on { (t : IndexLists) → IsReady t encoding → CanBeResumed t result }
        ensures new { (t : IndexLists) → AreAcceptedTables t → IsReady t encoding
            → IsSavedOfNew t mark encoding result }
    {
        let none = SavedBytes {
            len: 0,
            bytes: [0; 6],
        };
        SavedDecoder {
            encoding,
            sought: BomSet::new(mark, encoding),
            held: none,
            is_finished: false,
            pieces: SavedPieces {
                mode: 0,
                pending: none,
            },
        }
    }

    /// What the length queries of the decoder that was saved depend on (`Decoder::room_rule`).
    pub fn room_rule(&self) -> RoomRule
        ensures { result ≡ saved_rule self.now }
    {
        let held = self.held.as_slice();
        RoomRule {
            encoding: self.encoding,
            may_be_utf8: self.sought.can_be(held, ByteOrderMark::Utf8),
            may_be_utf16: self.sought.can_be_utf16(held),
            ahead: ahead(held),
            pending: self.pieces.pending.as_slice().len(),
        }
    }
}

impl<'t> Decoder<'t> {
    /// What this decoder keeps between calls, as it stands. The decoder itself stays as it is.
    #[inline(always)]
    pub fn saved(&self) -> SavedDecoder
        ensures saves { Saves result (decoder_view self.now) }
        ensures goes_on { (t : IndexLists) → IsMadeFrom t (decoder_view self.now)
            → CanBeResumed t result }
    {
        SavedDecoder {
            encoding: self.encoding,
            sought: self.sought,
            held: SavedBytes::new(self.held.as_slice()),
            is_finished: self.is_finished,
            pieces: self.inner.saved(),
        }
    }

    /// A decoder that goes on where one was saved: its calls do what those of the saved decoder
    /// would have done (`laws::resumed_decoders_go_on`).
    ///
    /// The condition is what `saved` promises of a decoder that was made from these `tables`, or,
    /// as the saved one may have been, with `None`: its caller keeps them together.
    #[inline(always)]
    pub fn resumed(saved: SavedDecoder, tables: Option<&'t Tables>) -> Self
        requires { CanBeResumed (lists_of tables) saved }
        ensures saves { Saves saved (decoder_view result) }
        ensures made { IsMadeFrom (lists_of tables.entry) (decoder_view result) }
    {
        let mut inner = VariantDecoder::new(saved.encoding, tables);
        inner.resume_on(saved.pieces);
        let mut held = Pending::new();
        // A saved decoder holds no more: this bounds words that none was saved in.
        let bytes = saved.held.as_slice();
        held.fill(&bytes[..bytes.len().min(2)]);
        Decoder {
            inner,
            encoding: saved.encoding,
            sought: saved.sought,
            held,
            is_finished: saved.is_finished,
        }
    }
}
