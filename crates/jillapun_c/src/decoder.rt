//! Decoders.

ghost use Rattle.std.specs.Prelude.{◌≡◌, ◌≢◌, None, MatchResult};
ghost use Rattle.encoding_mem.specs.declared.codec.room.OutputUnit.{OutputUnit};
ghost use Rattle.encoding_tables.specs.IndexLists.{AreAcceptedTables};
ghost use Rattle.encoding_front.specs.Encodings.{IsReady};
ghost use Rattle.encoding_front.specs.calls.DecoderViews.{decoder_view};
ghost use Rattle.encoding_front.specs.calls.Stream.{IsMadeFrom};
ghost use Rattle.jillapun_c.specs.DecoderCalls.{AsksRoom, GoesOnFrom, HoldsNewDecoder};
ghost use Rattle.jillapun_c.specs.DecoderCalls.{HoldsOne, MakesDecoder, TellsWhyNot};
ghost use Rattle.jillapun_c.specs.HeldDecoders.{saved_in};
ghost use Rattle.jillapun_c.specs.HeldTables.{held_lists};
ghost use Rattle.jillapun_c.specs.declared.status.TheConstants.{OK};

mod handle;
pub(crate) mod queries;
pub(crate) mod text;
pub(crate) mod utf16;
pub(crate) mod utf8;
pub(crate) mod words;

use crate::decoder::words::DecoderWords;
use crate::encoding_number::{encoding_of, mark_of};
use crate::status::{CLOSED, FINISHED, NOT_READY, OK, REFUSED, Status, UNKNOWN};
use crate::tables_handle::TablesHandle;
use encoding_front::{Decoder, Encoding, Mark, SavedDecoder};
use encoding_mem::room::OutputUnit;
pub use handle::DecoderHandle;

impl DecoderHandle {
    // One that holds a decoder of a new stream.
    fn of_new(tables: TablesHandle, encoding: Encoding, mark: Mark) -> DecoderHandle
        requires ready { IsReady (held_lists tables.tables) encoding }
        requires accepted { AreAcceptedTables (held_lists tables.tables) }
        ensures { HoldsNewDecoder tables.tables encoding mark result }
    {
        DecoderHandle {
            tables,
            words: DecoderWords::of(SavedDecoder::new(encoding, mark)),
        }
    }

    // The decoder that it holds, as one that goes on. Else the status: `CLOSED`, it holds no
    // decoder; `FINISHED`, the stream has ended.
    #[inline(always)]
    fn opened(&self) -> Result<Decoder<'static>, u8>
        ensures { MatchResult result (λ d. GoesOnFrom self.now (decoder_view d))
            (λ status. TellsWhyNot self.now status) }
    {
        let Some(saved) = self.words.saved() else {
            return Err(CLOSED);
        };
        if saved.is_finished {
            return Err(FINISHED);
        }
        Ok(Decoder::resumed(saved, self.tables.lent()))
    }

    // Keeps a decoder, which was made from its tables, in place of what it held.
    fn keep(&mut self, decoder: &Decoder<'_>)
        requires { IsMadeFrom (held_lists self.old.tables.tables) (decoder_view decoder.now) }
        ensures holds { HoldsOne self.new (decoder_view decoder.now) }
        ensures tables { self.new.tables.tables ≡ self.old.tables.tables }
    {
        self.words = DecoderWords::of(decoder.saved());
    }

    // Reports the room that is enough for the text of `n` more bytes, or `REFUSED` if it passes a
    // `usize`. Returns `OK`. Else it reports 0: `CLOSED`, it holds no decoder; `FINISHED`, the
    // stream has ended.
    fn room(&self, count: OutputUnit, n: usize, length: &mut usize) -> u8
        ensures tells { AsksRoom count self.now n length.new result }
        ensures nothing { result ≢ OK → length.new ≡ 0 }
    {
        *length = 0;
        let Some(saved) = self.words.saved() else {
            return CLOSED;
        };
        if saved.is_finished {
            return FINISHED;
        }
        let rule = saved.room_rule();
        *length = rule.max_buffer_length(count, n).unwrap_or(REFUSED);
        OK
    }
}

/// Begins a new stream in an encoding. `mark` (`SNIFF`, `REMOVE` or `KEEP`) says what happens to a
/// BOM at its start. Errors: `UNKNOWN`, `NOT_READY`.
#[unsafe(no_mangle)]
pub extern "C" fn jillapun_decoder_new(
    tables: TablesHandle,
    encoding: u8,
    mark: u8,
    out: &mut DecoderHandle,
) -> Status
    ensures makes { MakesDecoder tables.tables encoding mark out.new result }
    ensures refused { result ≢ OK → saved_in out.new.words ≡ None }
{
    *out = DecoderHandle::none();
    let Some(encoding) = encoding_of(encoding) else {
        return UNKNOWN;
    };
    let Some(mark) = mark_of(mark) else {
        return UNKNOWN;
    };
    if !tables.are_ready(encoding) {
        return NOT_READY;
    }
    *out = DecoderHandle::of_new(tables, encoding, mark);
    OK
}
