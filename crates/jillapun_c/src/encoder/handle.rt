//! The handle of an encoder, as C holds it.

ghost use Rattle.jillapun_c.specs.EncoderWords.{AreSoundWords};

use crate::encoder::words::EncoderWords;
use crate::tables_handle::TablesHandle;
use encoding_front::{Encoder, Encoding, SavedEncoder};
use encoding_mem::form::EscapeState;

/// An encoder of a text, begun by `jillapun_encoder_new`.
#[repr(C)]
#[derive(Drop)]
pub struct EncoderHandle {
    pub tables: TablesHandle,
    pub words: EncoderWords,
    pub ghost sound: { ∥ AreSoundWords tables.tables words ∥₁ },
}

impl EncoderHandle {
    ghost use Rattle.std.specs.Prelude.{◌≡◌, None, Some, IsSomeAnd};
    ghost use Rattle.encoding_front.specs.Encodings.{IsReady, output_encoding_of};
    ghost use Rattle.encoding_front.specs.calls.Encoder.{new_state};
    ghost use Rattle.jillapun_c.specs.Coders.{encoder_in};
    ghost use Rattle.jillapun_c.specs.EncoderWords.{GoesOnAs};
    ghost use Rattle.jillapun_c.specs.HeldTables.{held_lists};

    /// One that holds nothing.
    pub(crate) fn none() -> EncoderHandle
        ensures { encoder_in result ≡ None }
    {
        EncoderHandle {
            tables: TablesHandle::none(),
            words: EncoderWords::none(),
        }
    }

    /// One that holds an encoder of a new stream, into the output encoding.
    pub(crate) fn of_new(tables: TablesHandle, encoding: Encoding) -> EncoderHandle
        requires { IsReady (held_lists tables.tables) (output_encoding_of encoding) }
        ensures { encoder_in result ≡ Some (new_state (held_lists tables.tables) encoding) }
    {
        let words = EncoderWords::of(SavedEncoder {
            encoding: encoding.output_encoding(),
            set: EscapeState::Ascii,
        });
        EncoderHandle { tables, words }
    }

    /// The encoder that it holds, as one that goes on.
    #[inline(always)]
    pub(crate) fn opened(&self) -> Option<Encoder<'static>>
        ensures { result ≡ encoder_in self.now }
    {
        let saved = self.words.saved()?;
        Some(Encoder::resumed(saved, self.tables.lent()))
    }

    /// Keeps what a call has left of the encoder that it holds.
    pub(crate) fn keep(&mut self, encoder: &Encoder<'_>)
        requires { IsSomeAnd (encoder_in self.old) (λ e. GoesOnAs e encoder.now) }
        ensures { encoder_in self.new ≡ Some encoder.now }
    {
        self.words = EncoderWords::of(encoder.saved());
    }
}
