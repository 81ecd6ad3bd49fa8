//! The handle of a decoder, as C holds it.

ghost use Rattle.std.specs.Prelude.{◌≡◌, None};
ghost use Rattle.jillapun_c.specs.HeldDecoders.{IsSoundDecoder, saved_in};

use crate::decoder::words::DecoderWords;
use crate::tables_handle::TablesHandle;

/// A decoder of one stream, begun by `jillapun_decoder_new`.
#[repr(C)]
#[derive(Drop)]
pub struct DecoderHandle {
    pub tables: TablesHandle,
    pub(crate) words: DecoderWords,
    pub ghost sound: { IsSoundDecoder tables.tables words },
}

impl DecoderHandle {
    /// One that holds nothing.
    pub(crate) fn none() -> DecoderHandle
        ensures closed { saved_in result.words ≡ None }
        ensures tables { result.tables.tables ≡ None }
    {
        DecoderHandle {
            tables: TablesHandle::none(),
            words: DecoderWords::none(),
        }
    }

    /// Another one that holds the same.
    pub(crate) fn copied(&self) -> DecoderHandle
        ensures { result ≡ self.now }
    {
        DecoderHandle {
            tables: self.tables.copied(),
            words: self.words,
        }
    }
}
