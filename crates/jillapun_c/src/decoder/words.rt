//! A decoder in plain words, as its handle keeps it.

ghost use Rattle.std.specs.Prelude.{◌≡◌, None, Some};
ghost use Rattle.jillapun_c.specs.HeldDecoders.{saved_in};

use crate::encoding_number::{encoding_of, number_of};
use encoding_front::SavedDecoder;
use encoding_front::seeking::BomSet;
use encoding_mem::saved_pieces::{SavedBytes, SavedPieces};

/// Private state of a decoder.
#[repr(C)]
#[derive(Clone, Copy)]
pub struct DecoderWords {
    is_there: bool,
    is_finished: bool,
    encoding: u8,
    seeks_utf8: bool,
    seeks_utf16_be: bool,
    seeks_utf16_le: bool,
    mode: u8,
    held_len: u8,
    held: [u8; 6],
    pending_len: u8,
    pending: [u8; 6],
}

impl DecoderWords {
    /// There is no decoder.
    pub(crate) fn none() -> DecoderWords
        ensures { saved_in result ≡ None }
    {
        DecoderWords {
            is_there: false,
            is_finished: false,
            encoding: 0,
            seeks_utf8: false,
            seeks_utf16_be: false,
            seeks_utf16_le: false,
            mode: 0,
            held_len: 0,
            held: [0; 6],
            pending_len: 0,
            pending: [0; 6],
        }
    }

    /// Those of a decoder, by what was saved of it.
    pub(crate) fn of(saved: SavedDecoder) -> DecoderWords
        ensures { saved_in result ≡ Some saved }
    {
        let held = saved.held.bytes;
        let pending = saved.pieces.pending.bytes;
        DecoderWords {
            is_there: true,
            is_finished: saved.is_finished,
            encoding: number_of(saved.encoding),
            seeks_utf8: saved.sought.utf8,
            seeks_utf16_be: saved.sought.utf16_be,
            seeks_utf16_le: saved.sought.utf16_le,
            mode: saved.pieces.mode,
            held_len: saved.held.len,
            held,
            pending_len: saved.pieces.pending.len,
            pending,
        }
    }

    /// What was saved of the decoder: `None` if there is none, or if no encoding has the number.
    #[inline(always)]
    pub(crate) fn saved(self) -> Option<SavedDecoder>
        ensures { result ≡ saved_in self }
    {
        if !self.is_there {
            return None;
        }
        let encoding = encoding_of(self.encoding)?;
        let held = self.held;
        let pending = self.pending;
        Some(SavedDecoder {
            encoding,
            sought: BomSet {
                utf8: self.seeks_utf8,
                utf16_be: self.seeks_utf16_be,
                utf16_le: self.seeks_utf16_le,
            },
            held: SavedBytes {
                len: self.held_len,
                bytes: held,
            },
            is_finished: self.is_finished,
            pieces: SavedPieces {
                mode: self.mode,
                pending: SavedBytes {
                    len: self.pending_len,
                    bytes: pending,
                },
            },
        })
    }
}
