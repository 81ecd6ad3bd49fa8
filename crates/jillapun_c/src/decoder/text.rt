//! Decoding to UTF-8 in a buffer of valid UTF-8.

ghost use Rattle.std.specs.Prelude.{◌≡◌, ◌≢◌};
ghost use Rattle.encoding_mem.specs.declared.codec.room.OutputUnit.TheVariants.{Bytes, Replaced};
ghost use Rattle.encoding_front.specs.calls.DecoderCall.{free_bytes};
ghost use Rattle.jillapun_c.specs.DecoderCalls.{DecodesInto, DecodesIntoUpToFault, StandsOverText};
ghost use Rattle.jillapun_c.specs.declared.progress.TheConstants.Progress.{NONE};
ghost use Rattle.jillapun_c.specs.declared.status.TheConstants.{OK};

use crate::decoder::DecoderHandle;
use crate::decoder::utf8::{
    jillapun_decoder_decode_to_utf8, jillapun_decoder_decode_to_utf8_without_replacement,
};
use crate::mem::text_room::clear_rest;
use crate::progress::Progress;
use crate::status::{OK, Status};

/// Like `jillapun_decoder_decode_to_utf8`, but keeps `dst` valid UTF-8 (see Texts).
#[unsafe(no_mangle)]
pub extern "C" fn jillapun_decoder_decode_to_str(
    decoder: &mut DecoderHandle,
    src: &[u8],
    dst: &mut [u8],
    last: bool,
    progress: &mut Progress,
) -> Status
    ensures decodes { DecodesInto Replaced StandsOverText free_bytes decoder.old decoder.new src.now
        last dst.old dst.new progress.new result }
    ensures unchanged { result ≢ OK → (dst.new ≡ dst.old) × (decoder.new ≡ decoder.old) }
    ensures nothing { result ≢ OK → progress.new ≡ NONE }
    ensures tables { decoder.new.tables.tables ≡ decoder.old.tables.tables }
{
    let status = jillapun_decoder_decode_to_utf8(decoder, src, dst, last, progress);
    if status != OK {
        return status;
    }
    clear_rest(dst, progress.written);
    status
}

/// Like `jillapun_decoder_decode_to_utf8_without_replacement`, but keeps `dst` valid UTF-8 (see
/// Texts).
#[unsafe(no_mangle)]
pub extern "C" fn jillapun_decoder_decode_to_str_without_replacement(
    decoder: &mut DecoderHandle,
    src: &[u8],
    dst: &mut [u8],
    last: bool,
    progress: &mut Progress,
) -> Status
    ensures decodes { DecodesIntoUpToFault Bytes StandsOverText free_bytes decoder.old decoder.new
        src.now last dst.old dst.new progress.new result }
    ensures unchanged { result ≢ OK → (dst.new ≡ dst.old) × (decoder.new ≡ decoder.old) }
    ensures nothing { result ≢ OK → progress.new ≡ NONE }
    ensures tables { decoder.new.tables.tables ≡ decoder.old.tables.tables }
{
    let status = jillapun_decoder_decode_to_utf8_without_replacement(
        decoder, src, dst, last, progress,
    );
    if status != OK {
        return status;
    }
    let written = progress.written;
    clear_rest(dst, written);
    status
}
