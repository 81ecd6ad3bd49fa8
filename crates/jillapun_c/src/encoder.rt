//! Encoders.

ghost use Rattle.std.specs.Prelude.{◌≡◌, ◌≢◌, None};
ghost use Rattle.jillapun_c.specs.Coders.{encoder_in};
ghost use Rattle.jillapun_c.specs.EncoderCalls.{MakesEncoder};
ghost use Rattle.jillapun_c.specs.declared.status.TheConstants.{OK};

pub(crate) mod handle;
mod part;
pub(crate) mod queries;
pub(crate) mod utf16;
pub(crate) mod utf8;
pub(crate) mod words;

use crate::encoder::handle::EncoderHandle;
use crate::encoding_number::encoding_of;
use crate::status::{NOT_READY, OK, Status, UNKNOWN};
use crate::tables_handle::TablesHandle;

/// Begins to encode a new text into the output encoding of `encoding` (section 4.3). Errors:
/// `UNKNOWN`, `NOT_READY`.
#[unsafe(no_mangle)]
pub extern "C" fn jillapun_encoder_new(
    tables: TablesHandle,
    encoding: u8,
    out: &mut EncoderHandle,
) -> Status
    ensures makes { MakesEncoder tables.tables encoding (encoder_in out.new) result }
    ensures refused { result ≢ OK → encoder_in out.new ≡ None }
{
    *out = EncoderHandle::none();
    let Some(encoding) = encoding_of(encoding) else {
        return UNKNOWN;
    };
    if !tables.are_ready(encoding.output_encoding()) {
        return NOT_READY;
    }
    *out = EncoderHandle::of_new(tables, encoding);
    OK
}
