//! A function of a user, whose contract says which text it returns.

ghost use Rattle.std.specs.Prelude.{◌≡◌, IfOk, encode_utf8_all, string_bytes};
ghost use Rattle.encoding_index.specs.Loads.{Loads};
ghost use Rattle.encoding_tables.specs.IndexLists.{IndexLists};
ghost use Rattle.encoding_tables.specs.declared.index_kind.IndexKind.{IndexKind};
ghost use Rattle.encoding_front.specs.Marks.{marked_text};
ghost use Rattle.encoding_front.specs.declared.encoding.Encoding.{Encoding};
ghost use Rattle.encoding_front.specs.declared.mark.Mark.{Mark};

use anyhow::{Context, bail, ensure};
use encoding_front::{CoderResult, SHIFT_JIS};
use encoding_index::load;
use encoding_tables::{IndexKind, Tables};
use std::alloc::Global;

/// Returns the text of bytes in Shift_JIS, by this index text.
pub(crate) fn shift_jis_text(alloc: Global, index: &[u8], bytes: &[u8]) -> anyhow::Result<String>
    ensures text { IfOk result (λ text. (t : IndexLists) × Loads t IndexKind.Jis0208 index.now
        × (string_bytes text
        ≡ encode_utf8_all (marked_text t Mark.Keep Encoding.ShiftJis bytes.now))) }
{
    let mut tables = Tables::new(alloc);
    load(alloc, &mut tables, IndexKind::Jis0208, index)?;
    ensure!(SHIFT_JIS.is_ready(&tables), "an index is missing");
    let mut decoder = SHIFT_JIS.new_decoder_without_bom_handling(&tables);
    let room = decoder
        .max_utf8_buffer_length(bytes.len())
        .context("the input is too long")?;
    let mut text = String::with_capacity(alloc, room)?;
    let (result, _, _) = decoder.decode_to_string(bytes, &mut text, true);
    match result {
        CoderResult::InputEmpty => Ok(text),
        CoderResult::OutputFull => bail!("the text has no room"),
    }
}
