//! What each of the forty encodings reads, and how it is written, with the indexes of the files.

use crate::characters::{Extent, print_characters};
use crate::streams::print_streams;
use anyhow::ensure;
use encoding_front::Encoding;
use encoding_tables::Tables;

// Prints what each encoding reads and what it writes.
pub(crate) fn print_encodings(
    rt: &(impl Print + AllocGlobal),
    tables: &Tables,
    extent: Extent,
) -> anyhow::Result<()> {
    for encoding in Encoding::ALL {
        ensure!(encoding.is_ready(tables), "an index is not there");
        print_streams(rt, tables, encoding)?;
        ensure!(
            encoding.output_encoding().is_ready(tables),
            "an index of the output is not there"
        );
        print_characters(rt, tables, extent, encoding)?;
    }
    Ok(())
}
