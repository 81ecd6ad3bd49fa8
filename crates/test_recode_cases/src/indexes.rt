//! Loads the indexes of a file of cases as texts.

use anyhow::{Context, ensure};
use encoding_front::Encoding;
use encoding_index::load;
use encoding_tables::{IndexKind, Tables};
use std::alloc::Global;
use test_case_lines::kinds::kind_of;

fn load_text(
    alloc: Global,
    tables: &mut Tables,
    kind: IndexKind,
    text: &str,
) -> anyhow::Result<()> {
    let loaded = load(alloc, tables, kind, text.as_bytes());
    ensure!(loaded.is_ok(), "an index is refused");
    Ok(())
}

// Loads the index of words such as `jis0208 422=30CF`. It has these rows alone, each a pointer in
// decimal digits and a character in hexadecimal ones.
pub(crate) fn load_index(alloc: Global, tables: &mut Tables, words: &str) -> anyhow::Result<()> {
    let (name, words) = words.split_once(' ').unwrap_or((words, ""));
    let mut text = String::new(alloc);
    for word in words.split_whitespace() {
        let (pointer, entry) = word.split_once('=').context("a row has no `=`")?;
        let row = format!(in alloc; "{pointer}\t0x{entry}\n")?;
        text.push_str(row.as_str())?;
    }
    load_text(alloc, tables, kind_of(name)?, text.as_str())
}

// Loads an empty text for each index that two encodings need and that is not there.
pub(crate) fn complete(
    alloc: Global,
    tables: &mut Tables,
    from: Encoding,
    to: Encoding,
) -> anyhow::Result<()> {
    for encoding in [from, to.output_encoding()] {
        for kind in encoding.needs() {
            if !tables.has(*kind) {
                load_text(alloc, tables, *kind, "")?;
            }
        }
    }
    Ok(())
}
