//! Loads each index from its file in the current folder, and prints some of its entries: a pointer,
//! and the character there. With these indexes it then prints what the encodings of several bytes a
//! character make of every sequence of two bytes, and what each of the forty encodings reads and
//! writes.
//!
//! The file `stdout` beside `src/` has what must be printed. Its characters were taken from ISO
//! 8859, RFC 1489 and RFC 2319 (KOI8), the code pages of the vendors, JIS X 0208 and 0212, KS X
//! 1001, GB 18030 and the notes of the Encoding Standard, never from the files. Its lines on
//! sequences are those of `tools/oracles/sequences.py`, a program that reads the same files by
//! itself. Its lines on the forty encodings are those of `tools/oracles/characters.py`.
//!
//! A sample of the characters above the basic plane is written. With the word `all` every one of
//! them is written (`make characters`).
#![tactic(auto)]

ghost use Rattle.std.specs.Prelude.{◌≡◌, true};
ghost use Rattle.encoding_tables.specs.IndexLists.{has};

mod characters;
mod digest;
mod encodings;
mod lists;
mod sequences;
mod streams;

use crate::characters::Extent;
use crate::encodings::print_encodings;
use crate::lists::POINTERS;
use crate::sequences::print_sequences;
use anyhow::{Context, bail, ensure};
use encoding_index::load;
use encoding_tables::{IndexKind, Tables};
use std::env::Env;
use std::{env, fs};

// Returns the character at a pointer of an index that is there.
fn character(tables: &Tables, kind: IndexKind, pointer: u32) -> Option<char>
    requires { has tables.now kind ≡ true }
{
    if kind.is_ranges() {
        tables.range_value(pointer)
    } else {
        tables.value(kind, pointer)
    }
}

// Prints the line of an index that is there.
fn print_entries(
    rt: &impl Print,
    tables: &Tables,
    kind: IndexKind,
    pointers: &[u32],
) -> anyhow::Result<()>
    requires { has tables.now kind ≡ true }
{
    print!(rt; "{}", kind.file_name())?;
    for pointer in pointers {
        match character(tables, kind, *pointer) {
            Some(c) => print!(rt; " {pointer}=U+{:04X}", u32::from(c))?,
            None => print!(rt; " {pointer}=none")?,
        }
    }
    println!(rt; "")?;
    Ok(())
}

// Returns which characters the word of the command line asks for.
fn extent(env: &(impl Env + AllocGlobal)) -> anyhow::Result<Extent> {
    let words: Vec<String> = env::args(env)?.collect(env.alloc())?;
    match words.get(1) {
        None => Ok(Extent::Sample),
        Some(word) if word.as_str() == "all" => Ok(Extent::All),
        Some(_) => bail!("the only word is `all`"),
    }
}

fn main(rt: HostRuntime) -> anyhow::Result<()> {
    let extent = extent(&rt)?;
    let mut tables = Tables::new(rt.alloc());
    for (kind, pointers) in POINTERS {
        let text = fs::read(&rt, kind.file_name()).context(kind.file_name())?;
        load(rt.alloc(), &mut tables, kind, &text).context(kind.file_name())?;
        ensure!(tables.has(kind), "an index that was loaded is not there");
        print_entries(&rt, &tables, kind, pointers)?;
    }
    ensure!(
        tables.has(IndexKind::Big5),
        "the index of Big5 is not there"
    );
    ensure!(
        tables.has(IndexKind::EucKr),
        "the index of EUC-KR is not there"
    );
    ensure!(tables.has(IndexKind::Jis0208), "JIS X 0208 is not there");
    ensure!(tables.has(IndexKind::Jis0212), "JIS X 0212 is not there");
    ensure!(
        tables.has(IndexKind::Gb18030),
        "the index of gb18030 is not there"
    );
    ensure!(
        tables.has(IndexKind::Gb18030Ranges),
        "the ranges of gb18030 are not there"
    );
    ensure!(
        tables.has(IndexKind::Iso2022JpKatakana),
        "halfwidth katakana are not there"
    );
    print_sequences(&rt, &tables)?;
    print_encodings(&rt, &tables, extent)
}
