//! Hands in the indexes of some files in `data/`, and looks entries up in them. Converts the cases
//! of the other files. Prints how many cases each file has, how many conversions or calls they
//! took, and each difference from what a case expects. The file `stdout` beside `src/` has what
//! must be printed: no difference.
//!
//! A case of a whole stream gives each piece and what it becomes. The stream is converted at every
//! cut, into rooms of every size. A case of calls gives the exact result of each call.
//! `data/README.md` describes the lines. The expected values are worked by hand from the Encoding
//! Standard.
#![tactic(auto)]

mod calls;
mod decoding;
mod encoding;
mod encoding_lines;
mod front_decoding;
mod front_encoding;
mod session;
mod streams;

use crate::session::Session;
use anyhow::Context;
use std::fs;
use test_case_lines::file::run_file;
use test_case_lines::table_lines::TableLines;

// The files of cases of indexes.
const TABLE_FILES: [&str; 4] = ["lists.txt", "rows.txt", "ranges.txt", "index-texts.txt"];

// The files of cases of codecs and of encodings.
const FILES: [&str; 13] = [
    "utf-8.txt",
    "single-byte.txt",
    "without-index.txt",
    "big5.txt",
    "euc-kr.txt",
    "gb18030.txt",
    "iso-2022-jp.txt",
    "shift_jis-and-euc-jp.txt",
    "codecs-together.txt",
    "marks.txt",
    "decoder-calls.txt",
    "references.txt",
    "encodings.txt",
];

fn main(rt: HostRuntime) -> anyhow::Result<()> {
    for name in TABLE_FILES {
        let text = fs::read_to_string(&rt, name).context(name)?;
        run_file(&rt, name, text.as_str(), TableLines::new(rt.alloc()))?;
    }
    for name in FILES {
        let text = fs::read_to_string(&rt, name).context(name)?;
        run_file(&rt, name, text.as_str(), Session::new(rt.alloc()))?;
    }
    Ok(())
}
