//! Converts the cases of the files in `data/`, and calls the program. Prints how many cases each
//! file has, how many conversions they took, and each difference from what a case expects. The file
//! `stdout` beside `src/` has what must be printed: no difference.
//!
//! A case gives an input, what it must become, and what must be reported. It is converted at every
//! cut, in steps and at once, with buffers of many sizes, and with each call of a device failing.
//! `data/README.md` describes the lines. The expected values are worked by hand.
//!
//! If the words are a number and labels of encodings, it is run in the folder of the index files,
//! and prints a verdict on each character instead.
#![tactic(auto)]

mod calls;
mod characters;
mod checks;
mod codec_calls;
mod converters;
mod faults;
mod files;
mod indexes;
mod orders;
mod program_lines;
mod reads;
mod session;
mod steps;
mod words;

use crate::characters::print_all;
use crate::program_lines::ProgramLines;
use crate::session::Session;
use anyhow::Context;
use std::{env, fs};
use test_case_lines::file::run_file;

const FILES: [&str; 17] = [
    "worked.txt",
    "counts.txt",
    "encodings.txt",
    "pairs.txt",
    "folds.txt",
    "marks.txt",
    "written-marks.txt",
    "escapes.txt",
    "policies.txt",
    "verdicts.txt",
    "long.txt",
    "nothing.txt",
    "roads.txt",
    "orders.txt",
    "steps.txt",
    "codec-calls.txt",
    "reads.txt",
];

// The files with calls of the program, and with the words and the lines that it reads.
const PROGRAM_FILES: [&str; 2] = ["calls.txt", "words.txt"];

fn main(rt: HostRuntime) -> anyhow::Result<()> {
    let words: Vec<String> = env::args(&rt)?.collect(rt.alloc())?;
    if let [_, step, labels @ ..] = words.as_slice() {
        return print_all(&rt, step.parse()?, labels);
    }
    for name in FILES {
        let text = fs::read_to_string(&rt, name).context(name)?;
        run_file(&rt, name, text.as_str(), Session::new(rt.alloc()))?;
    }
    for name in PROGRAM_FILES {
        let text = fs::read_to_string(&rt, name).context(name)?;
        run_file(&rt, name, text.as_str(), ProgramLines)?;
    }
    Ok(())
}
