//! Lines that call the program, and lines of the words and of the log lines that it reads, and of
//! the texts of faults.

use crate::calls::check_call;
use crate::faults::check_fault;
use crate::words::{check_invalid, check_line, check_part, check_refused, check_words};
use anyhow::bail;
use test_case_lines::file::Lines;
use test_case_lines::report::Report;

// These lines leave nothing for the next one: each stands by itself.
#[derive(Clone, Copy)]
pub(crate) struct ProgramLines;

impl Lines for ProgramLines {
    fn line(
        &mut self,
        rt: &(impl Print + AllocGlobal),
        line: &str,
        report: &mut Report,
    ) -> anyhow::Result<()> {
        let (word, words) = line.split_once(' ').unwrap_or((line, ""));
        report.count_case();
        report.count_conversion();
        match word {
            "call" => check_call(rt, words, report),
            "words" => check_words(rt, words, report),
            "words-has" => check_part(rt, words, report),
            "line" => check_line(rt, words, report),
            "invalid" => check_invalid(rt, words, report),
            "no-line" => check_refused(rt, words, report),
            "fault" => check_fault(rt, words, report),
            _ => bail!("a line is not understood"),
        }
    }
}
