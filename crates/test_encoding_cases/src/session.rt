//! Reads the lines of cases of encodings.

use crate::calls::{Calls, check_calls};
use crate::decoding::check_decoded;
use crate::encoding::check_encoded;
use crate::encoding_lines::check_saying;
use crate::streams::{MarkedStream, check_marked};
use anyhow::{Context, ensure};
use encoding_front::Encoding;
use encoding_tables::{IndexKind, Tables};
use std::alloc::Global;
use test_case_lines::file::Lines;
use test_case_lines::indexes::{Way, insert_rows, put_index, rows_of};
use test_case_lines::report::Report;
use test_case_lines::words::first_word;
use test_encoding_calls::call_lines::{CallLine, ask_of};
use test_encoding_calls::names::{encoding_of, mark_of};
use test_encoding_calls::pieces::{DecodedStream, EncodedStream};
use test_encoding_calls::rooms::{Asked, Side};

// What the lines so far have set up.
#[derive(Drop)]
pub(crate) struct Session {
    tables: Tables,
    asked: Vec<Asked>,
    // The calls that have been read, but not made yet.
    calls: Option<Calls>,
}

// Returns the encoding that a line names, and the words after it.
fn encoding_in(words: &str) -> anyhow::Result<(Encoding, &str)> {
    let (name, rest) = words.split_once(' ').unwrap_or((words, ""));
    Ok((encoding_of(name)?, rest))
}

impl Session {
    // Returns a session without indexes, in which no room must be asked for.
    pub(crate) fn new(alloc: Global) -> Session {
        Session {
            tables: Tables::new(alloc),
            asked: Vec::new(alloc),
            calls: None,
        }
    }

    // Makes the calls that have been read.
    fn end_calls(
        &mut self,
        rt: &(impl Print + AllocGlobal),
        report: &mut Report,
    ) -> anyhow::Result<()> {
        match self.calls.take() {
            None => Ok(()),
            Some(calls) => {
                report.count_case();
                check_calls(rt, &self.tables, &calls, report)
            }
        }
    }

    // Reads a line whose first word is not a form. Returns whether that word is known.
    fn line_of(
        &mut self,
        rt: &(impl Print + AllocGlobal),
        word: &str,
        words: &str,
        report: &mut Report,
    ) -> anyhow::Result<bool> {
        let alloc = rt.alloc();
        match word {
            "tables" => self.tables = Tables::new(alloc),
            "index" => put_index(alloc, &mut self.tables, Way::List, words)?,
            "rows" => put_index(alloc, &mut self.tables, Way::Rows, words)?,
            "text" => put_index(alloc, &mut self.tables, Way::Text, words)?,
            "ranges" => {
                let rows = rows_of(alloc, words)?;
                let kind = IndexKind::Gb18030Ranges;
                let fault = insert_rows(&mut self.tables, kind, rows.as_slice())?;
                ensure!(fault.is_none(), "the ranges are refused");
            }
            "asks" => self.asked.push(Asked::of(words)?)?,
            "decode" => {
                let (encoding, pieces) = encoding_in(words)?;
                let stream = DecodedStream::of(alloc, pieces)?;
                report.count_case();
                let asked = self.asked.as_slice();
                check_decoded(rt, &self.tables, encoding, asked, &stream, report)?;
            }
            "encode" => {
                let (encoding, pieces) = encoding_in(words)?;
                let stream = EncodedStream::of(alloc, pieces)?;
                report.count_case();
                let asked = self.asked.as_slice();
                check_encoded(rt, &self.tables, encoding, asked, &stream, report)?;
            }
            "stream" => {
                let marked = MarkedStream::of(alloc, words)?;
                report.count_case();
                check_marked(rt, &self.tables, &marked, report)?;
            }
            "decoder" => self.begin_calls(alloc, report.line(), Side::Decoder, words)?,
            "encoder" => self.begin_calls(alloc, report.line(), Side::Encoder, words)?,
            "Encoder" => self.begin_calls(alloc, report.line(), Side::FrontEncoder, words)?,
            "Decoder" => {
                let (mark, words) = words.split_once(' ').context("a word is missing")?;
                self.begin_calls(
                    alloc,
                    report.line(),
                    Side::FrontDecoder(mark_of(mark)?),
                    words,
                )?
            }
            _ => return check_saying(rt, &self.tables, word, words, report),
        }
        Ok(true)
    }

    // Begins the calls of a new decoder or encoder. The name of its encoding may be followed by a
    // colon and what a new `Decoder` must answer.
    fn begin_calls(
        &mut self,
        alloc: Global,
        number: usize,
        side: Side,
        words: &str,
    ) -> anyhow::Result<()> {
        let (name, answers) = words.split_once(':').unwrap_or((words, ""));
        let (encoding, rest) = encoding_in(name)?;
        ensure!(rest.is_empty(), "a word behind the encoding");
        let mut asks = Vec::new(alloc);
        for answer in answers.split(',') {
            let answer = answer.trim();
            if !answer.is_empty() {
                asks.push(ask_of(alloc, answer)?.context("an answer is not known")?)?;
            }
        }
        self.calls = Some(Calls {
            side,
            encoding,
            number,
            asks,
            lines: Vec::new(alloc),
        });
        Ok(())
    }

    // Adds a call of the decoder or encoder that an earlier line named.
    fn add_call(&mut self, alloc: Global, number: usize, line: &str) -> anyhow::Result<()> {
        let calls = self.calls.as_mut();
        let calls = calls.context("a call of no decoder or encoder")?;
        calls.lines.push(CallLine::of(alloc, number, line)?)?;
        Ok(())
    }
}

impl Lines for Session {
    fn line(
        &mut self,
        rt: &(impl Print + AllocGlobal),
        line: &str,
        report: &mut Report,
    ) -> anyhow::Result<()> {
        let line = line.trim();
        let number = report.line();
        let (word, words) = first_word(line);
        if word == "utf-8" || word == "utf-16" {
            return self.add_call(rt.alloc(), number, line);
        }
        self.end_calls(rt, report)?;
        report.at(number);
        let is_known = self.line_of(rt, word, words, report)?;
        ensure!(is_known, "a line is not understood");
        Ok(())
    }

    fn end(&mut self, rt: &(impl Print + AllocGlobal), report: &mut Report) -> anyhow::Result<()> {
        self.end_calls(rt, report)
    }
}
