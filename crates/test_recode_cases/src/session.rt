//! Reads the lines of cases of conversions.

use crate::checks::{check_case, check_nothing};
use crate::codec_calls::{CodecCalls, check_codec_calls};
use crate::indexes::{complete, load_index};
use crate::orders::{Order, check_order};
use crate::reads::{Reads, check_reads};
use crate::steps::{Steps, check_steps};
use anyhow::{Context, ensure};
use encoding_tables::Tables;
use std::alloc::Global;
use test_case_lines::file::Lines;
use test_case_lines::report::Report;
use test_recode_trials::case::{Case, Head};

// The indexes that the lines so far have loaded.
#[derive(Drop)]
pub(crate) struct Session {
    tables: Tables,
}

impl Session {
    // Returns a session without indexes.
    pub(crate) fn new(alloc: Global) -> Session {
        Session {
            tables: Tables::new(alloc),
        }
    }

    // Counts a case, and loads an empty text for each index that it needs and that is not there.
    fn begin(&mut self, alloc: Global, head: Head, report: &mut Report) -> anyhow::Result<()> {
        report.count_case();
        complete(alloc, &mut self.tables, head.from, head.to)
    }

    // Checks a line such as `utf-8 -> gbk: 80 => 80 | faithful`.
    fn convert(
        &mut self,
        rt: &(impl Print + AllocGlobal),
        line: &str,
        report: &mut Report,
    ) -> anyhow::Result<()> {
        let (head, words) = line.split_once(": ").context("a line is not understood")?;
        let case = Case::of(rt.alloc(), Head::of(head)?, words)?;
        self.begin(rt.alloc(), case.head, report)?;
        check_case(rt, &self.tables, &case, report)
    }

    fn order(
        &mut self,
        rt: &impl AllocGlobal,
        words: &str,
        report: &mut Report,
    ) -> anyhow::Result<()> {
        let order = Order::of(rt.alloc(), words)?;
        self.begin(rt.alloc(), order.head, report)?;
        check_order(rt, &self.tables, &order, report)
    }

    fn steps(
        &mut self,
        rt: &impl AllocGlobal,
        words: &str,
        report: &mut Report,
    ) -> anyhow::Result<()> {
        let steps = Steps::of(rt.alloc(), words)?;
        self.begin(rt.alloc(), steps.head, report)?;
        check_steps(rt, &self.tables, &steps, report)
    }

    // Checks a line such as `nothing big5 utf-8`: no bytes stay none, from each of these encodings
    // to each.
    fn nothing(
        &mut self,
        rt: &(impl Print + AllocGlobal),
        words: &str,
        report: &mut Report,
    ) -> anyhow::Result<()> {
        for from in words.split_whitespace() {
            for to in words.split_whitespace() {
                let head = Head::between(from, to)?;
                let case = Case::of(rt.alloc(), head, "=> | faithful")?;
                self.begin(rt.alloc(), head, report)?;
                check_nothing(rt, &self.tables, &case, report)?;
            }
        }
        Ok(())
    }

    fn codec_calls(
        &mut self,
        rt: &impl AllocGlobal,
        word: &str,
        words: &str,
        report: &mut Report,
    ) -> anyhow::Result<()> {
        let calls = CodecCalls::of(rt.alloc(), word, words)?;
        self.begin(rt.alloc(), calls.head, report)?;
        check_codec_calls(rt, &self.tables, &calls, report)
    }

    fn reads(
        &mut self,
        rt: &impl AllocGlobal,
        is_limit: bool,
        words: &str,
        report: &mut Report,
    ) -> anyhow::Result<()> {
        let reads = Reads::of(rt.alloc(), words, is_limit)?;
        self.begin(rt.alloc(), reads.head, report)?;
        check_reads(rt, &self.tables, &reads, report)
    }
}

impl Lines for Session {
    fn line(
        &mut self,
        rt: &(impl Print + AllocGlobal),
        line: &str,
        report: &mut Report,
    ) -> anyhow::Result<()> {
        let line = line.trim();
        let (word, words) = line.split_once(' ').unwrap_or((line, ""));
        match word {
            "tables" => {
                ensure!(words.is_empty(), "a word behind `tables`");
                self.tables = Tables::new(rt.alloc());
                Ok(())
            }
            "index" => load_index(rt.alloc(), &mut self.tables, words),
            "nothing" => self.nothing(rt, words, report),
            "order" => self.order(rt, words, report),
            "steps" => self.steps(rt, words, report),
            "limit" | "room" => self.reads(rt, word == "limit", words, report),
            "calls" | "byte-calls" | "pivot-calls" => self.codec_calls(rt, word, words, report),
            _ => self.convert(rt, line, report),
        }
    }
}
