//! Lines that hand indexes in and look into them.

use crate::file::Lines;
use crate::insertions::check_insertion;
use crate::lookups::{
    check_gaps, check_kind, check_pointer, check_presence, check_range_pointers, check_search,
    check_unmapped, check_values,
};
use crate::report::Report;
use crate::texts::check_reading;
use crate::words::first_word;
use anyhow::{bail, ensure};
use encoding_tables::Tables;
use std::alloc::Global;

/// The indexes that the lines so far have handed in.
#[derive(Drop)]
pub struct TableLines {
    tables: Tables,
}

impl TableLines {
    /// Returns a reader of lines that has no indexes yet.
    pub fn new(alloc: Global) -> TableLines {
        TableLines {
            tables: Tables::new(alloc),
        }
    }
}

impl Lines for TableLines {
    // Reads a line. The line `tables` begins a case, and removes all indexes.
    fn line(
        &mut self,
        rt: &(impl Print + AllocGlobal),
        line: &str,
        report: &mut Report,
    ) -> anyhow::Result<()> {
        let (word, words) = first_word(line.trim());
        match word {
            "tables" => {
                ensure!(words.is_empty(), "a word behind `tables`");
                report.count_case();
                self.tables = Tables::new(rt.alloc());
                Ok(())
            }
            "insert" => check_insertion(rt, &mut self.tables, words, report),
            "read" => check_reading(rt, words, report),
            "values" => check_values(rt, &self.tables, words, report),
            "gaps" => check_gaps(rt, &self.tables, words, report),
            "pointers" => check_range_pointers(rt, &self.tables, words, report),
            "unmapped" => check_unmapped(rt, &self.tables, words, report),
            "first" => check_pointer(rt, &self.tables, true, words, report),
            "last" => check_pointer(rt, &self.tables, false, words, report),
            "there" => check_presence(rt, &self.tables, words, report),
            "kind" => check_kind(rt, words, report),
            "search" => check_search(rt, words, report),
            _ => bail!("a line is not understood"),
        }
    }
}
