//! The example of the library that prints places (`recode_places_report`).

use encoding_front::Encoding;
use recode_places::{Entry, Finding, Place, Visitor};
use recode_places_report::Report;
use std::alloc::Global;

pub(crate) fn reports_a_place(alloc: Global) -> anyhow::Result<bool> {
    // recode_places_report
    let mut report = Report::new(alloc, Vec::new(alloc), "old.txt", Encoding::Utf8, 20)?;
    report.entry(Entry {
        place: Place::first(),
        finding: Finding::Malformed {
            offset: 0,
            length: 1,
        },
    })?;
    report.malformed(b"\xFF", Encoding::Utf8)?;
    report.characters("one\n")?;
    report.finish()?;
    // end
    let right = "old.txt:1:1: byte FF in no character of UTF-8\n  1 | <FF>one\n    | ^^^^\n";
    Ok(report.into_writer().as_slice() == right.as_bytes())
}
