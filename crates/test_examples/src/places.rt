//! The example of the library that finds places (`recode_places`).

use encoding_front::{Encoding, Mark};
use encoding_tables::Tables;
use recode_places::{Choice, Entry, Finding, LogMatch, Reading, tell_places};
use std::alloc::Global;

pub(crate) fn tells_a_place(alloc: Global) -> anyhow::Result<bool> {
    // recode_places
    let tables = Tables::new(alloc);
    let reading = Reading {
        from: Encoding::Utf8,
        mark: Mark::Sniff,
        tables: &tables,
    };
    if !reading.from.is_ready(&tables) {
        return Ok(false);
    }
    let mut input = b"one\nt\xFFo".as_slice();
    let mut choice = Choice::of_log(LogMatch::new(b"bad 5 1\n".as_slice())?);
    let mut entries: Vec<Entry> = Vec::new(alloc);
    tell_places(&mut input, reading, &mut choice, &mut entries)?;
    // end
    let [entry] = entries.as_slice() else {
        return Ok(false);
    };
    let is_there = entry.place.line == 2 && entry.place.column == 2 && entry.place.index == 5;
    Ok(
        is_there
            && entry.finding
                == Finding::Malformed {
                    offset: 5,
                    length: 1,
                },
    )
}
