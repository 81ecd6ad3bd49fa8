//! Examples of the libraries of encodings, of the log and of the command line.

use encoding_front::{CoderResult, Encoding, UTF_8};
use encoding_tables::Tables;
use recode_log::deliver::deliver;
use recode_log::{Counted, LogLine};
use recode_words::{Request, parse_words};
use std::alloc::Global;

pub(crate) fn converts_streams(alloc: Global) -> anyhow::Result<bool> {
    // encoding_front
    let tables = Tables::new(alloc);
    let Some(encoding) = Encoding::for_label(b"utf8") else {
        return Ok(false);
    };
    if !encoding.is_ready(&tables) {
        return Ok(false);
    }
    let mut decoder = encoding.new_decoder(&tables);
    let mut text = [0; 16];
    let (_, _, start, _) = decoder.decode_to_utf8(b"caf\xC3", &mut text, false);
    let rest = &mut text[start..];
    let (result, _, more, had_errors) = decoder.decode_to_utf8(b"\xA9", rest, true);
    let (bytes, _, had_references) = UTF_8.encode(alloc, &tables, "caf\u{E9}")?;
    // end
    let is_whole = result == CoderResult::InputEmpty && !had_errors && !had_references;
    Ok(is_whole && start == 3 && more == 2 && bytes.as_slice() == &text[..5])
}

pub(crate) fn writes_a_line(alloc: Global) -> anyhow::Result<bool> {
    // recode_log
    let line = LogLine::Bad {
        offset: 6,
        length: 1,
    };
    let mut room = [0; 32];
    if !line.is_valid() {
        return Ok(false);
    }
    let len = line.write_into(&mut room);
    let mut log = Counted::new(Vec::new(alloc));
    let delivered = deliver(&mut log, &room[..len], "log fault");
    // end
    Ok(
        delivered.is_ok()
            && log.failures() == 0
            && log.get_ref().as_slice() == b"bad 6 1\n".as_slice(),
    )
}

pub(crate) fn reads_words(alloc: Global) -> anyhow::Result<bool> {
    // recode_words
    let words = ["recode", "--from", "gbk", "--to", "utf-8"];
    let is_run = match parse_words(alloc, &words) {
        Ok(Request::Run(run)) => run.from == "gbk" && run.indexes == ".",
        Ok(_) => false,
        Err(fault) => return Err(fault.into()),
    };
    // end
    Ok(is_run)
}
