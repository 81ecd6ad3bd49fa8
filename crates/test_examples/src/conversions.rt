//! The examples of the engine (`recode`), and of the program as one call (`recode_system`).

use recode::{Buffers, Counted, Encoding, GREATEST_LIMIT, Job, Mark, Pivot, Policy, Tables, run};
use recode_system::{SystemFiles, answer};
use std::alloc::Global;

pub(crate) fn converts_a_stream(alloc: Global) -> anyhow::Result<bool> {
    // recode
    let tables = Tables::new(alloc);
    let job = Job {
        from: Encoding::Utf16Le,
        to: Encoding::Utf8,
        mark: Mark::Sniff,
        policy: Policy::Decimal,
        limit: GREATEST_LIMIT,
        tables: &tables,
    };
    let mut input = [0; 64];
    let mut text = [0; 64];
    let mut output = [0; 64];
    let mut text_again = [0; 64];
    let pivot = Pivot::Utf8(&mut text);
    let check = Pivot::Utf8(&mut text_again);
    let mut buffers = Buffers {
        input: &mut input,
        pivot,
        output: &mut output,
        check,
    };
    if !job.is_valid() || !buffers.is_enough() {
        return Ok(false);
    }
    let mut reader = Counted::new(b"c\x00\xE9\x00\x00\xD8".as_slice());
    let mut writer = Counted::new(Vec::new(alloc));
    let mut log = Counted::new(Vec::new(alloc));
    let report = run(&mut reader, &mut writer, &mut log, job, &mut buffers)?;
    // end
    let is_written = writer.get_ref().as_slice() == b"c\xC3\xA9\xEF\xBF\xBD".as_slice();
    Ok(is_written && log.get_ref().as_slice() == b"bad 4 2\n".as_slice() && !report.faithful)
}

pub(crate) fn answers_words(rt: HostRuntime) -> anyhow::Result<u8> {
    // recode_system
    let mut indexes = SystemFiles::new(&rt);
    let mut reader = Counted::new(rt.stdin());
    let mut writer = Counted::new(rt.stdout());
    let mut log = Counted::new(rt.stderr());
    let status = answer(&rt, &mut indexes, &mut reader, &mut writer, &mut log);
    // end
    Ok(status)
}
