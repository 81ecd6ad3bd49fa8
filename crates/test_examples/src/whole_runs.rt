//! A program that recodes bytes from a slice to vectors, with the log and the verdict of `recode`.

use anyhow::ensure;
use encoding_index::load;
use encoding_tables::IndexKind;
use recode::{Buffers, Counted, Encoding, GREATEST_LIMIT, Job, Mark, Pivot, Policy, Tables, run};
use std::io::Write;

/// Recodes bytes from Shift_JIS to UTF-8. Prints the lines of the log, the verdict and the output.
/// `is_valid` and `is_enough` are the tests of the conditions of `run`.
pub(crate) fn recode_bytes(rt: HostRuntime, index: &[u8], bytes: &[u8]) -> anyhow::Result<()> {
    let alloc = rt.alloc();
    let mut tables = Tables::new(alloc);
    load(alloc, &mut tables, IndexKind::Jis0208, index)?;
    let job = Job {
        from: Encoding::ShiftJis,
        to: Encoding::Utf8,
        mark: Mark::Sniff,
        policy: Policy::Decimal,
        limit: GREATEST_LIMIT,
        tables: &tables,
    };
    let mut input = [0; 64];
    let mut text = [0; 64];
    let mut output = [0; 64];
    let mut text_again = [0; 64];
    // The borrow checker takes a pivot only if it stands in a variable of its own.
    let pivot = Pivot::Utf8(&mut text);
    let check = Pivot::Utf8(&mut text_again);
    let mut buffers = Buffers {
        input: &mut input,
        pivot,
        output: &mut output,
        check,
    };
    ensure!(job.is_valid(), "an index is missing");
    ensure!(buffers.is_enough(), "a buffer is too small");
    let mut reader = Counted::new(bytes);
    let mut writer = Counted::new(Vec::new(alloc));
    let mut log = Counted::new(Vec::new(alloc));
    let report = run(&mut reader, &mut writer, &mut log, job, &mut buffers)?;
    rt.stdout().write_all(log.get_ref())?;
    println!(rt; "faithful: {}", report.faithful)?;
    rt.stdout().write_all(writer.get_ref())?;
    println!(rt; "")?;
    Ok(())
}
