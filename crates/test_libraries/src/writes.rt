//! How many calls of the output and of the log a conversion makes.

use encoding_front::{Encoding, UTF_8, X_USER_DEFINED};
use encoding_tables::Tables;
use recode::{Buffers, Fault, GREATEST_LIMIT, Job, Mark, Pivot, Policy, run};
use recode_log::counted::Counted;
use std::io;
use std::io::Write;

// A writer that takes all bytes that it is given, and counts its calls.
#[derive(Drop)]
struct Tally {
    calls: usize,
}

impl Write for Tally {
    fn write(&mut self, buf: &[u8]) -> io::Result<usize> {
        self.calls = self.calls.saturating_add(1);
        Ok(buf.len())
    }

    fn flush(&mut self) -> io::Result<()> {
        Ok(())
    }
}

// Returns how many calls of the output and of the log are made for an input that is read at once.
// The output buffer has `output_len` bytes.
fn calls_of_writers(
    tables: &Tables,
    to: Encoding,
    input: &[u8],
    output_len: usize,
) -> Result<Option<(usize, usize)>, Fault> {
    let job = Job {
        from: UTF_8,
        to,
        mark: Mark::Keep,
        policy: Policy::Decimal,
        limit: GREATEST_LIMIT,
        tables,
    };
    let mut room = [0; 64];
    let mut text = [0; 64];
    let mut output = [0; 64];
    let mut text_again = [0; 64];
    let pivot = Pivot::Utf8(&mut text);
    let check = Pivot::Utf8(&mut text_again);
    let mut buffers = Buffers {
        input: &mut room,
        pivot,
        output: &mut output[..output_len.min(64)],
        check,
    };
    if !job.is_valid() || !buffers.is_enough() {
        return Ok(None);
    }
    let mut reader = Counted::new(input);
    let mut writer = Counted::new(Tally { calls: 0 });
    let mut log = Counted::new(Tally { calls: 0 });
    run(&mut reader, &mut writer, &mut log, job, &mut buffers)?;
    Ok(Some((writer.get_ref().calls, log.get_ref().calls)))
}

#[test]
fn a_loss_takes_two_calls_of_the_writers(rt: HostRuntime) {
    let tables = Tables::new(rt.alloc());
    // All bytes between two lines of the log are written by one call. U+FFFD and references are
    // among the bytes after their line.
    let rows: [(Encoding, &[u8], usize, usize); 10] = [
        (UTF_8, b"ab", 1, 0),
        (UTF_8, b"a\xFFb", 2, 1),
        (UTF_8, b"a\xFFb\xFFc\xFF", 4, 3),
        (UTF_8, b"\xFF\xFF", 2, 2),
        (X_USER_DEFINED, b"a\xC3\xA9b", 2, 1),
        (X_USER_DEFINED, b"a\xC3\xA9b\xC3\xA9c\xC3\xA9", 4, 3),
        (X_USER_DEFINED, b"\xC3\xA9\xC3\xA9", 2, 2),
        // U+FFFD is lost as well. Its two lines have nothing between them, so one call writes both.
        (X_USER_DEFINED, b"a\xFFb", 2, 1),
        (X_USER_DEFINED, b"a\xFFb\xFFc\xFF", 4, 3),
        (X_USER_DEFINED, b"\xFF\xFF", 2, 2),
    ];
    for (to, input, writes, lines) in rows {
        let calls = calls_of_writers(&tables, to, input, 64);
        assert_eq!(rt; calls, Ok(Some((writes, lines))), "{to:?} {input:?}");
    }
}

#[test]
fn what_the_buffer_has_no_room_for_goes_out_before(rt: HostRuntime) {
    let tables = Tables::new(rt.alloc());
    let rows: [(Encoding, &[u8], usize, usize, usize); 5] = [
        // Room for four bytes is left before each call of an encoder.
        (UTF_8, b"abcdefgh", 8, 1, 0),
        (UTF_8, b"abcdefghi", 8, 2, 0),
        (UTF_8, b"a\xFFb", 4, 3, 1),
        // The reference `&#233;` has six bytes.
        (X_USER_DEFINED, b"a\xC3\xA9b", 4, 3, 1),
        (X_USER_DEFINED, b"a\xC3\xA9b", 10, 2, 1),
    ];
    for (to, input, output_len, writes, lines) in rows {
        let calls = calls_of_writers(&tables, to, input, output_len);
        assert_eq!(rt; calls, Ok(Some((writes, lines))), "{to:?} {input:?}");
    }
}
