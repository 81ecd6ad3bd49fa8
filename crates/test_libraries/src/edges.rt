//! The edges of the two conditions of a conversion: a job is valid, and buffers are enough. Where
//! an input can be cut into parts.

use encoding_front::{
    GB18030, ISO_2022_JP, REPLACEMENT, SHIFT_JIS, UTF_8, UTF_16BE, UTF_16LE, X_USER_DEFINED,
};
use encoding_tables::Tables;
use recode::{Buffers, GREATEST_LIMIT, Job, Mark, Pivot, Policy};

#[test]
fn a_job_is_valid_up_to_its_edges(rt: HostRuntime) {
    let tables = Tables::new(rt.alloc());
    let greatest = 281_474_976_710_656;
    assert_eq!(rt; GREATEST_LIMIT, greatest);
    let rows = [
        (Mark::Keep, 0, true),
        (Mark::Keep, greatest, true),
        (Mark::Keep, greatest + 1, false),
        (Mark::Sniff, greatest, true),
        (Mark::Remove, greatest, true),
    ];
    for (mark, limit, want) in rows {
        let job = Job {
            from: UTF_8,
            to: UTF_8,
            mark,
            policy: Policy::Decimal,
            limit,
            tables: &tables,
        };
        assert_eq!(rt; job.is_valid(), want, "{mark:?} {limit}");
    }
}

#[test]
fn a_job_needs_the_indexes_of_both_encodings(rt: HostRuntime) {
    let tables = Tables::new(rt.alloc());
    let rows = [
        (UTF_8, SHIFT_JIS, false),
        (SHIFT_JIS, UTF_8, false),
        (UTF_8, GB18030, false),
        (UTF_8, X_USER_DEFINED, true),
        // These two encodings are written as UTF-8.
        (UTF_16LE, UTF_16LE, true),
        (REPLACEMENT, REPLACEMENT, true),
    ];
    for (from, to, want) in rows {
        let job = Job {
            from,
            to,
            mark: Mark::Sniff,
            policy: Policy::Decimal,
            limit: 0,
            tables: &tables,
        };
        assert_eq!(rt; job.is_valid(), want, "{from:?} {to:?}");
    }
}

#[test]
fn buffers_are_enough_up_to_their_edges(rt: HostRuntime) {
    let rows = [
        (1, 4, 4, 4, true),
        (8, 8, 8, 8, true),
        (0, 4, 4, 4, false),
        (1, 3, 4, 4, false),
        (1, 4, 3, 4, false),
        (1, 4, 4, 3, false),
    ];
    for (input_len, pivot_len, output_len, check_len, want) in rows {
        let mut input = [0u8; 8];
        let mut text = [0u8; 8];
        let mut output = [0u8; 8];
        let mut again = [0u8; 8];
        let pivot = Pivot::Utf8(&mut text[..pivot_len]);
        let check = Pivot::Utf8(&mut again[..check_len]);
        let buffers = Buffers {
            input: &mut input[..input_len],
            pivot,
            output: &mut output[..output_len],
            check,
        };
        let sizes = (input_len, pivot_len, output_len, check_len);
        assert_eq!(rt; buffers.is_enough(), want, "{sizes:?}");
    }
}

#[test]
fn wide_pivots_are_enough_up_to_their_edges(rt: HostRuntime) {
    let rows = [(2, 2, true), (8, 8, true), (1, 2, false), (2, 1, false)];
    for (pivot_len, check_len, want) in rows {
        let mut input = [0u8; 1];
        let mut text = [0u16; 8];
        let mut output = [0u8; 4];
        let mut again = [0u16; 8];
        let pivot = Pivot::Utf16(&mut text[..pivot_len]);
        let check = Pivot::Utf16(&mut again[..check_len]);
        let buffers = Buffers {
            input: &mut input,
            pivot,
            output: &mut output,
            check,
        };
        let sizes = (pivot_len, check_len);
        assert_eq!(rt; buffers.is_enough(), want, "{sizes:?}");
    }
}

#[test]
fn pivots_of_two_kinds_are_not_enough(rt: HostRuntime) {
    for wide_pivot in [true, false] {
        let mut input = [0u8; 8];
        let mut output = [0u8; 8];
        let mut bytes = [0u8; 8];
        let mut units = [0u16; 8];
        let narrow = Pivot::Utf8(&mut bytes);
        let wide = Pivot::Utf16(&mut units);
        let (pivot, check) = if wide_pivot {
            (wide, narrow)
        } else {
            (narrow, wide)
        };
        let buffers = Buffers {
            input: &mut input,
            pivot,
            output: &mut output,
            check,
        };
        assert!(rt; !buffers.is_enough(), "{wide_pivot}");
    }
}

// A part ends in a byte below 30, and both encodings are compatible with ASCII. Later parts are in
// the encoding of the mark, if the job takes it.
#[test]
fn a_part_ends_in_a_low_byte(rt: HostRuntime) {
    let tables = Tables::new(rt.alloc());
    let rows = [
        (UTF_8, UTF_8, Mark::Keep, b"a/".as_slice(), UTF_8, true),
        (UTF_8, UTF_8, Mark::Keep, b"a0", UTF_8, false),
        (UTF_8, UTF_8, Mark::Keep, b"", UTF_8, false),
        (UTF_8, UTF_16LE, Mark::Keep, b"\n", UTF_8, true),
        (UTF_8, ISO_2022_JP, Mark::Keep, b"\n", UTF_8, false),
        (UTF_16BE, UTF_8, Mark::Keep, b"\0\n", UTF_16BE, false),
        (UTF_8, UTF_8, Mark::Keep, b"\xFE\xFF\n", UTF_8, true),
        (UTF_8, UTF_8, Mark::Remove, b"\xFE\xFF\n", UTF_8, true),
        (UTF_8, UTF_8, Mark::Sniff, b"\xFE\xFF\0\n", UTF_16BE, false),
        (
            SHIFT_JIS,
            UTF_8,
            Mark::Sniff,
            b"\xEF\xBB\xBF\n",
            UTF_8,
            true,
        ),
    ];
    for (from, to, mark, first, source, want) in rows {
        let job = Job {
            from,
            to,
            mark,
            policy: Policy::Decimal,
            limit: 9,
            tables: &tables,
        };
        assert_eq!(rt; job.source(first), source, "{from:?} {mark:?} {first:?}");
        assert_eq!(rt; job.can_be_cut(first), want, "{from:?} {to:?} {first:?}");
        let later = job.later(first);
        assert_eq!(rt;
            (later.from, later.to, later.mark),
            (source, to, Mark::Keep)
        );
    }
}
