//! Conversions by steps, with results worked by hand.

use crate::converter::handle::ConverterHandle;
use crate::converter::jillapun_converter_new;
use crate::converter::progress::ConverterProgress;
use crate::converter::step::jillapun_converter_step;
use crate::losses::Loss;
use crate::report::Report;
use crate::status::{
    BAD, CLOSED, DECIMAL, FINISHED, GOES_ON, KEEP, LOSSY, LOST, NOT_READY, OK, STOP, STOPPED,
    TOO_LONG, UNKNOWN,
};
use crate::tables_handle::TablesHandle;
use crate::tests::euro;
use std::alloc::{AllocError, Global};

const BIG5: u8 = 0;

const UTF_8: u8 = 25;

const WINDOWS_1252: u8 = 31;

// What the calls of a conversion gave, joined, and how the last one ended.
#[derive(Drop)]
struct Given {
    status: u8,
    output: Vec<u8>,
    losses: Vec<Loss>,
    report: Report,
}

// A converter into windows-1252, of an input of at most 12 bytes.
fn opened(alloc: Global, from: u8, policy: u8) -> ConverterHandle {
    let mut converter = ConverterHandle::none();
    let tables = euro(alloc);
    jillapun_converter_new(
        alloc,
        tables,
        from,
        WINDOWS_1252,
        KEEP,
        policy,
        12,
        &mut converter,
    );
    converter
}

// Converts in chunks of so many bytes, with room for so many bytes and records in each call.
fn by_steps(
    alloc: Global,
    policy: u8,
    src: &[u8],
    chunk: usize,
    room: usize,
    records: usize,
) -> Result<Given, AllocError> {
    let mut converter = opened(alloc, UTF_8, policy);
    let mut given = Given {
        status: GOES_ON,
        output: Vec::new(alloc),
        losses: Vec::new(alloc),
        report: Report::NONE,
    };
    let mut dst = [0; 32];
    let mut losses = [Loss {
        place: 0,
        number: 0,
        kind: 0,
    }; 8];
    let mut progress = ConverterProgress::NONE;
    let (room, records) = (room.min(32), records.min(8));
    let mut rest = src;
    for _ in 0..200 {
        let part = &rest[..chunk.min(rest.len())];
        given.status = jillapun_converter_step(
            alloc,
            &mut converter,
            part,
            part.len() == rest.len(),
            &mut dst[..room],
            &mut losses[..records],
            &mut progress,
            &mut given.report,
        );
        rest = rest.get(progress.read..).unwrap_or(&[]);
        let (written, told) = (progress.written.min(32), progress.losses.min(8));
        given.output.extend_from_slice(&dst[..written])?;
        given.losses.extend_from_slice(&losses[..told])?;
        if given.status != GOES_ON {
            break;
        }
    }
    Ok(given)
}

#[test]
fn cuts_change_nothing(rt: HostRuntime) -> Result<(), AllocError> {
    for chunk in 1..8 {
        for room in 1..8 {
            let given = by_steps(
                rt.alloc(),
                DECIMAL,
                b"a\xE2\x82\xAC\xFF\xC4\x80",
                chunk,
                room,
                1,
            )?;
            assert_eq!(rt; given.status, LOSSY);
            assert_eq!(rt; &*given.output, b"a\x80&#65533;&#256;".as_slice());
            assert_eq!(rt;
                (given.report.read, given.report.bad, given.report.lost),
                (7, 1, 2)
            );
            assert_eq!(rt; given.report.characters, 4);
            assert_eq!(rt; given.losses.len(), 3);
            let [first, second, third] = [given.losses[0], given.losses[1], given.losses[2]];
            assert_eq!(rt; (first.kind, first.place, first.number), (BAD, 4, 1));
            assert_eq!(rt;
                (second.kind, second.place, second.number),
                (LOST, 2, 65533)
            );
            assert_eq!(rt; (third.kind, third.place, third.number), (LOST, 3, 256));
        }
    }
    Ok(())
}

#[test]
fn ends_are_told(rt: HostRuntime) -> Result<(), AllocError> {
    let alloc = rt.alloc();
    let given = by_steps(alloc, DECIMAL, b"", 1, 0, 0)?;
    assert_eq!(rt;
        (given.status, given.output.len(), given.report.read),
        (OK, 0, 0)
    );
    let given = by_steps(alloc, STOP, b"ab\xC4\x80c", 2, 1, 1)?;
    assert_eq!(rt; given.status, STOPPED);
    assert_eq!(rt; &*given.output, b"ab".as_slice());
    assert_eq!(rt; given.losses.len(), 1);
    assert_eq!(rt; given.losses[0].number, 256);
    assert_eq!(rt;
        (given.report.index, given.report.scalar, given.report.read),
        (2, 256, 0)
    );
    let given = by_steps(alloc, DECIMAL, b"thirteen byte", 5, 9, 1)?;
    assert_eq!(rt; given.status, TOO_LONG);
    assert_eq!(rt; &*given.output, b"thirteen byt".as_slice());
    let given = by_steps(alloc, DECIMAL, b"twelve bytes", 5, 9, 1)?;
    assert_eq!(rt; (given.status, given.report.read), (OK, 12));
    Ok(())
}

#[test]
fn end_is_told_once(rt: HostRuntime) {
    let alloc = rt.alloc();
    let mut converter = opened(alloc, UTF_8, DECIMAL);
    let mut progress = ConverterProgress::NONE;
    let mut report = Report::NONE;
    let mut dst = *b"....";
    let status = jillapun_converter_step(
        alloc,
        &mut converter,
        b"",
        false,
        &mut dst,
        &mut [],
        &mut progress,
        &mut report,
    );
    assert_eq!(rt; status, GOES_ON);
    let status = jillapun_converter_step(
        alloc,
        &mut converter,
        b"abc",
        true,
        &mut dst[..2],
        &mut [],
        &mut progress,
        &mut report,
    );
    assert_eq!(rt; (status, progress.read, progress.written), (GOES_ON, 3, 2));
    assert_eq!(rt; progress.wants_room, true);
    let status = jillapun_converter_step(
        alloc,
        &mut converter,
        b"d",
        false,
        &mut dst,
        &mut [],
        &mut progress,
        &mut report,
    );
    assert_eq!(rt; (status, progress.read, progress.written), (OK, 0, 1));
    assert_eq!(rt; (dst, progress.wants_room), (*b"cb..", false));
    assert_eq!(rt; report.read, 3);
    let status = jillapun_converter_step(
        alloc,
        &mut converter,
        b"",
        true,
        &mut dst,
        &mut [],
        &mut progress,
        &mut report,
    );
    assert_eq!(rt; (status, progress.read, progress.written), (FINISHED, 0, 0));
    assert_eq!(rt; report.read, 0);
    let status = jillapun_converter_step(
        alloc,
        &mut ConverterHandle::none(),
        b"abc",
        true,
        &mut dst,
        &mut [],
        &mut progress,
        &mut report,
    );
    assert_eq!(rt; (status, progress.read, dst), (CLOSED, 0, *b"cb.."));
}

// Hands in the last byte of a euro sign, and of an input. Returns the status, how many bytes were
// written, and the first.
fn ended(alloc: Global, converter: &mut ConverterHandle) -> (u8, usize, u8) {
    let mut dst = *b"....";
    let mut progress = ConverterProgress::NONE;
    let status = jillapun_converter_step(
        alloc,
        converter,
        b"\xAC",
        true,
        &mut dst,
        &mut [],
        &mut progress,
        &mut Report::NONE,
    );
    (status, progress.written, dst[0])
}

#[test]
fn copies_go_on_alone(rt: HostRuntime) {
    let alloc = rt.alloc();
    let mut converter = opened(alloc, UTF_8, DECIMAL);
    let mut progress = ConverterProgress::NONE;
    let mut report = Report::NONE;
    jillapun_converter_step(
        alloc,
        &mut converter,
        b"a\xE2\x82",
        false,
        &mut [0; 4],
        &mut [],
        &mut progress,
        &mut report,
    );
    assert_eq!(rt; (progress.read, progress.written), (3, 1));
    let text = converter.text;
    let mut copy = ConverterHandle {
        tables: converter.tables.copied(),
        words: converter.words,
        text_len: converter.text_len,
        text,
    };
    assert_eq!(rt; ended(alloc, &mut converter), (OK, 1, 0x80));
    assert_eq!(rt; ended(alloc, &mut copy), (OK, 1, 0x80));
    assert_eq!(rt; ended(alloc, &mut converter), (FINISHED, 0, 0x2E));
}

#[test]
fn others_are_not_opened(rt: HostRuntime) {
    let alloc = rt.alloc();
    let cases = [
        (euro(alloc), UTF_8, 3, UNKNOWN),
        (euro(alloc), 40, DECIMAL, UNKNOWN),
        (euro(alloc), BIG5, DECIMAL, NOT_READY),
        (TablesHandle::none(), UTF_8, DECIMAL, NOT_READY),
    ];
    for (tables, from, policy, wanted) in cases {
        let mut held = opened(alloc, UTF_8, DECIMAL);
        let status = jillapun_converter_new(
            alloc,
            tables,
            from,
            WINDOWS_1252,
            KEEP,
            policy,
            12,
            &mut held,
        );
        assert_eq!(rt; status, wanted);
        assert_eq!(rt; ended(alloc, &mut held), (CLOSED, 0, 0x2E));
    }
}

#[test]
fn what_is_opened_takes_the_place(rt: HostRuntime) {
    let alloc = rt.alloc();
    let mut held = opened(alloc, UTF_8, DECIMAL);
    let tables = euro(alloc);
    let status = jillapun_converter_new(alloc, tables, UTF_8, UTF_8, KEEP, DECIMAL, 12, &mut held);
    assert_eq!(rt; status, OK);
    let mut dst = *b"....";
    let status = jillapun_converter_step(
        alloc,
        &mut held,
        b"b",
        true,
        &mut dst,
        &mut [],
        &mut ConverterProgress::NONE,
        &mut Report::NONE,
    );
    assert_eq!(rt; (status, dst), (OK, *b"b..."));
}

#[test]
fn no_tables_are_enough(rt: HostRuntime) {
    let alloc = rt.alloc();
    let mut held = ConverterHandle::none();
    let status = jillapun_converter_new(
        alloc,
        TablesHandle::none(),
        UTF_8,
        UTF_8,
        KEEP,
        DECIMAL,
        12,
        &mut held,
    );
    assert_eq!(rt; status, OK);
    let mut dst = *b"....";
    let mut report = Report::NONE;
    let status = jillapun_converter_step(
        alloc,
        &mut held,
        b"\xC3\xA8",
        true,
        &mut dst,
        &mut [],
        &mut ConverterProgress::NONE,
        &mut report,
    );
    assert_eq!(rt; (status, dst), (OK, *b"\xC3\xA8.."));
    assert_eq!(rt; (report.read, report.characters), (2, 1));
}
