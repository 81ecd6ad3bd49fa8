//! Conversions in memory.

ghost use Rattle.encoding_front.specs.Encodings.{no_lists};
ghost use Rattle.jillapun_c.specs.AskedConversions.{ConvertsAsked};
ghost use Rattle.jillapun_c.specs.HeldTables.{held_lists};

use crate::in_memory::convert_job;
use crate::losses::Loss;
use crate::report::Report;
use crate::request::Request;
use crate::status::Status;
use crate::tables_handle::TablesHandle;
use encoding_tables::Tables;
use std::alloc::Global;

/// Converts a whole input from the encoding `from` to the output encoding of `to`, and writes a
/// record of each loss to `losses`, in the order of the text. The rest of `dst` and of `losses` is
/// unchanged.
///
/// `mark` (`SNIFF`, `REMOVE` or `KEEP`) says what happens to a BOM at the start, `policy`
/// (`DECIMAL`, `HEXADECIMAL` or `STOP`) what is written for an unmappable character, and `limit`
/// how many bytes the input may have; a limit above 2^48 counts as 2^48. `tables` needs the indexes
/// of both encodings.
///
/// - `OK`: no sequence was malformed, and the output decodes to the text of the input.
/// - `LOSSY`: everything was converted, and something was lost. `losses` can be empty even so: some
///   encodings have one-way mappings, characters encoded as bytes that decode to other characters.
/// - `ROOM`: `dst` or `losses` is too small, and each holds the beginning of its output. Call again
///   with space for `written` bytes and `losses` records.
/// - `STOPPED`: the policy is `STOP`, and the report gives the unmappable character. Everything
///   before it was converted, with the escape sequence that would precede a reference, and the
///   record of the character is the last.
///
/// Errors: `UNKNOWN`, `NOT_READY`; `TOO_LONG` if `src` is longer than the limit.
#[unsafe(no_mangle)]
pub extern "C" fn jillapun_convert(
    alloc: Global,
    tables: TablesHandle,
    from: u8,
    to: u8,
    mark: u8,
    policy: u8,
    limit: u64,
    src: &[u8],
    dst: &mut [u8],
    losses: &mut [Loss],
    report: &mut Report,
) -> Status
    ensures { ConvertsAsked (held_lists tables.tables)
        (record { from = from; to = to; mark = mark; policy = policy; limit = limit })
        src.now dst.old dst.new losses.old losses.new report.new result }
{
    let request = Request {
        from,
        to,
        mark,
        policy,
        limit,
    };
    match tables.lent() {
        Some(tables) => convert_over(tables, request, src, dst, losses, report),
        None => convert_without(alloc, request, src, dst, losses, report),
    }
}

// Converts an input as it is asked for, over these tables.
fn convert_over(
    tables: &Tables,
    request: Request,
    src: &[u8],
    dst: &mut [u8],
    losses: &mut [Loss],
    report: &mut Report,
) -> u8
    ensures { ConvertsAsked tables.now request src.now dst.old dst.new losses.old losses.new
        report.new result }
{
    *report = Report::NONE;
    match request.job(tables) {
        Err(status) => status,
        Ok(job) => convert_job(job, src, dst, losses, report),
    }
}

// The same over tables with no index, which take no memory. They stand in a function of their own,
// since each call clears the room of all its variables.
fn convert_without(
    alloc: Global,
    request: Request,
    src: &[u8],
    dst: &mut [u8],
    losses: &mut [Loss],
    report: &mut Report,
) -> u8
    ensures { ConvertsAsked no_lists request src.now dst.old dst.new losses.old losses.new
        report.new result }
{
    let tables = Tables::new(alloc);
    convert_over(&tables, request, src, dst, losses, report)
}

#[cfg(test)]
mod tests {
    use super::*;
    use crate::status::{
        BAD, DECIMAL, KEEP, LOSSY, LOST, NOT_READY, OK, ROOM, STOP, STOPPED, TOO_LONG, UNKNOWN,
    };
    use encoding_index::load;
    use encoding_tables::{IndexKind, Tables};
    use std::alloc::AllocError;

    const BIG5: u8 = 0;

    const SHIFT_JIS: u8 = 24;

    const UTF_8: u8 = 25;

    // What a call leaves.
    #[derive(Drop)]
    struct Left {
        status: u8,
        dst: [u8; 12],
        losses: [Loss; 2],
        report: Report,
    }

    // Tables with one character of JIS X 0208: U+30CF.
    fn tables(alloc: Global) -> Result<&'static Tables, AllocError> {
        let mut tables = Tables::new(alloc);
        let _ = load(alloc, &mut tables, IndexKind::Jis0208, b"422\t0x30CF\n");
        Ok(Box::leak(Box::new(alloc, tables)?))
    }

    fn converted(
        alloc: Global,
        from: u8,
        to: u8,
        policy: u8,
        src: &[u8],
    ) -> Result<Left, AllocError> {
        let none = Loss {
            place: 9,
            number: 9,
            kind: 9,
        };
        let mut left = Left {
            status: 0,
            dst: *b"............",
            losses: [none, none],
            report: Report::NONE,
        };
        left.status = jillapun_convert(
            alloc,
            TablesHandle::of(tables(alloc)?),
            from,
            to,
            KEEP,
            policy,
            12,
            src,
            &mut left.dst,
            &mut left.losses,
            &mut left.report,
        );
        Ok(left)
    }

    #[test]
    fn nothing_is_lost(rt: HostRuntime) -> Result<(), AllocError> {
        let left = converted(rt.alloc(), SHIFT_JIS, UTF_8, DECIMAL, b"A\x83\x6E")?;
        assert_eq!(rt; left.status, OK);
        assert_eq!(rt; left.dst, *b"A\xE3\x83\x8F........");
        assert_eq!(rt; left.report.written, 4);
        assert_eq!(rt; left.report.read, 3);
        assert_eq!(rt; left.report.characters, 2);
        assert_eq!(rt; left.report.losses, 0);
        assert_eq!(rt; left.losses[0].kind, 9);
        Ok(())
    }

    #[test]
    fn no_tables_are_enough(rt: HostRuntime) {
        for (from, status, wanted) in [
            (UTF_8, OK, *b"\xC3\xA8.."),
            (SHIFT_JIS, NOT_READY, *b"...."),
        ] {
            let mut dst = *b"....";
            let told = jillapun_convert(
                rt.alloc(),
                TablesHandle::none(),
                from,
                UTF_8,
                KEEP,
                DECIMAL,
                12,
                b"\xC3\xA8",
                &mut dst,
                &mut [],
                &mut Report::NONE,
            );
            assert_eq!(rt; (told, dst), (status, wanted));
        }
    }

    #[test]
    fn losses_are_told(rt: HostRuntime) -> Result<(), AllocError> {
        let left = converted(rt.alloc(), UTF_8, SHIFT_JIS, DECIMAL, b"a\xC3\xA8b")?;
        assert_eq!(rt; left.status, LOSSY);
        assert_eq!(rt; left.dst, *b"a&#232;b....");
        assert_eq!(rt; left.report.lost, 1);
        assert_eq!(rt; left.losses[0].kind, LOST);
        assert_eq!(rt; left.losses[0].place, 1);
        assert_eq!(rt; left.losses[0].number, 232);
        let left = converted(rt.alloc(), UTF_8, UTF_8, DECIMAL, b"ab\xFFc")?;
        assert_eq!(rt; left.status, LOSSY);
        assert_eq!(rt; left.losses[0].kind, BAD);
        assert_eq!(rt; left.losses[0].place, 2);
        assert_eq!(rt; left.losses[0].number, 1);
        Ok(())
    }

    #[test]
    fn a_fault_may_be_two_losses(rt: HostRuntime) -> Result<(), AllocError> {
        let left = converted(rt.alloc(), UTF_8, SHIFT_JIS, DECIMAL, b"a\xFFb")?;
        assert_eq!(rt; left.status, LOSSY);
        assert_eq!(rt; left.dst, *b"a&#65533;b..");
        assert_eq!(rt; left.report.losses, 2);
        assert_eq!(rt; left.losses[0].kind, BAD);
        assert_eq!(rt; left.losses[0].place, 1);
        assert_eq!(rt; left.losses[1].kind, LOST);
        assert_eq!(rt; left.losses[1].place, 1);
        assert_eq!(rt; left.losses[1].number, 65533);
        Ok(())
    }

    #[test]
    fn what_is_wanted_is_told(rt: HostRuntime) -> Result<(), AllocError> {
        let left = converted(
            rt.alloc(),
            UTF_8,
            SHIFT_JIS,
            DECIMAL,
            b"\xC3\xA8\xC3\xA8\xC3\xA8",
        )?;
        assert_eq!(rt; left.status, ROOM);
        assert_eq!(rt; left.report.written, 18);
        assert_eq!(rt; left.report.losses, 3);
        assert!(rt; left.dst.starts_with(b"&#232;"));
        assert_eq!(rt; left.losses[0].number, 232);
        Ok(())
    }

    #[test]
    fn policy_stops(rt: HostRuntime) -> Result<(), AllocError> {
        let left = converted(rt.alloc(), UTF_8, SHIFT_JIS, STOP, b"ab\xC3\xA8c")?;
        assert_eq!(rt; left.status, STOPPED);
        assert_eq!(rt; left.dst, *b"ab..........");
        assert_eq!(rt; left.report.index, 2);
        assert_eq!(rt; left.report.scalar, 232);
        Ok(())
    }

    #[test]
    fn others_are_refused(rt: HostRuntime) -> Result<(), AllocError> {
        let alloc = rt.alloc();
        assert_eq!(rt; converted(alloc, 40, UTF_8, DECIMAL, b"")?.status, UNKNOWN);
        assert_eq!(rt; converted(alloc, UTF_8, UTF_8, 3, b"")?.status, UNKNOWN);
        assert_eq!(rt;
            converted(alloc, BIG5, UTF_8, DECIMAL, b"")?.status,
            NOT_READY
        );
        assert_eq!(rt;
            converted(alloc, UTF_8, UTF_8, DECIMAL, b"thirteen byte")?.status,
            TOO_LONG
        );
        Ok(())
    }
}
