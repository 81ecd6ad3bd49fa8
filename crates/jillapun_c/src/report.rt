//! What a conversion reports.

ghost use Rattle.jillapun_c.specs.Conversions.{IsToldReport, IsToldStop};

use crate::status::{LOSSY, OK, STOPPED};

/// What a conversion reports besides its status.
#[repr(C)]
#[derive(Clone, Copy)]
pub struct Report {
    /// Bytes of the input. `read`, `bad`, `lost` and `characters` are 0 except at `OK` and `LOSSY`.
    pub read: u64,
    /// Malformed sequences in the input.
    pub bad: u64,
    /// Unmappable characters in the text.
    pub lost: u64,
    /// Characters of the text, with a U+FFFD for each malformed sequence and without a removed BOM.
    /// `jillapun_join_loss` adds them to places in later parts.
    pub characters: u64,
    /// For `jillapun_convert`, bytes written to `dst` or, at `ROOM`, needed (`SIZE_MAX` if they
    /// exceed a `size_t`); 0 for a converter, whose calls report theirs.
    pub written: u64,
    /// Likewise, records of losses.
    pub losses: u64,
    /// At `STOPPED`, the characters of the text before the unmappable one; else 0.
    pub index: u64,
    /// At `STOPPED`, the code point of the unmappable character, or U+FFFD as in `jillapun_loss`;
    /// else 0.
    pub scalar: u32,
}

impl Report {
    /// What is reported if nothing was done.
    pub(crate) const NONE: Report = Report {
        read: 0,
        bad: 0,
        lost: 0,
        characters: 0,
        written: 0,
        losses: 0,
        index: 0,
        scalar: 0,
    };
}

/// The status of a conversion that the policy stopped at this character, and what is reported of
/// it.
pub(crate) fn told_stop(index: u64, scalar: u32) -> (u8, Report)
    ensures { IsToldStop index scalar result.1 result.0 }
{
    let report = Report {
        index,
        scalar,
        ..Report::NONE
    };
    (STOPPED, report)
}

/// The status of a conversion that came to its end, and what is reported of it and of the
/// characters that it counted.
pub(crate) fn told_report(run: recode::Report, characters: u64) -> (u8, Report)
    ensures { IsToldReport run characters result.1 result.0 }
{
    let report = Report {
        read: run.read,
        bad: run.bad,
        lost: run.lost,
        characters,
        ..Report::NONE
    };
    (if run.faithful { OK } else { LOSSY }, report)
}
