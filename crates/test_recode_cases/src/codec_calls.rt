//! How many calls of codecs a conversion takes.

use anyhow::{Context, bail, ensure};
use encoding_tables::Tables;
use std::alloc::Global;
use test_case_lines::report::Report;
use test_recode_trials::case::Head;
use test_recode_trials::parts::{bytes_of, integer};
use test_recode_trials::trial::{
    AT_ONCE, LEAST, LEAST_WIDE, Plan, ROOMY, ROOMY_WIDE, Sizes, WAYS, recode,
};

// What is converted, and how many calls of codecs that must take.
#[derive(Drop)]
pub(crate) struct CodecCalls {
    pub(crate) head: Head,
    input: Vec<u8>,
    // How often the decoder, the encoder and the decoder that reads back must be called, in all.
    calls: u64,
    // The sizes of the buffers, with either kind of pivot.
    sizes: [Sizes; 2],
}

// Large buffers with small pivots, each of which a character above U+FFFF fills.
const SMALL_PIVOTS: [Sizes; 2] = [
    Sizes { pivot: 4, ..ROOMY },
    Sizes {
        pivot: 2,
        ..ROOMY_WIDE
    },
];

impl CodecCalls {
    // Reads words such as `utf-8 -> shift_jis: "abc" => 2 2 2`. `word` names the buffers.
    pub(crate) fn of(alloc: Global, word: &str, words: &str) -> anyhow::Result<Self> {
        let sizes = match word {
            "byte-calls" => [LEAST, LEAST_WIDE],
            "pivot-calls" => SMALL_PIVOTS,
            _ => [ROOMY, ROOMY_WIDE],
        };
        let (head, words) = words.split_once(": ").context("calls have no `: `")?;
        let (input, numbers) = words.split_once("=>").context("calls have no `=>`")?;
        let mut calls = 0_u64;
        let mut kinds = 0_u32;
        for number in numbers.split_whitespace() {
            calls = calls.saturating_add(integer(number)?);
            kinds = kinds.saturating_add(1);
        }
        ensure!(kinds == 3, "calls have not three numbers");
        Ok(CodecCalls {
            head: Head::of(head)?,
            input: bytes_of(alloc, input)?,
            calls,
            sizes,
        })
    }
}

pub(crate) fn check_codec_calls(
    rt: &impl AllocGlobal,
    tables: &Tables,
    case: &CodecCalls,
    report: &mut Report,
) -> anyhow::Result<()> {
    let setting = case.head.setting(case.input.as_slice());
    for sizes in case.sizes {
        let plan = Plan { sizes, ..AT_ONCE };
        for way in WAYS {
            report.count_conversion();
            let outcome = recode(rt.alloc(), tables, setting, way, &plan)?;
            let Ok(told) = outcome.answer else {
                bail!("it ends by a fault");
            };
            let (calls, want) = (told.calls, case.calls);
            ensure!(
                calls == want,
                "{calls} calls of codecs and not {want}, {way:?}"
            );
        }
    }
    Ok(())
}
