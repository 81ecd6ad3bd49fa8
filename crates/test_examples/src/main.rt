//! The examples that the reference page of each library shows, so that they are compiled and
//! proved. An example stands between `// CRATE` and `// end`. `make lint` compares it with the
//! page.
//!
//! There are also programs as users write them: `stream_faults`, `stream_losses`, `whole_runs` and
//! `whole_texts`. Each loads its indexes and uses them in one function. `decoded_texts`,
//! `lost_characters`, `first_faults`, `session_steps` and `part_runs`, which recodes an input in
//! two parts, have functions whose contracts users prove from the contracts and laws of the
//! libraries, `own_texts` a sink and a source of a user's own.
#![tactic(auto)]

mod conversions;
mod converters;
mod decoded_texts;
mod first_faults;
mod joined_logs;
mod lost_characters;
mod own_texts;
mod part_runs;
mod places;
mod reports;
mod session_steps;
mod stream_faults;
mod stream_losses;
mod streams;
mod texts;
mod whole_runs;
mod whole_texts;

use anyhow::{bail, ensure};
use encoding_front::{UTF_8, X_USER_DEFINED};
use encoding_index::load;
use encoding_mem::is_ascii;
use encoding_tables::{IndexKind, Tables};
use recode::{Buffers, Encoding, GREATEST_LIMIT, Job, Mark, Pivot, Policy};
use std::io::Write;

// Prints whether an example has the result that its page gives.
fn print(rt: HostRuntime, name: &str, is_as_told: bool) -> anyhow::Result<()> {
    println!(rt; "{name}: {is_as_told}")?;
    if is_as_told {
        Ok(())
    } else {
        bail!("{name} is not as its page tells")
    }
}

// The one row of each of `index-jis0208.txt` and `index-jis0212.txt` that the programs need.
const JIS0208: &[u8] = b"422\t0x30CF\n";

const JIS0212: &[u8] = b"565\t0x0402\n";

// The one row of `index-windows-1252.txt` that the programs need.
const WINDOWS1252: &[u8] = b"105\t0x00E9\n";

// A text that a sink counts, and one that a source has in capitals.
fn run_own_texts(rt: HostRuntime) -> anyhow::Result<()> {
    let whole = own_texts::count_characters("A\u{30CF}\u{1F4A9}".as_bytes());
    let broken = own_texts::count_characters(b"A\xFF");
    println!(rt; "{whole:?} {broken:?}")?;
    let text = b"Cafe 1".as_slice();
    let mut capitals = [0; 6];
    ensure!(is_ascii(text), "the text is not ASCII");
    ensure!(text.len() <= 6, "the text is too long");
    own_texts::put_capitals(text, &mut capitals);
    rt.stdout().write_all(&capitals)?;
    println!(rt; "")?;
    Ok(())
}

// A text that is converted byte by byte, with a malformed byte and a lost character.
fn run_converters(rt: HostRuntime) -> anyhow::Result<()> {
    let mut tables = Tables::new(rt.alloc());
    load(rt.alloc(), &mut tables, IndexKind::Windows1252, WINDOWS1252)?;
    let input = b"A\xFF\xC3\xA9\xE4\xB8\xAD".as_slice();
    let job = Job {
        from: Encoding::Utf8,
        to: Encoding::Windows1252,
        mark: Mark::Sniff,
        policy: Policy::Decimal,
        limit: GREATEST_LIMIT,
        tables: &tables,
    };
    ensure!(job.is_valid(), "an index is missing");
    ensure!(input.len() as u64 <= job.limit, "the input is too long");
    let mut output = Vec::new(rt.alloc());
    let mut log = Vec::new(rt.alloc());
    let report = converters::convert_singly(job, input, &mut output, &mut log)?;
    rt.stdout().write_all(&log)?;
    println!(rt; "faithful: {}", report.faithful)?;
    println!(rt; "{output:?}")?;
    Ok(())
}

// Inputs of two parts: with no malformed sequence; with one in the first part; with one that begins
// there and ends in the second; with no room for what stands before it.
fn run_first_faults(rt: HostRuntime) -> anyhow::Result<()> {
    let tables = Tables::new(rt.alloc());
    ensure!(UTF_8.is_ready(&tables), "an index is missing");
    let mut room = [0; 16];
    let whole = first_faults::find_first_fault(
        &tables,
        Encoding::Utf8,
        b"A\xC3",
        b"\xA9B",
        &mut room,
    );
    let first = first_faults::find_first_fault(
        &tables,
        Encoding::Utf8,
        b"A\xFFB",
        b"\xFF",
        &mut room,
    );
    let second = first_faults::find_first_fault(
        &tables,
        Encoding::Utf8,
        b"\xEF\xBB\xBFA\xE4\xB8",
        b"B",
        &mut room,
    );
    let none = first_faults::find_first_fault(
        &tables,
        Encoding::Utf8,
        b"A\xFF",
        b"",
        &mut room[..1],
    );
    println!(rt; "{whole:?} {first:?} {second:?} {none:?}")?;
    Ok(())
}

// A text that is converted step by step, in at most so many steps.
fn run_session_steps(rt: HostRuntime, steps: u64) -> anyhow::Result<()> {
    let tables = Tables::new(rt.alloc());
    let job = Job {
        from: Encoding::Utf8,
        to: Encoding::XUserDefined,
        mark: Mark::Sniff,
        policy: Policy::Decimal,
        limit: GREATEST_LIMIT,
        tables: &tables,
    };
    let mut input = [0; 4];
    let mut text = [0; 4];
    let mut output = [0; 4];
    let mut text_again = [0; 4];
    let pivot = Pivot::Utf8(&mut text);
    let check = Pivot::Utf8(&mut text_again);
    let mut buffers = Buffers {
        input: &mut input,
        pivot,
        output: &mut output,
        check,
    };
    ensure!(job.is_valid(), "an index is missing");
    ensure!(buffers.is_enough(), "a buffer is too small");
    let bytes = b"A\xE4\xB8\xAD\xFFB".as_slice();
    let gained = session_steps::convert_steps(rt.alloc(), job, bytes, steps, &mut buffers)?;
    rt.stdout().write_all(&gained.output)?;
    println!(rt; " {:?}", gained.faithful)?;
    rt.stdout().write_all(&gained.log)?;
    Ok(())
}

fn run_programs(rt: HostRuntime) -> anyhow::Result<()> {
    whole_texts::decode_text(rt, JIS0208, b"A\x83\x6E\xFF")?;
    whole_texts::encode_text(rt, JIS0208, "A\u{20AC}")?;
    whole_texts::decode_by_label(rt, b"euc-jp", JIS0208, JIS0212, b"\xA5\xCF\x8F\xA7\xA2")?;
    let mut input = b"A\x83\x6E\xFFB\x83".as_slice();
    let mut text = Vec::new(rt.alloc());
    stream_faults::decode_stream(rt, JIS0208, &mut input, &mut text)?;
    rt.stdout().write_all(&text)?;
    println!(rt; "")?;
    let pieces = ["A\u{A5}", "\u{20AC}", "b"];
    let mut bytes = Vec::new(rt.alloc());
    stream_losses::encode_stream(rt, JIS0208, &pieces, &mut bytes)?;
    rt.stdout().write_all(&bytes)?;
    println!(rt; "")?;
    whole_runs::recode_bytes(rt, JIS0208, b"A\x83\x6E\xFF")?;
    let text = decoded_texts::shift_jis_text(rt.alloc(), JIS0208, b"A\x83\x6E\xFF")?;
    println!(rt; "{text}")?;
    let tables = Tables::new(rt.alloc());
    ensure!(
        X_USER_DEFINED.output_encoding().is_ready(&tables),
        "an index is missing"
    );
    let mut room = [0; 16];
    match lost_characters::count_lost(
        &tables,
        X_USER_DEFINED,
        "A\u{20AC}\u{F780}b\u{1F4A9}",
        &mut room,
    ) {
        Some(lost) => println!(rt; "{lost} lost")?,
        None => bail!("there is no room"),
    }
    run_own_texts(rt)?;
    run_converters(rt)?;
    run_first_faults(rt)?;
    run_session_steps(rt, 3)?;
    run_session_steps(rt, 7)?;
    part_runs::recode_parts(
        rt,
        b"\xEF\xBB\xBFA\xFF\n\xE4\xB8\xADB\xFF",
        b"\xEF\xBB\xBFA\xFF\n",
        b"\xE4\xB8\xADB\xFF",
    )
}

fn main(rt: HostRuntime) -> anyhow::Result<()> {
    let alloc = rt.alloc();
    print(rt, "encoding_mem", texts::converts_text())?;
    print(rt, "encoding_labels", texts::finds_a_label())?;
    print(rt, "encoding_tables", texts::decodes_by_a_list(alloc)?)?;
    print(rt, "encoding_codecs", texts::encodes_by_a_list(alloc)?)?;
    print(rt, "encoding_index", texts::loads_a_text(alloc)?)?;
    print(rt, "encoding_front", streams::converts_streams(alloc)?)?;
    print(rt, "recode_log", streams::writes_a_line(alloc)?)?;
    print(rt, "recode_places", places::tells_a_place(alloc)?)?;
    print(rt, "recode_parts", joined_logs::joins_a_log(alloc)?)?;
    print(rt, "a long log", joined_logs::joins_a_long_log(alloc)?)?;
    print(rt, "a broken log", joined_logs::refuses_a_broken_log(alloc))?;
    print(rt, "no log", joined_logs::refuses_a_text(alloc))?;
    print(rt, "recode_words", streams::reads_words(alloc)?)?;
    print(rt, "recode", conversions::converts_a_stream(alloc)?)?;
    print(rt, "recode_places_report", reports::reports_a_place(alloc)?)?;
    print(rt, "recode_system", conversions::answers_words(rt)? <= 4)?;
    run_programs(rt)
}
