//! Lines that say something of an encoding, a label, a byte order mark or a reference, and lines of
//! whole texts that are encoded.

use anyhow::{Context, ensure};
use encoding_front::{Encoding, Reference, write_reference};
use encoding_tables::{SingleByteDecoder, Tables};
use test_case_lines::kinds::kind_of;
use test_case_lines::report::Report;
use test_case_lines::words::{add_bytes, decimal, halves, scalar, unescaped};
use test_encoding_calls::call_lines::number_or_none;
use test_encoding_calls::names::encoding_of;

fn name_of(encoding: Option<Encoding>) -> &'static str {
    match encoding {
        Some(encoding) => encoding.name(),
        None => "none",
    }
}

// Checks words such as `\tutf8 -> UTF-8` or `bogus -> none`. A label of replacement must also be no
// label for the call that leaves these out.
fn check_label(
    rt: &(impl Print + AllocGlobal),
    words: &str,
    report: &mut Report,
) -> anyhow::Result<()> {
    let (label, name) = halves(words)?;
    let label = unescaped(rt.alloc(), label)?;
    let found = name_of(Encoding::for_label(label.as_slice()));
    let other = name_of(Encoding::for_label_no_replacement(label.as_slice()));
    let expected = if name == "replacement" { "none" } else { name };
    report.compare_texts(rt, "the encoding", found, name)?;
    report.compare_texts(rt, "without replacement", other, expected)
}

// Checks words such as `EFBBBF41 -> UTF-8 3` or `EF -> none 0`: the byte order mark at the start of
// some bytes, and its length.
fn check_bom(
    rt: &(impl Print + AllocGlobal),
    words: &str,
    report: &mut Report,
) -> anyhow::Result<()> {
    let (word, told) = halves(words)?;
    let mut bytes = Vec::new(rt.alloc());
    add_bytes(word, &mut bytes)?;
    let (name, len) = told.split_once(' ').context("a number is missing")?;
    let (found, found_len) = match Encoding::for_bom(bytes.as_slice()) {
        Some((encoding, len)) => (encoding.name(), len),
        None => ("none", 0),
    };
    report.compare_texts(rt, "the mark", found, name)?;
    report.compare(rt, "its length", &found_len, &decimal(len)?)
}

// Returns one of two words.
fn word_for(is_first: bool, first: &'static str, second: &'static str) -> &'static str {
    if is_first { first } else { second }
}

// Returns the words that say what an encoding is.
fn words_of(encoding: Encoding) -> [&'static str; 5] {
    [
        encoding.output_encoding().name(),
        word_for(encoding.can_encode_everything(), "all", "some"),
        word_for(encoding.is_single_byte(), "single", "several"),
        word_for(encoding.is_ascii_compatible(), "ascii", "no-ascii"),
        word_for(encoding.keeps_characters(), "keeps", "folds"),
    ]
}

// Checks words such as `Big5 -> Big5 some several ascii keeps big5`. After the name of an encoding
// and the arrow stand: the encoding of its output; whether that has bytes for all characters or
// some; whether a character has a single byte or several; whether the encoding is compatible with
// ASCII; whether what is written keeps each character or folds some; and the indexes that the
// encoding needs.
fn check_encoding(
    rt: &(impl Print + AllocGlobal),
    words: &str,
    report: &mut Report,
) -> anyhow::Result<()> {
    let (name, told) = halves(words)?;
    let encoding = encoding_of(name)?;
    report.compare_texts(rt, "the name", encoding.name(), name)?;
    let mut words = told.split_whitespace();
    for found in words_of(encoding) {
        report.compare_texts(rt, "a word", found, words.next().unwrap_or(""))?;
    }
    for kind in encoding.needs() {
        let word = words.next().context("an index is missing")?;
        report.compare(rt, "an index", kind, &kind_of(word)?)?;
    }
    report.compare_texts(rt, "behind the last index", words.next().unwrap_or(""), "")
}

// Checks words such as `61620EC3A9FF -> 5 3 2`: how long the prefix is that is UTF-8, the one that
// is ASCII, and the one that is ASCII for ISO-2022-JP.
fn check_prefixes(
    rt: &(impl Print + AllocGlobal),
    words: &str,
    report: &mut Report,
) -> anyhow::Result<()> {
    let (word, told) = halves(words)?;
    let mut bytes = Vec::new(rt.alloc());
    add_bytes(word, &mut bytes)?;
    let lengths = [
        Encoding::utf8_valid_up_to(bytes.as_slice()),
        Encoding::ascii_valid_up_to(bytes.as_slice()),
        Encoding::iso_2022_jp_ascii_valid_up_to(bytes.as_slice()),
    ];
    let mut words = told.split_whitespace();
    for length in lengths {
        let expected = decimal(words.next().unwrap_or(""))?;
        report.compare(rt, "a prefix", &length, &expected)?;
    }
    Ok(())
}

// Checks words such as `windows-1252 41E980 -> 2`: how many of these bytes are Latin1 to the
// decoder of a single-byte encoding. That decoder is called by itself.
fn check_latin1(
    rt: &(impl Print + AllocGlobal),
    tables: &Tables,
    words: &str,
    report: &mut Report,
) -> anyhow::Result<()> {
    let (asked, told) = halves(words)?;
    let (name, word) = asked.split_once(' ').context("a word is missing")?;
    let mut bytes = Vec::new(rt.alloc());
    add_bytes(word, &mut bytes)?;
    match encoding_of(name)?.needs() {
        [kind] if kind.is_single_byte() && tables.has(*kind) => {
            let decoder = SingleByteDecoder::new(tables, *kind);
            let found = decoder.latin1_byte_compatible_up_to(bytes.as_slice());
            report.compare(rt, "latin1", &found, &decimal(told)?)
        }
        _ => report.differs(rt, "no index of a single-byte encoding is there"),
    }
}

// Returns whether the reference of a character is as expected, and the bytes after it are as
// before.
fn is_written(c: char, form: Reference, expected: &str) -> bool {
    let mut dst = [0xEE; 10];
    let len = write_reference(c, form, &mut dst);
    let (written, behind) = dst.split_at(len);
    written == expected.as_bytes() && behind.iter().all(|byte| *byte == 0xEE)
}

// Checks words such as `A5 -> &#165; &#xA5;`: the two references of a character.
fn check_reference(
    rt: &(impl Print + AllocGlobal),
    words: &str,
    report: &mut Report,
) -> anyhow::Result<()> {
    let (word, told) = halves(words)?;
    let c = scalar(word)?;
    let (decimal, hexadecimal) = told.split_once(' ').context("a form is missing")?;
    let are_written = (
        is_written(c, Reference::Decimal, decimal),
        is_written(c, Reference::Hexadecimal, hexadecimal),
    );
    report.compare(rt, "the forms are written", &are_written, &(true, true))
}

// Checks words such as `GBK no`: whether the indexes that an encoding needs are there.
fn check_ready(
    rt: &(impl Print + AllocGlobal),
    tables: &Tables,
    words: &str,
    report: &mut Report,
) -> anyhow::Result<()> {
    let (name, told) = words.split_once(' ').context("a word is missing")?;
    ensure!(told == "yes" || told == "no", "neither `yes` nor `no`");
    let is_ready = encoding_of(name)?.is_ready(tables);
    report.compare(rt, "the indexes are there", &is_ready, &(told == "yes"))
}

// Checks words such as `ISO-2022-JP 7 -> 31 41 38 48`: the rooms that an `Encoder` asks for. The
// first two are for so many bytes: without references, and if all characters have bytes. The last
// two are for so many units, in the same two cases.
fn check_rooms(
    rt: &(impl Print + AllocGlobal),
    tables: &Tables,
    words: &str,
    report: &mut Report,
) -> anyhow::Result<()> {
    let (asked, told) = halves(words)?;
    let (name, n) = asked.split_once(' ').context("a number is missing")?;
    let encoding = encoding_of(name)?;
    let n = decimal(n)?;
    if !encoding.output_encoding().is_ready(tables) {
        return report.differs(rt, "an index is not there");
    }
    let encoder = encoding.new_encoder(tables);
    let rooms = [
        encoder.max_buffer_length_from_utf8_without_replacement(n),
        encoder.max_buffer_length_from_utf8_if_no_unmappables(n),
        encoder.max_buffer_length_from_utf16_without_replacement(n),
        encoder.max_buffer_length_from_utf16_if_no_unmappables(n),
    ];
    let mut words = told.split_whitespace();
    for room in rooms {
        let expected = number_or_none(words.next().unwrap_or(""))?;
        report.compare(rt, "a room", &room, &expected)?;
    }
    Ok(())
}

// Checks words such as `windows-1257 61 20AC -> windows-1257 not-lost 61 80`: a whole text, the
// encoding of its output, whether a reference was written, and the bytes.
fn check_whole(
    rt: &(impl Print + AllocGlobal),
    tables: &Tables,
    words: &str,
    report: &mut Report,
) -> anyhow::Result<()> {
    let alloc = rt.alloc();
    let (asked, told) = halves(words)?;
    let (name, characters) = asked.split_once(' ').unwrap_or((asked, ""));
    let encoding = encoding_of(name)?;
    let mut text = String::new(alloc);
    for word in characters.split_whitespace() {
        text.push(scalar(word)?)?;
    }
    if !encoding.output_encoding().is_ready(tables) {
        return report.differs(rt, "an index is not there");
    }
    let (bytes, output, is_lost) = encoding.encode(alloc, tables, text.as_str())?;
    let lost = word_for(is_lost, "lost", "not-lost");
    check_written(rt, (output.name(), lost, bytes.as_slice()), told, report)
}

// Compares the result of a whole text with words such as `windows-1257 not-lost 61 80`.
fn check_written(
    rt: &(impl Print + AllocGlobal),
    (output, lost, bytes): (&str, &str, &[u8]),
    told: &str,
    report: &mut Report,
) -> anyhow::Result<()> {
    let (name, rest) = told.split_once(' ').context("a word is missing")?;
    let (word, digits) = rest.split_once(' ').unwrap_or((rest, ""));
    report.compare_texts(rt, "the output", output, name)?;
    report.compare_texts(rt, "whether it is lost", lost, word)?;
    let mut expected = Vec::new(rt.alloc());
    for byte in digits.split_whitespace() {
        add_bytes(byte, &mut expected)?;
    }
    report.compare(rt, "the bytes", &bytes, &expected.as_slice())
}

// Checks a line that says something by itself. Returns whether its first word is known.
pub(crate) fn check_saying(
    rt: &(impl Print + AllocGlobal),
    tables: &Tables,
    word: &str,
    words: &str,
    report: &mut Report,
) -> anyhow::Result<bool> {
    match word {
        "label" => check_label(rt, words, report)?,
        "bom" => check_bom(rt, words, report)?,
        "encoding" => check_encoding(rt, words, report)?,
        "prefixes" => check_prefixes(rt, words, report)?,
        "latin1" => check_latin1(rt, tables, words, report)?,
        "reference" => check_reference(rt, words, report)?,
        "ready" => check_ready(rt, tables, words, report)?,
        "rooms" => check_rooms(rt, tables, words, report)?,
        "whole" => check_whole(rt, tables, words, report)?,
        _ => return Ok(false),
    }
    report.count_case();
    report.count_conversion();
    Ok(true)
}
