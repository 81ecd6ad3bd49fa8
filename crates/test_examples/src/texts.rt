//! Examples of the libraries of texts, tables and indexes.

use encoding_codecs::EucKrEncoder;
use encoding_index::load;
use encoding_labels::{label_number, places};
use encoding_mem::{
    DecoderResult, EncoderResult, RawDecoder, RawEncoder, Utf8Decoder,
    convert_utf16_to_utf8_partial, is_utf8_latin1, utf8_valid_up_to,
};
use encoding_tables::{IndexKind, SingleByteDecoder, Tables};
use std::alloc::Global;

pub(crate) fn converts_text() -> bool {
    // encoding_mem
    let valid = utf8_valid_up_to(b"caf\xC3\xA9 \xFF");
    let latin1 = is_utf8_latin1(b"caf\xC3\xA9");
    let mut bytes = [0; 8];
    let (read, written) = convert_utf16_to_utf8_partial(&[0x63, 0xE9], &mut bytes);
    let mut decoder = Utf8Decoder::new();
    let mut units = [0; 8];
    let (result, _, text_len) = decoder.decode_to_utf16_raw(b"\xC3\xA9\xFF", &mut units, true);
    // end
    let decoded = result == DecoderResult::Malformed(1, 0) && text_len == 1 && units[0] == 0xE9;
    valid == 6 && latin1 && read == 2 && written == 3 && decoded
}

pub(crate) fn finds_a_label() -> bool {
    // encoding_labels
    let known = label_number(b" Latin1 ");
    let unknown = label_number(b"latin-one");
    // end
    known == Some(places::WINDOWS_1252) && unknown.is_none()
}

pub(crate) fn decodes_by_a_list(alloc: Global) -> anyhow::Result<bool> {
    // encoding_tables
    let kind = IndexKind::Windows1252;
    let mut list = vec![in alloc; 0u32; 128]?;
    list[0] = 0x20AC;
    let mut tables = Tables::new(alloc);
    tables.insert(kind, &list)?;
    if !tables.has(kind) {
        return Ok(false);
    }
    let mut decoder = SingleByteDecoder::new(&tables, kind);
    let mut text = [0; 8];
    let (result, read, written) = decoder.decode_to_utf8_raw(b"a\x80", &mut text, true);
    // end
    Ok(
        result == DecoderResult::InputEmpty
            && read == 2
            && &text[..written] == b"a\xE2\x82\xAC".as_slice(),
    )
}

pub(crate) fn encodes_by_a_list(alloc: Global) -> anyhow::Result<bool> {
    // encoding_codecs
    let mut tables = Tables::new(alloc);
    tables.insert_rows(IndexKind::EucKr, &[(0, 0xAC02)])?;
    if !tables.has(IndexKind::EucKr) {
        return Ok(false);
    }
    let mut encoder = EucKrEncoder::new(&tables);
    let mut bytes = [0; 8];
    let (result, read, written) = encoder.encode_from_utf8_raw("a\u{AC02}", &mut bytes, true);
    // end
    Ok(
        result == EncoderResult::InputEmpty
            && read == 4
            && &bytes[..written] == b"a\x81\x41".as_slice(),
    )
}

pub(crate) fn loads_a_text(alloc: Global) -> anyhow::Result<bool> {
    // encoding_index
    let kind = IndexKind::Windows1252;
    let mut tables = Tables::new(alloc);
    load(alloc, &mut tables, kind, b"# an index\n  0\t0x20AC\n")?;
    if !tables.has(kind) {
        return Ok(false);
    }
    let euro = tables.value(kind, 0);
    // end
    Ok(euro == Some('\u{20AC}'))
}
