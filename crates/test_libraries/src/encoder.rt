//! An `Encoder` that writes into the spare capacity of bytes, and the encoding that it writes.

use encoding_front::{
    CoderResult, REPLACEMENT, UTF_8, UTF_16BE, UTF_16LE, WINDOWS_1252, WINDOWS_1253,
};
use encoding_mem::EncoderResult;
use encoding_tables::{IndexKind, Tables};
use std::test::Fail;

// The spare capacity is the room: 14 of 16 bytes. The call that writes references keeps 10 of these
// back.
#[test]
fn into_the_spare_capacity(rt: HostRuntime) -> Result<(), Fail> {
    let mut greek = [0; 128];
    greek[65] = 0x391;
    greek[116] = 0x3C4;
    let mut tables = Tables::new(rt.alloc());
    let _ = tables.insert(IndexKind::Windows1253, &greek);
    assert!(rt; WINDOWS_1253.is_ready(&tables));
    let mut encoder = WINDOWS_1253.new_encoder(&tables);
    let mut dst = Vec::with_capacity(rt.alloc(), 16)?;
    dst.extend_from_slice(b"ab")?;
    let told = encoder.encode_from_utf8_to_vec("\u{3C4}\u{1F4A9}c", &mut dst, true);
    assert_eq!(rt; told, (CoderResult::OutputFull, 6, true));
    assert_eq!(rt; dst.as_slice(), b"ab\xF4&#128169;".as_slice());
    assert_eq!(rt; dst.capacity(), 16);
    let told = encoder.encode_from_utf8_to_vec_without_replacement("cdefg", &mut dst, true);
    assert_eq!(rt; told, (EncoderResult::OutputFull, 4));
    assert_eq!(rt; dst.as_slice(), b"ab\xF4&#128169;cdef".as_slice());
    assert_eq!(rt; dst.capacity(), 16);
    Ok(())
}

#[test]
fn the_output_encoding_is_written(rt: HostRuntime) -> Result<(), Fail> {
    let mut tables = Tables::new(rt.alloc());
    let _ = tables.insert(IndexKind::Windows1252, &[0xE9; 128]);
    for (encoding, output) in [
        (UTF_8, UTF_8),
        (UTF_16BE, UTF_8),
        (UTF_16LE, UTF_8),
        (REPLACEMENT, UTF_8),
        (WINDOWS_1252, WINDOWS_1252),
    ] {
        assert_eq!(rt; encoding.output_encoding(), output);
        assert!(rt; encoding.output_encoding().is_ready(&tables));
        let encoder = encoding.new_encoder(&tables);
        assert_eq!(rt; encoder.encoding(), output);
        let text = std::format!(in rt.alloc(); "{encoder:?}")?;
        assert!(rt; text.contains(output.name()), "{text}");
    }
    Ok(())
}
