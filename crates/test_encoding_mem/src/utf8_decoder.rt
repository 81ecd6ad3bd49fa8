//! The decoder of UTF-8 on a long text, with the result worked by hand.

use encoding_mem::{DecoderResult, RawDecoder, Utf8Decoder};
use std::test::Fail;

// The text is longer than one window of the test for well-formed UTF-8. The end of a window cuts
// it.
#[test]
fn a_long_text_is_decoded_whole(rt: HostRuntime) -> Result<(), Fail> {
    let mut source = Vec::new(rt.alloc());
    for _ in 0..4000 {
        source.extend_from_slice("a€".as_bytes())?;
    }
    source.push(0xFF)?;
    let mut room = std::vec![in rt.alloc(); 0; 20_000]?;
    let answer = Utf8Decoder::new().decode_to_utf8_raw(
        source.as_slice(),
        room.as_mut_slice(),
        true,
    );
    assert_eq!(rt; answer, (DecoderResult::Malformed(1, 0), 16_001, 16_000));
    assert_eq!(rt; room.get(..16_000), source.get(..16_000));
    Ok(())
}
