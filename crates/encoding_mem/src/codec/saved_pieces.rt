//! What a decoder keeps between calls, as plain words.

ghost use Rattle.std.specs.Prelude.{◌≡◌, ◌≤◌, length};
ghost use Rattle.encoding_mem.specs.calls.Resuming.{saved_bytes};

/// Up to 6 bytes, as plain words that can be copied.
#[derive(Clone, Copy)]
pub struct SavedBytes {
    /// How many bytes there are, at most 6: a greater number is taken as 6.
    pub len: u8,
    /// The bytes, and after them any others.
    pub bytes: [u8; 6],
}

impl SavedBytes {
    /// These bytes. The condition is that they are at most 6.
    pub fn new(bytes: &[u8]) -> Self
        requires { length bytes.now ≤ 6 }
        ensures { saved_bytes result ≡ bytes.now }
    {
        let mut first = [0; 6];
        first[..bytes.len()].copy_from_slice(bytes);
        SavedBytes {
            len: bytes.len() as u8,
            bytes: first,
        }
    }

    /// The bytes.
    pub fn as_slice(&self) -> &[u8]
        ensures bytes { result.now ≡ saved_bytes self.now }
        ensures few { length result.now ≤ 6 }
    {
        &self.bytes[..usize::from(self.len).min(6)]
    }
}

/// What a decoder keeps between calls, beside what its encoding fixes: plain words, from which
/// another decoder of the same encoding goes on (`SinkDecoder::resume`).
#[derive(Clone, Copy)]
pub struct SavedPieces {
    /// The number of the mode in force; any number in an encoding without modes.
    pub mode: u8,
    /// The bytes that are pending: read, but in no piece that is decided.
    pub pending: SavedBytes,
}
