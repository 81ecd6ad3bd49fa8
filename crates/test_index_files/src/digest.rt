//! FNV-1a over bytes, and over numbers of 32 bits, the lowest byte first.

#[derive(Clone, Copy)]
pub(crate) struct Digest {
    hash: u32,
}

// Added to a digest after each text or sequence, as a mark of its end.
pub(crate) const END: u32 = 0xFFFF_FFFF;

impl Digest {
    pub(crate) fn new() -> Self {
        Digest { hash: 0x811C_9DC5 }
    }

    // Returns the digest so far, and begins a new one.
    pub(crate) fn take(&mut self) -> u32 {
        let hash = self.hash;
        *self = Digest::new();
        hash
    }

    pub(crate) fn add(&mut self, item: u32) {
        self.add_bytes(&item.to_le_bytes());
    }

    pub(crate) fn add_bytes(&mut self, bytes: &[u8]) {
        for byte in bytes {
            self.hash = (self.hash ^ u32::from(*byte)).wrapping_mul(0x0100_0193);
        }
    }
}
