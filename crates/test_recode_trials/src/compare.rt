//! Compares what comes of a conversion.

use anyhow::{bail, ensure};

/// Compares the bytes of a device. If they differ, names the first place where they do.
pub fn same_bytes(name: &str, got: &[u8], want: &[u8]) -> anyhow::Result<()> {
    for (place, (left, right)) in got.iter().zip(want.iter()).enumerate() {
        if left != right {
            bail!("byte {place} of the {name} is {left:02X} and not {right:02X}");
        }
    }
    let (len, wanted) = (got.len(), want.len());
    ensure!(len == wanted, "the {name} has {len} bytes and not {wanted}");
    Ok(())
}

/// Compares the failures of the reader, the writer and the log.
pub fn same_failures(got: [u64; 3], want: [u64; 3]) -> anyhow::Result<()> {
    ensure!(got == want, "the failures are {got:?} and not {want:?}");
    Ok(())
}
